//! Histories as `write_script` writes them: a future's label is a letter and its slot, and a line whose wakers are not taken out is held.
//! A call that found no future has no line there.

use crate::Row;

pub const EVENT_HISTORY: Row = Row {
    name: "event_history",
    text: "event reset
hold wait w0
hold poll w0 1 -> pending
hold wait w1
hold poll w1 2 -> pending
set -> ok wakes 1 2
hold poll w0 1 -> ready
hold cancel w0 -> ok
hold reset -> ok
hold wait w0
poll w0 3 -> pending
hold is-set -> false
hold set -> ok
hold poll w1 4 -> ready
hold poll w1 5 -> no-slot
wakes -> ok wakes 3",
};

pub const ONESHOT_HISTORY: Row = Row {
    name: "oneshot_history",
    text: "oneshot
hold receive r0
hold receive r1
hold poll r0 1 -> pending
hold poll r1 2 -> pending
send 5 -> ok wakes 1 2
hold poll r1 2 -> some 5
hold poll r0 1 -> none
hold cancel r1 -> ok
hold receive r1
hold poll r1 3 -> none
hold try-receive -> none
hold send 7 -> closed 7
hold close -> already-closed",
};

pub const BROADCAST_HISTORY: Row = Row {
    name: "broadcast_history",
    text: "oneshot-broadcast
hold receive r0
hold poll r0 1 -> pending
hold receive r1
hold poll r1 2 -> pending
send 5 -> ok wakes 1 2
hold poll r0 1 -> some 5
hold poll r1 2 -> some 5
hold cancel r0 -> ok
hold receive r0
hold poll r0 3 -> some 5
hold close -> already-closed
hold send 6 -> closed 6",
};

pub const STATE_BROADCAST_HISTORY: Row = Row {
    name: "state_broadcast_history",
    text: "state-broadcast
hold try-receive 0 -> none
hold send 9 -> ok
hold try-receive 0 -> some 1 9
hold receive r0 0
hold poll r0 1 -> some 1 9
hold cancel r0 -> ok
hold receive r0 1
hold poll r0 2 -> pending
hold receive r1 1
hold poll r1 3 -> pending
send 10 -> ok wakes 2 3
hold close -> newly-closed
hold poll r0 2 -> some 2 10
hold receive r2 2
hold poll r2 4 -> none
hold send 11 -> closed 11",
};

pub const CHANNEL_HISTORY: Row = Row {
    name: "channel_history",
    text: "channel array 1
hold send s0 1
hold poll s0 1 -> ok
hold send s1 2
hold poll s1 2 -> pending
hold try-send 3 -> full 3
hold receive r0
poll r0 3 -> some 1 wakes 2
hold poll s1 2 -> ok
hold cancel s1 -> none
hold send s1 4
hold cancel s1 -> some 4
hold stream r1
hold poll r1 4 -> some 2
hold poll r1 4 -> pending
hold cancel r0 -> ok
hold receive r0
hold poll r0 5 -> pending
hold try-receive -> empty
close -> newly-closed wakes 4 5
hold poll r1 4 -> end
hold poll r0 5 -> none
hold try-send 6 -> closed 6
hold cancel r1 -> ok",
};

pub const MUTEX_HISTORY: Row = Row {
    name: "mutex_history",
    text: "mutex fair 7
hold try-lock -> some 7
hold lock l0
hold lock l1
hold poll l0 1 -> pending
hold poll l1 2 -> pending
unlock 8 -> ok wakes 1
hold try-lock -> none
cancel l0 -> ok wakes 2
hold lock l0
hold poll l1 2 -> some 8
hold poll l0 3 -> pending
hold unlock 9 -> ok
unlock 10 -> not-held 10 wakes 3
hold is-locked -> false
hold poll l0 3 -> some 9",
};

pub const SEMAPHORE_HISTORY: Row = Row {
    name: "semaphore_history",
    text: "semaphore fair 0
hold acquire a0 1
hold acquire a1 2
hold acquire a2 2
hold poll a0 1 -> pending
hold poll a1 2 -> pending
hold poll a2 3 -> pending
release 4 -> ok wakes 1 2
hold poll a1 2 -> ready
hold permits -> 2
cancel a0 -> ok wakes 3
hold acquire a0 9
hold poll a2 3 -> ready
hold held -> 4
hold give-back 5 -> not-held
hold disarm 1 -> ok
hold give-back 2 -> ok
hold try-acquire 1 -> ok
hold try-acquire 5 -> none
hold release 18446744073709551615 -> overflow",
};

pub const TIMER_HISTORY: Row = Row {
    name: "timer_history",
    text: "timer
hold deadline t0 30
hold delay t1 4 6
hold poll t0 0 1 -> pending
hold poll t1 4 2 -> pending
hold next -> some 10
check 30 -> ok wakes 2 1
hold poll t1 30 2 -> ready
hold cancel t1 -> ok
hold deadline t1 50
hold poll t1 40 3 -> pending
hold cancel t1 -> ok
hold next -> none",
};

pub const POOL_HISTORY: Row = Row {
    name: "pool_history",
    text: "pool 1 2
hold submit 5 -> ok
hold submit 6 -> ok
hold submit 7 -> full 7
hold start -> some 5
hold start -> none
hold wait w0
hold poll w0 1 -> pending
hold wait w1
hold cancel w1 -> ok
hold wait w1
hold poll w1 3 -> pending
hold shutdown -> newly-closed
hold submit 8 -> closed 8
hold finish -> ok
hold start -> some 6
finish -> ok wakes 1 3
hold poll w0 1 -> ready
hold start -> closed
hold finish -> not-held
hold shutdown -> already-closed",
};
