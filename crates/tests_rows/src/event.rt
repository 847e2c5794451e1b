//! The event.

use crate::Row;

/// On the state, as a script, and on each type that threads share.
pub const ROWS: [Row; 11] = [
    Row {
        name: "event_set_and_reset",
        text: "event reset
wait w
poll w 1 -> pending
set -> ok wakes 1
reset -> ok
poll w 2 -> ready
wait v
poll v 3 -> pending",
    },
    Row {
        name: "event_cancels",
        text: "event reset
wait a
wait b
wait c
wait d
wait e
poll a 1 -> pending
poll b 2 -> pending
poll c 3 -> pending
poll d 4 -> pending
poll e 5 -> pending
cancel b -> ok
cancel d -> ok
set -> ok wakes 1 3 5
poll c 3 -> ready",
    },
    Row {
        name: "event_newest_waker",
        text: "event reset
wait w
poll w 1 -> pending
poll w 2 -> pending
set -> ok wakes 2
poll w 2 -> ready",
    },
    Row {
        name: "event_held_wake",
        text: "event reset
wait w
poll w 1 -> pending
hold set -> ok
poll w 2 -> ready
wakes -> ok",
    },
    Row {
        name: "event_ended_wait",
        text: "event set
wait w
poll w 1 -> ready
poll w 1 -> no-slot
cancel w -> ok",
    },
    Row {
        name: "event_cancel_told",
        text: "event reset
wait a
wait b
poll a 1 -> pending
poll b 2 -> pending
hold set -> ok
cancel a -> ok wakes 2",
    },
    Row {
        name: "event_is_set",
        text: "event reset
is-set -> false
wait a
poll a 1 -> pending
set -> ok wakes 1
is-set -> true
set -> ok
reset -> ok
is-set -> false
poll a 2 -> ready",
    },
    Row {
        name: "event_ended_beside_a_wait",
        text: "event set
wait a
poll a 1 -> ready
reset -> ok
wait b
poll b 2 -> pending
poll a 1 -> no-slot
is-set -> false
set -> ok wakes 2
cancel a -> ok",
    },
    Row {
        name: "event_told_wait_is_cancelled",
        text: "event reset
wait a
wait b
poll a 1 -> pending
poll b 2 -> pending
set -> ok wakes 1 2
reset -> ok
wait c
poll c 3 -> pending
cancel a -> ok
poll b 2 -> ready",
    },
    Row {
        name: "event_cancelled_waits",
        text: "event reset
wait a
poll a 1 -> pending
cancel a -> ok
wait b
cancel b -> ok
set -> ok",
    },
    Row {
        name: "event_polled_by_the_same_task",
        text: "event reset
wait a
poll a 1 -> pending
poll a 1 -> pending
poll a 1 -> pending
set -> ok wakes 1
poll a 1 -> ready",
    },
];

/// As scripts alone: the greatest numbers, which no task of the tests has as its waker, and each word of the language.
pub const TEXTS: [Row; 2] = [
    Row {
        name: "event_every_line",
        text: "event set
is-set -> true
hold wait a
reset -> ok
is-set -> false
hold poll a 18446744073709551615 -> pending
wait abcdefghijklmn09
poll abcdefghijklmn09 0 -> pending
hold set -> ok
hold is-set -> true
hold reset -> ok
wakes -> ok wakes 18446744073709551615 0
wakes -> ok
hold cancel a -> ok
wait a
cancel a -> ok",
    },
    Row {
        name: "event_history_of_a_desk",
        text: "event reset
hold wait w0
hold poll w0 1 -> pending
hold wait w1
hold poll w1 2 -> pending
set -> ok wakes 1 2
hold poll w1 2 -> ready
hold cancel w1 -> ok
hold poll w0 1 -> ready
hold cancel w0 -> ok",
    },
];
