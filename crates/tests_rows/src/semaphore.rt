//! The semaphore.

use crate::Row;

/// On the state, as a script, and on each type that threads share.
pub const ROWS: [Row; 12] = [
    Row {
        name: "semaphore_fair_cancel",
        text: "semaphore fair 3
acquire a 5
acquire b 2
poll a 1 -> pending
poll b 2 -> pending
cancel a -> ok wakes 2
poll b 2 -> ready
permits -> 1
held -> 2",
    },
    Row {
        name: "semaphore_unfair_mixed",
        text: "semaphore unfair 0
acquire a 3
acquire b 3
acquire c 1
poll a 1 -> pending
poll b 2 -> pending
poll c 3 -> pending
release 4 -> ok wakes 1
poll b 2 -> ready
permits -> 1
poll a 1 -> pending
wakes -> ok
poll c 3 -> ready
permits -> 0",
    },
    Row {
        name: "semaphore_limits",
        text: "semaphore unfair 18446744073709551615
try-acquire 1 -> ok
release 1 -> overflow
release 0 -> ok
give-back 1 -> ok
permits -> 18446744073709551615
give-back 1 -> not-held",
    },
    Row {
        name: "semaphore_disarm",
        text: "semaphore unfair 2
try-acquire 2 -> ok
disarm 2 -> ok
held -> 0
give-back 1 -> not-held
release 2 -> ok
permits -> 2",
    },
    Row {
        name: "semaphore_zero_permits",
        text: "semaphore fair 1
acquire a 2
poll a 1 -> pending
acquire b 0
poll b 2 -> ready
try-acquire 0 -> ok
try-acquire 1 -> none
release 1 -> ok wakes 1
try-acquire 1 -> none
poll a 1 -> ready
permits -> 0
held -> 2",
    },
    Row {
        name: "semaphore_fair_round_after_cancel",
        text: "semaphore fair 2
acquire a 3
acquire b 3
acquire c 1
poll a 1 -> pending
poll b 2 -> pending
poll c 3 -> pending
cancel a -> ok
cancel b -> ok wakes 3
cancel c -> ok
permits -> 2",
    },
    Row {
        name: "semaphore_tells_several",
        text: "semaphore fair 0
acquire a 1
acquire b 2
acquire c 2
acquire d 1
poll a 1 -> pending
poll b 2 -> pending
poll c 3 -> pending
poll d 4 -> pending
release 4 -> ok wakes 1 2
poll c 3 -> pending
poll b 2 -> ready
permits -> 2
cancel a -> ok wakes 3
poll c 3 -> ready
permits -> 0
give-back 2 -> ok wakes 4
poll d 4 -> ready
permits -> 1
held -> 3",
    },
    Row {
        name: "semaphore_told_stays_first",
        text: "semaphore fair 1
acquire a 2
poll a 1 -> pending
release 2 -> ok wakes 1
acquire b 1
poll b 2 -> pending
release 1 -> ok wakes 2
poll b 2 -> ready
poll a 1 -> ready
permits -> 1
held -> 3",
    },
    Row {
        name: "semaphore_given_back",
        text: "semaphore fair 3
acquire a 2
poll a 1 -> ready
permits -> 1
held -> 2
give-back 2 -> ok
permits -> 3
held -> 0",
    },
    Row {
        name: "semaphore_most_permits",
        text: "semaphore unfair 2
release 18446744073709551615 -> overflow
permits -> 2
try-acquire 3 -> none
try-acquire 0 -> ok
acquire a 18446744073709551615
release 18446744073709551613 -> ok
permits -> 18446744073709551615",
    },
    Row {
        name: "semaphore_unfair_passes_who_waits",
        text: "semaphore unfair 2
acquire a 3
poll a 1 -> pending
try-acquire 1 -> ok",
    },
    Row {
        name: "semaphore_fair_passes_nobody",
        text: "semaphore fair 2
acquire a 3
poll a 1 -> pending
try-acquire 1 -> none",
    },
];

/// As scripts alone: the greatest numbers, which no task of the tests has as its waker, and each word of the language.
pub const TEXTS: [Row; 1] = [Row {
    name: "semaphore_every_line",
    text: "semaphore unfair 1
hold acquire a 1
hold poll a 18446744073709551615 -> ready
poll a 1 -> no-slot
disarm 2 -> not-held
hold disarm 1 -> ok
acquire b 18446744073709551615
poll b 18446744073709551615 -> pending
try-acquire 1 -> none
hold try-acquire 0 -> ok
hold release 18446744073709551615 -> ok
hold permits -> 18446744073709551615
hold held -> 0
wakes -> ok wakes 18446744073709551615
wakes -> ok
poll b 2 -> ready
release 1 -> overflow
hold give-back 18446744073709551615 -> ok
disarm 18446744073709551615 -> not-held
hold cancel b -> ok
cancel a -> ok
acquire b 0",
}];
