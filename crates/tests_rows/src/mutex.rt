//! The mutex.

use crate::Row;

/// On the state, as a script, and on each type that threads share.
pub const ROWS: [Row; 4] = [
    Row {
        name: "mutex_unfair",
        text: "mutex unfair 7
try-lock -> some 7
lock a
lock b
poll a 1 -> pending
poll b 2 -> pending
unlock 8 -> ok wakes 1
try-lock -> some 8
poll a 3 -> pending
unlock 9 -> ok wakes 2
cancel b -> ok wakes 3
poll a 3 -> some 9",
    },
    Row {
        name: "mutex_fair",
        text: "mutex fair 7
try-lock -> some 7
lock a
lock b
poll a 1 -> pending
poll b 2 -> pending
unlock 8 -> ok wakes 1
try-lock -> none
poll b 2 -> pending
poll a 1 -> some 8
is-locked -> true
unlock 9 -> ok wakes 2",
    },
    Row {
        name: "mutex_told_and_polled",
        text: "mutex fair 0
lock a
poll a 1 -> some 0
lock b
poll b 2 -> pending
hold unlock 1 -> ok
poll b 3 -> some 1
wakes -> ok",
    },
    Row {
        name: "mutex_told_lock_is_cancelled",
        text: "mutex fair 7
try-lock -> some 7
lock a
poll a 1 -> pending
unlock 9 -> ok wakes 1
cancel a -> ok
lock b
cancel b -> ok
is-locked -> false",
    },
];

/// As scripts alone: the greatest numbers, which no task of the tests has as its waker, and each word of the language.
pub const TEXTS: [Row; 1] = [Row {
    name: "mutex_every_line",
    text: "mutex unfair 18446744073709551615
is-locked -> false
unlock 8 -> not-held 8
lock a
poll a 1 -> some 18446744073709551615
poll a 1 -> no-slot
hold is-locked -> true
hold try-lock -> none
hold lock b
poll b 18446744073709551615 -> pending
hold unlock 0 -> ok
wakes -> ok wakes 18446744073709551615
wakes -> ok
try-lock -> some 0
unlock 18446744073709551615 -> ok
hold poll b 2 -> some 18446744073709551615
cancel a -> ok
hold cancel b -> ok
lock a
is-locked -> true",
}];
