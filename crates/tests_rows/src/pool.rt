//! The worker pool.

use crate::Row;

/// As scripts; no type that threads share has these calls.
pub const ROWS: [Row; 3] = [
    Row {
        name: "pool_drains",
        text: "pool 1 2
submit 5 -> ok
submit 6 -> ok
submit 7 -> full 7
start -> some 5
start -> none
submit 7 -> ok
wait d
poll d 1 -> pending
shutdown -> newly-closed
submit 8 -> closed 8
finish -> ok
start -> some 6
finish -> ok
start -> some 7
finish -> ok wakes 1
poll d 1 -> ready
start -> closed
finish -> not-held
shutdown -> already-closed",
    },
    Row {
        name: "pool_without_places",
        text: "pool 0 0
submit 1 -> full 1
start -> none
finish -> not-held
wait w
poll w 1 -> pending
shutdown -> newly-closed wakes 1
poll w 1 -> ready
submit 1 -> closed 1
start -> none",
    },
    Row {
        name: "pool_every_line",
        text: "pool 18446744073709551615 65536
start -> empty
hold finish -> not-held
hold wait a
hold poll a 18446744073709551615 -> pending
wait b
poll b 0 -> pending
wait c
poll c 7 -> pending
hold submit 18446744073709551615 -> ok
submit 0 -> ok
hold start -> some 18446744073709551615
start -> some 0
hold cancel b -> ok
hold shutdown -> newly-closed
finish -> ok
hold finish -> ok
wakes -> ok wakes 18446744073709551615 7
wakes -> ok
poll a 2 -> ready
poll a 2 -> no-slot
cancel a -> ok
cancel c -> ok
hold start -> closed
hold shutdown -> already-closed
wait a
poll a 3 -> ready",
    },
];
