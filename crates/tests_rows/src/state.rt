//! The state broadcast.

use crate::Row;

/// On the state, as a script, and on each type that threads share.
pub const ROWS: [Row; 3] = [
    Row {
        name: "state_broadcast_numbers",
        text: "state-broadcast
try-receive 0 -> none
send 9 -> ok
try-receive 0 -> some 1 9
receive a 0
poll a 1 -> some 1 9
receive b 1
poll b 2 -> pending
send 10 -> ok wakes 2
close -> newly-closed
poll b 2 -> some 2 10
receive c 2
poll c 3 -> none
send 11 -> closed 11",
    },
    Row {
        name: "state_broadcast_asked_number",
        text: "state-broadcast
send 9 -> ok
try-receive 1 -> none
try-receive 0 -> some 1 9
send 8 -> ok
try-receive 2 -> none
try-receive 1 -> some 2 8
send 7 -> ok
try-receive 2 -> some 3 7
try-receive 3 -> none",
    },
    Row {
        name: "state_broadcast_tries",
        text: "state-broadcast
send 9 -> ok
send 10 -> ok
try-receive 1 -> some 2 10
try-receive 2 -> none
close -> newly-closed
close -> already-closed
try-receive 1 -> some 2 10",
    },
];
