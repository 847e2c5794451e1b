//! The oneshot and the oneshot broadcast.

use crate::Row;

/// On the state, as a script, and on each type that threads share.
pub const ONESHOT: [Row; 3] = [
    Row {
        name: "oneshot_one_value",
        text: "oneshot
receive a
receive b
poll a 1 -> pending
poll b 2 -> pending
send 5 -> ok wakes 1 2
poll b 2 -> some 5
poll a 1 -> none
send 7 -> closed 7
close -> already-closed",
    },
    Row {
        name: "oneshot_close",
        text: "oneshot
receive a
poll a 1 -> pending
close -> newly-closed wakes 1
close -> already-closed
send 5 -> closed 5
poll a 1 -> none
poll a 1 -> no-slot
cancel a -> ok",
    },
    Row {
        name: "oneshot_at_once",
        text: "oneshot
try-receive -> empty
receive a
poll a 1 -> pending
try-receive -> empty
send 5 -> ok wakes 1
try-receive -> some 5
poll a 1 -> none
try-receive -> none
close -> already-closed",
    },
];

/// The same, of the broadcast.
pub const BROADCAST: [Row; 3] = [
    Row {
        name: "broadcast_clones",
        text: "oneshot-broadcast
receive a
receive b
poll a 1 -> pending
poll b 2 -> pending
send 5 -> ok wakes 1 2
poll a 1 -> some 5
poll b 2 -> some 5
close -> already-closed
receive c
poll c 3 -> some 5
send 6 -> closed 6",
    },
    Row {
        name: "broadcast_ended_beside_a_receive",
        text: "oneshot-broadcast
receive a
receive b
send 5 -> ok
poll b 1 -> some 5
poll b 1 -> no-slot
poll a 1 -> some 5",
    },
    Row {
        name: "broadcast_at_once",
        text: "oneshot-broadcast
try-receive -> empty
receive a
send 5 -> ok
try-receive -> some 5
poll a 1 -> some 5
try-receive -> some 5
close -> already-closed
try-receive -> some 5",
    },
];
