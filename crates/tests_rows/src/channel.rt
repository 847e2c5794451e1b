//! The channel of many values, over an array or, in the place of `array`, over each heap buffer.

use crate::Row;

/// On the state, as a script, and on each type that threads share.
pub const ROWS: [Row; 15] = [
    Row {
        name: "buffer_order",
        text: "channel array 5
try-send 1 -> ok
try-send 2 -> ok
try-send 3 -> ok
try-receive -> some 1
try-receive -> some 2
try-receive -> some 3
try-receive -> empty
try-send 4 -> ok
try-send 5 -> ok
try-send 6 -> ok
try-send 7 -> ok
try-send 8 -> ok
try-send 9 -> full 9
try-receive -> some 4
try-receive -> some 5
try-receive -> some 6
try-receive -> some 7
try-receive -> some 8
try-receive -> empty",
    },
    Row {
        name: "channel_two_places",
        text: "channel array 2
send a 1
send b 2
send c 3
poll a 1 -> ok
poll b 2 -> ok
poll c 3 -> pending
try-receive -> some 1 wakes 3
try-receive -> some 2
try-receive -> some 3
try-receive -> empty
poll c 3 -> ok",
    },
    Row {
        name: "channel_rendezvous",
        text: "channel array 0
receive a
receive b
poll a 1 -> pending
poll b 2 -> pending
send s 7
poll s 3 -> pending wakes 1
cancel a -> ok wakes 2
poll b 2 -> some 7 wakes 3
poll s 3 -> ok",
    },
    Row {
        name: "channel_close",
        text: "channel array 1
send a 1
poll a 1 -> ok
send b 2
poll b 2 -> pending
close -> newly-closed wakes 2
poll b 2 -> closed 2
receive r
poll r 3 -> some 1
receive q
poll q 4 -> none
close -> already-closed",
    },
    Row {
        name: "channel_close_wakes_all",
        text: "channel array 1
send a 1
poll a 1 -> ok
send b 2
poll b 2 -> pending
send c 3
poll c 3 -> pending
close -> newly-closed wakes 2 3
poll b 2 -> closed 2
cancel b -> none
cancel c -> some 3
receive r
poll r 3 -> some 1
receive q
poll q 4 -> none
close -> already-closed",
    },
    Row {
        name: "channel_cancelled_send",
        text: "channel array 1
send a 1
poll a 1 -> ok
send b 2
poll b 2 -> pending
send c 3
poll c 3 -> pending
cancel b -> some 2
try-receive -> some 1 wakes 3
cancel c -> none
try-receive -> some 3
try-receive -> empty",
    },
    Row {
        name: "channel_full_or_closed",
        text: "channel array 0
try-send 1 -> full 1
close -> newly-closed
try-send 1 -> closed 1",
    },
    Row {
        name: "channel_told_receive_passed",
        text: "channel array 1
receive a
receive b
poll a 1 -> pending
poll b 2 -> pending
try-send 4 -> ok wakes 1
send s 5
poll s 3 -> pending wakes 2
poll b 2 -> some 4 wakes 3
poll a 1 -> some 5
poll s 3 -> ok",
    },
    Row {
        name: "channel_cancel_unpolled",
        text: "channel array 2
send a 9
cancel a -> some 9
try-receive -> empty",
    },
    Row {
        name: "channel_cancels_held",
        text: "channel array 0
receive a
receive b
receive c
poll a 1 -> pending
poll b 2 -> pending
poll c 3 -> pending
send s 7
hold poll s 4 -> pending
hold cancel a -> ok
hold cancel b -> ok
cancel c -> ok
receive d
poll d 5 -> some 7 wakes 4
poll s 4 -> ok",
    },
    Row {
        name: "channel_told_receive_is_cancelled",
        text: "channel array 1
receive a
poll a 1 -> pending
hold try-send 4 -> ok
cancel a -> ok
try-receive -> some 4",
    },
    Row {
        name: "channel_closed_with_values",
        text: "channel array 1
try-send 1 -> ok
send a 2
poll a 1 -> pending
send b 3
poll b 2 -> pending
close -> newly-closed wakes 1 2
poll a 1 -> closed 2
cancel b -> some 3
try-receive -> some 1
try-receive -> closed",
    },
    Row {
        name: "channel_ended_send",
        text: "channel array 1
send a 1
poll a 1 -> ok
poll a 1 -> no-slot
cancel a -> none
try-receive -> some 1",
    },
    Row {
        name: "stream_ends",
        text: "channel array 1
try-send 4 -> ok
close -> newly-closed
stream s
poll s 1 -> some 4
poll s 1 -> end
poll s 1 -> end
cancel s -> ok
try-receive -> closed",
    },
    Row {
        name: "stream_rendezvous",
        text: "channel array 0
send a 1
poll a 1 -> pending
stream s
poll s 2 -> some 1 wakes 1
poll s 2 -> pending
close -> newly-closed wakes 2
poll s 2 -> end
poll a 1 -> ok",
    },
];

/// As scripts alone: a label of one kind after another, for which a type that threads share has futures of other types.
pub const TEXTS: [Row; 1] = [Row {
    name: "labels_keep_their_kind",
    text: "channel array 0
send a 1
receive b
stream c
poll a 1 -> pending
poll b 2 -> some 1 wakes 1
poll a 1 -> ok
poll a 1 -> no-slot
poll b 2 -> no-slot
cancel a -> none
cancel b -> ok
receive a
stream b
poll a 3 -> pending
poll b 4 -> pending
poll c 5 -> pending
close -> newly-closed wakes 3 4 5
poll a 3 -> none
poll b 4 -> end
cancel a -> ok
cancel b -> ok
send a 2
cancel c -> ok
poll a 6 -> closed 2
cancel a -> none",
}];

/// The greatest capacity that a script names, and the greatest numbers; over a heap buffer.
pub const MOST_PLACES: Row = Row {
    name: "channel_most_places",
    text: "channel array 65536
hold try-send 18446744073709551615 -> ok
hold try-receive -> some 18446744073709551615
receive r
hold poll r 18446744073709551615 -> pending
hold close -> newly-closed
wakes -> ok wakes 18446744073709551615
hold cancel r -> ok",
};
