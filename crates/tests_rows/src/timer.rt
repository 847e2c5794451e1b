//! The timer.

use crate::Row;

/// On the state, as a script, and on each type that threads share.
pub const ROWS: [Row; 5] = [
    Row {
        name: "timer_expirations",
        text: "timer
deadline a 999
poll a 200 1 -> pending
next -> some 999
delay b 200 300
poll b 200 2 -> pending
next -> some 500
delay c 200 500
poll c 200 3 -> pending
next -> some 500
check 500 -> ok wakes 2
poll b 500 2 -> ready
next -> some 700
check 699 -> ok
check 700 -> ok wakes 3",
    },
    Row {
        name: "timer_saturates",
        text: "timer
delay a 18446744073709551610 10
poll a 18446744073709551610 1 -> pending
next -> some 18446744073709551615
check 18446744073709551615 -> ok wakes 1
poll a 18446744073709551615 1 -> ready",
    },
    Row {
        name: "timer_cancel",
        text: "timer
deadline a 300
deadline b 100
deadline c 200
poll a 0 1 -> pending
poll b 0 2 -> pending
poll c 0 3 -> pending
next -> some 100
cancel b -> ok
next -> some 200
check 250 -> ok wakes 3
next -> some 300
check 299 -> ok
cancel a -> ok
next -> none",
    },
    Row {
        name: "timer_clock_set_back",
        text: "timer
deadline a 100
poll a 90 1 -> pending
check 95 -> ok
check 50 -> ok
deadline b 60
poll b 50 2 -> pending
next -> some 60
poll a 200 3 -> pending
check 60 -> ok wakes 2
check 100 -> ok wakes 3
poll a 0 3 -> ready",
    },
    Row {
        name: "timer_first_polls",
        text: "timer
next -> none
deadline a 501
poll a 500 1 -> pending
deadline b 500
poll b 500 2 -> ready
deadline c 7
poll c 500 3 -> ready
next -> some 501
cancel a -> ok
next -> none",
    },
];

/// As scripts alone: the greatest numbers, which no task of the tests has as its waker, and each word of the language.
pub const TEXTS: [Row; 1] = [Row {
    name: "timer_every_line",
    text: "timer
next -> none
hold deadline a 20
poll a 0 18446744073709551615 -> pending
hold delay b 4 6
poll b 4 0 -> pending
deadline c 10
poll c 10 3 -> ready
poll c 10 3 -> no-slot
hold check 30 -> ok
hold next -> none
wakes -> ok wakes 0 18446744073709551615
wakes -> ok
poll a 0 1 -> ready
cancel a -> ok
deadline a 18446744073709551615
poll a 18446744073709551614 7 -> pending
delay d 18446744073709551615 18446744073709551615
poll d 0 8 -> pending
hold cancel d -> ok
check 18446744073709551614 -> ok
check 18446744073709551615 -> ok wakes 7",
}];
