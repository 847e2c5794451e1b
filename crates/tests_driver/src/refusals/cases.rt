//! Calls that take memory, on channels.

use super::scene_rows::SceneRow;

/// Of a channel of one value, once the value was sent, and while none was: a refusal leaves the channel open.
pub const ONE_VALUE: [SceneRow; 2] = [
    "receive a; receive b; receive c; receive d; poll a 1; send 5; receive e -> no-memory; poll e 2; poll a 3",
    "receive a; receive b; receive c; receive d; poll a 1; receive e -> no-memory; poll e 2; send 5; poll a 3; poll e 4",
];

/// Of a state broadcast, once a state was sent, and while none was.
pub const STATES: [SceneRow; 2] = [
    "receive a 0; receive b 0; receive c 0; receive d 0; poll a 1; send 5; receive e 1 -> no-memory; \
        poll e 2; poll a 3; send 6; poll e 4",
    "receive a 0; receive b 0; receive c 0; receive d 0; poll a 1; receive e 0 -> no-memory; \
        poll e 2; send 6; poll a 3; poll e 4",
];

/// Of a channel of many values, each making once a value was sent, and while none was. A send that is refused gives its value back.
pub const MAKINGS: [SceneRow; 6] = [
    "receive a; receive b; receive c; receive d; poll a 1; try-send 4; receive e -> no-memory; poll e 2; poll a 4; try-receive",
    "stream a; stream b; stream c; stream d; poll a 1; try-send 4; stream e -> no-memory; poll e 2; poll a 4; try-receive",
    "receive a; poll a 1; try-send 4; send s 5 -> no-memory 5; poll s 2; poll a 4; try-receive",
    "receive a; receive b; receive c; receive d; poll a 1; receive e -> no-memory; \
        poll e 2; try-send 4; poll a 3; try-send 6; poll e 4",
    "stream a; stream b; stream c; stream d; poll a 1; stream e -> no-memory; \
        poll e 2; try-send 4; poll a 3; try-send 6; poll e 4",
    "receive a; poll a 1; send s 5 -> no-memory 5; poll s 2; poll a 3; try-receive",
];

/// A send for which the buffer has to grow. The value of one that was refused comes back at its cancel.
pub const GROWS: [SceneRow; 3] = [
    "receive a; poll a 1; try-send 5 -> no-memory 5; poll a 2; try-receive",
    "receive a; poll a 1; send s 5; send t 6; poll s 2 -> no-memory; poll t 3; cancel t; poll a 4",
    "receive a; poll a 1; send s 5; send t 6; poll s 2 -> no-memory; cancel s; try-receive",
];
