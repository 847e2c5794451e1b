//! The event.

use fi_channels::EventState;
use tests_driver::drawn::{Lines, play_lines};
use tests_driver::event::Event;

const LINES: Lines = Lines {
    makings: "wait a; wait b; wait c; wait d",
    choices: "poll a 1; poll b 2; poll c 3; poll d 4; cancel a; cancel b; cancel c; cancel d; set; reset",
};

#[test]
fn drawn_calls_on_an_event(rt: HostRuntime) {
    let event = &Event { is_set: false };
    let tried = play_lines::<_, EventState<u64>, _>(&rt, event, false, LINES, 3);
    assert!(rt; tried.are_right(), "{tried:?}");
}
