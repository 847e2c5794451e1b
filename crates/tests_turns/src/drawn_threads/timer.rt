//! The timer, whose clock stands at each call's moment.

use fi_locks::TimerState;
use tests_driver::drawn::{Lines, play_lines};
use tests_driver::timer::Timer;

const LINES: Lines = Lines {
    makings: "deadline a 1; deadline b 2; deadline c 2; deadline d 3",
    choices: "poll a 0 1; poll b 0 2; poll c 0 3; poll d 0 4; cancel a; cancel b; cancel c; cancel d; check 1; check 3",
};

#[test]
fn drawn_calls_on_a_timer(rt: HostRuntime) {
    let tried = play_lines::<_, TimerState<u64>, _>(&rt, &Timer, (), LINES, 3);
    assert!(rt; tried.are_right(), "{tried:?}");
}
