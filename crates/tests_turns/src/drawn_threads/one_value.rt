//! The oneshot and the oneshot broadcast.

use fi_channels::{OneshotBroadcastState, OneshotState};
use tests_driver::drawn::{Lines, play_lines};
use tests_driver::one_value::{BROADCAST, ONESHOT};

const LINES: Lines = Lines {
    makings: "receive a; receive b; receive c; receive d",
    choices: "poll a 1; poll b 2; poll c 3; poll d 4; cancel a; cancel b; cancel c; cancel d; try-receive; send 5; close",
};

#[test]
fn drawn_calls_on_a_oneshot(rt: HostRuntime) {
    let tried = play_lines::<_, OneshotState<u64, u64>, _>(&rt, &ONESHOT, (), LINES, 3);
    assert!(rt; tried.are_right(), "{tried:?}");
}

#[test]
fn drawn_calls_on_a_oneshot_broadcast(rt: HostRuntime) {
    let tried = play_lines::<_, OneshotBroadcastState<u64, u64>, _>(&rt, &BROADCAST, (), LINES, 3);
    assert!(rt; tried.are_right(), "{tried:?}");
}
