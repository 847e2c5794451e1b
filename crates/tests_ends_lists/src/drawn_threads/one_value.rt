//! The ends of the oneshot and of the oneshot broadcast, which have no `close`.

use fi_channels::{OneshotBroadcastState, OneshotState};
use tests_driver::drawn::{Lines, play_lines};
use tests_ends_driver::ends::{BroadcastEnds, OneshotEnds};

const LINES: Lines = Lines {
    makings: "receive a; receive b; receive c; receive d",
    choices: "poll a 1; poll b 2; poll c 3; poll d 4; cancel a; cancel b; cancel c; cancel d; try-receive; send 5",
};

#[test]
fn drawn_calls_on_oneshot_ends(rt: HostRuntime) {
    let tried = play_lines::<_, OneshotState<u64, u64>, _>(&rt, &OneshotEnds, (), LINES, 3);
    assert!(rt; tried.are_right(), "{tried:?}");
}

#[test]
fn drawn_calls_on_oneshot_broadcast_ends(rt: HostRuntime) {
    let ends = &BroadcastEnds;
    let tried = play_lines::<_, OneshotBroadcastState<u64, u64>, _>(&rt, ends, (), LINES, 3);
    assert!(rt; tried.are_right(), "{tried:?}");
}
