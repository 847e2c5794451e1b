//! The state broadcast.

use fi_channels::StateBroadcastState;
use tests_driver::drawn::{Lines, play_lines};
use tests_driver::state::StateBroadcast;

const LINES: Lines = Lines {
    makings: "receive a 0; receive b 1; receive c 0; receive d 1",
    choices: "poll a 1; poll b 2; poll c 3; poll d 4; cancel a; cancel b; cancel c; cancel d; try-receive 0; try-receive 1; send 5; close",
};

#[test]
fn drawn_calls_on_a_state_broadcast(rt: HostRuntime) {
    let states = &StateBroadcast;
    let tried = play_lines::<_, StateBroadcastState<u64, u64>, _>(&rt, states, (), LINES, 3);
    assert!(rt; tried.are_right(), "{tried:?}");
}
