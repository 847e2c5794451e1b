//! The state broadcast.

use super::{Holds, LISTS, Lines, List, Opens, TakesTurns, plays, tried_turns};
use fi_channels::StateBroadcastState;
use fi_run::StateCall;
use fi_sync::StateBroadcastChannel;
use std::alloc::AllocGlobal;
use std::process::Abort;
use std::random::RandomSource;
use std::sync::{Barrier, Wait};
use tests_driver::state::OpenedState;

const LINES: Lines = Lines {
    makings: "receive a 0; receive b 1; receive c 0; receive d 1",
    first: "poll a 1; poll b 2; cancel a; cancel b; send 5; close",
    second: "poll c 3; poll d 4; cancel c; cancel d; send 6; close",
};

impl Holds for StateCall<u64, u64> {}

impl<R: Wait + Abort + RandomSource + AllocGlobal> TakesTurns<R> for StateBroadcastChannel<u64, R> {
    type Call = StateCall<u64, u64>;

    fn take_turns(
        &self,
        rt: &R,
        barrier: &Barrier,
        is_first: bool,
        list: List<StateCall<u64, u64>>,
    ) -> bool {
        plays(rt, barrier, OpenedState::new(rt, self), is_first, list)
    }
}

impl<R: Wait + Abort + Copy + RandomSource + AllocGlobal> Opens<R>
    for StateBroadcastChannel<u64, R> {
    fn open(rt: &R) -> Option<Self> {
        Some(StateBroadcastChannel::new(rt.alloc(), *rt))
    }
}

#[test]
fn two_threads_take_turns_at_a_state_broadcast(rt: HostRuntime) {
    let tried = tried_turns::<_, StateBroadcastState<u64, u64>, StateBroadcastChannel<u64, _>>(
        &rt,
        (),
        LINES,
    );
    assert!(rt; tried == LISTS, "list {tried}");
}
