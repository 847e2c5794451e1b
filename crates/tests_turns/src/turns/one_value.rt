//! The oneshot and the oneshot broadcast.

use super::{Holds, LISTS, Lines, List, Opens, TakesTurns, plays, tried_turns};
use fi_channels::{ClonesValue, GivesValue, OneshotBroadcastState, OneshotState, TakesValue};
use fi_run::OneshotCall;
use fi_sync::OneValueChannel;
use std::alloc::AllocGlobal;
use std::process::Abort;
use std::random::RandomSource;
use std::sync::{Barrier, Wait};
use tests_driver::one_value::OpenedOneValue;

const LINES: Lines = Lines {
    makings: "receive a; receive b; receive c; receive d",
    first: "poll a 1; poll b 2; cancel a; cancel b; try-receive; send 5; close",
    second: "poll c 3; poll d 4; cancel c; cancel d; try-receive; send 6; close",
};

impl Holds for OneshotCall<u64, u64> {}

impl<R: Wait + Abort + RandomSource + AllocGlobal, G: GivesValue<u64>> TakesTurns<R>
    for OneValueChannel<u64, G, R> {
    type Call = OneshotCall<u64, u64>;

    fn take_turns(
        &self,
        rt: &R,
        barrier: &Barrier,
        is_first: bool,
        list: List<OneshotCall<u64, u64>>,
    ) -> bool {
        plays(rt, barrier, OpenedOneValue::new(rt, self), is_first, list)
    }
}

impl<R: Wait + Abort + Copy + RandomSource + AllocGlobal, G: GivesValue<u64>> Opens<R>
    for OneValueChannel<u64, G, R> {
    fn open(rt: &R) -> Option<Self> {
        Some(OneValueChannel::new(rt.alloc(), *rt))
    }
}

type OfOne<G, R> = OneValueChannel<u64, G, R>;

#[test]
fn two_threads_take_turns_at_a_oneshot(rt: HostRuntime) {
    let tried = tried_turns::<_, OneshotState<u64, u64>, OfOne<TakesValue, _>>(&rt, (), LINES);
    assert!(rt; tried == LISTS, "list {tried}");
}

#[test]
fn two_threads_take_turns_at_a_oneshot_broadcast(rt: HostRuntime) {
    let tried = tried_turns::<_, OneshotBroadcastState<u64, u64>, OfOne<ClonesValue, _>>(
        &rt,
        (),
        LINES,
    );
    assert!(rt; tried == LISTS, "list {tried}");
}
