//! The channel of many values, of one place: each thread has a send and a receive.

use super::{Holds, LISTS, Lines, List, Opens, TakesTurns, plays, tried_turns};
use fi_channels::ChannelState;
use fi_parts::buffer::{ArrayBuf, RingBuf};
use fi_run::ChannelCall;
use fi_sync::GenericChannel;
use std::alloc::AllocGlobal;
use std::process::Abort;
use std::random::RandomSource;
use std::sync::{Barrier, Wait};
use tests_driver::channel::OpenedChannel;

const LINES: Lines = Lines {
    makings: "send a 1; send b 2; receive c; receive d",
    first: "poll a 1; poll c 2; cancel a; cancel c; try-send 5; try-receive; close",
    second: "poll b 3; poll d 4; cancel b; cancel d; try-send 6; try-receive; close",
};

impl Holds for ChannelCall<u64, u64> {}

impl<R: Wait + Abort + RandomSource + AllocGlobal, B: RingBuf<Item = u64>> TakesTurns<R>
    for GenericChannel<u64, B, R> {
    type Call = ChannelCall<u64, u64>;

    fn take_turns(
        &self,
        rt: &R,
        barrier: &Barrier,
        is_first: bool,
        list: List<ChannelCall<u64, u64>>,
    ) -> bool {
        plays(rt, barrier, OpenedChannel::new(rt, self), is_first, list)
    }
}

impl<R: Wait + Abort + Copy + Drop + RandomSource + AllocGlobal, B: RingBuf<Item = u64>> Opens<R>
    for GenericChannel<u64, B, R> {
    fn open(rt: &R) -> Option<Self> {
        GenericChannel::with_capacity(rt.alloc(), *rt, 1).ok()
    }
}

type OfOnePlace<R> = GenericChannel<u64, ArrayBuf<u64, 1>, R>;

#[test]
fn two_threads_take_turns_at_a_channel(rt: HostRuntime) {
    let tried = tried_turns::<_, ChannelState<u64, ArrayBuf<u64, 1>, u64>, OfOnePlace<_>>(
        &rt, 1, LINES,
    );
    assert!(rt; tried == LISTS, "list {tried}");
}
