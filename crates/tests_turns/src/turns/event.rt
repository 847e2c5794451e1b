//! The event.

use super::{Holds, LISTS, Lines, List, Opens, TakesTurns, plays, tried_turns};
use fi_channels::EventState;
use fi_run::EventCall;
use fi_sync::ManualResetEvent;
use std::alloc::AllocGlobal;
use std::process::Abort;
use std::random::RandomSource;
use std::sync::{Barrier, Wait};
use tests_driver::event::OpenedEvent;

const LINES: Lines = Lines {
    makings: "wait a; wait b; wait c; wait d",
    first: "poll a 1; poll b 2; cancel a; cancel b; set; reset",
    second: "poll c 3; poll d 4; cancel c; cancel d; set; reset",
};

impl Holds for EventCall<u64> {}

impl<R: Wait + Abort + RandomSource + AllocGlobal> TakesTurns<R> for ManualResetEvent<R> {
    type Call = EventCall<u64>;

    fn take_turns(
        &self,
        rt: &R,
        barrier: &Barrier,
        is_first: bool,
        list: List<EventCall<u64>>,
    ) -> bool {
        plays(rt, barrier, OpenedEvent::new(rt, self), is_first, list)
    }
}

impl<R: Wait + Abort + Copy + RandomSource + AllocGlobal> Opens<R> for ManualResetEvent<R> {
    fn open(rt: &R) -> Option<Self> {
        Some(ManualResetEvent::new(rt.alloc(), *rt, false))
    }
}

#[test]
fn two_threads_take_turns_at_an_event(rt: HostRuntime) {
    let tried = tried_turns::<_, EventState<u64>, ManualResetEvent<_>>(&rt, false, LINES);
    assert!(rt; tried == LISTS, "list {tried}");
}
