//! The timer, whose clock the threads share too: it stands at each call's moment.

use super::{Holds, LISTS, Lines, List, Opens, TakesTurns, plays, tried_turns};
use fi_locks::TimerState;
use fi_run::TimerCall;
use std::alloc::AllocGlobal;
use std::process::Abort;
use std::random::RandomSource;
use std::sync::{Barrier, Wait};
use tests_driver::timer::{OpenedTimer, SharedTimer};

const LINES: Lines = Lines {
    makings: "deadline a 1; deadline b 2; deadline c 2; deadline d 3",
    first: "poll a 0 1; poll b 0 2; cancel a; cancel b; check 1; check 3",
    second: "poll c 0 3; poll d 0 4; cancel c; cancel d; check 2; next",
};

impl Holds for TimerCall<u64> {}

impl<R: Wait + Abort + RandomSource + AllocGlobal> TakesTurns<R> for SharedTimer<R> {
    type Call = TimerCall<u64>;

    fn take_turns(
        &self,
        rt: &R,
        barrier: &Barrier,
        is_first: bool,
        list: List<TimerCall<u64>>,
    ) -> bool {
        let opened = OpenedTimer::new(rt, &*self.clock, &self.timer);
        plays(rt, barrier, opened, is_first, list)
    }
}

impl<R: Wait + Abort + Copy + RandomSource + AllocGlobal> Opens<R> for SharedTimer<R> {
    fn open(rt: &R) -> Option<Self> {
        SharedTimer::new(rt)
    }
}

#[test]
fn two_threads_take_turns_at_a_timer(rt: HostRuntime) {
    let tried = tried_turns::<_, TimerState<u64>, SharedTimer<_>>(&rt, (), LINES);
    assert!(rt; tried == LISTS, "list {tried}");
}
