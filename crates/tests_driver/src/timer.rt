//! The timer, whose clock stands at each call's moment.

use crate::owned::Futures;
use crate::tasks::Tasks;
use crate::{Flavour, Opened, Play, Played, Seen};
use fi_parts::{MockClock, Slot};
use fi_run::{Answer, TimerCall};
use fi_sync::{TimerFuture, TimerService};
use std::alloc::AllocGlobal;
use std::sync::{Arc, Wait};

#[derive(Drop)]
pub struct OpenedTimer<'a, T, F: Drop> {
    clock: &'a MockClock,
    timer: &'a T,
    waits: Futures<F>,
}

impl<'a, T, F: Drop> OpenedTimer<'a, T, F> {
    /// None if memory is missing.
    pub fn new<R: AllocGlobal>(rt: &R, clock: &'a MockClock, timer: &'a T) -> Option<Self> {
        Some(OpenedTimer {
            clock,
            timer,
            waits: Futures::new(rt)?,
        })
    }
}

impl<'a, R: Wait> Opened<R, TimerCall<u64>>
    for OpenedTimer<'a, TimerService<Arc<MockClock>, R>, TimerFuture<'a, Arc<MockClock>, R>> {
    fn apply(&mut self, rt: &R, tasks: &mut Tasks, call: TimerCall<u64>) -> Seen {
        match call {
            TimerCall::Deadline(expiry) => self.waits.keep(self.timer.deadline(expiry)),
            TimerCall::Delay(now, delay) => {
                self.clock.set_time(now);
                self.waits.keep(self.timer.delay(delay))
            }
            TimerCall::Poll(Slot(number), now, waker) => {
                self.clock.set_time(now);
                self.waits.poll(rt, tasks, number, waker)
            }
            TimerCall::Cancel(Slot(number)) => self.waits.let_go(number),
            TimerCall::Check(now) => {
                self.clock.set_time(now);
                self.timer.check_expirations();
                Seen::answered(Answer::Done)
            }
            TimerCall::Next => Seen::answered(Answer::Moment(self.timer.next_expiration())),
            TimerCall::NextWake => Seen::answered(Answer::Woken(None)),
        }
    }
}

/// A timer and its clock.
#[derive(Drop)]
pub struct SharedTimer<R> {
    pub clock: Arc<MockClock>,
    pub timer: TimerService<Arc<MockClock>, R>,
}

impl<R: Wait + Copy + AllocGlobal> SharedTimer<R> {
    /// None if memory is missing.
    pub fn new(rt: &R) -> Option<Self> {
        let clock = Arc::new(rt.alloc(), MockClock::new()).ok()?;
        let own_clock = Arc::try_clone(&clock).ok()?;
        let timer = TimerService::new(rt.alloc(), *rt, own_clock);
        Some(SharedTimer { clock, timer })
    }
}

#[derive(Drop)]
pub struct Timer;

impl From<()> for Timer {
    fn from(_opening: ()) -> Self {
        Timer
    }
}

impl<R: Wait + Copy + AllocGlobal> Flavour<R> for Timer {
    type Call = TimerCall<u64>;

    fn play<P: Play<R, TimerCall<u64>>>(&self, rt: &R, tasks: &mut Tasks, list: &mut P) -> Played {
        let Some(shared) = SharedTimer::new(rt) else {
            return Played::NoMemory;
        };
        match OpenedTimer::new(rt, &*shared.clock, &shared.timer) {
            Some(mut opened) => list.play(rt, tasks, &mut opened),
            None => Played::NoMemory,
        }
    }
}
