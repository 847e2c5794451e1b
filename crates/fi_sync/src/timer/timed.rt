//! A timer with its clock: what stands behind the lock of the timer that threads share.
ghost use Rattle.std.specs.Prelude.{◌≡◌, ◌≤◌, ℕ, Some, None, Err, IfOk, IfErr, OnErr, is_some, false};
ghost use Rattle.std.specs.Duration.{as_nanos};
ghost use Rattle.fi_parts.specs.Machine.{phase_at, displaced_at};
ghost use Rattle.fi_parts.specs.Deadlines.{IsNextExpiry};
ghost use Rattle.fi_parts.specs.Polled.{LeavesWhere};
ghost use Rattle.fi_parts.specs.declared.errors.Fault.{Fault};
ghost use Rattle.fi_locks.specs.Timer.{opened, can_be_polled, Makes, Checks, Cancels};
ghost use Rattle.fi_sync.specs.Timed.{DelaysTimed, PollsTimed, WaitsTimed, ChecksAndPlans, planned_for};
ghost use Rattle.fi_sync.specs.Waiting.{PollsWhere, leftover_after};

use crate::slot_future::{PollSlot, SlotPolled, no_slot};
use crate::wakes::{HasOutbox, PollWaker};
use fi_locks::TimerState;
use fi_parts::memory::{share, shared};
use fi_parts::{Clock, Fault, FutureKind, NotPolled, Refused, Slot};
use futures::task::Poll;
use std::alloc::Global;
use std::fmt;
use std::marker::Model;
use std::sync::{Arc, Wait};
use std::thread::Parker;
use std::time::Duration;

/// A timer with its clock. Each call that needs the time reads the clock itself and hands it to nobody; of what was read in one
/// hold of the lock the runner's next check alone is used in another.
#[derive(Drop)]
pub struct Timed<C> {
    timer: TimerState<PollWaker>,
    clock: C,
    runner: Option<Runner>,
}

impl<C> fmt::Debug for Timed<C> {
    fn fmt<F: fmt::Write>(&self, f: &mut fmt::Formatter<F>) -> fmt::Result {
        f.debug_struct("Timed").finish()
    }
}

/// How many milliseconds the thread that runs a timer may sleep: until its next check. Only a check makes one, and only a sleep takes it,
/// so no such thread sleeps past the next expiry.
#[derive(Drop)]
pub(crate) struct Nap {
    millis: u64,
}

impl Model for Nap {
    ghost use Rattle.std.specs.Prelude.{ℕ};

    ghost Value = { ℕ };

    ghost view = { λ nap. nap.millis };
}

/// Where the thread that runs a timer sleeps, unless it is roused.
#[derive(Drop)]
pub(crate) struct Sleeper {
    parker: Arc<Parker, Global>,
}

impl Sleeper {
    /// Where nobody sleeps yet.
    pub(crate) fn new(alloc: Global) -> Result<Self, Refused> {
        let parker = shared(alloc, Parker::new())?;
        Ok(Sleeper { parker })
    }

    /// One more owner of the same.
    pub(crate) fn share(&self) -> Result<Self, Refused> {
        let parker = share(&self.parker)?;
        Ok(Sleeper { parker })
    }

    /// Sleeps until the nap is over, or until it is roused.
    pub(crate) fn sleep<R: Wait>(&self, rt: &R, nap: Nap) {
        let Nap { millis } = nap;
        self.parker.park_timeout(rt, Duration::from_millis(millis));
    }

    /// Ends the sleep, or the next one.
    pub(crate) fn rouse(&self) {
        self.parker.unpark();
    }
}

/// The thread that runs a timer, and the moment of its next check.
#[derive(Drop)]
struct Runner {
    sleeper: Sleeper,
    next_check: u64,
}

/// The kind of a timer's futures.
pub struct TimedWait;

impl FutureKind for TimedWait {
    fn name() -> &'static str {
        "TimerFuture"
    }
}

impl<C: Clock> Timed<C> {
    /// A timer by this clock, that nobody waits for. It takes no memory yet.
    pub(crate) fn new(alloc: Global, clock: C) -> Self
        ensures timer { result.timer ≡ opened }
        ensures nobody { result.runner ≡ None }
    {
        Timed {
            timer: TimerState::new(alloc),
            clock,
            runner: None,
        }
    }

    /// Makes a future for this moment. Refused only with `NoMemory`; then nothing has changed.
    pub(crate) fn claim(&mut self, expiry: u64) -> Result<Slot, Fault>
        ensures made { IfOk result (λ slot. Makes self.old.timer expiry slot.0 self.new.timer) }
        ensures refused { OnErr result (self.new.timer ≡ self.old.timer) }
        ensures fault { IfErr result (λ fault. fault ≡ Fault.NoMemory) }
        ensures rest { self.new ≡ record self.old { timer = self.new.timer } }
    {
        self.timer.claim(expiry)
    }

    /// Makes a future for the moment this long after the clock's time now. Refused only with `NoMemory`; then nothing has changed.
    pub(crate) fn claim_delay(&mut self, delay: Duration) -> Result<Slot, Fault>
        ensures made { IfOk result (λ slot. DelaysTimed self.old.timer (as_nanos delay) slot.0 self.new.timer) }
        ensures refused { OnErr result (self.new.timer ≡ self.old.timer) }
        ensures fault { IfErr result (λ fault. fault ≡ Fault.NoMemory) }
        ensures rest { self.new ≡ record self.old { timer = self.new.timer } }
    {
        let now = self.clock.now();
        self.timer.claim_delay(now, delay)
    }

    /// The least expiry of those that wait; None where none does.
    pub(crate) fn next_expiration(&self) -> Option<u64>
        ensures { IsNextExpiry self.now.timer.waiting.side result }
    {
        self.timer.next_expiration()
    }

    /// Tells those whose expiry is not after the clock's time now.
    pub(crate) fn check_expirations(&mut self)
        // At some moment: that it is the clock's is not said.
        ensures checked { (now : ℕ) × Checks self.old.timer now self.new.timer }
        ensures rest { self.new ≡ record self.old { timer = self.new.timer } }
    {
        let now = self.clock.now();
        self.timer.check_expirations(now);
    }

    /// Rouses whoever sleeps there, once a future waits for an earlier moment than the next check's.
    pub(crate) fn run_by(&mut self, sleeper: Sleeper)
        ensures { self.new ≡ record self.old { runner = Some (record { sleeper = sleeper; next_check = 0 }) } }
    {
        self.runner = Some(Runner {
            sleeper,
            next_check: 0,
        });
    }

    /// Rouses nobody any more. Answers the least expiry of those that still wait; None where none does.
    pub(crate) fn end_running(&mut self) -> Option<u64>
        ensures ended { self.new ≡ record self.old { runner = None } }
        ensures left { IsNextExpiry self.old.timer.waiting.side result }
    {
        self.runner = None;
        self.next_expiration()
    }

    /// Tells those whose expiry is not after the clock's time now, and plans the runner's next check for the next expiry, or for this
    /// many milliseconds from now if that is earlier. Answers the nap until then.
    pub(crate) fn check_and_plan(&mut self, at_most: u64) -> Nap
        // At some moment: that it is the clock's is not said.
        ensures planned { ChecksAndPlans self.old.timer self.old.runner at_most result self.new.timer self.new.runner }
        ensures bounded { result ≤ at_most }
        ensures clock { self.new.clock ≡ self.old.clock }
    {
        let moment = self.clock.now();
        self.timer.check_expirations(moment);
        let next = self.timer.next_expiration().unwrap_or(u64::MAX);
        let left = next.saturating_sub(moment).min(at_most);
        self.plan(moment.saturating_add(left));
        Nap { millis: left }
    }

    // Plans the runner's next check for this moment.
    fn plan(&mut self, moment: u64)
        ensures { self.new ≡ record self.old { runner = planned_for self.old.runner moment } }
    {
        if let Some(runner) = &mut self.runner {
            runner.next_check = moment;
        }
    }

    // Rouses the runner, if a future waits for an earlier moment than that of its next check.
    fn rouse(&self) {
        let next = self.timer.next_expiration().unwrap_or(u64::MAX);
        if let Some(runner) = &self.runner {
            if next < runner.next_check {
                runner.sleeper.rouse();
            }
        }
    }
}

impl<C: Clock> PollSlot<TimedWait> for Timed<C> {
    type Output = Result<(), Fault>;

    type Left = Option<PollWaker>;

    // At some moment. A poll that the timer makes is never refused.
    ghost polls = { λ old name waker answer new. (new ≡ record old { timer = new.timer })
        × PollsWhere (can_be_polled (phase_at old.timer name))
        (PollsTimed (λ timed. timed.timer) old.timer name waker) (Err Fault.NoSlot) old answer new };

    ghost would_wait = { λ old. WaitsTimed old.timer };

    ghost leaves = { λ old name waker answer. leftover_after answer (displaced_at old.timer name) waker };

    ghost cancels = { λ old name left new. (new ≡ record old { timer = new.timer })
        × LeavesWhere (is_some (phase_at old.timer name)) (Cancels old.timer name new.timer)
        (displaced_at old.timer name) old left new };

    ghost takes_out = { false };

    #[inline(always)]
    fn poll_slot(&mut self, slot: Slot, waker: PollWaker) -> SlotPolled<Self::Output> {
        let now = self.clock.now();
        let may_wait = waker.is_some();
        match self.timer.poll(slot, now, waker, may_wait) {
            Ok((Poll::Ready(()), leftover)) => Some((Poll::Ready(Ok(())), leftover)),
            Ok((Poll::Pending, leftover)) => {
                self.rouse();
                Some((Poll::Pending, leftover))
            }
            Err(NotPolled::NoFuture(waker)) => no_slot(waker),
            Err(NotPolled::WouldWait(_none)) => None,
        }
    }

    #[inline(always)]
    fn cancel(&mut self, slot: Slot) -> Option<PollWaker> {
        self.timer.leave(slot)
    }
}

impl<C: Clock> HasOutbox for Timed<C> {
    ghost use Rattle.fi_locks.specs.Timer.{Wakes};
    ghost use Rattle.fi_parts.specs.Pairs.{wakers_of};

    ghost wakers = { λ timed. wakers_of timed.timer.waiting.out };

    ghost wakes = { λ old answer new. (new ≡ record old { timer = new.timer }) × Wakes old.timer answer new.timer };

    fn next_wake(&mut self) -> Option<PollWaker> {
        self.timer.next_wake()
    }

    fn wake_count(&self) -> u128 {
        self.timer.wake_count() as u128
    }
}
