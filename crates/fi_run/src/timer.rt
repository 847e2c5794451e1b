//! The timer as a primitive.
ghost use Rattle.std.specs.Prelude.{◌≡◌, IsOk, IfOk, IfErr};
ghost use Rattle.fi_locks.specs.Timer.{TimerMachine, IsSound, OwesNoWake};
ghost use Rattle.fi_run.specs.Timer.{Opens, Step, InEveryRun};
ghost use Rattle.fi_run.specs.TimerHistory.{ExpiriesAreLater, WakersAreKept};
ghost use Rattle.fi_run.specs.declared.answer.Answer.{Answer};
ghost use Rattle.fi_run.specs.declared.timer.TimerCall.{TimerCall};

use crate::answer::Answer;
use crate::runs::{Primitive, every_run};
use fi_locks::TimerState;
use fi_parts::{Fault, NotPolled, Slot};
use futures::task::Poll;
use std::alloc::Global;
use std::time::Duration;

/// A call on a timer. Moments and expiries are in milliseconds.
///
/// Making a future may answer `Refused(NoMemory)`. A poll or a cancel where none lives, or a poll of one that has ended, answers
/// `Refused(NoSlot)`.
///
/// # Examples
///
/// ```
/// use futures_intrusive::Slot;
/// use futures_intrusive::run::{Answer, Primitive, TimerCall};
/// use futures_intrusive::timer::TimerState;
/// use std::time::Duration;
///
/// let mut timer: TimerState<u64> = TimerState::open(rt.alloc(), ())?;
/// let delay = TimerCall::Delay(5, Duration::from_micros(1_999)); // from the moment 5 on, in whole milliseconds
/// assert!(rt; timer.apply(delay) == Answer::Made(Slot(0)));
/// assert!(rt; timer.apply(TimerCall::Poll(Slot(0), 5, 1)) == Answer::Pending);
/// assert!(rt; timer.apply(TimerCall::Next) == Answer::Moment(Some(6)));
/// ```
#[derive(Clone, Copy, Debug, PartialEq, Eq, Drop)]
pub enum TimerCall<W> {
    /// Makes a future with this expiry. Answers `Made`.
    Deadline(u64),
    /// Makes a future whose expiry is this long after this moment, in whole milliseconds, and at most `u64::MAX`. Answers `Made`.
    Delay(u64, Duration),
    /// Polls a future at this moment. Answers `Pending`, `Ready`.
    Poll(Slot, u64, W),
    /// Cancels a future. Answers `Done`.
    Cancel(Slot),
    /// Checks at this moment which expiries have come. Answers `Done`.
    Check(u64),
    /// Asks for the least expiry of those that wait. Answers `Moment`.
    Next,
    /// Takes out the oldest waker. Answers `Woken`.
    NextWake,
}

impl<W: Drop> Primitive for TimerState<W> {
    ghost use Rattle.fi_locks.specs.Timer.{IsSound, OwesNoWake};
    ghost use Rattle.fi_run.specs.Timer.{Opens, Step};
    ghost use Rattle.fi_run.specs.TimerHistory.{HistoryHolds};
    ghost use Rattle.fi_run.specs.declared.answer.Answer.TheVariants.{Woken};
    ghost use Rattle.fi_run.specs.declared.timer.TimerCall.TheVariants.{NextWake};
    ghost use Rattle.fi_run.specs.Outgoing.{machine_outgoing};
    ghost use Rattle.fi_run.specs.TimerLaws.{timer_starts, timer_keeps, timer_takes_oldest};
    ghost use Rattle.fi_run.specs.TimerLaws.{timer_history_initial, timer_history_preserved};

    type Opening = ();

    type Call = TimerCall<W>;

    type Answer = Answer<u64, W>;

    type Waker = W;

    ghost step = { Step };

    ghost opens = { Opens };

    ghost is_sound = { IsSound };

    ghost owes_no_wake = { OwesNoWake };

    ghost history_invariant = { HistoryHolds };

    ghost outgoing = { machine_outgoing };

    ghost take_waker = { NextWake };

    ghost hands_out = { λ waker. Woken waker };

    ghost starts = { timer_starts };

    ghost keeps = { timer_keeps };

    ghost history_initial = { timer_history_initial };

    ghost takes_oldest = { timer_takes_oldest };

    ghost history_preserved = { timer_history_preserved };

    fn open(alloc: Global, opening: ()) -> Result<Self, Fault>
        ensures opened { IfOk result (λ state. Opens opening state) }
        ensures fault { IfErr result (λ fault. fault ≡ Fault.NoMemory) }
        // It takes no memory.
        ensures succeeds { IsOk result }
    {
        let () = opening;
        Ok(TimerState::new(alloc))
    }

    #[inline(always)]
    fn apply(&mut self, call: TimerCall<W>) -> Answer<u64, W> {
        match call {
            TimerCall::Deadline(expiry) => match self.claim(expiry) {
                Ok(slot) => Answer::Made(slot),
                Err(fault) => Answer::Refused(fault),
            },
            TimerCall::Delay(now, delay) => match self.claim_delay(now, delay) {
                Ok(slot) => Answer::Made(slot),
                Err(fault) => Answer::Refused(fault),
            },
            TimerCall::Poll(slot, now, waker) => match self.poll(slot, now, waker, true) {
                Ok((Poll::Ready(_), _)) => Answer::Ready,
                Ok((Poll::Pending, _)) => Answer::Pending,
                Err(NotPolled::NoFuture(_)) => Answer::Refused(Fault::NoSlot),
                // It may wait.
                Err(NotPolled::WouldWait(_)) => unreachable!(),
            },
            TimerCall::Cancel(slot) => {
                if self.stage(slot).is_none() {
                    return Answer::Refused(Fault::NoSlot);
                }
                self.leave(slot);
                Answer::Done
            }
            TimerCall::Check(now) => {
                self.check_expirations(now);
                Answer::Done
            }
            TimerCall::Next => Answer::Moment(self.next_expiration()),
            TimerCall::NextWake => Answer::Woken(self.next_wake()),
        }
    }

    fn next_wake_call() -> TimerCall<W> {
        TimerCall::NextWake
    }

    fn show(&self) {
        let _ = self.wake_count();
    }
}

/// Every timer follows its promises, in every run from a sound state that owes no wake, so from an opening: the expiry of each
/// future that waits is later than the moment of its first poll and of every check since; a pending future's last waker is
/// registered, stands in the outbox, or was handed out since; and no wake is owed.
pub fn every_run_of_a_timer<W: Drop>()
    ensures opened { (first : TimerMachine W) → Opens tt first → IsSound first × OwesNoWake first }
    ensures expiries { InEveryRun {W = W} (λ first history now. ExpiriesAreLater first history now) }
    ensures wakers { InEveryRun {W = W} (λ first history now. WakersAreKept first history now) }
    ensures no_wake { InEveryRun {W = W} (λ first history now. IsSound now × OwesNoWake now) }
{
    every_run::<TimerState<W>>();
}
