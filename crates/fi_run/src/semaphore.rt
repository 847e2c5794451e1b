//! The semaphore as a primitive.
ghost use Rattle.std.specs.Prelude.{◌≡◌, ℕ, Bool, IsOk, IfOk, IfErr};
ghost use Rattle.fi_locks.specs.Semaphore.{SemaphoreMachine, IsSound, OwesNoWake};
ghost use Rattle.fi_run.specs.Semaphore.{Opens, Step, InEveryRun};
ghost use Rattle.fi_run.specs.SemaphoreHistory.{PermitsAddUp, AreToldInOrder, NewcomersComeLast, IsFair, WakersAreKept};
ghost use Rattle.fi_run.specs.declared.answer.Answer.{Answer};
ghost use Rattle.fi_run.specs.declared.semaphore.SemaphoreCall.{SemaphoreCall};
ghost use Rattle.fi_run.specs.declared.semaphore.SemaphoreCall.TheVariants as calls;

use crate::answer::Answer;
use crate::runs::{Primitive, every_run};
use fi_locks::SemaphoreState;
use fi_parts::{Fault, NotPolled, Slot};
use futures::task::Poll;
use std::alloc::Global;

/// A call on a semaphore.
///
/// Making a future may answer `Refused(NoMemory)`. A poll or a cancel where none lives, or a poll of one that has ended, answers
/// `Refused(NoSlot)`.
///
/// # Examples
///
/// ```
/// use futures_intrusive::run::{Answer, Primitive, SemaphoreCall};
/// use futures_intrusive::sync::SemaphoreState;
///
/// let mut permits: SemaphoreState<u64> = SemaphoreState::open(rt.alloc(), (1, true))?; // one permit, fair
/// assert!(rt; permits.apply(SemaphoreCall::TryAcquire(1)) == Answer::Done);
/// assert!(rt; permits.apply(SemaphoreCall::TryAcquire(1)) == Answer::Nothing);
/// assert!(rt; permits.apply(SemaphoreCall::GiveBack(1)) == Answer::Done);
/// ```
#[derive(Clone, Copy, Debug, PartialEq, Eq, Drop)]
pub enum SemaphoreCall<W> {
    /// Makes a future that acquires this many permits. Answers `Made`.
    Acquire(usize),
    /// Polls a future. Answers `Pending`, or `Ready`: the permits that it needs are held then.
    Poll(Slot, W),
    /// Cancels a future. Answers `Done`.
    Cancel(Slot),
    /// Acquires this many permits if they are there for the caller. Answers `Done`, `Nothing`.
    TryAcquire(usize),
    /// Adds this many free permits. Answers `Done`; `Refused(Overflow)` if a `usize` could not count them all.
    Release(usize),
    /// Makes this many held permits free again. Answers `Done`; `Refused(NotHeld)` if fewer are held.
    GiveBack(usize),
    /// Forgets this many held permits. Answers `Done`; `Refused(NotHeld)` if fewer are held.
    Disarm(usize),
    /// Asks how many permits are free. Answers `Number`.
    Permits,
    /// Asks how many permits are held. Answers `Number`.
    Held,
    /// Takes out the oldest waker. Answers `Woken`.
    NextWake,
}

impl<W: Drop> Primitive for SemaphoreState<W> {
    ghost use Rattle.fi_locks.specs.Semaphore.{IsSound, OwesNoWake};
    ghost use Rattle.fi_run.specs.Semaphore.{Opens, Step};
    ghost use Rattle.fi_run.specs.SemaphoreHistory.{HistoryHolds};
    ghost use Rattle.fi_run.specs.declared.answer.Answer.TheVariants.{Woken};
    ghost use Rattle.fi_run.specs.declared.semaphore.SemaphoreCall.TheVariants.{NextWake};
    ghost use Rattle.fi_run.specs.Outgoing.{machine_outgoing};
    ghost use Rattle.fi_run.specs.SemaphoreLaws.{semaphore_starts, semaphore_keeps, semaphore_takes_oldest};
    ghost use Rattle.fi_run.specs.SemaphoreLaws.{semaphore_history_initial, semaphore_history_preserved};

    type Opening = (usize, bool);

    type Call = SemaphoreCall<W>;

    type Answer = Answer<u64, W>;

    type Waker = W;

    ghost step = { Step };

    ghost opens = { Opens };

    ghost is_sound = { IsSound };

    ghost owes_no_wake = { OwesNoWake };

    ghost history_invariant = { HistoryHolds };

    ghost outgoing = { machine_outgoing };

    ghost take_waker = { NextWake };

    ghost hands_out = { λ waker. Woken waker };

    ghost starts = { semaphore_starts };

    ghost keeps = { semaphore_keeps };

    ghost history_initial = { semaphore_history_initial };

    ghost takes_oldest = { semaphore_takes_oldest };

    ghost history_preserved = { semaphore_history_preserved };

    fn open(alloc: Global, opening: (usize, bool)) -> Result<Self, Fault>
        ensures opened { IfOk result (λ state. Opens opening state) }
        ensures fault { IfErr result (λ fault. fault ≡ Fault.NoMemory) }
        // It takes no memory.
        ensures succeeds { IsOk result }
    {
        let (permits, is_fair) = opening;
        Ok(SemaphoreState::new(alloc, is_fair, permits))
    }

    #[inline(always)]
    fn apply(&mut self, call: SemaphoreCall<W>) -> Answer<u64, W> {
        match call {
            SemaphoreCall::Acquire(permits) => match self.claim(permits) {
                Ok(slot) => Answer::Made(slot),
                Err(fault) => Answer::Refused(fault),
            },
            SemaphoreCall::Poll(slot, waker) => poll(self, slot, waker),
            SemaphoreCall::Cancel(slot) => {
                if self.stage(slot).is_none() {
                    return Answer::Refused(Fault::NoSlot);
                }
                self.leave(slot);
                Answer::Done
            }
            SemaphoreCall::TryAcquire(permits) => {
                if self.try_acquire_sync(permits) {
                    return Answer::Done;
                }
                Answer::Nothing
            }
            SemaphoreCall::Release(permits) => match self.release(permits) {
                Ok(()) => Answer::Done,
                Err(fault) => Answer::Refused(fault),
            },
            SemaphoreCall::GiveBack(permits) => give_back(self, permits),
            SemaphoreCall::Disarm(permits) => disarm(self, permits),
            SemaphoreCall::Permits => Answer::Number(self.permits()),
            SemaphoreCall::Held => Answer::Number(self.held()),
            SemaphoreCall::NextWake => Answer::Woken(self.next_wake()),
        }
    }

    fn next_wake_call() -> SemaphoreCall<W> {
        SemaphoreCall::NextWake
    }

    fn show(&self) {
        let _ = self.wake_count();
    }
}

fn poll<W: Drop>(semaphore: &mut SemaphoreState<W>, slot: Slot, waker: W) -> Answer<u64, W>
    ensures { Step semaphore.old (calls.Poll slot waker) result semaphore.new }
{
    match semaphore.poll(slot, waker, true) {
        Ok((Poll::Ready(_), _)) => Answer::Ready,
        Ok((Poll::Pending, _)) => Answer::Pending,
        Err(NotPolled::NoFuture(_)) => Answer::Refused(Fault::NoSlot),
        // It may wait.
        Err(NotPolled::WouldWait(_)) => unreachable!(),
    }
}

fn give_back<W: Drop>(semaphore: &mut SemaphoreState<W>, permits: usize) -> Answer<u64, W>
    ensures { Step semaphore.old (calls.GiveBack permits) result semaphore.new }
{
    if permits > semaphore.held() {
        return Answer::Refused(Fault::NotHeld);
    }
    semaphore.give_back(permits);
    Answer::Done
}

fn disarm<W: Drop>(semaphore: &mut SemaphoreState<W>, permits: usize) -> Answer<u64, W>
    ensures { Step semaphore.old (calls.Disarm permits) result semaphore.new }
{
    if semaphore.held() < permits {
        return Answer::Refused(Fault::NotHeld);
    }
    semaphore.disarm(permits);
    Answer::Done
}

/// Every semaphore follows its promises, in every run from a sound state that owes no wake, so from an opening: its permits, free
/// and held, are those that it had and those released, without those disarmed; of a fair one the told futures are the first of
/// those that wait, in the order of first polls, and whoever was not told is granted permits only if nobody waits; a pending future's
/// last waker is registered, stands in the outbox, or was handed out since; and no wake is owed.
///
/// A future that needs no permits never waits, and no permits at all are always granted. Of an unfair semaphore of which futures
/// needed different numbers "no wake is owed" claims nothing.
pub fn every_run_of_a_semaphore<W: Drop>()
    ensures opened { (permits : ℕ) (is_fair : Bool) (first : SemaphoreMachine W) → Opens (permits, is_fair) first
        → IsSound first × OwesNoWake first }
    ensures permits { InEveryRun {W = W} (λ first history now. PermitsAddUp first history now) }
    ensures in_order { InEveryRun {W = W} (λ first history now. IsFair first → AreToldInOrder first history now) }
    ensures newcomers { InEveryRun {W = W} (λ first history now. IsFair first → NewcomersComeLast first history now) }
    ensures wakers { InEveryRun {W = W} (λ first history now. WakersAreKept first history now) }
    ensures no_wake { InEveryRun {W = W} (λ first history now. IsSound now × OwesNoWake now) }
{
    every_run::<SemaphoreState<W>>();
}
