//! The mutex as a primitive.
ghost use Rattle.std.specs.Prelude.{◌≡◌, Bool, IsOk, IfOk, IfErr};
ghost use Rattle.fi_locks.specs.Mutex.{MutexMachine, IsSound, OwesNoWake};
ghost use Rattle.fi_run.specs.Mutex.{Opens, Step, InEveryRun};
ghost use Rattle.fi_run.specs.MutexHistory.{GrantsAlternate, GrantsAreInTurn, IsFair, WakersAreKept};
ghost use Rattle.fi_run.specs.declared.answer.Answer.{Answer};
ghost use Rattle.fi_run.specs.declared.mutex.MutexCall.{MutexCall};

use crate::answer::Answer;
use crate::runs::{Primitive, every_run};
use fi_locks::MutexState;
use fi_parts::{Fault, NotPolled, Slot};
use futures::task::Poll;
use std::alloc::Global;

/// A call on a mutex.
///
/// Making a future may answer `Refused(NoMemory)`. A poll or a cancel where none lives, or a poll of one that has ended, answers
/// `Refused(NoSlot)`.
///
/// # Examples
///
/// ```
/// use futures_intrusive::run::{Answer, MutexCall, Primitive};
/// use futures_intrusive::sync::MutexState;
///
/// let mut mutex: MutexState<u64, u64> = MutexState::open(rt.alloc(), (7, true))?; // the value, and whether it is fair
/// assert!(rt; mutex.apply(MutexCall::TryLock) == Answer::Item(7));
/// assert!(rt; mutex.apply(MutexCall::TryLock) == Answer::Nothing);
/// assert!(rt; mutex.apply(MutexCall::Unlock(8)) == Answer::Done);
/// ```
#[derive(Clone, Copy, Debug, PartialEq, Eq, Drop)]
pub enum MutexCall<T, W> {
    /// Makes a future that locks the mutex. Answers `Made`.
    Lock,
    /// Polls a future. Answers `Pending`, or `Item`: the value, which the caller holds then.
    Poll(Slot, W),
    /// Cancels a future. Answers `Done`.
    Cancel(Slot),
    /// Locks the mutex if it is free for the caller. Answers `Item`, `Nothing`.
    TryLock,
    /// Puts the value back. Answers `Done`; of a mutex that isn't locked `Back(value, NotHeld)`.
    Unlock(T),
    /// Asks whether the mutex is locked. Answers `Flag`.
    IsLocked,
    /// Takes out the oldest waker. Answers `Woken`.
    NextWake,
}

impl<T: Drop, W: Drop> Primitive for MutexState<T, W> {
    ghost use Rattle.fi_locks.specs.Mutex.{IsSound, OwesNoWake};
    ghost use Rattle.fi_run.specs.Mutex.{Opens, Step};
    ghost use Rattle.fi_run.specs.MutexHistory.{HistoryHolds};
    ghost use Rattle.fi_run.specs.declared.answer.Answer.TheVariants.{Woken};
    ghost use Rattle.fi_run.specs.declared.mutex.MutexCall.TheVariants.{NextWake};
    ghost use Rattle.fi_run.specs.Outgoing.{machine_outgoing};
    ghost use Rattle.fi_run.specs.MutexLaws.{mutex_starts, mutex_keeps, mutex_takes_oldest};
    ghost use Rattle.fi_run.specs.MutexLaws.{mutex_history_initial, mutex_history_preserved};

    type Opening = (T, bool);

    type Call = MutexCall<T, W>;

    type Answer = Answer<T, W>;

    type Waker = W;

    ghost step = { Step };

    ghost opens = { Opens };

    ghost is_sound = { IsSound };

    ghost owes_no_wake = { OwesNoWake };

    ghost history_invariant = { HistoryHolds };

    ghost outgoing = { machine_outgoing };

    ghost take_waker = { NextWake };

    ghost hands_out = { λ waker. Woken waker };

    ghost starts = { mutex_starts };

    ghost keeps = { mutex_keeps };

    ghost history_initial = { mutex_history_initial };

    ghost takes_oldest = { mutex_takes_oldest };

    ghost history_preserved = { mutex_history_preserved };

    fn open(alloc: Global, opening: (T, bool)) -> Result<Self, Fault>
        ensures opened { IfOk result (λ state. Opens opening state) }
        ensures fault { IfErr result (λ fault. fault ≡ Fault.NoMemory) }
        // It takes no memory.
        ensures succeeds { IsOk result }
    {
        let (value, is_fair) = opening;
        Ok(MutexState::new(alloc, value, is_fair))
    }

    #[inline(always)]
    fn apply(&mut self, call: MutexCall<T, W>) -> Answer<T, W> {
        match call {
            MutexCall::Lock => match self.claim() {
                Ok(slot) => Answer::Made(slot),
                Err(fault) => Answer::Refused(fault),
            },
            MutexCall::Poll(slot, waker) => match self.poll(slot, waker, true) {
                Ok((answer, _)) => match answer {
                    Poll::Ready(value) => Answer::Item(value),
                    Poll::Pending => Answer::Pending,
                },
                Err(NotPolled::NoFuture(_)) => Answer::Refused(Fault::NoSlot),
                // It may wait.
                Err(NotPolled::WouldWait(_)) => unreachable!(),
            },
            MutexCall::Cancel(slot) => {
                if self.stage(slot).is_none() {
                    return Answer::Refused(Fault::NoSlot);
                }
                self.leave(slot);
                Answer::Done
            }
            MutexCall::TryLock => match self.try_take() {
                Some(value) => Answer::Item(value),
                None => Answer::Nothing,
            },
            MutexCall::Unlock(value) => match self.unlock(value) {
                Ok(()) => Answer::Done,
                Err(value) => Answer::Back(value, Fault::NotHeld),
            },
            MutexCall::IsLocked => Answer::Flag(self.is_locked()),
            MutexCall::NextWake => Answer::Woken(self.next_wake()),
        }
    }

    fn next_wake_call() -> MutexCall<T, W> {
        MutexCall::NextWake
    }

    fn show(&self) {
        let _ = self.wake_count();
    }
}

/// Every mutex follows its promises, in every run from a sound state that owes no wake, so from an opening: each grant hands out
/// the value that was put back by the last unlock, and between two grants there is an unlock; a fair mutex is granted in the order
/// of first polls; a pending future's last waker is registered, stands in the outbox, or was handed out since; and no wake is owed.
pub fn every_run_of_a_mutex<T: Drop, W: Drop>()
    ensures opened { (value : T) (is_fair : Bool) (first : MutexMachine T W) → Opens (value, is_fair) first
        → IsSound first × OwesNoWake first }
    ensures grants { InEveryRun {T = T} {W = W} (λ first history now. GrantsAlternate first history) }
    ensures in_turn { InEveryRun {T = T} {W = W} (λ first history now. IsFair first → GrantsAreInTurn first history) }
    ensures wakers { InEveryRun {T = T} {W = W} (λ first history now. WakersAreKept first history now) }
    ensures no_wake { InEveryRun {T = T} {W = W} (λ first history now. IsSound now × OwesNoWake now) }
{
    every_run::<MutexState<T, W>>();
}
