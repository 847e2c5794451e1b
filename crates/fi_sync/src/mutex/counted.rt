//! What stands behind the lock of a mutex: its state, beside the tally of its holds.
ghost use Rattle.std.specs.Prelude.{◌≡◌, false, Ok, IfOk, IfSome, IfErr, OnErr, not, true};
ghost use Rattle.fi_parts.specs.declared.errors.Fault.{Fault};
ghost use Rattle.fi_locks.specs.Mutex.{opened, is_free, can_be_polled, Makes, Polls, Cancels, TriesLock, Unlocks};
ghost use Rattle.fi_sync.specs.Waiting.{PollsAt, WouldWait, leftover_at, CancelsAt};
ghost use Rattle.fi_sync.specs.Blanks.{IsLockBlank};

use crate::slot_future::{PollSlot, SlotPolled, no_slot};
use crate::wakes::{HasOutbox, PollWaker};
use fi_locks::{Grant, MutexLock, MutexState, Tally};
use fi_parts::{Fault, NotPolled, Slot};
use futures::task::Poll;
use std::alloc::Global;
use std::fmt;
use std::marker::Model;
use std::sync::ledger::{Blank, Ledger};

/// A mutex's state, beside the tally of its holds: 1 while the mutex is held and 0 while it is free.
#[derive(Drop)]
pub struct CountedMutex<T, L: Ledger> {
    state: MutexState<T, PollWaker>,
    tally: Tally<L>,
}

impl<T, L: Ledger> fmt::Debug for CountedMutex<T, L> {
    fn fmt<F: fmt::Write>(&self, f: &mut fmt::Formatter<F>) -> fmt::Result {
        f.debug_struct("CountedMutex").finish()
    }
}

impl<T, L: Ledger> Model for CountedMutex<T, L> {
    ghost use Rattle.std.specs.Prelude.{◌≡◌, Option};
    ghost use Rattle.std.specs.Coded.{coded_option};
    ghost use Rattle.futures.specs.contracts.task.waker.Waker as waker;
    ghost use Rattle.futures.specs.declared.task.waker.Waker.{Waker};
    ghost use Rattle.fi_locks.specs.Mutex.{MutexMachine, is_free};
    ghost use Rattle.fi_locks.specs.MutexCode.{mutex_code};
    ghost use Rattle.fi_sync.specs.Locked.{holds_if};

    ghost Value = { MutexMachine T (Option Waker) };

    ghost coded = { mutex_code T.code (coded_option waker.the_row.coded) };

    ghost view = { λ counted. counted.state };

    ghost invariant = { λ counted. (counted.tally ≡ holds_if (is_free counted.state)) × (L.parts ≡ 1) };
}

/// The value of a mutex that is held, with the hold of it: a grant of the one part of the mutex's ledger. It has no `Drop`: an
/// unlock takes it.
pub struct Locked<T, L: Ledger> {
    pub(crate) value: T,
    pub(crate) hold: Grant<L>,
}

impl<T, L: Ledger> fmt::Debug for Locked<T, L> {
    fn fmt<F: fmt::Write>(&self, f: &mut fmt::Formatter<F>) -> fmt::Result {
        f.debug_struct("Locked").finish()
    }
}

impl<T, L: Ledger> Model for Locked<T, L> {
    ghost use Rattle.std.specs.Prelude.{◌≡◌};

    ghost Value = { T };

    ghost coded = { T.code };

    ghost view = { λ locked. locked.value };

    ghost invariant = { λ locked. (locked.hold ≡ 1) × (L.parts ≡ 1) };
}

impl<T, L: Ledger> Locked<T, L> {
    /// For proofs: no two holds of one mutex are alive at once.
    pub fn never_two(&mut self, other: &mut Locked<T, L>)
        ensures { ⊥ }
    {
        self.hold.apart(&mut other.hold);
    }
}

impl<T, L: Ledger> CountedMutex<T, L> {
    ghost use Rattle.std.specs.Borrow.{LendsIf, sem};
    ghost use Rattle.std.specs.Option.{option_copied_mut};
    ghost use Rattle.fi_locks.specs.Mutex.{with_value};
    ghost use Rattle.fi_sync.specs.contracts.mutex.counted.CountedMutex.{the_row};

    /// Takes the value out of a mutex that is used no more. None if it is locked: then its holder has the value.
    pub fn into_inner(self) -> Option<T>
        ensures { result ≡ self.own.value }
    {
        let CountedMutex { state, .. } = self;
        state.into_inner()
    }

    /// Lends the value out, to be changed in place. None if the mutex is locked: then its holder has the value.
    pub fn get_mut(&mut self) -> Option<&mut T>
        ensures* writes_back { sem 𝓛 (LendsIf (the_row T.row L.row L.Ledger) T.row self.entry result (with_value self.old) self.old) }
        ensures shows { option_copied_mut result ≡ self.old.own.value }
    {
        match self.state.get_mut() {
            Some(value) => Some(value),
            None => None,
        }
    }
}

impl<T: Drop, L: Ledger> CountedMutex<T, L> {
    /// A free mutex with this value, fair or not.
    pub fn new(alloc: Global, blank: Blank, value: T, is_fair: bool) -> Self
        requires blank { IsLockBlank L.Ledger blank }
        ensures { result ≡ opened value is_fair }
    {
        CountedMutex {
            state: MutexState::new(alloc, value, is_fair),
            tally: Tally::new(blank),
        }
    }

    /// Makes a future under a slot that was not live. Refused only with `NoMemory`; then nothing has changed.
    #[inline(always)]
    pub fn claim(&mut self) -> Result<Slot, Fault>
        ensures made { IfOk result (λ slot. Makes self.old slot.0 self.new) }
        ensures refused { OnErr result (self.new ≡ self.old) }
        ensures fault { IfErr result (λ fault. fault ≡ Fault.NoMemory) }
    {
        self.state.claim()
    }

    /// Returns `true` if somebody has locked the mutex.
    pub fn is_locked(&self) -> bool
        ensures { result ≡ not (is_free self.now) }
    {
        self.state.is_locked()
    }

    /// Locks the mutex at once: its value, with the hold of it. None where it is locked, or is fair and a future is queued for it.
    #[inline(always)]
    pub fn try_lock(&mut self) -> Option<Locked<T, L>>
        ensures tried { TriesLock self.old result self.new }
        ensures locked { IfSome result (λ _. is_free self.new ≡ false) }
    {
        let value = self.state.try_take()?;
        let hold = self.tally.hand_out(1);
        Some(Locked { value, hold })
    }

    /// Puts the value back and unlocks the mutex, which is locked: its hold is alive.
    #[inline(always)]
    pub fn unlock(&mut self, locked: Locked<T, L>)
        ensures held { is_free self.old ≡ false }
        ensures unlocked { Unlocks self.old locked (Ok tt) self.new }
    {
        let Locked { value, hold } = locked;
        self.tally.take_in(hold);
        match self.state.unlock(value) {
            Ok(()) => {}
            // A hold is alive, so the mutex is locked.
            Err(_value) => unreachable!(),
        }
    }
}

impl<T: Drop, L: Ledger> PollSlot<MutexLock> for CountedMutex<T, L> {
    type Output = Result<Locked<T, L>, Fault>;

    type Left = Option<PollWaker>;

    ghost polls = { PollsAt can_be_polled Polls };

    ghost would_wait = { WouldWait (PollsAt can_be_polled Polls) };

    ghost leaves = { leftover_at };

    ghost cancels = { CancelsAt Cancels };

    ghost takes_out = { true };

    #[inline(always)]
    fn poll_slot(&mut self, slot: Slot, waker: PollWaker) -> SlotPolled<Self::Output> {
        let may_wait = waker.is_some();
        let CountedMutex { state, tally } = self;
        match state.poll_and_leave(slot, waker, may_wait) {
            Ok((answer, leftover)) => match answer {
                Poll::Ready(value) => {
                    let hold = tally.hand_out(1);
                    Some((Poll::Ready(Ok(Locked { value, hold })), leftover))
                }
                Poll::Pending => Some((Poll::Pending, leftover)),
            },
            Err(NotPolled::NoFuture(waker)) => no_slot(waker),
            Err(NotPolled::WouldWait(_none)) => None,
        }
    }

    #[inline(always)]
    fn cancel(&mut self, slot: Slot) -> Option<PollWaker> {
        self.state.leave(slot)
    }
}

impl<T: Drop, L: Ledger> HasOutbox for CountedMutex<T, L> {
    ghost use Rattle.fi_locks.specs.Mutex.{Wakes};
    ghost use Rattle.fi_parts.specs.Pairs.{wakers_of};

    ghost wakers = { λ counted. wakers_of counted.waiting.out };

    ghost wakes = { Wakes };

    fn next_wake(&mut self) -> Option<PollWaker> {
        self.state.next_wake()
    }

    fn wake_count(&self) -> u128 {
        self.state.wake_count() as u128
    }
}
