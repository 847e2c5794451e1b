//! What stands behind the lock of a semaphore: its state, beside the tally of the permits that are held, and whether it was closed.
ghost use Rattle.std.specs.Prelude.{◌≡◌, ◌+◌, ◌≤◌, ◌^◌, false, IfOk, IfSome, IfErr, OnErr, is_some};
ghost use Rattle.fi_parts.specs.declared.errors.Fault.{Fault};
ghost use Rattle.fi_locks.specs.Semaphore.{opened, Makes, Releases, GivesBack, Disarms};
ghost use Rattle.fi_sync.specs.Closable.{OnPermits, WhileOpen, TriesPermits, Closes, free_at};
ghost use Rattle.fi_sync.specs.Granted.{PollsAcquire, leftover_of_acquire, CancelsAcquire};
ghost use Rattle.fi_sync.specs.Waiting.{WouldWait};
ghost use Rattle.fi_sync.specs.Blanks.{IsPermitBlank};

use crate::slot_future::{PollSlot, SlotPolled, no_slot};
use crate::wakes::{HasOutbox, PollWaker};
use fi_locks::{Grant, SemaphoreAcquire, SemaphoreState, Tally};
use fi_parts::{CloseStatus, Fault, Leftover, NotPolled, Slot};
use futures::task::Poll;
use std::alloc::Global;
use std::fmt;
use std::marker::Model;
use std::sync::ledger::{Blank, Ledger};

/// A semaphore's state, beside the tally of the permits that are held, and whether it was closed.
///
/// To close it is to forget the permits that are held, and to free as many as a `usize` counts: so all who wait are notified. From then on
/// the state's permits stay as they are, and each poll answers that the semaphore is closed.
#[derive(Drop)]
pub struct CountedSemaphore<L: Ledger> {
    state: SemaphoreState<PollWaker>,
    tally: Tally<L>,
    is_closed: bool,
}

impl<L: Ledger> fmt::Debug for CountedSemaphore<L> {
    fn fmt<F: fmt::Write>(&self, f: &mut fmt::Formatter<F>) -> fmt::Result {
        f.debug_struct("CountedSemaphore").finish()
    }
}

impl<L: Ledger> Model for CountedSemaphore<L> {
    ghost use Rattle.std.specs.Prelude.{◌≡◌, false, Option};
    ghost use Rattle.std.specs.Coded.{coded_option};
    ghost use Rattle.futures.specs.contracts.task.waker.Waker as waker;
    ghost use Rattle.futures.specs.declared.task.waker.Waker.{Waker};
    ghost use Rattle.fi_sync.specs.Closable.{Closable, closable_code};

    ghost Value = { Closable (Option Waker) };

    ghost coded = { closable_code (coded_option waker.the_row.coded) };

    ghost view = { λ counted. record { permits = counted.state; is_closed = counted.is_closed } };

    // The ledger has a part for each permit that can be held: `u64::MAX`.
    ghost invariant = { λ counted. (counted.is_closed ≡ false → counted.tally ≡ counted.state.own.held)
        × (L.parts ≡ 18446744073709551615) };
}

impl<L: Ledger> CountedSemaphore<L> {
    /// A semaphore with this many free permits, fair or unfair.
    pub fn new(alloc: Global, blank: Blank, is_fair: bool, permits: usize) -> Self
        requires blank { IsPermitBlank L.Ledger blank }
        ensures { result ≡ record { permits = opened is_fair permits; is_closed = false } }
    {
        CountedSemaphore {
            state: SemaphoreState::new(alloc, is_fair, permits),
            tally: Tally::new(blank),
            is_closed: false,
        }
    }

    /// Makes a future that needs this many permits, under a slot that was not live. Refused only with `NoMemory`; then nothing
    /// has changed.
    #[inline(always)]
    pub fn claim(&mut self, permits: usize) -> Result<Slot, Fault>
        ensures made { IfOk result (λ slot. OnPermits (λ old new. Makes old permits slot.0 new) self.old self.new) }
        ensures refused { OnErr result (self.new ≡ self.old) }
        ensures fault { IfErr result (λ fault. fault ≡ Fault.NoMemory) }
    {
        self.state.claim(permits)
    }

    /// Acquires this many permits if they are free and, in a fair semaphore, no future is queued; 0 permits are always granted, until
    /// it is closed. None if they are not granted; then nothing has changed.
    #[inline(always)]
    pub fn try_acquire(&mut self, permits: usize) -> Option<Grant<L>>
        ensures tried { TriesPermits permits (is_some result) self.old self.new }
        ensures granted { IfSome result (λ grant. grant ≡ permits) }
    {
        if self.is_closed || !self.state.try_acquire_sync(permits) {
            return None;
        }
        // Of every semaphore it holds that its permits, free and held, fit `usize`.
        let _ = self.state.wake_count();
        Some(self.tally.hand_out(permits))
    }

    /// Adds free permits, if it isn't closed. Refused with `Overflow` if the permits, free and held, would be more than `usize::MAX`;
    /// then nothing has changed.
    pub fn release(&mut self, permits: usize) -> Result<(), Fault>
        ensures released { IfOk result (λ _. WhileOpen (λ old new. Releases old permits new) self.old self.new) }
        ensures refused { OnErr result (self.new ≡ self.old) }
        ensures fault { IfErr result (λ fault. (fault ≡ Fault.Overflow)
            × (2 ^ 64 ≤ self.old.permits.own.free + self.old.permits.own.held + permits)) }
    {
        if self.is_closed {
            return Ok(());
        }
        self.state.release(permits)
    }

    /// Closes it, and tells all who wait, as far as their needs together are at most `usize::MAX`; whichever of them leaves tells the next.
    /// `AlreadyClosed` if it was closed; then nothing has changed.
    pub fn close(&mut self) -> CloseStatus
        ensures { Closes result self.old self.new }
    {
        if self.is_closed {
            return CloseStatus::AlreadyClosed;
        }
        self.is_closed = true;
        let held = self.state.held();
        self.state.disarm(held);
        let rest = usize::MAX - self.state.permits();
        match self.state.release(rest) {
            Ok(()) => CloseStatus::NewlyClosed,
            // None are held, so that those that are free then are `usize::MAX`.
            Err(_) => unreachable!(),
        }
    }

    /// Returns `true` if it was closed.
    pub fn is_closed(&self) -> bool
        ensures { result ≡ self.now.is_closed }
    {
        self.is_closed
    }

    /// How many permits are free: none once it is closed.
    pub fn permits(&self) -> usize
        ensures { result ≡ free_at self.now }
    {
        if self.is_closed {
            return 0;
        }
        self.state.permits()
    }

    /// How many permits are held: those of all grants that are alive, and none once it is closed.
    pub fn held(&self) -> usize
        ensures { result ≡ self.now.permits.own.held }
    {
        self.state.held()
    }

    /// Makes the permits free again, which are held until it is closed: their grant is alive.
    #[inline(always)]
    pub fn give_back(&mut self, grant: Grant<L>)
        ensures held { self.old.is_closed ≡ false → grant ≤ self.old.permits.own.held }
        ensures given_back { WhileOpen (λ old new. GivesBack old grant new) self.old self.new }
    {
        let permits = self.tally.take_in(grant);
        if !self.is_closed {
            self.state.give_back(permits);
        }
    }

    /// Forgets the permits, which are held until it is closed: their grant is alive. They will not be given back.
    pub fn disarm(&mut self, grant: Grant<L>)
        ensures held { self.old.is_closed ≡ false → grant ≤ self.old.permits.own.held }
        ensures disarmed { WhileOpen (λ old new. Disarms old grant new) self.old self.new }
    {
        let permits = self.tally.take_in(grant);
        if !self.is_closed {
            self.state.disarm(permits);
        }
    }
}

impl<L: Ledger> PollSlot<SemaphoreAcquire> for CountedSemaphore<L> {
    type Output = Result<Grant<L>, Fault>;

    type Left = Option<PollWaker>;

    ghost polls = { PollsAcquire };

    ghost would_wait = { WouldWait PollsAcquire };

    ghost leaves = { leftover_of_acquire };

    ghost cancels = { CancelsAcquire };

    ghost takes_out = { false };

    #[inline(always)]
    fn poll_slot(&mut self, slot: Slot, waker: PollWaker) -> SlotPolled<Self::Output> {
        if self.is_closed {
            // The future ends, and is cancelled: so the waker that it had comes back, and a notice is passed on.
            let answer = Poll::Ready(Err(Fault::Closed));
            return Some((answer, Leftover::of(None, Some(waker))));
        }
        let may_wait = waker.is_some();
        let CountedSemaphore { state, tally, .. } = self;
        let polled = state.poll(slot, waker, may_wait);
        // Of every semaphore it holds that its permits, free and held, fit `usize`.
        let _ = state.wake_count();
        match polled {
            Ok((answer, leftover)) => match answer {
                Poll::Ready(permits) => {
                    let grant = tally.hand_out(permits);
                    Some((Poll::Ready(Ok(grant)), leftover))
                }
                Poll::Pending => Some((Poll::Pending, leftover)),
            },
            Err(NotPolled::NoFuture(waker)) => no_slot(waker),
            Err(NotPolled::WouldWait(_none)) => None,
        }
    }

    #[inline(always)]
    fn cancel(&mut self, slot: Slot) -> Option<PollWaker> {
        self.state.leave(slot)
    }
}

impl<L: Ledger> HasOutbox for CountedSemaphore<L> {
    ghost use Rattle.fi_locks.specs.Semaphore.{Wakes};
    ghost use Rattle.fi_parts.specs.Pairs.{wakers_of};
    ghost use Rattle.fi_sync.specs.Closable.{OnPermits};

    ghost wakers = { λ counted. wakers_of counted.permits.waiting.out };

    ghost wakes = { λ old answer new. OnPermits (λ before after. Wakes before answer after) old new };

    fn next_wake(&mut self) -> Option<PollWaker> {
        self.state.next_wake()
    }

    fn wake_count(&self) -> u128 {
        self.state.wake_count() as u128
    }
}
