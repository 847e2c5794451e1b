//! Futures that wait in a queue, and the wakers that are named to be woken.
ghost use Rattle.std.specs.Prelude.{◌≡◌, ℕ, ◌++◌, ◌∷◌, List, [], Some, None, true, false, Option};
ghost use Rattle.std.specs.Prelude.{IfOk, OnErr, IfErr, IfSome, IfNone, OnSome, MatchOption, is_some, length, drop, option_copied};
ghost use Rattle.std.specs.Prelude.{OnOk};
ghost use Rattle.std.specs.Option.{option_map};
ghost use Rattle.std.specs.FinMap as map;
ghost use Rattle.futures.specs.Poll.{OnPending};
ghost use Rattle.fi_parts.specs.Order.{holds, without};
ghost use Rattle.fi_parts.specs.Pairs.{has, waker_of, without_pair, oldest};
ghost use Rattle.fi_parts.specs.Noticed.{phase_after};
ghost use Rattle.fi_parts.specs.Polled.{unused_after, can_be_polled, IsRefused};
ghost use Rattle.fi_parts.specs.Stages.{stage_of, AppendsQueue};
ghost use Rattle.fi_parts.specs.WaiterPolls.{has_to_wait, PollsWaiter};
ghost use Rattle.fi_parts.specs.Waiting.{with_phase, exchange, phase_of, IsLive, IsOrdered, IsOrderedBy, is_queued};
ghost use Rattle.fi_parts.specs.Waiting.{told_one, is_registered, no_futures, insert_fresh, registered, without_future};
ghost use Rattle.fi_parts.specs.Waiting.{pair, asks_of, waker_in, notify_all, displaced};

use crate::errors::{NoRoom, Slot};
use crate::memory::Refused;
use crate::outbox::Outbox;
use crate::phase::{Leftover, LiveFuture, NotPolled, Notice, Phase, PollStep, Stage};
use crate::wait_queue::{WaitQueue, last_waker, release, waker_from};
use futures::task::Poll;
use std::alloc::Global;
use std::fmt;
use std::marker::Model;

/// Futures by slot, the queue of those with a place in it, and the wakers to be woken.
#[derive(Drop)]
pub struct Waits<D, W> {
    wait_queue: WaitQueue<D, W>,
    outbox: Outbox<(usize, W)>,
}

impl<D, W> fmt::Debug for Waits<D, W> {
    fn fmt<F: fmt::Write>(&self, f: &mut fmt::Formatter<F>) -> fmt::Result {
        f.debug_struct("Waits").finish()
    }
}

impl<D, W> Model for Waits<D, W> {
    ghost use Rattle.fi_parts.specs.Waiting.{Waiting};
    ghost use Rattle.fi_parts.specs.Codes.{waiting_code};
    ghost use Rattle.fi_parts.specs.Tied.{waiting_of, AreTied};

    ghost Value = { Waiting D W };

    ghost coded = { waiting_code D.code W.code };

    ghost view = { λ s. waiting_of s.wait_queue s.outbox };

    ghost invariant = { λ s. AreTied s.wait_queue s.outbox };
}

impl<D: Drop, W: Drop> Waits<D, W> {
    /// No future, and nobody to wake. It takes no memory yet.
    pub fn new(alloc: Global) -> Self
        ensures { result ≡ record { side = no_futures; out = [] } }
    {
        Waits {
            wait_queue: WaitQueue::new(alloc),
            outbox: Outbox::new(alloc),
        }
    }

    /// A future: what it asks for, and its phase; None where none lives under this name.
    pub fn future(&self, slot: Slot) -> Option<&LiveFuture<D, W>>
        ensures { option_copied result ≡ map.get self.now.side.live slot.0 }
    {
        self.wait_queue.future(slot)
    }

    /// The phase of a future; None where none lives under this name.
    pub fn phase(&self, slot: Slot) -> Option<&Phase<W>>
        ensures { option_copied result ≡ phase_of self.now.side slot.0 }
    {
        self.wait_queue.phase(slot)
    }

    /// How far a future is; None where none lives under this name.
    pub fn stage(&self, slot: Slot) -> Option<Stage>
        ensures { result ≡ option_map stage_of (phase_of self.now.side slot.0) }
    {
        self.wait_queue.stage(slot)
    }

    /// What a name asks for; None where no future lives under it.
    pub fn asks(&self, slot: Slot) -> Option<&D>
        ensures { option_copied result ≡ asks_of self.now.side slot.0 }
    {
        self.wait_queue.asks(slot)
    }

    /// Makes a fresh future under a name that was not live.
    ///
    /// Refused if there is no memory for it or its ticket; then what it asks for comes back, and nothing has changed.
    #[inline(always)]
    pub fn insert(&mut self, asks: D) -> Result<Slot, NoRoom<D>>
        ensures was_free { IfOk result (λ slot. phase_of self.old.side slot.0 ≡ None) }
        ensures made { IfOk result (λ slot. self.new ≡ record self.old { side = insert_fresh self.old.side slot.0 asks }) }
        ensures refused { OnErr result (self.new ≡ self.old) }
        ensures handed_back { IfErr result (λ failed. failed.0 ≡ asks) }
    {
        let back = match self.wait_queue.insert(&mut self.outbox, asks) {
            // Returned here, so that each outcome has goals of its own name.
            Ok(slot) => return Ok(slot),
            Err(back) => back,
        };
        Err(back)
    }

    /// Takes a live future's own pair out of the outbox, and gives its waker; None where it was not named.
    #[inline(always)]
    pub fn take_out(&mut self, slot: Slot) -> Option<W>
        requires { IsLive self.old.side slot.0 }
        ensures waker { result ≡ waker_of slot.0 self.old.out }
        ensures rest { self.new ≡ record self.old { out = without_pair slot.0 self.old.out } }
    {
        // Where nobody is named, no ticket need be looked up.
        if self.outbox.len() == 0 {
            return None;
        }
        let ticket = self.wait_queue.ticket(slot);
        waker_from(self.outbox.take_out(ticket))
    }

    /// Polls a future with this waker: a registered one stays pending and keeps its place; a fresh one is registered and goes to the
    /// queue's end, unless it `ends` with this poll; any other ends. The wakers of no more use come back. It is refused where none lives
    /// under this slot that has not ended, and where it would have to wait and may not; then nothing has changed.
    ///
    /// One look-up tests the future and changes its phase. Joining the queue takes one more, and so does the ticket of one that joins or
    /// ends, while somebody is named to be woken.
    #[inline(always)]
    pub fn poll(
        &mut self,
        slot: Slot,
        waker: W,
        ends: bool,
        may_wait: bool,
    ) -> Result<(Poll<()>, Leftover<W>), NotPolled<W>>
        requires ordered { IsOrdered self.old.side self.old.out }
        ensures polled { IfOk result (λ polled. PollsWaiter (phase_of self.old.side slot.0) ends self.old slot.0 waker polled.0 self.new) }
        ensures displaced { IfOk result (λ polled. polled.1.displaced ≡ displaced self.old.side self.old.out slot.0) }
        ensures unused { IfOk result (λ polled. polled.1.unused ≡ unused_after polled.0 waker) }
        ensures live { IfOk result (λ _. can_be_polled (phase_of self.old.side slot.0) ≡ true) }
        ensures waits { IfOk result (λ polled. OnPending polled.0 (may_wait ≡ true)) }
        ensures unchanged { OnErr result (self.new ≡ self.old) }
        ensures refused { IfErr result (λ why. IsRefused why waker (can_be_polled (phase_of self.old.side slot.0)) may_wait
            (has_to_wait ends (phase_of self.old.side slot.0) ≡ true)) }
    {
        match self.wait_queue.poll(slot, waker, ends, may_wait) {
            Ok(PollStep::Stays(before)) => Ok((Poll::Pending, Leftover::of(Some(before), None))),
            Ok(PollStep::Joins) => Ok((Poll::Pending, Leftover::of(self.take_out(slot), None))),
            Ok(PollStep::Ends(waker)) => Ok((
                Poll::Ready(()),
                Leftover::of(self.take_out(slot), Some(waker)),
            )),
            Err(refused) => Err(refused),
        }
    }

    /// Registers a future that is not in the queue: it goes to the queue's end.
    #[inline(always)]
    pub fn register(&mut self, slot: Slot, waker: W)
        requires live { IsLive self.old.side slot.0 }
        requires apart { holds slot.0 self.old.side.queue ≡ false }
        ensures { self.new ≡ record self.old { side = registered self.old.side slot.0 waker } }
    {
        self.wait_queue.register(slot, waker);
    }

    /// Sets the phase of a live future; its place in the queue stays. Gives the waker that it was registered with.
    #[inline(always)]
    pub fn set_phase(&mut self, slot: Slot, phase: Phase<W>) -> Option<W>
        requires { IsLive self.old.side slot.0 }
        ensures waker { MatchOption (phase_of self.old.side slot.0) ⊥ (λ before. result ≡ waker_in before) }
        ensures rest { self.new ≡ record self.old { side = record self.old.side { live = with_phase self.old.side.live slot.0 phase } } }
    {
        self.wait_queue.set_phase(slot, phase)
    }

    /// Sets what a live future asks for, and returns what it asked for.
    pub fn exchange(&mut self, slot: Slot, asks: D) -> D
        requires { IsLive self.old.side slot.0 }
        ensures asked { asks_of self.old.side slot.0 ≡ Some result }
        ensures rest { self.new ≡ record self.old { side = exchange self.old.side slot.0 asks } }
    {
        self.wait_queue.exchange(slot, asks)
    }

    /// Takes a future out of the store, the queue and the outbox, and gives back what it asked for and the waker that it had.
    /// None where none lives under this slot. It is looked up once.
    #[inline(always)]
    pub fn remove(&mut self, slot: Slot) -> Option<(D, Option<W>)>
        ensures live { OnSome result (is_some (phase_of self.old.side slot.0) ≡ true) }
        ensures asked { IfSome result (λ left. asks_of self.old.side slot.0 ≡ Some left.0) }
        ensures waker { IfSome result (λ left. left.1 ≡ displaced self.old.side self.old.out slot.0) }
        ensures removed { OnSome result
            (self.new ≡ record { side = without_future self.old.side slot.0; out = without_pair slot.0 self.old.out }) }
        ensures absent { IfNone result ((phase_of self.old.side slot.0 ≡ None) × (self.new ≡ self.old)) }
    {
        let (future, named) = self.remove_future(slot)?;
        let LiveFuture { asks, phase } = future;
        Some((asks, last_waker(phase, named)))
    }

    /// Takes a future out of everything as `remove` does, and gives it back as it was, with the waker of its pair.
    #[inline(always)]
    pub fn remove_future(&mut self, slot: Slot) -> Option<(LiveFuture<D, W>, Option<W>)>
        ensures future { IfSome result (λ left. map.get self.old.side.live slot.0 ≡ Some left.0) }
        ensures waker { IfSome result (λ left. left.1 ≡ waker_of slot.0 self.old.out) }
        ensures removed { OnSome result
            (self.new ≡ record { side = without_future self.old.side slot.0; out = without_pair slot.0 self.old.out }) }
        ensures absent { IfNone result ((phase_of self.old.side slot.0 ≡ None) × (self.new ≡ self.old)) }
    {
        let entry = match self.wait_queue.remove(slot) {
            Some(entry) => entry,
            None => return None,
        };
        let named = release(&mut self.outbox, entry.ticket);
        Some((entry.future, named))
    }

    /// Takes the oldest out of the queue; None if the queue is empty.
    pub fn leave_oldest(&mut self) -> Option<Slot>
        ensures { MatchOption result ((self.old.side.queue ≡ []) × (self.new ≡ self.old))
            (λ slot. (others : List ℕ) × (self.old.side.queue ≡ slot.0 ∷ others) ×
            (self.new ≡ record self.old { side = record self.old.side { queue = others } })) }
    {
        let slot = self.wait_queue.leave_oldest()?;
        Some(slot)
    }

    /// The oldest future of the queue; None if the queue is empty.
    pub fn oldest(&self) -> Option<Slot>
        ensures { MatchOption result (self.now.side.queue ≡ []) (λ slot. (others : List ℕ) × (self.now.side.queue ≡ slot.0 ∷ others)) }
    {
        self.wait_queue.oldest()
    }

    /// The next younger future of the queue; None for the youngest.
    pub fn younger(&mut self, slot: Slot) -> Option<Slot>
        requires { holds slot.0 self.old.side.queue ≡ true }
        ensures next { (front rest : List ℕ) → self.old.side.queue ≡ front ++ slot.0 ∷ rest →
            MatchOption result (rest ≡ []) (λ next. (others : List ℕ) × (rest ≡ next.0 ∷ others)) }
        ensures same { self.new ≡ self.old }
    {
        self.wait_queue.younger(slot)
    }

    /// Appends the slots of the queue, the oldest first. Where there was no memory for all, a beginning was appended.
    pub fn queue(&mut self, slots: &mut Vec<Slot>) -> Result<(), Refused>
        ensures same { self.new ≡ self.old }
        ensures appended { OnOk result (AppendsQueue self.old.side.queue slots.old.items slots.new.items) }
    {
        self.wait_queue.queue(slots)
    }

    /// Takes a future out of the queue, wherever its place is; it stays live. Does nothing if it isn't queued.
    #[inline(always)]
    pub fn leave(&mut self, slot: Slot)
        ensures { self.new ≡ record self.old { side = record self.old.side { queue = without slot.0 self.old.side.queue } } }
    {
        self.wait_queue.leave(slot);
    }

    /// Gives a live future this phase, and names its waker if it was registered. Its place in the queue stays.
    #[inline(always)]
    pub fn notice(&mut self, slot: Slot, phase: Phase<W>)
        requires live { IsLive self.old.side slot.0 }
        requires no_pair { is_registered (phase_of self.old.side slot.0) ≡ true → has slot.0 self.old.out ≡ false }
        ensures { self.new ≡ record {
          side = record self.old.side { live = with_phase self.old.side.live slot.0 phase };
          out = self.old.out ++ pair self.old.side slot.0;
        } }
    {
        let (ticket, waker) = self.wait_queue.notice(slot, phase);
        if let Some(waker) = waker {
            self.outbox.name(ticket, (slot.0, waker));
        }
    }

    /// Tells a future of the queue, and names its waker if it was registered. It then leaves the queue, unless it keeps
    /// its place.
    #[inline(always)]
    pub fn tell(&mut self, slot: Slot, keeps_place: bool)
        requires ordered { IsOrderedBy (is_queued keeps_place) self.old.side self.old.out }
        requires queued { holds slot.0 self.old.side.queue ≡ true }
        ensures { self.new ≡ told_one keeps_place self.old slot.0 }
    {
        self.notice(slot, Phase::Told);
        if !keeps_place {
            self.leave(slot);
        }
    }

    /// Notices all queued futures, the oldest first: each leaves the queue and is named.
    #[inline(always)]
    pub fn notice_all(&mut self, notice: Notice)
        requires { IsOrdered self.old.side self.old.out }
        ensures { self.new ≡ notify_all (phase_after notice) self.old }
    {
        while let Some(slot) = self.leave_oldest() {
            self.notice(slot, notice.phase());
        }
    }

    /// Takes out the oldest waker to be woken; None where none is left.
    pub fn next_wake(&mut self) -> Option<W>
        ensures value { result ≡ oldest self.old.out }
        ensures rest { self.new ≡ record self.old { out = drop 1 self.old.out } }
    {
        waker_from(self.outbox.pop())
    }

    /// How many wakers are to be woken.
    pub fn wake_count(&self) -> usize
        ensures { result ≡ length self.now.out }
    {
        self.outbox.len()
    }
}
