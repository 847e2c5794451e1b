//! A wait queue: futures with their phases, the queue of those that wait, and their tickets in an outbox that may serve others too.
ghost use Rattle.std.specs.Prelude.{◌≡◌, ℕ, ◌∷◌, ◌++◌, List, [], Some, None, true, false, Option, IfOk};
ghost use Rattle.std.specs.Prelude.{OnOk, OnErr, IfErr, IfSome, IfNone, OnSome, IsSome, MatchOption, option_copied};
ghost use Rattle.std.specs.Option.{option_map};
ghost use Rattle.std.specs.FinMap as map;
ghost use Rattle.std.specs.FinSet as set;
ghost use Rattle.fi_parts.specs.Order.{holds, without, youngest};
ghost use Rattle.fi_parts.specs.ListModel.{item, item_of, with_live, at_end};
ghost use Rattle.fi_parts.specs.Pairs.{with_tickets, waker_of, without_pair};
ghost use Rattle.fi_parts.specs.NamedPairs.{waker_in_pair};
ghost use Rattle.fi_parts.specs.Waiting.{with_phase, exchange, phase_of, IsLive, insert_fresh, registered};
ghost use Rattle.fi_parts.specs.Waiting.{without_future, asks_of, is_registered, waker_in, waker_or};
ghost use Rattle.fi_parts.specs.WaitQueueModel.{empty_wait_queue};
ghost use Rattle.fi_parts.specs.Polled.{can_be_polled, IsRefused};
ghost use Rattle.fi_parts.specs.Stages.{stage_of, AppendsQueue};
ghost use Rattle.fi_parts.specs.WaiterPolls.{has_to_wait, poll_step, waiters_after_poll, OnWaits};
ghost use Rattle.fi_parts.specs.WaitQueuePolls.{phase_in_entry, PollsEntry};
ghost use Rattle.fi_parts.specs.declared.wait_queue.Ticketed.{Ticketed};

use crate::errors::{NoRoom, Slot};
use crate::list::LinkedList;
use crate::memory::{Refused, push};
use crate::outbox::{Outbox, Ticket};
use crate::phase::{LiveFuture, NotPolled, Phase, PollStep, Stage};
use std::alloc::Global;
use std::marker::Model;
use std::{fmt, mem};

/// A future, and its ticket in the outbox.
#[derive(Debug, Drop)]
pub struct Ticketed<D, W> {
    pub ticket: Ticket,
    pub future: LiveFuture<D, W>,
}

/// Futures by slot, the queue of those with a place in it, and the ticket of each.
#[derive(Drop)]
pub struct WaitQueue<D, W> {
    list: LinkedList<Ticketed<D, W>>,
}

impl<D, W> fmt::Debug for WaitQueue<D, W> {
    fn fmt<F: fmt::Write>(&self, f: &mut fmt::Formatter<F>) -> fmt::Result {
        f.debug_struct("WaitQueue").finish()
    }
}

impl<D, W> Model for WaitQueue<D, W> {
    ghost use Rattle.fi_parts.specs.WaitQueueModel.{WaitQueueModel, wait_queue_code, wait_queue_of};

    ghost Value = { WaitQueueModel D W };

    ghost coded = { wait_queue_code D.code W.code };

    ghost view = { λ s. wait_queue_of s.list };
}

/// The waker of a pair that was taken out of an outbox.
pub fn waker_from<N: Drop, W>(pair: Option<(N, W)>) -> Option<W>
    ensures { result ≡ waker_in_pair pair }
{
    match pair {
        Some((_, waker)) => Some(waker),
        None => None,
    }
}

/// Gives a live ticket back, and takes its pair out of the outbox. Returns the waker of the pair; None if there is none.
#[inline(always)]
pub fn release<N: Drop, W: Drop>(outbox: &mut Outbox<(N, W)>, ticket: Ticket) -> Option<W>
    requires { set.contains outbox.old.tickets ticket.0 ≡ true }
    ensures waker { result ≡ waker_in_pair (waker_of ticket.0 outbox.old.pairs) }
    ensures tickets { outbox.new.tickets ≡ set.remove outbox.old.tickets ticket.0 }
    ensures pairs { outbox.new.pairs ≡ without_pair ticket.0 outbox.old.pairs }
{
    let named = take_pair(outbox, ticket);
    outbox.free(ticket);
    named
}

// Takes a ticket's pair out of the outbox, and gives its waker; None where it has none.
#[inline(always)]
fn take_pair<N: Drop, W: Drop>(outbox: &mut Outbox<(N, W)>, ticket: Ticket) -> Option<W>
    ensures waker { result ≡ waker_in_pair (waker_of ticket.0 outbox.old.pairs) }
    ensures tickets { outbox.new.tickets ≡ outbox.old.tickets }
    ensures pairs { outbox.new.pairs ≡ without_pair ticket.0 outbox.old.pairs }
{
    if outbox.len() == 0 {
        return None;
    }
    waker_from(outbox.take_out(ticket))
}

/// The waker that a future was registered with, or else that of its pair.
pub fn last_waker<W: Drop>(phase: Phase<W>, named: Option<W>) -> Option<W>
    ensures { result ≡ waker_or phase named }
{
    match phase {
        Phase::Registered(waker) => Some(waker),
        Phase::Fresh | Phase::Told | Phase::Complete | Phase::Ended => named,
    }
}

fn into_waker<W: Drop>(phase: Phase<W>) -> Option<W>
    ensures { result ≡ waker_in phase }
{
    match phase {
        Phase::Registered(waker) => Some(waker),
        Phase::Fresh | Phase::Told | Phase::Complete | Phase::Ended => None,
    }
}

// Sets the phase of a live future, and takes the phase that it had. Gives its ticket too.
fn swap_phase<D: Drop, W: Drop>(
    list: &mut LinkedList<Ticketed<D, W>>,
    slot: Slot,
    phase: Phase<W>,
) -> (Ticket, Phase<W>)
    requires { IsSome (item list.old slot.0) }
    ensures { (entry : Ticketed D W) × (item list.old slot.0 ≡ Some entry) × (result ≡ (entry.ticket, entry.future.phase))
        × (list.new ≡ with_live list.old (map.insert list.old.live slot.0
        (record entry { future = record entry.future { phase = phase } }))) }
{
    let entry = list.get_mut(slot).unwrap();
    (entry.ticket, mem::replace(&mut entry.future.phase, phase))
}

// Sets the phase of the youngest future of the list.
#[inline(always)]
fn set_youngest<D: Drop, W: Drop>(list: &mut LinkedList<Ticketed<D, W>>, phase: Phase<W>)
    requires { IsSome (item_of list.old (youngest list.old.order)) }
    ensures { (entry : Ticketed D W) × (item_of list.old (youngest list.old.order) ≡ Some entry)
        × (list.new ≡ at_end list.old (youngest list.old.order) (record entry { future = record entry.future { phase = phase } })) }
{
    let entry = list.peek_first_mut().unwrap();
    entry.future.phase = phase;
}

// Polls a future, which is looked up once. It is refused where none lives under this slot that has not ended, and where it would have to
// wait and may not.
fn poll_phase<D: Drop, W: Drop>(
    list: &mut LinkedList<Ticketed<D, W>>,
    slot: Slot,
    waker: W,
    ends: bool,
    may_wait: bool,
) -> Result<PollStep<W>, NotPolled<W>>
    ensures polled { IfOk result (λ step. PollsEntry list.old slot.0 waker ends step list.new) }
    ensures waits { IfOk result (λ step. OnWaits step (may_wait ≡ true)) }
    ensures unchanged { OnErr result (list.new ≡ list.old) }
    ensures refused { IfErr result (λ why. IsRefused why waker (can_be_polled (phase_in_entry (item list.old slot.0))) may_wait
        (has_to_wait ends (phase_in_entry (item list.old slot.0)) ≡ true)) }
{
    let Some(entry) = list.get_mut(slot) else {
        return Err(NotPolled::NoFuture(waker));
    };
    if entry.future.phase.is_over() {
        return Err(NotPolled::NoFuture(waker));
    }
    if !may_wait && entry.future.phase.has_to_wait(ends) {
        return Err(NotPolled::WouldWait(waker));
    }
    Ok(entry.future.phase.poll(waker, ends))
}

// Sets what a live future asks for, and takes what it asked for.
fn swap_asks<D: Drop, W: Drop>(list: &mut LinkedList<Ticketed<D, W>>, slot: Slot, asks: D) -> D
    requires { IsSome (item list.old slot.0) }
    ensures { (entry : Ticketed D W) × (item list.old slot.0 ≡ Some entry) × (result ≡ entry.future.asks)
        × (list.new ≡ with_live list.old (map.insert list.old.live slot.0
        (record entry { future = record entry.future { asks = asks } }))) }
{
    let entry = list.get_mut(slot).unwrap();
    mem::replace(&mut entry.future.asks, asks)
}

impl<D: Drop, W: Drop> WaitQueue<D, W> {
    /// No future. It takes no memory yet.
    pub fn new(alloc: Global) -> Self
        ensures { result ≡ empty_wait_queue }
    {
        WaitQueue {
            list: LinkedList::new(alloc),
        }
    }

    /// A future: what it asks for, and its phase; None if none lives in this slot.
    pub fn future(&self, slot: Slot) -> Option<&LiveFuture<D, W>>
        ensures { option_copied result ≡ map.get self.now.side.live slot.0 }
    {
        match self.list.get(slot) {
            Some(entry) => Some(&entry.future),
            None => None,
        }
    }

    /// The phase of a future; None if none lives in this slot.
    pub fn phase(&self, slot: Slot) -> Option<&Phase<W>>
        ensures { option_copied result ≡ phase_of self.now.side slot.0 }
    {
        match self.list.get(slot) {
            Some(entry) => Some(&entry.future.phase),
            None => None,
        }
    }

    /// How far a future is; None if none lives in this slot.
    pub fn stage(&self, slot: Slot) -> Option<Stage>
        ensures { result ≡ option_map stage_of (phase_of self.now.side slot.0) }
    {
        match self.phase(slot) {
            Some(phase) => Some(phase.stage()),
            None => None,
        }
    }

    /// What a future asks for; None if none lives in this slot.
    pub fn asks(&self, slot: Slot) -> Option<&D>
        ensures { option_copied result ≡ asks_of self.now.side slot.0 }
    {
        match self.list.get(slot) {
            Some(entry) => Some(&entry.future.asks),
            None => None,
        }
    }

    /// The ticket of a live future.
    pub fn ticket(&self, slot: Slot) -> Ticket
        requires { IsLive self.now.side slot.0 }
        ensures { map.get self.now.tickets slot.0 ≡ Some result.0 }
    {
        self.list.get(slot).unwrap().ticket
    }

    /// Inserts a fresh future, in a slot and with a ticket that were not live.
    ///
    /// Refused if there is no memory for it or its ticket; then what it asks for comes back, and nothing has changed.
    #[inline(always)]
    pub fn insert<N: Drop>(
        &mut self,
        outbox: &mut Outbox<(N, W)>,
        asks: D,
    ) -> Result<Slot, NoRoom<D>>
        ensures was_free { IfOk result (λ slot. phase_of self.old.side slot.0 ≡ None) }
        ensures no_ticket { IfOk result (λ slot. map.get self.old.tickets slot.0 ≡ None) }
        ensures inserted { IfOk result (λ slot. (ticket : ℕ) × (set.contains outbox.old.tickets ticket ≡ false)
            × (self.new ≡ record { side = insert_fresh self.old.side slot.0 asks; tickets = map.insert self.old.tickets slot.0 ticket })
            × (outbox.new ≡ with_tickets outbox.old (set.insert outbox.old.tickets ticket))) }
        ensures refused { OnErr result ((self.new ≡ self.old) × (outbox.new ≡ outbox.old)) }
        ensures handed_back { IfErr result (λ failed. failed.0 ≡ asks) }
    {
        let ticket = match outbox.claim() {
            Ok(ticket) => ticket,
            Err(refused) => return Err(NoRoom::of(asks, refused)),
        };
        let entry = Ticketed {
            ticket,
            future: LiveFuture {
                asks,
                phase: Phase::Fresh,
            },
        };
        let failed = match self.list.claim(entry) {
            Ok(slot) => return Ok(slot),
            Err(failed) => failed,
        };
        outbox.free(ticket);
        let (entry, refused) = failed.into_parts();
        Err(NoRoom::of(entry.future.asks, refused))
    }

    /// Registers a future that is not in the queue: it goes to the queue's end.
    #[inline(always)]
    pub fn register(&mut self, slot: Slot, waker: W)
        requires live { IsLive self.old.side slot.0 }
        requires apart { holds slot.0 self.old.side.queue ≡ false }
        ensures { self.new ≡ record self.old { side = registered self.old.side slot.0 waker } }
    {
        self.list.add_front(slot);
        set_youngest(&mut self.list, Phase::Registered(waker));
    }

    /// Sets the phase of a live future; its place in the queue stays. Returns the waker that it was registered with.
    #[inline(always)]
    pub fn set_phase(&mut self, slot: Slot, phase: Phase<W>) -> Option<W>
        requires { IsLive self.old.side slot.0 }
        ensures waker { MatchOption (phase_of self.old.side slot.0) ⊥ (λ before. result ≡ waker_in before) }
        ensures rest { self.new ≡ record self.old { side = record self.old.side { live = with_phase self.old.side.live slot.0 phase } } }
    {
        into_waker(swap_phase(&mut self.list, slot, phase).1)
    }

    /// Sets the phase of a live future as `set_phase` does, and gives its ticket with the waker: it is looked up once.
    #[inline(always)]
    pub fn notice(&mut self, slot: Slot, phase: Phase<W>) -> (Ticket, Option<W>)
        requires { IsLive self.old.side slot.0 }
        ensures ticket { map.get self.old.tickets slot.0 ≡ Some result.0.0 }
        ensures waker { MatchOption (phase_of self.old.side slot.0) ⊥ (λ before. result.1 ≡ waker_in before) }
        ensures rest { self.new ≡ record self.old { side = record self.old.side { live = with_phase self.old.side.live slot.0 phase } } }
    {
        let (ticket, was) = swap_phase(&mut self.list, slot, phase);
        (ticket, into_waker(was))
    }

    /// Polls a future. A registered one keeps its place with this newer waker; a fresh one is registered and goes to the queue's
    /// end, unless it ends with this poll; any other ends. It is refused where none lives under this slot that has not ended, and where it
    /// would have to wait and may not; then nothing has changed.
    pub fn poll(
        &mut self,
        slot: Slot,
        waker: W,
        ends: bool,
        may_wait: bool,
    ) -> Result<PollStep<W>, NotPolled<W>>
        requires { is_registered (phase_of self.old.side slot.0) ≡ false → holds slot.0 self.old.side.queue ≡ false }
        ensures polled { IfOk result (λ step. (before : Phase W) × (phase_of self.old.side slot.0 ≡ Some before)
            × (can_be_polled (Some before) ≡ true) × (step ≡ poll_step ends before waker)
            × (self.new ≡ record self.old { side = waiters_after_poll ends before self.old.side slot.0 waker })) }
        ensures waits { IfOk result (λ step. OnWaits step (may_wait ≡ true)) }
        ensures unchanged { OnErr result (self.new ≡ self.old) }
        ensures refused { IfErr result (λ why. IsRefused why waker (can_be_polled (phase_of self.old.side slot.0)) may_wait
            (has_to_wait ends (phase_of self.old.side slot.0) ≡ true)) }
    {
        let step = match poll_phase(&mut self.list, slot, waker, ends, may_wait) {
            Ok(step) => step,
            Err(refused) => return Err(refused),
        };
        if let PollStep::Joins = &step {
            self.list.add_front(slot);
        }
        Ok(step)
    }

    /// Sets what a live future asks for, and returns what it asked for.
    pub fn exchange(&mut self, slot: Slot, asks: D) -> D
        requires { IsLive self.old.side slot.0 }
        ensures asked { asks_of self.old.side slot.0 ≡ Some result }
        ensures rest { self.new ≡ record self.old { side = exchange self.old.side slot.0 asks } }
    {
        swap_asks(&mut self.list, slot, asks)
    }

    /// Removes a future, also from the queue, and returns it with its ticket, which stays live in the outbox. None if none lives in
    /// this slot.
    #[inline(always)]
    pub fn remove(&mut self, slot: Slot) -> Option<Ticketed<D, W>>
        ensures ticket { IfSome result (λ entry. map.get self.old.tickets slot.0 ≡ Some entry.ticket.0) }
        ensures future { IfSome result (λ entry. map.get self.old.side.live slot.0 ≡ Some entry.future) }
        ensures removed { OnSome result
            (self.new ≡ record { side = without_future self.old.side slot.0; tickets = map.remove self.old.tickets slot.0 }) }
        ensures absent { IfNone result ((phase_of self.old.side slot.0 ≡ None) × (self.new ≡ self.old)) }
    {
        self.list.remove_and_free(slot)
    }

    /// The oldest future of the queue; None if the queue is empty.
    pub fn oldest(&self) -> Option<Slot>
        ensures { MatchOption result (self.now.side.queue ≡ []) (λ slot. (others : List ℕ) × (self.now.side.queue ≡ slot.0 ∷ others)) }
    {
        match self.list.last_slot() {
            Some(oldest) => Some(oldest),
            None => None,
        }
    }

    /// The next younger future of the queue; None for the youngest.
    pub fn younger(&mut self, slot: Slot) -> Option<Slot>
        requires { holds slot.0 self.old.side.queue ≡ true }
        ensures next { (front rest : List ℕ) → self.old.side.queue ≡ front ++ slot.0 ∷ rest →
            MatchOption result (rest ≡ []) (λ next. (others : List ℕ) × (rest ≡ next.0 ∷ others)) }
        ensures same { self.new ≡ self.old }
    {
        self.list.younger(slot)
    }

    /// Appends the slots of the queue, the oldest first. Where there was no memory for all, a beginning was appended.
    pub fn queue(&mut self, slots: &mut Vec<Slot>) -> Result<(), Refused>
        ensures same { self.new ≡ self.old }
        ensures appended { OnOk result (AppendsQueue self.old.side.queue slots.old.items slots.new.items) }
    {
        let mut next = self.oldest();
        while let Some(slot) = next {
            push(slots, slot)?;
            next = self.younger(slot);
        }
        Ok(())
    }

    /// Takes the oldest future out of the queue; None if the queue is empty.
    #[inline(always)]
    pub fn leave_oldest(&mut self) -> Option<Slot>
        ensures { MatchOption result ((self.old.side.queue ≡ []) × (self.new ≡ self.old))
            (λ slot. (others : List ℕ) × (self.old.side.queue ≡ slot.0 ∷ others) ×
            (self.new ≡ record self.old { side = record self.old.side { queue = others } })) }
    {
        let slot = self.list.remove_last()?;
        Some(slot)
    }

    /// Takes a future out of the queue, wherever its place is; it stays live. Does nothing if it isn't queued.
    #[inline(always)]
    pub fn leave(&mut self, slot: Slot)
        ensures { self.new ≡ record self.old { side = record self.old.side { queue = without slot.0 self.old.side.queue } } }
    {
        self.list.remove(slot);
    }
}
