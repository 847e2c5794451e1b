//! Two sides of waiting futures, sends and receives, over one outbox: the wakers of both stand there in one order.
ghost use Rattle.std.specs.Prelude.{◌≡◌, ℕ, ◌∷◌, List, [], Some, None, true, false, Option, IfOk};
ghost use Rattle.std.specs.Prelude.{OnOk, OnErr, IfErr, IfSome, IfNone, OnSome, MatchOption, length, drop, option_copied};
ghost use Rattle.std.specs.Option.{option_map};
ghost use Rattle.std.specs.Borrow.{sem};
ghost use Rattle.std.specs.FinMap as map;
ghost use Rattle.fi_parts.specs.Order.{holds};
ghost use Rattle.fi_parts.specs.Noticed.{phase_after};
ghost use Rattle.fi_parts.specs.Waiting.{with_phase, exchange, phase_of, IsLive, IsOrdered, is_registered};
ghost use Rattle.fi_parts.specs.Waiting.{insert_fresh, registered, without_future, pair, asks_of, waker_in};
ghost use Rattle.fi_parts.specs.NamedPairs.{has_by, waker_by, without_by, first_waker};
ghost use Rattle.fi_parts.specs.Stages.{stage_of, AppendsQueue};
ghost use Rattle.fi_parts.specs.Oldest.{pop_oldest, pair_of_oldest, asks_of_oldest, complete_oldest};
ghost use Rattle.fi_channels.specs.Waiter.{same_waiter};
ghost use Rattle.fi_channels.specs.TwoSidesModel.{no_waiters};
ghost use Rattle.fi_channels.specs.SideView.{SideView, IsSide, change, change_naming, notify, sends_side, receives_side};
ghost use Rattle.fi_channels.specs.SideLending.{LendsWaitQueue};

use fi_parts::{
    LiveFuture, NoRoom, Notice, Outbox, Phase, Refused, Slot, Stage, WaitQueue, release, waker_from,
};
use std::alloc::Global;
use std::marker::Model;

/// A future of either side, by its slot.
#[derive(Clone, Copy, Debug, PartialEq, Eq)]
pub enum Waiter {
    /// The send in this slot.
    Send(usize),
    /// The receive in this slot.
    Receive(usize),
}

/// The wait queues of both sides.
#[derive(Drop)]
pub struct WaitQueues<D, E, W> {
    sends: WaitQueue<D, W>,
    receives: WaitQueue<E, W>,
}

/// The side of the sends.
pub struct Sends;

/// The side of the receives.
pub struct Receives;

/// One of the two sides. The calls of `TwoSides` are said once, for either.
pub trait OneSide<D, E, W>: 'static {
    /// What a future of this side asks for.
    type Asks: Drop;

    /// Which wait queue, futures and pairs are this side's.
    ghost side: { SideView D E Self.Asks W };

    /// The future in this slot of this side.
    fn waiter(slot: Slot) -> Waiter
        ensures { result ≡ side.waiter slot.0 };

    /// The wait queue of this side.
    fn wait_queue(wait_queues: &WaitQueues<D, E, W>) -> &WaitQueue<Self::Asks, W>
        ensures { result.now ≡ side.wait_queue wait_queues.now };

    /// The wait queue of this side, to be changed.
    fn wait_queue_mut(wait_queues: &mut WaitQueues<D, E, W>) -> &mut WaitQueue<Self::Asks, W>
        ensures* writes_back { sem 𝓛 (LendsWaitQueue D.row E.row Self.Asks.row W.row side wait_queues.entry result) }
        ensures value { result.now ≡ side.wait_queue wait_queues.old };

    ghost is_side: { IsSide side };
}

impl<D: Drop, E, W> OneSide<D, E, W> for Sends {
    ghost use Rattle.fi_channels.specs.SideLaws.{sends_are_a_side};

    type Asks = D;

    ghost side = { sends_side };

    fn waiter(slot: Slot) -> Waiter {
        Waiter::Send(slot.0)
    }

    fn wait_queue(wait_queues: &WaitQueues<D, E, W>) -> &WaitQueue<D, W> {
        &wait_queues.sends
    }

    fn wait_queue_mut(wait_queues: &mut WaitQueues<D, E, W>) -> &mut WaitQueue<D, W> {
        &mut wait_queues.sends
    }

    ghost is_side = { sends_are_a_side };
}

impl<D, E: Drop, W> OneSide<D, E, W> for Receives {
    ghost use Rattle.fi_channels.specs.SideLaws.{receives_are_a_side};

    type Asks = E;

    ghost side = { receives_side };

    fn waiter(slot: Slot) -> Waiter {
        Waiter::Receive(slot.0)
    }

    fn wait_queue(wait_queues: &WaitQueues<D, E, W>) -> &WaitQueue<E, W> {
        &wait_queues.receives
    }

    fn wait_queue_mut(wait_queues: &mut WaitQueues<D, E, W>) -> &mut WaitQueue<E, W> {
        &mut wait_queues.receives
    }

    ghost is_side = { receives_are_a_side };
}

/// Sends and receives by slot, each side with the queue of those with a place in it, and the wakers to be woken. `D` is what a
/// send asks for, `E` what a receive asks for.
#[derive(Drop)]
pub struct TwoSides<D, E, W> {
    wait_queues: WaitQueues<D, E, W>,
    outbox: Outbox<(Waiter, W)>,
}

impl<D, E, W> Model for TwoSides<D, E, W> {
    ghost use Rattle.fi_channels.specs.TwoSidesModel.{TwoSidesModel};
    ghost use Rattle.fi_channels.specs.SideView.{two_sides_of, AreBothTied};
    ghost use Rattle.fi_channels.specs.TwoSidedCode.{two_sides_code};

    ghost Value = { TwoSidesModel D E W };

    ghost coded = { two_sides_code D.code E.code W.code };

    ghost view = { λ s. two_sides_of s.wait_queues s.outbox };

    ghost invariant = { λ s. AreBothTied s.wait_queues s.outbox };
}

impl<D: Drop, E: Drop, W: Drop> TwoSides<D, E, W> {
    /// No future, and nobody to wake. It takes no memory yet.
    pub fn new(alloc: Global) -> Self
        ensures { result ≡ no_waiters }
    {
        TwoSides {
            wait_queues: WaitQueues {
                sends: WaitQueue::new(alloc),
                receives: WaitQueue::new(alloc),
            },
            outbox: Outbox::new(alloc),
        }
    }

    /// The phase of a future; None if none lives in this slot.
    pub fn phase<'a, S: OneSide<D, E, W>>(&'a self, slot: Slot) -> Option<&'a Phase<W>>
    where
        S::Asks: 'a,
        ensures { option_copied result ≡ phase_of (S.side.waiters self.now) slot.0 }
    {
        S::wait_queue(&self.wait_queues).phase(slot)
    }

    /// How far a future is; None if none lives in this slot.
    pub fn stage<S: OneSide<D, E, W>>(&self, slot: Slot) -> Option<Stage>
        ensures { result ≡ option_map stage_of (phase_of (S.side.waiters self.now) slot.0) }
    {
        S::wait_queue(&self.wait_queues).stage(slot)
    }

    /// Appends the slots of a side's queue, the oldest first. Where there was no memory for all, a beginning was appended.
    pub fn queue<S: OneSide<D, E, W>>(&mut self, slots: &mut Vec<Slot>) -> Result<(), Refused>
        ensures same { self.new ≡ self.old }
        ensures appended { OnOk result (AppendsQueue (S.side.waiters self.old).queue slots.old.items slots.new.items) }
    {
        S::wait_queue_mut(&mut self.wait_queues).queue(slots)
    }

    /// A future: what it asks for, and its phase; None if none lives in this slot.
    pub fn future<S: OneSide<D, E, W>>(&self, slot: Slot) -> Option<&LiveFuture<S::Asks, W>>
        ensures { option_copied result ≡ map.get (S.side.waiters self.now).live slot.0 }
    {
        S::wait_queue(&self.wait_queues).future(slot)
    }

    /// What the oldest future asks for that is queued; None if none is.
    pub fn oldest_asks<S: OneSide<D, E, W>>(&self) -> Option<&S::Asks>
        ensures { option_copied result ≡ asks_of_oldest (S.side.waiters self.now) }
    {
        let slot = S::wait_queue(&self.wait_queues).oldest()?;
        S::wait_queue(&self.wait_queues).asks(slot)
    }

    /// Inserts a fresh future, in a slot that was not live.
    ///
    /// Refused if there is no memory for it or its ticket; then what it asks for comes back, and nothing has changed.
    #[inline(always)]
    pub fn insert<S: OneSide<D, E, W>>(&mut self, asks: S::Asks) -> Result<Slot, NoRoom<S::Asks>>
        ensures was_free { IfOk result (λ slot. phase_of (S.side.waiters self.old) slot.0 ≡ None) }
        ensures inserted { IfOk result (λ slot. self.new ≡ change S.side (λ side. insert_fresh side slot.0 asks) self.old) }
        ensures refused { OnErr result (self.new ≡ self.old) }
        ensures handed_back { IfErr result (λ failed. failed.0 ≡ asks) }
    {
        let back = match S::wait_queue_mut(&mut self.wait_queues).insert(&mut self.outbox, asks) {
            // Returned here, so that each outcome has goals of its own name.
            Ok(slot) => return Ok(slot),
            Err(back) => back,
        };
        Err(back)
    }

    /// Takes the waker of a live future out of the outbox, in constant time; None if it was not named.
    #[inline(always)]
    pub fn take_out<S: OneSide<D, E, W>>(&mut self, slot: Slot) -> Option<W>
        requires { IsLive (S.side.waiters self.old) slot.0 }
        ensures waker { result ≡ waker_by same_waiter (S.side.waiter slot.0) self.old.out }
        ensures rest { self.new ≡ record self.old { out = without_by same_waiter (S.side.waiter slot.0) self.old.out } }
    {
        if self.outbox.len() == 0 {
            return None;
        }
        let ticket = S::wait_queue(&self.wait_queues).ticket(slot);
        waker_from(self.outbox.take_out(ticket))
    }

    /// Registers a future that is not in the queue: it goes to the queue's end.
    #[inline(always)]
    pub fn register<S: OneSide<D, E, W>>(&mut self, slot: Slot, waker: W)
        requires live { IsLive (S.side.waiters self.old) slot.0 }
        requires apart { holds slot.0 (S.side.waiters self.old).queue ≡ false }
        ensures { self.new ≡ change S.side (λ side. registered side slot.0 waker) self.old }
    {
        S::wait_queue_mut(&mut self.wait_queues).register(slot, waker);
    }

    /// Sets the phase of a live future; its place in the queue stays. Returns the waker that it was registered with.
    #[inline(always)]
    pub fn set_phase<S: OneSide<D, E, W>>(&mut self, slot: Slot, phase: Phase<W>) -> Option<W>
        requires { IsLive (S.side.waiters self.old) slot.0 }
        ensures waker { MatchOption (phase_of (S.side.waiters self.old) slot.0) ⊥ (λ before. result ≡ waker_in before) }
        ensures rest { self.new ≡ change S.side (λ side. record side { live = with_phase side.live slot.0 phase }) self.old }
    {
        S::wait_queue_mut(&mut self.wait_queues).set_phase(slot, phase)
    }

    /// Sets what a live future asks for, and returns what it asked for.
    pub fn exchange<S: OneSide<D, E, W>>(&mut self, slot: Slot, asks: S::Asks) -> S::Asks
        requires { IsLive (S.side.waiters self.old) slot.0 }
        ensures asked { asks_of (S.side.waiters self.old) slot.0 ≡ Some result }
        ensures rest { self.new ≡ change S.side (λ side. exchange side slot.0 asks) self.old }
    {
        S::wait_queue_mut(&mut self.wait_queues).exchange(slot, asks)
    }

    /// Removes a future, also from the queue and the outbox. Returns it as it was, with the waker of its pair. None if none lives in this
    /// slot; then nothing has changed.
    #[inline(always)]
    pub fn remove<S: OneSide<D, E, W>>(
        &mut self,
        slot: Slot,
    ) -> Option<(LiveFuture<S::Asks, W>, Option<W>)>
        ensures future { IfSome result (λ left. map.get (S.side.waiters self.old).live slot.0 ≡ Some left.0) }
        ensures waker { IfSome result (λ left. left.1 ≡ waker_by same_waiter (S.side.waiter slot.0) self.old.out) }
        ensures removed { OnSome result (self.new ≡ S.side.put self.old (without_future (S.side.waiters self.old) slot.0)
            (without_by same_waiter (S.side.waiter slot.0) self.old.out)) }
        ensures absent { IfNone result ((phase_of (S.side.waiters self.old) slot.0 ≡ None) × (self.new ≡ self.old)) }
    {
        let entry = match S::wait_queue_mut(&mut self.wait_queues).remove(slot) {
            Some(entry) => entry,
            None => return None,
        };
        let named = release(&mut self.outbox, entry.ticket);
        Some((entry.future, named))
    }

    // Takes the oldest future out of the queue; None if the queue is empty.
    #[inline(always)]
    fn leave_oldest<S: OneSide<D, E, W>>(&mut self) -> Option<Slot>
        ensures { MatchOption result (((S.side.waiters self.old).queue ≡ []) × (self.new ≡ self.old))
            (λ slot. (others : List ℕ) × ((S.side.waiters self.old).queue ≡ slot.0 ∷ others)
            × (self.new ≡ change S.side (λ side. record side { queue = others }) self.old)) }
    {
        let slot = S::wait_queue_mut(&mut self.wait_queues).leave_oldest()?;
        Some(slot)
    }

    // Sets the phase of a registered future, and names it with the waker that it was registered with.
    #[inline(always)]
    fn notice<S: OneSide<D, E, W>>(&mut self, slot: Slot, phase: Phase<W>)
        requires registered { is_registered (phase_of (S.side.waiters self.old) slot.0) ≡ true }
        requires no_pair { has_by same_waiter (S.side.waiter slot.0) self.old.out ≡ false }
        ensures { self.new ≡ change_naming S.side (λ side. record side { live = with_phase side.live slot.0 phase })
            (λ side. pair side slot.0) self.old }
    {
        let (ticket, waker) = S::wait_queue_mut(&mut self.wait_queues).notice(slot, phase);
        self.outbox.name(ticket, (S::waiter(slot), waker.unwrap()));
    }

    /// Notices all queued futures of a side, the oldest first: each leaves the queue and is named.
    #[inline(always)]
    pub fn notice_all<S: OneSide<D, E, W>>(&mut self, notice: Notice)
        requires { IsOrdered (S.side.waiters self.old) (S.side.pairs_in self.old.out) }
        ensures { self.new ≡ notify S.side (phase_after notice) self.old }
    {
        while let Some(slot) = self.leave_oldest::<S>() {
            self.notice::<S>(slot, notice.phase());
        }
    }

    /// Takes the oldest future out of the queue, makes it complete and names it. Returns what it asked for, in place of which
    /// `left` is set; None, and `left` is dropped, if none is queued.
    #[inline(always)]
    pub fn complete_oldest<S: OneSide<D, E, W>>(&mut self, left: S::Asks) -> Option<S::Asks>
        requires { IsOrdered (S.side.waiters self.old) (S.side.pairs_in self.old.out) }
        ensures asked { result ≡ asks_of_oldest (S.side.waiters self.old) }
        ensures rest { self.new ≡ change_naming S.side (complete_oldest left) pair_of_oldest self.old }
    {
        let slot = self.leave_oldest::<S>()?;
        let asked = self.exchange::<S>(slot, left);
        self.notice::<S>(slot, Phase::Complete);
        Some(asked)
    }

    /// Takes the oldest future out of the queue, tells it and names it, if one is queued.
    #[inline(always)]
    pub fn tell_oldest<S: OneSide<D, E, W>>(&mut self)
        requires { IsOrdered (S.side.waiters self.old) (S.side.pairs_in self.old.out) }
        ensures { self.new ≡ change_naming S.side (pop_oldest Phase.Told) pair_of_oldest self.old }
    {
        if let Some(slot) = self.leave_oldest::<S>() {
            self.notice::<S>(slot, Phase::Told);
        }
    }

    /// Takes out the oldest waker to be woken, of either side; None if none is left.
    pub fn next_wake(&mut self) -> Option<W>
        ensures value { result ≡ first_waker self.old.out }
        ensures rest { self.new ≡ record self.old { out = drop 1 self.old.out } }
    {
        waker_from(self.outbox.pop())
    }

    /// How many wakers are to be woken.
    pub fn wake_count(&self) -> usize
        ensures { result ≡ length self.now.out }
    {
        self.outbox.len()
    }
}
