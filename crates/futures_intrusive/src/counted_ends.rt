//! What stands behind the lock of a channel's shared ends: its state, beside the counts of senders and receivers.
ghost use Rattle.std.specs.Prelude.{◌≡◌, ◌++◌, ℕ, true, Option, Result, length};
ghost use Rattle.fi_channels.specs.declared.channel.errors.SendFault.{SendFault};
ghost use Rattle.fi_parts.specs.declared.errors.Fault.{Fault};
ghost use Rattle.futures.specs.declared.task.Poll.{Poll};
ghost use Rattle.futures.specs.declared.task.waker.Waker.{Waker};
ghost use Rattle.fi_parts.specs.Pairs.{wakers_of};
ghost use Rattle.futures_intrusive.specs.Ends.{Counted, Closing, KeepsEnds, StaysClosed, StaysCleared, OnState, WakesNext, two_ends};
ghost use Rattle.futures_intrusive.specs.Ends.{AddsSender, AddsReceiver, DropsSender, DropsReceiver};

use fi_channels::{ChannelReceiveAccess, ChannelSendAccess, EndCount, EventState, Received, Sent};
use fi_parts::{Fault, NotPolled, Slot};
use fi_sync::{HasOutbox, PollWaker};
use std::alloc::Global;
use std::fmt;
use std::marker::Model;

/// A channel that closes when its last sender or its last receiver is dropped.
pub trait ClosesByEnds: HasOutbox {
    /// What the close after the last receiver lets go. It is dropped once the lock is released.
    type Cleared: Drop;

    /// In which states the channel is closed, in which nothing is buffered, and in which no send waits.
    ghost closing: { Closing Self };

    /// The close after the last sender leads from old to new.
    ghost closes: { Self → Self → Type 0 };

    /// The close after the last receiver lets this go and leads from old to new.
    ghost clears: { Self → Self.Cleared → Self → Type 0 };

    /// Returns `true` if the channel is closed.
    fn is_closed(&self) -> bool
        ensures { result ≡ closing.is_closed self.now };

    /// How many wakers are named to be woken. (Those of the event that is beside the state are added to them.)
    fn own_wake_count(&self) -> usize
        ensures { result ≡ length (Self.wakers self.now) };

    /// Closes the channel, whose last sender was dropped.
    fn close_after_senders(&mut self)
        ensures closes { closes self.old self.new }
        ensures closed { closing.is_closed self.new ≡ true }
        ensures stays { StaysCleared closing self.old self.new };

    /// Closes the channel, whose last receiver was dropped, and clears it if its kind does.
    fn close_after_receivers(&mut self) -> Self::Cleared
        ensures clears { clears self.old result self.new }
        ensures closed { closing.is_closed self.new ≡ true }
        ensures cleared { closing.IsCleared self.new }
        ensures no_send_waits { closing.NoSendWaits self.new };

    /// A wake that is taken out neither opens nor closes the channel.
    ghost wakes_stay_closed: { (old new : Self) (answer : Option (Option Waker)) → Self.wakes old answer new
        → StaysClosed Self.closing old new };
}

/// A channel whose sends, polled or cancelled, neither open nor close it.
pub trait SendsClosed: ChannelSendAccess<Waker = PollWaker> + ClosesByEnds {
    ghost sends_stay_closed: { (old new : Self) (name : ℕ) (waker : Option Waker)
        (answer : Poll (Result (Unit {0}) (SendFault Self.Item)))
        → Self.sends old name waker answer new → StaysClosed Self.closing old new };

    ghost withdraws_stay_closed: { (old new : Self) (name : ℕ) (left : Option Self.Item)
        → Self.withdraws old name left new → StaysClosed Self.closing old new };
}

/// A channel whose receives, polled or cancelled, neither open nor close it.
pub trait ReceivesClosed: ChannelReceiveAccess<Waker = PollWaker> + ClosesByEnds {
    ghost receives_stay_closed: { (old new : Self) (name : ℕ) (waker : Option Waker)
        (answer : Poll (Result (Option Self.Item) Fault))
        → Self.receives old name waker answer new → StaysClosed Self.closing old new };

    ghost cancels_stay_closed: { (old new : Self) (name : ℕ)
        → Self.cancels old name new → StaysClosed Self.closing old new };
}

/// A channel whose senders can be cloned.
pub trait ManySenders: ClosesByEnds {}

/// A channel whose receivers can be cloned.
pub trait ManyReceivers: ClosesByEnds {}

/// A channel's state, how many senders and receivers it has, and the event that is set once it is closed.
///
/// In every value of this type a channel without senders is closed, one without receivers is closed and has nothing buffered, and
/// the event is set exactly if the channel is closed. Of adds and drops only a drop that makes a count 0 closes the channel. They
/// take constant time but that one, which names all who wait.
#[derive(Drop)]
pub struct CountedEnds<S: ClosesByEnds> {
    pub(crate) state: S,
    senders: EndCount,
    receivers: EndCount,
    pub(crate) closed: EventState<PollWaker>,
}

impl<S: ClosesByEnds> fmt::Debug for CountedEnds<S> {
    fn fmt<F: fmt::Write>(&self, f: &mut fmt::Formatter<F>) -> fmt::Result {
        f.debug_struct("CountedEnds").finish()
    }
}

impl<S: ClosesByEnds> Model for CountedEnds<S> {
    ghost use Rattle.std.specs.Coded.{coded_option};
    ghost use Rattle.futures.specs.contracts.task.waker.Waker as waker;
    ghost use Rattle.futures_intrusive.specs.Ends.{Counted, counted_code, KeepsEnds};

    ghost Value = { Counted S };

    ghost coded = { counted_code S.code (coded_option waker.the_row.coded) };

    ghost view = { λ ends. record { state = ends.state; senders = ends.senders; receivers = ends.receivers; closed = ends.closed } };

    ghost invariant = { λ ends. KeepsEnds S.closing
        (record { state = ends.state; senders = ends.senders; receivers = ends.receivers; closed = ends.closed }) };
}

impl<S: ClosesByEnds> CountedEnds<S> {
    /// A channel with one sender and one receiver. It takes no memory yet.
    pub fn new(alloc: Global, state: S) -> Self
        ensures { result ≡ two_ends S.closing state }
    {
        let closed = EventState::new(alloc, state.is_closed());
        CountedEnds {
            state,
            senders: EndCount::new(),
            receivers: EndCount::new(),
            closed,
        }
    }

    /// How many senders there are. Without any the channel is closed.
    pub fn senders(&self) -> usize
        ensures count { result ≡ self.now.senders }
        ensures kept { KeepsEnds S.closing self.now }
    {
        self.senders.count()
    }

    /// How many receivers there are. Without any the channel is closed, and nothing is buffered.
    pub fn receivers(&self) -> usize
        ensures count { result ≡ self.now.receivers }
        ensures kept { KeepsEnds S.closing self.now }
    {
        self.receivers.count()
    }

    /// Returns `true` if the channel is closed.
    pub fn is_closed(&self) -> bool
        ensures { result ≡ S.closing.is_closed self.now.state }
    {
        self.state.is_closed()
    }

    /// One sender less. The last one closes the channel. If there was none, nothing changes.
    pub fn drop_sender(&mut self)
        ensures { DropsSender S.closes self.old self.new }
    {
        if self.senders.drop_end() {
            self.state.close_after_senders();
            self.closed.set();
        }
    }

    /// One receiver less. The last one closes the channel and clears it, and what was cleared comes back. If there was none,
    /// nothing changes.
    pub fn drop_receiver(&mut self) -> Option<S::Cleared>
        ensures dropped { DropsReceiver S.clears self.old result self.new }
        ensures no_send_waits { self.old.receivers ≡ 1 → S.closing.NoSendWaits self.new.state }
    {
        if self.receivers.drop_end() {
            let cleared = self.state.close_after_receivers();
            self.closed.set();
            return Some(cleared);
        }
        None
    }
}

impl<S: ManySenders> CountedEnds<S> {
    /// One sender more. Refused with `TooManyEnds` exactly if there are `isize::MAX`; then nothing changes.
    pub fn add_sender(&mut self) -> Result<(), Fault>
        ensures { AddsSender self.old result self.new }
    {
        self.senders.add_end()
    }
}

impl<S: ManyReceivers> CountedEnds<S> {
    /// One receiver more. Refused with `TooManyEnds` exactly if there are `isize::MAX`; then nothing changes.
    pub fn add_receiver(&mut self) -> Result<(), Fault>
        ensures { AddsReceiver self.old result self.new }
    {
        self.receivers.add_end()
    }
}

impl<S: ClosesByEnds> HasOutbox for CountedEnds<S> {
    ghost wakers = { λ ends. S.wakers ends.state ++ wakers_of ends.closed.waiting.out };

    ghost wakes = { WakesNext S.wakes };

    fn next_wake(&mut self) -> Option<PollWaker> {
        match self.state.next_wake() {
            Some(waker) => Some(waker),
            None => self.closed.next_wake(),
        }
    }

    fn wake_count(&self) -> u128 {
        self.state.own_wake_count() as u128 + self.closed.wake_count() as u128
    }
}

impl<S: SendsClosed> ChannelSendAccess for CountedEnds<S> {
    type Item = S::Item;

    type Waker = PollWaker;

    ghost is_sendable = { λ ends. S.is_sendable ends.state };

    ghost is_sending = { λ ends. S.is_sending ends.state };

    ghost waker_of = { λ ends. S.waker_of ends.state };

    ghost sends = { λ old name waker answer new.
        OnState (λ before after. S.sends before name waker answer after) old new };

    ghost withdraws = { λ old name left new. OnState (λ before after. S.withdraws before name left after) old new };

    ghost others_stay = { λ name old new. S.others_stay name old.state new.state };

    #[inline(always)]
    fn poll_send(
        &mut self,
        slot: Slot,
        waker: PollWaker,
        may_wait: bool,
    ) -> Result<Sent<S::Item, PollWaker>, NotPolled<PollWaker>> {
        self.state.poll_send(slot, waker, may_wait)
    }

    #[inline(always)]
    fn leave_send(&mut self, slot: Slot) -> (Option<S::Item>, Option<PollWaker>) {
        self.state.leave_send(slot)
    }
}

impl<S: ReceivesClosed> ChannelReceiveAccess for CountedEnds<S> {
    type Item = S::Item;

    type Waker = PollWaker;

    ghost is_pollable = { λ ends. S.is_pollable ends.state };

    ghost is_receiving = { λ ends. S.is_receiving ends.state };

    ghost waker_of = { λ ends. S.waker_of ends.state };

    ghost receives = { λ old name waker answer new.
        OnState (λ before after. S.receives before name waker answer after) old new };

    ghost cancels = { λ old name new. OnState (λ before after. S.cancels before name after) old new };

    ghost others_stay = { λ name old new. S.others_stay name old.state new.state };

    #[inline(always)]
    fn poll_receive(
        &mut self,
        slot: Slot,
        waker: PollWaker,
        may_wait: bool,
    ) -> Result<Received<S::Item, PollWaker>, NotPolled<PollWaker>> {
        self.state.poll_receive(slot, waker, may_wait)
    }

    #[inline(always)]
    fn leave_receive(&mut self, slot: Slot) -> Option<PollWaker> {
        self.state.leave_receive(slot)
    }
}
