//! The channel of many values, with sends and receives that wait.
ghost use Rattle.std.specs.Prelude.{◌≡◌, ◌==◌, not, true, false, Option, IfOk, IfErr, OnOk, OnErr, length};
ghost use Rattle.std.specs.Option.{option_map};
ghost use Rattle.futures.specs.Poll.{OnPending};
ghost use Rattle.fi_parts.specs.Buffer.{empty};
ghost use Rattle.fi_parts.specs.Stages.{stage_of, AppendsQueue};
ghost use Rattle.fi_channels.specs.Polled.{unused_after, IsRefused, WouldBeReady};
ghost use Rattle.fi_channels.specs.Channel.{MakesSend, MakesReceive, PollsNext, TriesSend, TriesReceive, Closes, Wakes};
ghost use Rattle.fi_channels.specs.Channel.{IsSound, OwesNoWake};
ghost use Rattle.fi_channels.specs.ChannelWords as words;
ghost use Rattle.fi_channels.specs.ChannelWords.{opened, send_phase, receive_phase, kind_of, displaced_receive, has_room};
ghost use Rattle.fi_channels.specs.ChannelStays.{AllStay, OtherReceivesStay, IsApartFromSends, IsApartFromReceives};
ghost use Rattle.fi_channels.specs.Cleared.{ClosesAndClears, NoSendWaits};
ghost use Rattle.fi_channels.specs.declared.channel.fields.ReceiveKind.TheVariants.{Single, Stream};

pub mod errors;
pub mod fields;
pub mod stream;
pub mod two_sides;

use crate::access::{ChannelReceiveAccess, ChannelSendAccess, Received, Sent};
use crate::channel::errors::{TryReceiveError, TrySendError};
use crate::channel::fields::{ChannelFields, ReceiveKind};
use crate::channel::stream::LocalChannelStream;
use crate::channel::two_sides::{Receives, Sends};
use crate::receive_future::LocalReceiveFuture;
use crate::send_future::LocalSendFuture;
use fi_parts::buffer::{ArrayBuf, RingBuf};
use fi_parts::{CloseStatus, Fault, Leftover, NoRoom, NotPolled, Refused, Slot, Stage};
use futures::task::Poll;
use std::alloc::Global;
use std::fmt;
use std::marker::Model;

/// A channel of many senders and receivers over a bounded buffer: what was sent first is received first.
///
/// A send that finds the buffer full waits with its value; so with capacity 0 every send waits until a receive takes its
/// value. The channel names the wakers to be woken and wakes nobody itself: whoever calls it takes them out by `next_wake`.
/// But for the makings and a send into a buffer that has to grow, each call takes constant time (`close` for each future that
/// waits) and no memory. Keeps `GenericChannel` of futures-intrusive's `channel`.
///
/// # Examples
///
/// ```
/// use futures::task::Poll;
/// use futures_intrusive::buffer::ArrayBuf;
/// use futures_intrusive::channel::{ChannelSendAccess, ChannelState};
///
/// let mut channel: ChannelState<u64, ArrayBuf<u64, 1>, u64> = ChannelState::new(rt.alloc());
/// let slot = channel.claim_send(5).ok().expect(&rt, "memory");
/// let is_sent = matches!(
///     channel.poll_send(slot, 1, true),
///     Ok((Poll::Ready(Ok(())), _))
/// );
/// channel.leave_send(slot);
/// assert!(rt; is_sent && channel.try_receive() == Ok(5));
/// ```
#[derive(Drop)]
pub struct ChannelState<T: Drop, B: RingBuf<Item = T>, W> {
    fields: ChannelFields<T, B, W>,
}

impl<T: Drop, B: RingBuf<Item = T>, W> fmt::Debug for ChannelState<T, B, W> {
    fn fmt<F: fmt::Write>(&self, f: &mut fmt::Formatter<F>) -> fmt::Result {
        f.debug_struct("Channel").finish()
    }
}

/// The channel for one thread over an array of `N` values: sends, receives and streams are polled with the channel lent to
/// them.
///
/// Keeps `LocalChannel` of futures-intrusive's `channel`.
///
/// # Examples
///
/// ```
/// use futures_intrusive::channel::LocalChannel;
///
/// let mut channel: LocalChannel<u64, 1, u64> = LocalChannel::new(rt.alloc());
/// let stored = channel.try_send(5);
/// let mut send = channel.send(6).expect(&rt, "memory");
/// let waits = send.poll_if_live(&mut channel, 1);
/// let received = channel.try_receive();
/// let woken = channel.next_wake();
/// let ends = send.poll_if_live(&mut channel, 2);
/// let left = send.leave(&mut channel);
/// assert_eq!(rt; (stored, received, woken), (Ok(()), Ok(5), Some(1)));
/// ```
pub type LocalChannel<T, const N: usize, W> = ChannelState<T, ArrayBuf<T, N>, W>;

/// The channel for one thread without a buffer: each value is handed from a send that waits to a receive.
///
/// Keeps `LocalUnbufferedChannel` of futures-intrusive's `channel`.
///
/// # Examples
///
/// ```
/// use futures::task::Poll;
/// use futures_intrusive::channel::LocalUnbufferedChannel;
///
/// let mut channel: LocalUnbufferedChannel<u64, u64> = LocalUnbufferedChannel::new(rt.alloc());
/// let mut stream = channel.stream().expect(&rt, "room");
/// let answer = stream.poll(&mut channel, 2);
/// let is_ended = stream.is_terminated();
/// stream.cancel(&mut channel);
/// assert_eq!(rt; answer, Poll::Pending);
/// ```
pub type LocalUnbufferedChannel<T, W> = LocalChannel<T, 0, W>;

impl<T: Drop, B: RingBuf<Item = T>, W> Model for ChannelState<T, B, W> {
    ghost use Rattle.fi_channels.specs.Channel.{IsSound, OwesNoWake};
    ghost use Rattle.fi_channels.specs.ChannelWords.{ChannelMachine};
    ghost use Rattle.fi_channels.specs.ChannelCode.{channel_code};
    ghost use Rattle.fi_channels.specs.ChannelFields.{machine_of};

    ghost Value = { ChannelMachine T W };

    ghost coded = { channel_code T.code W.code };

    ghost view = { λ s. machine_of B.bounded s.fields };

    ghost invariant = { λ s. IsSound (machine_of B.bounded s.fields) × OwesNoWake (machine_of B.bounded s.fields) };
}

impl<T: Drop, B: RingBuf<Item = T>, W: Drop> ChannelState<T, B, W> {
    /// An open channel over the buffer that `RingBuf::new` makes, which has taken no memory yet. Keeps `GenericChannel::new`.
    pub fn new(alloc: Global) -> Self
        ensures { result ≡ opened (empty (B.capacity_for 0) 0) }
    {
        ChannelState {
            fields: ChannelFields::new(alloc),
        }
    }

    /// An open channel over a buffer for `capacity` values. Some buffers ignore the number and have a capacity of their own.
    /// Refused only with `NoMemory`. Keeps `GenericChannel::with_capacity`.
    pub fn with_capacity(alloc: Global, capacity: usize) -> Result<Self, Fault>
        ensures opened { IfOk result (λ made. made ≡ opened (empty (B.capacity_for capacity) made.own.buffer.reserved)) }
        ensures reserved { IfOk result (λ made. made.own.buffer.reserved ≡ B.reserved_for capacity) }
        ensures fault { IfErr result (λ fault. fault ≡ Fault.NoMemory) }
    {
        let fields = ChannelFields::with_capacity(alloc, capacity)?;
        Ok(ChannelState { fields })
    }

    /// Sends a value at once, if the channel is open and its buffer has room, and tells the oldest receive that waits.
    ///
    /// Else the value comes back and nothing has changed: `Closed` if the channel is closed, else `Full` if there is no room
    /// (with capacity 0 always), else `NoMemory` if the buffer could not grow. Keeps `GenericChannel::try_send`.
    #[inline(always)]
    pub fn try_send(&mut self, value: T) -> Result<(), TrySendError<T>>
        ensures tried { TriesSend self.old value result self.new }
        ensures all_stay { AllStay self.old self.new }
    {
        self.fields.try_send(value)
    }

    /// Receives the oldest value at once, if there is one. The oldest send that waits then moves its value into the free place
    /// (without a buffer its value is the one received), and is named to be woken.
    ///
    /// Else nothing has changed: `Closed` if the channel is closed, else `Empty`. Keeps `GenericChannel::try_receive`.
    #[inline(always)]
    pub fn try_receive(&mut self) -> Result<T, TryReceiveError>
        ensures tried { TriesReceive self.old result self.new }
        ensures all_stay { AllStay self.old self.new }
    {
        self.fields.try_receive()
    }

    /// Closes the channel and names all receives and then all sends that wait, the oldest first on each side.
    ///
    /// What is buffered can still be received. A send that waited gets its value back at its next poll, or from its cancel.
    /// `AlreadyClosed` if it was closed before; then nothing has changed. Keeps `GenericChannel::close`.
    pub fn close(&mut self) -> CloseStatus
        ensures closed { Closes self.old result self.new }
        ensures all_stay { AllStay self.old self.new }
    {
        self.fields.close()
    }

    /// Closes the channel as `close` does, and takes out what is buffered, in one call: nothing can be received any more.
    ///
    /// The values come back in their buffer, so that the caller chooses when they are dropped; an empty one of the same capacity is
    /// left. It takes no memory; its cost is that of `close`. (Futures-intrusive closes and clears in two steps, when its last
    /// receiver is dropped.)
    pub fn close_and_clear(&mut self) -> B
        ensures cleared { ClosesAndClears B.bounded self.old result self.new }
        ensures no_send_waits { NoSendWaits self.new }
    {
        self.fields.close_and_clear()
    }

    /// Returns `true` if the channel was closed.
    pub fn is_closed(&self) -> bool
        ensures { result ≡ not self.now.own.is_open }
    {
        !self.fields.is_open
    }

    /// Returns the number of values in the buffer. Those of sends that wait are not counted.
    pub fn len(&self) -> usize
        ensures { result ≡ length self.now.own.buffer.items }
    {
        self.fields.buffer.len()
    }

    /// Returns `true` if the buffer holds no value. With capacity 0 a send may wait nevertheless.
    pub fn is_empty(&self) -> bool
        ensures { result ≡ (length self.now.own.buffer.items == 0) }
    {
        self.fields.buffer.is_empty()
    }

    /// Returns `true` if the buffer has no room for one more value. With capacity 0 it is both full and empty.
    pub fn is_full(&self) -> bool
        ensures { result ≡ not (has_room self.now.own) }
    {
        !self.fields.buffer.can_push()
    }

    /// Returns the most values that the buffer can hold.
    pub fn capacity(&self) -> usize
        ensures { result ≡ self.now.own.buffer.capacity }
    {
        self.fields.buffer.capacity()
    }

    /// A future that sends the value: it is ready once the value is stored, or was taken from it.
    ///
    /// It fails with `Closed` and the value on a closed channel, also one that closes while it waits, and with
    /// `Fault(NoMemory)` if the buffer could not grow; then it may be polled again. Its making is refused only for want of
    /// memory; then the value comes back and nothing has changed. Keeps `GenericChannel::send`.
    pub fn send(&mut self, value: T) -> Result<LocalSendFuture, NoRoom<T>>
        ensures made { IfOk result (λ future. MakesSend self.old value future.name self.new) }
        ensures fresh { IfOk result (λ future. future.has_ended ≡ false) }
        ensures pollable { IfOk result (λ future. words.can_send (send_phase self.new future.name) ≡ true) }
        ensures refused { OnErr result (self.new ≡ self.old) }
        ensures handed_back { IfErr result (λ failed. failed.0 ≡ value) }
        ensures apart { IfOk result (λ future. IsApartFromSends future.name self.old) }
        ensures all_stay { AllStay self.old self.new }
    {
        let slot = self.claim_send(value)?;
        Ok(LocalSendFuture::at(slot))
    }

    /// A future that receives one value, or None once the channel is closed and empty. Refused only with `NoMemory`; then
    /// nothing has changed. Keeps `GenericChannel::receive`.
    pub fn receive(&mut self) -> Result<LocalReceiveFuture, Fault>
        ensures made { IfOk result (λ future. MakesReceive self.old Single future.name self.new) }
        ensures fresh { IfOk result (λ future. future.has_ended ≡ false) }
        ensures pollable { IfOk result
            (λ future. words.can_receive (kind_of self.new future.name) (receive_phase self.new future.name) ≡ true) }
        ensures refused { OnErr result (self.new ≡ self.old) }
        ensures fault { IfErr result (λ fault. fault ≡ Fault.NoMemory) }
        ensures apart { IfOk result (λ future. IsApartFromReceives future.name self.old) }
        ensures all_stay { AllStay self.old self.new }
    {
        let slot = self.claim_receive()?;
        Ok(LocalReceiveFuture::at(slot))
    }

    /// A stream of the values: it receives one after another, and ends once the channel is closed and empty. Refused only
    /// with `NoMemory`; then nothing has changed. Keeps `GenericChannel::stream`.
    pub fn stream(&mut self) -> Result<LocalChannelStream, Fault>
        ensures made { IfOk result (λ future. MakesReceive self.old Stream future.name self.new) }
        ensures fresh { IfOk result (λ future. future.has_ended ≡ false) }
        ensures pollable { IfOk result
            (λ future. words.can_stream (kind_of self.new future.name) (receive_phase self.new future.name) ≡ true) }
        ensures refused { OnErr result (self.new ≡ self.old) }
        ensures fault { IfErr result (λ fault. fault ≡ Fault.NoMemory) }
        ensures apart { IfOk result (λ future. IsApartFromReceives future.name self.old) }
        ensures all_stay { AllStay self.old self.new }
    {
        let slot = self.claim_stream()?;
        Ok(LocalChannelStream::at(slot))
    }

    /// Takes out the oldest waker that was named to be woken; None if none is left.
    pub fn next_wake(&mut self) -> Option<W>
        ensures popped { Wakes self.old result self.new }
        ensures all_stay { AllStay self.old self.new }
    {
        self.fields.waiters.next_wake()
    }

    /// How many wakers are named to be woken. Its clauses also say what holds of every channel: it is sound and owes no wake.
    pub fn wake_count(&self) -> usize
        ensures count { result ≡ length self.now.waiting.out }
        ensures sound { IsSound self.now }
        ensures no_wake { OwesNoWake self.now }
    {
        self.fields.waiters.wake_count()
    }

    /// Makes a send of this value under a slot that was not live. Refused only for want of memory; then the value comes back
    /// and nothing has changed.
    #[inline(always)]
    pub fn claim_send(&mut self, value: T) -> Result<Slot, NoRoom<T>>
        ensures made { IfOk result (λ slot. MakesSend self.old value slot.0 self.new) }
        ensures pollable { IfOk result (λ slot. words.can_send (send_phase self.new slot.0) ≡ true) }
        ensures refused { OnErr result (self.new ≡ self.old) }
        ensures handed_back { IfErr result (λ failed. failed.0 ≡ value) }
        ensures apart { IfOk result (λ slot. IsApartFromSends slot.0 self.old) }
        ensures all_stay { AllStay self.old self.new }
    {
        self.fields.claim_send(value)
    }

    /// Makes a receive of one value under a slot that was not live. Refused only with `NoMemory`; then nothing has changed.
    #[inline(always)]
    pub fn claim_receive(&mut self) -> Result<Slot, Fault>
        ensures made { IfOk result (λ slot. MakesReceive self.old Single slot.0 self.new) }
        ensures pollable { IfOk result
            (λ slot. words.can_receive (kind_of self.new slot.0) (receive_phase self.new slot.0) ≡ true) }
        ensures refused { OnErr result (self.new ≡ self.old) }
        ensures fault { IfErr result (λ fault. fault ≡ Fault.NoMemory) }
        ensures apart { IfOk result (λ slot. IsApartFromReceives slot.0 self.old) }
        ensures all_stay { AllStay self.old self.new }
    {
        self.fields.claim_receive(ReceiveKind::Single)
    }

    /// Makes a stream under a slot that was not live. Refused only with `NoMemory`; then nothing has changed.
    pub fn claim_stream(&mut self) -> Result<Slot, Fault>
        ensures made { IfOk result (λ slot. MakesReceive self.old Stream slot.0 self.new) }
        ensures pollable { IfOk result
            (λ slot. words.can_stream (kind_of self.new slot.0) (receive_phase self.new slot.0) ≡ true) }
        ensures refused { OnErr result (self.new ≡ self.old) }
        ensures fault { IfErr result (λ fault. fault ≡ Fault.NoMemory) }
        ensures apart { IfOk result (λ slot. IsApartFromReceives slot.0 self.old) }
        ensures all_stay { AllStay self.old self.new }
    {
        self.fields.claim_receive(ReceiveKind::Stream)
    }

    /// How far the send under this slot is; None if none lives there.
    pub fn send_stage(&self, slot: Slot) -> Option<Stage>
        ensures { result ≡ option_map stage_of (send_phase self.now slot.0) }
    {
        self.fields.waiters.stage::<Sends>(slot)
    }

    /// How far the receive or stream under this slot is; None if none lives there.
    pub fn receive_stage(&self, slot: Slot) -> Option<Stage>
        ensures { result ≡ option_map stage_of (receive_phase self.now slot.0) }
    {
        self.fields.waiters.stage::<Receives>(slot)
    }

    /// Appends the slots of the queue of sends, the oldest first. Where there was no memory for all, a beginning was appended.
    pub fn send_queue(&mut self, slots: &mut Vec<Slot>) -> Result<(), Refused>
        ensures same { self.new ≡ self.old }
        ensures appended { OnOk result (AppendsQueue self.old.waiting.sends.queue slots.old.items slots.new.items) }
    {
        self.fields.waiters.queue::<Sends>(slots)
    }

    /// Appends the slots of the queue of receives and streams, as `send_queue` does.
    pub fn receive_queue(&mut self, slots: &mut Vec<Slot>) -> Result<(), Refused>
        ensures same { self.new ≡ self.old }
        ensures appended { OnOk result (AppendsQueue self.old.waiting.receives.queue slots.old.items slots.new.items) }
    {
        self.fields.waiters.queue::<Receives>(slots)
    }

    /// Polls the stream under this slot: ready with its next item, or with None once the channel is closed and empty, and ever after;
    /// else it is registered with this waker. The stream still lives, until it is cancelled (`leave_receive`). It is refused where none
    /// lives there, and where it would have to wait and may not; then nothing has changed: so it asks its caller for nothing.
    pub fn poll_next(
        &mut self,
        slot: Slot,
        waker: W,
        may_wait: bool,
    ) -> Result<(Poll<Option<T>>, Leftover<W>), NotPolled<W>>
        ensures polled { IfOk result (λ polled. PollsNext self.old slot.0 waker polled.0 self.new) }
        ensures displaced { IfOk result (λ polled. polled.1.displaced ≡ displaced_receive self.old slot.0) }
        ensures unused { IfOk result (λ polled. polled.1.unused ≡ unused_after polled.0 waker) }
        ensures live { IfOk result
            (λ _. words.can_stream (kind_of self.new slot.0) (receive_phase self.new slot.0) ≡ true) }
        ensures others { OtherReceivesStay slot.0 self.old self.new }
        ensures pollable { OnOk result (words.can_stream (kind_of self.old slot.0) (receive_phase self.old slot.0) ≡ true) }
        ensures waits { IfOk result (λ polled. OnPending polled.0 (may_wait ≡ true)) }
        ensures unchanged { OnErr result (self.new ≡ self.old) }
        ensures refused { IfErr result (λ why. IsRefused why waker
            (words.can_stream (kind_of self.old slot.0) (receive_phase self.old slot.0)) may_wait
            (WouldBeReady (PollsNext self.old slot.0) false)) }
    {
        self.fields
            .poll_as(ReceiveKind::Stream, slot, waker, may_wait)
    }
}

impl<T: Drop, B: RingBuf<Item = T>, W: Drop> ChannelSendAccess for ChannelState<T, B, W> {
    ghost use Rattle.std.specs.Prelude.{is_some};
    ghost use Rattle.fi_channels.specs.Channel as channel;
    ghost use Rattle.fi_channels.specs.ChannelWords as words;
    ghost use Rattle.fi_channels.specs.ChannelStays as channel_stays;

    type Item = T;

    type Waker = W;

    ghost is_sendable = { λ state name. words.can_send (words.send_phase state name) };

    ghost is_sending = { λ state name. is_some (words.send_phase state name) };

    ghost waker_of = { words.displaced_send };

    ghost sends = { channel.PollsSend };

    ghost withdraws = { channel.CancelsSend };

    ghost others_stay = { channel_stays.OtherSendsStay };

    #[inline(always)]
    fn poll_send(
        &mut self,
        slot: Slot,
        waker: W,
        may_wait: bool,
    ) -> Result<Sent<T, W>, NotPolled<W>> {
        self.fields.poll_send(slot, waker, may_wait)
    }

    #[inline(always)]
    fn leave_send(&mut self, slot: Slot) -> (Option<T>, Option<W>) {
        self.fields.leave_send(slot)
    }
}

impl<T: Drop, B: RingBuf<Item = T>, W: Drop> ChannelReceiveAccess for ChannelState<T, B, W> {
    ghost use Rattle.std.specs.Prelude.{is_some};
    ghost use Rattle.fi_channels.specs.Polled.{Answered};
    ghost use Rattle.fi_channels.specs.Channel as channel;
    ghost use Rattle.fi_channels.specs.ChannelWords as words;
    ghost use Rattle.fi_channels.specs.ChannelStays as channel_stays;

    type Item = T;

    type Waker = W;

    ghost is_pollable = { λ state name. words.can_receive (words.kind_of state name) (words.receive_phase state name) };

    ghost is_receiving = { λ state name. is_some (words.receive_phase state name) };

    ghost waker_of = { words.displaced_receive };

    // A poll is never refused.
    ghost receives = { λ old name waker answer new. Answered (channel.PollsReceive old name waker) (λ fault state. ⊥) answer new };

    ghost cancels = { channel.CancelsReceive };

    ghost others_stay = { channel_stays.OtherReceivesStay };

    #[inline(always)]
    fn poll_receive(
        &mut self,
        slot: Slot,
        waker: W,
        may_wait: bool,
    ) -> Result<Received<T, W>, NotPolled<W>> {
        let (answer, leftover) = self
            .fields
            .poll_as(ReceiveKind::Single, slot, waker, may_wait)?;
        match answer {
            Poll::Pending => Ok((Poll::Pending, leftover)),
            Poll::Ready(item) => Ok((Poll::Ready(Ok(item)), leftover)),
        }
    }

    #[inline(always)]
    fn leave_receive(&mut self, slot: Slot) -> Option<W> {
        self.fields.leave_receive(slot)
    }
}
