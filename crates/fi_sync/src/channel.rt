//! The channel of many values that threads share.
ghost use Rattle.std.specs.Prelude.{◌≡◌, ◌==◌, not, length, Option, IfOk, IfErr, true, false};
ghost use Rattle.futures.specs.declared.task.waker.Waker.{Waker};
ghost use Rattle.fi_parts.specs.declared.errors.Fault.{Fault};
ghost use Rattle.fi_channels.specs.Channel.{Closes, TriesReceive, TriesSend};
ghost use Rattle.fi_channels.specs.ChannelWords.{ChannelMachine, has_room};
ghost use Rattle.fi_channels.specs.ChannelErrors.{value_in, is_full, is_memory};
ghost use Rattle.fi_sync.specs.Received.{PollsReceive, ReceivesAtOnce};
ghost use Rattle.fi_sync.specs.Waiting.{InSomeHold, IsNew, WaitedFor};

pub mod stream;

use crate::blocking::{Blocking, wait_for};
use crate::channel::stream::ChannelStream;
use crate::monitor::Monitor;
use crate::receive_future::ChannelReceiveFuture;
use crate::send_future::ChannelSendFuture;
use crate::slot_future::SlotFuture;
use crate::wakes::{HasOutbox, PollWaker};
use fi_channels::{ChannelState, TryReceiveError, TrySendError};
use fi_parts::buffer::{ArrayBuf, RingBuf};
use fi_parts::{CloseStatus, Fault, NoRoom};
use std::alloc::Global;
use std::fmt;
use std::marker::Model;
use std::sync::Wait;

/// A channel of many senders and receivers over a bounded buffer: what was sent first is received first. Threads share it by
/// reference.
///
/// Each call but the makings of the channel takes the lock. Keeps `GenericChannel` of futures-intrusive's `channel`.
///
/// # Examples
///
/// ```
/// use futures_intrusive::buffer::GrowingHeapBuf;
/// use futures_intrusive::channel::GenericChannel;
///
/// let growing: GenericChannel<u64, GrowingHeapBuf<u64>, HostRuntime> =
///     GenericChannel::with_capacity(rt.alloc(), rt, 300).expect(&rt, "memory");
/// assert!(rt; growing.capacity() == 300 && growing.try_send(7).is_ok());
/// assert!(rt; growing.try_receive() == Ok(7));
/// ```
#[derive(Drop)]
pub struct GenericChannel<T: Drop, B: RingBuf<Item = T>, R> {
    monitor: Monitor<ChannelState<T, B, PollWaker>, R>,
}

impl<T: Drop, B: RingBuf<Item = T>, R> fmt::Debug for GenericChannel<T, B, R> {
    fn fmt<F: fmt::Write>(&self, f: &mut fmt::Formatter<F>) -> fmt::Result {
        f.debug_struct("Channel").finish()
    }
}

/// A channel over an array of `N` values. Keeps `Channel` of futures-intrusive's `channel`.
///
/// # Examples
///
/// ```
/// use futures::test::MockTask;
/// use futures_intrusive::channel::Channel;
///
/// let task = MockTask::new(&rt).expect(&rt, "memory");
/// let channel = Channel::<u64, 1, HostRuntime>::new(rt.alloc(), rt);
/// assert!(rt; channel.try_send(1).is_ok());
/// let mut first = channel.send(2).ok().expect(&rt, "memory");
/// let mut second = channel.send(3).ok().expect(&rt, "memory");
/// assert!(rt; task.poll(&mut first).is_pending() && task.poll(&mut second).is_pending());
/// assert!(rt; first.cancel() == Some(2) && first.is_terminated());
/// assert!(rt; channel.try_receive() == Ok(1));
/// assert!(rt; second.cancel().is_none() && channel.try_receive() == Ok(3));
/// ```
pub type Channel<T, const N: usize, R> = GenericChannel<T, ArrayBuf<T, N>, R>;

/// A channel without a buffer: each value is handed from a send that waits to a receive. Keeps `UnbufferedChannel` of
/// futures-intrusive's `channel`.
///
/// # Examples
///
/// ```
/// use futures::executor::block_on;
/// use futures::future::join;
/// use futures_intrusive::blocking::Blocking;
/// use futures_intrusive::channel::UnbufferedChannel;
///
/// // Whether a send and a receive meet that one thread polls.
/// fn meet<R: Blocking>(rt: &R, channel: &UnbufferedChannel<u64, R>) -> Option<bool> {
///     let send = channel.send(7).ok()?;
///     let (sent, received) = block_on(rt, join(send, channel.receive().ok()?)).ok()?;
///     Some(sent == Ok(()) && received == Ok(Some(7)))
/// }
/// ```
pub type UnbufferedChannel<T, R> = Channel<T, 0, R>;

impl<T: Drop, B: RingBuf<Item = T>, R> Model for GenericChannel<T, B, R> {
    ghost use Rattle.std.specs.Prelude.{ℕ};

    ghost Value = { ℕ };

    ghost view = { λ channel. channel.monitor };
}

impl<T: Drop, B: RingBuf<Item = T>, R> GenericChannel<T, B, R> {
    /// An open channel over the buffer that `RingBuf::new` makes, which has taken no memory yet. Keeps `GenericChannel::new`.
    pub fn new(alloc: Global, rt: R) -> Self {
        GenericChannel {
            monitor: Monitor::new(rt, ChannelState::new(alloc)),
        }
    }
}

impl<T: Drop, B: RingBuf<Item = T>, R: Drop> GenericChannel<T, B, R> {
    /// An open channel over a buffer for `capacity` values. Some buffers ignore the number and have a capacity of their own.
    /// Refused only with `NoMemory`. Keeps `GenericChannel::with_capacity`.
    pub fn with_capacity(alloc: Global, rt: R, capacity: usize) -> Result<Self, Fault>
        ensures fault { IfErr result (λ fault. fault ≡ Fault.NoMemory) }
    {
        let state = ChannelState::with_capacity(alloc, capacity)?;
        Ok(GenericChannel {
            monitor: Monitor::new(rt, state),
        })
    }
}

impl<T: Drop, B: RingBuf<Item = T>, R: Wait> GenericChannel<T, B, R> {
    /// Sends a value at once, if the channel is open and its buffer has room, and wakes the oldest receive that waits. Else the
    /// value comes back: with `Closed`, with `Full`, or with `NoMemory` where the buffer could not grow. Keeps `GenericChannel::try_send`.
    #[inline(always)]
    pub fn try_send(&self, value: T) -> Result<(), TrySendError<T>>
        ensures tried { InSomeHold (λ old. TriesSend {W = Option Waker} old value result) }
        ensures handed_back { IfErr result (λ refused. value_in refused ≡ value) }
    {
        self.monitor.call(value, ChannelState::try_send)
    }

    /// Receives the oldest value at once, if there is one. Else `Closed` where the channel is closed, or `Empty`. Keeps
    /// `GenericChannel::try_receive`.
    #[inline(always)]
    pub fn try_receive(&self) -> Result<T, TryReceiveError>
        ensures tried { InSomeHold (λ old. TriesReceive {W = Option Waker} old result) }
    {
        self.monitor.call((), |channel, ()| channel.try_receive())
    }

    /// Closes the channel and wakes all receives and then all sends that wait. `AlreadyClosed` where it was closed; then nothing
    /// has changed. Keeps `GenericChannel::close`.
    pub fn close(&self) -> CloseStatus
        ensures closed { InSomeHold (λ old. Closes {T = T} {W = Option Waker} old result) }
    {
        self.monitor.call((), |channel, ()| channel.close())
    }

    /// Returns `true` if the channel was closed when it was looked at.
    pub fn is_closed(&self) -> bool
        ensures shown { (held : ChannelMachine T (Option Waker)) × (result ≡ not held.own.is_open) }
    {
        self.monitor.call((), |channel, ()| channel.is_closed())
    }

    /// Returns the number of values that were buffered when it was looked at. Those of sends that wait are not counted.
    pub fn len(&self) -> usize
        ensures shown { (held : ChannelMachine T (Option Waker)) × (result ≡ length held.own.buffer.items) }
    {
        self.monitor.call((), |channel, ()| channel.len())
    }

    /// Returns `true` if no value was buffered when it was looked at.
    pub fn is_empty(&self) -> bool
        ensures shown { (held : ChannelMachine T (Option Waker)) × (result ≡ (length held.own.buffer.items == 0)) }
    {
        self.monitor.call((), |channel, ()| channel.is_empty())
    }

    /// Returns `true` if the buffer had no room for one more value when it was looked at; with capacity 0 always.
    pub fn is_full(&self) -> bool
        ensures shown { (held : ChannelMachine T (Option Waker)) × (result ≡ not (has_room held.own)) }
    {
        self.monitor.call((), |channel, ()| channel.is_full())
    }

    /// Returns the most values that the buffer can hold.
    pub fn capacity(&self) -> usize
        ensures shown { (held : ChannelMachine T (Option Waker)) × (result ≡ held.own.buffer.capacity) }
    {
        self.monitor.call((), |channel, ()| channel.capacity())
    }

    /// A future that sends the value. Its making is refused only for want of memory; then the value comes back. Keeps
    /// `GenericChannel::send`.
    #[inline(always)]
    pub fn send(
        &self,
        value: T,
    ) -> Result<ChannelSendFuture<'_, ChannelState<T, B, PollWaker>, R>, NoRoom<T>>
        ensures made { IfOk result (λ future. IsNew self.now future) }
        ensures handed_back { IfErr result (λ failed. failed.0 ≡ value) }
    {
        let claim = self.monitor.claim(value, ChannelState::claim_send)?;
        Ok(SlotFuture::new(&self.monitor, claim))
    }

    /// A future that receives one value, or None once the channel is closed and empty. Refused only with `NoMemory`; then
    /// nothing has changed. Keeps `GenericChannel::receive`.
    #[inline(always)]
    pub fn receive(
        &self,
    ) -> Result<ChannelReceiveFuture<'_, ChannelState<T, B, PollWaker>, R>, Fault>
        ensures made { IfOk result (λ future. IsNew self.now future) }
        ensures fault { IfErr result (λ fault. fault ≡ Fault.NoMemory) }
    {
        let claim = self
            .monitor
            .claim((), |channel, ()| channel.claim_receive())?;
        Ok(SlotFuture::new(&self.monitor, claim))
    }

    /// A stream of the values, which ends once the channel is closed and empty. Refused only with `NoMemory`; then nothing has
    /// changed. Keeps `GenericChannel::stream`.
    pub fn stream(&self) -> Result<ChannelStream<'_, T, B, R>, Fault>
        ensures made { IfOk result (λ stream. IsNew self.now stream) }
        ensures fault { IfErr result (λ fault. fault ≡ Fault.NoMemory) }
    {
        let claim = self
            .monitor
            .claim((), |channel, ()| channel.claim_stream())?;
        Ok(ChannelStream::new(&self.monitor, claim))
    }
}

impl<T: Drop, B: RingBuf<Item = T>, R: Blocking> GenericChannel<T, B, R> {
    /// Blocks this thread until the value is stored or taken. Else the value comes back: with `Closed`, or with `NoMemory` where
    /// no future or no executor can be made, or the buffer could not grow; never with `Full`.
    pub fn send_blocking(&self, value: T) -> Result<(), TrySendError<T>>
        ensures never_full { IfErr result (λ refused. is_full refused ≡ false) }
    {
        let value = match self.try_send(value) {
            Ok(()) => return Ok(()),
            Err(TrySendError::Full(value)) => value,
            Err(refused) => return Err(refused),
        };
        match self.send_or_hand_back(value) {
            Ok(mut send) => send.wait_blocking(self.monitor.runtime()),
            Err(refused) => Err(refused),
        }
    }

    // A future that sends the value; where none can be made, the value comes back with `NoMemory`.
    fn send_or_hand_back(
        &self,
        value: T,
    ) -> Result<ChannelSendFuture<'_, ChannelState<T, B, PollWaker>, R>, TrySendError<T>>
        ensures handed_back { IfErr result (λ refused. (value_in refused ≡ value) × (is_memory refused ≡ true)) }
    {
        match self.send(value) {
            Ok(send) => Ok(send),
            Err(failed) => Err(TrySendError::NoMemory(failed)),
        }
    }

    /// Blocks this thread until a value comes, and receives it; None once the channel is closed and empty. Refused with
    /// `NoMemory` where no future or no executor can be made; then it took nothing.
    pub fn receive_blocking(&self) -> Result<Option<T>, Fault>
        ensures waited { WaitedFor ReceivesAtOnce PollsReceive result }
    {
        match self.try_receive() {
            Ok(value) => return Ok(Some(value)),
            Err(TryReceiveError::Closed) => return Ok(None),
            Err(TryReceiveError::Empty) => {}
        }
        let receive = self.receive()?;
        wait_for(self.monitor.runtime(), receive)?
    }
}

impl<T: Drop, B: RingBuf<Item = T>> HasOutbox for ChannelState<T, B, PollWaker> {
    ghost use Rattle.fi_channels.specs.Channel.{Wakes};
    ghost use Rattle.fi_sync.specs.Wakes.{wakers_in};

    ghost wakers = { λ channel. wakers_in channel.waiting.out };

    ghost wakes = { Wakes };

    fn next_wake(&mut self) -> Option<PollWaker> {
        ChannelState::next_wake(self)
    }

    fn wake_count(&self) -> u128 {
        ChannelState::wake_count(self) as u128
    }
}
