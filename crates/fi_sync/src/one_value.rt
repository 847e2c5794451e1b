//! The channels for one value that threads share.
ghost use Rattle.std.specs.Prelude.{◌≡◌, Option, IfOk, IfErr};
ghost use Rattle.futures.specs.declared.task.waker.Waker.{Waker};
ghost use Rattle.fi_channels.specs.Oneshot.{OneshotMachine, Closes, Sends, TriesReceive, has_closed};
ghost use Rattle.fi_parts.specs.declared.errors.Fault.{Fault};
ghost use Rattle.fi_sync.specs.Received.{PollsOneValue, TakesAtOnce};
ghost use Rattle.fi_sync.specs.Waiting.{InSomeHold, IsNew, WaitedFor};

use crate::blocking::{Blocking, wait_for};
use crate::monitor::Monitor;
use crate::receive_future::ChannelReceiveFuture;
use crate::slot_future::SlotFuture;
use crate::wakes::{HasOutbox, PollWaker};
use fi_channels::{ClonesValue, GivesValue, OneValueState, TakesValue};
use fi_parts::{ChannelSendError, CloseStatus, Fault};
use std::alloc::Global;
use std::fmt;
use std::marker::Model;
use std::sync::Wait;

/// A channel that takes one value, and gives it to receives in the way of `G`. Threads share it by reference.
///
/// Each call but `new` takes the lock.
#[derive(Drop)]
pub struct OneValueChannel<T: Drop, G: GivesValue<T>, R> {
    monitor: Monitor<OneValueState<T, PollWaker, G>, R>,
}

/// A channel that takes one value and hands it to the first receive that comes for it. Keeps `OneshotChannel` of
/// futures-intrusive's `channel`.
///
/// # Examples
///
/// ```
/// use futures_intrusive::channel::OneshotChannel;
/// use std::thread;
///
/// let answer = OneshotChannel::<u64, HostRuntime>::new(rt.alloc(), rt);
/// let ask = || answer.receive_blocking() == Ok(Some(42));
/// let tell = || answer.send(42).is_ok();
/// let (is_right, is_sent) = thread::join(&rt, ask, tell);
/// assert!(rt; is_right && is_sent);
/// assert!(rt; answer.send(43).is_err()); // it takes one value
/// ```
pub type OneshotChannel<T, R> = OneValueChannel<T, TakesValue, R>;

impl<T: Drop, R> fmt::Debug for OneshotChannel<T, R> {
    fn fmt<F: fmt::Write>(&self, f: &mut fmt::Formatter<F>) -> fmt::Result {
        f.debug_struct("GenericOneshotChannel").finish()
    }
}

/// A channel that takes one value, and gives a clone of it to every receive. Keeps `OneshotBroadcastChannel` of
/// futures-intrusive's `channel`. The clone is made under the lock.
///
/// # Examples
///
/// ```
/// use futures_intrusive::channel::OneshotBroadcastChannel;
///
/// let news = OneshotBroadcastChannel::<u64, HostRuntime>::new(rt.alloc(), rt);
/// assert!(rt; news.send(5).is_ok());
/// assert!(rt; news.receive_blocking() == Ok(Some(5))); // a clone, for each who asks
/// assert!(rt; news.receive_blocking() == Ok(Some(5)));
/// ```
pub type OneshotBroadcastChannel<T, R> = OneValueChannel<T, ClonesValue, R>;

impl<T: Clone + Drop, R> fmt::Debug for OneshotBroadcastChannel<T, R> {
    fn fmt<F: fmt::Write>(&self, f: &mut fmt::Formatter<F>) -> fmt::Result {
        f.debug_struct("GenericOneshotBroadcastChannel").finish()
    }
}

impl<T: Drop, G: GivesValue<T>, R> Model for OneValueChannel<T, G, R> {
    ghost use Rattle.std.specs.Prelude.{ℕ};

    ghost Value = { ℕ };

    ghost view = { λ channel. channel.monitor };
}

impl<T: Drop, G: GivesValue<T>, R> OneValueChannel<T, G, R> {
    /// An open channel without a value. It takes no memory yet. Keeps `OneshotChannel::new`, `OneshotBroadcastChannel::new`.
    pub fn new(alloc: Global, rt: R) -> Self {
        OneValueChannel {
            monitor: Monitor::new(rt, OneValueState::new(alloc)),
        }
    }
}

impl<T: Drop, G: GivesValue<T>, R: Wait> OneValueChannel<T, G, R> {
    /// Sends the one value, and wakes all receives that wait, the oldest first. Refused, with the value, where one was sent before or the
    /// channel is closed. Keeps `OneshotChannel::send`.
    pub fn send(&self, value: T) -> Result<(), ChannelSendError<T>>
        ensures sent { InSomeHold (λ old. Sends {W = Option Waker} old value result) }
        ensures handed_back { IfErr result (λ refused. refused.0 ≡ value) }
    {
        self.monitor.call(value, OneValueState::send)
    }

    /// Closes the channel and wakes all receives that wait, the oldest first. `AlreadyClosed` where it took no value any more;
    /// then nothing has changed. Keeps `OneshotChannel::close`.
    pub fn close(&self) -> CloseStatus
        ensures closed { InSomeHold (λ old. Closes {T = T} {W = Option Waker} old result) }
    {
        self.monitor.call((), |channel, ()| channel.close())
    }

    /// Returns `true` if the channel took no value any more when it was looked at: one was sent, or it was closed.
    pub fn is_closed(&self) -> bool
        ensures shown { (held : OneshotMachine T (Option Waker)) × (result ≡ has_closed held.own) }
    {
        self.monitor.call((), |channel, ()| channel.is_closed())
    }

    /// Receives at once: the value, or None if none will come. Else `Empty` while the channel is open and has no value, or `NoMemory`
    /// if a broadcast's clone could not be allocated; then nothing has changed. (Futures-intrusive has no such call.)
    #[inline(always)]
    pub fn try_receive(&self) -> Result<Option<T>, Fault>
        ensures tried { InSomeHold (λ old. TriesReceive {W = Option Waker} G.giving old result) }
    {
        self.monitor.call((), |channel, ()| channel.try_receive())
    }

    /// A future that receives the value, or None if none will come: the channel was closed without one, or (of a oneshot)
    /// another receive took it. Refused only with `NoMemory`; then nothing has changed. Keeps `OneshotChannel::receive`.
    #[inline(always)]
    pub fn receive(
        &self,
    ) -> Result<ChannelReceiveFuture<'_, OneValueState<T, PollWaker, G>, R>, Fault>
        ensures made { IfOk result (λ future. IsNew self.now future) }
        ensures fault { IfErr result (λ fault. fault ≡ Fault.NoMemory) }
    {
        let claim = self
            .monitor
            .claim((), |channel, ()| channel.claim_receive())?;
        Ok(SlotFuture::new(&self.monitor, claim))
    }
}

impl<T: Drop, G: GivesValue<T>, R: Blocking> OneValueChannel<T, G, R> {
    /// Blocks this thread until the value comes, and receives it as `receive`: None if none will come. Refused with `NoMemory`
    /// where no future or no executor can be made, or there is no memory to clone the value into; then it took nothing.
    pub fn receive_blocking(&self) -> Result<Option<T>, Fault>
        ensures waited { WaitedFor (TakesAtOnce G.giving) (PollsOneValue G.giving) result }
    {
        match self.try_receive() {
            Ok(received) => return Ok(received),
            Err(Fault::Empty) => {}
            Err(fault) => return Err(fault),
        }
        let receive = self.receive()?;
        wait_for(self.monitor.runtime(), receive)?
    }
}

impl<T: Drop, G: GivesValue<T>> HasOutbox for OneValueState<T, PollWaker, G> {
    ghost use Rattle.fi_channels.specs.Oneshot.{Wakes};
    ghost use Rattle.fi_parts.specs.Pairs.{wakers_of};

    ghost wakers = { λ channel. wakers_of channel.waiting.out };

    ghost wakes = { Wakes };

    fn next_wake(&mut self) -> Option<PollWaker> {
        OneValueState::next_wake(self)
    }

    fn wake_count(&self) -> u128 {
        OneValueState::wake_count(self) as u128
    }
}
