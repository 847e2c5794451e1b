//! The state broadcast that threads share.
ghost use Rattle.std.specs.Prelude.{◌≡◌, not, Option, IfOk, IfErr, OnErr};
ghost use Rattle.futures.specs.declared.task.waker.Waker.{Waker};
ghost use Rattle.fi_channels.specs.StateBroadcast.{StateMachine, Closes, MayLackNewer, Sends, TriesReceive, newer_than};
ghost use Rattle.fi_parts.specs.declared.errors.Fault.{Fault};
ghost use Rattle.fi_sync.specs.Received.{PollsState};
ghost use Rattle.fi_sync.specs.Waiting.{InSomeHold, IsNew, WaitedFor};

use crate::blocking::{Blocking, wait_for};
use crate::monitor::Monitor;
use crate::receive_future::ChannelReceiveFuture;
use crate::slot_future::SlotFuture;
use crate::wakes::{HasOutbox, PollWaker};
use fi_channels::StateBroadcastState;
use fi_parts::{ChannelSendError, CloseStatus, Fault, StateId};
use std::alloc::Global;
use std::fmt;
use std::marker::Model;
use std::sync::Wait;

/// A channel that broadcasts its newest state. Threads share it by reference.
///
/// Each call but `new` takes the lock; a clone is made under it. Keeps `StateBroadcastChannel` of futures-intrusive's `channel`.
///
/// # Examples
///
/// ```
/// use futures_intrusive::channel::{StateBroadcastChannel, StateId};
/// use std::thread;
///
/// let port = StateBroadcastChannel::<u64, HostRuntime>::new(rt.alloc(), rt);
/// let follow = || port.receive_blocking(StateId::new()); // the newest state after none
/// let change = || port.send(8080).is_ok();
/// let (newest, is_sent) = thread::join(&rt, follow, change);
/// assert!(rt; is_sent && matches!(newest, Ok(Some((_, 8080)))));
/// ```
#[derive(Drop)]
pub struct StateBroadcastChannel<T: Clone, R> {
    monitor: Monitor<StateBroadcastState<T, PollWaker>, R>,
}

impl<T: Clone, R> fmt::Debug for StateBroadcastChannel<T, R> {
    fn fmt<F: fmt::Write>(&self, f: &mut fmt::Formatter<F>) -> fmt::Result {
        f.debug_struct("GenericStateBroadcastChannel").finish()
    }
}

/// Receives the newest state with its number, once that is greater than the one seen; None once the channel is closed and has no
/// such state.
///
/// Keeps `StateReceiveFuture` of futures-intrusive's `channel`.
pub type StateReceiveFuture<'a, T, R> = ChannelReceiveFuture<
    'a,
    StateBroadcastState<T, PollWaker>,
    R,
>;

impl<T: Clone, R> Model for StateBroadcastChannel<T, R> {
    ghost use Rattle.std.specs.Prelude.{ℕ};

    ghost Value = { ℕ };

    ghost view = { λ channel. channel.monitor };
}

impl<T: Clone, R> StateBroadcastChannel<T, R> {
    /// An open channel without a state. It takes no memory yet. Keeps `StateBroadcastChannel::new`.
    pub fn new(alloc: Global, rt: R) -> Self {
        StateBroadcastChannel {
            monitor: Monitor::new(rt, StateBroadcastState::new(alloc)),
        }
    }
}

impl<T: Clone, R: Wait> StateBroadcastChannel<T, R> {
    /// Sends the next state and wakes all receives that wait, the oldest first. The state before it is dropped with no lock held.
    ///
    /// Refused, with the value, on a closed channel and after `u64::MAX` states. Keeps `StateBroadcastChannel::send`.
    pub fn send(&self, value: T) -> Result<(), ChannelSendError<T>>
        ensures sent { InSomeHold (λ old. Sends {W = Option Waker} old value result) }
        ensures handed_back { IfErr result (λ refused. refused.0 ≡ value) }
    {
        match self.monitor.call(value, StateBroadcastState::replace) {
            Ok(_replaced) => Ok(()),
            Err(refused) => Err(refused),
        }
    }

    /// Closes the channel and wakes all receives that wait, the oldest first. `AlreadyClosed` where it was closed; then nothing has
    /// changed. Keeps `StateBroadcastChannel::close`.
    pub fn close(&self) -> CloseStatus
        ensures closed { InSomeHold (λ old. Closes {T = T} {W = Option Waker} old result) }
    {
        self.monitor.call((), |channel, ()| channel.close())
    }

    /// Returns `true` if the channel was closed when it was looked at.
    pub fn is_closed(&self) -> bool
        ensures shown { (held : StateMachine T (Option Waker)) × (result ≡ not held.own.is_open) }
    {
        self.monitor.call((), |channel, ()| channel.is_closed())
    }

    /// A clone of the newest state with its number, if that is greater than `seen`. Refused with `NoMemory` where the clone could
    /// not be allocated. Keeps `StateBroadcastChannel::try_receive`.
    #[inline(always)]
    pub fn try_receive(&self, seen: StateId) -> Result<Option<(StateId, T)>, Fault>
        ensures tried { IfOk result (λ state. (held : StateMachine T (Option Waker)) × TriesReceive T.is_clone held seen state) }
        ensures fault { IfErr result (λ fault. fault ≡ Fault.NoMemory) }
        // In some hold of the lock there was a newer state, whose clone can fail.
        ensures lacks { OnErr result ((state : StateMachine T (Option Waker)) × MayLackNewer T.is_infallible (newer_than state.own seen)) }
    {
        self.monitor
            .call(seen, |channel, seen| channel.try_receive(seen))
    }

    /// A future that receives the newest state once its number is greater than `seen`. Refused only with `NoMemory`; then nothing
    /// has changed. Keeps `StateBroadcastChannel::receive`.
    #[inline(always)]
    pub fn receive(&self, seen: StateId) -> Result<StateReceiveFuture<'_, T, R>, Fault>
        ensures made { IfOk result (λ future. IsNew self.now future) }
        ensures fault { IfErr result (λ fault. fault ≡ Fault.NoMemory) }
    {
        let claim = self
            .monitor
            .claim(seen, StateBroadcastState::claim_receive)?;
        Ok(SlotFuture::new(&self.monitor, claim))
    }
}

impl<T: Clone, R: Blocking> StateBroadcastChannel<T, R> {
    /// Blocks this thread until there is a state whose number is greater than `seen`, and receives the newest; None once the
    /// channel is closed and has no such state. Refused with `NoMemory` where no future or no executor can be made, or there is
    /// no memory to clone the state into.
    pub fn receive_blocking(&self, seen: StateId) -> Result<Option<(StateId, T)>, Fault>
        ensures waited { WaitedFor (λ state. (held : StateMachine T (Option Waker)) × TriesReceive T.is_clone held seen state)
            (PollsState T.is_clone T.is_infallible) result }
    {
        if let Some(state) = self.try_receive(seen)? {
            return Ok(Some(state));
        }
        let receive = self.receive(seen)?;
        wait_for(self.monitor.runtime(), receive)?
    }
}

impl<T: Clone> HasOutbox for StateBroadcastState<T, PollWaker> {
    ghost use Rattle.fi_channels.specs.StateBroadcast.{Wakes};
    ghost use Rattle.fi_parts.specs.Pairs.{wakers_of};

    ghost wakers = { λ channel. wakers_of channel.waiting.out };

    ghost wakes = { Wakes };

    fn next_wake(&mut self) -> Option<PollWaker> {
        StateBroadcastState::next_wake(self)
    }

    fn wake_count(&self) -> u128 {
        StateBroadcastState::wake_count(self) as u128
    }
}
