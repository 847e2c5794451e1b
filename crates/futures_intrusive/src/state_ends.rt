//! The ends of the state broadcast.
ghost use Rattle.std.specs.Prelude.{◌≡◌, Option, IfOk, IfErr, OnOk, OnErr, Ok, Err};
ghost use Rattle.futures.specs.declared.task.waker.Waker.{Waker};
ghost use Rattle.fi_parts.specs.declared.errors.Fault.{Fault};
ghost use Rattle.fi_channels.specs.StateBroadcast.{StateMachine, Makes, Sends, TriesReceive, MayLackNewer, newer_than};
ghost use Rattle.fi_sync.specs.Received.{PollsState};
ghost use Rattle.fi_sync.specs.Waiting.{InSomeHold, IsNew, WaitedFor};
ghost use Rattle.futures_intrusive.specs.Ends.{OnState};
ghost use Rattle.futures_intrusive.specs.Readers.{Lends};
ghost use Rattle.futures_intrusive.specs.StateStreams.{AnswersAtOnce, AsksNewer};

use crate::channel_ends::ChannelReceiveFuture;
use crate::counted_ends::{ClosesByEnds, CountedEnds, ManyReceivers, ManySenders, ReceivesClosed};
use crate::ends::{End, EndNames, Receivers, Senders, future_of, two_ends};
use fi_channels::StateBroadcastState;
use fi_parts::{ChannelSendError, Fault, Slot, StateId};
use fi_sync::{Blocking, PollWaker, wait_for};
use futures::task::Poll;
use std::alloc::Global;
use std::sync::Wait;

/// The sending end of a state broadcast. Keeps `StateSender` of futures-intrusive's `channel::shared`.
///
/// # Examples
///
/// ```
/// use futures_intrusive::channel::ChannelSendError;
/// use futures_intrusive::channel::shared::state_broadcast_channel;
///
/// let ends = state_broadcast_channel::<u64, HostRuntime>(rt.alloc(), rt);
/// let (sender, receiver) = ends.expect(&rt, "memory");
/// assert!(rt; sender.send(5).is_ok());
/// // ..
/// drop(receiver);
/// assert!(rt; sender.send(6) == Err(ChannelSendError(6))); // no receiver is left
/// ```
pub type StateSender<T, R> = End<StateBroadcastState<T, PollWaker>, R, Senders>;

/// The receiving end of a state broadcast. Keeps `StateReceiver`.
///
/// # Examples
///
/// ```
/// use futures_intrusive::channel::StateId;
/// use futures_intrusive::channel::shared::state_broadcast_channel;
///
/// let ends = state_broadcast_channel::<u64, HostRuntime>(rt.alloc(), rt);
/// let (sender, receiver) = ends.expect(&rt, "memory");
/// assert!(rt; sender.send(5).is_ok());
/// assert!(rt; matches!(receiver.receive_blocking(StateId::new()), Ok(Some((_, 5)))));
/// ```
pub type StateReceiver<T, R> = End<StateBroadcastState<T, PollWaker>, R, Receivers>;

/// Receives a state; it owns a share of its channel. Keeps `shared::StateReceiveFuture`.
pub type StateReceiveFuture<T, R> = ChannelReceiveFuture<StateBroadcastState<T, PollWaker>, R>;

/// The ends of a state broadcast. Refused only with `NoMemory`. Keeps `state_broadcast_channel`.
pub fn state_broadcast_channel<T: Clone + Drop, R: Wait + Drop>(
    alloc: Global,
    rt: R,
) -> Result<(StateSender<T, R>, StateReceiver<T, R>), Fault>
    ensures same { IfOk result (λ ends. ends.0 ≡ ends.1) }
    ensures fault { IfErr result (λ fault. fault ≡ Fault.NoMemory) }
{
    two_ends(alloc, rt, StateBroadcastState::new(alloc))
}

impl<T: Clone + Drop, R: Wait + Drop> StateSender<T, R> {
    /// Sends the next state. As `StateBroadcastChannel::send`. Keeps `StateSender::send`.
    pub fn send(&self, value: T) -> Result<(), ChannelSendError<T>>
        ensures sent { InSomeHold (λ old. Sends {W = Option Waker} old value result) }
        ensures handed_back { IfErr result (λ refused. refused.0 ≡ value) }
    {
        match self.channel().call(value, CountedEnds::replace) {
            Ok(_replaced) => Ok(()),
            Err(refused) => Err(refused),
        }
    }
}

impl<T: Clone + Drop, R: Wait + Drop> StateReceiver<T, R> {
    /// A future that receives the newest state once its number is greater than `seen`. As `StateBroadcastChannel::receive`. Keeps
    /// `StateReceiver::receive`.
    pub fn receive(&self, seen: StateId) -> Result<StateReceiveFuture<T, R>, Fault>
        ensures made { IfOk result (λ future. IsNew self.now future) }
        ensures asks { IfOk result (AsksNewer T seen) }
        ensures fault { IfErr result (λ fault. fault ≡ Fault.NoMemory) }
    {
        let shared = self.share()?;
        let claim = |ends: &mut CountedEnds<
            StateBroadcastState<T, PollWaker>,
        >, seen: StateId| -> Result<Slot, Fault>
            ensures made { IfOk result (λ slot. InSomeHold {S = StateMachine T (Option Waker)} (λ old new. Makes old seen slot.0 new)) }
            ensures fault { IfErr result (λ fault. fault ≡ Fault.NoMemory) }
        { ends.claim_receive(seen) };
        future_of(shared, seen, claim)
    }

    /// Blocks this thread until there is a state newer than the one seen, and receives the newest. As
    /// `StateBroadcastChannel::receive_blocking`.
    pub fn receive_blocking(&self, seen: StateId) -> Result<Option<(StateId, T)>, Fault>
    where
        R: Blocking,
        ensures waited { WaitedFor (λ state. (held : StateMachine T (Option Waker)) × TriesReceive T.is_clone held seen state)
            (PollsState T.is_clone T.is_infallible) result }
    {
        if let Some(state) = self.try_receive(seen)? {
            return Ok(Some(state));
        }
        let receive = self.receive(seen)?;
        wait_for(self.channel().runtime(), receive)?
    }

    /// A clone of the newest state with its number, if that is greater than `seen`. As `StateBroadcastChannel::try_receive`. Keeps
    /// `StateReceiver::try_receive`.
    pub fn try_receive(&self, seen: StateId) -> Result<Option<(StateId, T)>, Fault>
        ensures tried { IfOk result (λ state. (held : StateMachine T (Option Waker)) × TriesReceive T.is_clone held seen state) }
        ensures fault { IfErr result (λ fault. fault ≡ Fault.NoMemory) }
        // In some hold of the lock there was a newer state, whose clone can fail.
        ensures lacks { OnErr result ((state : StateMachine T (Option Waker)) × MayLackNewer T.is_infallible (newer_than state.own seen)) }
    {
        self.channel()
            .call(seen, |ends, seen| ends.try_receive(seen))
    }
}

impl<T: Clone + Drop> EndNames for StateBroadcastState<T, PollWaker> {
    fn sender() -> &'static str {
        "StateSender"
    }

    fn receiver() -> &'static str {
        "StateReceiver"
    }
}

impl<T: Clone + Drop> ClosesByEnds for StateBroadcastState<T, PollWaker> {
    ghost use Rattle.fi_channels.specs.StateBroadcast.{Closes};
    ghost use Rattle.fi_parts.specs.declared.errors.CloseStatus.{CloseStatus};
    ghost use Rattle.futures_intrusive.specs.KindLaws.{state_wakes};
    ghost use Rattle.futures_intrusive.specs.Kinds.{closing_state_broadcast};

    type Cleared = ();

    ghost closing = { closing_state_broadcast };

    ghost closes = { λ old new. (status : CloseStatus) × Closes old status new };

    ghost clears = { λ old cleared new. (status : CloseStatus) × Closes old status new };

    ghost wakes_stay_closed = { state_wakes };

    fn is_closed(&self) -> bool {
        StateBroadcastState::is_closed(self)
    }

    fn own_wake_count(&self) -> usize {
        StateBroadcastState::wake_count(self)
    }

    fn close_after_senders(&mut self) {
        self.close();
    }

    fn close_after_receivers(&mut self) {
        self.close();
    }
}

impl<T: Clone + Drop> ManySenders for StateBroadcastState<T, PollWaker> {}

impl<T: Clone + Drop> ManyReceivers for StateBroadcastState<T, PollWaker> {}

impl<T: Clone + Drop> ReceivesClosed for StateBroadcastState<T, PollWaker> {
    ghost use Rattle.futures_intrusive.specs.KindLaws.{state_polls, state_cancels};

    ghost receives_stay_closed = { λ old new. state_polls old new T.is_clone T.is_infallible };

    ghost cancels_stay_closed = { state_cancels };
}

/// The calls of `StateBroadcastState`, which leave the counts as they are.
impl<T: Clone + Drop> CountedEnds<StateBroadcastState<T, PollWaker>> {
    /// Sends the next state, and hands back the one before it, so that its caller chooses when that is let go.
    pub fn replace(&mut self, value: T) -> Result<Option<T>, ChannelSendError<T>>
        ensures sent { OnOk result (OnState (λ old new. Sends old value (Ok tt) new) self.old self.new) }
        ensures refused { IfErr result (λ refused.
            OnState (λ old new. Sends old value (Err refused) new) self.old self.new) }
        ensures replaced { IfOk result (λ replaced. replaced ≡ self.old.state.own.value) }
    {
        self.state.replace(value)
    }

    /// A clone of the newest state with its number, if that is greater than `seen`. Refused with `NoMemory` if the clone could
    /// not be allocated.
    pub fn try_receive(&self, seen: StateId) -> Result<Option<(StateId, T)>, Fault>
        ensures state { IfOk result (λ state. TriesReceive T.is_clone self.now.state seen state) }
        ensures lacks { OnErr result (MayLackNewer T.is_infallible (newer_than self.now.state.own seen)) }
        ensures fault { IfErr result (λ fault. fault ≡ Fault.NoMemory) }
    {
        self.state.try_receive(seen)
    }

    /// What a receive of a state newer than `seen` is answered at once: a clone of the newest with its number, or None where the
    /// channel is closed. Pending where it would have to wait. Refused with `NoMemory` if the clone could not be allocated.
    pub fn receive_at_once(&self, seen: StateId) -> Poll<Result<Option<(StateId, T)>, Fault>>
        ensures { AnswersAtOnce T.is_clone T.is_infallible self.now.state seen result }
    {
        match self.try_receive(seen) {
            Ok(Some(state)) => Poll::Ready(Ok(Some(state))),
            Ok(None) if self.state.is_closed() => Poll::Ready(Ok(None)),
            Ok(None) => Poll::Pending,
            Err(fault) => Poll::Ready(Err(fault)),
        }
    }

    /// Lends the newest state to a call, and gives its number and what the call answers; None before the first send.
    pub fn look<A, F: FnOnce(&T) -> A + Drop>(&self, look: F) -> Option<(StateId, A)>
        requires { F.IsAlwaysCallable look }
        ensures { Lends F.FnOnce look self.now.state result }
    {
        let id = self.state.newest_id();
        match self.state.newest() {
            Some(value) => Some((id, look(value))),
            None => None,
        }
    }

    /// Makes a receive. Refused only with `NoMemory`; then nothing has changed.
    pub fn claim_receive(&mut self, seen: StateId) -> Result<Slot, Fault>
        ensures made { IfOk result (λ slot. OnState (λ old new. Makes old seen slot.0 new) self.old self.new) }
        ensures refused { OnErr result (self.new ≡ self.old) }
        ensures fault { IfErr result (λ fault. fault ≡ Fault.NoMemory) }
    {
        self.state.claim_receive(seen)
    }
}
