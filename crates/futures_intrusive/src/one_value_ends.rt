//! The ends of the channels of one value.
ghost use Rattle.std.specs.Prelude.{◌≡◌, Option, IfOk, IfErr, OnErr};
ghost use Rattle.futures.specs.declared.task.waker.Waker.{Waker};
ghost use Rattle.fi_parts.specs.declared.errors.Fault.{Fault};
ghost use Rattle.fi_channels.specs.Oneshot.{Makes, Sends, TriesReceive};
ghost use Rattle.fi_sync.specs.Received.{PollsOneValue, TakesAtOnce};
ghost use Rattle.fi_sync.specs.Waiting.{InSomeHold, IsNew, WaitedFor};
ghost use Rattle.futures_intrusive.specs.Ends.{OnState, ClosesBy};

use crate::channel_ends::ChannelReceiveFuture;
use crate::counted_ends::{ClosesByEnds, CountedEnds, ManyReceivers, ReceivesClosed};
use crate::ends::{End, EndNames, Receivers, Senders, future_of, two_ends};
use fi_channels::{ClonesValue, GivesValue, OneValueState, TakesValue};
use fi_parts::{ChannelSendError, Fault, Slot};
use fi_sync::{Blocking, PollWaker, wait_for};
use std::alloc::Global;
use std::sync::Wait;

/// The sending end of a channel that takes one value, and gives it in the way of `G`.
pub type OneValueSender<T, G, R> = End<OneValueState<T, PollWaker, G>, R, Senders>;

/// The receiving end of such a channel.
pub type OneValueReceiver<T, G, R> = End<OneValueState<T, PollWaker, G>, R, Receivers>;

/// The sending end of a channel whose value goes to one receive. Keeps `OneshotSender` of futures-intrusive's `channel::shared`.
///
/// # Examples
///
/// ```
/// use futures_intrusive::channel::shared::oneshot_channel;
///
/// let ends = oneshot_channel::<u64, HostRuntime>(rt.alloc(), rt);
/// let (sender, receiver) = ends.expect(&rt, "memory");
/// assert!(rt; sender.send(5).is_ok() && sender.is_closed()); // it takes one value
/// assert!(rt; receiver.receive_blocking() == Ok(Some(5)));
/// ```
pub type OneshotSender<T, R> = OneValueSender<T, TakesValue, R>;

/// The receiving end of a channel whose value goes to one receive. Keeps `OneshotReceiver`.
///
/// # Examples
///
/// ```
/// use futures_intrusive::channel::shared::oneshot_channel;
///
/// let ends = oneshot_channel::<u64, HostRuntime>(rt.alloc(), rt);
/// let (sender, receiver) = ends.expect(&rt, "memory");
/// assert!(rt; sender.send(5).is_ok() && sender.is_closed()); // it takes one value
/// assert!(rt; receiver.receive_blocking() == Ok(Some(5)));
/// ```
pub type OneshotReceiver<T, R> = OneValueReceiver<T, TakesValue, R>;

/// The sending end of a channel of whose value each receive gets a clone. Keeps `OneshotBroadcastSender`.
///
/// # Examples
///
/// ```
/// use futures_intrusive::channel::shared::oneshot_broadcast_channel;
///
/// let ends = oneshot_broadcast_channel::<u64, HostRuntime>(rt.alloc(), rt);
/// let (sender, receiver) = ends.expect(&rt, "memory");
/// drop(receiver.clone().expect(&rt, "memory")); // one receiver is left
/// assert!(rt; sender.send(5).is_ok());
/// assert!(rt; receiver.receive_blocking() == Ok(Some(5)));
/// ```
pub type OneshotBroadcastSender<T, R> = OneValueSender<T, ClonesValue, R>;

/// The receiving end of a channel of whose value each receive gets a clone; it can be cloned. The channel closes once the last of
/// them is dropped; in futures-intrusive once any is. Keeps `OneshotBroadcastReceiver`.
///
/// # Examples
///
/// ```
/// use futures_intrusive::channel::shared::oneshot_broadcast_channel;
///
/// let ends = oneshot_broadcast_channel::<u64, HostRuntime>(rt.alloc(), rt);
/// let (sender, receiver) = ends.expect(&rt, "memory");
/// drop(receiver.clone().expect(&rt, "memory")); // one receiver is left
/// assert!(rt; sender.send(5).is_ok());
/// assert!(rt; receiver.receive_blocking() == Ok(Some(5)));
/// ```
pub type OneshotBroadcastReceiver<T, R> = OneValueReceiver<T, ClonesValue, R>;

/// The ends of a channel whose value goes to one receive. Refused only with `NoMemory`. Keeps `oneshot_channel`.
pub fn oneshot_channel<T: Drop, R: Wait + Drop>(
    alloc: Global,
    rt: R,
) -> Result<(OneshotSender<T, R>, OneshotReceiver<T, R>), Fault>
    ensures same { IfOk result (λ ends. ends.0 ≡ ends.1) }
    ensures fault { IfErr result (λ fault. fault ≡ Fault.NoMemory) }
{
    two_ends(alloc, rt, OneValueState::new(alloc))
}

/// The ends of a channel of whose value each receive gets a clone. Refused only with `NoMemory`. Keeps `oneshot_broadcast_channel`.
pub fn oneshot_broadcast_channel<T: Clone + Drop, R: Wait + Drop>(
    alloc: Global,
    rt: R,
) -> Result<(OneshotBroadcastSender<T, R>, OneshotBroadcastReceiver<T, R>), Fault>
    ensures same { IfOk result (λ ends. ends.0 ≡ ends.1) }
    ensures fault { IfErr result (λ fault. fault ≡ Fault.NoMemory) }
{
    two_ends(alloc, rt, OneValueState::new(alloc))
}

impl<T: Drop, G: GivesValue<T>, R: Wait + Drop> OneValueSender<T, G, R> {
    /// Sends the one value. As `OneValueChannel::send`. Keeps `OneshotSender::send`.
    pub fn send(&self, value: T) -> Result<(), ChannelSendError<T>>
        ensures sent { InSomeHold (λ old. Sends {W = Option Waker} old value result) }
        ensures handed_back { IfErr result (λ refused. refused.0 ≡ value) }
    {
        self.channel().call(value, CountedEnds::send)
    }
}

impl<T: Drop, G: GivesValue<T>, R: Wait + Drop> OneValueReceiver<T, G, R> {
    /// Receives at once: the value, or None if none will come. As `OneValueChannel::try_receive`.
    #[inline(always)]
    pub fn try_receive(&self) -> Result<Option<T>, Fault>
        ensures tried { InSomeHold (λ old. TriesReceive {W = Option Waker} G.giving old result) }
    {
        self.channel().call((), |ends, ()| ends.try_receive())
    }

    /// A future that receives the value, or None if none will come. As `OneValueChannel::receive`. Keeps
    /// `OneshotReceiver::receive`.
    pub fn receive(&self) -> Result<ChannelReceiveFuture<OneValueState<T, PollWaker, G>, R>, Fault>
        ensures made { IfOk result (λ future. IsNew self.now future) }
        ensures fault { IfErr result (λ fault. fault ≡ Fault.NoMemory) }
    {
        let shared = self.share()?;
        let claim = |ends: &mut CountedEnds<OneValueState<T, PollWaker, G>>, ()| -> Result<
            Slot,
            Fault,
        >
            ensures { IfErr result (λ fault. fault ≡ Fault.NoMemory) }
        { ends.claim_receive() };
        future_of(shared, (), claim)
    }

    /// Blocks this thread until the value comes, and receives it. As `OneValueChannel::receive_blocking`.
    pub fn receive_blocking(&self) -> Result<Option<T>, Fault>
    where
        R: Blocking,
        ensures waited { WaitedFor (TakesAtOnce G.giving) (PollsOneValue G.giving) result }
    {
        match self.try_receive() {
            Ok(received) => return Ok(received),
            Err(Fault::Empty) => {}
            Err(fault) => return Err(fault),
        }
        let receive = self.receive()?;
        wait_for(self.channel().runtime(), receive)?
    }
}

impl<T: Drop> EndNames for OneValueState<T, PollWaker, TakesValue> {
    fn sender() -> &'static str {
        "OneshotSender"
    }

    fn receiver() -> &'static str {
        "OneshotReceiver"
    }
}

impl<T: Clone + Drop> EndNames for OneValueState<T, PollWaker, ClonesValue> {
    fn sender() -> &'static str {
        "OneshotBroadcastSender"
    }

    fn receiver() -> &'static str {
        "OneshotBroadcastReceiver"
    }
}

impl<T: Drop, G: GivesValue<T>> ClosesByEnds for OneValueState<T, PollWaker, G> {
    ghost use Rattle.fi_channels.specs.Oneshot.{Closes};
    ghost use Rattle.fi_parts.specs.declared.errors.CloseStatus.{CloseStatus};
    ghost use Rattle.futures_intrusive.specs.KindLaws.{one_value_wakes};
    ghost use Rattle.futures_intrusive.specs.Kinds.{closing_one_value};

    type Cleared = ();

    ghost closing = { closing_one_value };

    ghost closes = { λ old new. (status : CloseStatus) × Closes old status new };

    ghost clears = { λ old cleared new. (status : CloseStatus) × Closes old status new };

    ghost wakes_stay_closed = { one_value_wakes };

    fn is_closed(&self) -> bool {
        OneValueState::is_closed(self)
    }

    fn own_wake_count(&self) -> usize {
        OneValueState::wake_count(self)
    }

    fn close_after_senders(&mut self) {
        self.close();
    }

    fn close_after_receivers(&mut self) {
        self.close();
    }
}

impl<T: Clone + Drop> ManyReceivers for OneValueState<T, PollWaker, ClonesValue> {}

impl<T: Drop, G: GivesValue<T>> ReceivesClosed for OneValueState<T, PollWaker, G> {
    ghost use Rattle.futures_intrusive.specs.KindLaws.{one_value_polls, one_value_cancels};

    ghost receives_stay_closed = { λ old new. one_value_polls old new G.giving };

    ghost cancels_stay_closed = { one_value_cancels };
}

/// The calls of `OneValueState`, which leave the counts as they are.
impl<T: Drop, G: GivesValue<T>> CountedEnds<OneValueState<T, PollWaker, G>> {
    /// Sends the one value. Refused, with the value, if the channel takes none any more; then nothing has changed.
    pub fn send(&mut self, value: T) -> Result<(), ChannelSendError<T>>
        ensures { ClosesBy (λ old new. Sends old value result new) self.old self.new }
    {
        let sent = self.state.send(value);
        self.closed.set();
        sent
    }

    /// Receives at once: the value, or None if none will come. Refused with `Empty` or `NoMemory`; then nothing has changed.
    pub fn try_receive(&mut self) -> Result<Option<T>, Fault>
        ensures { OnState (λ old new. TriesReceive G.giving old result new) self.old self.new }
    {
        self.state.try_receive()
    }

    /// Makes a receive. Refused only with `NoMemory`; then nothing has changed.
    pub fn claim_receive(&mut self) -> Result<Slot, Fault>
        ensures made { IfOk result (λ slot. OnState (λ old new. Makes old slot.0 new) self.old self.new) }
        ensures refused { OnErr result (self.new ≡ self.old) }
        ensures fault { IfErr result (λ fault. fault ≡ Fault.NoMemory) }
    {
        self.state.claim_receive()
    }
}
