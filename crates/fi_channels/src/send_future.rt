//! The sends of a channel.
use crate::access::ChannelSendAccess;
use crate::channel::errors::SendFault;
use fi_parts::{FutureKind, FuturesOf, LocalFuture, NotPolled, Slot};
use futures::task::Poll;

/// The kind of a channel's sends: ready once the value is stored or was taken, and ready with the value where the channel is closed.
///
/// `Ready(Err(SendFault::Fault(NoMemory)))` says that the buffer could not grow; then nothing has changed, and the send may be polled
/// again. A cancel gives back the value if that was neither accepted into the buffer, taken nor handed back.
pub struct ChannelSend;

/// Sends a value on a local channel. `leave` or `cancel` spends it, and is lent the channel; it cannot be dropped.
///
/// Keeps `ChannelSendFuture` of futures-intrusive's `channel`.
pub type LocalSendFuture = LocalFuture<ChannelSend>;

impl FutureKind for ChannelSend {
    fn name() -> &'static str {
        "ChannelSendFuture"
    }
}

impl<C: ChannelSendAccess> FuturesOf<C> for ChannelSend
where
    C::Waker: Drop,
{
    ghost use Rattle.std.specs.Prelude.{None};
    ghost use Rattle.fi_channels.specs.ChannelWords.{has_sent};

    type Waker = C::Waker;

    type Moment = ();

    type Output = Result<(), SendFault<C::Item>>;

    type Left = Option<C::Item>;

    ghost is_pollable = { C.is_sendable };

    ghost is_live = { C.is_sending };

    ghost polls = { λ old name at. C.sends old name };

    ghost is_end = { has_sent };

    ghost cancels = { C.withdraws };

    ghost nothing = { None };

    ghost others_stay = { C.others_stay };

    fn poll(
        channel: &mut C,
        slot: Slot,
        _at: (),
        waker: C::Waker,
    ) -> Option<Poll<Result<(), SendFault<C::Item>>>> {
        match channel.poll_send(slot, waker, true) {
            Ok((answer, _leftover)) => Some(answer),
            Err(NotPolled::NoFuture(_)) => None,
            // It may wait.
            Err(NotPolled::WouldWait(_)) => unreachable!(),
        }
    }

    fn ends(answer: &Poll<Result<(), SendFault<C::Item>>>) -> bool {
        match answer {
            Poll::Ready(Ok(())) | Poll::Ready(Err(SendFault::Closed(_))) => true,
            Poll::Ready(Err(SendFault::Fault(_))) | Poll::Pending => false,
        }
    }

    fn leave(channel: &mut C, slot: Slot) -> Option<C::Item> {
        let (value, _waker) = channel.leave_send(slot);
        value
    }
}
