//! The streams of a channel's values.
use crate::access::ChannelReceiveAccess;
use crate::channel::ChannelState;
use fi_parts::buffer::RingBuf;
use fi_parts::{FutureKind, FuturesOf, LocalFuture, NotPolled, Slot};
use futures::task::Poll;

/// The kind of a channel's streams: ready with the next value, or with None once the channel is closed and empty, and ever after.
pub struct ChannelStreaming;

/// Receives the values of a local channel, one after another. `leave` or `cancel` spends it, and is lent the channel; it cannot
/// be dropped. Its `poll` keeps `Stream::poll_next`.
///
/// Keeps `ChannelStream` of futures-intrusive's `channel`.
pub type LocalChannelStream = LocalFuture<ChannelStreaming>;

impl FutureKind for ChannelStreaming {
    fn name() -> &'static str {
        "ChannelStream"
    }
}

impl<T: Drop, B: RingBuf<Item = T>, W: Drop> FuturesOf<ChannelState<T, B, W>> for ChannelStreaming {
    ghost use Rattle.std.specs.Prelude.{◌≡◌, true, is_some};
    ghost use Rattle.fi_channels.specs.Channel.{PollsNext, CancelsReceive};
    ghost use Rattle.fi_channels.specs.ChannelWords.{can_stream, kind_of, receive_phase, is_end};
    ghost use Rattle.fi_channels.specs.ChannelStays.{OtherReceivesStay};

    type Waker = W;

    type Moment = ();

    type Output = Option<T>;

    type Left = ();

    ghost is_pollable = { λ channel name. can_stream (kind_of channel name) (receive_phase channel name) };

    ghost is_live = { λ channel name. is_some (receive_phase channel name) };

    ghost polls = { λ old name at. PollsNext old name };

    // It can be polled again, whatever the answer is.
    ghost shows = { λ name answer channel. can_stream (kind_of channel name) (receive_phase channel name) ≡ true };

    ghost is_end = { is_end };

    ghost cancels = { λ old name left new. CancelsReceive old name new };

    ghost nothing = { tt };

    ghost others_stay = { OtherReceivesStay };

    fn poll(
        channel: &mut ChannelState<T, B, W>,
        slot: Slot,
        _at: (),
        waker: W,
    ) -> Option<Poll<Option<T>>> {
        match channel.poll_next(slot, waker, true) {
            Ok((answer, _leftover)) => Some(answer),
            Err(NotPolled::NoFuture(_)) => None,
            // It may wait.
            Err(NotPolled::WouldWait(_)) => unreachable!(),
        }
    }

    fn ends(answer: &Poll<Option<T>>) -> bool {
        matches!(answer, Poll::Ready(None))
    }

    fn leave(channel: &mut ChannelState<T, B, W>, slot: Slot) {
        channel.leave_receive(slot);
    }
}
