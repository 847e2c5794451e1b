//! Streams of the channels that threads share.
ghost use Rattle.std.specs.Prelude.{◌≡◌, ⊤, List, Option, Result, Some, Err, IfSome, OnSome, false, is_some, is_none};
ghost use Rattle.futures.specs.Poll.{OnPending, IfReady};
ghost use Rattle.futures.specs.Task.{Covers, Keeps};
ghost use Rattle.futures.specs.declared.task.waker.Waker.{Waker};
ghost use Rattle.fi_channels.specs.Channel.{CancelsReceive};
ghost use Rattle.fi_channels.specs.ChannelWords.{receive_phase, displaced_receive};
ghost use Rattle.fi_parts.specs.Polled.{LeavesWhere};
ghost use Rattle.fi_parts.specs.declared.errors.Fault.{Fault};
ghost use Rattle.fi_sync.specs.Streams.{PollsStream, IsStreamAnswer, leftover_of_next};
ghost use Rattle.fi_sync.specs.Waiting.{polled, WouldWait};

use crate::claim::Claim;
use crate::monitor::Monitor;
use crate::slot_future::{PollOutput, PollSlot, SlotFuture, SlotPolled};
use crate::wakes::PollWaker;
use fi_channels::{ChannelReceiveAccess, ChannelState, ChannelStreaming};
use fi_parts::buffer::RingBuf;
use fi_parts::{Fault, Leftover, NotPolled, Refused, Slot};
use futures::task::{Context, Poll};
use futures::{Future, Stream};
use std::fmt;
use std::marker::Model;
use std::sync::Wait;

/// The values of a channel, one after another, until it is closed and empty; then it answers its end, again and again.
///
/// An item is `Err(NoMemory)` where the poll had to wait and could make no waker; the stream goes on after it. Keeps `ChannelStream` of
/// futures-intrusive's `channel`.
#[derive(Drop)]
pub struct ChannelStream<'a, T: Drop, B: RingBuf<Item = T>, R: Wait> {
    future: SlotFuture<&'a Monitor<ChannelState<T, B, PollWaker>, R>, ChannelStreaming>,
}

impl<T: Drop, B: RingBuf<Item = T>, R: Wait> fmt::Debug for ChannelStream<'_, T, B, R> {
    fn fmt<F: fmt::Write>(&self, f: &mut fmt::Formatter<F>) -> fmt::Result {
        f.debug_struct("ChannelStream").finish()
    }
}

impl<'a, T: Drop, B: RingBuf<Item = T>, R: Wait> Model for ChannelStream<'a, T, B, R> {
    ghost use Rattle.fi_sync.specs.Waiting.{SharedFuture};

    ghost Value = { SharedFuture };

    ghost view = { λ stream. stream.future };
}

impl<'a, T: Drop, B: RingBuf<Item = T>, R: Wait> ChannelStream<'a, T, B, R> {
    pub(crate) fn new(
        monitor: &'a Monitor<ChannelState<T, B, PollWaker>, R>,
        claim: Claim<ChannelStreaming>,
    ) -> Self
        ensures { result ≡ record { source = monitor.now; name = Some claim; has_ended = false } }
    {
        ChannelStream {
            future: SlotFuture::new(monitor, claim),
        }
    }

    /// Polls for the next value: `Stream::poll_next`, with a contract that says what it answers.
    pub fn poll_item(&mut self, cx: &mut Context<'_>) -> Poll<Option<Result<T, Fault>>>
        ensures registered { OnPending result (Covers cx.new (λ source. source ≡ self.new.source)) }
        ensures kept { Keeps cx.old cx.new }
        ensures stands { self.new ≡ polled is_none self.old result }
        ensures answered { IsStreamAnswer (PollsStream {T = T} {W = Option Waker}) self.old.name self.old.has_ended
            cx.new.lacks_waker result }
    {
        if self.future.is_terminated() {
            return Poll::Ready(None);
        }
        self.future.poll(cx)
    }

    /// Returns `true` if the stream has answered its end. It takes no lock. Keeps `FusedStream::is_terminated`.
    pub fn is_terminated(&self) -> bool
        ensures { result ≡ self.now.has_ended }
    {
        self.future.is_terminated()
    }
}

impl<T: Drop, B: RingBuf<Item = T>, R: Wait> Stream for ChannelStream<'_, T, B, R> {
    type Item = Result<T, Fault>;

    ghost needs = { λ stream source. source ≡ stream.source };

    fn poll_next(&mut self, cx: &mut Context<'_>) -> Poll<Option<Result<T, Fault>>>
        ensures value { IfReady result (λ _. ⊤) }
        ensures rest { IfReady result (λ item. IfSome item (λ _. (xs : List (Result T Fault)) (last : Option (Result T Fault)) → ⊤ → ⊤)) }
        ensures goes { IfReady result (λ item. OnSome item ⊤) }
        ensures again { OnPending result ⊤ }
        ensures same { OnPending result ((xs : List (Result T Fault)) (last : Option (Result T Fault)) → ⊤ → ⊤) }
        ensures registered { OnPending result (Covers cx.new (λ source. source ≡ self.new.source)) }
        ensures kept { Keeps cx.old cx.new }
        ensures stands { self.new ≡ polled is_none self.old result }
        ensures answered { IsStreamAnswer (PollsStream {T = T} {W = Option Waker}) self.old.name self.old.has_ended
            cx.new.lacks_waker result }
    {
        self.poll_item(cx)
    }
}

impl<T> PollOutput for Option<Result<T, Fault>> {
    ghost is_last = { is_none };

    ghost refusal = { λ fault. Some (Err fault) };

    fn ends(&self) -> bool {
        self.is_none()
    }

    fn refused(refused: Refused) -> Self {
        Some(Err(Fault::from(refused)))
    }
}

impl<T: Drop, B: RingBuf<Item = T>> PollSlot<ChannelStreaming> for ChannelState<T, B, PollWaker> {
    type Output = Option<Result<T, Fault>>;

    type Left = Option<PollWaker>;

    ghost polls = { PollsStream };

    ghost would_wait = { WouldWait PollsStream };

    ghost leaves = { λ old name waker answer. leftover_of_next answer (displaced_receive old name) waker };

    ghost cancels = { λ old name left new. LeavesWhere (is_some (receive_phase old name)) (CancelsReceive old name new)
        (displaced_receive old name) old left new };

    ghost takes_out = { false };

    fn poll_slot(&mut self, slot: Slot, waker: PollWaker) -> SlotPolled<Self::Output> {
        let may_wait = waker.is_some();
        match self.poll_next(slot, waker, may_wait) {
            Ok((answer, leftover)) => match answer {
                Poll::Ready(Some(item)) => Some((Poll::Ready(Some(Ok(item))), leftover)),
                Poll::Ready(None) => Some((Poll::Ready(None), leftover)),
                Poll::Pending => Some((Poll::Pending, leftover)),
            },
            Err(NotPolled::NoFuture(waker)) => {
                let answer = Poll::Ready(Some(Err(Fault::NoSlot)));
                Some((answer, Leftover::of(None, Some(waker))))
            }
            Err(NotPolled::WouldWait(_none)) => None,
        }
    }

    fn cancel(&mut self, slot: Slot) -> Option<PollWaker> {
        self.leave_receive(slot)
    }
}
