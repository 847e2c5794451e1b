//! The stream of a channel that owns its receiver.
ghost use Rattle.std.specs.Prelude.{◌≡◌, Option, IfOk, IfErr, is_none};
ghost use Rattle.futures.specs.Poll.{OnPending};
ghost use Rattle.futures.specs.Task.{Covers, Keeps};
ghost use Rattle.fi_parts.specs.declared.errors.Fault.{Fault};
ghost use Rattle.futures.specs.declared.task.waker.Waker.{Waker};
ghost use Rattle.fi_sync.specs.Streams.{IsStreamAnswer};
ghost use Rattle.fi_sync.specs.Waiting.{IsNew, polled};
ghost use Rattle.futures_intrusive.specs.SharedStreams.{PollsSharedStream};

use crate::channel_ends::{GenericReceiver, SharedChannelState};
use crate::counted_ends::CountedEnds;
use crate::ends::{SharedFutureOf, future_of};
use fi_parts::buffer::RingBuf;
use fi_parts::{CloseStatus, Fault, NoRoom, Refused, Slot};
use fi_sync::ChannelStreaming;
use futures::task::{Context, Poll};
use futures::{Future, Stream};
use std::fmt;
use std::marker::Model;
use std::sync::Wait;

/// The values of a channel, one after another, until it is closed and empty; then it answers its end, again and again.
///
/// It is made of a receiver, which it keeps. Its drop drops its receive first, and then the receiver. An item is `Err(NoMemory)` if
/// the poll had to wait and could make no waker; the stream goes on after it. Keeps `SharedStream` of
/// futures-intrusive's `channel::shared`.
#[derive(Drop)]
pub struct SharedStream<T: Drop, B: RingBuf<Item = T>, R: Wait + Drop> {
    // In this order they are dropped: a receive that was told of a value passes that on while the receiver is still counted.
    future: SharedFutureOf<SharedChannelState<T, B>, R, ChannelStreaming>,
    receiver: GenericReceiver<T, B, R>,
}

impl<T: Drop, B: RingBuf<Item = T>, R: Wait + Drop> fmt::Debug for SharedStream<T, B, R> {
    fn fmt<F: fmt::Write>(&self, f: &mut fmt::Formatter<F>) -> fmt::Result {
        f.debug_struct("SharedStream").finish()
    }
}

impl<T: Drop, B: RingBuf<Item = T>, R: Wait + Drop> Model for SharedStream<T, B, R> {
    ghost use Rattle.fi_sync.specs.Waiting.{SharedFuture};

    ghost Value = { SharedFuture };

    ghost view = { λ stream. stream.future };
}

impl<T: Drop, B: RingBuf<Item = T>, R: Wait + Drop> GenericReceiver<T, B, R> {
    /// A stream of the values, which keeps the receiver. Refused only for want of memory; then the receiver comes back, and nothing
    /// has changed. Keeps `GenericReceiver::into_stream`.
    pub fn into_stream(self) -> Result<SharedStream<T, B, R>, NoRoom<Self>>
        ensures made { IfOk result (λ stream. IsNew self stream) }
        ensures handed_back { IfErr result (λ failed. failed.0 ≡ self) }
    {
        let shared = match self.share() {
            Ok(shared) => shared,
            Err(refused) => return Err(NoRoom::of(self, refused)),
        };
        let claim = |ends: &mut CountedEnds<SharedChannelState<T, B>>, ()| -> Result<Slot, Fault>
            ensures { IfErr result (λ fault. fault ≡ Fault.NoMemory) }
        { ends.claim_stream() };
        match future_of(shared, (), claim) {
            Ok(future) => Ok(SharedStream {
                future,
                receiver: self,
            }),
            Err(fault) => match Refused::of(fault) {
                Some(refused) => Err(NoRoom::of(self, refused)),
                // A making is refused for want of memory alone.
                None => unreachable!(),
            },
        }
    }
}

impl<T: Drop, B: RingBuf<Item = T>, R: Wait + Drop> SharedStream<T, B, R> {
    /// Polls for the next value: `Stream::poll_next`, with a contract that says what it answers.
    pub fn poll_item(&mut self, cx: &mut Context<'_>) -> Poll<Option<Result<T, Fault>>>
        ensures registered { OnPending result (Covers cx.new (λ source. source ≡ self.new.source)) }
        ensures kept { Keeps cx.old cx.new }
        ensures stands { self.new ≡ polled is_none self.old result }
        ensures answered { IsStreamAnswer (PollsSharedStream {T = T} {W = Option Waker}) self.old.name self.old.has_ended
            cx.new.lacks_waker result }
    {
        if self.future.is_terminated() {
            return Poll::Ready(None);
        }
        self.future.poll(cx)
    }

    /// Closes the channel. As `GenericReceiver::close`. Keeps `SharedStream::close`.
    pub fn close(&self) -> CloseStatus {
        self.receiver.close()
    }

    /// Returns `true` if the stream has answered its end. It takes no lock. Keeps `FusedStream::is_terminated`.
    pub fn is_terminated(&self) -> bool
        ensures { result ≡ self.now.has_ended }
    {
        self.future.is_terminated()
    }
}

impl<T: Drop, B: RingBuf<Item = T>, R: Wait + Drop> Stream for SharedStream<T, B, R> {
    type Item = Result<T, Fault>;

    ghost needs = { λ stream source. source ≡ stream.source };

    fn poll_next(&mut self, cx: &mut Context<'_>) -> Poll<Option<Result<T, Fault>>> {
        self.poll_item(cx)
    }
}
