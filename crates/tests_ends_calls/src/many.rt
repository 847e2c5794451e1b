//! The ends of the channel of many values.
ghost use Rattle.std.specs.Prelude.{◌≡◌};

use crate::closed::Closed;
use crate::{
    AwaitsClose, ClonedEnd, CountsEnds, Made, ReceivingEnd, SendingEnd, StreamingEnd,
    TriesToReceive, TriesToSend,
};
use fi_channels::{SendFault, TryReceiveError, TrySendError};
use fi_parts::buffer::{GrowingHeapBuf, RingBuf};
use fi_parts::{CloseStatus, Fault, NoRoom};
use futures::task::{Context, Poll};
use futures::{Future, Stream};
use futures_intrusive::channel::shared::{
    self, ChannelReceiveFuture, ChannelSendFuture, GenericReceiver, GenericSender,
    SharedChannelState, SharedStream,
};
use std::alloc::Global;
use std::sync::Wait;
use tests_driver::pollable::Pollable;

/// A sender.
#[derive(Drop)]
pub struct Sender<T: Drop, B: RingBuf<Item = T>, R: Wait + Drop> {
    pub end: GenericSender<T, B, R>,
}

/// A receiver.
#[derive(Drop)]
pub struct Receiver<T: Drop, B: RingBuf<Item = T>, R: Wait + Drop> {
    pub end: GenericReceiver<T, B, R>,
}

/// A send.
#[derive(Drop)]
pub struct Sending<T: Drop, B: RingBuf<Item = T>, R: Wait + Drop> {
    future: ChannelSendFuture<SharedChannelState<T, B>, R>,
}

/// A receive.
#[derive(Drop)]
pub struct Receiving<T: Drop, B: RingBuf<Item = T>, R: Wait + Drop> {
    future: ChannelReceiveFuture<SharedChannelState<T, B>, R>,
}

/// A stream.
#[derive(Drop)]
pub struct Items<T: Drop, B: RingBuf<Item = T>, R: Wait + Drop> {
    stream: SharedStream<T, B, R>,
}

type Ends<T, B, R> = Made<Sender<T, B, R>, Receiver<T, B, R>>;

/// As `shared::generic_channel`.
pub fn generic_channel<T: Drop, B: RingBuf<Item = T>, R: Wait + Drop>(
    alloc: Global,
    rt: R,
    capacity: usize,
) -> Ends<T, B, R> {
    let (sender, receiver) = shared::generic_channel(alloc, rt, capacity)?;
    Ok((Sender { end: sender }, Receiver { end: receiver }))
}

/// As `shared::channel`.
pub fn channel<T: Drop, R: Wait + Drop>(
    alloc: Global,
    rt: R,
    capacity: usize,
) -> Ends<T, GrowingHeapBuf<T>, R> {
    let (sender, receiver) = shared::channel(alloc, rt, capacity)?;
    Ok((Sender { end: sender }, Receiver { end: receiver }))
}

/// As `shared::unbuffered_channel`.
pub fn unbuffered_channel<T: Drop, R: Wait + Drop>(
    alloc: Global,
    rt: R,
) -> Ends<T, GrowingHeapBuf<T>, R> {
    let (sender, receiver) = shared::unbuffered_channel(alloc, rt)?;
    Ok((Sender { end: sender }, Receiver { end: receiver }))
}

impl<T: Drop, B: RingBuf<Item = T>, R: Wait + Drop> ClonedEnd for Sender<T, B, R> {
    fn try_clone(&self) -> Result<Self, Fault> {
        Ok(Sender {
            end: self.end.clone()?,
        })
    }
}

impl<T: Drop, B: RingBuf<Item = T>, R: Wait + Drop> ClonedEnd for Receiver<T, B, R> {
    fn try_clone(&self) -> Result<Self, Fault> {
        Ok(Receiver {
            end: self.end.clone()?,
        })
    }
}

impl<T: Drop, B: RingBuf<Item = T>, R: Wait + Drop> CountsEnds for Sender<T, B, R> {
    fn counts(&self) -> (usize, usize) {
        (self.end.sender_count(), self.end.receiver_count())
    }
}

impl<T: Drop, B: RingBuf<Item = T>, R: Wait + Drop> CountsEnds for Receiver<T, B, R> {
    fn counts(&self) -> (usize, usize) {
        (self.end.sender_count(), self.end.receiver_count())
    }
}

impl<T: Drop, B: RingBuf<Item = T>, R: Wait + Drop> AwaitsClose for Sender<T, B, R> {
    type Closed = Closed<SharedChannelState<T, B>, R>;

    fn closed(&self) -> Result<Closed<SharedChannelState<T, B>, R>, Fault> {
        Ok(Closed {
            future: self.end.closed()?,
        })
    }
}

impl<T: Drop, B: RingBuf<Item = T>, R: Wait + Drop> TriesToSend<T> for Sender<T, B, R> {
    fn try_send(&self, value: T) -> Result<(), TrySendError<T>> {
        self.end.try_send(value)
    }

    fn close(&self) -> CloseStatus {
        self.end.close()
    }
}

impl<T: Drop, B: RingBuf<Item = T>, R: Wait + Drop> SendingEnd<T> for Sender<T, B, R> {
    type Send = Sending<T, B, R>;

    fn send(&self, value: T) -> Result<Sending<T, B, R>, NoRoom<T>> {
        Ok(Sending {
            future: self.end.send(value)?,
        })
    }
}

impl<T: Drop, B: RingBuf<Item = T>, R: Wait + Drop> TriesToReceive<T> for Receiver<T, B, R> {
    fn try_receive(&self) -> Result<T, TryReceiveError> {
        self.end.try_receive()
    }

    fn close(&self) -> CloseStatus {
        self.end.close()
    }
}

impl<T: Drop, B: RingBuf<Item = T>, R: Wait + Drop> ReceivingEnd<T> for Receiver<T, B, R> {
    type Receive = Receiving<T, B, R>;

    type Items = Items<T, B, R>;

    fn receive(&self) -> Result<Receiving<T, B, R>, Fault> {
        Ok(Receiving {
            future: self.end.receive()?,
        })
    }

    fn stream(&self) -> Result<Items<T, B, R>, Fault> {
        let receiver = self.end.clone()?;
        Ok(Items {
            stream: receiver.into_stream()?,
        })
    }
}

impl<T: Drop, B: RingBuf<Item = T>, R: Wait + Drop> Future for Sending<T, B, R> {
    type Output = Result<(), SendFault<T>>;

    ghost needs = { λ send source. source ≡ send.future.source };

    fn poll(&mut self, cx: &mut Context<'_>) -> Poll<Result<(), SendFault<T>>> {
        self.future.poll(cx)
    }
}

impl<T: Drop, B: RingBuf<Item = T>, R: Wait + Drop> Pollable for Sending<T, B, R> {
    ghost is_pollable = { λ _. tt };
}

impl<T: Drop, B: RingBuf<Item = T>, R: Wait + Drop> Future for Receiving<T, B, R> {
    type Output = Result<Option<T>, Fault>;

    ghost needs = { λ receive source. source ≡ receive.future.source };

    fn poll(&mut self, cx: &mut Context<'_>) -> Poll<Result<Option<T>, Fault>> {
        self.future.poll(cx)
    }
}

impl<T: Drop, B: RingBuf<Item = T>, R: Wait + Drop> Pollable for Receiving<T, B, R> {
    ghost is_pollable = { λ _. tt };
}

impl<T: Drop, B: RingBuf<Item = T>, R: Wait + Drop> Stream for Items<T, B, R> {
    type Item = Result<T, Fault>;

    ghost needs = { λ items source. source ≡ items.stream.source };

    fn poll_next(&mut self, cx: &mut Context<'_>) -> Poll<Option<Result<T, Fault>>> {
        self.stream.poll_next(cx)
    }
}

impl<T: Drop, B: RingBuf<Item = T>, R: Wait + Drop> StreamingEnd for Items<T, B, R> {
    fn close(&self) -> CloseStatus {
        self.stream.close()
    }

    ghost is_pollable = { λ _. tt };
}
