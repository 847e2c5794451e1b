//! The ends of the state broadcast.
ghost use Rattle.std.specs.Prelude.{◌≡◌};

use crate::{ClonedEnd, Made, ReadsStates, ReceivesStates, SendsAtOnce, StreamsStates};
use fi_parts::{ChannelSendError, Fault, StateId};
use fi_sync::Blocking;
use futures::task::{Context, Poll};
use futures::{Future, Stream};
use futures_intrusive::channel::shared::{
    self, StateReader, StateReceiveFuture, StateReceiver, StateSender, StateStream,
};
use std::alloc::Global;
use std::sync::Wait;
use tests_driver::pollable::Pollable;

/// A sender.
#[derive(Drop)]
pub struct Sender<T: Clone + Drop, R: Wait + Drop> {
    pub end: StateSender<T, R>,
}

/// A receiver.
#[derive(Drop)]
pub struct Receiver<T: Clone + Drop, R: Wait + Drop> {
    pub end: StateReceiver<T, R>,
}

/// A reader.
#[derive(Drop)]
pub struct Reader<T: Clone + Drop, R: Wait + Drop> {
    reader: StateReader<T, R>,
}

/// A receive.
#[derive(Drop)]
pub struct Receiving<T: Clone + Drop, R: Wait + Drop> {
    future: StateReceiveFuture<T, R>,
}

/// A stream.
#[derive(Drop)]
pub struct States<T: Clone + Drop, R: Wait + Drop> {
    stream: StateStream<T, R>,
}

/// As `shared::state_broadcast_channel`.
pub fn state_broadcast_channel<T: Clone + Drop, R: Wait + Drop>(
    alloc: Global,
    rt: R,
) -> Made<Sender<T, R>, Receiver<T, R>> {
    let (sender, receiver) = shared::state_broadcast_channel(alloc, rt)?;
    Ok((Sender { end: sender }, Receiver { end: receiver }))
}

impl<T: Clone + Drop, R: Wait + Drop> Receiver<T, R> {
    /// Whether the channel is closed.
    pub fn is_closed(&self) -> bool {
        self.end.is_closed()
    }

    pub fn into_reader(self) -> Reader<T, R> {
        Reader {
            reader: self.end.into_reader(),
        }
    }
}

impl<T: Clone + Drop, R: Wait + Drop> Reader<T, R> {
    pub fn into_stream(self) -> States<T, R> {
        States {
            stream: self.reader.into_stream(),
        }
    }
}

impl<T: Clone + Drop, R: Wait + Drop> ClonedEnd for Sender<T, R> {
    fn try_clone(&self) -> Result<Self, Fault> {
        Ok(Sender {
            end: self.end.clone()?,
        })
    }
}

impl<T: Clone + Drop, R: Wait + Drop> ClonedEnd for Receiver<T, R> {
    fn try_clone(&self) -> Result<Self, Fault> {
        Ok(Receiver {
            end: self.end.clone()?,
        })
    }
}

impl<T: Clone + Drop, R: Wait + Drop> SendsAtOnce<T> for Sender<T, R> {
    fn send(&self, value: T) -> Result<(), ChannelSendError<T>> {
        self.end.send(value)
    }
}

impl<T: Clone + Drop, R: Wait + Drop> ReceivesStates<T> for Receiver<T, R> {
    type Receive = Receiving<T, R>;

    fn receive(&self, seen: u64) -> Result<Receiving<T, R>, Fault> {
        Ok(Receiving {
            future: self.end.receive(StateId::from_value(seen))?,
        })
    }

    fn try_receive(&self, seen: u64) -> Result<Option<(StateId, T)>, Fault> {
        self.end.try_receive(StateId::from_value(seen))
    }
}

impl<T: Clone + Drop, R: Blocking + Drop> ReadsStates<T> for Reader<T, R> {
    fn seen(&self) -> u64 {
        self.reader.seen().value()
    }

    fn try_next(&mut self) -> Result<Option<T>, Fault> {
        self.reader.try_next()
    }

    fn next_blocking(&mut self) -> Result<Option<T>, Fault> {
        self.reader.next_blocking()
    }
}

impl<T: Clone + Drop, R: Wait + Drop> Future for Receiving<T, R> {
    type Output = Result<Option<(StateId, T)>, Fault>;

    ghost needs = { λ receive source. source ≡ receive.future.source };

    fn poll(&mut self, cx: &mut Context<'_>) -> Poll<Result<Option<(StateId, T)>, Fault>> {
        self.future.poll(cx)
    }
}

impl<T: Clone + Drop, R: Wait + Drop> Pollable for Receiving<T, R> {
    ghost is_pollable = { λ _. tt };
}

impl<T: Clone + Drop, R: Wait + Drop> Stream for States<T, R> {
    type Item = Result<T, Fault>;

    ghost needs = { λ states source. source ≡ states.stream.reader.source };

    fn poll_next(&mut self, cx: &mut Context<'_>) -> Poll<Option<Result<T, Fault>>> {
        self.stream.poll_next(cx)
    }
}

impl<T: Clone + Drop, R: Wait + Drop> StreamsStates<T> for States<T, R> {
    fn is_terminated(&self) -> bool {
        self.stream.is_terminated()
    }

    fn seen(&self) -> u64 {
        self.stream.reader().seen().value()
    }

    ghost is_pollable = { λ _. tt };
}
