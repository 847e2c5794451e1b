//! The ends of the channels of one value.
ghost use Rattle.std.specs.Prelude.{◌≡◌};

use crate::closed::Closed;
use crate::{AwaitsClose, ClonedEnd, Made, ReceivesOne, SendsAtOnce};
use fi_channels::{ClonesValue, GivesValue, OneValueState, TakesValue};
use fi_parts::{ChannelSendError, Fault};
use fi_sync::PollWaker;
use futures::Future;
use futures::task::{Context, Poll};
use futures_intrusive::channel::shared::{
    self, ChannelReceiveFuture, OneValueReceiver, OneValueSender,
};
use std::alloc::Global;
use std::sync::Wait;
use tests_driver::pollable::Pollable;

/// A sender.
#[derive(Drop)]
pub struct Sender<T: Drop, G: GivesValue<T>, R: Wait + Drop> {
    pub end: OneValueSender<T, G, R>,
}

/// A receiver.
#[derive(Drop)]
pub struct Receiver<T: Drop, G: GivesValue<T>, R: Wait + Drop> {
    pub end: OneValueReceiver<T, G, R>,
}

/// A receive.
#[derive(Drop)]
pub struct Receiving<T: Drop, G: GivesValue<T>, R: Wait + Drop> {
    future: ChannelReceiveFuture<OneValueState<T, PollWaker, G>, R>,
}

/// As `shared::oneshot_channel`.
pub fn oneshot_channel<T: Drop, R: Wait + Drop>(
    alloc: Global,
    rt: R,
) -> Made<Sender<T, TakesValue, R>, Receiver<T, TakesValue, R>> {
    let (sender, receiver) = shared::oneshot_channel(alloc, rt)?;
    Ok((Sender { end: sender }, Receiver { end: receiver }))
}

/// As `shared::oneshot_broadcast_channel`.
pub fn oneshot_broadcast_channel<T: Clone + Drop, R: Wait + Drop>(
    alloc: Global,
    rt: R,
) -> Made<Sender<T, ClonesValue, R>, Receiver<T, ClonesValue, R>> {
    let (sender, receiver) = shared::oneshot_broadcast_channel(alloc, rt)?;
    Ok((Sender { end: sender }, Receiver { end: receiver }))
}

impl<T: Clone + Drop, R: Wait + Drop> ClonedEnd for Receiver<T, ClonesValue, R> {
    fn try_clone(&self) -> Result<Self, Fault> {
        Ok(Receiver {
            end: self.end.clone()?,
        })
    }
}

impl<T: Drop, G: GivesValue<T>, R: Wait + Drop> AwaitsClose for Sender<T, G, R> {
    type Closed = Closed<OneValueState<T, PollWaker, G>, R>;

    fn closed(&self) -> Result<Closed<OneValueState<T, PollWaker, G>, R>, Fault> {
        Ok(Closed {
            future: self.end.closed()?,
        })
    }
}

impl<T: Drop, G: GivesValue<T>, R: Wait + Drop> SendsAtOnce<T> for Sender<T, G, R> {
    fn send(&self, value: T) -> Result<(), ChannelSendError<T>> {
        self.end.send(value)
    }
}

impl<T: Drop, G: GivesValue<T>, R: Wait + Drop> ReceivesOne<T> for Receiver<T, G, R> {
    type Receive = Receiving<T, G, R>;

    fn receive(&self) -> Result<Receiving<T, G, R>, Fault> {
        Ok(Receiving {
            future: self.end.receive()?,
        })
    }

    fn try_receive(&self) -> Result<Option<T>, Fault> {
        self.end.try_receive()
    }
}

impl<T: Drop, G: GivesValue<T>, R: Wait + Drop> Future for Receiving<T, G, R> {
    type Output = Result<Option<T>, Fault>;

    ghost needs = { λ receive source. source ≡ receive.future.source };

    fn poll(&mut self, cx: &mut Context<'_>) -> Poll<Result<Option<T>, Fault>> {
        self.future.poll(cx)
    }
}

impl<T: Drop, G: GivesValue<T>, R: Wait + Drop> Pollable for Receiving<T, G, R> {
    ghost is_pollable = { λ _. tt };
}
