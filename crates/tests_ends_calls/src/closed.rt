//! A wait until a channel is closed.
ghost use Rattle.std.specs.Prelude.{◌≡◌};

use fi_parts::Fault;
use futures::Future;
use futures::task::{Context, Poll};
use futures_intrusive::channel::shared::{ChannelClosedFuture, ClosesByEnds};
use std::sync::Wait;
use tests_driver::pollable::Pollable;

/// A wait of an end of a channel with this state.
#[derive(Drop)]
pub struct Closed<S: ClosesByEnds + Drop, R: Wait + Drop> {
    pub future: ChannelClosedFuture<S, R>,
}

impl<S: ClosesByEnds + Drop, R: Wait + Drop> Future for Closed<S, R> {
    type Output = Result<(), Fault>;

    ghost needs = { λ closed source. source ≡ closed.future.source };

    fn poll(&mut self, cx: &mut Context<'_>) -> Poll<Result<(), Fault>> {
        self.future.poll(cx)
    }
}

impl<S: ClosesByEnds + Drop, R: Wait + Drop> Pollable for Closed<S, R> {
    ghost is_pollable = { λ _. tt };
}
