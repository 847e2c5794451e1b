//! The channels. What is received is a seven.

use super::Waited;
use fi_channels::GivesValue;
use fi_parts::StateId;
use fi_parts::buffer::RingBuf;
use fi_sync::{Blocking, GenericChannel, OneValueChannel, StateBroadcastChannel};

impl<R: Blocking, G: GivesValue<u64>> Waited for &OneValueChannel<u64, G, R> {
    type Means = ();

    fn hold(&self) -> Option<()> {
        (!self.is_closed()).then_some(())
    }

    fn blocks(&self) -> bool {
        self.receive_blocking() == Ok(Some(7)) && self.is_closed()
    }

    fn bring(&self, _means: ()) {
        let _ = self.send(7);
    }
}

impl<R: Blocking> Waited for &StateBroadcastChannel<u64, R> {
    type Means = ();

    fn hold(&self) -> Option<()> {
        (!self.is_closed()).then_some(())
    }

    fn blocks(&self) -> bool {
        matches!(self.receive_blocking(StateId::new()), Ok(Some((_, 7))))
    }

    fn bring(&self, _means: ()) {
        let _ = self.send(7);
    }
}

/// A receive of a channel of many values.
#[derive(Clone, Copy)]
pub(crate) struct Receives<C>(pub(crate) C);

impl<R: Blocking, B: RingBuf<Item = u64>> Waited for Receives<&GenericChannel<u64, B, R>> {
    type Means = ();

    fn hold(&self) -> Option<()> {
        Some(())
    }

    fn blocks(&self) -> bool {
        self.0.receive_blocking() == Ok(Some(7))
    }

    fn bring(&self, _means: ()) {
        let _ = self.0.send_blocking(7);
    }
}

/// A send on a channel of many values, in which a one stands if it has room for it.
#[derive(Clone, Copy)]
pub(crate) struct Sends<C>(pub(crate) C);

impl<R: Blocking, B: RingBuf<Item = u64>> Waited for Sends<&GenericChannel<u64, B, R>> {
    type Means = ();

    fn hold(&self) -> Option<()> {
        let _ = self.0.try_send(1);
        self.0.is_full().then_some(())
    }

    fn blocks(&self) -> bool {
        self.0.send_blocking(7) == Ok(())
    }

    fn bring(&self, _means: ()) {
        let _ = self.0.receive_blocking();
    }
}
