//! Sends of a sender that block, refused until there is enough memory: each gives its value back, and leaves nothing in the channel.
use fi_channels::TrySendError;
use fi_sync::Blocking;
use futures_intrusive::channel::shared::{Sender, channel};
use std::alloc::AllocGlobal;
use std::test::Fail;
use tests_driver::refusals::blocking::{SendsBlocking, is_refused_at_first};
use tests_help::hoard::Hoard;

#[derive(Drop)]
struct Sending<R: Blocking + Drop> {
    sender: Sender<u64, R>,
}

impl<R: Blocking + Drop> SendsBlocking for Sending<R> {
    fn send_blocking(&self, value: u64) -> Result<(), TrySendError<u64>> {
        self.sender.send_blocking(value)
    }

    fn len(&self) -> usize {
        self.sender.len()
    }
}

#[test]
fn sends_that_block(rt: HostRuntime) -> Result<(), Fail> {
    let mut hoard = Hoard::new(rt.alloc())?;
    let (sender, _receiver) = channel::<u64, HostRuntime>(rt.alloc(), rt, 3)?;
    assert!(rt; is_refused_at_first(&mut hoard, Sending { sender }));
    Ok(())
}

// Of a channel that had a send before, so that there is a place for one.
#[test]
fn sends_that_block_and_have_a_place(rt: HostRuntime) -> Result<(), Fail> {
    let mut hoard = Hoard::new(rt.alloc())?;
    let (sender, _receiver) = channel::<u64, HostRuntime>(rt.alloc(), rt, 3)?;
    drop(sender.send(1));
    assert!(rt; is_refused_at_first(&mut hoard, Sending { sender }));
    Ok(())
}
