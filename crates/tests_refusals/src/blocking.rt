//! Calls that block, with little memory or none. A send that is refused gives its value back, and leaves nothing in the channel.
use fi_channels::{GivesValue, TrySendError};
use fi_parts::Fault;
use fi_parts::buffer::GrowingHeapBuf;
use fi_sync::{Blocking, GenericChannel, OneValueChannel, OneshotBroadcastChannel, OneshotChannel};
use std::alloc::AllocGlobal;
use std::test::Fail;
use tests_driver::refusals::blocking::{SendsBlocking, is_refused_at_first};
use tests_help::hoard::Hoard;

type Growing<R> = GenericChannel<u64, GrowingHeapBuf<u64>, R>;

#[derive(Drop)]
struct Borrowed<R: Blocking> {
    channel: Growing<R>,
}

impl<R: Blocking> SendsBlocking for Borrowed<R> {
    fn send_blocking(&self, value: u64) -> Result<(), TrySendError<u64>> {
        self.channel.send_blocking(value)
    }

    fn len(&self) -> usize {
        self.channel.len()
    }
}

#[test]
fn sends_that_block(rt: HostRuntime) -> Result<(), Fail> {
    let mut hoard = Hoard::new(rt.alloc())?;
    let channel: Growing<HostRuntime> = GenericChannel::with_capacity(rt.alloc(), rt, 3)?;
    assert!(rt; is_refused_at_first(&mut hoard, Borrowed { channel }));
    Ok(())
}

// Of a channel that had a send before, so that there is a place for one.
#[test]
fn sends_that_block_and_have_a_place(rt: HostRuntime) -> Result<(), Fail> {
    let mut hoard = Hoard::new(rt.alloc())?;
    let channel: Growing<HostRuntime> = GenericChannel::with_capacity(rt.alloc(), rt, 3)?;
    drop(channel.send(1));
    assert!(rt; is_refused_at_first(&mut hoard, Borrowed { channel }));
    Ok(())
}

// With no memory left: a receive that would have to wait is refused, and one that need not is answered.
fn is_answered_without_memory<G, R>(hoard: &mut Hoard, channel: &OneValueChannel<u64, G, R>) -> bool
where
    G: GivesValue<u64>,
    R: Blocking,
{
    if !hoard.leave(0) {
        return !hoard.has_end();
    }
    let is_refused = matches!(channel.receive_blocking(), Err(Fault::NoMemory { .. }));
    let is_sent = channel.send(5).is_ok();
    let is_given = channel.receive_blocking() == Ok(Some(5));
    hoard.let_go();
    is_refused && is_sent && is_given
}

#[test]
fn receives_of_one_value_that_block(rt: HostRuntime) -> Result<(), Fail> {
    let mut hoard = Hoard::new(rt.alloc())?;
    let oneshot = OneshotChannel::new(rt.alloc(), rt);
    assert!(rt; is_answered_without_memory(&mut hoard, &oneshot));
    let broadcast = OneshotBroadcastChannel::new(rt.alloc(), rt);
    assert!(rt; is_answered_without_memory(&mut hoard, &broadcast));
    Ok(())
}
