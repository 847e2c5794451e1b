//! Clones of ends with no memory left.
use fi_parts::buffer::GrowingHeapBuf;
use std::alloc::AllocGlobal;
use std::sync::Wait;
use std::test::Fail;
use tests_ends_calls::many::channel;
use tests_ends_calls::states::state_broadcast_channel;
use tests_ends_calls::{ClonedEnd, Made, SendsAtOnce, TriesToSend, many, states};
use tests_help::hoard::Hoard;

/// A sender of many values or of states.
trait Sends: ClonedEnd {
    fn is_sent(&self, value: u64) -> bool;
}

impl<R: Wait + Drop> Sends for many::Sender<u64, GrowingHeapBuf<u64>, R> {
    fn is_sent(&self, value: u64) -> bool {
        self.try_send(value).is_ok()
    }
}

impl<R: Wait + Drop> Sends for states::Sender<u64, R> {
    fn is_sent(&self, value: u64) -> bool {
        self.send(value).is_ok()
    }
}

// Whether both ends are cloned with no memory left, and the clone of the receiver counts.
fn are_cloned<S, E>(hoard: &mut Hoard, ends: Made<S, E>) -> Option<bool>
where
    S: Sends,
    E: ClonedEnd,
{
    let (sender, receiver) = ends.ok()?;
    hoard.leave(0);
    let (senders, receivers) = (sender.try_clone(), receiver.try_clone());
    hoard.let_go();
    drop(receiver);
    let is_open = senders.is_ok() && receivers.is_ok() && sender.is_sent(1);
    drop(receivers);
    Some(is_open && !sender.is_sent(2))
}

// Clones take no memory, and count.
#[test]
fn clones_of_ends(rt: HostRuntime) -> Result<(), Fail> {
    let mut hoard = Hoard::new(rt.alloc())?;
    let ends = channel::<u64, HostRuntime>(rt.alloc(), rt, 3);
    assert!(rt; are_cloned(&mut hoard, ends) == Some(true));
    Ok(())
}

#[test]
fn clones_of_state_ends(rt: HostRuntime) -> Result<(), Fail> {
    let mut hoard = Hoard::new(rt.alloc())?;
    let ends = state_broadcast_channel::<u64, HostRuntime>(rt.alloc(), rt);
    assert!(rt; are_cloned(&mut hoard, ends) == Some(true));
    Ok(())
}
