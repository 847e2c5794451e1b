//! The clone of a oneshot broadcast's receiver, with no memory left.
use futures_intrusive::blocking::Blocking;
use futures_intrusive::channel::shared::oneshot_broadcast_channel;
use std::alloc::AllocGlobal;
use tests_help::hoard::Hoard;

// Whether the clone takes no memory, counts as a receiver, and receives.
fn clone_counts<R: Blocking + Copy + Drop>(rt: &R) -> Option<bool> {
    let mut hoard = Hoard::new(rt.alloc()).ok()?;
    let (sender, receiver) = oneshot_broadcast_channel::<u64, R>(rt.alloc(), *rt).ok()?;
    hoard.leave(0);
    let cloned = receiver.clone();
    hoard.let_go();
    let other = cloned.ok()?;
    drop(receiver);
    let is_sent = sender.send(1).is_ok();
    Some(is_sent && other.receive_blocking() == Ok(Some(1)))
}

#[test]
fn a_clone_of_a_broadcasts_receiver(rt: HostRuntime) {
    assert!(rt; clone_counts(&rt) == Some(true));
}
