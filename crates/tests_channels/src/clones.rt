//! Deliveries whose clone is refused memory, and then allowed.
use fi_channels::{ChannelReceiveAccess, LocalOneshotBroadcastChannel, LocalStateBroadcastChannel};
use fi_parts::{Fault, Slot, Stage, StateId};
use futures::task::Poll;
use std::alloc::AllocError;
use std::sync::atomic::{AtomicBool, Ordering};

/// A number of whose clones each second one is allowed, so that a delivery can make but one.
#[derive(Drop)]
struct Reluctant {
    number: u32,
    is_ready: AtomicBool,
}

impl Reluctant {
    fn of(number: u32) -> Self {
        Reluctant {
            number,
            is_ready: AtomicBool::new(false),
        }
    }
}

impl Clone for Reluctant {
    fn clone(&self) -> Result<Self, AllocError> {
        if !self.is_ready.fetch_xor(true, Ordering::SeqCst) {
            return Err(AllocError);
        }
        Ok(Reluctant::of(self.number))
    }
}

// A poll by slot; None where there is nothing to poll.
fn polled<C: ChannelReceiveAccess>(
    channel: &mut C,
    slot: Slot,
    waker: C::Waker,
) -> Option<Poll<Result<Option<C::Item>, Fault>>>
where
    C::Waker: Drop,
{
    match channel.poll_receive(slot, waker, true) {
        Ok((answer, _)) => Some(answer),
        Err(_) => None,
    }
}

fn is_refused<T>(answer: &Poll<Result<Option<T>, Fault>>) -> bool {
    match answer {
        Poll::Ready(Err(fault)) => matches!(*fault, Fault::NoMemory { .. }),
        Poll::Ready(Ok(_)) | Poll::Pending => false,
    }
}

fn item_in<T>(answer: Poll<Result<Option<T>, Fault>>) -> Option<T> {
    match answer {
        Poll::Ready(Ok(item)) => item,
        Poll::Ready(Err(_)) | Poll::Pending => None,
    }
}

// Whether a poll with the waker 7 waits.
fn waits<C: ChannelReceiveAccess<Waker = u64>>(channel: &mut C, slot: Slot) -> bool
where
    C::Item: Drop,
{
    matches!(polled(channel, slot, 7), Some(Poll::Pending))
}

// Whether a poll with the waker 8 is refused.
fn poll_is_refused<C: ChannelReceiveAccess<Waker = u64>>(channel: &mut C, slot: Slot) -> bool
where
    C::Item: Drop,
{
    match polled(channel, slot, 8) {
        Some(answer) => is_refused(&answer),
        None => false,
    }
}

#[test]
fn a_refused_clone_leaves_the_pair(rt: HostRuntime) {
    let mut channel: LocalOneshotBroadcastChannel<Reluctant, u64> =
        LocalOneshotBroadcastChannel::new(rt.alloc());
    let slot = channel.claim_receive().expect(&rt, "room");
    let was_refused = waits(&mut channel, slot)
        && channel.send(Reluctant::of(5)).is_ok()
        && poll_is_refused(&mut channel, slot)
        && channel.wake_count() == 1;
    let value = item_in(polled(&mut channel, slot, 9).expect(&rt, "third")).expect(&rt, "value");
    assert!(rt; was_refused && value.number == 5);
    assert!(rt; channel.wake_count() == 0 && channel.stage(slot) == Some(Stage::Ended));
}

#[test]
fn a_refused_clone_leaves_the_waker(rt: HostRuntime) {
    let mut channel: LocalStateBroadcastChannel<Reluctant, u64> = LocalStateBroadcastChannel::new(
        rt.alloc(),
    );
    let slot = channel.claim_receive(StateId::new()).expect(&rt, "room");
    let was_refused = waits(&mut channel, slot)
        && channel.send(Reluctant::of(5)).is_ok()
        && poll_is_refused(&mut channel, slot)
        && channel.next_wake() == Some(7);
    let state = item_in(polled(&mut channel, slot, 9).expect(&rt, "third"));
    let (number, value) = state.expect(&rt, "state");
    assert!(rt; was_refused && number.value() == 1 && value.number == 5);
    assert!(rt; channel.stage(slot) == Some(Stage::Ended));
}

#[test]
fn a_refused_clone_is_asked_again(rt: HostRuntime) {
    let mut channel: LocalStateBroadcastChannel<Reluctant, u64> = LocalStateBroadcastChannel::new(
        rt.alloc(),
    );
    let is_sent = channel.send(Reluctant::of(5)).is_ok();
    let fault = channel.try_receive(StateId::new()).err();
    let (number, value) = channel
        .try_receive(StateId::new())
        .expect(&rt, "room")
        .expect(&rt, "state");
    assert!(rt;
        is_sent
            && matches!(fault, Some(Fault::NoMemory { .. }))
            && number.value() == 1
            && value.number == 5
    );
}
