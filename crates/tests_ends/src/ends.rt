//! Ends that are owned and counted: the last of a side closes the channel, and wakes those who wait.

mod closed;
mod debug;
mod iterates;
mod many;
mod reads;
mod says;

use fi_channels::{SendFault, TryReceiveError, TrySendError};
use fi_parts::{ChannelSendError, Fault, StateId};
use futures::Future;
use futures::task::Poll;
use futures::test::MockTask;
use std::alloc::AllocGlobal;
use std::random::RandomSource;
use tests_driver::pollable::Pollable;
use tests_ends_calls::many::channel;
use tests_ends_calls::one_value::{oneshot_broadcast_channel, oneshot_channel};
use tests_ends_calls::states::state_broadcast_channel;
use tests_ends_calls::{
    ClonedEnd, Made, ReceivesOne, ReceivesStates, SendingEnd, SendsAtOnce, TriesToReceive,
    TriesToSend,
};

// The clone of a sender is dropped, then the sender: the value that it sent comes, and then the end.
fn value_comes_before_the_end<S, E>(ends: Made<S, E>) -> Option<bool>
where
    S: TriesToSend<u64> + ClonedEnd,
    E: TriesToReceive<u64>,
{
    let (sender, receiver) = ends.ok()?;
    drop(sender.try_clone().ok()?);
    let is_sent = sender.try_send(1).is_ok();
    drop(sender);
    let comes = receiver.try_receive() == Ok(1);
    Some(is_sent && comes && receiver.try_receive() == Err(TryReceiveError::Closed))
}

#[test]
fn shared_channel_ends(rt: HostRuntime) {
    let ends = channel::<u64, HostRuntime>(rt.alloc(), rt, 2);
    assert!(rt; value_comes_before_the_end(ends) == Some(true));
}

// A send waits while a receiver is left, and has its value back after the last of them.
fn send_ends_with_receivers<R, S, E>(rt: &R, ends: Made<S, E>) -> Option<bool>
where
    R: RandomSource + AllocGlobal,
    S: SendingEnd<u64>,
    S::Send: Pollable + Future<Output = Result<(), SendFault<u64>>>,
    E: ClonedEnd,
{
    let task = MockTask::new(rt).ok()?;
    let (sender, receiver) = ends.ok()?;
    let mut send = sender.send(2).ok()?;
    let is_full = sender.try_send(1).is_ok() && task.poll(&mut send).is_pending();
    drop(receiver.try_clone().ok()?);
    let waits = is_full && !task.is_woken();
    drop(receiver);
    let is_told = waits && task.is_woken();
    let is_back = task.poll(&mut send) == Poll::Ready(Err(SendFault::Closed(2)));
    Some(is_told && is_back && sender.try_send(3) == Err(TrySendError::Closed(3)))
}

#[test]
fn last_receiver_closes(rt: HostRuntime) {
    let ends = channel::<u64, HostRuntime>(rt.alloc(), rt, 1);
    assert!(rt; send_ends_with_receivers(&rt, ends) == Some(true));
}

// A receive waits while the sender is there, and ends with it; one that is made later ends at once.
fn receive_ends_with_sender<R, S, E>(rt: &R, ends: Made<S, E>) -> Option<bool>
where
    R: RandomSource + AllocGlobal,
    S: Drop,
    E: ReceivesOne<u64>,
    E::Receive: Pollable + Future<Output = Result<Option<u64>, Fault>>,
{
    let task = MockTask::new(rt).ok()?;
    let (sender, receiver) = ends.ok()?;
    let mut receive = receiver.receive().ok()?;
    let waits = task.poll(&mut receive).is_pending() && !task.is_woken();
    drop(sender);
    let is_told = waits && task.is_woken();
    let ends = is_told && task.poll(&mut receive) == Poll::Ready(Ok(None)) && !task.is_woken();
    let mut late = receiver.receive().ok()?;
    Some(ends && task.poll(&mut late) == Poll::Ready(Ok(None)))
}

#[test]
fn shared_oneshot_ends(rt: HostRuntime) {
    let ends = oneshot_channel::<u64, HostRuntime>(rt.alloc(), rt);
    assert!(rt; receive_ends_with_sender(&rt, ends) == Some(true));
}

#[test]
fn shared_oneshot_broadcast_ends(rt: HostRuntime) {
    let ends = oneshot_broadcast_channel::<u64, HostRuntime>(rt.alloc(), rt);
    assert!(rt; receive_ends_with_sender(&rt, ends) == Some(true));
}

// The clone of a receiver is dropped: the channel is open still, and a receive has the value.
fn value_comes_after_a_clone<R, S, E>(rt: &R, ends: Made<S, E>) -> Option<bool>
where
    R: RandomSource + AllocGlobal,
    S: SendsAtOnce<u64>,
    E: ReceivesOne<u64> + ClonedEnd,
    E::Receive: Pollable + Future<Output = Result<Option<u64>, Fault>>,
{
    let task = MockTask::new(rt).ok()?;
    let (sender, receiver) = ends.ok()?;
    drop(receiver.try_clone().ok()?);
    let is_sent = sender.send(5) == Ok(());
    let mut receive = receiver.receive().ok()?;
    Some(is_sent && task.poll(&mut receive) == Poll::Ready(Ok(Some(5))))
}

#[test]
fn broadcast_receivers_counted(rt: HostRuntime) {
    let ends = oneshot_broadcast_channel::<u64, HostRuntime>(rt.alloc(), rt);
    assert!(rt; value_comes_after_a_clone(&rt, ends) == Some(true));
}

// Sends are refused after the only receiver.
fn sends_end_with_receiver<S, E>(ends: Made<S, E>) -> Option<bool>
where
    S: SendsAtOnce<u64>,
    E: Drop,
{
    let (sender, receiver) = ends.ok()?;
    drop(receiver);
    Some(sender.send(5) == Err(ChannelSendError(5)))
}

#[test]
fn shared_oneshot_ends_close(rt: HostRuntime) {
    let ends = oneshot_channel::<u64, HostRuntime>(rt.alloc(), rt);
    assert!(rt; sends_end_with_receiver(ends) == Some(true));
}

// Sends are refused after the last of two receivers, and not after the first.
fn sends_end_with_receivers<S, E>(ends: Made<S, E>, is_sent_to_one: bool) -> Option<bool>
where
    S: SendsAtOnce<u64>,
    E: ClonedEnd,
{
    let (sender, receiver) = ends.ok()?;
    let other = receiver.try_clone().ok()?;
    drop(receiver);
    let is_open = !is_sent_to_one || sender.send(5) == Ok(());
    drop(other);
    Some(is_open && sender.send(6) == Err(ChannelSendError(6)))
}

#[test]
fn shared_broadcast_ends_close(rt: HostRuntime) {
    let ends = oneshot_broadcast_channel::<u64, HostRuntime>(rt.alloc(), rt);
    assert!(rt; sends_end_with_receivers(ends, false) == Some(true));
}

#[test]
fn shared_state_ends(rt: HostRuntime) {
    let ends = state_broadcast_channel::<u64, HostRuntime>(rt.alloc(), rt);
    assert!(rt; sends_end_with_receivers(ends, true) == Some(true));
}

// A receive of states waits while one of two senders is left.
fn receive_ends_with_senders<R, S, E>(rt: &R, ends: Made<S, E>) -> Option<bool>
where
    R: RandomSource + AllocGlobal,
    S: ClonedEnd,
    E: ReceivesStates<u64>,
    E::Receive: Pollable + Future<Output = Result<Option<(StateId, u64)>, Fault>>,
{
    let task = MockTask::new(rt).ok()?;
    let (sender, receiver) = ends.ok()?;
    let other = sender.try_clone().ok()?;
    let mut receive = receiver.receive(0).ok()?;
    let waits = task.poll(&mut receive).is_pending();
    drop(sender);
    let still_waits = waits && task.poll(&mut receive).is_pending() && !task.is_woken();
    drop(other);
    Some(still_waits && task.is_woken() && task.poll(&mut receive) == Poll::Ready(Ok(None)))
}

#[test]
fn shared_state_ends_close_after_senders(rt: HostRuntime) {
    let ends = state_broadcast_channel::<u64, HostRuntime>(rt.alloc(), rt);
    assert!(rt; receive_ends_with_senders(&rt, ends) == Some(true));
}

// What a send whose channel is closed hands back; one that is refused keeps its value.
#[test]
fn refused_sends_hand_back_what_they_have(rt: HostRuntime) {
    let closed = SendFault::Closed(2u64);
    let refused: SendFault<u64> = SendFault::Fault(Fault::NoSlot);
    assert_eq!(rt;
        (closed.into_inner(), refused.into_inner()),
        (Some(2), None)
    );
}
