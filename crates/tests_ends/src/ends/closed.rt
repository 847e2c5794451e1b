//! Waits until a channel is closed. A drop that closes it is one function for all kinds of channels, so one kind is tried.

use fi_parts::Fault;
use futures::Future;
use futures::task::Poll;
use futures::test::MockTask;
use std::alloc::AllocGlobal;
use std::random::RandomSource;
use tests_driver::pollable::Pollable;
use tests_ends_calls::many::channel;
use tests_ends_calls::one_value::oneshot_channel;
use tests_ends_calls::{AwaitsClose, ClonedEnd, Made, SendsAtOnce, TriesToSend};

// A sender's wait goes on while a receiver is left, and ends after the last of them.
fn ends_with_receivers<R, S, E>(rt: &R, ends: Made<S, E>) -> Option<bool>
where
    R: RandomSource + AllocGlobal,
    S: AwaitsClose,
    S::Closed: Pollable + Future<Output = Result<(), Fault>>,
    E: ClonedEnd,
{
    let task = MockTask::new(rt).ok()?;
    let (sender, receiver) = ends.ok()?;
    let mut closed = sender.closed().ok()?;
    let waits = task.poll(&mut closed).is_pending();
    drop(receiver.try_clone().ok()?);
    let still_waits = waits && !task.is_woken();
    drop(receiver);
    Some(still_waits && task.is_woken() && task.poll(&mut closed) == Poll::Ready(Ok(())))
}

#[test]
fn a_wait_for_the_close_of_a_channel_ends_with_its_receivers(rt: HostRuntime) {
    let ends = channel::<u64, HostRuntime>(rt.alloc(), rt, 1);
    assert!(rt; ends_with_receivers(&rt, ends) == Some(true));
}

// A close ends the waits of two tasks, also where one was dropped before it was polled again; a later wait ends at once.
fn ends_by_close<R, S, E>(rt: &R, ends: Made<S, E>) -> Option<bool>
where
    R: RandomSource + AllocGlobal,
    S: AwaitsClose + TriesToSend<u64>,
    S::Closed: Pollable + Future<Output = Result<(), Fault>>,
    E: Drop,
{
    let (one, other) = (MockTask::new(rt).ok()?, MockTask::new(rt).ok()?);
    let (sender, _receiver) = ends.ok()?;
    let (mut dropped, mut closed) = (sender.closed().ok()?, sender.closed().ok()?);
    let wait = one.poll(&mut dropped).is_pending() && other.poll(&mut closed).is_pending();
    sender.close();
    let are_told = wait && one.is_woken() && other.is_woken();
    drop(dropped);
    let ends = are_told && other.poll(&mut closed) == Poll::Ready(Ok(()));
    let mut late = sender.closed().ok()?;
    Some(ends && one.poll(&mut late) == Poll::Ready(Ok(())))
}

#[test]
fn a_wait_for_the_close_of_a_channel_ends_by_a_close(rt: HostRuntime) {
    let ends = channel::<u64, HostRuntime>(rt.alloc(), rt, 1);
    assert!(rt; ends_by_close(&rt, ends) == Some(true));
}

// A channel of one value takes none any more once one was sent: then a wait ends.
fn ends_by_send<R, S, E>(rt: &R, ends: Made<S, E>) -> Option<bool>
where
    R: RandomSource + AllocGlobal,
    S: AwaitsClose + SendsAtOnce<u64>,
    S::Closed: Pollable + Future<Output = Result<(), Fault>>,
    E: Drop,
{
    let task = MockTask::new(rt).ok()?;
    let (sender, _receiver) = ends.ok()?;
    let mut closed = sender.closed().ok()?;
    let waits = task.poll(&mut closed).is_pending() && sender.send(5) == Ok(());
    Some(waits && task.is_woken() && task.poll(&mut closed) == Poll::Ready(Ok(())))
}

#[test]
fn a_wait_for_the_close_of_a_oneshot_ends_by_its_send(rt: HostRuntime) {
    let ends = oneshot_channel::<u64, HostRuntime>(rt.alloc(), rt);
    assert!(rt; ends_by_send(&rt, ends) == Some(true));
}
