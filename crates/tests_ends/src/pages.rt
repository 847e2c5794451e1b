//! The example of each module's page.

use futures::task::Poll;
use futures::test::MockTask;
use futures_intrusive::Fault;
use futures_intrusive::buffer::{FixedHeapBuf, RingBuf};
use futures_intrusive::channel::shared::channel;
use futures_intrusive::channel::{Channel, TryReceiveError};
use futures_intrusive::heap::PairingHeap;
use futures_intrusive::list::LinkedList;
use futures_intrusive::outbox::Outbox;
use futures_intrusive::run::{Answer, EventCall, Primitive, run};
use futures_intrusive::sync::{EventState, ManualResetEvent};
use futures_intrusive::timer::{MockClock, TimerService};
use std::alloc::AllocGlobal;
use std::sync::Arc;
use std::test::Fail;

#[test]
fn page_of_sync(rt: HostRuntime) -> Result<(), Fail> {
    let task = MockTask::new(&rt)?;
    let event = ManualResetEvent::new(rt.alloc(), rt, false);
    let mut wait = event.wait()?;
    assert!(rt; task.poll(&mut wait).is_pending());
    event.set();
    assert!(rt; task.is_woken() && task.poll(&mut wait) == Poll::Ready(Ok(())));
    Ok(())
}

#[test]
fn page_of_channel(rt: HostRuntime) {
    let channel = Channel::<u64, 2, HostRuntime>::new(rt.alloc(), rt);
    assert!(rt; channel.try_send(1).is_ok() && channel.try_send(2).is_ok());
    assert!(rt; channel.try_send(3).is_err());
    channel.close();
    assert!(rt; channel.try_receive() == Ok(1) && channel.try_receive() == Ok(2));
    assert!(rt; channel.try_receive() == Err(TryReceiveError::Closed));
}

#[test]
fn page_of_blocking(rt: HostRuntime) {
    let (sender, receiver) = channel::<u64, HostRuntime>(rt.alloc(), rt, 1).expect(&rt, "memory");
    assert!(rt; sender.send_blocking(7) == Ok(()));
    assert!(rt; receiver.receive_blocking() == Ok(Some(7)));
    drop(sender);
    assert!(rt; receiver.receive_blocking() == Ok(None));
}

#[test]
fn page_of_timer(rt: HostRuntime) -> Result<(), Fail> {
    let task = MockTask::new(&rt)?;
    let clock = Arc::new(rt.alloc(), MockClock::new())?;
    let timer = TimerService::new(rt.alloc(), rt, Arc::try_clone(&clock)?);
    let mut wait = timer.deadline(5)?;
    assert!(rt; task.poll(&mut wait).is_pending());
    clock.set_time(5);
    timer.check_expirations();
    assert!(rt; task.is_woken() && task.poll(&mut wait) == Poll::Ready(Ok(())));
    Ok(())
}

#[test]
fn page_of_buffer(rt: HostRuntime) -> Result<(), Fault> {
    let mut buffer = FixedHeapBuf::<u64>::with_capacity(rt.alloc(), 1)?;
    assert!(rt; buffer.push(7).is_ok() && !buffer.can_push());
    assert!(rt; buffer.pop() == 7 && buffer.is_empty());
    Ok(())
}

#[test]
fn page_of_run(rt: HostRuntime) -> Result<(), Fail> {
    let mut event: EventState<u64> = EventState::open(rt.alloc(), false)?;
    let calls = vec![in rt.alloc(); EventCall::Set, EventCall::IsSet]?;
    let mut answers = Vec::new(rt.alloc());
    run(&mut event, calls, &mut answers)?;
    assert!(rt; answers.as_slice() == [Answer::Done, Answer::Flag(true)].as_slice());
    Ok(())
}

#[test]
fn page_of_list(rt: HostRuntime) {
    let mut list = LinkedList::new(rt.alloc());
    let slot = list.claim(7u64).ok().expect(&rt, "memory");
    list.add_front(slot);
    assert!(rt; list.peek_last() == Some(&7) && list.remove(slot));
    assert!(rt; list.free(slot) == 7);
}

#[test]
fn page_of_heap(rt: HostRuntime) {
    let mut heap = PairingHeap::new(rt.alloc());
    let slot = heap.claim(3u64).ok().expect(&rt, "memory");
    heap.insert(slot);
    assert!(rt; heap.peek_min() == Some(slot));
}

#[test]
fn page_of_outbox(rt: HostRuntime) -> Result<(), Fault> {
    let mut outbox = Outbox::<u64>::new(rt.alloc());
    let ticket = outbox.claim()?;
    outbox.name(ticket, 5);
    assert!(rt; outbox.pop() == Some(5) && outbox.pop() == None);
    outbox.free(ticket);
    Ok(())
}
