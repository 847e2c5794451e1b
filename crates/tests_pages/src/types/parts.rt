//! Of what primitives are made of, and of clocks.

use futures::task::Poll;
use futures_intrusive::buffer::{ArrayBuf, GrowingHeapBuf, RingBuf};
use futures_intrusive::list::LinkedList;
use futures_intrusive::sync::EventState;
use futures_intrusive::timer::{Clock, MockClock, StdClock};
use futures_intrusive::{Leftover, NotPolled};
use std::sync::Arc;
use std::test::Fail;
use std::thread;
use std::time::Duration;

#[test]
fn drain(rt: HostRuntime) -> Result<(), Fail> {
    let mut list = LinkedList::new(rt.alloc());
    let oldest = list.claim(7u64)?;
    list.add_front(oldest);
    let youngest = list.claim(8u64)?;
    list.add_front(youngest);
    let mut slots = list.drain();
    assert!(rt; slots.next() == Some(youngest) && slots.next() == Some(oldest));
    Ok(())
}

#[test]
fn reverse_drain(rt: HostRuntime) -> Result<(), Fail> {
    let mut list = LinkedList::new(rt.alloc());
    let oldest = list.claim(7u64)?;
    list.add_front(oldest);
    let youngest = list.claim(8u64)?;
    list.add_front(youngest);
    let mut slots = list.reverse_drain();
    assert!(rt; slots.next() == Some(oldest) && slots.next() == Some(youngest));
    Ok(())
}

#[test]
fn array_buf(rt: HostRuntime) {
    let mut buffer = ArrayBuf::<u64, 3>::new(rt.alloc());
    assert!(rt; buffer.capacity() == 3 && buffer.reserved() == 0); // it asks for memory with its first value
    assert!(rt; buffer.push(7).is_ok() && buffer.reserved() == 3);
    assert!(rt; buffer.pop() == 7);
}

#[test]
fn growing_heap_buf(rt: HostRuntime) -> Result<(), Fail> {
    let mut buffer = GrowingHeapBuf::<u64>::with_capacity(rt.alloc(), 300)?;
    assert!(rt; buffer.capacity() == 300 && buffer.reserved() == 0); // it asks for memory as it grows
    assert!(rt; buffer.push(7).is_ok() && buffer.pop() == 7);
    Ok(())
}

#[test]
fn leftover(rt: HostRuntime) -> Result<(), Fail> {
    let mut event: EventState<u64> = EventState::new(rt.alloc(), false);
    let slot = event.claim()?;
    assert!(rt; event.poll(slot, 1, true).is_ok()); // registers the waker 1
    let Ok((Poll::Pending, Leftover { displaced, unused })) = event.poll(slot, 2, true) else {
        return Err("not pending".into());
    };
    assert!(rt; displaced == Some(1) && unused == None);
    Ok(())
}

#[test]
fn not_polled(rt: HostRuntime) -> Result<(), Fail> {
    let mut event: EventState<u64> = EventState::new(rt.alloc(), false);
    let slot = event.claim()?;
    // A poll that may not wait asks whether it would have to.
    assert!(rt; matches!(event.poll(slot, 1, false), Err(NotPolled::WouldWait(1))));
    event.leave(slot);
    assert!(rt; matches!(event.poll(slot, 2, true), Err(NotPolled::NoFuture(2))));
    Ok(())
}

#[test]
fn mock_clock(rt: HostRuntime) -> Result<(), Fail> {
    let clock = Arc::new(rt.alloc(), MockClock::new())?;
    let other = Arc::try_clone(&clock)?;
    clock.set_time(3);
    assert!(rt; other.now() == 3);
    Ok(())
}

#[test]
fn std_clock(rt: HostRuntime) -> Result<(), Fail> {
    let clock = StdClock::new(rt)?;
    thread::sleep(&rt, Duration::from_millis(2));
    assert!(rt; clock.now() >= 2); // milliseconds since it was made
    Ok(())
}
