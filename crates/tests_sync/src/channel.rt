//! The thread-safe channel of many values.

use fi_channels::TrySendError;
use fi_parts::buffer::{ArrayBuf, FixedHeapBuf, RingBuf};
use fi_sync::{Channel, GenericChannel};
use futures::test::MockTask;
use std::alloc::AllocGlobal;
use std::sync::Wait;

// Whether so many values are accepted.
fn accepts<R: Wait, B: RingBuf<Item = u64>>(
    channel: &GenericChannel<u64, B, R>,
    count: u64,
) -> bool {
    for value in 0..count {
        if channel.try_send(value).is_err() {
            return false;
        }
    }
    true
}

// Whether a channel is open and has no value, but room for some.
fn is_new<R: Wait, B: RingBuf<Item = u64>>(channel: &GenericChannel<u64, B, R>) -> bool {
    !channel.is_closed() && channel.is_empty() && !channel.is_full()
}

// Whether a channel counts so many values, and says that it is full.
fn is_filled<R: Wait, B: RingBuf<Item = u64>>(
    channel: &GenericChannel<u64, B, R>,
    capacity: u64,
) -> bool {
    let are_counted = channel.len() as u64 == capacity && channel.capacity() as u64 == capacity;
    are_counted && channel.is_full() && !channel.is_empty()
}

// Whether a value is refused by a channel that is full, and by one that is closed.
fn refuses<R: Wait, B: RingBuf<Item = u64>>(channel: &GenericChannel<u64, B, R>) -> bool {
    let is_full = channel.try_send(9) == Err(TrySendError::Full(9));
    let is_closed = channel.close().is_newly_closed() && !channel.close().is_newly_closed();
    is_full
        && is_closed
        && channel.is_closed()
        && channel.try_send(8) == Err(TrySendError::Closed(8))
}

// Whether a channel has room for so many values, and no more. Once it is closed it says so.
fn holds<R: Wait, B: RingBuf<Item = u64>>(
    channel: &GenericChannel<u64, B, R>,
    capacity: u64,
) -> bool {
    is_new(channel)
        && accepts(channel, capacity)
        && is_filled(channel, capacity)
        && refuses(channel)
}

// Whether a channel over such a buffer can be made with this capacity, and has it.
fn opens<R: Wait + AllocGlobal + Copy, B: RingBuf<Item = u64>>(rt: R, capacity: u64) -> bool {
    match GenericChannel::<u64, B, R>::with_capacity(rt.alloc(), rt, capacity as usize) {
        Ok(channel) => holds(&channel, capacity),
        Err(_) => false,
    }
}

// Whether a channel over such a buffer has this capacity where none is asked for.
fn begins<R: Wait + AllocGlobal + Copy, B: RingBuf<Item = u64>>(rt: R, capacity: u64) -> bool {
    holds(&GenericChannel::<u64, B, R>::new(rt.alloc(), rt), capacity)
}

#[test]
fn a_channel_has_the_capacity_asked_for(rt: HostRuntime) {
    assert!(rt; opens::<_, FixedHeapBuf<u64>>(rt, 10_000));
    assert!(rt; begins::<_, ArrayBuf<u64, 1000>>(rt, 1000));
}

// A send that is cancelled gives its value back, unless the channel has taken it.
#[test]
fn a_cancelled_send_gives_its_value_back(rt: HostRuntime) {
    let task = MockTask::new(&rt).expect(&rt, "memory");
    let channel = Channel::<u64, 1, HostRuntime>::new(rt.alloc(), rt);
    assert!(rt; channel.try_send(1).is_ok());
    let mut first = channel.send(2).ok().expect(&rt, "memory");
    let mut second = channel.send(3).ok().expect(&rt, "memory");
    assert!(rt; task.poll(&mut first).is_pending() && task.poll(&mut second).is_pending());
    assert!(rt; first.cancel() == Some(2) && first.is_terminated());
    assert!(rt; channel.try_receive() == Ok(1));
    assert!(rt; second.cancel().is_none() && channel.try_receive() == Ok(3));
}
