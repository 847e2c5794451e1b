//! A stream that ends with an event.

use futures::StreamExt;
use futures::executor::block_on;
use futures_intrusive::blocking::Blocking;
use futures_intrusive::channel::Channel;
use futures_intrusive::sync::ManualResetEvent;

// How many values come before the event is set.
fn count<R: Blocking>(
    rt: &R,
    values: &Channel<u64, 4, R>,
    is_over: &ManualResetEvent<R>,
) -> Option<usize> {
    let values = values.stream().ok()?.take_until(is_over.wait().ok()?); // looks at the event first
    let received = block_on(rt, values.collect(rt.alloc())).ok()?.ok()?;
    Some(received.len())
}

#[test]
fn stops(rt: HostRuntime) {
    let values = Channel::new(rt.alloc(), rt);
    let is_over = ManualResetEvent::new(rt.alloc(), rt, true);
    assert!(rt; values.try_send(1).is_ok());
    assert!(rt; count(&rt, &values, &is_over) == Some(0) && values.try_receive() == Ok(1));
}
