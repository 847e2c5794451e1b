//! What a call has no more use for is dropped: each waker and each value is counted by its owners.
use fi_channels::{
    LocalChannel, LocalManualResetEvent, LocalStateBroadcastChannel, LocalUnbufferedChannel,
};
use fi_parts::{FuturesOf, LocalFuture};
use std::rc::Rc;

type Waker = Rc<u64>;

// The owners of a value while a state broadcast has it beside its caller, and once another replaced it.
fn owners_of_a_state(
    channel: &mut LocalStateBroadcastChannel<Rc<u64>, u64>,
    value: &Rc<u64>,
) -> Option<(usize, usize)> {
    let (first, second) = (value.clone().ok()?, value.clone().ok()?);
    channel.send(first).ok()?;
    let sent = Rc::strong_count(value);
    channel.send(second).ok()?;
    Some((sent, Rc::strong_count(value)))
}

#[test]
fn a_replaced_state_is_dropped(rt: HostRuntime) {
    let counted = Rc::new(rt.alloc(), 7u64).expect(&rt, "room");
    let mut channel = LocalStateBroadcastChannel::new(rt.alloc());
    assert_eq!(rt; owners_of_a_state(&mut channel, &counted), Some((3, 2)));
}

// The waker's owners while a future waits that was polled twice, and once it has left.
fn owners<S, K: FuturesOf<S, Waker = Waker, Moment = ()>>(
    mut future: LocalFuture<K>,
    state: &mut S,
    waker: &Waker,
) -> (usize, usize)
where
    K::Output: Drop,
    K::Left: Drop,
{
    for _ in 0..2 {
        if let Ok(owner) = waker.clone() {
            let _ = future.poll_if_live(state, owner);
        }
    }
    let pending = Rc::strong_count(waker);
    let _ = future.leave(state);
    (pending, Rc::strong_count(waker))
}

#[test]
fn an_event_drops_wakers_of_no_more_use(rt: HostRuntime) {
    let waker = Rc::new(rt.alloc(), 7u64).expect(&rt, "room");
    let mut event = LocalManualResetEvent::new(rt.alloc(), false);
    let wait = event.wait().expect(&rt, "room");
    assert_eq!(rt; owners(wait, &mut event, &waker), (2, 1));
}

#[test]
fn a_send_drops_wakers_of_no_more_use(rt: HostRuntime) {
    let waker = Rc::new(rt.alloc(), 7u64).expect(&rt, "room");
    let mut channel = LocalUnbufferedChannel::new(rt.alloc());
    let send = channel.send(5u64).expect(&rt, "room");
    assert_eq!(rt; owners(send, &mut channel, &waker), (2, 1));
}

#[test]
fn a_stream_drops_wakers_of_no_more_use(rt: HostRuntime) {
    let waker = Rc::new(rt.alloc(), 7u64).expect(&rt, "room");
    let mut channel: LocalChannel<u64, 1, Waker> = LocalChannel::new(rt.alloc());
    let stream = channel.stream().expect(&rt, "room");
    assert_eq!(rt; owners(stream, &mut channel, &waker), (2, 1));
}
