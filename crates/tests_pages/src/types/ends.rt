//! Of ends.

use futures_intrusive::channel::shared::{
    channel, oneshot_broadcast_channel, oneshot_channel, state_broadcast_channel,
};
use futures_intrusive::channel::{ChannelSendError, StateId, TrySendError};
use std::alloc::AllocGlobal;

#[test]
fn ends_of_a_channel(rt: HostRuntime) {
    let (sender, receiver) = channel::<u64, HostRuntime>(rt.alloc(), rt, 1).expect(&rt, "memory");
    let other = receiver.clone().expect(&rt, "memory");
    drop(receiver); // one receiver is left
    assert!(rt; sender.try_send(1).is_ok() && other.try_receive() == Ok(1));
    drop(other); // the last one: the channel closes
    assert!(rt; sender.try_send(2) == Err(TrySendError::Closed(2)));
}

#[test]
fn ends_of_a_oneshot(rt: HostRuntime) {
    let ends = oneshot_channel::<u64, HostRuntime>(rt.alloc(), rt);
    let (sender, receiver) = ends.expect(&rt, "memory");
    assert!(rt; sender.send(5).is_ok() && sender.is_closed()); // it takes one value
    assert!(rt; receiver.receive_blocking() == Ok(Some(5)));
}

#[test]
fn ends_of_a_oneshot_broadcast(rt: HostRuntime) {
    let ends = oneshot_broadcast_channel::<u64, HostRuntime>(rt.alloc(), rt);
    let (sender, receiver) = ends.expect(&rt, "memory");
    drop(receiver.clone().expect(&rt, "memory")); // one receiver is left
    assert!(rt; sender.send(5).is_ok());
    assert!(rt; receiver.receive_blocking() == Ok(Some(5)));
}

#[test]
fn ends_of_a_state_broadcast(rt: HostRuntime) {
    let ends = state_broadcast_channel::<u64, HostRuntime>(rt.alloc(), rt);
    let (sender, receiver) = ends.expect(&rt, "memory");
    assert!(rt; sender.send(5).is_ok());
    assert!(rt; matches!(receiver.receive_blocking(StateId::new()), Ok(Some((_, 5)))));
    drop(receiver);
    assert!(rt; sender.send(6) == Err(ChannelSendError(6))); // no receiver is left
}
