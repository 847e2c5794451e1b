//! The beginning of the page on state broadcast.

use futures_intrusive::channel::{StateBroadcastChannel, StateId};
use std::thread;

#[test]
fn state_broadcast(rt: HostRuntime) {
    let port = StateBroadcastChannel::<u64, HostRuntime>::new(rt.alloc(), rt);
    let follow = || port.receive_blocking(StateId::new()); // the newest state after none
    let change = || port.send(8080).is_ok();
    let (newest, is_sent) = thread::join(&rt, follow, change);
    assert!(rt; is_sent && matches!(newest, Ok(Some((_, 8080)))));
}
