//! The beginning of the page on oneshot.

use futures_intrusive::channel::OneshotChannel;
use std::thread;

#[test]
fn oneshot(rt: HostRuntime) {
    let answer = OneshotChannel::<u64, HostRuntime>::new(rt.alloc(), rt);
    let ask = || answer.receive_blocking() == Ok(Some(42));
    let tell = || answer.send(42).is_ok();
    let (is_right, is_sent) = thread::join(&rt, ask, tell);
    assert!(rt; is_right && is_sent);
    assert!(rt; answer.send(43).is_err()); // it takes one value
}
