//! The beginning of the page on channel.

use futures_intrusive::channel::Channel;
use std::thread;

#[test]
fn channel(rt: HostRuntime) {
    let numbers = Channel::<u64, 4, HostRuntime>::new(rt.alloc(), rt); // room for four
    let send = || {
        let is_sent = numbers.send_blocking(1).is_ok() && numbers.send_blocking(2).is_ok();
        numbers.close();
        is_sent
    };
    let receive = || {
        let in_order = numbers.receive_blocking() == Ok(Some(1))
            && numbers.receive_blocking() == Ok(Some(2));
        in_order && numbers.receive_blocking() == Ok(None) // closed and empty
    };
    let (is_sent, is_received) = thread::join(&rt, send, receive);
    assert!(rt; is_sent && is_received);
}
