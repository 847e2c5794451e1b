//! The page on ends.

use futures_intrusive::blocking::{Blocking, wait_for};
use futures_intrusive::channel::shared::{OneshotSender, channel, oneshot_channel};
use std::alloc::AllocGlobal;
use std::thread;

#[test]
fn ends(rt: HostRuntime) -> Result<(), std::test::Fail> {
    let (sender, receiver) = channel::<u64, HostRuntime>(rt.alloc(), rt, 2)?;
    let send = move || sender.send_blocking(7).is_ok(); // the sender is dropped, which closes the channel
    let receive = move || {
        receiver.receive_blocking() == Ok(Some(7)) && receiver.receive_blocking() == Ok(None)
    };
    let (is_sent, is_received) = thread::join(&rt, send, receive);
    assert!(rt; is_sent && is_received);
    Ok(())
}

// Blocks until nobody would receive an answer any more.
fn wait_until_unwanted<R: Blocking + Drop>(rt: &R, sender: &OneshotSender<u64, R>) -> Option<bool> {
    let closed = sender.closed().ok()?;
    Some(wait_for(rt, closed) == Ok(Ok(())))
}

#[test]
fn no_answer_without_a_receiver(rt: HostRuntime) {
    let ends = oneshot_channel::<u64, HostRuntime>(rt.alloc(), rt);
    let (sender, receiver) = ends.expect(&rt, "memory");
    drop(receiver);
    assert!(rt; wait_until_unwanted(&rt, &sender) == Some(true));
}
