//! Two futures side by side, and the first of two.

use futures::executor::block_on;
use futures::future::{Either, join, select};
use futures_intrusive::blocking::Blocking;
use futures_intrusive::channel::{OneshotChannel, UnbufferedChannel};

// Whether a send and a receive meet that one thread polls.
fn meet<R: Blocking>(rt: &R, channel: &UnbufferedChannel<u64, R>) -> Option<bool> {
    let send = channel.send(7).ok()?;
    let (sent, received) = block_on(rt, join(send, channel.receive().ok()?)).ok()?;
    Some(sent == Ok(()) && received == Ok(Some(7)))
}

#[test]
fn joins(rt: HostRuntime) {
    let channel = UnbufferedChannel::new(rt.alloc(), rt);
    assert!(rt; meet(&rt, &channel) == Some(true));
}

// The value of the channel that has one first, and whether it is the second.
fn first_of<R: Blocking>(
    rt: &R,
    one: &OneshotChannel<u64, R>,
    other: &OneshotChannel<u64, R>,
) -> Option<(bool, u64)> {
    let receives = select(one.receive().ok()?, other.receive().ok()?);
    match block_on(rt, receives).ok()? {
        Either::Left((received, _other)) => Some((false, received.ok()??)),
        Either::Right((received, _one)) => Some((true, received.ok()??)),
    }
}

#[test]
fn selects(rt: HostRuntime) {
    let slow = OneshotChannel::new(rt.alloc(), rt);
    let quick = OneshotChannel::new(rt.alloc(), rt);
    assert!(rt; quick.send(5).is_ok());
    assert!(rt; first_of(&rt, &slow, &quick) == Some((true, 5)));
}
