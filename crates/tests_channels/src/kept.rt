//! Local futures that are kept over other calls, as a user writes them: `poll_if_live` and `leave` ask their caller for nothing, and
//! clauses say that a future which was polled lives until it is cancelled, so nothing here needs a proof.
use fi_channels::{LocalChannel, LocalManualResetEvent, LocalOneshotChannel};
use futures::task::Poll;

#[test]
fn a_wait_is_kept(rt: HostRuntime) {
    let mut event: LocalManualResetEvent<u64> = LocalManualResetEvent::new(rt.alloc(), false);
    let mut wait = event.wait().expect(&rt, "memory");
    let waits = wait.poll_if_live(&mut event, 1);
    event.set();
    let woken = event.next_wake();
    let ends = wait.poll_if_live(&mut event, 2);
    let spent = wait.poll_if_live(&mut event, 3);
    wait.leave(&mut event);
    assert_eq!(rt; (waits, woken), (Some(Poll::Pending), Some(1)));
    assert_eq!(rt; (ends, spent), (Some(Poll::Ready(())), None));
}

#[test]
fn a_receive_is_kept(rt: HostRuntime) {
    let mut channel: LocalOneshotChannel<u32, u64> = LocalOneshotChannel::new(rt.alloc());
    let mut receive = channel.receive().expect(&rt, "memory");
    let waits = receive.poll_if_live(&mut channel, 1);
    let sent = channel.send(5);
    let woken = channel.next_wake();
    let ends = receive.poll_if_live(&mut channel, 2);
    receive.leave(&mut channel);
    assert_eq!(rt; (waits, woken), (Some(Poll::Pending), Some(1)));
    assert_eq!(rt; (sent, ends), (Ok(()), Some(Poll::Ready(Ok(Some(5))))));
}

#[test]
fn a_send_is_kept(rt: HostRuntime) {
    let mut channel: LocalChannel<u64, 1, u64> = LocalChannel::new(rt.alloc());
    let stored = channel.try_send(5);
    let mut send = channel.send(6).expect(&rt, "memory");
    let waits = send.poll_if_live(&mut channel, 1);
    let received = channel.try_receive();
    let woken = channel.next_wake();
    let ends = send.poll_if_live(&mut channel, 2);
    let left = send.leave(&mut channel);
    assert_eq!(rt; (stored, received, woken), (Ok(()), Ok(5), Some(1)));
    assert_eq!(rt;
        (waits, ends, left),
        (Some(Poll::Pending), Some(Poll::Ready(Ok(()))), None)
    );
}
