//! Futures that live side by side, polled and spent by the calls that ask for a live future: each call says who lives and can be polled
//! after it, so nothing here needs a proof.
use fi_channels::LocalChannel;
use futures::task::Poll;

#[test]
fn a_send_beside_a_stream(rt: HostRuntime) {
    let mut channel: LocalChannel<u64, 0, u64> = LocalChannel::new(rt.alloc());
    let mut stream = channel.stream().expect(&rt, "memory");
    let mut send = channel.send(6).expect(&rt, "memory");
    let waits = send.poll(&mut channel, 1).is_pending();
    let item = stream.poll(&mut channel, 2);
    let left = send.cancel(&mut channel);
    stream.cancel(&mut channel);
    assert!(rt; waits && item == Poll::Ready(Some(6)) && left.is_none());
}
