//! The channel's refusals, and a stream that is polled. The worked cases are scripts in `tests_scripts`, over each buffer.
use fi_channels::{LocalUnbufferedChannel, TryReceiveError, TrySendError};
use futures::task::Poll;

#[test]
fn channel_refusals(rt: HostRuntime) {
    let full = TrySendError::Full(1u64);
    let is_full = full.is_full() && !full.is_closed() && !full.is_memory();
    let empty = TryReceiveError::Empty;
    assert!(rt; is_full && empty.is_empty() && !empty.is_closed() && full.into_inner() == 1);
}

#[test]
fn an_unbuffered_stream(rt: HostRuntime) {
    let mut channel: LocalUnbufferedChannel<u64, u64> = LocalUnbufferedChannel::new(rt.alloc());
    let mut stream = channel.stream().expect(&rt, "room");
    let answer = stream.poll(&mut channel, 2);
    let is_ended = stream.is_terminated();
    stream.cancel(&mut channel);
    assert_eq!(rt; answer, Poll::Pending);
    assert!(rt; !is_ended);
}
