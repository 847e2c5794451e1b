//! The local channels of one value and of states, as the pages quote them.
use fi_channels::{LocalOneshotBroadcastChannel, LocalOneshotChannel, LocalStateBroadcastChannel};
use fi_parts::{CloseStatus, StateId};
use futures::task::Poll;

#[test]
fn a_sent_oneshot_is_closed(rt: HostRuntime) {
    let mut channel: LocalOneshotChannel<u32, u64> = LocalOneshotChannel::new(rt.alloc());
    assert_eq!(rt; channel.send(5), Ok(()));
    assert_eq!(rt; channel.close(), CloseStatus::AlreadyClosed);
}

#[test]
fn a_local_broadcast(rt: HostRuntime) {
    let mut channel: LocalOneshotBroadcastChannel<u32, u64> = LocalOneshotBroadcastChannel::new(
        rt.alloc(),
    );
    let mut receive = channel.receive().expect(&rt, "room");
    let answer = receive.poll(&mut channel, 1);
    let is_ended = receive.is_terminated();
    receive.cancel(&mut channel);
    assert_eq!(rt; answer, Poll::Pending);
    assert!(rt; !is_ended);
    assert_eq!(rt; channel.close(), CloseStatus::NewlyClosed);
}

#[test]
fn a_local_state(rt: HostRuntime) {
    let mut channel: LocalStateBroadcastChannel<u32, u64> = LocalStateBroadcastChannel::new(
        rt.alloc(),
    );
    assert_eq!(rt; channel.try_receive(StateId::new()), Ok(None));
    assert_eq!(rt; channel.send(9), Ok(()));
    let first = StateId::from_value(1);
    assert_eq!(rt; channel.try_receive(StateId::new()), Ok(Some((first, 9))));
}
