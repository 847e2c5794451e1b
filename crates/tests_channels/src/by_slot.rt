//! The calls by slot, each once at a concrete type.
use fi_channels::{
    ChannelReceiveAccess, ChannelSendAccess, ChannelState, EventState, OneshotBroadcastState,
    OneshotState, StateBroadcastState,
};
use fi_parts::buffer::ArrayBuf;
use fi_parts::{ChannelSendError, CloseStatus, NotPolled, Stage, StateId};
use futures::task::Poll;

#[test]
fn a_wait_by_slot(rt: HostRuntime) {
    let mut event: EventState<u64> = EventState::new(rt.alloc(), false);
    let other = event.claim().expect(&rt, "room");
    let is_pending = matches!(event.poll(other, 1, true), Ok((Poll::Pending, _)));
    event.set();
    assert!(rt; is_pending);
    assert_eq!(rt; event.wake_count(), 1);
    assert_eq!(rt; event.leave(other), Some(1));
    assert!(rt; event.stage(other).is_none());
}

#[test]
fn a_receive_by_slot(rt: HostRuntime) {
    let mut channel: OneshotState<u32, u64> = OneshotState::new(rt.alloc());
    let slot = channel.claim_receive().expect(&rt, "room");
    let is_pending = matches!(channel.poll_receive(slot, 1, true), Ok((Poll::Pending, _)));
    assert!(rt; is_pending);
    assert_eq!(rt; channel.close(), CloseStatus::NewlyClosed);
    assert_eq!(rt; channel.wake_count(), 1);
    assert_eq!(rt; channel.next_wake(), Some(1));
    assert_eq!(rt; channel.leave_receive(slot), None);
    assert!(rt; channel.stage(slot).is_none());
}

#[test]
fn a_broadcast_by_slot(rt: HostRuntime) {
    let mut channel: OneshotBroadcastState<u32, u64> = OneshotBroadcastState::new(rt.alloc());
    let slot = channel.claim_receive().expect(&rt, "room");
    let is_pending = matches!(channel.poll_receive(slot, 1, true), Ok((Poll::Pending, _)));
    assert!(rt; is_pending);
    assert_eq!(rt; channel.send(5), Ok(()));
    assert_eq!(rt; channel.send(6), Err(ChannelSendError(6)));
    assert_eq!(rt; channel.next_wake(), Some(1));
    let later = channel.claim_receive().expect(&rt, "room");
    assert!(rt; channel.receive_or_register(later, 2).0.is_ready());
}

#[test]
fn a_state_receive_by_slot(rt: HostRuntime) {
    let mut channel: StateBroadcastState<u32, u64> = StateBroadcastState::new(rt.alloc());
    let slot = channel.claim_receive(StateId::new()).expect(&rt, "room");
    let is_pending = matches!(channel.poll_receive(slot, 1, true), Ok((Poll::Pending, _)));
    assert!(rt; is_pending);
    assert_eq!(rt; channel.close(), CloseStatus::NewlyClosed);
    assert_eq!(rt; channel.wake_count(), 1);
    assert_eq!(rt; channel.next_wake(), Some(1));
    assert_eq!(rt; channel.leave_receive(slot), None);
    assert!(rt; channel.stage(slot).is_none());
}

#[test]
fn a_wait_that_may_not_wait(rt: HostRuntime) {
    let mut event: EventState<u64> = EventState::new(rt.alloc(), false);
    let slot = event.claim().expect(&rt, "room");
    let early = matches!(event.poll(slot, 1, false), Err(NotPolled::WouldWait(1)));
    assert!(rt; early && event.stage(slot) == Some(Stage::Fresh));
    assert!(rt; matches!(event.poll(slot, 2, true), Ok((Poll::Pending, _))));
    // It keeps the waker that it has.
    assert!(rt; matches!(event.poll(slot, 3, false), Err(NotPolled::WouldWait(3))));
    event.set();
    assert_eq!(rt; event.next_wake(), Some(2));
    assert!(rt; matches!(event.poll(slot, 4, false), Ok((Poll::Ready(()), _))));
    assert!(rt; matches!(event.poll(slot, 5, false), Err(NotPolled::NoFuture(5))));
}

#[test]
fn sends_and_receives_that_may_not_wait(rt: HostRuntime) {
    let mut channel: ChannelState<u64, ArrayBuf<u64, 1>, u64> = ChannelState::new(rt.alloc());
    let receive = channel.claim_receive().expect(&rt, "room");
    let stream = channel.claim_stream().expect(&rt, "room");
    let early = matches!(
        channel.poll_receive(receive, 1, false),
        Err(NotPolled::WouldWait(1))
    ) && matches!(
        channel.poll_next(stream, 2, false),
        Err(NotPolled::WouldWait(2))
    );
    assert!(rt; early && channel.try_send(5).is_ok() && channel.next_wake() == None);
    let send = channel.claim_send(6).ok().expect(&rt, "room");
    let is_put_off = matches!(
        channel.poll_send(send, 3, false),
        Err(NotPolled::WouldWait(3))
    );
    let is_received = matches!(
        channel.poll_receive(receive, 4, false),
        Ok((Poll::Ready(Ok(Some(5))), _))
    );
    let is_sent = matches!(
        channel.poll_send(send, 5, false),
        Ok((Poll::Ready(Ok(())), _))
    );
    let is_streamed = matches!(
        channel.poll_next(stream, 6, false),
        Ok((Poll::Ready(Some(6)), _))
    );
    let has_ended = matches!(
        channel.poll_send(send, 7, false),
        Err(NotPolled::NoFuture(7))
    );
    assert!(rt; is_put_off && is_received && is_sent && is_streamed && has_ended);
}
