//! Of states, called by slot; their wakers are numbers.

use futures::task::Poll;
use futures_intrusive::buffer::ArrayBuf;
use futures_intrusive::channel::{
    ChannelReceiveAccess, ChannelSendAccess, ChannelState, LocalChannel, SendFault,
};
use futures_intrusive::sync::{MutexState, SemaphoreState};
use futures_intrusive::timer::TimerState;
use std::test::Fail;

#[test]
fn send_fault(rt: HostRuntime) {
    let mut channel: LocalChannel<u64, 1, u64> = LocalChannel::new(rt.alloc());
    let mut send = channel.send(6).ok().expect(&rt, "memory");
    channel.close();
    let answer = send.poll_if_live(&mut channel, 1);
    send.leave(&mut channel);
    assert!(rt; answer == Some(Poll::Ready(Err(SendFault::Closed(6))))); // the value comes back
}

#[test]
fn channel_send_access(rt: HostRuntime) {
    let mut channel: ChannelState<u64, ArrayBuf<u64, 1>, u64> = ChannelState::new(rt.alloc());
    let slot = channel.claim_send(5).ok().expect(&rt, "memory");
    let is_sent = matches!(
        channel.poll_send(slot, 1, true),
        Ok((Poll::Ready(Ok(())), _))
    );
    channel.leave_send(slot);
    assert!(rt; is_sent && channel.try_receive() == Ok(5));
}

#[test]
fn channel_receive_access(rt: HostRuntime) -> Result<(), Fail> {
    let mut channel: LocalChannel<u64, 1, u64> = LocalChannel::new(rt.alloc());
    let slot = channel.claim_receive()?;
    let waits = matches!(channel.poll_receive(slot, 1, true), Ok((Poll::Pending, _)));
    let is_woken = channel.try_send(5).is_ok() && channel.next_wake() == Some(1);
    let comes = matches!(
        channel.poll_receive(slot, 2, true),
        Ok((Poll::Ready(Ok(Some(5))), _))
    );
    channel.leave_receive(slot);
    assert!(rt; waits && is_woken && comes);
    Ok(())
}

#[test]
fn mutex_state(rt: HostRuntime) -> Result<(), Fail> {
    let mut mutex: MutexState<u64, u64> = MutexState::new(rt.alloc(), 7, true); // a fair one
    let is_taken = mutex.try_take() == Some(7); // the value is lent out: the mutex is locked
    let slot = mutex.claim()?;
    let waits = matches!(mutex.poll(slot, 1, true), Ok((Poll::Pending, _)));
    let is_woken = mutex.unlock(8) == Ok(()) && mutex.next_wake() == Some(1);
    let is_locked = matches!(mutex.poll(slot, 2, false), Ok((Poll::Ready(8), _)));
    mutex.leave(slot);
    assert!(rt; is_taken && waits && is_woken && is_locked);
    Ok(())
}

#[test]
fn semaphore_state(rt: HostRuntime) -> Result<(), Fail> {
    let mut permits: SemaphoreState<u64> = SemaphoreState::new(rt.alloc(), true, 1); // fair, with one permit
    let slot = permits.claim(2)?;
    let waits = matches!(permits.poll(slot, 1, true), Ok((Poll::Pending, _)));
    let is_woken = permits.release(1) == Ok(()) && permits.next_wake() == Some(1);
    let is_granted = matches!(permits.poll(slot, 2, false), Ok((Poll::Ready(2), _)));
    permits.leave(slot);
    assert!(rt; waits && is_woken && is_granted && permits.held() == 2);
    Ok(())
}

#[test]
fn timer_state(rt: HostRuntime) -> Result<(), Fail> {
    let mut timer: TimerState<u64> = TimerState::new(rt.alloc());
    let slot = timer.claim(10)?;
    let waits = matches!(timer.poll(slot, 9, 1, true), Ok((Poll::Pending, _))); // at the moment 9
    timer.check_expirations(10);
    let is_woken = timer.next_wake() == Some(1);
    let is_over = matches!(timer.poll(slot, 10, 2, false), Ok((Poll::Ready(()), _)));
    timer.leave(slot);
    assert!(rt; waits && is_woken && is_over);
    Ok(())
}
