//! Polls by slot that may not wait: they are refused where they would have to, and nothing has changed.
use fi_locks::{MutexState, SemaphoreState, TimerState};
use fi_parts::{NotPolled, Stage};
use futures::task::Poll;

#[test]
fn a_lock_that_may_not_wait(rt: HostRuntime) {
    let mut mutex: MutexState<u64, u64> = MutexState::new(rt.alloc(), 7, true);
    let slot = mutex.claim().expect(&rt, "room");
    let taken = mutex.try_take();
    let early = matches!(mutex.poll(slot, 1, false), Err(NotPolled::WouldWait(1)));
    assert!(rt; taken == Some(7) && early && mutex.stage(slot) == Some(Stage::Fresh));
    assert!(rt; matches!(mutex.poll(slot, 2, true), Ok((Poll::Pending, _))));
    assert!(rt; matches!(mutex.poll(slot, 3, false), Err(NotPolled::WouldWait(3))));
    // The one that waits is told, with the waker that it had.
    assert!(rt; mutex.unlock(8) == Ok(()) && mutex.next_wake() == Some(2));
    assert!(rt; matches!(mutex.poll(slot, 4, false), Ok((Poll::Ready(8), _))));
    assert!(rt; matches!(mutex.poll(slot, 5, false), Err(NotPolled::NoFuture(5))));
}

#[test]
fn an_acquire_that_may_not_wait(rt: HostRuntime) {
    let mut semaphore: SemaphoreState<u64> = SemaphoreState::new(rt.alloc(), false, 1);
    let slot = semaphore.claim(2).expect(&rt, "room");
    assert!(rt; matches!(semaphore.poll(slot, 1, false), Err(NotPolled::WouldWait(1))));
    assert!(rt; matches!(semaphore.poll(slot, 2, true), Ok((Poll::Pending, _))));
    assert!(rt; matches!(semaphore.poll(slot, 3, false), Err(NotPolled::WouldWait(3))));
    assert!(rt; semaphore.release(1) == Ok(()) && semaphore.next_wake() == Some(2));
    assert!(rt; matches!(semaphore.poll(slot, 4, false), Ok((Poll::Ready(2), _))));
    assert!(rt; matches!(semaphore.poll(slot, 5, false), Err(NotPolled::NoFuture(5))));
}

#[test]
fn a_deadline_that_may_not_wait(rt: HostRuntime) {
    let mut timer: TimerState<u64> = TimerState::new(rt.alloc());
    let slot = timer.claim(10).expect(&rt, "room");
    assert!(rt; matches!(timer.poll(slot, 9, 1, false), Err(NotPolled::WouldWait(1))));
    assert!(rt; timer.next_expiration() == None);
    assert!(rt; matches!(timer.poll(slot, 10, 2, false), Ok((Poll::Ready(()), _))));
    assert!(rt; matches!(timer.poll(slot, 11, 3, false), Err(NotPolled::NoFuture(3))));
}
