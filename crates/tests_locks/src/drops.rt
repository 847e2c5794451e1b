//! Wakers that a local future has no more use for are dropped: each is counted by its owners.
use fi_locks::{
    LocalMutex, LocalMutexLockFuture, LocalSemaphore, LocalSemaphoreAcquireFuture,
    LocalTimerService,
};
use futures::task::Poll;
use std::rc::Rc;

type Waker = Rc<u64>;

// The waker's owners while a future of a timer waits that was polled twice, and once it is cancelled.
fn owners_of_a_wait(timer: &mut LocalTimerService<Waker>, waker: &Waker) -> Option<(usize, usize)> {
    let (first, second) = (waker.clone().ok()?, waker.clone().ok()?);
    let mut wait = timer.deadline(5).ok()?;
    let _ = wait.poll_at(timer, 1, first);
    let _ = wait.poll_at_if_live(timer, 2, second);
    let pending = Rc::strong_count(waker);
    wait.leave(timer);
    Some((pending, Rc::strong_count(waker)))
}

// Polls a lock of a locked mutex.
fn poll_lock(lock: &mut LocalMutexLockFuture, mutex: &mut LocalMutex<u64, Waker>, waker: Waker) {
    if let Some(Poll::Ready(guard)) = lock.poll_if_live(mutex, waker) {
        let _ = guard.unlock_checked(mutex);
    }
}

// The same of a lock of a locked mutex.
fn owners_of_a_lock(mutex: &mut LocalMutex<u64, Waker>, waker: &Waker) -> Option<(usize, usize)> {
    let (first, second) = (waker.clone().ok()?, waker.clone().ok()?);
    let mut lock = mutex.lock().ok()?;
    poll_lock(&mut lock, mutex, first);
    poll_lock(&mut lock, mutex, second);
    let pending = Rc::strong_count(waker);
    lock.leave(mutex);
    Some((pending, Rc::strong_count(waker)))
}

// Polls an acquire of a semaphore without permits.
fn poll_acquire(
    acquire: &mut LocalSemaphoreAcquireFuture,
    semaphore: &mut LocalSemaphore<Waker>,
    waker: Waker,
) {
    if let Some(Poll::Ready(releaser)) = acquire.poll_if_live(semaphore, waker) {
        releaser.give_back_checked(semaphore);
    }
}

// The same of an acquire of a semaphore without permits.
fn owners_of_an_acquire(
    semaphore: &mut LocalSemaphore<Waker>,
    waker: &Waker,
) -> Option<(usize, usize)> {
    let (first, second) = (waker.clone().ok()?, waker.clone().ok()?);
    let mut acquire = semaphore.acquire(1).ok()?;
    poll_acquire(&mut acquire, semaphore, first);
    poll_acquire(&mut acquire, semaphore, second);
    let pending = Rc::strong_count(waker);
    acquire.leave(semaphore);
    Some((pending, Rc::strong_count(waker)))
}

#[test]
fn a_timer_drops_wakers_of_no_more_use(rt: HostRuntime) {
    let waker = Rc::new(rt.alloc(), 7u64).expect(&rt, "room");
    let mut timer = LocalTimerService::new(rt.alloc());
    assert_eq!(rt; owners_of_a_wait(&mut timer, &waker), Some((2, 1)));
}

#[test]
fn a_mutex_drops_wakers_of_no_more_use(rt: HostRuntime) {
    let waker = Rc::new(rt.alloc(), 7u64).expect(&rt, "room");
    let mut mutex = LocalMutex::new(rt.alloc(), 7, true);
    let is_locked = mutex.try_take() == Some(7);
    assert!(rt; is_locked && owners_of_a_lock(&mut mutex, &waker) == Some((2, 1)));
}

#[test]
fn a_semaphore_drops_wakers_of_no_more_use(rt: HostRuntime) {
    let waker = Rc::new(rt.alloc(), 7u64).expect(&rt, "room");
    let mut semaphore = LocalSemaphore::new(rt.alloc(), true, 0);
    assert_eq!(rt; owners_of_an_acquire(&mut semaphore, &waker), Some((2, 1)));
}
