//! Local futures, guards and permits that are kept over other calls, as a user writes them: the calls that end in `_if_live` and
//! `_checked`, and `leave`, ask their caller for nothing, so nothing here needs a proof.
use fi_locks::{
    LocalMutex, LocalMutexLockFuture, LocalSemaphore, LocalSemaphoreAcquireFuture,
    LocalTimerService,
};
use futures::task::Poll;

// What the guard reads, if the lock is ready. It is put back.
fn read(
    lock: &mut LocalMutexLockFuture,
    mutex: &mut LocalMutex<u64, u64>,
    waker: u64,
) -> Option<u64> {
    let Poll::Ready(guard) = lock.poll_if_live(mutex, waker)? else {
        return None;
    };
    let value = *guard;
    guard.unlock_checked(mutex).ok()?;
    Some(value)
}

#[test]
fn a_lock_is_kept(rt: HostRuntime) {
    let mut mutex: LocalMutex<u64, u64> = LocalMutex::new(rt.alloc(), 7, true);
    let taken = mutex.try_take();
    let mut lock = mutex.lock().expect(&rt, "memory");
    let early = read(&mut lock, &mut mutex, 1);
    let unlocked = mutex.unlock(8);
    let woken = mutex.next_wake();
    let late = read(&mut lock, &mut mutex, 2);
    lock.leave(&mut mutex);
    let is_woken = (taken, unlocked, woken) == (Some(7), Ok(()), Some(1));
    assert!(rt; is_woken && (early, late) == (None, Some(8)) && !mutex.is_locked());
}

// How many permits were acquired, if they are granted. They are given back.
fn acquired(
    acquire: &mut LocalSemaphoreAcquireFuture,
    semaphore: &mut LocalSemaphore<u64>,
    waker: u64,
) -> Option<usize> {
    let Poll::Ready(permits) = acquire.poll_if_live(semaphore, waker)? else {
        return None;
    };
    let count = permits.permits();
    permits.give_back_checked(semaphore).then_some(count)
}

#[test]
fn permits_are_kept(rt: HostRuntime) {
    let mut semaphore: LocalSemaphore<u64> = LocalSemaphore::new(rt.alloc(), true, 1);
    let mut acquire = semaphore.acquire(2).expect(&rt, "memory");
    let early = acquired(&mut acquire, &mut semaphore, 1);
    let released = semaphore.release(1);
    let woken = semaphore.next_wake();
    let late = acquired(&mut acquire, &mut semaphore, 2);
    acquire.leave(&mut semaphore);
    let is_granted = (released, woken) == (Ok(()), Some(1)) && (early, late) == (None, Some(2));
    assert!(rt; is_granted && (semaphore.permits(), semaphore.held()) == (2, 0));
}

#[test]
fn a_deadline_is_kept(rt: HostRuntime) {
    let mut timer: LocalTimerService<u64> = LocalTimerService::new(rt.alloc());
    let mut deadline = timer.deadline(5).expect(&rt, "memory");
    let waits = deadline.poll_at_if_live(&mut timer, 4, 1);
    timer.check_expirations(5);
    let woken = timer.next_wake();
    let ends = deadline.poll_at_if_live(&mut timer, 5, 2);
    deadline.leave(&mut timer);
    assert_eq!(rt; (waits, woken), (Some(Poll::Pending), Some(1)));
    assert_eq!(rt; ends, Some(Poll::Ready(())));
}
