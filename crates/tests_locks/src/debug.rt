//! The texts of `Debug`: those of the Rust crate.
use fi_locks::{LocalMutex, LocalSemaphore, LocalTimerService};
use futures::task::Poll;
use std::time::Duration;
use tests_help::texts::shows;

#[test]
fn a_mutex_shows_whether_it_is_locked(rt: HostRuntime) {
    let mutex: LocalMutex<u32, u64> = LocalMutex::new(rt.alloc(), 7, true);
    assert!(rt; shows(rt.alloc(), &mutex, "Mutex { is_locked: false }"));
}

#[test]
fn a_semaphore_shows_its_free_permits(rt: HostRuntime) {
    let semaphore: LocalSemaphore<u64> = LocalSemaphore::new(rt.alloc(), true, 3);
    assert!(rt; shows(rt.alloc(), &semaphore, "Semaphore { permits: 3 }"));
}

#[test]
fn a_timer_shows_its_name(rt: HostRuntime) {
    let timer: LocalTimerService<u64> = LocalTimerService::new(rt.alloc());
    assert!(rt; shows(rt.alloc(), &timer, "TimerService"));
}

#[test]
fn a_lock_and_its_guard_show_their_names(rt: HostRuntime) {
    let mut mutex: LocalMutex<u32, u64> = LocalMutex::new(rt.alloc(), 7, true);
    let mut lock = mutex.lock().expect(&rt, "room");
    let shown = shows(rt.alloc(), &lock, "GenericMutexLockFuture");
    let mut guarded = false;
    if let Poll::Ready(guard) = lock.poll(&mut mutex, 1) {
        guarded = shows(rt.alloc(), &guard, "GenericMutexGuard");
        guard.unlock(&mut mutex);
    }
    lock.cancel(&mut mutex);
    assert!(rt; shown && guarded);
}

#[test]
fn a_future_and_its_permits_show_their_names(rt: HostRuntime) {
    let mut semaphore: LocalSemaphore<u64> = LocalSemaphore::new(rt.alloc(), true, 3);
    let mut future = semaphore.acquire(2).expect(&rt, "room");
    let shown = shows(rt.alloc(), &future, "GenericSemaphoreAcquireFuture");
    let answer = future.poll(&mut semaphore, 1);
    future.cancel(&mut semaphore);
    let mut held = false;
    if let Poll::Ready(releaser) = answer {
        held = shows(rt.alloc(), &releaser, "GenericSemaphoreReleaser");
        releaser.give_back(&mut semaphore);
    }
    assert!(rt; shown && held);
}

#[test]
fn a_timer_future_shows_its_name(rt: HostRuntime) {
    let mut timer: LocalTimerService<u64> = LocalTimerService::new(rt.alloc());
    let future = timer.delay(5, Duration::from_millis(5)).expect(&rt, "room");
    let shown = shows(rt.alloc(), &future, "LocalTimerFuture");
    future.cancel(&mut timer);
    assert!(rt; shown);
}
