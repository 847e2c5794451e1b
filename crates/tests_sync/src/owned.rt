//! Futures and guards that own a share of their primitive go to threads that borrow nothing.
ghost use Rattle.fi_sync.specs.Blanks.{IsLockBlank};

use fi_parts::MockClock;
use fi_sync::{
    Blocking, ManualResetEvent, Mutex, OwnedMutexGuard, OwnedMutexLockFuture, OwnedTimerFuture,
    TimerService,
};
use futures::executor::block_on;
use futures::test::MockTask;
use std::marker::Brand;
use std::sync::Arc;
use std::sync::ledger::{Blank, Ledger};
use std::thread;
use std::thread::Threads;
use std::time::Duration;

// Whether a wait that is registered here ends on a thread of its own, once the event is set and its owner here is gone.
fn wait_moves<R>(rt: R) -> Option<bool>
where
    R: Blocking + Threads + Copy + Drop + Send + Sync + 'static,
{
    let task = MockTask::new(&rt).ok()?;
    let event = Arc::new(rt.alloc(), ManualResetEvent::new(rt.alloc(), rt, false)).ok()?;
    let mut wait = ManualResetEvent::wait_owned(&event).ok()?;
    let is_pending = task.poll(&mut wait).is_pending();
    let waiter = thread::spawn(&rt, move || matches!(block_on(&rt, wait), Ok(Ok(())))).ok()?;
    event.set();
    drop(event);
    Some(is_pending && waiter.join(&rt))
}

#[test]
fn an_owned_wait_moves_to_a_thread(rt: HostRuntime) {
    assert!(rt; wait_moves(rt) == Some(true));
}

// Whether the future waits while the clock shows 4, and ends on a thread of its own once it shows 5.
fn moment_moves<R>(
    rt: R,
    clock: &MockClock,
    timer: &TimerService<Arc<MockClock>, R>,
    mut moment: OwnedTimerFuture<Arc<MockClock>, R>,
) -> Option<bool>
where
    R: Blocking + Threads + Copy + Drop + Send + Sync + 'static,
{
    let task = MockTask::new(&rt).ok()?;
    clock.set_time(4);
    let is_pending = task.poll(&mut moment).is_pending();
    timer.check_expirations();
    let is_early = task.is_woken();
    let waiter = thread::spawn(&rt, move || matches!(block_on(&rt, moment), Ok(Ok(())))).ok()?;
    clock.set_time(5);
    timer.check_expirations();
    Some(is_pending && !is_early && waiter.join(&rt))
}

// Whether a deadline at 5, or a delay of 2 from 3, does.
fn timer_moves<R>(rt: R, is_delay: bool) -> Option<bool>
where
    R: Blocking + Threads + Copy + Drop + Send + Sync + 'static,
{
    let clock = Arc::new(rt.alloc(), MockClock::new()).ok()?;
    let timer = TimerService::new(rt.alloc(), rt, Arc::try_clone(&clock).ok()?);
    let timer = Arc::new(rt.alloc(), timer).ok()?;
    clock.set_time(3);
    let moment = if is_delay {
        TimerService::delay_owned(&timer, Duration::from_millis(2))
    } else {
        TimerService::deadline_owned(&timer, 5)
    };
    moment_moves(rt, &clock, &timer, moment.ok()?)
}

#[test]
fn owned_moments_move_to_a_thread(rt: HostRuntime) {
    assert!(rt; timer_moves(rt, false) == Some(true) && timer_moves(rt, true) == Some(true));
}

// Adds 1 to the mutex's value: the guard.
fn adds<R: Blocking + Drop, L: Ledger>(
    rt: &R,
    lock: OwnedMutexLockFuture<u64, R, L>,
) -> Option<OwnedMutexGuard<u64, R, L>> {
    let mut guard = block_on(rt, lock).ok()?.ok()?;
    *guard = guard.wrapping_add(1);
    Some(guard)
}

// Whether a mutex that is held here is locked by a thread of its own once it is free, and the guard comes back from there.
fn guard_moves<R, L: Ledger + Send + Sync + 'static>(rt: R, blank: Blank) -> Option<bool>
where
    R: Blocking + Threads + Copy + Drop + Send + Sync + 'static,
    requires blank { IsLockBlank L.Ledger blank }
{
    let task = MockTask::new(&rt).ok()?;
    let mutex = Mutex::<u64, R, L>::new(rt.alloc(), rt, blank, 7, true);
    let mutex = Arc::new(rt.alloc(), mutex).ok()?;
    let held = mutex.try_lock()?;
    let mut lock = Mutex::lock_owned(&mutex).ok()?;
    let is_pending = task.poll(&mut lock).is_pending();
    let holder = thread::spawn(&rt, move || adds(&rt, lock)).ok()?;
    drop(held);
    let guard = holder.join(&rt)?;
    let is_held = *guard == 8 && mutex.is_locked();
    drop(guard);
    Some(is_pending && is_held && !mutex.is_locked())
}

#[test]
fn an_owned_guard_moves_to_a_thread(rt: HostRuntime) {
    assert!(rt; guard_moves::<HostRuntime, Brand>(rt, Blank::new(1)) == Some(true));
}
