//! The event that threads share: threads that meet at it, and one that tells others to stop.

use fi_sync::{Blocking, ManualResetEvent};
use futures::task::Poll;
use futures::test::MockTask;
use std::alloc::AllocGlobal;
use std::sync::Wait;
use std::sync::atomic::{AtomicU64, Ordering};
use std::thread;
use std::thread::Threads;
use std::time::{Clock, Duration};

fn meet<R: Wait>(mine: &ManualResetEvent<R>, other: &ManualResetEvent<R>, task: &MockTask) -> bool {
    mine.set();
    let Ok(mut wait) = other.wait() else {
        return false;
    };
    for _ in 0..10_000_000u32 {
        if let Poll::Ready(answer) = task.poll(&mut wait) {
            return answer == Ok(());
        }
        thread::yield_now();
    }
    false
}

fn both_meet<R: Blocking + Threads + Copy + Send + Sync>(rt: R) -> Option<bool> {
    let first = &ManualResetEvent::new(rt.alloc(), rt, false);
    let second = &ManualResetEvent::new(rt.alloc(), rt, false);
    let a = &MockTask::new(&rt).ok()?;
    let b = &MockTask::new(&rt).ok()?;
    let (left, right) = thread::join(
        &rt,
        move || meet(first, second, a),
        move || meet(second, first, b),
    );
    Some(left && right)
}

#[test]
fn two_threads_meet(rt: HostRuntime) {
    assert!(rt; both_meet(rt) == Some(true));
}

// Waits until it is told to stop.
fn works<R: Blocking>(shutdown: &ManualResetEvent<R>, started: &AtomicU64, stopped: &AtomicU64) {
    started.fetch_add(1, Ordering::SeqCst);
    if shutdown.wait_blocking() == Ok(()) {
        stopped.fetch_add(1, Ordering::SeqCst);
    }
}

// Whether three have started in the end. It looks a bounded number of times.
fn have_started(started: &AtomicU64) -> bool {
    for _ in 0..10_000_000u32 {
        if started.load(Ordering::SeqCst) == 3 {
            return true;
        }
        thread::yield_now();
    }
    false
}

// Three workers wait, and 20 milliseconds after all have started one thread tells them to stop.
fn stop_all<'a, R>(
    rt: &'a R,
    shutdown: &'a ManualResetEvent<R>,
    started: &'a AtomicU64,
    stopped: &'a AtomicU64,
)
where
    R: Blocking + Clock + Threads + Send + Sync,
{
    thread::scope(thread::scope_env(), rt, |scope| {
        for _ in 0..3 {
            let _ = scope.spawn(move || works(shutdown, started, stopped));
        }
        let _ = have_started(started);
        thread::sleep(rt, Duration::from_millis(20));
        shutdown.set();
    });
}

#[test]
fn shutdown_signal(rt: HostRuntime) {
    let shutdown = ManualResetEvent::new(rt.alloc(), rt, false);
    let (started, stopped) = (AtomicU64::new(0), AtomicU64::new(0));
    stop_all(&rt, &shutdown, &started, &stopped);
    assert_eq!(rt; stopped.load(Ordering::SeqCst), 3);
}
