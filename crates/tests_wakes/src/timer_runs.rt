//! A thread that runs a timer.

use fi_parts::{Clock, Fault, StdClock};
use fi_sync::{Blocking, ManualResetEvent, TimerFuture, TimerService, wait_for};
use futures::test::MockTask;
use std::sync::atomic::{AtomicU64, Ordering};
use std::thread::Threads;
use std::time::Duration;
use std::{thread, time};

// The system's clock, which counts its readings: one for each poll of a future, two for one that has to wait and has no waker, and one for
// each check.
#[derive(Drop)]
struct Counted<'a, R> {
    clock: &'a StdClock<R>,
    readings: &'a AtomicU64,
}

impl<R: time::Clock> Clock for Counted<'_, R> {
    fn now(&self) -> u64 {
        self.readings.fetch_add(1, Ordering::SeqCst);
        self.clock.now()
    }
}

// Waits for so many moments, each so many milliseconds after the one before: how many of them had come when it was woken.
fn wait_often<R: Blocking + time::Clock>(
    rt: &R,
    timer: &TimerService<Counted<'_, R>, R>,
    clock: &StdClock<R>,
    times: u64,
    millis: u64,
) -> u64 {
    let mut reached = 0u64;
    for _ in 0..times {
        let expiry = clock.now().saturating_add(millis);
        let Ok(wait) = timer.deadline(expiry) else {
            return reached;
        };
        if matches!(wait_for(rt, wait), Ok(Ok(()))) && clock.now() >= expiry {
            reached = reached.wrapping_add(1);
        }
    }
    reached
}

// Three threads wait for a thousand moments together, while this one runs the timer.
fn wait_by_three<'a, 'b, R>(
    rt: &'a R,
    timer: &'a TimerService<Counted<'b, R>, R>,
    clock: &'a StdClock<R>,
    is_over: &'a ManualResetEvent<R>,
    reached: &'a AtomicU64,
)
where
    R: Blocking + Threads + time::Clock + Send + Sync,
{
    let left = &AtomicU64::new(3);
    thread::scope(thread::scope_env(), rt, |scope| {
        for (times, millis) in [(400u64, 1u64), (350, 2), (250, 3)] {
            let _ = scope.spawn(move || {
                let in_time = wait_often(rt, timer, clock, times, millis);
                reached.fetch_add(in_time, Ordering::SeqCst);
                if left.fetch_sub(1, Ordering::SeqCst) == 1 {
                    is_over.set();
                }
            });
        }
        let _ = timer.run(is_over);
    });
}

// Whether each of a thousand is woken at its moment or later, none is lost, and the timer's thread sleeps in between.
fn runs<R>(rt: R) -> Option<bool>
where
    R: Blocking + Threads + time::Clock + Drop + Copy + Send + Sync,
{
    let clock = &StdClock::new(rt).ok()?;
    let (readings, reached) = (&AtomicU64::new(0), &AtomicU64::new(0));
    let timer = TimerService::new(rt.alloc(), rt, Counted { clock, readings });
    let is_over = ManualResetEvent::new(rt.alloc(), rt, false);
    wait_by_three(&rt, &timer, clock, &is_over, reached);
    let are_right = reached.load(Ordering::SeqCst) == 1000 && timer.next_expiration().is_none();
    Some(are_right && readings.load(Ordering::SeqCst) < 10_000)
}

#[test]
fn timer_runs(rt: HostRuntime) {
    assert!(rt; runs(rt) == Some(true));
}

// Polls a wait for this moment once. None if it is ready, or can't be made.
fn begins<'a, 'b, R: Blocking + time::Clock>(
    timer: &'a TimerService<Counted<'b, R>, R>,
    task: &MockTask,
    moment: u64,
) -> Option<TimerFuture<'a, Counted<'b, R>, R>> {
    let mut wait = timer.deadline(moment).ok()?;
    if task.poll(&mut wait).is_ready() {
        return None;
    }
    Some(wait)
}

// Whether the task is woken in the end. It looks a bounded number of times.
fn is_woken_soon(task: &MockTask) -> bool {
    for _ in 0..10_000_000u32 {
        if task.is_woken() {
            return true;
        }
        thread::yield_now();
    }
    false
}

// What may be called before a wait begins, and changes nothing of when the runner is roused.
fn calls_before<R: Blocking + time::Clock>(timer: &TimerService<Counted<'_, R>, R>) -> bool {
    timer.check_expirations();
    let delay = timer.delay(Duration::from_millis(8_000));
    timer.next_expiration().is_none() && delay.is_ok()
}

// Begins a wait of eight milliseconds, and looks until it is woken: its moment, and whether it is sure that it roused the runner.
//
// The runner told the last wait at its moment or later, and then sleeps for ten milliseconds, unless it is roused. So a wait that
// begins within these and ends with them is told by the first check, if it did not rouse the runner, and else by the second.
fn next_wait<R: Blocking + time::Clock>(
    timer: &TimerService<Counted<'_, R>, R>,
    clock: &StdClock<R>,
    readings: &AtomicU64,
    task: &MockTask,
    of_a_poll: u64,
    last: u64,
) -> Option<(u64, bool)> {
    if !calls_before(timer) {
        return None;
    }
    let moment = clock.now().saturating_add(8);
    let before = readings.load(Ordering::SeqCst);
    let _wait = begins(timer, task, moment)?;
    let is_prompt = moment.max(clock.now()) < last.saturating_add(10);
    if !is_woken_soon(task) {
        return None;
    }
    let all = readings.load(Ordering::SeqCst).wrapping_sub(before);
    Some((moment, is_prompt && all.saturating_sub(of_a_poll) >= 2))
}

// Whether five waits of at most five hundred surely roused the runner.
fn rouse_often<R: Blocking + time::Clock>(
    timer: &TimerService<Counted<'_, R>, R>,
    clock: &StdClock<R>,
    readings: &AtomicU64,
    task: &MockTask,
    of_a_poll: u64,
) -> bool {
    let (mut last, mut roused) = (0u64, 0u64);
    for _ in 0..500u32 {
        let next = next_wait(timer, clock, readings, task, of_a_poll, last);
        let Some((moment, is_roused)) = next else {
            return false;
        };
        last = moment;
        roused = roused.wrapping_add(u64::from(is_roused));
        if roused >= 5 {
            return true;
        }
    }
    false
}

// How often a poll that waits reads the clock.
fn readings_of_a_poll<R: Blocking + time::Clock>(
    timer: &TimerService<Counted<'_, R>, R>,
    readings: &AtomicU64,
    task: &MockTask,
) -> Option<u64> {
    let before = readings.load(Ordering::SeqCst);
    let _wait = begins(timer, task, u64::MAX)?;
    Some(readings.load(Ordering::SeqCst).wrapping_sub(before))
}

// A thread runs the timer, while this one waits for one moment after the other.
fn waits_beside_a_runner<'a, 'b, R>(
    rt: &'a R,
    timer: &'a TimerService<Counted<'b, R>, R>,
    clock: &'a StdClock<R>,
    readings: &'a AtomicU64,
    is_over: &'a ManualResetEvent<R>,
    task: &'a MockTask,
) -> bool
where
    R: Blocking + Threads + time::Clock + Send + Sync,
{
    let Some(of_a_poll) = readings_of_a_poll(timer, readings, task) else {
        return false;
    };
    let waits = move || {
        let are_roused = rouse_often(timer, clock, readings, task, of_a_poll);
        is_over.set();
        are_roused
    };
    let (are_roused, ran) = thread::join(rt, waits, move || timer.run(is_over).is_ok());
    are_roused && ran
}

fn rouses<R>(rt: R) -> Option<bool>
where
    R: Blocking + Threads + time::Clock + Drop + Copy + Send + Sync,
{
    let clock = &StdClock::new(rt).ok()?;
    let task = MockTask::new(&rt).ok()?;
    let readings = &AtomicU64::new(0);
    let timer = TimerService::new(rt.alloc(), rt, Counted { clock, readings });
    let is_over = ManualResetEvent::new(rt.alloc(), rt, false);
    Some(waits_beside_a_runner(&rt, &timer, clock, readings, &is_over, &task))
}

// A future that comes to wait for a moment before the runner's next check rouses the runner, whatever was called before.
#[test]
fn an_earlier_moment_rouses_the_runner(rt: HostRuntime) {
    assert!(rt; rouses(rt) == Some(true));
}

// A call that waits three times is made beside a thread that runs the timer, and one that gives up ends that thread too.
fn runs_beside_calls<R>(rt: R) -> Option<bool>
where
    R: Blocking + Threads + time::Clock + Drop + Copy + Send + Sync,
{
    let clock = &StdClock::new(rt).ok()?;
    let readings = &AtomicU64::new(0);
    let timer = TimerService::new(rt.alloc(), rt, Counted { clock, readings });
    let reached = timer.while_running(&rt, |timer| wait_often(&rt, timer, clock, 3, 5));
    let gave_up = timer.while_running(&rt, |_timer| -> Result<u64, Fault> { Err(Fault::NotHeld) });
    Some(reached == Ok(3) && gave_up == Ok(Err(Fault::NotHeld)))
}

#[test]
fn timer_runs_while_a_call_is_made(rt: HostRuntime) {
    assert!(rt; runs_beside_calls(rt) == Some(true));
}

// A thread that stops running the timer answers the least expiry that it leaves behind.
fn leaves_behind<R>(rt: R) -> Option<bool>
where
    R: Blocking + time::Clock + Drop + Copy,
{
    let clock = &StdClock::new(rt).ok()?;
    let task = MockTask::new(&rt).ok()?;
    let readings = &AtomicU64::new(0);
    let timer = TimerService::new(rt.alloc(), rt, Counted { clock, readings });
    let is_over = ManualResetEvent::new(rt.alloc(), rt, true);
    let leaves_none = timer.run(&is_over) == Ok(None);
    let moment = 1 << 40;
    let _wait = begins(&timer, &task, moment)?;
    Some(leaves_none && timer.run(&is_over) == Ok(Some(moment)))
}

#[test]
fn run_answers_who_still_waits(rt: HostRuntime) {
    assert!(rt; leaves_behind(rt) == Some(true));
}
