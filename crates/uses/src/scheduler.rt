//! Jobs run when their moments have come, whatever the order in which they were announced.

use crate::runtime::Runtime;
use futures_intrusive::Fault;
use futures_intrusive::blocking::wait_for;
use futures_intrusive::channel::Channel;
use futures_intrusive::timer::{MockClock, TimerService};
use std::sync::Arc;
use std::{io, thread};

/// Waits for the job's moment, and reports the job.
fn run<R: Runtime>(
    rt: &R,
    timer: &TimerService<Arc<MockClock>, R>,
    (job, due): (u64, u64),
    done: &Channel<u64, 1, R>,
) -> Result<(), Fault> {
    wait_for(rt, timer.deadline(due)?)??;
    let _ = done.send_blocking(job);
    Ok(())
}

/// Three jobs, each in a thread of its own, and the time, which goes from one moment to the next.
fn run_all<'a, R: Runtime>(
    rt: &'a R,
    clock: &'a MockClock,
    timer: &'a TimerService<Arc<MockClock>, R>,
    done: &'a Channel<u64, 1, R>,
) -> io::Result<()> {
    thread::scope(thread::scope_env(), rt, |scope| {
        for planned in [(1, 50), (2, 20), (3, 30)] {
            let job = move || {
                if run(rt, timer, planned, done).is_err() {
                    done.close();
                }
            };
            let _ = scope.spawn(job);
        }
        for moment in [20u64, 30, 50] {
            clock.set_time(moment);
            timer.check_expirations();
            if let Some(job) = done.receive_blocking()? {
                println!(*rt; "scheduler: job {job} ran at {moment} ms")?;
            }
        }
        Ok(())
    })
}

/// Runs three jobs. The clock is set by hand, so that they do the same each time.
pub fn schedule<R: Runtime>(rt: R) -> io::Result<()> {
    let clock = Arc::new(rt.alloc(), MockClock::new())?;
    let timer = TimerService::new(rt.alloc(), rt, Arc::try_clone(&clock)?);
    let done = Channel::new(rt.alloc(), rt);
    run_all(&rt, &clock, &timer, &done)
}
