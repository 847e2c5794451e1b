//! A rate limiter: two requests in each period of ten milliseconds. A request uses up a permit, and a timer gives the next two.
ghost use Rattle.futures_intrusive.specs.Blanks.{IsPermitBlank};

use crate::runtime::Runtime;
use futures_intrusive::Fault;
use futures_intrusive::blocking::wait_for;
use futures_intrusive::sync::Semaphore;
use futures_intrusive::timer::{MockClock, TimerService};
use std::sync::Arc;
use std::sync::ledger::{Blank, Ledger};
use std::{io, thread};

/// A timer whose clock is set by hand, so that the program does the same each time.
type Timer<R> = TimerService<Arc<MockClock>, R>;

/// Gives two permits at the end of each period.
fn refill<R: Runtime, L: Ledger>(
    rt: &R,
    timer: &Timer<R>,
    permits: &Semaphore<R, L>,
) -> Result<(), Fault> {
    for end in [10, 20] {
        wait_for(rt, timer.deadline(end)?)??;
        permits.release(2)?;
    }
    Ok(())
}

/// Makes requests for as long as there are permits, and counts them; then the period ends.
fn request<R: Runtime, L: Ledger>(
    rt: &R,
    clock: &MockClock,
    timer: &Timer<R>,
    permits: &Semaphore<R, L>,
) -> io::Result<()> {
    for end in [10, 20, 30] {
        permits.acquire_blocking(1)?.disarm();
        permits.acquire_blocking(1)?.disarm();
        let is_served = permits.try_acquire(1).is_some();
        println!(rt; "limiter: before {end} ms two requests were served, a third: {is_served}")?;
        clock.set_time(end);
        timer.check_expirations();
    }
    Ok(())
}

/// A client, and who refills.
pub fn limit<R: Runtime, L: Ledger + Send + Sync>(rt: R, blank: Blank) -> io::Result<()>
    requires blank { IsPermitBlank L.Ledger blank }
{
    let clock = Arc::new(rt.alloc(), MockClock::new())?;
    let timer = TimerService::new(rt.alloc(), rt, Arc::try_clone(&clock)?);
    let permits = Semaphore::<R, L>::new(rt.alloc(), rt, blank, true, 2);
    let refills = || refill(&rt, &timer, &permits);
    let requests = || request(&rt, &clock, &timer, &permits);
    let (refilled, requested) = thread::join(&rt, refills, requests);
    refilled?;
    requested
}
