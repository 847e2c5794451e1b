//! A pool of connections as a database client has it: who waits too long gives up, a broken connection is replaced, and who waits when the
//! pool is closed is told so.
ghost use Rattle.futures_intrusive.specs.Blanks.{IsPermitBlank};

use crate::runtime::Runtime;
use futures_intrusive::Fault;
use futures_intrusive::sync::{Semaphore, SemaphoreReleaser};
use futures_intrusive::timer::{StdClock, TimerService};
use std::sync::ledger::{Blank, Ledger};
use std::time::Duration;
use std::{io, thread};

/// Permits for two connections. A connection is its permit.
#[derive(Drop)]
struct Pool<'a, R, L: Ledger> {
    permits: &'a Semaphore<R, L>,
    timer: &'a TimerService<StdClock<R>, R>,
}

impl<'a, R: Runtime, L: Ledger> Pool<'a, R, L> {
    /// Takes a connection, and waits for one so long at most. Who gives up leaves the queue, so the next is not kept waiting.
    fn acquire(&self, limit: Duration) -> Result<Option<SemaphoreReleaser<'a, R, L>>, Fault> {
        let mut acquire = self.permits.acquire(1)?;
        match self.timer.wait_at_most(limit, &mut acquire)? {
            Some(permit) => Ok(Some(permit?)),
            None => Ok(None),
        }
    }
}

/// What is said of an acquire.
fn told<C: Drop>(acquired: Result<Option<C>, Fault>) -> &'static str {
    match acquired {
        Ok(Some(_connection)) => "has a connection",
        Ok(None) => "gave up",
        Err(Fault::Closed) => "found the pool closed",
        Err(_) => "had no memory",
    }
}

/// Three requests: the third gives up, since two connections are in use.
fn ask_for_three<R: Runtime, L: Ledger>(rt: &R, pool: &Pool<R, L>) -> io::Result<()> {
    let first = pool.acquire(Duration::from_secs(60));
    let second = pool.acquire(Duration::from_secs(60));
    let third = told(pool.acquire(Duration::from_millis(1)));
    println!(*rt; "database: two connections are in use; the third request {third}")?;
    // The first connection is broken: its permit is used up, until there is another connection.
    if let Ok(Some(mut permit)) = first {
        permit.disarm();
    }
    drop(second);
    println!(*rt; "database: one is broken; free: {}", pool.permits.permits())?;
    pool.permits.release(1)?;
    println!(*rt;
        "database: it was replaced; free: {}",
        pool.permits.permits()
    )
}

/// Both connections are in use and another request waits, when the pool is closed.
fn close_while_one_waits<R: Runtime, L: Ledger + Send + Sync>(
    rt: &R,
    pool: &Pool<R, L>,
) -> io::Result<()> {
    let _both = pool.permits.acquire_blocking(2)?;
    let wait = || told(pool.acquire(Duration::from_secs(60)));
    let close = || pool.permits.close();
    let (waited, _) = thread::join(rt, wait, close);
    println!(*rt; "database: the request that waited {waited}")
}

/// A client of a pool of two connections.
pub fn connect<R: Runtime, L: Ledger + Send + Sync>(rt: R, blank: Blank) -> io::Result<()>
    requires blank { IsPermitBlank L.Ledger blank }
{
    let permits = Semaphore::<R, L>::new(rt.alloc(), rt, blank, true, 2);
    let timer = TimerService::new(rt.alloc(), rt, StdClock::new(rt)?);
    timer.while_running(&rt, |timer| {
        let pool = Pool {
            permits: &permits,
            timer,
        };
        ask_for_three(&rt, &pool)?;
        close_while_one_waits(&rt, &pool)
    })?
}
