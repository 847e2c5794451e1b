//! A pool service: three workers answer jobs, two at a time at most, until no client is left.
ghost use Rattle.futures_intrusive.specs.Blanks.{IsLockBlank, IsPermitBlank};

mod client;
mod worker;

use crate::runtime::Runtime;
use futures_intrusive::Fault;
use futures_intrusive::channel::shared::channel;
use futures_intrusive::sync::{Mutex, Semaphore};
use std::sync::ledger::{Blank, Ledger};
use std::{io, thread};

/// Three workers, and a client, who leaves at last: the sum of the answers.
fn run_all<'a, R: Runtime, L: Ledger + Send + Sync, K: Ledger + Send + Sync>(
    rt: &'a R,
    permits: &'a Semaphore<R, L>,
    done: &'a Mutex<u64, R, K>,
) -> Result<u64, Fault> {
    let (sender, jobs) = channel::<u32, R>(rt.alloc(), *rt, 2)?;
    let (answers, receiver) = channel::<u64, R>(rt.alloc(), *rt, 12)?;
    thread::scope(thread::scope_env(), rt, |scope| {
        for _ in 0..3 {
            if let (Ok(jobs), Ok(answers)) = (jobs.clone(), answers.clone()) {
                let _ = scope.spawn(move || worker::work(rt, permits, done, jobs, answers));
            }
        }
        drop((jobs, answers));
        Ok(client::ask(sender, receiver))
    })
}

/// Serves one client, and prints what was done.
pub fn serve<R: Runtime, L: Ledger + Send + Sync, K: Ledger + Send + Sync>(
    rt: R,
    permits: Blank,
    lock: Blank,
) -> io::Result<()>
    requires permits { IsPermitBlank L.Ledger permits }
    requires lock { IsLockBlank K.Ledger lock }
{
    let permits = Semaphore::<R, L>::new(rt.alloc(), rt, permits, true, 2);
    let done = Mutex::<u64, R, K>::new(rt.alloc(), rt, lock, 0, true);
    let sum = run_all(&rt, &permits, &done)?;
    let done = done.into_inner().unwrap_or(0);
    println!(rt; "pool service: {done} jobs were done; the sum of the answers is {sum}")
}
