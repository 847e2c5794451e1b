//! A worker that squares numbers.

use crate::runtime::Runtime;
use futures_intrusive::Fault;
use futures_intrusive::channel::shared::{Receiver, Sender};
use futures_intrusive::sync::{Mutex, Semaphore};
use std::sync::ledger::Ledger;

/// Answers jobs until all who send them have gone, and counts them.
pub fn work<R: Runtime, L: Ledger, K: Ledger>(
    rt: &R,
    permits: &Semaphore<R, L>,
    done: &Mutex<u64, R, K>,
    jobs: Receiver<u32, R>,
    answers: Sender<u64, R>,
) -> Result<(), Fault> {
    for _ in rt.forever() {
        let Some(job) = jobs.receive_blocking()? else {
            break;
        };
        let _permit = permits.acquire_blocking(1)?;
        let _ = answers.send_blocking(u64::from(job) * u64::from(job));
        let mut done = done.lock_blocking()?;
        *done = done.wrapping_add(1);
    }
    Ok(())
}
