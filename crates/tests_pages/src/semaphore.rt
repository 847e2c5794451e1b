//! The beginning of the page on semaphore.

ghost use Rattle.futures_intrusive.specs.Blanks.{IsPermitBlank};

use futures_intrusive::blocking::Blocking;
use futures_intrusive::sync::Semaphore;
use std::marker::Brand;
use std::sync::ledger::{Blank, Ledger};

// `R` is the runtime, which waits for the lock; `L` is the ledger that counts the permits held, and `blank` begins it.
fn connect<R: Blocking + Copy, L: Ledger>(rt: R, blank: Blank) -> bool
where
    requires blank { IsPermitBlank L.Ledger blank }
{
    let connections = Semaphore::<R, L>::new(rt.alloc(), rt, blank, true, 2); // fair, at most two at a time
    let Ok(permit) = connections.acquire_blocking(2) else {
        return false;
    };
    let are_all_taken = connections.try_acquire(1).is_none();
    drop(permit); // gives them back, and wakes who waits for them
    are_all_taken && connections.permits() == 2
}

#[test]
fn semaphore(rt: HostRuntime) {
    assert!(rt; connect::<HostRuntime, Brand>(rt, Blank::new(u64::MAX)));
}
