//! The beginning of the page on mutex.

ghost use Rattle.futures_intrusive.specs.Blanks.{IsLockBlank};

use futures_intrusive::blocking::Blocking;
use futures_intrusive::sync::Mutex;
use std::marker::Brand;
use std::sync::ledger::{Blank, Ledger};
use std::thread;
use std::thread::Threads;

// `R` is the runtime, which waits for the lock; `L` is the ledger that counts the mutex's guards, and `blank` begins it.
fn add_up<R, L: Ledger + Send + Sync>(rt: R, blank: Blank) -> Option<u64>
where
    R: Blocking + Threads + Copy + Drop + Send + Sync,
    requires blank { IsLockBlank L.Ledger blank }
{
    let sum = Mutex::<u64, R, L>::new(rt.alloc(), rt, blank, 0, true); // a fair one
    let add = |part: u64| {
        if let Ok(mut guard) = sum.lock_blocking() {
            *guard = guard.wrapping_add(part);
        }
    };
    thread::join(&rt, || add(3), || add(4));
    sum.into_inner()
}

#[test]
fn mutex(rt: HostRuntime) {
    assert!(rt; add_up::<HostRuntime, Brand>(rt, Blank::new(1)) == Some(7));
}
