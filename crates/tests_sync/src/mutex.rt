//! The mutex taken apart.
ghost use Rattle.fi_sync.specs.Blanks.{IsLockBlank};

use fi_sync::Mutex;
use std::alloc::AllocGlobal;
use std::marker::Brand;
use std::mem::forget;
use std::sync::Wait;
use std::sync::ledger::{Blank, Ledger};

// Its owner needs no lock: the value is changed in place and taken out, unless a guard was forgotten that has it.
fn takes_apart<R, L: Ledger>(rt: R, blank: Blank, is_guard_forgotten: bool) -> Option<u64>
where
    R: Wait + Copy + AllocGlobal + Drop,
    requires blank { IsLockBlank L.Ledger blank }
{
    let mut mutex = Mutex::<u64, R, L>::new(rt.alloc(), rt, blank, 7, true);
    *mutex.get_mut()? = 8;
    let guard = mutex.try_lock()?;
    if *guard != 8 {
        return None;
    }
    if is_guard_forgotten {
        forget(guard);
        return mutex
            .get_mut()
            .is_none()
            .then_some(mutex.into_inner().unwrap_or(0));
    }
    drop(guard);
    mutex.into_inner()
}

#[test]
fn mutex_taken_apart(rt: HostRuntime) {
    let whole = takes_apart::<HostRuntime, Brand>(rt, Blank::new(1), false);
    let lent = takes_apart::<HostRuntime, Brand>(rt, Blank::new(1), true);
    assert!(rt; whole == Some(8) && lent == Some(0));
}
