//! Semaphores that owners share, refused until there is enough memory.
ghost use Rattle.std.specs.Prelude.{◌≡◌};

use fi_parts::Fault;
use fi_sync::SharedSemaphore;
use std::alloc::AllocGlobal;
use std::marker::Brand;
use std::sync::Wait;
use std::sync::ledger::{Blank, Ledger};
use std::test::Fail;
use tests_driver::refusals::scene::{STEP, STEPS};
use tests_help::hoard::Hoard;

// Whether three permits are free.
fn has_three<R: Wait + Drop, L: Ledger>(semaphore: SharedSemaphore<R, L>) -> bool {
    semaphore.permits() == 3
}

// Whether the making is refused for want of memory; None where it answers otherwise. A clone of what is made takes no more.
fn refuse_making<R: Wait + Copy + Drop + AllocGlobal, L: Ledger>(
    rt: R,
    blank: Blank,
) -> Option<bool>
    requires name { blank.name ≡ L.name }
    requires parts { blank.parts ≡ L.parts }
    requires all { blank.parts ≡ 18446744073709551615 }
{
    match SharedSemaphore::<R, L>::new(rt.alloc(), rt, blank, true, 3) {
        Ok(semaphore) => has_three(semaphore.clone().ok()?).then_some(false),
        Err(Fault::NoMemory { .. }) => Some(true),
        Err(_) => None,
    }
}

#[test]
fn shared_semaphores(rt: HostRuntime) -> Result<(), Fail> {
    let mut hoard = Hoard::new(rt.alloc())?;
    let mut refusals = 0u64;
    for step in 0..STEPS {
        let is_used_up = hoard.leave(STEP * step);
        let made = refuse_making::<HostRuntime, Brand>(rt, Blank::new(u64::MAX));
        hoard.let_go();
        if !is_used_up {
            assert!(rt; !hoard.has_end());
            return Ok(());
        }
        assert!(rt; made.is_some());
        if made == Some(false) {
            break;
        }
        refusals = refusals.wrapping_add(1);
    }
    assert!(rt; 0 < refusals && refusals < 1000, "{refusals} refusals");
    Ok(())
}
