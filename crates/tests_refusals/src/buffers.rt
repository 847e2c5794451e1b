//! Buffers whose room is refused.
use fi_parts::buffer::{ArrayBuf, FixedHeapBuf, GrowingHeapBuf, RingBuf};
use std::alloc::Global;
use std::test::Fail;
use tests_driver::refusals::scene::{STEP, STEPS, Tried};
use tests_help::hoard::Hoard;

// How many tries are refused the buffer's room before one is not.
fn refusals<B: RingBuf<Item = u64>>(alloc: Global, hoard: &mut Hoard, capacity: usize) -> Tried {
    let mut refusals = 0u64;
    for step in 0..STEPS {
        let is_used_up = hoard.leave(STEP * step);
        let made = B::with_capacity(alloc, capacity);
        hoard.let_go();
        if !is_used_up {
            return Tried::unused(hoard, refusals);
        }
        match made {
            Ok(buffer) if buffer.is_empty() => return Tried::Refused(refusals),
            Err(_refused) => refusals = refusals.wrapping_add(1),
            _ => break,
        }
    }
    Tried::Differs(refusals)
}

#[test]
fn buffers_are_refused(rt: HostRuntime) -> Result<(), Fail> {
    let mut hoard = Hoard::new(rt.alloc())?;
    let array = refusals::<ArrayBuf<u64, 40>>(rt.alloc(), &mut hoard, 0);
    assert!(rt; array.is_right(1), "{array:?}");
    let fixed = refusals::<FixedHeapBuf<u64>>(rt.alloc(), &mut hoard, 40);
    assert!(rt; fixed.is_right(1), "{fixed:?}");
    let growing = refusals::<GrowingHeapBuf<u64>>(rt.alloc(), &mut hoard, 40);
    assert!(rt;
        growing.is_right(0),
        "{growing:?}: it takes its room as it grows"
    );
    Ok(())
}
