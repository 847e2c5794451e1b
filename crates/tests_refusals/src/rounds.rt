//! A store of futures that has held ten thousand takes no memory for as many again.

use fi_channels::EventState;
use fi_parts::Slot;
use std::alloc::{AllocError, Global};
use std::test::Fail;
use tests_help::hoard::Hoard;

/// So many waits live at once.
const WAITS: u64 = 10_000;

// Makes the waits. Whether none is refused.
fn are_made(event: &mut EventState<u64>, slots: &mut Vec<Slot>) -> bool {
    for _ in 0..WAITS {
        let Ok(slot) = event.claim() else {
            return false;
        };
        if slots.push(slot).is_err() {
            return false;
        }
    }
    true
}

// Cancels each second wait, and then the others.
fn cancel(event: &mut EventState<u64>, slots: &mut Vec<Slot>) {
    for slot in slots.iter().step_by(2) {
        event.leave(*slot);
    }
    for slot in slots.iter().skip(1).step_by(2) {
        event.leave(*slot);
    }
    slots.clear();
}

// Whether the waits of several rounds are made with no memory left, once as many have been made and cancelled. Whether none was left, too.
fn rounds(alloc: Global, hoard: &mut Hoard) -> Result<(bool, bool), AllocError> {
    let mut event = EventState::<u64>::new(alloc, false);
    let mut slots = Vec::with_capacity(alloc, WAITS as usize)?;
    let mut is_right = are_made(&mut event, &mut slots);
    let is_used_up = hoard.leave(0);
    for _ in 0..3 {
        cancel(&mut event, &mut slots);
        is_right = are_made(&mut event, &mut slots) && is_right;
    }
    hoard.let_go();
    Ok((is_right, is_used_up))
}

#[test]
fn a_kept_store_takes_no_more_memory(rt: HostRuntime) -> Result<(), Fail> {
    let mut hoard = Hoard::new(rt.alloc())?;
    let (is_right, is_used_up) = rounds(rt.alloc(), &mut hoard)?;
    assert!(rt; is_right && is_used_up == hoard.has_end());
    Ok(())
}
