//! Tests of the heap.
use fi_parts::{PairingHeap, Slot};

/// Claims slots for values and puts them into the heap: the last slot.
fn add(heap: &mut PairingHeap<u64>, values: &[u64]) -> Option<Slot> {
    let mut last = None;
    for value in values {
        let slot = heap.claim(*value).ok()?;
        heap.insert(slot);
        last = Some(slot);
    }
    last
}

/// The least value, whose slot is taken out and freed.
fn take_least(heap: &mut PairingHeap<u64>) -> Option<u64> {
    let slot = heap.peek_min()?;
    heap.remove(slot);
    Some(heap.free(slot))
}

/// Takes the values, which are these.
fn takes(heap: &mut PairingHeap<u64>, values: &[u64]) -> bool {
    for value in values {
        if take_least(heap) != Some(*value) {
            return false;
        }
    }
    true
}

/// Takes a slot out, which stays live until it is freed.
fn is_removed(heap: &mut PairingHeap<u64>, slot: Slot, value: u64) -> bool {
    if !heap.contains(slot) {
        return false;
    }
    heap.members_are_live();
    heap.remove(slot);
    let is_left = !heap.contains(slot) && heap.get(slot).copied() == Some(value);
    is_left && heap.free(slot) == value
}

#[test]
fn heap_order(rt: HostRuntime) {
    let mut heap = PairingHeap::new(rt.alloc());
    let four = add(&mut heap, &[3, 1, 4]).expect(&rt, "memory");
    let is_ordered = add(&mut heap, &[1, 5]).is_some()
        && is_removed(&mut heap, four, 4)
        && takes(&mut heap, &[1, 1, 3])
        && !heap.is_empty()
        && takes(&mut heap, &[5])
        && take_least(&mut heap).is_none()
        && heap.is_empty();
    assert!(rt; is_ordered);
}

/// Whether a slot isn't live.
fn is_not_live(heap: &mut PairingHeap<u64>, slot: Slot) -> bool {
    !heap.contains(slot) && heap.get_mut(slot).is_none()
}

#[test]
fn values_are_written_outside(rt: HostRuntime) {
    let mut heap = PairingHeap::new(rt.alloc());
    let other = heap.claim(6).expect(&rt, "no memory");
    heap.insert(other);
    let slot = heap.claim(7).expect(&rt, "no memory");
    if let Some(value) = heap.get_mut(slot) {
        *value = 5;
    }
    assert!(rt; heap.get(slot).copied() == Some(5) && !heap.contains(slot));
    heap.insert(slot);
    assert_eq!(rt; heap.peek_min(), Some(slot));
    assert!(rt; is_not_live(&mut heap, Slot(7)));
}
