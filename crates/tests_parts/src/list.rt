//! The worked cases of lists.
ghost use Rattle.std.specs.Prelude.{◌≡◌, ◌∷◌, IfOk};

use fi_parts::{LinkedList, NoRoom, Slot};
use std::alloc::{AllocError, Global};
use std::rc::Rc;

// Claims a slot for the value, and puts it in front.
fn put<T: Drop>(list: &mut LinkedList<T>, value: T) -> Result<Slot, NoRoom<T>>
    ensures { IfOk result (λ slot. list.new.order ≡ slot.0 ∷ list.old.order) }
{
    let slot = list.claim(value)?;
    list.add_front(slot);
    Ok(slot)
}

// The list of 31, 7, 5, which were put in front in this order; and the slots of 31 and 7.
fn three(alloc: Global) -> Result<(LinkedList<u32>, Slot, Slot), NoRoom<u32>> {
    let mut list = LinkedList::new(alloc);
    let oldest = put(&mut list, 31)?;
    let middle = put(&mut list, 7)?;
    put(&mut list, 5)?;
    Ok((list, oldest, middle))
}

fn value(list: &LinkedList<u32>, slot: Slot) -> u32 {
    list.get(slot).copied().unwrap_or(0)
}

// The values under these slots.
fn values(alloc: Global, list: &LinkedList<u32>, slots: &[Slot]) -> Result<Vec<u32>, AllocError> {
    let mut values = Vec::new(alloc);
    for slot in slots {
        values.push(value(list, *slot))?;
    }
    Ok(values)
}

#[test]
fn list_order(rt: HostRuntime) {
    let (mut list, _, _) = three(rt.alloc()).expect(&rt, "room");
    let slots: Vec<Slot> = list.drain().collect(rt.alloc()).expect(&rt, "memory");
    let youngest_first = values(rt.alloc(), &list, &slots).expect(&rt, "memory");
    assert_eq!(rt; youngest_first.as_slice(), [5, 7, 31].as_slice());
}

#[test]
fn list_order_reversed(rt: HostRuntime) {
    let (mut list, _, _) = three(rt.alloc()).expect(&rt, "room");
    let slots: Vec<Slot> = list
        .reverse_drain()
        .collect(rt.alloc())
        .expect(&rt, "memory");
    let oldest_first = values(rt.alloc(), &list, &slots).expect(&rt, "memory");
    assert_eq!(rt; oldest_first.as_slice(), [31, 7, 5].as_slice());
    assert!(rt; list.is_empty());
}

// Whether the values of two, the youngest first, are those that the list gives until it is empty.
fn has_two(list: &mut LinkedList<u32>, youngest: u32, oldest: u32) -> bool {
    let mut left = list.drain();
    let (Some(first), Some(last)) = (left.next(), left.next()) else {
        return false;
    };
    let is_empty = left.next().is_none();
    drop(left);
    is_empty && value(list, first) == youngest && value(list, last) == oldest
}

// Whether the slot can be taken out once, and stays live.
fn is_removed_once(list: &mut LinkedList<u32>, slot: Slot) -> bool {
    let was_removed = list.remove(slot);
    was_removed && !list.remove(slot) && value(list, slot) == 7
}

#[test]
fn list_remove(rt: HostRuntime) {
    let (mut list, oldest, middle) = three(rt.alloc()).expect(&rt, "room");
    let is_removed = is_removed_once(&mut list, middle)
        && list.last_slot() == Some(oldest)
        && has_two(&mut list, 5, 31)
        && value(&list, middle) == 7;
    assert!(rt; is_removed);
}

// Whether both ends are taken out, and the middle is left.
fn loses_its_ends(list: &mut LinkedList<u32>, oldest: Slot) -> bool {
    list.remove_first() != Some(oldest)
        && list.remove_last() == Some(oldest)
        && list.first_slot() == list.last_slot()
}

#[test]
fn list_ends(rt: HostRuntime) {
    let (mut list, oldest, _) = three(rt.alloc()).expect(&rt, "room");
    if let Some(first) = list.peek_first_mut() {
        *first = 6;
    }
    if let Some(last) = list.peek_last_mut() {
        *last = 32;
    }
    let has_ends = list.peek_first().copied() == Some(6) && list.peek_last().copied() == Some(32);
    assert!(rt; has_ends && loses_its_ends(&mut list, oldest));
}

// Whether a drain that is dropped after its first slot leaves the others.
fn drains_one(list: &mut LinkedList<u32>, first: Slot) -> bool {
    let has_one = list.drain().next().is_some();
    has_one && list.first_slot() == Some(first)
}

// Whether a reverse drain that is dropped after its first slot leaves the others.
fn drains_one_in_reverse(list: &mut LinkedList<u32>, last: Slot) -> bool {
    let has_one = list.reverse_drain().next().is_some();
    has_one && list.last_slot() == Some(last)
}

#[test]
fn a_drain_dropped_early_leaves_the_rest(rt: HostRuntime) {
    let (mut list, _, middle) = three(rt.alloc()).expect(&rt, "room");
    assert!(rt; drains_one(&mut list, middle) && drains_one_in_reverse(&mut list, middle));
}

#[test]
fn list_values(rt: HostRuntime) {
    let mut list = LinkedList::new(rt.alloc());
    let slot = list.claim(3).expect(&rt, "room");
    assert_eq!(rt; list.free(slot), 3);
    assert_eq!(rt; list.get(slot).copied(), None);
    assert!(rt; list.get_mut(slot).is_none() && !list.remove(slot));
}

// A list of five live slots under one count of owners; the second and the fourth are linked.
fn five(counted: &Rc<u64>, alloc: Global) -> Option<LinkedList<Rc<u64>>> {
    let mut list = LinkedList::new(alloc);
    for place in 0..5u64 {
        let owner = counted.clone().ok()?;
        let slot = list.claim(owner).ok()?;
        if place % 2 == 1 {
            list.add_front(slot);
        }
    }
    Some(list)
}

// Whether such a list has five owners while it lives.
fn owns_five(counted: &Rc<u64>, alloc: Global) -> bool {
    match five(counted, alloc) {
        Some(list) => !list.is_empty() && Rc::strong_count(counted) == 6,
        None => false,
    }
}

#[test]
fn the_end_of_a_list_drops_each_value_once(rt: HostRuntime) {
    let counted = Rc::new(rt.alloc(), 7u64).expect(&rt, "memory");
    assert!(rt; owns_five(&counted, rt.alloc()) && Rc::strong_count(&counted) == 1);
}
