//! The buffers: their order, texts, refusals, and drops.
ghost use Rattle.std.specs.Prelude.{◌≡◌, ◌<◌, ◌≤◌, ◌∷◌, ◌++◌, [], IfErr, IfOk, IfNone, IfSome};
ghost use Rattle.fi_parts.specs.Buffer.{Fits};

use fi_parts::NoRoom;
use fi_parts::buffer::{ArrayBuf, FixedHeapBuf, GrowingHeapBuf, RingBuf};
use std::alloc::Global;
use std::rc::Rc;
use tests_help::texts::shows;

/// Takes the oldest item, if there is one, and then puts the item behind the others: what a full channel does where a send waits.
fn refill<B: RingBuf>(buffer: &mut B, item: B::Item) -> Result<Option<B::Item>, NoRoom<B::Item>>
    requires { 0 < (B.bounded buffer.old).capacity }
    ensures some { IfOk result (λ oldest. IfSome oldest (λ first. first ∷ (B.bounded buffer.new).items
        ≡ (B.bounded buffer.old).items ++ item ∷ [])) }
    ensures none { IfOk result (λ oldest. IfNone oldest (((B.bounded buffer.old).items ≡ [])
        × ((B.bounded buffer.new).items ≡ item ∷ []))) }
    ensures err { IfErr result (λ back. (back.0 ≡ item) × (B.bounded buffer.new ≡ B.bounded buffer.old)
        × ((B.bounded buffer.old).items ≡ []) × ((B.bounded buffer.old).reserved ≡ 0)) }
    ensures capacity { (B.bounded buffer.new).capacity ≡ (B.bounded buffer.old).capacity }
    ensures grows { (B.bounded buffer.old).reserved ≤ (B.bounded buffer.new).reserved }
    ensures fits { Fits (B.bounded buffer.new) }
{
    if buffer.is_empty() {
        buffer.push(item)?;
        return Ok(None);
    }
    let oldest = buffer.pop();
    match buffer.push(item) {
        Ok(()) => Ok(Some(oldest)),
        Err(_back) => unreachable!(),
    }
}

/// Puts the item behind the others, if there is room.
fn is_put<B: RingBuf>(buffer: &mut B, item: B::Item) -> bool {
    buffer.can_push() && buffer.push(item).is_ok()
}

/// Takes the oldest item, if there is one.
fn take<B: RingBuf>(buffer: &mut B) -> Option<B::Item> {
    if buffer.is_empty() {
        return None;
    }
    Some(buffer.pop())
}

/// Puts these items, one after another.
fn puts<B: RingBuf<Item = u32>>(buffer: &mut B, items: &[u32]) -> bool {
    for item in items {
        if !is_put(buffer, *item) {
            return false;
        }
    }
    true
}

/// Takes the items, which are these.
fn takes<B: RingBuf<Item = u32>>(buffer: &mut B, items: &[u32]) -> bool {
    for item in items {
        if take(buffer) != Some(*item) {
            return false;
        }
    }
    true
}

/// Puts these items, and after each one more can be pushed or can't.
fn fills<B: RingBuf<Item = u32>>(buffer: &mut B, rows: &[(u32, bool)]) -> bool {
    for (item, can_push) in rows {
        if !is_put(buffer, *item) || buffer.can_push() != *can_push {
            return false;
        }
    }
    true
}

/// Takes the items, which are these, and leaves so many each time.
fn empties<B: RingBuf<Item = u32>>(buffer: &mut B, rows: &[(u32, usize)]) -> bool {
    for (item, len) in rows {
        if take(buffer) != Some(*item) || buffer.len() != *len {
            return false;
        }
    }
    true
}

/// Runs a buffer of 5 items through more pushes than it has room for.
fn keeps_order<B: RingBuf<Item = u32>>(buffer: &mut B) -> bool {
    buffer.capacity() == 5
        && puts(buffer, &[1, 2, 3])
        && takes(buffer, &[1, 2])
        && buffer.len() == 1
        && takes(buffer, &[3])
        && buffer.is_empty()
        && fills(
            buffer,
            &[(4, true), (5, true), (6, true), (7, true), (8, false)],
        )
        && empties(buffer, &[(4, 4), (5, 3), (6, 2), (7, 1), (8, 0)])
        && take(buffer).is_none()
}

/// A buffer that is made for so many keeps the order.
fn made_keeps_order<B: RingBuf<Item = u32>>(alloc: Global, capacity: usize) -> bool {
    match B::with_capacity(alloc, capacity) {
        Ok(mut buffer) => keeps_order(&mut buffer),
        Err(_refused) => false,
    }
}

#[test]
fn buffer_order_of_each(rt: HostRuntime) {
    let alloc = rt.alloc();
    let is_kept = keeps_order(&mut ArrayBuf::<u32, 5>::new(alloc))
        && made_keeps_order::<ArrayBuf<u32, 5>>(alloc, 9)
        && made_keeps_order::<FixedHeapBuf<u32>>(alloc, 5)
        && made_keeps_order::<GrowingHeapBuf<u32>>(alloc, 5);
    assert!(rt; is_kept);
}

/// Whether an item is put, and then exchanged for another.
fn is_refilled<B: RingBuf<Item = u32>>(buffer: &mut B) -> bool {
    is_put(buffer, 1) && buffer.capacity() > 0 && refill(buffer, 2).ok() == Some(Some(1))
}

#[test]
fn array_buf(rt: HostRuntime) {
    let mut buffer = ArrayBuf::<u32, 3>::new(rt.alloc());
    let is_used = is_refilled(&mut buffer);
    assert!(rt; is_used && shows(rt.alloc(), &buffer, "ArrayBuf { size: 1, cap: 3 }"));
}

#[test]
fn fixed_heap_buf(rt: HostRuntime) {
    let mut buffer = FixedHeapBuf::with_capacity(rt.alloc(), 3).expect(&rt, "memory");
    let is_used = is_refilled(&mut buffer);
    assert!(rt; is_used && shows(rt.alloc(), &buffer, "FixedHeapBuf { size: 1, cap: 3 }"));
}

#[test]
fn growing_heap_buf(rt: HostRuntime) {
    let mut buffer = GrowingHeapBuf::with_capacity(rt.alloc(), 10).expect(&rt, "memory");
    let is_used = is_refilled(&mut buffer);
    assert!(rt; is_used && shows(rt.alloc(), &buffer, "GrowingHeapBuf { size: 1, limit: 10 }"));
}

/// More than any address space has room for.
const TOO_MANY: usize = 1 << 62;

/// Whether a buffer for so many is refused for memory.
fn is_refused<B: RingBuf>(alloc: Global, capacity: usize) -> bool {
    B::with_capacity(alloc, capacity).is_err()
}

#[test]
fn refused_for_memory(rt: HostRuntime) {
    let are_refused = is_refused::<ArrayBuf<u32, TOO_MANY>>(rt.alloc(), 1)
        && is_refused::<FixedHeapBuf<u32>>(rt.alloc(), TOO_MANY);
    assert!(rt; are_refused);
    let mut buffer = ArrayBuf::<u32, TOO_MANY>::new(rt.alloc());
    for _ in 0..2 {
        assert!(rt; buffer.can_push());
        let failed = buffer.push(7).err().expect(&rt, "no memory");
        assert_eq!(rt; (failed.0, buffer.len(), buffer.reserved()), (7, 0, 0));
    }
}

/// Puts so many owners of the item.
fn puts_owners<B: RingBuf<Item = Rc<i32>>>(buffer: &mut B, item: &Rc<i32>, count: u64) -> bool {
    for _ in 0..count {
        let Ok(owner) = item.clone() else {
            return false;
        };
        if !is_put(buffer, owner) {
            return false;
        }
    }
    true
}

/// Takes all items out, which are so many, and drops them.
fn drops_all<B: RingBuf>(buffer: &mut B, count: usize) -> bool {
    buffer.take().len() == count
}

/// A buffer takes three owners of an item that has one, and gives one of them back, and then the others. A fourth goes with the buffer.
fn owns_three<B: RingBuf<Item = Rc<i32>>>(alloc: Global, item: &Rc<i32>) -> bool {
    let Ok(mut buffer) = B::with_capacity(alloc, 3) else {
        return false;
    };
    puts_owners(&mut buffer, item, 3)
        && Rc::strong_count(item) == 4
        && take(&mut buffer).is_some()
        && Rc::strong_count(item) == 3
        && drops_all(&mut buffer, 2)
        && Rc::strong_count(item) == 1
        && puts_owners(&mut buffer, item, 1)
}

#[test]
fn drops_each_item_once(rt: HostRuntime) {
    let item = Rc::new(rt.alloc(), 0).expect(&rt, "memory");
    let are_dropped = owns_three::<ArrayBuf<Rc<i32>, 3>>(rt.alloc(), &item)
        && Rc::strong_count(&item) == 1
        && owns_three::<FixedHeapBuf<Rc<i32>>>(rt.alloc(), &item)
        && Rc::strong_count(&item) == 1
        && owns_three::<GrowingHeapBuf<Rc<i32>>>(rt.alloc(), &item)
        && Rc::strong_count(&item) == 1;
    assert!(rt; are_dropped);
}
