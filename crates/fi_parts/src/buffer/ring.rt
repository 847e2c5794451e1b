//! A ring of items in a `Vec`.
ghost use Rattle.std.specs.Prelude.{◌≡◌, ◌<◌, ◌≤◌, ◌^◌, ◌∷◌, ◌++◌, [], length, replicate, IfOk};
ghost use Rattle.circular_buffer.specs.Buffer.{buffer};
ghost use Rattle.circular_buffer.specs.Places.{Wraps};

use crate::memory::{Refused, items_for};
use std::alloc::Global;
use std::marker::Model;

/// The items lie in the slots from `start` on, and go on at slot 0 when they reach the end.
#[derive(Drop)]
pub(crate) struct Ring<T> {
    slots: Vec<Option<T>>,
    start: usize,
    count: usize,
}

impl<T> Model for Ring<T> {
    ghost use Rattle.std.specs.Prelude.{length};
    ghost use Rattle.circular_buffer.specs.Buffer.{Buffer, buffer, buffer_code};

    ghost Value = { Buffer T };

    ghost coded = { buffer_code T.code };

    ghost use Rattle.fi_parts.specs.Rings.{ring_items, IsRing};

    ghost view = { λ r. buffer (ring_items r.start r.slots.items) (length r.slots.items) };

    ghost invariant = { λ r. IsRing r.slots.items r.start r.count };
}

impl<T: Drop> Ring<T> {
    /// Returns a ring without slots, which takes no memory.
    pub(crate) fn new(alloc: Global) -> Ring<T>
        ensures { result ≡ buffer [] 0 }
    {
        Ring {
            slots: Vec::new(alloc),
            start: 0,
            count: 0,
        }
    }

    /// Returns an empty ring of `capacity` slots.
    pub(crate) fn with_capacity(alloc: Global, capacity: usize) -> Result<Ring<T>, Refused>
        ensures { IfOk result (λ ring. ring ≡ buffer [] capacity) }
    {
        let slots = empty_slots(alloc, capacity)?;
        Ok(Ring {
            slots,
            start: 0,
            count: 0,
        })
    }

    pub(crate) fn len(&self) -> usize
        ensures len { result ≡ length self.now.items }
        ensures within { length self.now.items ≤ self.now.capacity }
    {
        self.count
    }

    pub(crate) fn capacity(&self) -> usize
        ensures capacity { result ≡ self.now.capacity }
        ensures within { length self.now.items ≤ self.now.capacity }
    {
        self.slots.len()
    }

    /// Puts the item behind the others.
    pub(crate) fn push(&mut self, item: T)
        requires { length self.old.items < self.old.capacity }
        ensures pushed { self.new ≡ buffer (self.old.items ++ item ∷ []) self.old.capacity }
        ensures within { length self.new.items ≤ self.new.capacity }
    {
        let back = slot_behind(self.start, self.count, self.slots.len());
        self.slots[back] = Some(item);
        self.count += 1;
    }

    /// Takes out the oldest item.
    pub(crate) fn pop(&mut self) -> T
        requires { 0 < length self.old.items }
        ensures item { self.old.items ≡ result ∷ self.new.items }
        ensures capacity { self.new.capacity ≡ self.old.capacity }
        ensures within { length self.new.items ≤ self.new.capacity }
    {
        let oldest = self.slots[self.start].take();
        self.start = slot_behind(self.start, 1, self.slots.len());
        self.count -= 1;
        match oldest {
            Some(item) => item,
            // The places from `start` on hold the items.
            None => unreachable!(),
        }
    }
}

/// Returns the slot that lies `offset` behind `start`, round the end of `slots` slots.
fn slot_behind(start: usize, offset: usize, slots: usize) -> usize
    requires { (start < slots) × (offset ≤ slots) × (slots < 2 ^ 63) }
    ensures { Wraps start offset slots result }
{
    let slot = start + offset;
    if slot < slots { slot } else { slot - slots }
}

/// Returns `count` empty slots.
fn empty_slots<T: Drop>(alloc: Global, count: usize) -> Result<Vec<Option<T>>, Refused>
    ensures { IfOk result (λ slots. slots.items ≡ replicate count None) }
{
    let mut slots = items_for(alloc, count)?;
    for made in 0..count {
        slots.push_reserved(None);
    }
    Ok(slots)
}
