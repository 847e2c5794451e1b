//! A heap buffer that takes all its memory at first.
ghost use Rattle.std.specs.Prelude.{◌≡◌, ◌<◌, ◌≤◌, ◌==◌, length, IfErr, IfOk, OnErr, OnOk};
ghost use Rattle.fi_parts.specs.Buffer.{Fits, empty, pushed, reserved_after};

use super::RingBuf;
use super::block::BufferBlock;
use crate::errors::NoRoom;
use crate::memory::Refused;
use std::alloc::Global;
use std::marker::Model;
use std::{fmt, mem};

/// A buffer on the heap, whose memory is taken when it is made: what it reserves is its capacity, and so no `push` is refused.
/// (Only where `take` took that memory away does the next `push` ask for it anew.)
///
/// Keeps `FixedHeapBuf` of futures-intrusive. The capacity is 0 by `new`, and `capacity` by `with_capacity(alloc, capacity)`.
///
/// # Examples
///
/// ```
/// use futures_intrusive::buffer::{FixedHeapBuf, RingBuf};
///
/// let mut buffer = FixedHeapBuf::<u64>::with_capacity(rt.alloc(), 1)?;
/// assert!(rt; buffer.push(7).is_ok() && !buffer.can_push());
/// assert!(rt; buffer.pop() == 7 && buffer.is_empty());
/// ```
#[derive(Drop)]
pub struct FixedHeapBuf<T> {
    block: BufferBlock<T>,
    capacity: usize,
    alloc: Global,
}

impl<T> Model for FixedHeapBuf<T> {
    ghost use Rattle.std.specs.Prelude.{◌≡◌, ◌⊎◌};
    ghost use Rattle.fi_parts.specs.Buffer.{Bounded};
    ghost use Rattle.fi_parts.specs.BufferCode.{bounded_code};

    ghost Value = { Bounded T };

    ghost coded = { bounded_code T.code };

    ghost view = { λ b. record { items = b.block.items; capacity = b.capacity; reserved = b.block.capacity } };

    ghost invariant = { λ b. (b.block.capacity ≡ 0) ⊎ (b.block.capacity ≡ b.capacity) };
}

impl<T: Drop> FixedHeapBuf<T> {
    /// Takes the memory, if there is none.
    fn make_room(&mut self) -> Result<(), Refused>
        requires { length self.old.items < self.old.capacity }
        ensures ok { OnOk result (self.new ≡ record self.old { reserved = reserved_after self.old self.old.capacity }) }
        ensures room { OnOk result (length self.new.items < self.new.reserved) }
        ensures err { OnErr result ((self.new ≡ self.old) × (length self.old.items ≡ self.old.reserved)) }
    {
        if self.block.len() < self.block.capacity() {
            return Ok(());
        }
        self.block.grow(self.alloc, self.capacity)
    }
}

impl<T: Drop> RingBuf for FixedHeapBuf<T> {
    type Item = T;

    ghost bounded = { λ b. b };

    ghost capacity_for = { λ capacity. capacity };

    ghost reserved_for = { λ capacity. capacity };

    fn new(alloc: Global) -> FixedHeapBuf<T> {
        FixedHeapBuf {
            block: BufferBlock::new(),
            capacity: 0,
            alloc,
        }
    }

    fn with_capacity(alloc: Global, capacity: usize) -> Result<FixedHeapBuf<T>, Refused>
        ensures ok { IfOk result (λ made. made ≡ empty capacity capacity) }
    {
        let block = BufferBlock::with_capacity(alloc, capacity)?;
        Ok(FixedHeapBuf {
            block,
            capacity,
            alloc,
        })
    }

    fn capacity(&self) -> usize {
        let _len = self.block.len();
        self.capacity
    }

    fn reserved(&self) -> usize {
        self.block.capacity()
    }

    fn len(&self) -> usize {
        self.block.len()
    }

    fn is_empty(&self) -> bool {
        self.block.len() == 0
    }

    fn can_push(&self) -> bool {
        self.block.len() != self.capacity
    }

    fn push(&mut self, item: T) -> Result<(), NoRoom<T>>
        requires { length self.old.items < self.old.capacity }
        ensures ok { OnOk result (self.new ≡ pushed self.old item (reserved_after self.old self.old.capacity)) }
        ensures err { IfErr result (λ back. (back.0 ≡ item) × (self.new ≡ self.old) × (length self.old.items ≡ self.old.reserved)) }
        ensures fits { Fits self.new }
    {
        if let Err(refused) = self.make_room() {
            return Err(NoRoom::of(item, refused));
        }
        self.block.push(item);
        Ok(())
    }

    fn pop(&mut self) -> T {
        self.block.pop()
    }

    fn take(&mut self) -> FixedHeapBuf<T> {
        let empty = FixedHeapBuf {
            block: BufferBlock::new(),
            capacity: self.capacity,
            alloc: self.alloc,
        };
        mem::replace(self, empty)
    }
}

impl<T: Drop> fmt::Debug for FixedHeapBuf<T> {
    fn fmt<W: fmt::Write>(&self, f: &mut fmt::Formatter<W>) -> fmt::Result {
        f.debug_struct("FixedHeapBuf")
            .field("size", &self.block.len())
            .field("cap", &self.capacity)
            .finish()
    }
}
