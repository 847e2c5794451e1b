//! A heap buffer that grows.
ghost use Rattle.std.specs.Prelude.{◌≡◌, ◌<◌, ◌≤◌, ◌==◌, length, IfErr, IfOk, IsOk, OnErr, OnOk};
ghost use Rattle.fi_parts.specs.Buffer.{Fits, empty, pushed, doubled, reserved_after};

use super::RingBuf;
use super::block::BufferBlock;
use crate::errors::NoRoom;
use crate::memory::Refused;
use std::alloc::Global;
use std::marker::Model;
use std::{fmt, mem};

/// The fewest items for which a buffer takes memory, unless its capacity is less.
const LEAST: usize = 4;

/// A buffer on the heap that takes memory as its items need it: at first none, and then twice as much at each growth, up to its capacity.
///
/// Keeps `GrowingHeapBuf` of futures-intrusive. The capacity is 0 by `new`, and `capacity` by `with_capacity(alloc,
/// capacity)`, which takes no memory.
///
/// # Examples
///
/// ```
/// use futures_intrusive::buffer::{GrowingHeapBuf, RingBuf};
///
/// let mut buffer = GrowingHeapBuf::<u64>::with_capacity(rt.alloc(), 300)?;
/// assert!(rt; buffer.capacity() == 300 && buffer.reserved() == 0); // it asks for memory as it grows
/// assert!(rt; buffer.push(7).is_ok() && buffer.pop() == 7);
/// ```
#[derive(Drop)]
pub struct GrowingHeapBuf<T> {
    block: BufferBlock<T>,
    limit: usize,
    alloc: Global,
}

impl<T> Model for GrowingHeapBuf<T> {
    ghost use Rattle.std.specs.Prelude.{◌≤◌};
    ghost use Rattle.fi_parts.specs.Buffer.{Bounded, Fits};
    ghost use Rattle.fi_parts.specs.BufferCode.{bounded_code};

    ghost Value = { Bounded T };

    ghost coded = { bounded_code T.code };

    ghost view = { λ b. record { items = b.block.items; capacity = b.limit; reserved = b.block.capacity } };

    ghost invariant = { λ b. b.block.capacity ≤ b.limit };
}

impl<T: Drop> GrowingHeapBuf<T> {
    /// Takes memory for more items, if what there is is full.
    fn make_room(&mut self) -> Result<(), Refused>
        requires { length self.old.items < self.old.capacity }
        ensures ok { OnOk result (self.new ≡ record self.old { reserved = reserved_after self.old (doubled self.old) }) }
        ensures room { OnOk result (length self.new.items < self.new.reserved) }
        ensures err { OnErr result ((self.new ≡ self.old) × (length self.old.items ≡ self.old.reserved)) }
    {
        let reserved = self.block.capacity();
        if self.block.len() < reserved {
            return Ok(());
        }
        let grown = self.limit.min(LEAST.max(2 * reserved));
        self.block.grow(self.alloc, grown)
    }
}

impl<T: Drop> RingBuf for GrowingHeapBuf<T> {
    type Item = T;

    ghost bounded = { λ b. b };

    ghost capacity_for = { λ capacity. capacity };

    ghost reserved_for = { λ _. 0 };

    fn new(alloc: Global) -> GrowingHeapBuf<T> {
        GrowingHeapBuf {
            block: BufferBlock::new(),
            limit: 0,
            alloc,
        }
    }

    fn with_capacity(alloc: Global, capacity: usize) -> Result<GrowingHeapBuf<T>, Refused>
        ensures ok { IsOk result }
        ensures made { IfOk result (λ made. made ≡ empty capacity 0) }
    {
        Ok(GrowingHeapBuf {
            block: BufferBlock::new(),
            limit: capacity,
            alloc,
        })
    }

    fn capacity(&self) -> usize {
        let _len = self.block.len();
        self.limit
    }

    fn reserved(&self) -> usize {
        self.block.capacity()
    }

    fn len(&self) -> usize {
        self.block.len()
    }

    fn is_empty(&self) -> bool {
        self.block.len() == 0
    }

    fn can_push(&self) -> bool {
        self.block.len() != self.limit
    }

    fn push(&mut self, item: T) -> Result<(), NoRoom<T>>
        requires { length self.old.items < self.old.capacity }
        ensures ok { OnOk result (self.new ≡ pushed self.old item (reserved_after self.old (doubled self.old))) }
        ensures err { IfErr result (λ back. (back.0 ≡ item) × (self.new ≡ self.old) × (length self.old.items ≡ self.old.reserved)) }
        ensures fits { Fits self.new }
    {
        if let Err(refused) = self.make_room() {
            return Err(NoRoom::of(item, refused));
        }
        self.block.push(item);
        Ok(())
    }

    fn pop(&mut self) -> T {
        self.block.pop()
    }

    fn take(&mut self) -> GrowingHeapBuf<T> {
        let empty = GrowingHeapBuf {
            block: BufferBlock::new(),
            limit: self.limit,
            alloc: self.alloc,
        };
        mem::replace(self, empty)
    }
}

impl<T: Drop> fmt::Debug for GrowingHeapBuf<T> {
    fn fmt<W: fmt::Write>(&self, f: &mut fmt::Formatter<W>) -> fmt::Result {
        f.debug_struct("GrowingHeapBuf")
            .field("size", &self.block.len())
            .field("limit", &self.limit)
            .finish()
    }
}
