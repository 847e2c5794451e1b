//! A buffer whose capacity is part of its type.
ghost use Rattle.std.specs.Prelude.{◌≡◌, ◌<◌, ◌≤◌, ◌==◌, length, IfErr, IfOk, OnErr, OnOk};
ghost use Rattle.fi_parts.specs.Buffer.{Fits, empty, pushed, reserved_after};

use super::RingBuf;
use super::ring::Ring;
use crate::errors::NoRoom;
use crate::memory::Refused;
use std::alloc::Global;
use std::marker::Model;
use std::{fmt, mem};

/// A buffer of at most `N` items, with its room in a `Vec` of `N` slots. It takes that memory once: in `with_capacity`,
/// or at the first `push` after `new`.
///
/// Keeps `ArrayBuf` of futures-intrusive, whose room is an array. The capacity is always `N`: `with_capacity` ignores its number.
///
/// # Examples
///
/// ```
/// use futures_intrusive::buffer::{ArrayBuf, RingBuf};
///
/// let mut buffer = ArrayBuf::<u64, 3>::new(rt.alloc());
/// assert!(rt; buffer.capacity() == 3 && buffer.reserved() == 0); // it asks for memory with its first value
/// assert!(rt; buffer.push(7).is_ok() && buffer.reserved() == 3);
/// assert!(rt; buffer.pop() == 7);
/// ```
#[derive(Drop)]
pub struct ArrayBuf<T, const N: usize> {
    ring: Ring<T>,
    alloc: Global,
}

impl<T, const N: usize> Model for ArrayBuf<T, N> {
    ghost use Rattle.std.specs.Prelude.{◌≡◌, ◌≤◌, ◌⊎◌, length};
    ghost use Rattle.fi_parts.specs.Buffer.{Bounded};
    ghost use Rattle.fi_parts.specs.BufferCode.{bounded_code};

    ghost Value = { Bounded T };

    ghost coded = { bounded_code T.code };

    ghost view = { λ b. record { items = b.ring.items; capacity = N; reserved = b.ring.capacity } };

    ghost invariant = { λ b. (length b.ring.items ≤ b.ring.capacity) × ((b.ring.capacity ≡ 0) ⊎ (b.ring.capacity ≡ N)) };
}

impl<T: Drop, const N: usize> ArrayBuf<T, N> {
    /// Takes the memory, if there is none yet.
    fn make_room(&mut self) -> Result<(), Refused>
        requires { length self.old.items < self.old.capacity }
        ensures ok { OnOk result (self.new ≡ record self.old { reserved = reserved_after self.old N }) }
        ensures room { OnOk result (length self.new.items < self.new.reserved) }
        ensures err { OnErr result ((self.new ≡ self.old) × (length self.old.items ≡ self.old.reserved)) }
    {
        if self.ring.len() < self.ring.capacity() {
            return Ok(());
        }
        self.ring = Ring::with_capacity(self.alloc, N)?;
        Ok(())
    }
}

impl<T: Drop, const N: usize> RingBuf for ArrayBuf<T, N> {
    type Item = T;

    ghost bounded = { λ b. b };

    ghost capacity_for = { λ _. N };

    ghost reserved_for = { λ _. N };

    fn new(alloc: Global) -> ArrayBuf<T, N> {
        ArrayBuf {
            ring: Ring::new(alloc),
            alloc,
        }
    }

    fn with_capacity(alloc: Global, _capacity: usize) -> Result<ArrayBuf<T, N>, Refused>
        ensures ok { IfOk result (λ made. made ≡ empty N made.reserved) }
        ensures reserved { IfOk result (λ made. made.reserved ≡ N) }
        ensures fits { IfOk result (λ made. Fits made) }
    {
        let ring = Ring::with_capacity(alloc, N)?;
        Ok(ArrayBuf { ring, alloc })
    }

    fn capacity(&self) -> usize {
        let _reserved = self.ring.capacity();
        N
    }

    fn reserved(&self) -> usize {
        self.ring.capacity()
    }

    fn len(&self) -> usize {
        self.ring.len()
    }

    fn is_empty(&self) -> bool {
        self.ring.len() == 0
    }

    fn can_push(&self) -> bool {
        self.ring.len() != N
    }

    fn push(&mut self, item: T) -> Result<(), NoRoom<T>>
        requires { length self.old.items < self.old.capacity }
        ensures ok { OnOk result (self.new ≡ pushed self.old item self.new.reserved) }
        ensures reserved { OnOk result (self.new.reserved ≡ reserved_after self.old N) }
        ensures err { IfErr result (λ back. (back.0 ≡ item) × (self.new ≡ self.old) × (length self.old.items ≡ self.old.reserved)) }
        ensures grows { self.old.reserved ≤ self.new.reserved }
        ensures stays { length self.old.items < self.old.reserved → self.new.reserved ≡ self.old.reserved }
        ensures fits { Fits self.new }
    {
        if let Err(refused) = self.make_room() {
            return Err(NoRoom::of(item, refused));
        }
        self.ring.push(item);
        Ok(())
    }

    fn pop(&mut self) -> T {
        self.ring.pop()
    }

    fn take(&mut self) -> ArrayBuf<T, N> {
        let empty = ArrayBuf::new(self.alloc);
        mem::replace(self, empty)
    }
}

impl<T: Drop, const N: usize> fmt::Debug for ArrayBuf<T, N> {
    fn fmt<W: fmt::Write>(&self, f: &mut fmt::Formatter<W>) -> fmt::Result {
        f.debug_struct("ArrayBuf")
            .field("size", &self.ring.len())
            .field("cap", &N)
            .finish()
    }
}
