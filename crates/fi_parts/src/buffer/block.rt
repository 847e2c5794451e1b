//! The memory of a heap buffer: none, or a ring.
ghost use Rattle.std.specs.Prelude.{◌≡◌, ◌<◌, ◌≤◌, ◌^◌, ◌∷◌, ◌++◌, [], length, IfOk, OnErr, OnOk};
ghost use Rattle.circular_buffer.specs.Buffer.{buffer};

use crate::memory::{Refused, resize, ring_for};
use circular_buffer::HeapCircularBuffer;
use std::alloc::Global;
use std::marker::Model;

/// A ring of items, or nothing yet: a ring can be made only where there is memory.
#[derive(Drop)]
pub(crate) struct BufferBlock<T> {
    ring: Option<HeapCircularBuffer<T>>,
}

impl<T> Model for BufferBlock<T> {
    ghost use Rattle.std.specs.Prelude.{◌≤◌, length};
    ghost use Rattle.circular_buffer.specs.Buffer.{Buffer, buffer_code};

    ghost Value = { Buffer T };

    ghost coded = { buffer_code T.code };

    ghost use Rattle.fi_parts.specs.Buffer.{block_of};

    ghost view = { λ b. block_of b.ring };

    ghost invariant = { λ b. length (block_of b.ring).items ≤ (block_of b.ring).capacity };
}

impl<T: Drop> BufferBlock<T> {
    /// Returns a block that holds nothing, and has no memory.
    pub(crate) fn new() -> BufferBlock<T>
        ensures { result ≡ buffer [] 0 }
    {
        BufferBlock { ring: None }
    }

    /// Returns an empty block for `capacity` items.
    pub(crate) fn with_capacity(alloc: Global, capacity: usize) -> Result<BufferBlock<T>, Refused>
        ensures { IfOk result (λ block. block ≡ buffer [] capacity) }
    {
        let ring = ring_for(alloc, capacity)?;
        Ok(BufferBlock { ring: Some(ring) })
    }

    pub(crate) fn len(&self) -> usize
        ensures len { result ≡ length self.now.items }
        ensures within { (length self.now.items ≤ self.now.capacity) × (self.now.capacity < 2 ^ 63) }
    {
        match &self.ring {
            Some(ring) => ring.len(),
            None => 0,
        }
    }

    pub(crate) fn capacity(&self) -> usize
        ensures capacity { result ≡ self.now.capacity }
        ensures within { (length self.now.items ≤ self.now.capacity) × (self.now.capacity < 2 ^ 63) }
    {
        match &self.ring {
            Some(ring) => ring.capacity(),
            None => 0,
        }
    }

    /// Puts the item behind the others.
    pub(crate) fn push(&mut self, item: T)
        requires { length self.old.items < self.old.capacity }
        ensures pushed { self.new ≡ buffer (self.old.items ++ item ∷ []) self.old.capacity }
        ensures within { length self.new.items ≤ self.new.capacity }
    {
        match &mut self.ring {
            Some(ring) => match ring.try_push_back(item) {
                Ok(()) => {}
                // There is room, as `push` requires.
                Err(_item) => unreachable!(),
            },
            // What has room or items has a ring.
            None => unreachable!(),
        }
    }

    /// Takes out the oldest item.
    pub(crate) fn pop(&mut self) -> T
        requires { 0 < length self.old.items }
        ensures item { self.old.items ≡ result ∷ self.new.items }
        ensures capacity { self.new.capacity ≡ self.old.capacity }
        ensures within { length self.new.items ≤ self.new.capacity }
    {
        match &mut self.ring {
            Some(ring) => match ring.pop_front() {
                Some(item) => item,
                // There is an item, as `pop` requires.
                None => unreachable!(),
            },
            // What has room or items has a ring.
            None => unreachable!(),
        }
    }

    /// Moves the items to a ring for `capacity` items, which has to hold them.
    pub(crate) fn grow(&mut self, alloc: Global, capacity: usize) -> Result<(), Refused>
        requires { length self.old.items ≤ capacity }
        ensures ok { OnOk result (self.new ≡ buffer self.old.items capacity) }
        ensures err { OnErr result (self.new ≡ self.old) }
    {
        match &mut self.ring {
            Some(ring) => resize(ring, capacity),
            None => match ring_for(alloc, capacity) {
                Ok(ring) => {
                    self.ring = Some(ring);
                    Ok(())
                }
                Err(refused) => Err(refused),
            },
        }
    }
}
