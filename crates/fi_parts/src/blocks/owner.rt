//! The blocks, in chunks of memory. A freed block's place is kept for the next one, and a chunk until the owner ends.
ghost use Rattle.std.specs.Prelude.{◌≡◌, ◌∷◌, ◌++◌, ◌+◌, ◌^◌, ◌<◌, ◌≤◌, List, [], None, Some, length, map as each};
ghost use Rattle.std.specs.Prelude.{IsSome, IfOk, IfErr, OnOk, OnErr};
ghost use Rattle.std.specs.Borrow.{sem};
ghost use Rattle.std.specs.Vec.{vec_len, vec_capacity};
ghost use Rattle.std.specs.Vec.Ownership.{FitsInBlock};
ghost use denote.RawPtr.{Ptr, InBlock};
ghost use Rattle.fi_parts.specs.declared.blocks.block.BlockPtr.{BlockPtr};
ghost use Rattle.fi_parts.specs.Placed.{at_ptr, without_at, IsAddress};
ghost use Rattle.fi_parts.specs.BlockOwner.{times, block_places, block_row};
ghost use Rattle.fi_parts.specs.Chunks.{chunk_len, places_in, pointed, IsKept};
ghost use Rattle.fi_parts.specs.CountedBlocks.{loose_block};

use crate::blocks::block::{Block, BlockPtr, Links};
use crate::blocks::chunk::Chunk;
use crate::blocks::places::BlockPlaces;
use crate::errors::NoRoom;
use crate::memory::{Refused, reserve, take_chunk};
use std::alloc::Global;
use std::marker::Model;

/// The blocks of the chunks. First in `stack` are the pointers to the chunks, and then those to vacant places.
pub struct BlockOwner<T> {
    places: BlockPlaces<T>,
    stack: Vec<BlockPtr<T>>,
    chunks: usize,
    alloc: Global,
}

impl<T> Model for BlockOwner<T> {
    ghost use Rattle.fi_parts.specs.OwnedBlocks.{OwnedBlocks, owned_code};

    ghost Value = { OwnedBlocks T };

    ghost coded = { owned_code T.code };

    ghost use Rattle.fi_parts.specs.Chunks.{IsKept};
    ghost use Rattle.std.specs.Vec.{vec_capacity};

    ghost view = { λ o. record { blocks = o.places.blocks } };

    ghost invariant = { λ o. IsKept o.places o.stack.items (vec_capacity o.stack) o.chunks };
}

/// How many places the chunk of this number has.
fn chunk_len(chunk: usize) -> usize
    ensures { result ≡ chunk_len chunk }
{
    match chunk {
        0 => 4,
        1 => 16,
        2 => 64,
        _ => 256,
    }
}

/// How many places the chunks before the one of this number have.
fn places_in(chunk: usize) -> usize
    requires { places_in chunk < 2 ^ 64 }
    ensures { result ≡ places_in chunk }
{
    match chunk {
        0 => 0,
        1 => 4,
        2 => 20,
        _ => 84 + (chunk - 3) * 256,
    }
}

/// Puts the pointers to the places of a chunk on the stack, the first one last.
fn push_places<T>(stack: &mut Vec<BlockPtr<T>>, first: BlockPtr<T>, len: usize)
    requires place { InBlock first.ptr }
    requires room { vec_len stack.old + len ≤ vec_capacity stack.old }
    requires fits { FitsInBlock (block_row T.row) len }
    ensures count { vec_len stack.new ≡ vec_len stack.old + len }
    ensures capacity { vec_capacity stack.new ≡ vec_capacity stack.old }
    ensures pushed { (vs : List (BlockPtr T)) × (stack.new.items ≡ stack.old.items ++ vs)
        × ((p : Ptr) → times p (each pointed vs) ≡ times p (block_places T.row first.ptr len)) }
{
    let mut left = len;
    while left > 0 {
        left -= 1;
        stack.push_reserved(first.further(left));
    }
}

/// Takes a chunk's memory. The stack's room for the pointers to all places is made here, so that `take` takes no memory. Where there
/// is none no place changes.
fn grow<T>(
    places: &mut BlockPlaces<T>,
    stack: &mut Vec<BlockPtr<T>>,
    chunks: &mut usize,
    alloc: &Global,
) -> Result<(), Refused>
    requires kept { IsKept places.old stack.old.items (vec_capacity stack.old) chunks.old }
    requires none { length stack.old.items ≡ chunks.old }
    ensures kept { IsKept places.new stack.new.items (vec_capacity stack.new) chunks.new }
    ensures blocks { places.new.blocks ≡ places.old.blocks }
    ensures vacant { OnOk result (chunks.new < length stack.new.items) }
{
    let len = chunk_len(*chunks);
    reserve(stack, places_in(*chunks) + len + 1)?;
    let chunk = take_chunk::<Block<T>>(alloc, len)?;
    let first = places.add(chunk);
    stack.push_reserved(first);
    *chunks += 1;
    push_places(stack, first, len);
    Ok(())
}

/// Takes a chunk's memory, as `grow`, where no place is vacant. Else nothing changes.
#[inline(always)]
fn make_room<T>(
    places: &mut BlockPlaces<T>,
    stack: &mut Vec<BlockPtr<T>>,
    chunks: &mut usize,
    alloc: &Global,
) -> Result<(), Refused>
    requires { IsKept places.old stack.old.items (vec_capacity stack.old) chunks.old }
    ensures kept { IsKept places.new stack.new.items (vec_capacity stack.new) chunks.new }
    ensures blocks { places.new.blocks ≡ places.old.blocks }
    ensures vacant { OnOk result (chunks.new < length stack.new.items) }
    ensures only_if_none { chunks.old < length stack.old.items → (places.new ≡ places.old) × (chunks.new ≡ chunks.old) }
{
    if stack.len() != *chunks {
        return Ok(());
    }
    grow(places, stack, chunks, alloc)
}

impl<T> BlockOwner<T> {
    ghost use Rattle.fi_parts.specs.OwnerLending.{LendsBlock};

    /// It owns no block, and takes no memory yet.
    pub fn new(alloc: Global) -> BlockOwner<T>
        ensures { result.blocks ≡ [] }
    {
        BlockOwner {
            places: BlockPlaces::new(),
            stack: Vec::new(alloc),
            chunks: 0,
            alloc,
        }
    }

    /// A new block, which lies where no other does. A chunk is taken only where no place is vacant. Where there is no memory for it
    /// the item comes back.
    #[inline(always)]
    pub fn put(&mut self, item: T, slot: usize) -> Result<BlockPtr<T>, NoRoom<T>>
    where
        T: Drop,
        ensures fresh { IfOk result (λ p. at_ptr self.old.blocks p.ptr ≡ None) }
        ensures blocks { IfOk result (λ p. self.new.blocks ≡ (p.ptr, loose_block item slot) ∷ self.old.blocks) }
        ensures refused { OnErr result (self.new ≡ self.old) }
        ensures handed_back { IfErr result (λ failed. failed.0 ≡ item) }
    {
        let made = make_room(
            &mut self.places,
            &mut self.stack,
            &mut self.chunks,
            &self.alloc,
        );
        if let Err(refused) = made {
            return Err(NoRoom::of(item, refused));
        }
        let at = self.stack.take_last();
        let links = Links::loose();
        self.places.put(at, Block { item, links, slot });
        Ok(at)
    }

    /// Hands a block out, and keeps its place for the next one.
    pub fn take(&mut self, at: BlockPtr<T>) -> Block<T>
        requires { IsSome (at_ptr self.old.blocks at.ptr) }
        ensures value { at_ptr self.old.blocks at.ptr ≡ Some result }
        ensures blocks { self.new.blocks ≡ without_at self.old.blocks at.ptr }
        ensures gone { at_ptr self.new.blocks at.ptr ≡ None }
    {
        let block = self.places.take(at);
        self.stack.push_reserved(at);
        block
    }

    /// A block of this owner.
    pub fn whole(&self, at: BlockPtr<T>) -> &Block<T>
        requires { IsSome (at_ptr self.now.blocks at.ptr) }
        ensures { at_ptr self.now.blocks at.ptr ≡ Some result.now }
    {
        self.places.whole(at)
    }

    /// A block of this owner, to be written.
    pub fn whole_mut(&mut self, at: BlockPtr<T>) -> &mut Block<T>
        requires { IsSome (at_ptr self.old.blocks at.ptr) }
        ensures* writes_back { sem 𝓛 (LendsBlock T.row self.entry at.ptr result) }
        ensures value { at_ptr self.old.blocks at.ptr ≡ Some result.now }
        ensures address { IsAddress at.ptr }
    {
        self.places.whole_mut(at)
    }

    /// Gives the chunks back, where no block is left.
    pub fn end(self)
        requires { self.blocks ≡ [] }
    {
        let BlockOwner {
            mut places,
            stack,
            mut chunks,
            alloc,
        } = self;
        while chunks > 0 {
            chunks -= 1;
            places.remove(stack[chunks], chunk_len(chunks)).free(&alloc);
        }
        places.end();
    }
}
