//! The owner of the chunks' memory, place by place.
ghost use Rattle.std.specs.Prelude.{◌≡◌, ℕ, List as Seq, [], ◌∷◌, ◌++◌, drop, None, Some, IsSome};
ghost use Rattle.std.specs.Borrow.{sem};
ghost use denote.RawPtr.{Ptr, InBlock};
ghost use Rattle.fi_parts.specs.declared.blocks.block.Block.{Block};
ghost use Rattle.fi_parts.specs.Placed.{at_ptr, without_at, IsAddress};
ghost use Rattle.fi_parts.specs.BlockOwner.{owner_owns, owner_lends, block_places, global};

use crate::blocks::block::{Block, BlockPtr};
use crate::blocks::chunk::Chunk;
use std::alloc::Global;
use std::marker::{Model, PhantomData, Send, Sync};
use std::mem::size_of;

/// The owner of the chunks' memory: of the blocks in it, and of the places where none lies. It takes no space.
pub struct BlockPlaces<T> {
    mark: PhantomData<*mut Block<T>>,
    pub(crate) ghost blocks: { Seq (Ptr × Block T) },
    pub(crate) ghost vacant: { Seq (Ptr × Unit {0}) },
    pub(crate) ghost chunks: { Seq (Ptr × ℕ) },
}

const _: () = prove!(size_of::<BlockPlaces<u64>>() == 0);

impl<T> Model for BlockPlaces<T> {
    ghost also_owns = { λ h. owner_owns T.row h.blocks h.vacant h.chunks };

    ghost also_shares = { λ h _ κ. owner_lends T.row h.blocks κ };
}

unsafe impl<T: Send> Send for BlockPlaces<T> {}

unsafe impl<T: Sync> Sync for BlockPlaces<T> {}

impl<T> BlockPlaces<T> {
    ghost use Rattle.fi_parts.specs.BlockLending.{LendsPlace};

    /// No chunk.
    pub fn new() -> BlockPlaces<T>
        ensures blocks { result.blocks ≡ [] }
        ensures vacant { result.vacant ≡ [] }
        ensures chunks { result.chunks ≡ [] }
    {
        BlockPlaces { mark: PhantomData }
    }

    /// Takes a chunk over, each of whose places is vacant. Where its first one is.
    pub fn add(&mut self, chunk: Chunk<Block<T>, Global>) -> BlockPtr<T>
        ensures place { InBlock result.ptr }
        ensures blocks { self.new.blocks ≡ self.old.blocks }
        ensures vacant { self.new.vacant ≡ block_places T.row result.ptr chunk.len ++ self.old.vacant }
        ensures chunks { self.new.chunks ≡ (result.ptr, chunk.len) ∷ self.old.chunks }
    {
        let Chunk { at, len: _, by: _ } = chunk;
        BlockPtr { ptr: at }
    }

    /// Hands the chunk out that was taken over last, once no block is left.
    pub fn remove(&mut self, at: BlockPtr<T>, len: usize) -> Chunk<Block<T>, Global>
        requires empty { self.old.blocks ≡ [] }
        requires last { self.old.chunks ≡ (at.ptr, len) ∷ drop 1 self.old.chunks }
        ensures blocks { self.new.blocks ≡ [] }
        ensures chunks { self.new.chunks ≡ drop 1 self.old.chunks }
        ensures heap { result.alloc ≡ global }
    {
        Chunk {
            at: at.ptr,
            len,
            by: PhantomData,
        }
    }

    /// Puts a block into a vacant place. No other block lies there.
    pub fn put(&mut self, at: BlockPtr<T>, block: Block<T>)
        requires { IsSome (at_ptr self.old.vacant at.ptr) }
        ensures fresh { at_ptr self.old.blocks at.ptr ≡ None }
        ensures blocks { self.new.blocks ≡ (at.ptr, block) ∷ self.old.blocks }
        ensures vacant { self.new.vacant ≡ without_at self.old.vacant at.ptr }
        ensures chunks { self.new.chunks ≡ self.old.chunks }
    {
        let ptr = at.ptr;
        unsafe { ptr.write(block) }
    }

    /// Takes a block out. Its place is vacant then.
    pub fn take(&mut self, at: BlockPtr<T>) -> Block<T>
        requires { IsSome (at_ptr self.old.blocks at.ptr) }
        ensures value { at_ptr self.old.blocks at.ptr ≡ Some result }
        ensures blocks { self.new.blocks ≡ without_at self.old.blocks at.ptr }
        ensures gone { at_ptr self.new.blocks at.ptr ≡ None }
        ensures vacant { self.new.vacant ≡ (at.ptr, tt) ∷ self.old.vacant }
        ensures chunks { self.new.chunks ≡ self.old.chunks }
    {
        let ptr = at.ptr;
        unsafe { ptr.read() }
    }

    /// A block.
    pub fn whole(&self, at: BlockPtr<T>) -> &Block<T>
        requires { IsSome (at_ptr self.now.blocks at.ptr) }
        ensures { at_ptr self.now.blocks at.ptr ≡ Some result.now }
    {
        unsafe { &*at.ptr }
    }

    /// A block, to be written.
    pub fn whole_mut(&mut self, at: BlockPtr<T>) -> &mut Block<T>
        requires { IsSome (at_ptr self.old.blocks at.ptr) }
        ensures* writes_back { sem 𝓛 (LendsPlace T.row self.entry at.ptr result) }
        ensures value { at_ptr self.old.blocks at.ptr ≡ Some result.now }
        ensures address { IsAddress at.ptr }
    {
        unsafe { &mut *at.ptr }
    }

    /// Ends where no chunk is left.
    pub fn end(self)
        requires { self.chunks ≡ [] }
    {
        let BlockPlaces { mark: _ } = self;
    }
}
