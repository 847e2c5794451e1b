//! One node of a list, in a block of its own.
ghost use Rattle.std.specs.Prelude.{◌≡◌, ◌+◌, ⊤, Some, None};
ghost use Rattle.fi_parts.specs.Placed.{IsAddress};
ghost use denote.RawPtr.{InBlock};
ghost use Rattle.std.specs.Vec.Ownership.{FitsInBlock};
ghost use Rattle.fi_parts.specs.Links.{loose};
ghost use Rattle.fi_parts.specs.BlockOwner.{block_row, block_further};

use std::alloc::AllocError;
use std::marker::{Model, Send, Sync};
use std::mem::size_of;
use std::ptr::{NonNull, null_mut};

/// A node: its data, its neighbours, whether it is in the list, and its slot.
#[derive(Drop)]
pub struct Block<T> {
    pub item: T,
    pub links: Links<T>,
    pub slot: usize,
}

// What a node costs: a block of 32 bytes beside its data, and a pointer in the slab.
const _: () = prove!(size_of::<Block<[u64; 3]>>() <= 56);

const _: () = prove!(size_of::<BlockPtr<u64>>() <= 8);

/// A block's neighbours, and whether it is in the list.
#[derive(Drop)]
pub struct Links<T> {
    pub younger: Neighbour<T>,
    pub older: Neighbour<T>,
    pub linked: bool,
}

impl<T> Links<T> {
    /// The links of a block that is not in the list.
    pub fn loose() -> Links<T>
        ensures { result ≡ loose }
    {
        Links {
            younger: Neighbour::none(),
            older: Neighbour::none(),
            linked: false,
        }
    }
}

/// Where a block lies. It owns nothing.
#[derive(Drop)]
pub struct BlockPtr<T> {
    pub(crate) ptr: *mut Block<T>,
}

impl<T> Clone for BlockPtr<T> {
    ghost is_clone = { λ x y. y ≡ x };

    ghost is_infallible = { λ _. ⊤ };

    fn clone(&self) -> Result<BlockPtr<T>, AllocError> {
        Ok(*self)
    }
}

impl<T> Copy for BlockPtr<T> {}

impl<T> BlockPtr<T> {
    /// A pointer to the place that is `count` blocks behind this one in its row.
    pub(crate) fn further(self, count: usize) -> BlockPtr<T>
        requires place { InBlock self.ptr }
        requires fits { FitsInBlock (block_row T.row) (count + 1) }
        ensures { result.ptr ≡ block_further T.row count self.ptr }
    {
        BlockPtr {
            ptr: unsafe { self.ptr.add(count) },
        }
    }
}

unsafe impl<T> Send for BlockPtr<T> {}

unsafe impl<T> Sync for BlockPtr<T> {}

/// Where a neighbour lies, in one word: null where there is none. It owns nothing.
#[derive(Drop)]
pub struct Neighbour<T> {
    at: *mut Block<T>,
}

impl<T> Model for Neighbour<T> {
    ghost use Rattle.std.specs.Prelude.{Option};
    ghost use Rattle.fi_parts.specs.declared.blocks.block.BlockPtr.{BlockPtr};

    ghost Value = { Option (BlockPtr T) };

    ghost use Rattle.fi_parts.specs.Neighbour.{neighbour_of, IsTestable};

    ghost view = { neighbour_of };

    ghost invariant = { IsTestable };
}

unsafe impl<T> Send for Neighbour<T> {}

unsafe impl<T> Sync for Neighbour<T> {}

impl<T> Neighbour<T> {
    /// No neighbour.
    pub fn none() -> Neighbour<T>
        ensures { result ≡ None }
    {
        Neighbour { at: null_mut() }
    }

    /// This block as a neighbour.
    pub fn to(block: BlockPtr<T>) -> Neighbour<T>
        requires { IsAddress block.ptr }
        ensures { result ≡ Some block }
    {
        Neighbour { at: block.ptr }
    }

    /// The neighbouring block, if there is one.
    pub fn block(&self) -> Option<BlockPtr<T>>
        ensures { result ≡ self.now }
    {
        match NonNull::new(self.at) {
            Some(at) => Some(BlockPtr { ptr: at.as_ptr() }),
            None => None,
        }
    }

    /// The same neighbour once more.
    pub fn copied(&self) -> Neighbour<T>
        ensures { result ≡ self.now }
    {
        Neighbour { at: self.at }
    }
}
