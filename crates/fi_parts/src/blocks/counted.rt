//! The blocks, and the count of visits. The fields are private to this file: `reach` alone leads to a block's
//! neighbours, and it counts one visit.
ghost use Rattle.std.specs.Prelude.{◌≡◌, ◌∷◌, Some, None, [], IsSome, IfOk, IfErr, OnErr};
ghost use Rattle.std.specs.Borrow.{sem};
ghost use Rattle.fi_parts.specs.Placed.{IsAddress, without_at};
ghost use Rattle.fi_parts.specs.CountedBlocks.{block_in, links_in, data_in, item_in, slot_in, loose_block, LendsLinks, LendsItem};

use crate::blocks::block::{Block, BlockPtr, Links};
use crate::blocks::owner::BlockOwner;
use crate::errors::NoRoom;
use crate::visits::Visits;
use std::alloc::Global;

/// The blocks, and how often the links of one were reached.
pub struct CountedBlocks<T> {
    owner: BlockOwner<T>,
    visits: Visits,
}

impl<T> CountedBlocks<T> {
    /// No block.
    pub fn new(alloc: Global) -> CountedBlocks<T>
        ensures blocks { result.owner.blocks ≡ [] }
        ensures visits { result.visits.count ≡ 0 }
    {
        CountedBlocks {
            owner: BlockOwner::new(alloc),
            visits: Visits::new(),
        }
    }

    /// The item of a block.
    pub fn item(&self, at: BlockPtr<T>) -> &T
        requires { IsSome (block_in self.now at) }
        ensures { item_in (data_in (block_in self.now at)) ≡ Some result.now }
    {
        &self.owner.whole(at).item
    }

    /// The slot of a block.
    pub fn slot(&self, at: BlockPtr<T>) -> usize
        requires { IsSome (block_in self.now at) }
        ensures { slot_in (data_in (block_in self.now at)) ≡ Some result }
    {
        self.owner.whole(at).slot
    }

    /// The item of a block, to be written.
    pub fn item_mut(&mut self, at: BlockPtr<T>) -> &mut T
        requires { IsSome (block_in self.old at) }
        ensures* writes_back { sem 𝓛 (LendsItem T.row self.entry at result) }
        ensures value { item_in (data_in (block_in self.old at)) ≡ Some result.now }
    {
        &mut self.owner.whole_mut(at).item
    }

    /// The links of a block, to be read or written. This is one visit.
    pub fn reach(&mut self, at: BlockPtr<T>) -> &mut Links<T>
        requires { IsSome (block_in self.old at) }
        ensures* writes_back { sem 𝓛 (LendsLinks T.row self.entry at result) }
        ensures value { links_in (block_in self.old at) ≡ Some result.now }
        ensures address { IsAddress at.ptr }
    {
        self.visits = Visits::and_one(&self.visits);
        &mut self.owner.whole_mut(at).links
    }

    /// A new block that is not in the list. Where there is no memory the item comes back.
    #[inline(always)]
    pub fn claim(&mut self, item: T, slot: usize) -> Result<BlockPtr<T>, NoRoom<T>>
    where
        T: Drop,
        ensures fresh { IfOk result (λ p. block_in self.old p ≡ None) }
        ensures blocks { IfOk result (λ p. self.new.owner.blocks ≡ (p.ptr, loose_block item slot) ∷ self.old.owner.blocks) }
        ensures visits { self.new.visits ≡ self.old.visits }
        ensures refused { OnErr result (self.new ≡ self.old) }
        ensures handed_back { IfErr result (λ failed. failed.0 ≡ item) }
    {
        self.owner.put(item, slot)
    }

    /// Frees a block and gives its item back. Its memory is kept for the next one.
    pub fn free(&mut self, at: BlockPtr<T>) -> T
    where
        T: Drop,
        requires { IsSome (block_in self.old at) }
        ensures value { item_in (data_in (block_in self.old at)) ≡ Some result }
        ensures blocks { self.new.owner.blocks ≡ without_at self.old.owner.blocks at.ptr }
        ensures gone { block_in self.new at ≡ None }
        ensures visits { self.new.visits ≡ self.old.visits }
    {
        let Block {
            item,
            links: _,
            slot: _,
        } = self.owner.take(at);
        item
    }

    /// Ends where no block is left.
    pub fn end(self)
        requires { self.owner.blocks ≡ [] }
    {
        let CountedBlocks { owner, visits: _ } = self;
        owner.end();
    }
}
