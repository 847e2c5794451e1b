//! The blocks and the two ends of the list.
ghost use Rattle.std.specs.Prelude.{◌≡◌, ◌≤◌, ◌+◌, ◌∷◌, ◌++◌, List, Some, None, true, false, [], IsSome, IfSome, IfOk, IfErr, OnErr};
ghost use Rattle.std.specs.Borrow.{sem};
ghost use Rattle.fi_parts.specs.Placed.{without_at};
ghost use Rattle.fi_parts.specs.Links.{names, without};
ghost use Rattle.fi_parts.specs.Order.{last_or};
ghost use Rattle.fi_parts.specs.declared.blocks.block.BlockPtr.{BlockPtr};
ghost use Rattle.fi_parts.specs.CountedBlocks.{item_in, slot_in, loose_block};
ghost use Rattle.fi_parts.specs.LinkedBlocks.{block_at, data_of, with_older, with_younger};
ghost use Rattle.fi_parts.specs.LinkedBlocks.{chain_of, IsChained, SameData, SameList, LendsBlockItem};

use crate::blocks::block::{BlockPtr, Links, Neighbour};
use crate::blocks::counted::CountedBlocks;
use crate::errors::NoRoom;
use std::alloc::Global;
use std::mem;

/// The blocks, and the two ends of the list.
pub struct LinkedBlocks<T> {
    blocks: CountedBlocks<T>,
    first: Neighbour<T>,
    last: Neighbour<T>,
}

impl<T> LinkedBlocks<T> {
    /// No block, and an empty list.
    pub fn new(alloc: Global) -> LinkedBlocks<T>
        ensures blocks { result.blocks.owner.blocks ≡ [] }
        ensures first { result.first ≡ None }
        ensures last { result.last ≡ None }
        ensures visits { result.blocks.visits.count ≡ 0 }
    {
        LinkedBlocks {
            blocks: CountedBlocks::new(alloc),
            first: Neighbour::none(),
            last: Neighbour::none(),
        }
    }

    /// The youngest block of the list.
    pub fn first(&self) -> Option<BlockPtr<T>>
        ensures { result ≡ self.now.first }
    {
        self.first.block()
    }

    /// The oldest block of the list.
    pub fn last(&self) -> Option<BlockPtr<T>>
        ensures { result ≡ self.now.last }
    {
        self.last.block()
    }

    /// The item of a block.
    pub fn item(&self, at: BlockPtr<T>) -> &T
        requires { IsSome (block_at self.now at) }
        ensures { item_in (data_of self.now at) ≡ Some result.now }
    {
        self.blocks.item(at)
    }

    /// The slot of a block.
    pub fn slot(&self, at: BlockPtr<T>) -> usize
        requires { IsSome (block_at self.now at) }
        ensures { slot_in (data_of self.now at) ≡ Some result }
    {
        self.blocks.slot(at)
    }

    /// The item of a block, to be written.
    pub fn item_mut(&mut self, at: BlockPtr<T>) -> &mut T
        requires { IsSome (block_at self.old at) }
        ensures* writes_back { sem 𝓛 (LendsBlockItem T.row self.entry at result) }
        ensures value { item_in (data_of self.old at) ≡ Some result.now }
    {
        self.blocks.item_mut(at)
    }

    /// A new block that is not in the list. Where there is no memory the item comes back.
    #[inline(always)]
    pub fn claim(&mut self, item: T, slot: usize) -> Result<BlockPtr<T>, NoRoom<T>>
    where
        T: Drop,
        ensures fresh { IfOk result (λ p. block_at self.old p ≡ None) }
        ensures blocks { IfOk result (λ p. self.new.blocks.owner.blocks ≡ (p.ptr, loose_block item slot) ∷ self.old.blocks.owner.blocks) }
        ensures rest { SameList self.old self.new }
        ensures refused { OnErr result (self.new ≡ self.old) }
        ensures handed_back { IfErr result (λ failed. failed.0 ≡ item) }
    {
        self.blocks.claim(item, slot)
    }

    /// Frees a block and gives its item back. Links that name it are the caller's care.
    pub fn free(&mut self, at: BlockPtr<T>) -> T
    where
        T: Drop,
        requires { IsSome (block_at self.old at) }
        ensures value { item_in (data_of self.old at) ≡ Some result }
        ensures blocks { self.new.blocks.owner.blocks ≡ without_at self.old.blocks.owner.blocks at.ptr }
        ensures gone { block_at self.new at ≡ None }
        ensures rest { SameList self.old self.new }
    {
        self.blocks.free(at)
    }

    /// Ends where no block is left.
    pub fn end(self)
        requires { self.blocks.owner.blocks ≡ [] }
    {
        let LinkedBlocks {
            blocks,
            first: _,
            last: _,
        } = self;
        blocks.end();
    }

    /// Makes `older` the next block after `of`, or the first of the list.
    fn set_older(&mut self, of: &Neighbour<T>, older: Neighbour<T>)
        requires { IfSome of.now (λ p. IsSome (block_at self.old p)) }
        ensures { self.new ≡ with_older self.old of.now older }
    {
        match of.block() {
            Some(at) => self.blocks.reach(at).older = older,
            None => self.first = older,
        }
    }

    /// Makes `younger` the block before `of`, or the last of the list.
    fn set_younger(&mut self, of: &Neighbour<T>, younger: Neighbour<T>)
        requires { IfSome of.now (λ p. IsSome (block_at self.old p)) }
        ensures { self.new ≡ with_younger self.old of.now younger }
    {
        match of.block() {
            Some(at) => self.blocks.reach(at).younger = younger,
            None => self.last = younger,
        }
    }

    /// The next younger block of the list; none for the youngest.
    pub fn younger(&mut self, at: BlockPtr<T>) -> Option<BlockPtr<T>>
        requires chained { IsChained self.old }
        requires listed { names at (chain_of self.old) ≡ true }
        ensures next { (front rest : List (BlockPtr T)) → chain_of self.old ≡ front ++ at ∷ rest → result ≡ last_or None front }
        ensures chained { IsChained self.new }
        ensures order { chain_of self.new ≡ chain_of self.old }
        ensures data { SameData self.old self.new }
        ensures visits { self.new.blocks.visits.count ≡ self.old.blocks.visits.count + 1 }
    {
        self.blocks.reach(at).younger.block()
    }

    /// Puts the block at the youngest place.
    pub fn link(&mut self, at: BlockPtr<T>)
        requires chained { IsChained self.old }
        requires live { IsSome (block_at self.old at) }
        requires apart { names at (chain_of self.old) ≡ false }
        ensures chained { IsChained self.new }
        ensures order { chain_of self.new ≡ at ∷ chain_of self.old }
        ensures data { SameData self.old self.new }
        ensures visits { self.new.blocks.visits.count ≤ self.old.blocks.visits.count + 3 }
        ensures never_fewer { self.old.blocks.visits.count ≤ self.new.blocks.visits.count }
    {
        let older = self.first.copied();
        let links = self.blocks.reach(at);
        links.younger = Neighbour::none();
        links.older = older.copied();
        links.linked = true;
        self.set_younger(&older, Neighbour::to(at));
        self.set_older(&Neighbour::none(), Neighbour::to(at));
    }

    /// Takes the block out of the list, if it is there.
    pub fn unlink(&mut self, at: BlockPtr<T>) -> bool
        requires chained { IsChained self.old }
        requires live { IsSome (block_at self.old at) }
        ensures found { result ≡ names at (chain_of self.old) }
        ensures chained { IsChained self.new }
        ensures order { chain_of self.new ≡ without at (chain_of self.old) }
        ensures data { SameData self.old self.new }
        ensures visits { self.new.blocks.visits.count ≤ self.old.blocks.visits.count + 3 }
        ensures never_fewer { self.old.blocks.visits.count ≤ self.new.blocks.visits.count }
    {
        let links = self.blocks.reach(at);
        let linked = links.linked;
        if !linked {
            return false;
        }
        let Links {
            younger,
            older,
            linked: _,
        } = mem::replace(links, Links::loose());
        self.set_older(&younger, older.copied());
        self.set_younger(&older, younger);
        true
    }
}
