//! The store of a list: live slots, each with a block of its own, some of which are linked by raw pointers.
ghost use Rattle.std.specs.Prelude.{◌≡◌, ℕ, ◌+◌, ◌≤◌, ◌<◌, ◌^◌, length, List, ◌∷◌, ◌++◌, [], Some, None, true, false};
ghost use Rattle.std.specs.Prelude.{IfOk, IfErr, OnErr, IfNone, OnSome};
ghost use Rattle.std.specs.Prelude.{MatchOption, option_copied};
ghost use Rattle.std.specs.Option.{option_copied_mut};
ghost use Rattle.std.specs.Borrow.{sem};
ghost use Rattle.std.specs.FinMap as map;
ghost use Rattle.fi_parts.specs.Order.{holds, without, youngest, oldest};
ghost use Rattle.fi_parts.specs.ListModel.{item, item_of, IsLive, with_live, IsListed};

mod block;
mod chunk;
mod counted;
mod linked;
mod owner;
mod places;

use crate::errors::NoRoom;
use crate::memory::reserve_places;
use block::BlockPtr;
pub(crate) use chunk::Chunk;
use linked::LinkedBlocks;
use slab::Slab;
use std::alloc::Global;
use std::marker::Model;

/// Live slots with their items, some of them linked to one list. The slab has the pointer to each live slot's block.
pub struct Blocks<T> {
    slab: Slab<BlockPtr<T>>,
    linked: LinkedBlocks<T>,
}

impl<T> Model for Blocks<T> {
    ghost use Rattle.fi_parts.specs.ListModel.{ListModel, list_code};

    ghost Value = { ListModel T };

    ghost coded = { list_code T.code };

    ghost use Rattle.fi_parts.specs.Blocks.{view_of, IsSound};

    ghost view = { λ b. view_of b.slab b.linked };

    ghost invariant = { λ b. IsSound b.slab b.linked };
}

impl<T> Blocks<T> {
    ghost use Rattle.fi_parts.specs.BlocksLending.{LendsSlot, LendsEndSlot};

    /// No live slot. It takes no memory yet.
    pub fn new(alloc: Global) -> Self
        ensures { result ≡ record { live = map.empty; order = []; visits = 0 } }
    {
        Blocks {
            slab: Slab::new(alloc),
            linked: LinkedBlocks::new(alloc),
        }
    }

    /// The linked slots are live, and none stands twice.
    pub fn is_listed(&self)
        ensures { IsListed self.now }
    {
        let _ = &self.slab;
    }

    /// Fewer than 2^64 slots are linked.
    pub fn fits(&self)
        ensures { length self.now.order < 2 ^ 64 }
    {
        let _capacity = self.slab.capacity();
    }

    /// The youngest linked slot.
    pub fn first(&self) -> Option<usize>
        ensures { result ≡ youngest self.now.order }
    {
        match self.linked.first() {
            Some(at) => Some(self.linked.slot(at)),
            None => None,
        }
    }

    /// The oldest linked slot.
    pub fn last(&self) -> Option<usize>
        ensures { result ≡ oldest self.now.order }
    {
        match self.linked.last() {
            Some(at) => Some(self.linked.slot(at)),
            None => None,
        }
    }

    /// The value of the youngest linked slot, by its pointer.
    pub fn first_item(&self) -> Option<&T>
        ensures { option_copied result ≡ item_of self.now (youngest self.now.order) }
    {
        let youngest = match self.linked.first() {
            Some(youngest) => youngest,
            None => return None,
        };
        Some(self.linked.item(youngest))
    }

    /// The value of the oldest linked slot, by its pointer.
    pub fn last_item(&self) -> Option<&T>
        ensures { option_copied result ≡ item_of self.now (oldest self.now.order) }
    {
        let oldest = match self.linked.last() {
            Some(oldest) => oldest,
            None => return None,
        };
        Some(self.linked.item(oldest))
    }

    /// The value of the youngest linked slot, to be written, by its pointer.
    pub fn first_item_mut(&mut self) -> Option<&mut T>
        ensures* writes_back { sem 𝓛 (LendsEndSlot T.row self.entry (youngest self.old.order) result) }
        ensures value { option_copied_mut result ≡ item_of self.old (youngest self.old.order) }
    {
        let youngest = match self.linked.first() {
            Some(youngest) => youngest,
            None => return None,
        };
        Some(self.linked.item_mut(youngest))
    }

    /// The value of the oldest linked slot, to be written, by its pointer.
    pub fn last_item_mut(&mut self) -> Option<&mut T>
        ensures* writes_back { sem 𝓛 (LendsEndSlot T.row self.entry (oldest self.old.order) result) }
        ensures value { option_copied_mut result ≡ item_of self.old (oldest self.old.order) }
    {
        let oldest = match self.linked.last() {
            Some(oldest) => oldest,
            None => return None,
        };
        Some(self.linked.item_mut(oldest))
    }

    /// The value of a live slot; None for another.
    pub fn get(&self, slot: usize) -> Option<&T>
        ensures { option_copied result ≡ item self.now slot }
    {
        match self.slab.get(slot) {
            Some(at) => Some(self.linked.item(*at)),
            None => None,
        }
    }

    /// The same, to be written.
    pub fn get_mut(&mut self, slot: usize) -> Option<&mut T>
        ensures* writes_back { sem 𝓛 (LendsSlot T.row self.entry slot result) }
        ensures value { option_copied_mut result ≡ item self.old slot }
    {
        let at = match self.slab.get(slot) {
            Some(at) => *at,
            None => return None,
        };
        Some(self.linked.item_mut(at))
    }

    /// Takes a value in under a slot that was not live, and does not link it. Where there is no memory the value comes
    /// back, and nothing has changed: room in the slab is made first, then the block.
    #[inline(always)]
    pub fn claim(&mut self, value: T) -> Result<usize, NoRoom<T>>
    where
        T: Drop,
        ensures was_free { IfOk result (λ slot. item self.old slot ≡ None) }
        ensures live { IfOk result (λ slot. IsLive self.new slot) }
        ensures apart { IfOk result (λ slot. holds slot self.new.order ≡ false) }
        ensures claimed { IfOk result (λ slot. self.new ≡ with_live self.old (map.insert self.old.live slot value)) }
        ensures refused { OnErr result (self.new ≡ self.old) }
        ensures handed_back { IfErr result (λ failed. failed.0 ≡ value) }
    {
        if let Err(refused) = reserve_places(&mut self.slab, 1) {
            return Err(NoRoom::of(value, refused));
        }
        let slot = self.slab.vacant_key();
        match self.linked.claim(value, slot) {
            Ok(at) => Ok(self.slab.insert_reserved(at)),
            Err(refused) => Err(refused),
        }
    }

    /// Gives the value of a live slot back that is not linked; the slot is not live afterwards.
    pub fn free(&mut self, slot: usize) -> T
    where
        T: Drop,
        requires live { IsLive self.old slot }
        requires apart { holds slot self.old.order ≡ false }
        ensures value { item self.old slot ≡ Some result }
        ensures freed { self.new ≡ with_live self.old (map.remove self.old.live slot) }
    {
        let at = self.slab.remove(slot);
        self.linked.free(at)
    }

    /// Takes a slot out of the list, if it is linked, and gives its value back; it is not live afterwards. None where it is not live.
    /// As `unlink` and then `free`, with one look-up.
    #[inline(always)]
    pub fn unlink_and_free(&mut self, slot: usize) -> Option<T>
    where
        T: Drop,
        ensures value { result ≡ item self.old slot }
        ensures live { OnSome result (self.new.live ≡ map.remove self.old.live slot) }
        ensures order { OnSome result (self.new.order ≡ without slot self.old.order) }
        ensures absent { IfNone result (self.new ≡ self.old) }
        ensures visits { self.new.visits ≤ self.old.visits + 3 }
        ensures never_fewer { self.old.visits ≤ self.new.visits }
    {
        let block = match self.slab.try_remove(slot) {
            Some(block) => block,
            None => return None,
        };
        self.linked.unlink(block);
        Some(self.linked.free(block))
    }

    /// The next younger linked slot; none for the youngest.
    pub fn younger(&mut self, slot: usize) -> Option<usize>
        requires { holds slot self.old.order ≡ true }
        ensures next { (front rest : List ℕ) → self.old.order ≡ front ++ slot ∷ rest → result ≡ oldest front }
        ensures live { self.new.live ≡ self.old.live }
        ensures order { self.new.order ≡ self.old.order }
        ensures visits { self.new.visits ≡ self.old.visits + 1 }
    {
        let at = self.slab[slot];
        match self.linked.younger(at) {
            Some(next) => Some(self.linked.slot(next)),
            None => None,
        }
    }

    /// Links a slot at the youngest place.
    #[inline(always)]
    pub fn link(&mut self, slot: usize)
        requires live { IsLive self.old slot }
        requires apart { holds slot self.old.order ≡ false }
        ensures live { self.new.live ≡ self.old.live }
        ensures order { self.new.order ≡ slot ∷ self.old.order }
        ensures visits { self.new.visits ≤ self.old.visits + 3 }
        ensures never_fewer { self.old.visits ≤ self.new.visits }
    {
        let at = self.slab[slot];
        self.linked.link(at);
    }

    /// Takes a slot out of the list; false where it is not linked.
    #[inline(always)]
    pub fn unlink(&mut self, slot: usize) -> bool
        ensures found { result ≡ holds slot self.old.order }
        ensures live { self.new.live ≡ self.old.live }
        ensures order { self.new.order ≡ without slot self.old.order }
        ensures visits { self.new.visits ≤ self.old.visits + 3 }
        ensures never_fewer { self.old.visits ≤ self.new.visits }
    {
        let at = match self.slab.get(slot) {
            Some(at) => *at,
            None => return false,
        };
        self.linked.unlink(at)
    }

    /// Takes the oldest linked slot out of the list, by its pointer; None where no slot is linked.
    #[inline(always)]
    pub fn unlink_last(&mut self) -> Option<usize>
        ensures oldest { result ≡ oldest self.old.order }
        ensures live { self.new.live ≡ self.old.live }
        ensures order { MatchOption result (self.new.order ≡ self.old.order) (λ slot. self.new.order ≡ without slot self.old.order) }
        ensures visits { self.new.visits ≤ self.old.visits + 3 }
        ensures never_fewer { self.old.visits ≤ self.new.visits }
    {
        let oldest = match self.linked.last() {
            Some(oldest) => oldest,
            None => return None,
        };
        let slot = self.linked.slot(oldest);
        self.linked.unlink(oldest);
        Some(slot)
    }
}

// Each live block is freed once, linked or not: `linked` is not `Drop`, and ends only where no block is left.
impl<T: Drop> Drop for Blocks<T> {
    fn drop(self) {
        let Blocks { slab, mut linked } = self;
        for (_slot, at) in slab {
            drop(linked.free(at));
        }
        linked.end();
    }
}
