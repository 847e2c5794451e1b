//! A list over live slots: who waits, the youngest first.
//!
//! `is_listed` and `fits` do nothing. They are called for their clauses: what holds of every list.
ghost use Rattle.std.specs.Prelude.{◌≡◌, ℕ, ◌+◌, ◌≤◌, ◌<◌, ◌^◌, ◌==◌, ◌++◌, ◌∷◌, List, [], Some, None, true, false, IfOk, IfErr};
ghost use Rattle.std.specs.Prelude.{IfSome, IfNone, OnErr, OnSome, length, option_copied, MatchOption};
ghost use Rattle.std.specs.Option.{option_copied_mut};
ghost use Rattle.std.specs.Borrow.{sem};
ghost use Rattle.std.specs.FinMap as map;
ghost use Rattle.fi_parts.specs.Order.{holds, without, youngest, oldest};
ghost use Rattle.fi_parts.specs.ListModel.{ListModel, item, IsLive, with_live, IsListed, item_of};

use crate::blocks::Blocks;
use crate::drain::{Drain, ReverseDrain};
use crate::errors::{NoRoom, Slot};
use std::alloc::Global;
use std::fmt;
use std::marker::Model;

/// A doubly linked list with its own store of blocks, named by slots.
///
/// A slot is claimed for a value, may then be put in front and taken out any number of times, and is freed with its
/// value. Every call but `claim` takes constant time, and only `claim` takes memory. Keeps `LinkedList` of futures-intrusive's
/// `intrusive_double_linked_list`, whose nodes are pinned by their owners.
///
/// # Examples
///
/// ```
/// use futures_intrusive::list::LinkedList;
///
/// let mut list = LinkedList::new(rt.alloc());
/// let slot = list.claim(7u64).ok().expect(&rt, "memory");
/// list.add_front(slot);
/// assert!(rt; list.peek_last() == Some(&7) && list.remove(slot));
/// assert!(rt; list.free(slot) == 7);
/// ```
#[derive(Drop)]
pub struct LinkedList<T> {
    blocks: Blocks<T>,
}

impl<T> fmt::Debug for LinkedList<T> {
    fn fmt<F: fmt::Write>(&self, f: &mut fmt::Formatter<F>) -> fmt::Result {
        f.debug_struct("LinkedList").finish()
    }
}

impl<T> Model for LinkedList<T> {
    ghost use Rattle.fi_parts.specs.ListModel.{ListModel, list_code};

    ghost Value = { ListModel T };

    ghost coded = { list_code T.code };

    ghost view = { λ l. l.blocks };
}

impl<T> LinkedList<T> {
    ghost use Rattle.fi_parts.specs.Lending.{LendsItemOf, LendsEnd};
    ghost use Rattle.fi_parts.specs.Drain.{drained, drain_lender, reverse_drained, reverse_lender};

    /// An empty list, without a live slot. It takes no memory yet.
    pub fn new(alloc: Global) -> Self
        ensures { result ≡ record { live = map.empty; order = []; visits = 0 } }
    {
        LinkedList {
            blocks: Blocks::new(alloc),
        }
    }

    /// Returns `true` if no slot is in the list. The slots in the list are live, none is there twice, and there are fewer than 2^64.
    /// Keeps `LinkedList::is_empty`.
    pub fn is_empty(&self) -> bool
        ensures empty { result ≡ (length self.now.order == 0) }
        ensures listed { IsListed self.now }
        ensures fits { length self.now.order < 2 ^ 64 }
    {
        self.is_listed();
        self.fits();
        self.blocks.first().is_none()
    }

    // For proofs: the slots in the list are live, and none is there twice.
    pub(crate) fn is_listed(&self)
        ensures { IsListed self.now }
    {
        self.blocks.is_listed();
    }

    // For proofs: the list is shorter than 2^64.
    pub(crate) fn fits(&self)
        ensures { length self.now.order < 2 ^ 64 }
    {
        self.blocks.fits();
    }

    /// The value of a live slot; None for a slot that is not live.
    pub fn get(&self, slot: Slot) -> Option<&T>
        ensures { option_copied result ≡ item self.now slot.0 }
    {
        self.blocks.get(slot.0)
    }

    /// The value of a live slot, for writing; None for a slot that is not live.
    pub fn get_mut(&mut self, slot: Slot) -> Option<&mut T>
        ensures* writes_back { sem 𝓛 (LendsItemOf T.row self.entry slot.0 result) }
        ensures value { option_copied_mut result ≡ item self.old slot.0 }
    {
        self.blocks.get_mut(slot.0)
    }

    /// Takes a value in under a slot that was not live, outside the list.
    ///
    /// Refused only where there is no memory: then the value is handed back and nothing has changed.
    #[inline(always)]
    pub fn claim(&mut self, value: T) -> Result<Slot, NoRoom<T>>
    where
        T: Drop,
        ensures was_free { IfOk result (λ slot. item self.old slot.0 ≡ None) }
        ensures live { IfOk result (λ slot. IsLive self.new slot.0) }
        ensures apart { IfOk result (λ slot. holds slot.0 self.new.order ≡ false) }
        ensures claimed { IfOk result (λ slot. self.new ≡ with_live self.old (map.insert self.old.live slot.0 value)) }
        ensures refused { OnErr result (self.new ≡ self.old) }
        ensures handed_back { IfErr result (λ failed. failed.0 ≡ value) }
    {
        Ok(Slot(self.blocks.claim(value)?))
    }

    /// Gives the value of a live slot back, which is not in the list; the slot is not live afterwards.
    #[inline(always)]
    pub fn free(&mut self, slot: Slot) -> T
    where
        T: Drop,
        requires live { IsLive self.old slot.0 }
        requires apart { holds slot.0 self.old.order ≡ false }
        ensures value { item self.old slot.0 ≡ Some result }
        ensures freed { self.new ≡ with_live self.old (map.remove self.old.live slot.0) }
    {
        self.blocks.free(slot.0)
    }

    /// Puts a live slot that is not in the list at the youngest place. Keeps `LinkedList::add_front`.
    #[inline(always)]
    pub fn add_front(&mut self, slot: Slot)
        requires live { IsLive self.old slot.0 }
        requires apart { holds slot.0 self.old.order ≡ false }
        ensures live { self.new.live ≡ self.old.live }
        ensures order { self.new.order ≡ slot.0 ∷ self.old.order }
        ensures visits { self.new.visits ≤ self.old.visits + 3 }
        ensures never_fewer { self.old.visits ≤ self.new.visits }
    {
        self.blocks.link(slot.0);
    }

    /// Takes a slot out of the list; it stays live. `false` where it was not in the list. Keeps `LinkedList::remove`.
    #[tactic(auto, using(crate::proofs::Queues::taken_out))]
    #[inline(always)]
    pub fn remove(&mut self, slot: Slot) -> bool
        ensures found { result ≡ holds slot.0 self.old.order }
        ensures live { self.new.live ≡ self.old.live }
        ensures order { self.new.order ≡ without slot.0 self.old.order }
        ensures apart { holds slot.0 self.new.order ≡ false }
        ensures visits { self.new.visits ≤ self.old.visits + 3 }
        ensures never_fewer { self.old.visits ≤ self.new.visits }
    {
        self.blocks.unlink(slot.0)
    }

    /// Takes a slot out of the list, if it is there, and gives its value back; it is not live afterwards. None where it is not live.
    /// As `remove` and then `free`, with one look-up.
    #[inline(always)]
    pub fn remove_and_free(&mut self, slot: Slot) -> Option<T>
    where
        T: Drop,
        ensures value { result ≡ item self.old slot.0 }
        ensures live { OnSome result (self.new.live ≡ map.remove self.old.live slot.0) }
        ensures order { OnSome result (self.new.order ≡ without slot.0 self.old.order) }
        ensures absent { IfNone result (self.new ≡ self.old) }
        ensures visits { self.new.visits ≤ self.old.visits + 3 }
        ensures never_fewer { self.old.visits ≤ self.new.visits }
    {
        self.blocks.unlink_and_free(slot.0)
    }

    /// The youngest slot of the list; None for an empty list.
    pub fn first_slot(&self) -> Option<Slot>
        ensures { MatchOption result (self.now.order ≡ []) (λ slot. ((rest : List ℕ) × (self.now.order ≡ slot.0 ∷ rest))) }
    {
        match self.blocks.first() {
            Some(slot) => Some(Slot(slot)),
            None => None,
        }
    }

    /// The oldest slot of the list; None for an empty list.
    pub fn last_slot(&self) -> Option<Slot>
        ensures { MatchOption result (self.now.order ≡ []) (λ slot. ((rest : List ℕ) × (self.now.order ≡ rest ++ slot.0 ∷ []))) }
    {
        match self.blocks.last() {
            Some(slot) => Some(Slot(slot)),
            None => None,
        }
    }

    /// The next younger slot of the list; None for the youngest. One visit.
    pub fn younger(&mut self, slot: Slot) -> Option<Slot>
        requires { holds slot.0 self.old.order ≡ true }
        ensures next { (front rest : List ℕ) → self.old.order ≡ front ++ slot.0 ∷ rest →
            MatchOption result (front ≡ []) (λ next. (others : List ℕ) × (front ≡ others ++ next.0 ∷ [])) }
        ensures live { self.new.live ≡ self.old.live }
        ensures order { self.new.order ≡ self.old.order }
        ensures visits { self.new.visits ≡ self.old.visits + 1 }
    {
        match self.blocks.younger(slot.0) {
            Some(next) => Some(Slot(next)),
            None => None,
        }
    }

    /// Takes the youngest slot out; it stays live. None for an empty list. Keeps `LinkedList::remove_first`.
    pub fn remove_first(&mut self) -> Option<Slot>
        ensures order { MatchOption result ((self.old.order ≡ []) × (self.new.order ≡ []))
            (λ slot. self.old.order ≡ slot.0 ∷ self.new.order) }
        ensures live { self.new.live ≡ self.old.live }
        ensures taken { IfSome result (λ slot. IsLive self.new slot.0 × (holds slot.0 self.new.order ≡ false)) }
        ensures visits { self.new.visits ≤ self.old.visits + 3 }
        ensures never_fewer { self.old.visits ≤ self.new.visits }
    {
        self.is_listed();
        let slot = self.first_slot()?;
        self.remove(slot);
        Some(slot)
    }

    /// Takes the oldest slot out; it stays live. None for an empty list. Keeps `LinkedList::remove_last`.
    #[inline(always)]
    pub fn remove_last(&mut self) -> Option<Slot>
        ensures order { MatchOption result ((self.old.order ≡ []) × (self.new.order ≡ []))
            (λ slot. self.old.order ≡ self.new.order ++ slot.0 ∷ []) }
        ensures live { self.new.live ≡ self.old.live }
        ensures taken { IfSome result (λ slot. IsLive self.new slot.0 × (holds slot.0 self.new.order ≡ false)) }
        ensures visits { self.new.visits ≤ self.old.visits + 3 }
        ensures never_fewer { self.old.visits ≤ self.new.visits }
    {
        self.is_listed();
        let slot = match self.blocks.unlink_last() {
            Some(slot) => slot,
            None => return None,
        };
        Some(Slot(slot))
    }

    /// The youngest slot's value; None for an empty list. Keeps `LinkedList::peek_first`.
    pub fn peek_first(&self) -> Option<&T>
        ensures { option_copied result ≡ item_of self.now (youngest self.now.order) }
    {
        self.blocks.first_item()
    }

    /// The oldest slot's value; None for an empty list. Keeps `LinkedList::peek_last`.
    pub fn peek_last(&self) -> Option<&T>
        ensures { option_copied result ≡ item_of self.now (oldest self.now.order) }
    {
        self.blocks.last_item()
    }

    /// The youngest slot's value, for writing; None for an empty list. Keeps `LinkedList::peek_first_mut`.
    pub fn peek_first_mut(&mut self) -> Option<&mut T>
        ensures* writes_back { sem 𝓛 (LendsEnd T.row self.entry (youngest self.old.order) result) }
        ensures value { option_copied_mut result ≡ item_of self.old (youngest self.old.order) }
    {
        self.blocks.first_item_mut()
    }

    /// The oldest slot's value, for writing; None for an empty list. Keeps `LinkedList::peek_last_mut`.
    pub fn peek_last_mut(&mut self) -> Option<&mut T>
        ensures* writes_back { sem 𝓛 (LendsEnd T.row self.entry (oldest self.old.order) result) }
        ensures value { option_copied_mut result ≡ item_of self.old (oldest self.old.order) }
    {
        self.blocks.last_item_mut()
    }

    /// An iterator that takes the slots out, the youngest first. Slots that it has not yielded stay in the list.
    ///
    /// Keeps `LinkedList::drain`, which takes a callback.
    pub fn drain(&mut self) -> Drain<'_, T>
        ensures list { drained result ≡ self.old }
        ensures same_reference { drain_lender result ≡ self.entry.ghost_name }
    {
        Drain { list: self }
    }

    /// An iterator that takes the slots out, the oldest first. Slots that it has not yielded stay in the list.
    ///
    /// Keeps `LinkedList::reverse_drain`, which takes a callback.
    pub fn reverse_drain(&mut self) -> ReverseDrain<'_, T>
        ensures list { reverse_drained result ≡ self.old }
        ensures same_reference { reverse_lender result ≡ self.entry.ghost_name }
    {
        ReverseDrain { list: self }
    }
}
