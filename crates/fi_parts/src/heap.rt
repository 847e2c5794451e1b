//! A pairing heap over live slots.
ghost use Rattle.std.specs.Prelude.{◌≡◌, Some, None, true, false, IfOk, IfErr, OnErr, option_copied, MatchOption, ◌==◌};
ghost use Rattle.std.specs.Option.{option_copied_mut};
ghost use Rattle.std.specs.Borrow.{sem};
ghost use Rattle.std.specs.FinMap as map;
ghost use Rattle.std.specs.FinSet as set;
ghost use Rattle.fi_parts.specs.HeapModel.{HeapModel, value_under, IsLiveIn, with_values, MembersAreLive, IsLeastOf};

use crate::errors::{NoRoom, Slot};
use crate::heap_nodes::HeapNodes;
use std::alloc::Global;
use std::fmt;
use std::marker::Model;

/// A priority queue of slots, the least value first.
///
/// Each live slot holds a value. A live slot is in the heap from `insert` until `remove`, and equal values may be in it at once.
/// Only `claim` takes memory. All other calls take constant time but `remove`, which takes a step for each child of the slot's
/// node.
///
/// Keeps `PairingHeap` of futures-intrusive, with slots in place of pinned nodes.
///
/// # Examples
///
/// ```
/// use futures_intrusive::heap::PairingHeap;
///
/// let mut heap = PairingHeap::new(rt.alloc());
/// let other = heap.claim(6).expect(&rt, "no memory");
/// heap.insert(other);
/// let slot = heap.claim(7).expect(&rt, "no memory");
/// if let Some(value) = heap.get_mut(slot) {
///     *value = 5;
/// }
/// // ..
/// heap.insert(slot);
/// assert_eq!(rt; heap.peek_min(), Some(slot));
/// ```
#[derive(Drop)]
pub struct PairingHeap<T: Ord> {
    nodes: HeapNodes<T>,
}

impl<T: Ord> fmt::Debug for PairingHeap<T> {
    fn fmt<F: fmt::Write>(&self, f: &mut fmt::Formatter<F>) -> fmt::Result {
        f.debug_struct("PairingHeap").finish()
    }
}

impl<T: Ord> Model for PairingHeap<T> {
    ghost use Rattle.fi_parts.specs.HeapModel.{HeapModel, heap_code};

    ghost Value = { HeapModel T };

    ghost coded = { heap_code T.code };

    ghost use Rattle.fi_parts.specs.HeapNodes.{live_of, members_of, IsHeap};

    ghost view = { λ h. record { live = live_of h.nodes; members = members_of h.nodes } };

    ghost invariant = { λ h. IsHeap T.cmp h.nodes };
}

impl<T: Ord> PairingHeap<T> {
    ghost use Rattle.fi_parts.specs.HeapLending.{LendsValueOf};

    /// A heap with no live slots, which has taken no memory yet.
    ///
    /// Keeps `PairingHeap::new` of futures-intrusive.
    pub fn new(alloc: Global) -> Self
        ensures { result ≡ record { live = map.empty; members = set.empty } }
    {
        PairingHeap {
            nodes: HeapNodes::new(alloc),
        }
    }

    /// Gives a slot that wasn't live, for this value. The slot isn't in the heap yet.
    ///
    /// # Errors
    ///
    /// `NoRoom` with the value where there was no memory. The heap is then as it was.
    #[inline(always)]
    pub fn claim(&mut self, value: T) -> Result<Slot, NoRoom<T>>
        ensures was_free { IfOk result (λ slot. value_under self.old slot.0 ≡ None) }
        ensures live { IfOk result (λ slot. IsLiveIn self.new slot.0) }
        ensures apart { IfOk result (λ slot. set.contains self.new.members slot.0 ≡ false) }
        ensures claimed { IfOk result (λ slot. self.new ≡ with_values self.old (map.insert self.old.live slot.0 value)) }
        ensures refused { OnErr result (self.new ≡ self.old) }
        ensures handed_back { IfErr result (λ failed. failed.0 ≡ value) }
    {
        Ok(Slot(self.nodes.claim(value)?))
    }

    /// Ends the life of a slot that isn't in the heap, and gives its value.
    #[inline(always)]
    pub fn free(&mut self, slot: Slot) -> T
        requires live { IsLiveIn self.old slot.0 }
        requires apart { set.contains self.old.members slot.0 ≡ false }
        ensures value { value_under self.old slot.0 ≡ Some result }
        ensures freed { self.new ≡ with_values self.old (map.remove self.old.live slot.0) }
    {
        self.nodes.free(slot.0)
    }

    /// The value under a slot, or `None` for a slot that isn't live.
    pub fn get(&self, slot: Slot) -> Option<&T>
        ensures { option_copied result ≡ value_under self.now slot.0 }
    {
        self.nodes.get(slot.0)
    }

    /// The value under a slot that isn't in the heap, for writing, or `None` for a slot that isn't
    /// live.
    pub fn get_mut(&mut self, slot: Slot) -> Option<&mut T>
        requires { set.contains self.old.members slot.0 ≡ false }
        ensures* writes_back { sem 𝓛 (LendsValueOf T.row T.cmp T.eq T.partial_cmp self.entry slot.0 result) }
        ensures value { option_copied_mut result ≡ value_under self.old slot.0 }
    {
        if self.nodes.get(slot.0).is_none() {
            return None;
        }
        Some(self.nodes.value_mut(slot.0))
    }

    /// Whether a slot is in the heap.
    pub fn contains(&self, slot: Slot) -> bool
        ensures { result ≡ set.contains self.now.members slot.0 }
    {
        self.nodes.is_linked(slot.0)
    }

    /// Whether no slot is in the heap.
    pub fn is_empty(&self) -> bool
        ensures { result ≡ (set.len self.now.members == 0) }
    {
        self.nodes.root().is_none()
    }

    /// For proofs: the slots in the heap are live.
    pub fn members_are_live(&self)
        ensures { MembersAreLive self.now }
    {
        let _ = &self.nodes;
    }

    /// Adds a live slot that isn't in the heap.
    ///
    /// Keeps `PairingHeap::insert` of futures-intrusive.
    #[inline(always)]
    pub fn insert(&mut self, slot: Slot)
        requires live { IsLiveIn self.old slot.0 }
        requires apart { set.contains self.old.members slot.0 ≡ false }
        ensures member { set.contains self.new.members slot.0 ≡ true }
        ensures members { self.new.members ≡ set.insert self.old.members slot.0 }
        ensures live { self.new.live ≡ self.old.live }
    {
        self.nodes.insert(slot.0);
    }

    /// A slot in the heap that no slot in the heap has a lesser value than, or `None` where the
    /// heap is empty.
    ///
    /// Keeps `PairingHeap::peek_min` of futures-intrusive.
    pub fn peek_min(&self) -> Option<Slot>
        ensures { MatchOption result (self.now.members ≡ set.empty) (λ slot. IsLeastOf T.cmp self.now slot.0) }
    {
        match self.nodes.root() {
            Some(root) => Some(Slot(root)),
            None => None,
        }
    }

    /// Takes a slot out of the heap, the least or any other. It stays live.
    ///
    /// Keeps `PairingHeap::remove` of futures-intrusive.
    #[inline(always)]
    pub fn remove(&mut self, slot: Slot)
        requires { set.contains self.old.members slot.0 ≡ true }
        ensures apart { set.contains self.new.members slot.0 ≡ false }
        ensures members { self.new.members ≡ set.remove self.old.members slot.0 }
        ensures live { self.new.live ≡ self.old.live }
    {
        self.nodes.remove(slot.0);
    }
}
