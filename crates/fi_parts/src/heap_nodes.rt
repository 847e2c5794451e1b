//! The nodes of a heap: a value under each slot, and the links of those that are in the heap.
ghost use Rattle.std.specs.Prelude.{◌≡◌, Some, None, is_some, [], IfOk, IfErr, OnErr, option_copied};
ghost use Rattle.std.specs.Borrow.{sem};
ghost use Rattle.slab.specs.Slab.{get, ContainsKey, Updates};
ghost use Rattle.fi_parts.specs.HeapForests.{child_of, next_of, child_to, next_to, back_to, placed};
ghost use Rattle.fi_parts.specs.HeapNodes.{values_of, links_of, IsLinked, Relinks, loose_node, LendsValueIn};

use crate::errors::NoRoom;
use crate::heap_links::{Link, NodeLinks};
use crate::memory::insert_in;
use slab::Slab;
use std::alloc::Global;

/// The link that leads to a node.
#[derive(Clone, Copy)]
pub enum Back {
    /// The heap's own.
    Root,
    /// The link from a parent to its first child.
    Parent(usize),
    /// The link from a child to the next child of the same parent.
    Sibling(usize),
}

/// The links of a node that is in the heap.
#[derive(Clone, Copy)]
pub struct HeapLinks {
    pub child: Link,
    pub next: Link,
    pub back: Back,
}

/// A value, with links where it is in the heap.
#[derive(Drop)]
pub struct HeapNode<T> {
    value: T,
    links: NodeLinks,
}

/// Nodes under slots, and the root of the tree that the linked ones make.
#[derive(Drop)]
pub struct HeapNodes<T> {
    store: Slab<HeapNode<T>>,
    root: Link,
}

impl<T> HeapNodes<T> {
    /// No live slot, and no root. It takes no memory yet.
    pub fn new(alloc: Global) -> Self
        ensures empty { result.store.slots ≡ [] }
        ensures root { result.root ≡ None }
    {
        HeapNodes {
            store: Slab::new(alloc),
            root: Link::none(),
        }
    }

    /// The root of the heap's tree; None for an empty heap.
    pub fn root(&self) -> Option<usize>
        ensures { result ≡ self.now.root }
    {
        self.root.get()
    }

    /// Makes this the root.
    pub fn set_root(&mut self, root: Link)
        ensures { self.new ≡ record self.old { root = root } }
    {
        self.root = root;
    }

    /// The value of a live slot; None for another.
    pub fn get(&self, slot: usize) -> Option<&T>
        ensures { option_copied result ≡ values_of self.now slot }
    {
        match self.store.get(slot) {
            Some(node) => Some(&node.value),
            None => None,
        }
    }

    /// The value of a live slot.
    pub fn value(&self, slot: usize) -> &T
        requires { ContainsKey self.now.store slot }
        ensures { values_of self.now slot ≡ Some result.now }
    {
        let node = &self.store[slot];
        &node.value
    }

    /// The value of a live slot, to be written.
    pub fn value_mut(&mut self, slot: usize) -> &mut T
        requires { ContainsKey self.old.store slot }
        ensures* writes_back { sem 𝓛 (LendsValueIn T.row self.entry slot result) }
        ensures value { values_of self.old slot ≡ Some result.now }
    {
        let node = &mut self.store[slot];
        &mut node.value
    }

    /// Returns `true` if the node has links, so it is in the heap.
    pub fn is_linked(&self, slot: usize) -> bool
        ensures { result ≡ is_some (links_of self.now slot) }
    {
        match self.store.get(slot) {
            Some(node) => node.links.is_some(),
            None => false,
        }
    }

    /// A new node without links. Where there is no memory the value comes back.
    #[inline(always)]
    pub fn claim(&mut self, value: T) -> Result<usize, NoRoom<T>>
        ensures was_free { IfOk result (λ slot. get self.old.store slot ≡ None) }
        ensures claimed { IfOk result (λ slot. Updates self.old.store self.new.store slot (Some (loose_node value))) }
        ensures refused { OnErr result (self.new.store.slots ≡ self.old.store.slots) }
        ensures handed_back { IfErr result (λ failed. failed.0 ≡ value) }
        ensures root { self.new.root ≡ self.old.root }
    {
        let node = HeapNode {
            value,
            links: NodeLinks::none(),
        };
        match insert_in(&mut self.store, node) {
            Ok(slot) => Ok(slot),
            Err((node, refused)) => {
                let HeapNode { value, links: _ } = node;
                Err(NoRoom::of(value, refused))
            }
        }
    }

    /// Takes a node away, and gives its value back. Links that name it are the caller's care.
    #[inline(always)]
    pub fn free(&mut self, slot: usize) -> T
        requires { ContainsKey self.old.store slot }
        ensures value { values_of self.old slot ≡ Some result }
        ensures freed { Updates self.old.store self.new.store slot None }
        ensures root { self.new.root ≡ self.old.root }
    {
        let HeapNode { value, links: _ } = self.store.remove(slot);
        value
    }

    /// The next sibling of a node that is in the heap.
    pub fn next(&self, slot: usize) -> Link
        requires { IsLinked self.now slot }
        ensures { result ≡ next_of (links_of self.now slot) }
    {
        let node = &self.store[slot];
        node.links.next()
    }

    /// The link to a node that is in the heap.
    pub fn link_to(&self, slot: usize) -> Link
        requires { IsLinked self.now slot }
        ensures { result ≡ Some slot }
    {
        let _capacity = self.store.capacity();
        Link::to(slot)
    }

    /// Takes the links of a node that is in the heap, and leaves it none.
    #[inline(always)]
    pub fn take_links(&mut self, slot: usize) -> HeapLinks
        requires { IsLinked self.old slot }
        ensures links { links_of self.old slot ≡ Some result }
        ensures taken { Relinks self.old self.new slot None }
    {
        let node = &mut self.store[slot];
        node.links.take()
    }

    /// Gives a node these links, or none.
    pub fn set_links(&mut self, slot: usize, links: Option<HeapLinks>)
        requires { ContainsKey self.old.store slot }
        ensures { Relinks self.old self.new slot links }
    {
        let node = &mut self.store[slot];
        node.links = NodeLinks::of(links);
    }

    /// Makes this the node's first child.
    pub fn set_child(&mut self, slot: usize, child: Link)
        requires { IsLinked self.old slot }
        ensures { Relinks self.old self.new slot (child_to (links_of self.old slot) child) }
    {
        let node = &mut self.store[slot];
        node.links.set_child(child);
    }

    /// Makes this the first child of a node that is in the heap, and gives the one before.
    pub fn replace_child(&mut self, slot: usize, child: Link) -> Link
        requires { IsLinked self.old slot }
        ensures older { result ≡ child_of (links_of self.old slot) }
        ensures replaced { Relinks self.old self.new slot (child_to (links_of self.old slot) child) }
    {
        let node = &mut self.store[slot];
        node.links.replace_child(child)
    }

    /// Makes this the node's next sibling.
    pub fn set_next(&mut self, slot: usize, next: Link)
        requires { IsLinked self.old slot }
        ensures { Relinks self.old self.new slot (next_to (links_of self.old slot) next) }
    {
        let node = &mut self.store[slot];
        node.links.set_next(next);
    }

    /// Says what stands before the node.
    pub fn set_back(&mut self, slot: usize, back: Back)
        requires { IsLinked self.old slot }
        ensures { Relinks self.old self.new slot (back_to (links_of self.old slot) back) }
    {
        let node = &mut self.store[slot];
        node.links.set_back(back);
    }

    /// Says what stands behind the node and before it.
    pub fn set_place(&mut self, slot: usize, next: Link, back: Back)
        requires { IsLinked self.old slot }
        ensures { Relinks self.old self.new slot (placed (links_of self.old slot) next back) }
    {
        let node = &mut self.store[slot];
        node.links.set_place(next, back);
    }
}
