//! The links of a heap's nodes, in four words a node.
ghost use Rattle.std.specs.Prelude.{◌≡◌, ◌<◌, ◌-◌, ◌^◌, Some, None, true, is_some};

use crate::heap_nodes::{Back, HeapLinks};
use std::marker::Model;
use std::mem;

/// A slot or none in one word: 0 is none, and another number is the slot one below it.
#[derive(Clone, Copy)]
pub struct Link(usize);

impl Model for Link {
    ghost use Rattle.std.specs.Prelude.{ℕ, Option};
    ghost use Rattle.std.specs.Coded.{coded_ℕ, coded_option};
    ghost use Rattle.fi_parts.specs.HeapLink.{link_of, word_of};

    ghost Value = { Option ℕ };

    ghost coded = { coded_option coded_ℕ };

    ghost view = { λ l. link_of l.0 };

    ghost inverse = { λ o. record { 0 = word_of o } };
}

impl Link {
    /// No slot.
    pub fn none() -> Link
        ensures { result ≡ None }
    {
        Link(0)
    }

    /// This slot.
    pub fn to(slot: usize) -> Link
        requires { slot < 2 ^ 64 - 1 }
        ensures { result ≡ Some slot }
    {
        Link(slot + 1)
    }

    /// The slot, if there is one.
    pub fn get(self) -> Option<usize>
        ensures { result ≡ self }
    {
        if self.0 == 0 { None } else { Some(self.0 - 1) }
    }
}

/// Where a node stands.
#[derive(Clone, Copy)]
enum Standing {
    /// At the heap's root.
    Top,
    /// First of the children of this parent.
    Under(usize),
    /// Next after this sibling.
    After(usize),
    /// Not in the heap.
    Apart,
}

impl Standing {
    ghost use Rattle.fi_parts.specs.HeapStanding.{back_at};

    /// Where this link leads.
    fn behind(back: Back) -> Standing
        ensures { back_at result ≡ Some back }
    {
        match back {
            Back::Root => Standing::Top,
            Back::Parent(parent) => Standing::Under(parent),
            Back::Sibling(sibling) => Standing::After(sibling),
        }
    }

    /// The link that leads there, if one does.
    fn back(self) -> Option<Back>
        ensures { result ≡ back_at self }
    {
        match self {
            Standing::Top => Some(Back::Root),
            Standing::Under(parent) => Some(Back::Parent(parent)),
            Standing::After(sibling) => Some(Back::Sibling(sibling)),
            Standing::Apart => None,
        }
    }
}

/// The links of a node, or that it has none.
#[derive(Drop)]
pub struct NodeLinks {
    child: Link,
    next: Link,
    standing: Standing,
}

impl Model for NodeLinks {
    ghost use Rattle.std.specs.Prelude.{Option};
    ghost use Rattle.fi_parts.specs.declared.heap_nodes.HeapLinks.{HeapLinks};

    ghost Value = { Option HeapLinks };

    ghost use Rattle.fi_parts.specs.HeapStanding.{back_at, links_at};

    ghost view = { λ l. links_at (back_at l.standing) l.child l.next };
}

impl NodeLinks {
    ghost use Rattle.fi_parts.specs.HeapForests.{child_of, next_of, child_to, next_to, back_to, placed};

    /// No links.
    pub fn none() -> NodeLinks
        ensures { result ≡ None }
    {
        NodeLinks {
            child: Link::none(),
            next: Link::none(),
            standing: Standing::Apart,
        }
    }

    /// These links, or none.
    pub fn of(links: Option<HeapLinks>) -> NodeLinks
        ensures { result ≡ links }
    {
        match links {
            Some(links) => NodeLinks {
                child: links.child,
                next: links.next,
                standing: Standing::behind(links.back),
            },
            None => NodeLinks::none(),
        }
    }

    /// Takes the links of a node that has them, and leaves none.
    pub fn take(&mut self) -> HeapLinks
        requires { is_some self.old ≡ true }
        ensures links { self.old ≡ Some result }
        ensures taken { self.new ≡ None }
    {
        let back = self.standing.back().unwrap();
        self.standing = Standing::Apart;
        HeapLinks {
            child: self.child,
            next: self.next,
            back,
        }
    }

    /// Returns `true` if the node has links.
    pub fn is_some(&self) -> bool
        ensures { result ≡ is_some self.now }
    {
        self.standing.back().is_some()
    }

    /// The next sibling of a node that has links.
    pub fn next(&self) -> Link
        requires { is_some self.now ≡ true }
        ensures { result ≡ next_of self.now }
    {
        self.next
    }

    /// Makes this the first child.
    pub fn set_child(&mut self, child: Link)
        ensures { self.new ≡ child_to self.old child }
    {
        self.child = child;
    }

    /// Makes this the first child of a node that has links, and gives the one before.
    pub fn replace_child(&mut self, child: Link) -> Link
        requires { is_some self.old ≡ true }
        ensures older { result ≡ child_of self.old }
        ensures replaced { self.new ≡ child_to self.old child }
    {
        mem::replace(&mut self.child, child)
    }

    /// Makes this the next sibling.
    pub fn set_next(&mut self, next: Link)
        ensures { self.new ≡ next_to self.old next }
    {
        self.next = next;
    }

    /// Says what stands before the node.
    pub fn set_back(&mut self, back: Back)
        requires { is_some self.old ≡ true }
        ensures { self.new ≡ back_to self.old back }
    {
        self.standing = Standing::behind(back);
    }

    /// Says what stands behind the node and before it.
    pub fn set_place(&mut self, next: Link, back: Back)
        requires { is_some self.old ≡ true }
        ensures { self.new ≡ placed self.old next back }
    {
        self.next = next;
        self.standing = Standing::behind(back);
    }
}
