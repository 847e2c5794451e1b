//! How trees of a heap are melded and taken apart.
ghost use Rattle.std.specs.Prelude.{◌≡◌, Some, None, IfSome, is_some, true, false};
ghost use Rattle.fi_parts.specs.HeapForests.{child_of, backed, adopted, pointed, root_to, IsBackLinked};
ghost use Rattle.fi_parts.specs.HeapPieces.{Meldable};
ghost use Rattle.fi_parts.specs.HeapNodes.{values_of, links_of, IsLinked, Keeps, InParts, IsHeap, MeldsInto, KeepsValues, TakesOut, PutsIn};

use crate::heap_links::Link;
use crate::heap_nodes::{Back, HeapLinks, HeapNodes};

impl<T> HeapNodes<T> {
    /// Sets the way back from a node, if there is one.
    fn set_back_of(&mut self, node: Link, back: Back)
        requires { IfSome node (λ slot. IsLinked self.old slot) }
        ensures links { links_of self.new ≡ backed (links_of self.old) node back }
        ensures kept { Keeps self.old self.new }
    {
        if let Some(slot) = node.get() {
            self.set_back(slot, back);
        }
    }

    /// Makes the link that led to a node lead elsewhere.
    #[inline(always)]
    fn set_link(&mut self, back: Back, to: Link)
        requires { IsBackLinked (links_of self.old) back }
        ensures links { links_of self.new ≡ pointed (links_of self.old) back to }
        ensures root { self.new.root ≡ root_to self.old.root back to }
        ensures kept { KeepsValues self.old self.new }
    {
        match back {
            Back::Root => self.set_root(to),
            Back::Parent(parent) => self.set_child(parent, to),
            Back::Sibling(sibling) => self.set_next(sibling, to),
        }
    }

    /// Makes a node the first child of another.
    #[inline(always)]
    fn adopt(&mut self, parent: usize, child: usize)
        requires parent { IsLinked self.old parent }
        requires child { IsLinked self.old child }
        requires older { IfSome (child_of (links_of self.old parent)) (λ older. IsLinked self.old older) }
        ensures links { links_of self.new ≡ adopted (links_of self.old) parent child }
        ensures kept { Keeps self.old self.new }
    {
        let link = self.link_to(child);
        let older = self.replace_child(parent, link);
        self.set_back_of(older, Back::Sibling(child));
        self.set_place(child, older, Back::Parent(parent));
    }
}

impl<T: Ord> HeapNodes<T> {
    /// Makes the tree with the lesser top the parent of the other, and gives its top.
    #[inline(always)]
    fn meld(&mut self, left: usize, right: usize) -> usize
        requires { Meldable (links_of self.old) left right }
        ensures melded { MeldsInto T.cmp self.old self.new left right result }
        ensures kept { Keeps self.old self.new }
    {
        if self.value(left).cmp(self.value(right)).is_le() {
            self.adopt(left, right);
            left
        } else {
            self.adopt(right, left);
            right
        }
    }

    /// Melds the trees of a chain two by two, and chains what comes out, the last first.
    #[inline(always)]
    fn pair_up(&mut self, first: Link) -> Link
        requires { InParts T.cmp self.old self.old.root None first None }
        ensures paired { InParts T.cmp self.new self.new.root None result None }
        ensures kept { Keeps self.old self.new }
    {
        let mut rest = first;
        let mut pairs = Link::none();
        while let Some(left) = rest.get() {
            let right = self.next(left);
            let pair = match right.get() {
                Some(right) => {
                    rest = self.next(right);
                    self.meld(left, right)
                }
                None => {
                    rest = Link::none();
                    left
                }
            };
            let link = self.link_to(pair);
            self.set_next(pair, pairs);
            pairs = link;
        }
        pairs
    }

    /// Melds the trees of a chain into one, from the first on.
    #[inline(always)]
    fn meld_all(&mut self, first: Link) -> Option<usize>
        requires { InParts T.cmp self.old self.old.root None first None }
        ensures melded { InParts T.cmp self.new self.new.root result None None }
        ensures kept { Keeps self.old self.new }
    {
        let mut rest = first;
        let mut melded = None;
        while let Some(tree) = rest.get() {
            rest = self.next(tree);
            melded = Some(match melded {
                Some(before) => self.meld(before, tree),
                None => tree,
            });
        }
        melded
    }

    /// Melds a tree into the heap's own.
    #[inline(always)]
    fn add_tree(&mut self, tree: usize)
        requires { InParts T.cmp self.old self.old.root (Some tree) None None }
        ensures heap { IsHeap T.cmp self.new }
        ensures kept { KeepsValues self.old self.new }
    {
        let root = match self.root() {
            Some(root) => self.meld(root, tree),
            None => tree,
        };
        let link = self.link_to(root);
        self.set_place(root, Link::none(), Back::Root);
        self.set_root(link);
    }

    /// Takes a node out of its tree, and gives the first of its children, which stay chained.
    #[inline(always)]
    fn cut(&mut self, slot: usize) -> Link
        requires heap { IsHeap T.cmp self.old }
        requires member { IsLinked self.old slot }
        ensures parts { InParts T.cmp self.new self.new.root None result None }
        ensures taken { TakesOut self.old self.new slot }
    {
        let links = self.take_links(slot);
        self.set_link(links.back, links.next);
        self.set_back_of(links.next, links.back);
        links.child
    }

    /// Puts a node into the heap.
    #[inline(always)]
    pub fn insert(&mut self, slot: usize)
        requires heap { IsHeap T.cmp self.old }
        requires live { is_some (values_of self.old slot) ≡ true }
        requires apart { is_some (links_of self.old slot) ≡ false }
        ensures heap { IsHeap T.cmp self.new }
        ensures put { PutsIn self.old self.new slot }
    {
        let links = HeapLinks {
            child: Link::none(),
            next: Link::none(),
            back: Back::Root,
        };
        self.set_links(slot, Some(links));
        self.add_tree(slot);
    }

    /// Takes a node out of the heap.
    #[inline(always)]
    pub fn remove(&mut self, slot: usize)
        requires heap { IsHeap T.cmp self.old }
        requires member { IsLinked self.old slot }
        ensures heap { IsHeap T.cmp self.new }
        ensures taken { TakesOut self.old self.new slot }
    {
        let children = self.cut(slot);
        let pairs = self.pair_up(children);
        if let Some(tree) = self.meld_all(pairs) {
            self.add_tree(tree);
        }
    }
}
