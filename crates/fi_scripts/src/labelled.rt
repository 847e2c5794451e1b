//! What stands under labels.
ghost use Rattle.std.specs.Prelude.{◌≡◌, ◌<◌, ◌%◌, ℕ, Some, None, OnOk, IfOk, vec_len};
ghost use Rattle.fi_scripts.specs.Stored.{shelf_of, Stores};

use crate::label::Label;
use fi_parts::Refused;
use fi_parts::memory::{insert_under, items_for, push};
use std::alloc::Global;
use std::collections::BTreeMap;

/// The most shelves.
const MOST_SHELVES: usize = 65536;

/// Values under labels.
///
/// They stand on shelves, each a small tree. Labels that differ in their last character alone share a shelf, so that
/// a script that numbers its labels finds neighbours in the same memory. Where all labels share one shelf, they are
/// found as fast as in one tree, so no choice of labels makes a look-up linear. Labels of up to eight characters have
/// shelves of their own, since a search compares numbers of 64 bits in a third fewer instructions.
#[derive(Drop)]
pub struct Labelled<V> {
    /// Those of labels with up to eight characters.
    short: Vec<BTreeMap<u64, V>>,
    /// Those of longer labels.
    long: Vec<BTreeMap<u128, V>>,
    ghost has_shelf: { 0 < vec_len short },
    ghost as_many: { vec_len long ≡ vec_len short },
}

impl<V: Copy> Labelled<V> {
    // Not at the head of the file: the struct imports what stands there, and this speaks of the struct.
    ghost use Rattle.fi_scripts.specs.Standing.{standing};

    /// An empty one with about so many shelves of each kind.
    pub fn new(alloc: Global, shelf_count: usize) -> Result<Self, Refused>
        ensures empty { IfOk result (λ labelled. (code : ℕ) → standing labelled code ≡ None) }
    {
        // An odd number, since labels are numbers in base 256.
        let count = shelf_count.min(MOST_SHELVES) / 2 * 2 + 1;
        let mut short = items_for(alloc, count)?;
        let mut long = items_for(alloc, count)?;
        for _ in 0..count {
            push(&mut short, BTreeMap::new(alloc))?;
            push(&mut long, BTreeMap::new(alloc))?;
        }
        Ok(Labelled { short, long })
    }

    /// The number of the shelf that a label belongs on.
    fn shelf_number(&self, label: Label) -> usize
        ensures short { result ≡ shelf_of self.now.short.items label.code }
        ensures long { result ≡ shelf_of self.now.long.items label.code }
    {
        label.front() as usize % self.short.len()
    }

    /// What stands under a label.
    #[inline(always)]
    pub fn get(&self, label: Label) -> Option<V>
        ensures { result ≡ standing self.now label.code }
    {
        let at = self.shelf_number(label);
        match label.short_code() {
            Some(code) => self.short[at].get(&code).copied(),
            None => self.long[at].get(&label.code()).copied(),
        }
    }

    /// Puts a value under a label, in the place of what stood there.
    pub fn insert(&mut self, label: Label, value: V) -> Result<(), Refused>
        ensures stored { OnOk result (Stores label.code (Some value) (standing self.old)
            (standing self.new)) }
    {
        let at = self.shelf_number(label);
        let Some(code) = label.short_code() else {
            return insert_under(&mut self.long[at], label.code(), value);
        };
        insert_under(&mut self.short[at], code, value)
    }

    /// Takes out what stands under a label.
    pub fn remove(&mut self, label: Label)
        ensures { Stores label.code None (standing self.old) (standing self.new) }
    {
        let at = self.shelf_number(label);
        let Some(code) = label.short_code() else {
            let _ = self.long[at].remove(&label.code());
            return;
        };
        let _ = self.short[at].remove(&code);
    }
}
