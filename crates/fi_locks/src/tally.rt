//! How much of a primitive is held, by the count of a ledger.
ghost use Rattle.std.specs.Prelude.{◌≡◌, ◌+◌, ◌≤◌};

use std::fmt;
use std::marker::Model;
use std::sync::ledger::{Blank, Book, Ledger, Share};

/// How much is held of what a primitive hands out: the total of its ledger's book.
#[derive(Drop)]
pub struct Tally<L: Ledger> {
    book: Book<L>,
    // The parts of the ledger that no grant has.
    rest: Share<L>,
}

impl<L: Ledger> fmt::Debug for Tally<L> {
    fn fmt<F: fmt::Write>(&self, f: &mut fmt::Formatter<F>) -> fmt::Result {
        f.debug_struct("Tally").finish()
    }
}

impl<L: Ledger> Model for Tally<L> {
    ghost use Rattle.std.specs.Prelude.{◌≡◌, ◌+◌, ℕ};

    ghost Value = { ℕ };

    ghost view = { λ tally. tally.book.total };

    ghost invariant = { λ tally. (tally.rest.parts + tally.book.total ≡ L.parts) × (tally.rest.amount ≡ 0) };
}

impl<L: Ledger> Tally<L> {
    /// Nothing is held yet. The blank is of the ledger `L`, and has a part for each unit that can be held.
    pub fn new(blank: Blank) -> Self
        requires name { blank.name ≡ L.name }
        requires parts { blank.parts ≡ L.parts }
        ensures { result ≡ 0 }
    {
        let (book, rest) = blank.open::<L>();
        Tally { book, rest }
    }

    /// Hands out this many units, which are then held. The caller has seen that the ledger has a part for each.
    pub fn hand_out(&mut self, units: usize) -> Grant<L>
        requires { self.old + units ≤ L.parts }
        ensures units { result ≡ units }
        ensures held { self.new ≡ self.old + units }
    {
        let Tally { book, rest } = self;
        let mut share = rest.split_off(units as u64, 0);
        if units > 0 {
            book.add(&mut share, units as u64);
        }
        Grant { units, share }
    }

    /// Takes a grant in again, whose units were held, and answers how many they are.
    pub fn take_in(&mut self, grant: Grant<L>) -> usize
        ensures units { result ≡ grant }
        ensures held { self.old ≡ self.new + grant }
    {
        let Tally { book, rest } = self;
        let Grant { units, mut share } = grant;
        book.audit(&mut share);
        rest.merge(share);
        book.sub(rest, units as u64);
        units
    }
}

/// This many units were handed out. It has no `Drop`: only taking them in again ends it, so a guard or a releaser whose drop keeps
/// what it holds does not compile.
pub struct Grant<L: Ledger> {
    units: usize,
    // A part of the ledger for each unit.
    share: Share<L>,
}

impl<L: Ledger> fmt::Debug for Grant<L> {
    fn fmt<F: fmt::Write>(&self, f: &mut fmt::Formatter<F>) -> fmt::Result {
        f.debug_struct("Grant").finish()
    }
}

impl<L: Ledger> Model for Grant<L> {
    ghost use Rattle.std.specs.Prelude.{◌≡◌, ℕ};

    ghost Value = { ℕ };

    ghost view = { λ grant. grant.units };

    ghost invariant = { λ grant. (grant.share.parts ≡ grant.units) × (grant.share.amount ≡ grant.units) };
}

impl<L: Ledger> Grant<L> {
    /// How many units these are.
    pub fn units(&self) -> usize
        ensures { result ≡ self.now }
    {
        self.units
    }

    /// Takes all its units out.
    pub fn take(&mut self) -> Grant<L>
        ensures all { result ≡ self.old }
        ensures none { self.new ≡ 0 }
    {
        let units = self.units;
        let share = self.share.split_off(units as u64, units as u64);
        self.units = 0;
        Grant { units, share }
    }

    /// For proofs: two grants that are alive have parts of the ledger apart from one another.
    pub fn apart(&mut self, other: &mut Grant<L>)
        ensures { self.old + other.old ≤ L.parts }
    {
        self.share.give(&mut other.share, 0, 0);
    }
}
