//! The slot of a future, which has to be given back: by the poll that ends it, or by its drop.
ghost use Rattle.std.specs.Prelude.{◌≡◌, ℕ, Some, None};
ghost use Rattle.fi_sync.specs.Waiting.{name_after};

use crate::slot_future::PollSlot;
use fi_parts::Slot;
use std::fmt;
use std::marker::{Model, PhantomData};

/// The slot of a future of the kind `K`. It has no `Drop`: only a cancel takes it, so a future whose drop does not
/// unregister it does not compile.
pub struct Claim<K> {
    slot: Slot,
    kind: PhantomData<K>,
}

impl<K> fmt::Debug for Claim<K> {
    fn fmt<F: fmt::Write>(&self, f: &mut fmt::Formatter<F>) -> fmt::Result {
        f.debug_struct("Claim").finish()
    }
}

impl<K> Model for Claim<K> {
    ghost use Rattle.std.specs.Prelude.{ℕ};

    ghost Value = { ℕ };

    ghost view = { λ claim. claim.slot.0 };
}

impl<K> Claim<K> {
    /// The claim on a slot that its state has just given to a future. Only `Monitor::claim` makes one.
    pub(crate) fn of(slot: Slot) -> Self
        ensures { result ≡ slot.0 }
    {
        Claim {
            slot,
            kind: PhantomData,
        }
    }

    /// The slot, to be polled.
    pub fn slot(&self) -> Slot
        ensures { result.0 ≡ self.now }
    {
        self.slot
    }

    /// Cancels the future, which gives its slot back.
    #[inline(always)]
    pub fn cancel<S: PollSlot<K>>(self, state: &mut S) -> S::Left
        ensures { S.cancels state.old self result state.new }
    {
        let Claim { slot, kind: _ } = self;
        state.cancel(slot)
    }

    // Puts the claim in an empty place.
    fn store(self, place: &mut Option<Claim<K>>)
        requires { place.old ≡ None }
        ensures { place.new ≡ Some self }
    {
        match place.replace(self) {
            None => {}
            // The place is empty, as the call requires.
            Some(_) => unreachable!(),
        }
    }
}

/// What becomes of a future that is polled: it goes on under its claim, or it has ended and was cancelled, which left this.
pub enum Fate<K, L> {
    GoesOn(Claim<K>),
    Ended(L),
}

impl<K, L: Drop> Fate<K, L> {
    /// Puts the claim of a future that goes on back in its place, which is empty. What the cancel of one that has ended left is
    /// dropped: that may run any code, so no lock may be held.
    pub(crate) fn settle(self, place: &mut Option<Claim<K>>)
        requires { place.old ≡ None }
        ensures { place.new ≡ name_after self }
    {
        match self {
            Fate::GoesOn(claim) => claim.store(place),
            Fate::Ended(_left) => {}
        }
    }
}
