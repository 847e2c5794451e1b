//! The futures of the primitives of one thread.
ghost use Rattle.std.specs.Prelude.{◌≡◌, true, false, IfSome, IfNone};
ghost use Rattle.futures.specs.Poll.{OnPending};

use crate::errors::Slot;
use crate::futures_of::{FutureKind, FuturesOf};
use futures::task::Poll;
use std::fmt;
use std::marker::{Model, PhantomData};

/// A future of the kind `K` of a primitive for one thread, which is lent to it to be polled. `leave` or `cancel` spends it, and
/// is lent the primitive too; it cannot be dropped.
pub struct LocalFuture<K> {
    slot: Slot,
    is_ended: bool,
    kind: PhantomData<K>,
}

impl<K> Model for LocalFuture<K> {
    ghost use Rattle.fi_parts.specs.Polled as polled;

    ghost Value = { polled.LocalFuture };

    ghost view = { λ f. record { name = f.slot.0; has_ended = f.is_ended } };
}

impl<K> LocalFuture<K> {
    /// The future that a primitive has just made under this slot.
    pub fn at(slot: Slot) -> Self
        ensures name { result.name ≡ slot.0 }
        ensures fresh { result.has_ended ≡ false }
    {
        LocalFuture {
            slot,
            is_ended: false,
            kind: PhantomData,
        }
    }

    /// The slot of this future in its primitive.
    pub fn slot(&self) -> Slot
        ensures { result.0 ≡ self.now.name }
    {
        self.slot
    }

    /// Returns `true` if the future was polled to its end. Keeps `FusedFuture::is_terminated`.
    pub fn is_terminated(&self) -> bool
        ensures { result ≡ self.now.has_ended }
    {
        self.is_ended
    }

    /// Polls the future: it is ready, or it waits, registered with this waker. What an answer means is said by the kind's `polls`.
    ///
    /// The future's slot has to be one that may be polled in `state`: lend the future's own primitive, and don't poll it after
    /// its end.
    pub fn poll<S>(&mut self, state: &mut S, waker: K::Waker) -> Poll<K::Output>
    where
        K: FuturesOf<S, Moment = ()>,
        requires { K.is_pollable state.old self.old.name ≡ true }
        ensures polled { K.polls state.old self.old.name tt waker result state.new }
        ensures name { self.new.name ≡ self.old.name }
        ensures ended { self.new.has_ended ≡ K.is_end result }
        ensures live { K.is_live state.new self.old.name ≡ true }
        ensures shown { K.shows self.old.name result state.new }
        ensures pending { OnPending result (K.is_pollable state.new self.new.name ≡ true) }
        ensures others { K.others_stay self.old.name state.old state.new }
    {
        self.poll_at(state, (), waker)
    }

    /// Polls the future as `poll` does, at this moment.
    pub fn poll_at<S>(&mut self, state: &mut S, at: K::Moment, waker: K::Waker) -> Poll<K::Output>
    where
        K: FuturesOf<S>,
        requires { K.is_pollable state.old self.old.name ≡ true }
        ensures polled { K.polls state.old self.old.name at waker result state.new }
        ensures name { self.new.name ≡ self.old.name }
        ensures ended { self.new.has_ended ≡ K.is_end result }
        ensures live { K.is_live state.new self.old.name ≡ true }
        ensures shown { K.shows self.old.name result state.new }
        ensures pending { OnPending result (K.is_pollable state.new self.new.name ≡ true) }
        ensures others { K.others_stay self.old.name state.old state.new }
    {
        match self.poll_at_if_live(state, at, waker) {
            Some(answer) => answer,
            // It is live, as `poll_at` requires.
            None => unreachable!(),
        }
    }

    /// Polls the future as `poll` does, if one lives under its slot in this primitive that has not ended. Else None, and nothing
    /// has changed: so it asks its caller for nothing.
    pub fn poll_if_live<S>(&mut self, state: &mut S, waker: K::Waker) -> Option<Poll<K::Output>>
    where
        K: FuturesOf<S, Moment = ()>,
        ensures polled { IfSome result (λ answer. K.polls state.old self.old.name tt waker answer state.new) }
        ensures ended { IfSome result (λ answer. self.new ≡ record { name = self.old.name; has_ended = K.is_end answer }) }
        ensures live { IfSome result (λ _. K.is_live state.new self.old.name ≡ true) }
        ensures shown { IfSome result (λ answer. K.shows self.old.name answer state.new) }
        ensures pending { IfSome result (λ answer. OnPending answer (K.is_pollable state.new self.old.name ≡ true)) }
        ensures refused { IfNone result (K.is_pollable state.old self.old.name ≡ false) }
        ensures unchanged { IfNone result ((state.new ≡ state.old) × (self.new ≡ self.old)) }
        ensures others { K.others_stay self.old.name state.old state.new }
    {
        self.poll_at_if_live(state, (), waker)
    }

    /// Polls the future as `poll_if_live` does, at this moment.
    pub fn poll_at_if_live<S>(
        &mut self,
        state: &mut S,
        at: K::Moment,
        waker: K::Waker,
    ) -> Option<Poll<K::Output>>
    where
        K: FuturesOf<S>,
        ensures polled { IfSome result (λ answer. K.polls state.old self.old.name at waker answer state.new) }
        ensures ended { IfSome result (λ answer. self.new ≡ record { name = self.old.name; has_ended = K.is_end answer }) }
        ensures live { IfSome result (λ _. K.is_live state.new self.old.name ≡ true) }
        ensures shown { IfSome result (λ answer. K.shows self.old.name answer state.new) }
        ensures pending { IfSome result (λ answer. OnPending answer (K.is_pollable state.new self.old.name ≡ true)) }
        ensures refused { IfNone result (K.is_pollable state.old self.old.name ≡ false) }
        ensures unchanged { IfNone result ((state.new ≡ state.old) × (self.new ≡ self.old)) }
        ensures others { K.others_stay self.old.name state.old state.new }
    {
        let answer = K::poll(state, self.slot, at, waker)?;
        self.is_ended = K::ends(&answer);
        Some(answer)
    }

    /// Cancels the future as `cancel` does, if one lives under its slot in this primitive. Else nothing changes: so it asks its
    /// caller for nothing.
    pub fn leave<S>(self, state: &mut S) -> K::Left
    where
        K: FuturesOf<S>,
        ensures cancelled { K.is_live state.old self.name ≡ true → K.cancels state.old self.name result state.new }
        ensures kept { K.keeps state.old state.new }
        ensures unchanged { K.is_live state.old self.name ≡ false → state.new ≡ state.old }
        ensures nothing { K.is_live state.old self.name ≡ false → result ≡ K.nothing }
        ensures others { K.others_stay self.name state.old state.new }
    {
        let LocalFuture {
            slot,
            is_ended: _,
            kind: _,
        } = self;
        K::leave(state, slot)
    }

    /// Cancels the future: it leaves its primitive, as the kind's `cancels` says. A future has to live under its slot in `state`:
    /// lend the future's own primitive.
    pub fn cancel<S>(self, state: &mut S) -> K::Left
    where
        K: FuturesOf<S>,
        requires { K.is_live state.old self.name ≡ true }
        ensures cancelled { K.cancels state.old self.name result state.new }
        ensures kept { K.keeps state.old state.new }
        ensures others { K.others_stay self.name state.old state.new }
    {
        self.leave(state)
    }
}

impl<K: FutureKind> fmt::Debug for LocalFuture<K> {
    fn fmt<F: fmt::Write>(&self, f: &mut fmt::Formatter<F>) -> fmt::Result {
        f.debug_struct(K::name()).finish()
    }
}
