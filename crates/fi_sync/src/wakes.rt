//! A state that is lent for one call at a time, and the duty to wake those that the call named.
ghost use Rattle.std.specs.Prelude.{◌≡◌, true, List, Option, IfSome, IfNone, MatchOption, is_some, length};
ghost use Rattle.std.specs.Borrow.{MutBor};
ghost use Rattle.futures.specs.Poll.{OnPending};
ghost use Rattle.futures.specs.Task.{Covers, Keeps};
ghost use Rattle.futures.specs.declared.task.waker.Waker.{Waker};
ghost use Rattle.fi_sync.specs.Waiting.{is_over, HadToWait, IsPolled, IsSettled, PollsAs};
ghost use Rattle.fi_sync.specs.Wakes.{TakesFirst};

mod owed;
mod taken_apart;

use crate::claim::{Claim, Fate};
use crate::slot_future::{PollOutput, PollSlot, SlotPolled};
use fi_parts::memory::waker_for;
use fi_parts::{Refused, Slot};
use futures::task::{Context, Poll, Source, Waker};
pub use owed::Owed;
use std::fmt;
use std::marker::Model;
use std::sync::{Mutex, Wait};

/// The waker of a poll, or None: a poll that waits has one, a ready one may do without.
pub type PollWaker = Option<Waker>;

/// A state that wakes nobody itself: its calls name whom to wake.
pub trait HasOutbox {
    /// The wakers that are named to be woken, the oldest first.
    ghost wakers: { Self → List (Option Waker) };

    /// A `next_wake` that answers this leads from old to new: what it does to the whole state.
    ghost wakes: { Self → Option (Option Waker) → Self → Type 0 };

    /// Takes out the oldest waker that was named to be woken; None where none is left.
    fn next_wake(&mut self) -> Option<PollWaker>
        ensures taken { TakesFirst (wakers self.old) result (wakers self.new) }
        ensures step { wakes self.old result self.new };

    /// How many wakers are named to be woken. (A state with two outboxes may name more than a `usize` counts.)
    fn wake_count(&self) -> u128
        ensures { result ≡ length (wakers self.now) };
}

/// A state behind a lock, which lends it for one call at a time.
///
/// Only this module has the lock, and no reference to the state outlives a hold of it. So whoever made a call has an `Owed`, and
/// only what the call answered can go from one hold of the lock to another. (`into_inner` and `get_mut` of a mutex take no lock:
/// nobody else reaches it then, so nobody waits.)
#[derive(Drop)]
pub struct Guarded<S> {
    state: Mutex<S>,
}

impl<S> fmt::Debug for Guarded<S> {
    fn fmt<F: fmt::Write>(&self, f: &mut fmt::Formatter<F>) -> fmt::Result {
        f.debug_struct("Guarded").finish()
    }
}

impl<S> Guarded<S> {
    /// Puts a state behind a lock.
    pub fn new(state: S) -> Self {
        Guarded {
            state: Mutex::new(state),
        }
    }
}

impl<S: HasOutbox> Guarded<S> {
    /// Makes a call on the state in one hold of the lock. What is owed after it is a wake for each waker that is named then.
    ///
    /// The call takes an input, since a closure can capture only values that are `Drop`.
    #[inline(always)]
    pub fn lend<R: Wait, I, A, F>(&self, rt: &R, input: I, call: F) -> (A, Owed<'_, S>)
    where
        F: FnOnce(&mut S, I) -> A,
        requires { F.IsAlwaysCallable call }
        // What the state was when the lock was taken is not said.
        ensures { (shown : MutBor S) × (left : MutBor S) × F.post call shown input result.0 left
            × (result.1 ≡ length (S.wakers left.now)) }
    {
        counted(self, &mut *self.state.lock(rt), input, call)
    }

    /// Polls the future that has this claim, as `lend` makes a call. (The borrow checker doesn't cover a closure that does it.)
    ///
    /// A waker is made if the poll has to wait and there is no spare one, in the same hold of the lock, or before it if the spare
    /// one is another task's. If the poll has to wait and there is none then, the answer is None, nothing has changed, and `refused`
    /// shows that a waker could not be made. If the poll ends the future, that is cancelled too, in the same hold.
    #[inline(always)]
    pub fn poll<K, R: Wait>(
        &self,
        rt: &R,
        claim: Claim<K>,
        cx: &mut Context<'_>,
        source: &Source,
        spare: &mut Option<Waker>,
        refused: &mut Option<Refused>,
    ) -> (SlotPolled<S::Output>, Fate<K, S::Left>, Owed<'_, S>)
    where
        S: PollSlot<K>,
        ensures polled { (old : S) × (new : S) × (result.2 ≡ length (S.wakers new))
            × IsSettled S.polls S.cancels S.Output.is_last claim result.0 result.1 old new }
        ensures registered { IfSome result.0 (λ polled. OnPending polled.0 (Covers cx.new (λ s. s ≡ source.now.id))) }
        ensures lacks { IfNone result.0 (cx.new.lacks_waker ≡ true) }
        ensures put_off { IfNone result.0 (HadToWait S.would_wait claim) }
        ensures refused { IfNone result.0 (is_some refused.new ≡ true) }
        ensures kept { Keeps cx.old cx.new }
    {
        if spare.is_some() {
            // It may be another task's, whose drop wakes that task: so it is exchanged before the lock is taken.
            let _: Poll<()> = cx.register(source, spare);
        }
        let state = &mut *self.state.lock(rt);
        let (polled, fate) = poll_or_end(state, claim, cx, source, spare, refused);
        (polled, fate, Owed::of(self, state))
    }

    /// Cancels the future that has this claim, as `lend` makes a call.
    #[inline(always)]
    pub fn cancel<K, R: Wait>(&self, rt: &R, claim: Claim<K>) -> (S::Left, Owed<'_, S>)
    where
        S: PollSlot<K>,
        ensures { (old : S) × (new : S) × S.cancels old claim result.0 new × (result.1 ≡ length (S.wakers new)) }
    {
        let state = &mut *self.state.lock(rt);
        let left = claim.cancel(state);
        (left, Owed::of(self, state))
    }

    // Takes out the oldest waker, in a hold of the lock that is over when it comes back: a waker's wake and its drop could run its
    // owner's code (the kit's do not), which may take the same lock.
    #[inline(always)]
    fn take_oldest<R: Wait>(&self, rt: &R) -> Option<PollWaker>
        ensures { (old : S) × (new : S) × TakesFirst (S.wakers old) result (S.wakers new) }
    {
        self.state.lock(rt).next_wake()
    }
}

impl<S: HasOutbox> Owed<'_, S> {
    /// Takes out and wakes so many, the oldest first: each is taken out in a hold of the lock of its own, and woken with no lock
    /// held.
    ///
    /// Another thread may have taken some of them out; then it wakes them.
    #[inline(always)]
    pub fn pay<R: Wait>(self, rt: &R) {
        let mut owed = self;
        while !owed.is_paid() {
            match owed.pay_one(rt) {
                Some(rest) => owed = rest,
                None => return,
            }
        }
        owed.end();
    }
}

// Polls the future that has this claim as `poll_or_register` does, and cancels it if it has ended then. (Of a state that has taken it out,
// the cancel finds nothing.)
#[inline(always)]
fn poll_or_end<K, S: PollSlot<K>>(
    state: &mut S,
    claim: Claim<K>,
    cx: &mut Context<'_>,
    source: &Source,
    spare: &mut Option<Waker>,
    refused: &mut Option<Refused>,
) -> (SlotPolled<S::Output>, Fate<K, S::Left>)
    requires registered { is_some spare.old ≡ true → Covers cx.old (λ s. s ≡ source.now.id) }
    ensures settled { IsSettled S.polls S.cancels S.Output.is_last claim result.0 result.1 state.old state.new }
    ensures registered { IfSome result.0 (λ polled. OnPending polled.0 (Covers cx.new (λ s. s ≡ source.now.id))) }
    ensures lacks { IfNone result.0 (cx.new.lacks_waker ≡ true) }
    ensures put_off { IfNone result.0 (S.would_wait state.old claim) }
    ensures refused { IfNone result.0 (is_some refused.new ≡ true) }
    ensures kept { Keeps cx.old cx.new }
{
    let polled = poll_or_register(state, claim.slot(), cx, source, spare, refused);
    if has_ended(&polled) {
        let left = claim.cancel(state);
        return (polled, Fate::Ended(left));
    }
    (polled, Fate::GoesOn(claim))
}

// Returns `true` if the answer of this poll ends its future.
fn has_ended<A: PollOutput>(polled: &SlotPolled<A>) -> bool
    ensures { result ≡ is_over A.is_last polled.now }
{
    match polled {
        Some((Poll::Ready(output), _)) => output.ends(),
        _ => false,
    }
}

// Polls the future under this slot with the spare waker, or without one, and if it has to wait then, with a waker that is made now.
#[inline(always)]
fn poll_or_register<K, S: PollSlot<K>>(
    state: &mut S,
    slot: Slot,
    cx: &mut Context<'_>,
    source: &Source,
    spare: &mut Option<Waker>,
    refused: &mut Option<Refused>,
) -> SlotPolled<S::Output>
    requires registered { is_some spare.old ≡ true → Covers cx.old (λ s. s ≡ source.now.id) }
    ensures polled { MatchOption result (state.new ≡ state.old)
        (λ polled. IsPolled (PollsAs S.takes_out S.polls S.cancels S.Output.is_last) slot.0 polled.0 state.old state.new) }
    ensures registered { IfSome result (λ polled. OnPending polled.0 (Covers cx.new (λ s. s ≡ source.now.id))) }
    ensures lacks { IfNone result (cx.new.lacks_waker ≡ true) }
    ensures put_off { IfNone result (S.would_wait state.old slot.0) }
    ensures refused { IfNone result (is_some refused.new ≡ true) }
    ensures kept { Keeps cx.old cx.new }
{
    if let Some(polled) = state.poll_slot(slot, spare.take()) {
        return Some(polled);
    }
    match waker_for(cx, source) {
        Ok(waker) => state.poll_slot(slot, Some(waker)),
        Err(lack) => {
            *refused = Some(lack);
            None
        }
    }
}

// Makes a call on a state, and counts the wakers that are named after it.
#[inline(always)]
fn counted<'a, S: HasOutbox, I, A, F>(
    guarded: &'a Guarded<S>,
    state: &mut S,
    input: I,
    call: F,
) -> (A, Owed<'a, S>)
where
    F: FnOnce(&mut S, I) -> A,
    requires { F.IsAlwaysCallable call }
    ensures { (shown : MutBor S) × (left : MutBor S) × (shown.now ≡ state.old) × (left.now ≡ state.new)
        × F.post call shown input result.0 left × (result.1 ≡ length (S.wakers left.now)) }
{
    let answer = call(state, input);
    (answer, Owed::of(guarded, state))
}
