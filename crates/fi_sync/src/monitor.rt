//! A state whose calls are made one at a time, each in one hold of a lock.
ghost use Rattle.std.specs.Prelude.{◌≡◌, ℕ, true, Ok, Err, IfOk, IfErr, IfSome, IfNone, is_some};
ghost use Rattle.std.specs.Borrow.{MutBor};
ghost use Rattle.futures.specs.Poll.{OnPending};
ghost use Rattle.futures.specs.Task.{Covers, Keeps};
ghost use Rattle.fi_parts.specs.declared.errors.Slot.{Slot};
ghost use Rattle.fi_sync.specs.Waiting.{HadToWait, IsLeft, IsSettled};

mod taken_apart;

use crate::claim::{Claim, Fate};
use crate::slot_future::{PollSlot, SlotPolled};
use crate::wakes::{Guarded, HasOutbox};
use fi_parts::{Refused, Slot};
use futures::task::{Context, Source, Waker};
use std::alloc::Global;
use std::fmt;
use std::marker::Model;
use std::sync::{Arc, Wait};

/// A state behind its lock, the runtime that waits for the lock, and the source that the state's futures register at.
#[derive(Drop)]
pub struct Monitor<S, R> {
    rt: R,
    source: Source,
    state: Guarded<S>,
}

impl<S, R> fmt::Debug for Monitor<S, R> {
    fn fmt<F: fmt::Write>(&self, f: &mut fmt::Formatter<F>) -> fmt::Result {
        f.debug_struct("Monitor").finish()
    }
}

impl<S, R> Model for Monitor<S, R> {
    ghost use Rattle.std.specs.Prelude.{ℕ};

    ghost Value = { ℕ };

    ghost view = { λ monitor. monitor.source.id };
}

impl<S, R> Monitor<S, R> {
    /// Puts a state behind a lock.
    pub fn new(rt: R, state: S) -> Self {
        Monitor {
            rt,
            source: Source::new(),
            state: Guarded::new(state),
        }
    }

    /// The source that the state's futures register at.
    pub fn source(&self) -> &Source
        ensures { result.now.id ≡ self.now }
    {
        &self.source
    }

    /// The runtime that waits for the lock.
    pub fn runtime(&self) -> &R {
        &self.rt
    }
}

impl<S: HasOutbox, R: Wait> Monitor<S, R> {
    /// Makes a call on the state in one hold of the lock, lets go, and then wakes those that the state had named.
    ///
    /// The call takes an input, since a closure can capture only values that are `Drop`. What it answers is dropped after the
    /// lock is released.
    #[inline(always)]
    pub fn call<I, A, F: FnOnce(&mut S, I) -> A>(&self, input: I, call: F) -> A
        requires { F.IsAlwaysCallable call }
        ensures { (shown : MutBor S) × (left : MutBor S) × F.post call shown input result left }
    {
        let (answer, owed) = self.state.lend(&self.rt, input, call);
        owed.pay(&self.rt);
        answer
    }

    /// Makes a future of the kind `K`, as `call` makes a call: its claim on the slot that the state gave it.
    #[inline(always)]
    pub fn claim<K, I, E, F: FnOnce(&mut S, I) -> Result<Slot, E>>(
        &self,
        input: I,
        call: F,
    ) -> Result<Claim<K>, E>
        requires { F.IsAlwaysCallable call }
        ensures made { IfOk result (λ claim. (shown : MutBor S) × (left : MutBor S) × (slot : Slot) × (claim ≡ slot.0)
            × F.post call shown input (Ok slot) left) }
        ensures refused { IfErr result (λ error. (shown : MutBor S) × (left : MutBor S) × F.post call shown input (Err error) left) }
    {
        match self.call(input, call) {
            Ok(slot) => Ok(Claim::of(slot)),
            Err(error) => Err(error),
        }
    }

    /// Polls the future that has this claim, as `call` makes a call. A spare waker is used up if the poll waits, or comes back as
    /// unused. None if the poll has to wait, has no spare one and no waker can be made; then nothing has changed.
    ///
    /// A future that the poll ends is cancelled in the same hold of the lock. The claim of one that goes on comes back.
    #[inline(always)]
    pub fn poll<K>(
        &self,
        claim: Claim<K>,
        cx: &mut Context<'_>,
        spare: &mut Option<Waker>,
        refused: &mut Option<Refused>,
    ) -> (SlotPolled<S::Output>, Fate<K, S::Left>)
    where
        S: PollSlot<K>,
        ensures polled { (old : S) × (new : S) × IsSettled S.polls S.cancels S.Output.is_last claim result.0 result.1 old new }
        ensures registered { IfSome result.0 (λ polled. OnPending polled.0 (Covers cx.new (λ s. s ≡ self.now))) }
        ensures lacks { IfNone result.0 (cx.new.lacks_waker ≡ true) }
        ensures put_off { IfNone result.0 (HadToWait S.would_wait claim) }
        ensures refused { IfNone result.0 (is_some refused.new ≡ true) }
        ensures kept { Keeps cx.old cx.new }
    {
        let (polled, fate, owed) = self
            .state
            .poll(&self.rt, claim, cx, &self.source, spare, refused);
        owed.pay(&self.rt);
        (polled, fate)
    }

    /// Cancels the future that has this claim, as `call` makes a call, and answers what it leaves.
    #[inline(always)]
    pub fn cancel<K>(&self, claim: Claim<K>) -> S::Left
    where
        S: PollSlot<K>,
        ensures { IsLeft S.cancels claim result }
    {
        let (left, owed) = self.state.cancel(&self.rt, claim);
        owed.pay(&self.rt);
        left
    }
}

/// What reaches a primitive that threads share: a reference to it, or an `Arc`.
pub trait HasMonitor: Drop {
    /// What stands behind the primitive's lock.
    type State: HasOutbox;

    /// What waits for the lock.
    type Runtime: Wait;

    /// The source that the state's futures register at.
    ghost source: { Self → ℕ };

    /// The primitive's state behind its lock.
    fn monitor(&self) -> &Monitor<Self::State, Self::Runtime>
        ensures { result.now ≡ source self.now };
}

impl<'a, S: HasOutbox, R: Wait> HasMonitor for &'a Monitor<S, R> {
    type State = S;

    type Runtime = R;

    ghost source = { λ monitor. monitor.now };

    fn monitor(&self) -> &Monitor<S, R> {
        *self
    }
}

impl<S: HasOutbox + Drop, R: Wait + Drop> HasMonitor for Arc<Monitor<S, R>, Global> {
    type State = S;

    type Runtime = R;

    ghost source = { λ monitor. monitor.value };

    fn monitor(&self) -> &Monitor<S, R> {
        &**self
    }
}
