//! The future of every primitive that threads share.
ghost use Rattle.std.specs.Prelude.{◌≡◌, ℕ, Bool, Option, Ok, Err, Some, None, true, false, IfOk, IfErr, IfSome, IfNone, is_some, is_none};
ghost use Rattle.std.specs.Borrow.{MutBor};
ghost use Rattle.futures.specs.declared.task.Poll.{Poll};
ghost use Rattle.futures.specs.declared.task.waker.Waker.{Waker};
ghost use Rattle.futures.specs.Poll.{IfReady, OnPending};
ghost use Rattle.futures.specs.Task.{Covers, Keeps};
ghost use Rattle.fi_parts.specs.declared.errors.Fault.{Fault};
ghost use Rattle.fi_parts.specs.declared.errors.Slot.{Slot};
ghost use Rattle.fi_parts.specs.declared.phase.Leftover.{Leftover};
ghost use Rattle.fi_sync.specs.Waiting.{ends, is_final, polled, IsAnswer, IsGiven, IsLeftBy, IsEndedBy, PollsAs};

use crate::claim::Claim;
use crate::monitor::HasMonitor;
use crate::wakes::PollWaker;
use fi_parts::{Fault, FutureKind, Leftover, Refused, Slot};
use futures::Future;
use futures::task::{Context, Poll, Waker};
use std::marker::Model;
use std::{fmt, mem};

/// The output of a ready poll. It ends its future or doesn't: an item of a stream doesn't, nor does a refusal, unless it is that the
/// primitive is closed.
pub trait PollOutput {
    /// This output ends its future.
    ghost is_last: { Self → Bool };

    /// The output of a poll that is refused for this.
    ghost refusal: { Fault → Self };

    /// Whether this output ends its future.
    fn ends(&self) -> bool
        ensures { result ≡ is_last self.now };

    /// The output of a poll that is refused memory, which doesn't end its future.
    fn refused(refused: Refused) -> Self
        ensures output { result ≡ refusal Fault.NoMemory }
        ensures goes_on { is_last result ≡ false };
}

impl<T> PollOutput for Result<T, Fault> {
    ghost is_last = { is_final };

    ghost refusal = { Err };

    fn ends(&self) -> bool {
        matches!(self, Ok(_) | Err(Fault::Closed))
    }

    fn refused(refused: Refused) -> Self {
        Err(Fault::from(refused))
    }
}

/// What a poll under a slot answers, and the wakers of no more use. None where it would have to wait and has no waker.
pub type SlotPolled<A> = Option<(Poll<A>, Leftover<PollWaker>)>;

/// The answer where no future lives under a slot that can be polled: the waker comes back.
pub(crate) fn no_slot<T>(waker: PollWaker) -> SlotPolled<Result<T, Fault>>
    ensures { result ≡ Some (Poll.Ready (Err Fault.NoSlot), record { displaced = None; unused = Some waker }) }
{
    let answer = Poll::Ready(Err(Fault::NoSlot));
    Some((answer, Leftover::of(None, Some(waker))))
}

// Why a poll was refused that could make no waker.
fn no_waker(refused: Option<Refused>) -> Refused
    requires { is_some refused ≡ true }
{
    match refused {
        Some(refused) => refused,
        // It was refused, as the call requires.
        None => unreachable!(),
    }
}

// Keeps a waker of no more use as the spare one, or as the second.
#[inline(always)]
fn keep(waker: Option<Waker>, spare: &mut Option<Waker>, second: &mut Option<Waker>) {
    if waker.is_none() {
        return;
    }
    if spare.is_none() {
        *spare = waker;
    } else {
        *second = waker;
    }
}

/// A state whose futures of the kind `K` are polled and cancelled under their slots.
pub trait PollSlot<K> {
    /// What a poll gives that is ready.
    type Output: PollOutput;

    /// What a cancelled future leaves: the waker that it had, and of a send the value that it still owned.
    type Left: Drop;

    /// A poll under this name with this waker, or without one, may answer this and go on from old to new.
    ghost polls: { Self → ℕ → Option Waker → Poll Self.Output → Self → Type 0 };

    /// A poll under this name, at some moment if it asks for the time, would have to wait.
    ghost would_wait: { Self → ℕ → Type 0 };

    /// The wakers of no more use after such a poll.
    ghost leaves: { Self → ℕ → Option Waker → Poll Self.Output → Leftover (Option Waker) };

    /// A cancel under this name may leave this and go on from old to new.
    ghost cancels: { Self → ℕ → Self.Left → Self → Type 0 };

    /// A poll that ends its future takes it out too, so that the cancel that follows finds it gone.
    ghost takes_out: { Bool };

    /// Polls the future of this kind under this slot. A state may take out a future that this ends, as a cancel would (`takes_out`);
    /// whoever polls cancels it then all the same. It is refused with `NoSlot` where none lives there that can be polled; then
    /// the waker comes back and nothing has changed.
    ///
    /// None where it would have to wait and was given no waker; then nothing has changed.
    fn poll_slot(&mut self, slot: Slot, waker: PollWaker) -> SlotPolled<Self::Output>
        ensures polled { IfSome result (λ polled. PollsAs takes_out polls cancels Self.Output.is_last self.old slot.0 waker polled.0 self.new) }
        ensures leftover { IfSome result (λ polled. polled.1 ≡ leaves self.old slot.0 waker polled.0) }
        ensures waits { IfSome result (λ polled. OnPending polled.0 (is_some waker ≡ true)) }
        ensures lacks { IfNone result ((waker ≡ None) × (self.new ≡ self.old)) }
        ensures put_off { IfNone result (would_wait self.old slot.0) };

    /// Cancels the future of this kind under this slot. Nothing is done where none lives there.
    fn cancel(&mut self, slot: Slot) -> Self::Left
        ensures { cancels self.old slot.0 result self.new };
}

/// A future of the kind `K` of a primitive that threads share, which it reaches by a reference or an `Arc`. The poll that ends it
/// cancels it too, in the same hold of the lock, so that its drop takes no lock. The drop of a future that has not ended cancels
/// it.
///
/// A poll that is ready makes no waker, unless the future has another task's from a poll before: that one is exchanged first,
/// which wakes the other task. A poll that has to wait and can make no waker is refused with `NoMemory`: the future and its
/// primitive are then as they were, and it may be polled again; if it has another task's, that one is registered instead, and
/// this task is polled again. A future that has ended, or was cancelled, stays pending, does nothing to its primitive, and keeps
/// the poll's waker.
pub struct SlotFuture<M: HasMonitor, K>
where
    M::State: PollSlot<K>,
{
    monitor: M,
    // None once it has ended or was cancelled.
    claim: Option<Claim<K>>,
    // A waker that the primitive has no use for. Its drop would wake its task, so the next poll uses it again. Where that poll is
    // another task's and can make no waker, this one is registered, and `Context::register` has the task polled again.
    spare: Option<Waker>,
    // Another one, used once there is no spare. A ready poll can leave two: where an unfair lock is granted to a future that is
    // registered, or where a notified future's waker was not taken out yet.
    second: Option<Waker>,
}

impl<M: HasMonitor, K: FutureKind> fmt::Debug for SlotFuture<M, K>
where
    M::State: PollSlot<K>,
{
    fn fmt<F: fmt::Write>(&self, f: &mut fmt::Formatter<F>) -> fmt::Result {
        f.debug_struct(K::name()).finish()
    }
}

impl<M: HasMonitor, K> Model for SlotFuture<M, K>
where
    M::State: PollSlot<K>,
{
    ghost use Rattle.std.specs.Prelude.{is_none};
    ghost use Rattle.fi_sync.specs.Waiting.{SharedFuture};

    ghost Value = { SharedFuture };

    ghost view = { λ future. record {
      source = M.source future.monitor;
      name = future.claim;
      has_ended = is_none future.claim;
    } };
}

impl<M: HasMonitor, K> SlotFuture<M, K>
where
    M::State: PollSlot<K>,
{
    /// The future whose slot this is.
    pub fn new(monitor: M, claim: Claim<K>) -> Self
        ensures { result ≡ record { source = M.source monitor; name = Some claim; has_ended = false } }
    {
        SlotFuture {
            monitor,
            claim: Some(claim),
            spare: None,
            second: None,
        }
    }

    /// Makes a future, as `Monitor::claim`. It keeps what reaches its primitive.
    #[inline(always)]
    pub(crate) fn make<I, F>(monitor: M, input: I, call: F) -> Result<Self, Fault>
    where
        F: FnOnce(&mut M::State, I) -> Result<Slot, Fault>,
        requires { F.IsAlwaysCallable call }
        ensures made { IfOk result (λ future. (shown : MutBor M.State) × (left : MutBor M.State) × (slot : Slot)
            × (future ≡ record { source = M.source monitor; name = Some slot.0; has_ended = false })
            × F.post call shown input (Ok slot) left) }
        ensures refused { IfErr result (λ fault. (shown : MutBor M.State) × (left : MutBor M.State)
            × F.post call shown input (Err fault) left) }
    {
        let claim = monitor.monitor().claim(input, call)?;
        Ok(SlotFuture::new(monitor, claim))
    }

    /// Returns `true` if the future was polled to its end, or cancelled. It takes no lock. Keeps `FusedFuture::is_terminated`.
    pub fn is_terminated(&self) -> bool
        ensures ended { result ≡ self.now.has_ended }
        ensures nameless { result ≡ is_none self.now.name }
    {
        self.claim.is_none()
    }

    /// Cancels the future, and answers what it leaves; None if it had ended before. Afterwards it has ended.
    pub(crate) fn withdraw(&mut self) -> Option<<M::State as PollSlot<K>>::Left>
        ensures ended { self.new ≡ record { source = self.old.source; name = None; has_ended = true } }
        ensures left { IfSome result (λ left. IsLeftBy M.State.cancels self.old.name left) }
        ensures lives { self.old.has_ended ≡ false → is_some result ≡ true }
        ensures spent { self.old.has_ended ≡ true → result ≡ None }
    {
        let claim = self.claim.take()?;
        Some(self.monitor.monitor().cancel::<K>(claim))
    }
}

impl<M: HasMonitor, K> Future for SlotFuture<M, K>
where
    M::State: PollSlot<K>,
{
    type Output = <M::State as PollSlot<K>>::Output;

    ghost needs = { λ future source. source ≡ future.source };

    ghost gives = { λ future. IsGiven M.State.polls (M.State.Output.refusal Fault.NoMemory) };

    #[inline(always)]
    fn poll(&mut self, cx: &mut Context<'_>) -> Poll<<M::State as PollSlot<K>>::Output>
        ensures value { IfReady result (IsGiven M.State.polls (M.State.Output.refusal Fault.NoMemory)) }
        ensures registered { OnPending result (Covers cx.new (λ source. source ≡ self.new.source)) }
        ensures kept { Keeps cx.old cx.new }
        ensures stands { self.new ≡ polled M.State.Output.is_last self.old result }
        ensures spent { self.old.has_ended ≡ true → result ≡ Poll.Pending }
        ensures answered { IsAnswer M.State.polls M.State.would_wait (M.State.Output.refusal Fault.NoMemory)
            self.old.name self.old.has_ended cx.new.lacks_waker result }
        ensures cancelled { IsEndedBy M.State.polls M.State.cancels (ends M.State.Output.is_last result) self.old.name result }
    {
        let monitor = self.monitor.monitor();
        let Some(claim) = self.claim.take() else {
            return cx.register(monitor.source(), &mut self.spare);
        };
        if self.spare.is_none() {
            mem::swap(&mut self.spare, &mut self.second);
        }
        let mut refused = None;
        let (polled, fate) = monitor.poll(claim, cx, &mut self.spare, &mut refused);
        fate.settle(&mut self.claim);
        let Some((answer, leftover)) = polled else {
            return Poll::Ready(<M::State as PollSlot<K>>::Output::refused(no_waker(refused)));
        };
        keep(
            leftover.displaced.flatten(),
            &mut self.spare,
            &mut self.second,
        );
        keep(leftover.unused.flatten(), &mut self.spare, &mut self.second);
        answer
    }
}

impl<M: HasMonitor, K> Drop for SlotFuture<M, K>
where
    M::State: PollSlot<K>,
{
    #[inline(always)]
    fn drop(self) {
        // What it has is dropped with no lock held: the drop of a value may run any code.
        let SlotFuture {
            monitor,
            claim,
            spare: _spare,
            second: _second,
        } = self;
        if let Some(claim) = claim {
            monitor.monitor().cancel::<K>(claim);
        }
    }
}
