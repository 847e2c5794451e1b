//! A mutex.
ghost use Rattle.std.specs.Prelude.{◌≡◌, ◌&&◌, ◌||◌, not, true, false, if◌then◌else◌, Option, Some, None, Result, Ok, Err};
ghost use Rattle.std.specs.Prelude.{IfOk, IfErr, OnErr, OnOk, IfSome, MatchOption, is_some, length};
ghost use Rattle.std.specs.Option.{option_map};
ghost use Rattle.fi_parts.specs.Deadlines.{is_fresh};
ghost use Rattle.fi_parts.specs.Machine.{phase_at, displaced_at};
ghost use Rattle.fi_parts.specs.Polled.{unused_after, WouldBeReady, IsRefused, LeavesWhere};
ghost use Rattle.fi_parts.specs.Order.{holds};
ghost use Rattle.fi_parts.specs.Waiting.{IsLive, IsOrderedBy, displaced, is_queued, is_registered, may_be_named, phase_of};
ghost use Rattle.fi_parts.specs.Effects.{TakesEffect};
ghost use Rattle.fi_parts.specs.Effects.WaiterEffect.{AndThen, EndsPlaced, Removes, Registers, KeepsWaiting};
ghost use Rattle.fi_locks.specs.Leaving.{PollsAndLeaves};
ghost use Rattle.fi_locks.specs.Mutex.{opened, is_free, is_empty, queue_of, can_be_polled, Makes, Polls, Cancels, TriesLock};
ghost use Rattle.fi_locks.specs.Mutex.{Unlocks, Wakes, tells_oldest, IsLockedIfReady, IsLockedIfGiven, IsSound, OwesNoWake};
ghost use Rattle.futures.specs.declared.task.Poll.TheVariants as polled;
ghost use Rattle.futures.specs.Poll.{OnPending};
ghost use Rattle.fi_parts.specs.Stays.{AllStay, OthersStay, IsApart};
ghost use Rattle.fi_parts.specs.Stages.{stage_of, AppendsQueue};

pub mod future;
pub mod guard;

use crate::mutex::future::LocalMutexLockFuture;
use crate::mutex::guard::LocalMutexGuard;
use fi_parts::{Fault, Leftover, NotPolled, Phase, Refused, Slot, Stage, Waits, last_waker};
use futures::task::Poll;
use std::alloc::Global;
use std::fmt;
use std::marker::Model;

/// A mutex: one holder at a time has its value, and futures wait for it.
///
/// A fair mutex is granted in the order of the futures' first polls. An unfair one is granted to whoever comes while it is free,
/// also before those who were told. It names the wakers to be woken and wakes nobody itself: whoever calls it takes them out by
/// `next_wake`. Each call but a making takes constant time, and only the makings of futures take memory. Keeps `GenericMutex` of
/// futures-intrusive's `sync`.
///
/// # Examples
///
/// ```
/// use futures::task::Poll;
/// use futures_intrusive::sync::MutexState;
///
/// let mut mutex: MutexState<u64, u64> = MutexState::new(rt.alloc(), 7, true); // a fair one
/// let is_taken = mutex.try_take() == Some(7); // the value is lent out: the mutex is locked
/// let slot = mutex.claim()?;
/// let waits = matches!(mutex.poll(slot, 1, true), Ok((Poll::Pending, _)));
/// let is_woken = mutex.unlock(8) == Ok(()) && mutex.next_wake() == Some(1);
/// let is_locked = matches!(mutex.poll(slot, 2, false), Ok((Poll::Ready(8), _)));
/// mutex.leave(slot);
/// assert!(rt; is_taken && waits && is_woken && is_locked);
/// ```
#[derive(Drop)]
pub struct MutexState<T, W> {
    is_fair: bool,
    value: Option<T>,
    locks: Waits<(), W>,
}

impl<T: Drop, W: Drop> fmt::Debug for MutexState<T, W> {
    fn fmt<F: fmt::Write>(&self, f: &mut fmt::Formatter<F>) -> fmt::Result {
        f.debug_struct("Mutex")
            .field("is_locked", &self.is_locked())
            .finish()
    }
}

/// The mutex for one thread: futures are polled with the mutex lent to them. Keeps `LocalMutex` of futures-intrusive's `sync`.
///
/// # Examples
///
/// ```
/// use futures::task::Poll;
/// use futures_intrusive::sync::LocalMutex;
///
/// let mut mutex: LocalMutex<u64, u64> = LocalMutex::new(rt.alloc(), 7, true);
/// let mut future = mutex.lock().expect(&rt, "room");
/// // ..
/// let mut read = 0;
/// if let Poll::Ready(mut guard) = future.poll(&mut mutex, 1) {
///     read = *guard;
///     *guard += 1;
///     guard.unlock(&mut mutex);
/// }
/// // ..
/// future.cancel(&mut mutex);
/// ```
pub type LocalMutex<T, W> = MutexState<T, W>;

impl<T, W> Model for MutexState<T, W> {
    ghost use Rattle.fi_locks.specs.Mutex.{MutexMachine, mutex_of, IsSound, OwesNoWake};
    ghost use Rattle.fi_locks.specs.MutexCode.{mutex_code};

    ghost Value = { MutexMachine T W };

    ghost coded = { mutex_code T.code W.code };

    ghost view = { λ s. mutex_of s.is_fair s.value s.locks };

    ghost invariant = { λ s. IsSound (mutex_of s.is_fair s.value s.locks)
        × OwesNoWake (mutex_of s.is_fair s.value s.locks) };
}

// Tells the oldest of the queue, if there is one.
#[inline(always)]
fn tell_oldest<W: Drop>(locks: &mut Waits<(), W>, is_fair: bool)
    requires { IsOrderedBy (is_queued is_fair) locks.old.side locks.old.out }
    ensures { TakesEffect (tells_oldest is_fair locks.old.side.queue) locks.old locks.new }
{
    if let Some(oldest) = locks.oldest() {
        locks.tell(oldest, is_fair);
    }
}

// Grants a live future this value, which was taken of the mutex: the future ends, and leaves the queue if it has a place.
#[inline(always)]
fn grant<T, W: Drop>(
    locks: &mut Waits<(), W>,
    slot: Slot,
    has_place: bool,
    value: T,
    waker: W,
) -> (Poll<T>, Leftover<W>)
    requires live { IsLive locks.old.side slot.0 }
    requires place { holds slot.0 locks.old.side.queue ≡ has_place }
    ensures granted { result.0 ≡ polled.Ready value }
    ensures ended { TakesEffect (EndsPlaced slot.0) locks.old locks.new }
    ensures displaced { result.1.displaced ≡ displaced locks.old.side locks.old.out slot.0 }
    ensures unused { result.1.unused ≡ Some waker }
{
    let named = locks.take_out(slot);
    if has_place {
        locks.leave(slot);
    }
    let before = locks.set_phase(slot, Phase::Ended);
    (
        Poll::Ready(value),
        Leftover::of(before.or(named), Some(waker)),
    )
}

// Ends a live future, whatever its phase is, and removes it. Gives the waker that it had.
#[inline(always)]
fn end_and_remove<D: Drop, W: Drop>(locks: &mut Waits<D, W>, slot: Slot) -> Option<W>
    requires live { IsLive locks.old.side slot.0 }
    ensures ended { TakesEffect (AndThen (EndsPlaced slot.0) (Removes slot.0)) locks.old locks.new }
    ensures had { result ≡ displaced locks.old.side locks.old.out slot.0 }
{
    match locks.remove(slot) {
        Some((_, had)) => had,
        // It lives, as the call requires.
        None => unreachable!(),
    }
}

// Takes the value, if it may be taken and is there.
#[inline(always)]
fn take_if<T>(value: &mut Option<T>, may_pass: bool) -> Option<T>
    ensures given { result ≡ (if may_pass then value.old else None) }
    ensures left { MatchOption result (value.new ≡ value.old) (λ _. value.new ≡ None) }
{
    if !may_pass {
        return None;
    }
    value.take()
}

// Has a live future wait: where it is, if it is registered, and else at the queue's end.
#[inline(always)]
fn wait<T, W: Drop>(
    locks: &mut Waits<(), W>,
    slot: Slot,
    has_place: bool,
    waker: W,
) -> (Poll<T>, Leftover<W>)
    requires place { has_place ≡ is_registered (phase_of locks.old.side slot.0) }
    requires unregistered { has_place ≡ false → may_be_named (phase_of locks.old.side slot.0) ≡ true }
    requires apart { has_place ≡ false → holds slot.0 locks.old.side.queue ≡ false }
    ensures waits { result.0 ≡ polled.Pending }
    ensures renewed { has_place ≡ true → TakesEffect (KeepsWaiting slot.0 waker) locks.old locks.new }
    ensures registered { has_place ≡ false → TakesEffect (Registers slot.0 waker) locks.old locks.new }
    ensures displaced { result.1.displaced ≡ displaced locks.old.side locks.old.out slot.0 }
    ensures unused { result.1.unused ≡ None }
{
    let named = locks.take_out(slot);
    if has_place {
        let before = locks.set_phase(slot, Phase::Registered(waker));
        return (Poll::Pending, Leftover::of(before, None));
    }
    locks.register(slot, waker);
    (Poll::Pending, Leftover::of(named, None))
}

impl<T: Drop, W: Drop> MutexState<T, W> {
    /// A free mutex with this value, fair or not. It takes no memory yet. Keeps `GenericMutex::new`.
    pub fn new(alloc: Global, value: T, is_fair: bool) -> Self
        ensures { result ≡ opened value is_fair }
    {
        MutexState {
            is_fair,
            value: Some(value),
            locks: Waits::new(alloc),
        }
    }

    /// A future that locks the mutex. Refused only with `NoMemory`; then nothing has changed.
    ///
    /// Keeps `GenericMutex::lock`.
    pub fn lock(&mut self) -> Result<LocalMutexLockFuture, Fault>
        ensures made { IfOk result (λ future. Makes self.old future.name self.new) }
        ensures fresh { IfOk result (λ future. future.has_ended ≡ false) }
        ensures pollable { IfOk result (λ future. can_be_polled (phase_at self.new future.name) ≡ true) }
        ensures refused { OnErr result (self.new ≡ self.old) }
        ensures fault { IfErr result (λ fault. fault ≡ Fault.NoMemory) }
        ensures apart { IfOk result (λ future. IsApart future.name self.old) }
        ensures all_stay { AllStay can_be_polled self.old self.new }
    {
        let slot = self.claim()?;
        Ok(LocalMutexLockFuture::at(slot))
    }

    /// Locks the mutex at once: its value, in a guard. None where it is locked, or is fair and a future is queued for it; then
    /// nothing has changed.
    ///
    /// Keeps `GenericMutex::try_lock`.
    pub fn try_lock(&mut self) -> Option<LocalMutexGuard<T>>
        ensures tried { TriesLock self.old result self.new }
        ensures locked { IsLockedIfGiven result self.new }
        ensures all_stay { AllStay can_be_polled self.old self.new }
    {
        match self.try_take() {
            Some(value) => Some(LocalMutexGuard::of(value)),
            None => None,
        }
    }

    /// Locks the mutex at once, as `try_lock`, without a guard: whoever has the value gives it back by `unlock`.
    #[inline(always)]
    pub fn try_take(&mut self) -> Option<T>
        ensures tried { TriesLock self.old result self.new }
        ensures locked { IsLockedIfGiven result self.new }
        ensures all_stay { AllStay can_be_polled self.old self.new }
    {
        let may_pass = !self.is_promised();
        take_if(&mut self.value, may_pass)
    }

    /// Puts a value back and unlocks the mutex, whose oldest queued future is told and named to be woken. A mutex that isn't
    /// locked hands the value back, and nothing has changed.
    ///
    /// Keeps the drop of `GenericMutexGuard`.
    #[inline(always)]
    pub fn unlock(&mut self, value: T) -> Result<(), T>
        ensures unlocked { Unlocks self.old value result self.new }
        ensures all_stay { AllStay can_be_polled self.old self.new }
    {
        if self.value.is_some() {
            return Err(value);
        }
        self.value = Some(value);
        tell_oldest(&mut self.locks, self.is_fair);
        Ok(())
    }

    /// Returns `true` if somebody has locked the mutex, and has its value. Keeps `GenericMutex::is_locked`.
    pub fn is_locked(&self) -> bool
        ensures { result ≡ not (is_free self.now) }
    {
        self.value.is_none()
    }

    /// Takes out the oldest waker that was named to be woken; None where none is left.
    pub fn next_wake(&mut self) -> Option<W>
        ensures woken { Wakes self.old result self.new }
        ensures all_stay { AllStay can_be_polled self.old self.new }
    {
        self.locks.next_wake()
    }

    /// How many wakers are named to be woken. Its clauses also say what holds of every mutex: it is sound and owes no wake.
    pub fn wake_count(&self) -> usize
        ensures count { result ≡ length self.now.waiting.out }
        ensures sound { IsSound self.now }
        ensures no_wake { OwesNoWake self.now }
    {
        self.locks.wake_count()
    }

    /// Makes a future under a slot that was not live. Refused only with `NoMemory`; then nothing has changed.
    #[inline(always)]
    pub fn claim(&mut self) -> Result<Slot, Fault>
        ensures made { IfOk result (λ slot. Makes self.old slot.0 self.new) }
        ensures pollable { IfOk result (λ slot. can_be_polled (phase_at self.new slot.0) ≡ true) }
        ensures refused { OnErr result (self.new ≡ self.old) }
        ensures fault { IfErr result (λ fault. fault ≡ Fault.NoMemory) }
        ensures apart { IfOk result (λ slot. IsApart slot.0 self.old) }
        ensures all_stay { AllStay can_be_polled self.old self.new }
    {
        match self.locks.insert(()) {
            Ok(slot) => Ok(slot),
            Err(failed) => Err(Fault::from(failed)),
        }
    }

    /// How far the future under this slot is; None if none lives there.
    pub fn stage(&self, slot: Slot) -> Option<Stage>
        ensures { result ≡ option_map stage_of (phase_at self.now slot.0) }
    {
        self.locks.stage(slot)
    }

    /// Appends the slots of the queue, the oldest first. Where there was no memory for all, a beginning was appended.
    pub fn queue(&mut self, slots: &mut Vec<Slot>) -> Result<(), Refused>
        ensures same { self.new ≡ self.old }
        ensures appended { OnOk result (AppendsQueue self.old.waiting.side.queue slots.old.items slots.new.items) }
    {
        self.locks.queue(slots)
    }

    /// Polls the future under this slot, if one lives there that has not ended: ready with the value where the mutex is free for it,
    /// else registered with this waker. The value is given back by `unlock`. The wakers of no more use come back. It is refused where
    /// there is no such future, and where it would have to wait and may not; then nothing has changed. So it asks its caller for nothing.
    #[inline(always)]
    pub fn poll(
        &mut self,
        slot: Slot,
        waker: W,
        may_wait: bool,
    ) -> Result<(Poll<T>, Leftover<W>), NotPolled<W>>
        ensures polled { IfOk result (λ polled. Polls self.old slot.0 waker polled.0 self.new) }
        ensures displaced { IfOk result (λ polled. polled.1.displaced ≡ displaced_at self.old slot.0) }
        ensures unused { IfOk result (λ polled. polled.1.unused ≡ unused_after polled.0 waker) }
        ensures live { IfOk result (λ _. is_some (phase_at self.new slot.0) ≡ true) }
        ensures pending { IfOk result (λ polled. OnPending polled.0 (can_be_polled (phase_at self.new slot.0) ≡ true)) }
        ensures locked { IfOk result (λ polled. IsLockedIfReady polled.0 self.new) }
        ensures waits { IfOk result (λ polled. OnPending polled.0 (may_wait ≡ true)) }
        ensures unchanged { OnErr result (self.new ≡ self.old) }
        ensures refused { IfErr result (λ why. IsRefused why waker (can_be_polled (phase_at self.old slot.0)) may_wait
            (WouldBeReady (Polls self.old slot.0) false)) }
        ensures others { OthersStay can_be_polled slot.0 self.old self.new }
    {
        self.poll_as(slot, waker, may_wait, false)
    }

    /// As `poll`, and a future that is ready is cancelled at once, with one look-up less than by `leave`. Its cancel leaves no waker.
    #[inline(always)]
    pub fn poll_and_leave(
        &mut self,
        slot: Slot,
        waker: W,
        may_wait: bool,
    ) -> Result<(Poll<T>, Leftover<W>), NotPolled<W>>
        ensures polled { IfOk result (λ polled. PollsAndLeaves true Polls Cancels self.old slot.0 waker polled.0 self.new) }
        ensures displaced { IfOk result (λ polled. polled.1.displaced ≡ displaced_at self.old slot.0) }
        ensures unused { IfOk result (λ polled. polled.1.unused ≡ unused_after polled.0 waker) }
        ensures locked { IfOk result (λ polled. IsLockedIfReady polled.0 self.new) }
        ensures waits { IfOk result (λ polled. OnPending polled.0 (may_wait ≡ true)) }
        ensures unchanged { OnErr result (self.new ≡ self.old) }
        ensures refused { IfErr result (λ why. IsRefused why waker (can_be_polled (phase_at self.old slot.0)) may_wait
            (WouldBeReady (Polls self.old slot.0) false)) }
    {
        self.poll_as(slot, waker, may_wait, true)
    }

    /// Cancels the future under this slot, if one lives there, and gives back the waker that it had. If it was told, the oldest queued
    /// future is told in its place, whether or not the mutex is locked. Else None, and nothing changes: so it asks its caller for
    /// nothing.
    #[inline(always)]
    pub fn leave(&mut self, slot: Slot) -> Option<W>
        ensures left { LeavesWhere (is_some (phase_at self.old slot.0)) (Cancels self.old slot.0 self.new) (displaced_at self.old slot.0)
            self.old result self.new }
        ensures own { self.new.own ≡ self.old.own }
        ensures others { OthersStay can_be_polled slot.0 self.old self.new }
    {
        let (future, named) = match self.locks.remove_future(slot) {
            Some(left) => left,
            None => return None,
        };
        let was_told = future.phase.is_told();
        let waker = last_waker(future.phase, named);
        if was_told {
            tell_oldest(&mut self.locks, self.is_fair);
        }
        waker
    }

    // Polls a future, which leaves, where it is ready and this says so.
    #[inline(always)]
    fn poll_as(
        &mut self,
        slot: Slot,
        waker: W,
        may_wait: bool,
        leaves: bool,
    ) -> Result<(Poll<T>, Leftover<W>), NotPolled<W>>
        ensures well { IsSound self.old × OwesNoWake self.old }
        ensures polled { IfOk result (λ polled. PollsAndLeaves leaves Polls Cancels self.old slot.0 waker polled.0 self.new) }
        ensures displaced { IfOk result (λ polled. polled.1.displaced ≡ displaced_at self.old slot.0) }
        ensures unused { IfOk result (λ polled. polled.1.unused ≡ unused_after polled.0 waker) }
        ensures locked { IfOk result (λ polled. IsLockedIfReady polled.0 self.new) }
        ensures waits { IfOk result (λ polled. OnPending polled.0 (may_wait ≡ true)) }
        ensures unchanged { OnErr result (self.new ≡ self.old) }
        ensures refused { IfErr result (λ why. IsRefused why waker (can_be_polled (phase_at self.old slot.0)) may_wait
            (WouldBeReady (Polls self.old slot.0) false)) }
    {
        let Some((has_place, may_pass)) = self.standing(slot) else {
            return Err(NotPolled::NoFuture(waker));
        };
        let Some(value) = take_if(&mut self.value, may_pass) else {
            if !may_wait {
                return Err(NotPolled::WouldWait(waker));
            }
            // Whoever has a place is registered: a told one of a fair mutex finds the value.
            return Ok(wait(&mut self.locks, slot, has_place, waker));
        };
        if leaves {
            let had = end_and_remove(&mut self.locks, slot);
            return Ok((Poll::Ready(value), Leftover::of(had, Some(waker))));
        }
        Ok(grant(&mut self.locks, slot, has_place, value, waker))
    }

    // Whether a newcomer has to wait, though the mutex may be free.
    fn is_promised(&self) -> bool
        ensures { result ≡ (self.now.own.is_fair && not (is_empty (queue_of self.now))) }
    {
        self.is_fair && self.locks.oldest().is_some()
    }

    // Whether the future under this slot has a place in the queue, and whether the value of a free mutex is for it. None where none
    // lives there that can be polled.
    #[inline(always)]
    fn standing(&self, slot: Slot) -> Option<(bool, bool)>
        ensures live { is_some result ≡ can_be_polled (phase_at self.now slot.0) }
        ensures place { IfSome result (λ found. found.0 ≡ is_queued self.now.own.is_fair (phase_at self.now slot.0)) }
        ensures passes { IfSome result (λ found. found.1 ≡ not (self.now.own.is_fair && (is_registered (phase_at self.now slot.0)
            || (is_fresh (phase_at self.now slot.0) && not (is_empty (queue_of self.now)))))) }
    {
        match self.locks.phase(slot) {
            Some(Phase::Fresh) => Some((false, !self.is_promised())),
            Some(Phase::Registered(_)) => Some((true, !self.is_fair)),
            Some(Phase::Told) => Some((self.is_fair, true)),
            None | Some(Phase::Complete | Phase::Ended) => None,
        }
    }
}

impl<T, W: Drop> MutexState<T, W> {
    ghost use Rattle.std.specs.Borrow.{LendsIf, sem};
    ghost use Rattle.std.specs.Option.{option_copied_mut};
    ghost use Rattle.fi_locks.specs.Mutex.{with_value};
    ghost use Rattle.fi_locks.specs.contracts.mutex.MutexState.{the_row};

    /// Takes the value out of a mutex that is used no more. None if it is locked: then its holder has the value.
    pub fn into_inner(self) -> Option<T>
        ensures { result ≡ self.own.value }
    {
        let MutexState { value, .. } = self;
        value
    }

    /// Lends the value out, to be changed in place. None if the mutex is locked: then its holder has the value.
    #[tactic(auto, using(crate::specs::MutexLaws::revalued))]
    pub fn get_mut(&mut self) -> Option<&mut T>
        ensures* writes_back { sem 𝓛 (LendsIf (the_row T.row W.row) T.row self.entry result (with_value self.old) self.old) }
        ensures shows { option_copied_mut result ≡ self.old.own.value }
    {
        match &mut self.value {
            Some(value) => Some(value),
            None => None,
        }
    }
}
