//! A semaphore.
ghost use Rattle.std.specs.Prelude.{◌≡◌, ◌≤◌, ◌+◌, ◌-◌, ◌^◌, ◌&&◌, not, true, false, Option, Some, IfOk, IfErr, OnOk, OnErr, MatchOption};
ghost use Rattle.std.specs.Prelude.{is_some, length, ⊤};
ghost use Rattle.std.specs.Option.{option_map};
ghost use Rattle.fi_parts.specs.Effects.{TakesEffect};
ghost use Rattle.fi_parts.specs.Effects.WaiterEffect.{EndsPlaced};
ghost use Rattle.fi_parts.specs.Machine.{phase_at, displaced_at};
ghost use Rattle.fi_parts.specs.Polled.{unused_after, WouldBeReady, IsRefused, LeavesWhere};
ghost use Rattle.fi_parts.specs.Waiting.{phase_of, displaced, is_registered, is_queued, IsOrderedBy};
ghost use Rattle.fi_parts.specs.declared.phase.Phase.TheVariants as phases;
ghost use Rattle.fi_locks.specs.Semaphore.{opened, can_be_polled, need_of, can_take, at_own, cancel_tells, Makes, Polls, Cancels};
ghost use Rattle.fi_locks.specs.Semaphore.{TriesAcquire, Releases, GivesBack, Disarms, Wakes, AreHeld, IsSound, OwesNoWake};
ghost use Rattle.futures.specs.Poll.{OnPending};
ghost use Rattle.fi_parts.specs.Stays.{AllStay, OthersStay, IsApart};
ghost use Rattle.fi_parts.specs.Stages.{stage_of, AppendsQueue};
ghost use Rattle.fi_locks.specs.SemaphoreMarks.{IsMarked, MarksWithoutIf, promised_without, left_promised, Walk, IsStopped, TellsIf};

pub mod asked;
pub mod future;

use crate::semaphore::asked::Asked;
use crate::semaphore::future::{LocalSemaphoreAcquireFuture, LocalSemaphoreReleaser};
use fi_parts::{Fault, Leftover, NotPolled, Phase, Refused, Slot, Stage, Waits, last_waker};
use futures::task::Poll;
use std::alloc::Global;
use std::fmt;
use std::marker::Model;

/// A semaphore: futures acquire permits, several at once, and give them back.
///
/// A fair semaphore tells its futures in the order of their first polls: the longest front of its queue whose needs together are
/// free. An unfair one lets a caller that finds permits free pass those that wait; once futures of different needs were made, one
/// whose need is free can be left without a notice.
///
/// It names the wakers to be woken and wakes nobody itself: whoever calls it takes them out by `next_wake`. Each call but a making
/// takes constant time, and constant time more for each future that it tells; only the makings of futures take memory. Keeps
/// `GenericSemaphore` of futures-intrusive's `sync`.
///
/// # Examples
///
/// ```
/// use futures::task::Poll;
/// use futures_intrusive::sync::SemaphoreState;
///
/// let mut permits: SemaphoreState<u64> = SemaphoreState::new(rt.alloc(), true, 1); // fair, with one permit
/// let slot = permits.claim(2)?;
/// let waits = matches!(permits.poll(slot, 1, true), Ok((Poll::Pending, _)));
/// let is_woken = permits.release(1) == Ok(()) && permits.next_wake() == Some(1);
/// let is_granted = matches!(permits.poll(slot, 2, false), Ok((Poll::Ready(2), _)));
/// permits.leave(slot);
/// assert!(rt; waits && is_woken && is_granted && permits.held() == 2);
/// ```
#[derive(Drop)]
pub struct SemaphoreState<W> {
    permits: Permits,
    marks: Marks,
    waits: Waits<usize, W>,
}

/// Fair or unfair, how many permits are free and how many are held, and what the futures that were made so far needed.
#[derive(Clone, Copy)]
pub struct Permits {
    pub is_fair: bool,
    pub free: usize,
    pub held: usize,
    pub asked: Asked,
}

// Where a telling round of a fair semaphore goes on: those told already are not walked over again.
#[derive(Drop)]
struct Marks {
    // How many permits the told futures need together; none in an unfair semaphore.
    promised: usize,
    // The oldest future that waits and isn't told. An unfair semaphore doesn't read it.
    untold: Option<Slot>,
}

impl<W: Drop> fmt::Debug for SemaphoreState<W> {
    fn fmt<F: fmt::Write>(&self, f: &mut fmt::Formatter<F>) -> fmt::Result {
        f.debug_struct("Semaphore")
            .field("permits", &self.permits())
            .finish()
    }
}

/// The semaphore for one thread: futures are polled, and permits given back, with the semaphore lent to them. Keeps
/// `LocalSemaphore` of futures-intrusive's `sync`.
///
/// # Examples
///
/// ```
/// use futures::task::Poll;
/// use futures_intrusive::sync::LocalSemaphore;
///
/// let mut semaphore: LocalSemaphore<u64> = LocalSemaphore::new(rt.alloc(), true, 3);
/// let mut future = semaphore.acquire(2).expect(&rt, "room");
/// let was_ended = future.is_terminated();
/// let answer = future.poll(&mut semaphore, 1);
/// let is_ended = future.is_terminated();
/// future.cancel(&mut semaphore);
/// let mut count = usize::MAX;
/// if let Poll::Ready(releaser) = answer {
///     count = releaser.permits();
///     releaser.give_back(&mut semaphore);
/// }
/// ```
pub type LocalSemaphore<W> = SemaphoreState<W>;

impl<W> Model for SemaphoreState<W> {
    ghost use Rattle.fi_locks.specs.Semaphore.{SemaphoreMachine, at_own, IsSound, OwesNoWake};
    ghost use Rattle.fi_locks.specs.SemaphoreCode.{semaphore_code};
    ghost use Rattle.fi_locks.specs.SemaphoreMarks.{IsMarked};

    ghost Value = { SemaphoreMachine W };

    ghost coded = { semaphore_code W.code };

    ghost view = { λ s. at_own s.permits s.waits };

    ghost invariant = { λ s. (IsSound (at_own s.permits s.waits) × OwesNoWake (at_own s.permits s.waits))
        × IsMarked s.permits s.marks s.waits.side };
}

impl Marks {
    // What a told future of a fair semaphore needed is promised no longer.
    fn unpromise(&mut self, is_fair: bool, is_told: bool, need: usize)
        requires { (is_fair && is_told) ≡ true → need ≤ self.old.promised }
        ensures { self.new ≡ record self.old { promised = left_promised (is_fair && is_told) self.old.promised need } }
    {
        if is_fair && is_told {
            self.promised -= need;
        }
    }
}

// How many permits the future under this slot needs.
fn need<W: Drop>(waits: &Waits<usize, W>, slot: Slot) -> usize
    ensures { result ≡ need_of waits.now.side slot.0 }
{
    match waits.asks(slot) {
        Some(need) => *need,
        None => 0,
    }
}

// Ends a live future, which leaves the queue if it has a place there. Gives the waker that it had.
fn end<W: Drop>(waits: &mut Waits<usize, W>, slot: Slot) -> Option<W>
    requires live { is_some (phase_of waits.old.side slot.0) ≡ true }
    ensures ended { TakesEffect (EndsPlaced slot.0) waits.old waits.new }
    ensures waker { result ≡ displaced waits.old.side waits.old.out slot.0 }
{
    let named = waits.take_out(slot);
    waits.leave(slot);
    waits.set_phase(slot, Phase::Ended).or(named)
}

// A telling round follows the cancel of a future with this phase.
fn tells_on_cancel<W>(is_fair: bool, phase: &Phase<W>) -> bool
    ensures { result ≡ cancel_tells is_fair (Some phase.now) }
{
    match phase {
        Phase::Told => true,
        Phase::Registered(_) => is_fair,
        Phase::Fresh | Phase::Complete | Phase::Ended => false,
    }
}

// Marks the oldest that is not told as it is without this future, whether or not the future is told.
#[inline(always)]
fn pass_over<W: Drop>(permits: Permits, marks: &mut Marks, waits: &mut Waits<usize, W>, slot: Slot)
    requires sound { IsSound (at_own permits waits.old) }
    requires marked { IsMarked permits marks.old waits.old.side }
    ensures marked { MarksWithoutIf permits.is_fair slot.0 permits.free
        (promised_without permits.is_fair marks.old.promised waits.old.side slot.0) marks.new.untold waits.old.side }
    ensures promised { marks.new.promised ≡ marks.old.promised }
    ensures same { waits.new ≡ waits.old }
{
    if !permits.is_fair {
        return;
    }
    let Some(first) = marks.untold else {
        return;
    };
    if first.0 == slot.0 {
        marks.untold = waits.younger(slot);
    }
}

// The future with which a telling round begins: the oldest that is not told.
fn first_untold<W: Drop>(permits: Permits, marks: &Marks, waits: &Waits<usize, W>) -> Option<Slot>
    requires marked { IsMarked permits marks.now waits.now.side }
    ensures { Walk permits.is_fair permits.free waits.now waits.now (permits.free - marks.now.promised) result }
{
    if permits.is_fair {
        return marks.untold;
    }
    waits.oldest()
}

// Tells futures from this one on, each taking its need from what is available, until the first that needs more. Gives
// that one, and what is left.
#[inline(always)]
fn tell_from<W: Drop>(
    permits: Permits,
    waits: &mut Waits<usize, W>,
    first: Option<Slot>,
    count: usize,
) -> (Option<Slot>, usize)
    requires ordered { IsOrderedBy (is_queued permits.is_fair) waits.old.side waits.old.out }
    requires walked { Walk permits.is_fair permits.free waits.old waits.old count first }
    ensures walked { Walk permits.is_fair permits.free waits.old waits.new result.1 result.0 }
    ensures stopped { IsStopped waits.old.side result.1 result.0 }
{
    let mut available = count;
    let mut next = first;
    while let Some(slot) = next {
        let need = need(waits, slot);
        if available < need {
            return (next, available);
        }
        available -= need;
        next = waits.younger(slot);
        waits.tell(slot, permits.is_fair);
    }
    (None, available)
}

// A telling round, if it is to be one: the longest front of the queue whose needs together are free is told.
#[inline(always)]
fn tell_if<W: Drop>(tells: bool, permits: Permits, marks: &mut Marks, waits: &mut Waits<usize, W>)
    requires sound { IsSound (at_own permits waits.old) }
    requires marked { IsMarked permits marks.old waits.old.side }
    ensures told { TellsIf tells (at_own permits waits.old) (at_own permits waits.new) }
    ensures marked { IsMarked permits marks.new waits.new.side }
{
    if !tells {
        return;
    }
    let first = first_untold(permits, marks, waits);
    let available = permits.free - marks.promised;
    let (untold, left) = tell_from(permits, waits, first, available);
    if permits.is_fair {
        marks.untold = untold;
        marks.promised = permits.free - left;
    }
}

impl<W: Drop> SemaphoreState<W> {
    /// A semaphore with this many free permits, fair or unfair. It takes no memory yet. Keeps `GenericSemaphore::new`.
    pub fn new(alloc: Global, is_fair: bool, permits: usize) -> Self
        ensures { result ≡ opened is_fair permits }
    {
        SemaphoreState {
            permits: Permits {
                is_fair,
                free: permits,
                held: 0,
                asked: Asked::NoNeed,
            },
            marks: Marks {
                promised: 0,
                untold: None,
            },
            waits: Waits::new(alloc),
        }
    }

    /// A future that acquires this many permits. Refused only with `NoMemory`; then nothing has changed.
    ///
    /// Keeps `GenericSemaphore::acquire`.
    pub fn acquire(&mut self, permits: usize) -> Result<LocalSemaphoreAcquireFuture, Fault>
        ensures made { IfOk result (λ future. Makes self.old permits future.name self.new) }
        ensures fresh { IfOk result (λ future. future.has_ended ≡ false) }
        ensures pollable { IfOk result (λ future. can_be_polled (phase_at self.new future.name) ≡ true) }
        ensures refused { OnErr result (self.new ≡ self.old) }
        ensures fault { IfErr result (λ fault. fault ≡ Fault.NoMemory) }
        ensures apart { IfOk result (λ future. IsApart future.name self.old) }
        ensures all_stay { AllStay can_be_polled self.old self.new }
    {
        let slot = self.claim(permits)?;
        Ok(LocalSemaphoreAcquireFuture::at(slot))
    }

    /// Acquires this many permits if they are free and, in a fair semaphore, no future is queued; 0 permits are always granted.
    /// None if they are not granted; then nothing has changed.
    ///
    /// Keeps `GenericSemaphore::try_acquire`.
    pub fn try_acquire(&mut self, permits: usize) -> Option<LocalSemaphoreReleaser>
        ensures tried { TriesAcquire self.old permits (is_some result) self.new }
        ensures granted { MatchOption result ⊤ (λ releaser. releaser ≡ permits) }
        ensures held { MatchOption result ⊤ (λ releaser. releaser ≤ self.new.own.held) }
        ensures all_stay { AllStay can_be_polled self.old self.new }
    {
        if self.try_acquire_sync(permits) {
            Some(LocalSemaphoreReleaser::of(permits))
        } else {
            None
        }
    }

    /// Adds free permits, and tells the longest front of the queue whose needs together are free then.
    ///
    /// Refused with `Overflow` if the permits, free and held, would be more than `usize::MAX`; then nothing has changed.
    /// Keeps `GenericSemaphore::release`, which does not check.
    #[inline(always)]
    pub fn release(&mut self, permits: usize) -> Result<(), Fault>
        ensures released { IfOk result (λ _. Releases self.old permits self.new) }
        ensures refused { OnErr result (self.new ≡ self.old) }
        ensures fault { IfErr result (λ fault. (fault ≡ Fault.Overflow) × (2 ^ 64 ≤ self.old.own.free + self.old.own.held + permits)) }
        ensures held { self.new.own.held ≡ self.old.own.held }
        ensures all_stay { AllStay can_be_polled self.old self.new }
    {
        if permits > usize::MAX - (self.permits.free + self.permits.held) {
            return Err(Fault::Overflow);
        }
        self.permits.free += permits;
        tell_if(permits > 0, self.permits, &mut self.marks, &mut self.waits);
        Ok(())
    }

    /// How many permits are free. Keeps `GenericSemaphore::permits`.
    pub fn permits(&self) -> usize
        ensures { result ≡ self.now.own.free }
    {
        let permits = self.permits;
        permits.free
    }

    /// How many permits are held by those who acquired them.
    pub fn held(&self) -> usize
        ensures { result ≡ self.now.own.held }
    {
        let permits = self.permits;
        permits.held
    }

    /// Takes out the oldest waker that was named to be woken; None where none is left.
    pub fn next_wake(&mut self) -> Option<W>
        ensures woken { Wakes self.old result self.new }
        ensures all_stay { AllStay can_be_polled self.old self.new }
    {
        self.waits.next_wake()
    }

    /// How many wakers are named to be woken. Its clauses also say what holds of every semaphore: it is sound and owes no wake.
    pub fn wake_count(&self) -> usize
        ensures count { result ≡ length self.now.waiting.out }
        ensures sound { IsSound self.now }
        ensures no_wake { OwesNoWake self.now }
    {
        self.waits.wake_count()
    }

    /// Makes a future that needs this many permits, under a slot that was not live. Refused only with `NoMemory`; then nothing
    /// has changed.
    #[inline(always)]
    pub fn claim(&mut self, permits: usize) -> Result<Slot, Fault>
        ensures made { IfOk result (λ slot. Makes self.old permits slot.0 self.new) }
        ensures pollable { IfOk result (λ slot. can_be_polled (phase_at self.new slot.0) ≡ true) }
        ensures refused { OnErr result (self.new ≡ self.old) }
        ensures fault { IfErr result (λ fault. fault ≡ Fault.NoMemory) }
        ensures apart { IfOk result (λ slot. IsApart slot.0 self.old) }
        ensures all_stay { AllStay can_be_polled self.old self.new }
    {
        let slot = match self.waits.insert(permits) {
            Ok(slot) => slot,
            Err(failed) => return Err(Fault::from(failed)),
        };
        self.permits.asked = self.permits.asked.after(permits);
        Ok(slot)
    }

    /// How far the future under this slot is; None if none lives there.
    pub fn stage(&self, slot: Slot) -> Option<Stage>
        ensures { result ≡ option_map stage_of (phase_at self.now slot.0) }
    {
        self.waits.stage(slot)
    }

    /// Appends the slots of the queue, the oldest first. Where there was no memory for all, a beginning was appended.
    pub fn queue(&mut self, slots: &mut Vec<Slot>) -> Result<(), Refused>
        ensures same { self.new ≡ self.old }
        ensures appended { OnOk result (AppendsQueue self.old.waiting.side.queue slots.old.items slots.new.items) }
    {
        self.waits.queue(slots)
    }

    /// Polls the future under this slot, if one lives there that has not ended: ready with the permits that it needs if they are
    /// granted, else registered with this waker. The wakers of no more use come back. It is refused where there is no such future, and
    /// where it would have to wait and may not; then nothing has changed. So it asks its caller for nothing.
    #[inline(always)]
    pub fn poll(
        &mut self,
        slot: Slot,
        waker: W,
        may_wait: bool,
    ) -> Result<(Poll<usize>, Leftover<W>), NotPolled<W>>
        ensures polled { IfOk result (λ polled. Polls self.old slot.0 waker polled.0 self.new) }
        ensures held { IfOk result (λ polled. AreHeld polled.0 self.new.own.held) }
        ensures displaced { IfOk result (λ polled. polled.1.displaced ≡ displaced_at self.old slot.0) }
        ensures unused { IfOk result (λ polled. polled.1.unused ≡ unused_after polled.0 waker) }
        ensures live { IfOk result (λ _. is_some (phase_at self.new slot.0) ≡ true) }
        ensures pending { IfOk result (λ polled. OnPending polled.0 (can_be_polled (phase_at self.new slot.0) ≡ true)) }
        ensures waits { IfOk result (λ polled. OnPending polled.0 (may_wait ≡ true)) }
        ensures unchanged { OnErr result (self.new ≡ self.old) }
        ensures refused { IfErr result (λ why. IsRefused why waker (can_be_polled (phase_at self.old slot.0)) may_wait
            (WouldBeReady (Polls self.old slot.0) false)) }
        ensures others { OthersStay can_be_polled slot.0 self.old self.new }
    {
        let Some(future) = self.waits.future(slot) else {
            return Err(NotPolled::NoFuture(waker));
        };
        let need = future.asks;
        match &future.phase {
            Phase::Fresh => self.poll_fresh(slot, need, waker, may_wait),
            Phase::Registered(_) => self.poll_registered(slot, need, waker, may_wait),
            Phase::Told => self.poll_told(slot, need, waker, may_wait),
            Phase::Complete | Phase::Ended => Err(NotPolled::NoFuture(waker)),
        }
    }

    /// Cancels the future under this slot, if one lives there, and gives back the waker that it had. A notice that it had not used is
    /// passed on to those who wait. If it waited in a fair semaphore, the longest front of the queue whose needs together are free then
    /// is told. Else None, and nothing changes: so it asks its caller for nothing.
    #[inline(always)]
    pub fn leave(&mut self, slot: Slot) -> Option<W>
        ensures left { LeavesWhere (is_some (phase_at self.old slot.0)) (Cancels self.old slot.0 self.new) (displaced_at self.old slot.0)
            self.old result self.new }
        ensures held { self.new.own.held ≡ self.old.own.held }
        ensures others { OthersStay can_be_polled slot.0 self.old self.new }
    {
        if self.waits.phase(slot).is_none() {
            return None;
        }
        pass_over(self.permits, &mut self.marks, &mut self.waits, slot);
        let (future, named) = match self.waits.remove_future(slot) {
            Some(left) => left,
            None => return None,
        };
        let tells = tells_on_cancel(self.permits.is_fair, &future.phase);
        self.marks
            .unpromise(self.permits.is_fair, future.phase.is_told(), future.asks);
        let waker = last_waker(future.phase, named);
        tell_if(tells, self.permits, &mut self.marks, &mut self.waits);
        waker
    }

    /// Acquires this many permits as `try_acquire` does, and says whether it did. They are then held until `give_back` or
    /// `disarm` is called with them.
    #[inline(always)]
    pub fn try_acquire_sync(&mut self, permits: usize) -> bool
        ensures tried { TriesAcquire self.old permits result self.new }
        ensures all_stay { AllStay can_be_polled self.old self.new }
    {
        if !self.can_take(permits) {
            return false;
        }
        self.permits.free -= permits;
        self.permits.held += permits;
        true
    }

    /// Makes this many held permits free again, and tells the longest front of the queue whose needs together are free then.
    ///
    /// The caller has seen that they are held (`held`).
    #[inline(always)]
    pub fn give_back(&mut self, permits: usize)
        requires { permits ≤ self.old.own.held }
        ensures given_back { GivesBack self.old permits self.new }
        ensures all_stay { AllStay can_be_polled self.old self.new }
    {
        self.permits = Permits {
            free: self.permits.free + permits,
            held: self.permits.held - permits,
            ..self.permits
        };
        tell_if(permits > 0, self.permits, &mut self.marks, &mut self.waits);
    }

    /// Forgets this many held permits, which will not be given back.
    ///
    /// The caller has seen that they are held (`held`).
    pub fn disarm(&mut self, permits: usize)
        requires { permits ≤ self.old.own.held }
        ensures disarmed { Disarms self.old permits self.new }
        ensures all_stay { AllStay can_be_polled self.old self.new }
    {
        self.permits.held -= permits;
    }

    // Whether one who does not wait is granted this many permits.
    fn can_take(&self, permits: usize) -> bool
        ensures { result ≡ can_take self.now.own self.now.waiting.side.queue permits }
    {
        if permits > self.permits.free {
            return false;
        }
        if !self.permits.is_fair || permits == 0 {
            return true;
        }
        self.waits.oldest().is_none()
    }

    #[inline(always)]
    fn poll_fresh(
        &mut self,
        slot: Slot,
        need: usize,
        waker: W,
        may_wait: bool,
    ) -> Result<(Poll<usize>, Leftover<W>), NotPolled<W>>
        requires need { need ≡ need_of self.old.waiting.side slot.0 }
        requires fresh { phase_at self.old slot.0 ≡ Some phases.Fresh }
        ensures polled { IfOk result (λ polled. Polls self.old slot.0 waker polled.0 self.new) }
        ensures displaced { IfOk result (λ polled. polled.1.displaced ≡ displaced_at self.old slot.0) }
        ensures unused { IfOk result (λ polled. polled.1.unused ≡ unused_after polled.0 waker) }
        ensures waits { IfOk result (λ polled. OnPending polled.0 (may_wait ≡ true)) }
        ensures unchanged { OnErr result (self.new ≡ self.old) }
        ensures refused { IfErr result (λ why. IsRefused why waker true may_wait (WouldBeReady (Polls self.old slot.0) false)) }
    {
        if !self.can_take(need) {
            if !may_wait {
                return Err(NotPolled::WouldWait(waker));
            }
            let named = self.waits.take_out(slot);
            self.waits.register(slot, waker);
            self.marks.untold = self.marks.untold.or(Some(slot));
            return Ok((Poll::Pending, Leftover::of(named, None)));
        }
        self.permits.free -= need;
        self.permits.held += need;
        let named = self.waits.take_out(slot);
        self.waits.set_phase(slot, Phase::Ended);
        Ok((Poll::Ready(need), Leftover::of(named, Some(waker))))
    }

    #[inline(always)]
    fn poll_registered(
        &mut self,
        slot: Slot,
        need: usize,
        waker: W,
        may_wait: bool,
    ) -> Result<(Poll<usize>, Leftover<W>), NotPolled<W>>
        requires need { need ≡ need_of self.old.waiting.side slot.0 }
        requires registered { is_registered (phase_at self.old slot.0) ≡ true }
        ensures polled { IfOk result (λ polled. Polls self.old slot.0 waker polled.0 self.new) }
        ensures displaced { IfOk result (λ polled. polled.1.displaced ≡ displaced_at self.old slot.0) }
        ensures unused { IfOk result (λ polled. polled.1.unused ≡ unused_after polled.0 waker) }
        ensures waits { IfOk result (λ polled. OnPending polled.0 (may_wait ≡ true)) }
        ensures unchanged { OnErr result (self.new ≡ self.old) }
        ensures refused { IfErr result (λ why. IsRefused why waker true may_wait (WouldBeReady (Polls self.old slot.0) false)) }
    {
        if self.permits.is_fair || need > self.permits.free {
            if !may_wait {
                return Err(NotPolled::WouldWait(waker));
            }
            self.waits.take_out(slot);
            let before = self.waits.set_phase(slot, Phase::Registered(waker));
            return Ok((Poll::Pending, Leftover::of(before, None)));
        }
        self.permits.free -= need;
        self.permits.held += need;
        let before = end(&mut self.waits, slot);
        Ok((Poll::Ready(need), Leftover::of(before, Some(waker))))
    }

    #[inline(always)]
    fn poll_told(
        &mut self,
        slot: Slot,
        need: usize,
        waker: W,
        may_wait: bool,
    ) -> Result<(Poll<usize>, Leftover<W>), NotPolled<W>>
        requires need { need ≡ need_of self.old.waiting.side slot.0 }
        requires told { phase_at self.old slot.0 ≡ Some phases.Told }
        ensures polled { IfOk result (λ polled. Polls self.old slot.0 waker polled.0 self.new) }
        ensures displaced { IfOk result (λ polled. polled.1.displaced ≡ displaced_at self.old slot.0) }
        ensures unused { IfOk result (λ polled. polled.1.unused ≡ unused_after polled.0 waker) }
        ensures waits { IfOk result (λ polled. OnPending polled.0 (may_wait ≡ true)) }
        ensures unchanged { OnErr result (self.new ≡ self.old) }
        ensures refused { IfErr result (λ why. IsRefused why waker true may_wait (WouldBeReady (Polls self.old slot.0) false)) }
    {
        if need > self.permits.free {
            if !may_wait {
                return Err(NotPolled::WouldWait(waker));
            }
            let named = self.waits.take_out(slot);
            self.waits.register(slot, waker);
            return Ok((Poll::Pending, Leftover::of(named, None)));
        }
        self.permits.free -= need;
        self.permits.held += need;
        let named = end(&mut self.waits, slot);
        self.marks.unpromise(self.permits.is_fair, true, need);
        tell_if(
            self.permits.is_fair,
            self.permits,
            &mut self.marks,
            &mut self.waits,
        );
        Ok((Poll::Ready(need), Leftover::of(named, Some(waker))))
    }
}
