//! A timer.
ghost use Rattle.std.specs.Prelude.{◌≡◌, ◌&&◌, not, nat_le, true, false, IfOk, IfErr, OnErr, IfSome, is_some, length};
ghost use Rattle.std.specs.Option.{option_map};
ghost use Rattle.std.specs.Duration.{as_nanos};
ghost use Rattle.fi_parts.specs.Waiting.{asks_of, is_registered};
ghost use Rattle.fi_parts.specs.Machine.{phase_at, displaced_at};
ghost use Rattle.fi_parts.specs.Deadlines.{IsNextExpiry, is_fresh, expiry_of};
ghost use Rattle.fi_parts.specs.Polled.{unused_after, WouldBeReady, IsRefused, LeavesWhere};
ghost use Rattle.futures.specs.Poll.{OnPending};
ghost use Rattle.fi_parts.specs.Stays.{AllStay, OthersStay, IsApart};
ghost use Rattle.fi_parts.specs.Stages.{stage_of};
ghost use Rattle.fi_locks.specs.Timer.{opened, expiry_after, can_be_polled, Makes, Polls, Cancels, Checks, Wakes, IsSound, OwesNoWake};

pub mod future;

use crate::timer::future::LocalTimerFuture;
use fi_parts::{Deadlines, Fault, Leftover, NotPolled, Phase, Slot, Stage, whole_millis};
use futures::task::Poll;
use std::alloc::Global;
use std::fmt;
use std::marker::Model;
use std::time::Duration;

/// A timer: a future of it is ready at its first poll if its expiry has come by then, and else at a poll after a check at or past its
/// expiry.
///
/// It has no clock: whoever polls or checks says which moment it is, in milliseconds. It names the wakers to be woken and wakes
/// nobody itself: whoever calls it takes them out by `next_wake`. Only the makings of futures take memory. Keeps
/// `GenericTimerService` of futures-intrusive's `timer`.
///
/// # Examples
///
/// ```
/// use futures::task::Poll;
/// use futures_intrusive::timer::TimerState;
///
/// let mut timer: TimerState<u64> = TimerState::new(rt.alloc());
/// let slot = timer.claim(10)?;
/// let waits = matches!(timer.poll(slot, 9, 1, true), Ok((Poll::Pending, _))); // at the moment 9
/// timer.check_expirations(10);
/// let is_woken = timer.next_wake() == Some(1);
/// let is_over = matches!(timer.poll(slot, 10, 2, false), Ok((Poll::Ready(()), _)));
/// timer.leave(slot);
/// assert!(rt; waits && is_woken && is_over);
/// ```
#[derive(Drop)]
pub struct TimerState<W> {
    floor: u64,
    deadlines: Deadlines<W>,
}

impl<W> fmt::Debug for TimerState<W> {
    fn fmt<F: fmt::Write>(&self, f: &mut fmt::Formatter<F>) -> fmt::Result {
        f.debug_struct("TimerService").finish()
    }
}

/// The timer for one thread: futures are polled with the timer lent to them, and the moment.
///
/// # Examples
///
/// ```
/// use futures::task::Poll;
/// use futures_intrusive::timer::LocalTimerService;
///
/// let mut timer: LocalTimerService<u64> = LocalTimerService::new(rt.alloc());
/// let mut deadline = timer.deadline(5).expect(&rt, "memory");
/// let waits = deadline.poll_at_if_live(&mut timer, 4, 1);
/// timer.check_expirations(5);
/// let woken = timer.next_wake();
/// let ends = deadline.poll_at_if_live(&mut timer, 5, 2);
/// deadline.leave(&mut timer);
/// assert_eq!(rt; (waits, woken), (Some(Poll::Pending), Some(1)));
/// assert_eq!(rt; ends, Some(Poll::Ready(())));
/// ```
pub type LocalTimerService<W> = TimerState<W>;

impl<W> Model for TimerState<W> {
    ghost use Rattle.fi_locks.specs.Timer.{TimerMachine, IsSound, OwesNoWake};
    ghost use Rattle.fi_locks.specs.TimerCode.{timer_code};

    ghost Value = { TimerMachine W };

    ghost coded = { timer_code W.code };

    ghost view = { λ s. record { own = s.floor; waiting = s.deadlines } };

    ghost invariant = { λ s.
        let machine : TimerMachine W = record { own = s.floor; waiting = s.deadlines } in
        IsSound machine × OwesNoWake machine };
}

impl<W: Drop> TimerState<W> {
    /// A timer that nobody waits for. It takes no memory yet. Keeps `GenericTimerService::new`.
    pub fn new(alloc: Global) -> Self
        ensures { result ≡ opened }
    {
        TimerState {
            floor: 0,
            deadlines: Deadlines::new(alloc),
        }
    }

    /// A future for this moment, in milliseconds. Refused only with `NoMemory`; then nothing has changed.
    ///
    /// Keeps `LocalTimer::deadline`.
    pub fn deadline(&mut self, expiry: u64) -> Result<LocalTimerFuture, Fault>
        ensures made { IfOk result (λ future. Makes self.old expiry future.name self.new) }
        ensures fresh { IfOk result (λ future. future.has_ended ≡ false) }
        ensures pollable { IfOk result (λ future. can_be_polled (phase_at self.new future.name) ≡ true) }
        ensures refused { OnErr result (self.new ≡ self.old) }
        ensures fault { IfErr result (λ fault. fault ≡ Fault.NoMemory) }
        ensures apart { IfOk result (λ future. IsApart future.name self.old) }
        ensures all_stay { AllStay can_be_polled self.old self.new }
    {
        let slot = self.claim(expiry)?;
        Ok(LocalTimerFuture::at(slot))
    }

    /// A future whose expiry is `now`, in milliseconds, and the delay's whole milliseconds, rounded down, and at most `u64::MAX`.
    /// Refused only with `NoMemory`; then nothing has changed.
    ///
    /// Keeps `LocalTimer::delay`.
    pub fn delay(&mut self, now: u64, delay: Duration) -> Result<LocalTimerFuture, Fault>
        ensures made { IfOk result (λ future. Makes self.old (expiry_after now (as_nanos delay)) future.name self.new) }
        ensures fresh { IfOk result (λ future. future.has_ended ≡ false) }
        ensures pollable { IfOk result (λ future. can_be_polled (phase_at self.new future.name) ≡ true) }
        ensures refused { OnErr result (self.new ≡ self.old) }
        ensures fault { IfErr result (λ fault. fault ≡ Fault.NoMemory) }
        ensures apart { IfOk result (λ future. IsApart future.name self.old) }
        ensures all_stay { AllStay can_be_polled self.old self.new }
    {
        let slot = self.claim_delay(now, delay)?;
        Ok(LocalTimerFuture::at(slot))
    }

    /// The least expiry of those that wait, in milliseconds; None where none does. Keeps `GenericTimerService::next_expiration`.
    pub fn next_expiration(&self) -> Option<u64>
        ensures { IsNextExpiry self.now.waiting.side result }
    {
        self.deadlines.next_expiry()
    }

    /// Tells exactly those that wait and whose expiry is not after this moment, in milliseconds, and names them to be woken in
    /// rising order of expiry, equal ones in any order.
    ///
    /// Keeps `GenericTimerService::check_expirations`.
    pub fn check_expirations(&mut self, now: u64)
        ensures checked { Checks self.old now self.new }
        ensures all_stay { AllStay can_be_polled self.old self.new }
    {
        self.deadlines.tell_expired(now);
        self.floor = self.floor.max(now);
    }

    /// Takes out the oldest waker that was named to be woken; None where none is left.
    pub fn next_wake(&mut self) -> Option<W>
        ensures woken { Wakes self.old result self.new }
        ensures all_stay { AllStay can_be_polled self.old self.new }
    {
        self.deadlines.next_wake()
    }

    /// How many wakers are named to be woken. Its clauses also say what holds of every timer: it is sound and owes no wake.
    pub fn wake_count(&self) -> usize
        ensures count { result ≡ length self.now.waiting.out }
        ensures sound { IsSound self.now }
        ensures no_wake { OwesNoWake self.now }
    {
        self.deadlines.wake_count()
    }

    /// Makes a future with this expiry, in milliseconds, under a slot that was not live. Refused only with `NoMemory`; then
    /// nothing has changed.
    #[inline(always)]
    pub fn claim(&mut self, expiry: u64) -> Result<Slot, Fault>
        ensures made { IfOk result (λ slot. Makes self.old expiry slot.0 self.new) }
        ensures pollable { IfOk result (λ slot. can_be_polled (phase_at self.new slot.0) ≡ true) }
        ensures refused { OnErr result (self.new ≡ self.old) }
        ensures fault { IfErr result (λ fault. fault ≡ Fault.NoMemory) }
        ensures apart { IfOk result (λ slot. IsApart slot.0 self.old) }
        ensures all_stay { AllStay can_be_polled self.old self.new }
    {
        match self.deadlines.insert(expiry) {
            Ok(slot) => Ok(slot),
            Err(refused) => Err(Fault::from(refused)),
        }
    }

    /// Makes a future whose expiry is so long after this moment, under a slot that was not live. The delay counts in whole
    /// milliseconds, rounded down; the expiry is at most `u64::MAX`. Refused only with `NoMemory`; then nothing has changed.
    pub fn claim_delay(&mut self, now: u64, delay: Duration) -> Result<Slot, Fault>
        ensures made { IfOk result (λ slot. Makes self.old (expiry_after now (as_nanos delay)) slot.0 self.new) }
        ensures pollable { IfOk result (λ slot. can_be_polled (phase_at self.new slot.0) ≡ true) }
        ensures refused { OnErr result (self.new ≡ self.old) }
        ensures fault { IfErr result (λ fault. fault ≡ Fault.NoMemory) }
        ensures apart { IfOk result (λ slot. IsApart slot.0 self.old) }
        ensures all_stay { AllStay can_be_polled self.old self.new }
    {
        self.claim(now.saturating_add(whole_millis(delay)))
    }

    /// When the future under this slot expires; None if none lives there.
    pub fn expiry(&self, slot: Slot) -> Option<u64>
        ensures { result ≡ asks_of self.now.waiting.side slot.0 }
    {
        match self.deadlines.future(slot) {
            Some(future) => Some(future.asks.expiry),
            None => None,
        }
    }

    /// How far the future under this slot is; None if none lives there.
    pub fn stage(&self, slot: Slot) -> Option<Stage>
        ensures { result ≡ option_map stage_of (phase_at self.now slot.0) }
    {
        self.deadlines.stage(slot)
    }

    /// Polls the future under this slot at this moment, if one lives there that has not ended: ready where it was told, or where it is
    /// fresh and its expiry is not after the moment; else registered with this waker. The wakers of no more use come back. It is refused
    /// where there is no such future, and where it would have to wait and may not; then nothing has changed. So it asks its caller for
    /// nothing.
    #[inline(always)]
    pub fn poll(
        &mut self,
        slot: Slot,
        now: u64,
        waker: W,
        may_wait: bool,
    ) -> Result<(Poll<()>, Leftover<W>), NotPolled<W>>
        ensures polled { IfOk result (λ polled. Polls self.old slot.0 now waker polled.0 self.new) }
        ensures displaced { IfOk result (λ polled. polled.1.displaced ≡ displaced_at self.old slot.0) }
        ensures unused { IfOk result (λ polled. polled.1.unused ≡ unused_after polled.0 waker) }
        ensures live { IfOk result (λ _. is_some (phase_at self.new slot.0) ≡ true) }
        ensures pending { IfOk result (λ polled. OnPending polled.0 (can_be_polled (phase_at self.new slot.0) ≡ true)) }
        ensures waits { IfOk result (λ polled. OnPending polled.0 (may_wait ≡ true)) }
        ensures unchanged { OnErr result (self.new ≡ self.old) }
        ensures refused { IfErr result (λ why. IsRefused why waker (can_be_polled (phase_at self.old slot.0)) may_wait
            (WouldBeReady (Polls self.old slot.0 now) false)) }
        ensures others { OthersStay can_be_polled slot.0 self.old self.new }
    {
        let (is_registered, is_early) = match self.standing(slot, now) {
            Some(standing) => standing,
            None => return Err(NotPolled::NoFuture(waker)),
        };
        if !may_wait && (is_registered || is_early) {
            return Err(NotPolled::WouldWait(waker));
        }
        let named = self.deadlines.take_out(slot);
        if is_registered {
            let before = self.deadlines.set_phase(slot, Phase::Registered(waker));
            return Ok((Poll::Pending, Leftover::of(before, None)));
        }
        if is_early {
            self.floor = self.floor.min(now);
            self.deadlines.register(slot, waker);
            return Ok((Poll::Pending, Leftover::of(named, None)));
        }
        self.deadlines.set_phase(slot, Phase::Ended);
        Ok((Poll::Ready(()), Leftover::of(named, Some(waker))))
    }

    /// Cancels the future under this slot, if one lives there, and gives back the waker that it had. Nobody is told. Else None, and
    /// nothing changes: so it asks its caller for nothing.
    #[inline(always)]
    pub fn leave(&mut self, slot: Slot) -> Option<W>
        ensures left { LeavesWhere (is_some (phase_at self.old slot.0)) (Cancels self.old slot.0 self.new) (displaced_at self.old slot.0)
            self.old result self.new }
        ensures others { OthersStay can_be_polled slot.0 self.old self.new }
    {
        self.deadlines.remove(slot)
    }

    // Whether the future under this slot is registered, and whether it is fresh and its expiry has not come. None where none lives
    // there that can be polled. One look-up tells all.
    fn standing(&self, slot: Slot, now: u64) -> Option<(bool, bool)>
        ensures live { is_some result ≡ can_be_polled (phase_at self.now slot.0) }
        ensures registered { IfSome result (λ found. found.0 ≡ is_registered (phase_at self.now slot.0)) }
        ensures early { IfSome result (λ found. found.1 ≡ (is_fresh (phase_at self.now slot.0)
            && not (nat_le (expiry_of self.now.waiting.side slot.0) now))) }
    {
        let future = match self.deadlines.future(slot) {
            Some(future) => future,
            None => return None,
        };
        match &future.phase {
            Phase::Fresh => Some((false, future.asks.expiry > now)),
            Phase::Registered(_) => Some((true, false)),
            Phase::Told => Some((false, false)),
            Phase::Complete | Phase::Ended => None,
        }
    }
}
