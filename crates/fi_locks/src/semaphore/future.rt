//! The futures of a semaphore, and the permits that they acquire.
ghost use Rattle.std.specs.Prelude.{◌≡◌, ◌≤◌, nat_le, true, false};
ghost use Rattle.fi_parts.specs.Stays.{AllStay};
ghost use Rattle.fi_locks.specs.Semaphore.{can_be_polled, GivesBack, Disarms};

use crate::semaphore::{LocalSemaphore, SemaphoreState};
use fi_parts::{FutureKind, FuturesOf, LocalFuture, NotPolled, Slot};
use futures::task::Poll;
use std::marker::Model;
use std::{fmt, mem};

/// The kind of a semaphore's futures: ready with their permits, once these are granted. A cancel passes a notice that was not
/// used on to those who wait; after that of one that waited in a fair semaphore, the longest front of the queue whose needs
/// together are free then is told.
pub struct SemaphoreAcquire;

/// Acquires permits of a local semaphore. `leave` or `cancel` spends it, and is lent the semaphore; it cannot be dropped.
///
/// Keeps `GenericSemaphoreAcquireFuture` of futures-intrusive's `sync`, and its `cancel` the drop of that.
pub type LocalSemaphoreAcquireFuture = LocalFuture<SemaphoreAcquire>;

impl FutureKind for SemaphoreAcquire {
    fn name() -> &'static str {
        "GenericSemaphoreAcquireFuture"
    }
}

impl<W: Drop> FuturesOf<SemaphoreState<W>> for SemaphoreAcquire {
    ghost use Rattle.std.specs.Prelude.{◌≡◌, is_some};
    ghost use Rattle.fi_parts.specs.Machine.{phase_at};
    ghost use Rattle.fi_parts.specs.Polled.{is_ready};
    ghost use Rattle.fi_parts.specs.Stays.{OthersStay};
    ghost use Rattle.fi_locks.specs.Semaphore.{can_be_polled, Polls, Cancels, AreHeld};

    type Waker = W;

    type Moment = ();

    type Output = LocalSemaphoreReleaser;

    type Left = ();

    ghost is_pollable = { λ semaphore name. can_be_polled (phase_at semaphore name) };

    ghost is_live = { λ semaphore name. is_some (phase_at semaphore name) };

    ghost polls = { λ old name at. Polls old name };

    ghost shows = { λ name answer semaphore. AreHeld answer semaphore.own.held };

    ghost is_end = { is_ready };

    ghost cancels = { λ old name left new. Cancels old name new };

    ghost keeps = { λ old new. new.own.held ≡ old.own.held };

    ghost nothing = { tt };

    ghost others_stay = { OthersStay can_be_polled };

    fn poll(
        semaphore: &mut SemaphoreState<W>,
        slot: Slot,
        _at: (),
        waker: W,
    ) -> Option<Poll<LocalSemaphoreReleaser>> {
        let (answer, _leftover) = match semaphore.poll(slot, waker, true) {
            Ok(polled) => polled,
            Err(NotPolled::NoFuture(_)) => return None,
            // It may wait.
            Err(NotPolled::WouldWait(_)) => unreachable!(),
        };
        match answer {
            Poll::Ready(permits) => Some(Poll::Ready(LocalSemaphoreReleaser::of(permits))),
            Poll::Pending => Some(Poll::Pending),
        }
    }

    fn ends(answer: &Poll<LocalSemaphoreReleaser>) -> bool {
        answer.is_ready()
    }

    fn leave(semaphore: &mut SemaphoreState<W>, slot: Slot) {
        semaphore.leave(slot);
    }
}

/// Permits of a local semaphore that are held. `give_back` or `disarm` spends them, and is lent the semaphore; they cannot be
/// dropped.
///
/// Keeps `GenericSemaphoreReleaser` of futures-intrusive's `sync`.
pub struct LocalSemaphoreReleaser {
    permits: usize,
}

impl fmt::Debug for LocalSemaphoreReleaser {
    fn fmt<F: fmt::Write>(&self, f: &mut fmt::Formatter<F>) -> fmt::Result {
        f.debug_struct("GenericSemaphoreReleaser").finish()
    }
}

impl Model for LocalSemaphoreReleaser {
    ghost use Rattle.std.specs.Prelude.{ℕ};

    ghost Value = { ℕ };

    ghost view = { λ r. r.permits };
}

impl LocalSemaphoreReleaser {
    // Permits that were just granted.
    pub(crate) fn of(permits: usize) -> Self
        ensures { result ≡ permits }
    {
        LocalSemaphoreReleaser { permits }
    }

    /// How many permits these are.
    pub fn permits(&self) -> usize
        ensures { result ≡ self.now }
    {
        self.permits
    }

    /// Gives the permits back, and tells the longest front of the queue whose needs together are free then.
    ///
    /// The caller lends the permits' own semaphore, which holds them. Keeps the drop of `GenericSemaphoreReleaser`.
    pub fn give_back<W: Drop>(self, semaphore: &mut LocalSemaphore<W>)
        requires { self ≤ semaphore.old.own.held }
        ensures given_back { GivesBack semaphore.old self semaphore.new }
        ensures all_stay { AllStay can_be_polled semaphore.old semaphore.new }
    {
        let LocalSemaphoreReleaser { permits } = self;
        semaphore.give_back(permits);
    }

    /// Gives the permits back as `give_back` does and returns `true`, if so many are held. Else `false`, and nothing changes: so it
    /// asks its caller for nothing.
    pub fn give_back_checked<W: Drop>(self, semaphore: &mut LocalSemaphore<W>) -> bool
        ensures held { result ≡ nat_le self semaphore.old.own.held }
        ensures given_back { result ≡ true → GivesBack semaphore.old self semaphore.new }
        ensures unchanged { result ≡ false → semaphore.new ≡ semaphore.old }
        ensures all_stay { AllStay can_be_polled semaphore.old semaphore.new }
    {
        let LocalSemaphoreReleaser { permits: count } = self;
        if count > semaphore.held() {
            return false;
        }
        semaphore.give_back(count);
        true
    }

    /// Leaves no permits here, and says how many there were: they are no longer held, and will not be given back.
    ///
    /// The caller lends the permits' own semaphore, which holds them. Keeps `GenericSemaphoreReleaser::disarm`.
    pub fn disarm<W: Drop>(&mut self, semaphore: &mut LocalSemaphore<W>) -> usize
        requires { self.old ≤ semaphore.old.own.held }
        ensures disarmed { Disarms semaphore.old self.old semaphore.new }
        ensures count { result ≡ self.old }
        ensures none_left { self.new ≡ 0 }
        ensures all_stay { AllStay can_be_polled semaphore.old semaphore.new }
    {
        let permits = mem::replace(&mut self.permits, 0);
        semaphore.disarm(permits);
        permits
    }
}
