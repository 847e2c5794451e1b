//! The semaphore that its owners share: it lives while one of them, a future or a releaser of theirs does.
ghost use Rattle.std.specs.Arc.{arc_value};
ghost use Rattle.std.specs.Prelude.{◌≡◌, Option, true, IfOk, IfErr, IfSome, is_some};
ghost use Rattle.futures.specs.declared.task.waker.Waker.{Waker};
ghost use Rattle.fi_parts.specs.declared.errors.Fault.{Fault};
ghost use Rattle.fi_sync.specs.Granted.{PollsAcquire};
ghost use Rattle.fi_sync.specs.Waiting.{InSomeHold, IsNew, WaitedFor};
ghost use Rattle.fi_sync.specs.Blanks.{IsPermitBlank};
ghost use Rattle.fi_sync.specs.Closable.{TriesPermits};

use crate::blocking::{Blocking, wait_for};
use crate::monitor::{HasMonitor, Monitor};
use crate::semaphore::Semaphore;
use crate::semaphore::counted::CountedSemaphore;
use crate::semaphore::future::SemaphoreAcquireFutureOf;
use crate::semaphore::releaser::SemaphoreReleaserOf;
use fi_parts::memory::{share, shared};
use fi_parts::{Fault, Refused};
use std::alloc::Global;
use std::fmt;
use std::marker::Model;
use std::ops::Deref;
use std::sync::ledger::{Blank, Ledger};
use std::sync::{Arc, Wait};

/// A semaphore whose futures and releasers own a share of it, so that they borrow nothing.
///
/// It has the calls of `Semaphore`, to which it derefs: `release`, `permits`, `held`, `close`, `is_closed`. Here are those that make
/// what owns a share; `new` and `try_acquire` can be refused memory besides, as `clone`, which makes one more owner. Keeps
/// `GenericSharedSemaphore` of futures-intrusive's `sync`.
///
/// # Examples
///
/// ```
/// ghost use Rattle.futures_intrusive.specs.Blanks.{IsPermitBlank};
///
/// use futures_intrusive::blocking::Blocking;
/// use futures_intrusive::sync::SharedSemaphore;
/// use std::marker::Brand;
/// use std::sync::ledger::{Blank, Ledger};
///
/// // `R` is the runtime, which waits for the lock; `L` is the ledger that counts the permits held, and `blank` begins it.
/// fn outlives<R: Blocking + Copy + Drop, L: Ledger>(rt: R, blank: Blank) -> Option<usize>
/// where
///     requires blank { IsPermitBlank L.Ledger blank }
/// {
///     let permits = SharedSemaphore::<R, L>::new(rt.alloc(), rt, blank, true, 2).ok()?; // fair, two permits
///     let other = permits.clone().ok()?;
///     let permit = permits.try_acquire(1).ok()??;
///     drop(permits); // `permit` and `other` share the semaphore still
///     let free = other.permits();
///     drop(permit); // gives it back
///     Some(free)
/// }
/// // ..
/// assert!(rt; outlives::<HostRuntime, Brand>(rt, Blank::new(u64::MAX)) == Some(1));
/// ```
#[derive(Drop)]
pub struct SharedSemaphore<R: Wait + Drop, L: Ledger> {
    semaphore: Arc<Semaphore<R, L>, Global>,
}

impl<R: Wait + Drop, L: Ledger> Deref for SharedSemaphore<R, L> {
    type Target = Semaphore<R, L>;

    ghost deref_gives = { λ shared semaphore. semaphore ≡ shared };

    /// The semaphore itself, for the calls that make nothing which owns a share of it.
    fn deref(&self) -> &Semaphore<R, L> {
        &self.semaphore
    }
}

impl<R: Wait + Drop, L: Ledger> HasMonitor for Arc<Semaphore<R, L>, Global> {
    type State = CountedSemaphore<L>;

    type Runtime = R;

    ghost source = { λ semaphore. semaphore.value };

    fn monitor(&self) -> &Monitor<CountedSemaphore<L>, R> {
        &self.monitor
    }
}

impl<R: Wait + Drop, L: Ledger> fmt::Debug for SharedSemaphore<R, L> {
    fn fmt<F: fmt::Write>(&self, f: &mut fmt::Formatter<F>) -> fmt::Result {
        f.debug_struct("Semaphore")
            .field("permits", &self.permits())
            .finish()
    }
}

impl<R: Wait + Drop, L: Ledger> Model for SharedSemaphore<R, L> {
    ghost use Rattle.std.specs.Prelude.{ℕ};

    ghost Value = { ℕ };

    ghost view = { λ shared. shared.semaphore.value };
}

/// Permits of a shared semaphore that are held. Keeps `GenericSharedSemaphoreReleaser`.
pub type SharedSemaphoreReleaser<R, L> = SemaphoreReleaserOf<Arc<Semaphore<R, L>, Global>, L>;

impl<R: Wait + Drop, L: Ledger> fmt::Debug for SharedSemaphoreReleaser<R, L> {
    fn fmt<F: fmt::Write>(&self, f: &mut fmt::Formatter<F>) -> fmt::Result {
        f.debug_struct("GenericSharedSemaphoreReleaser").finish()
    }
}

/// Acquires permits of a shared semaphore. Keeps `GenericSharedSemaphoreAcquireFuture`.
pub type SharedSemaphoreAcquireFuture<R, L> = SemaphoreAcquireFutureOf<
    Arc<Semaphore<R, L>, Global>,
    L,
>;

impl<R: Wait + Drop, L: Ledger> fmt::Debug for SharedSemaphoreAcquireFuture<R, L> {
    fn fmt<F: fmt::Write>(&self, f: &mut fmt::Formatter<F>) -> fmt::Result {
        f.debug_struct("GenericSharedSemaphoreAcquireFuture")
            .finish()
    }
}

impl<R: Wait + Drop, L: Ledger> SharedSemaphore<R, L> {
    /// A semaphore with this many free permits, fair or unfair. Refused with `NoMemory` where there is none for what its owners
    /// share. Keeps `GenericSharedSemaphore::new`.
    ///
    /// The blank is of the semaphore's own ledger `L`, and has a part for each permit that can be held: `u64::MAX`.
    pub fn new(
        alloc: Global,
        rt: R,
        blank: Blank,
        is_fair: bool,
        permits: usize,
    ) -> Result<Self, Fault>
        requires blank { IsPermitBlank L.Ledger blank }
        ensures { IfErr result (λ fault. fault ≡ Fault.NoMemory) }
    {
        let semaphore = Semaphore::new(alloc, rt, blank, is_fair, permits);
        Ok(SharedSemaphore {
            semaphore: shared(alloc, semaphore)?,
        })
    }

    /// One more owner of the same semaphore. Refused with `NoMemory` only where 2^63 - 1 are counted. Keeps the `Clone` of
    /// `GenericSharedSemaphore`.
    pub fn clone(&self) -> Result<Self, Fault>
        ensures same { IfOk result (λ clone. clone ≡ self.now) }
        ensures fault { IfErr result (λ fault. fault ≡ Fault.NoMemory) }
    {
        Ok(SharedSemaphore {
            semaphore: self.share()?,
        })
    }

    /// A future that acquires this many permits. Refused only with `NoMemory`; then nothing has changed. Keeps
    /// `GenericSharedSemaphore::acquire`.
    #[inline(always)]
    pub fn acquire(&self, permits: usize) -> Result<SharedSemaphoreAcquireFuture<R, L>, Fault>
        ensures made { IfOk result (λ future. IsNew self.now future) }
        ensures fault { IfErr result (λ fault. fault ≡ Fault.NoMemory) }
    {
        let semaphore = self.share()?;
        let releaser_semaphore = self.share()?;
        let claim = self
            .semaphore
            .monitor
            .claim(permits, CountedSemaphore::claim)?;
        Ok(SemaphoreAcquireFutureOf::of(semaphore, releaser_semaphore, claim))
    }

    /// Acquires this many permits if they are free and, in a fair semaphore, no future is queued; 0 permits are always granted.
    /// None if they are not granted, or the semaphore is closed. Refused with `NoMemory` as `clone`; then nothing has changed. Keeps
    /// `GenericSharedSemaphore::try_acquire`.
    #[inline(always)]
    pub fn try_acquire(
        &self,
        permits: usize,
    ) -> Result<Option<SharedSemaphoreReleaser<R, L>>, Fault>
        ensures tried { IfOk result (λ granted. InSomeHold (TriesPermits {W = Option Waker} permits (is_some granted))) }
        ensures granted { IfOk result (λ granted. IfSome granted (λ releaser. releaser ≡ permits)) }
        ensures fault { IfErr result (λ fault. fault ≡ Fault.NoMemory) }
    {
        let semaphore = self.share()?;
        match self
            .semaphore
            .monitor
            .call(permits, CountedSemaphore::try_acquire)
        {
            Some(grant) => Ok(Some(SemaphoreReleaserOf::of(semaphore, grant))),
            None => Ok(None),
        }
    }

    /// Blocks this thread until this many permits are granted: their releaser; or until the semaphore is closed: `Closed`. Refused
    /// with `NoMemory` where no future or no executor can be made.
    pub fn acquire_blocking(&self, permits: usize) -> Result<SharedSemaphoreReleaser<R, L>, Fault>
    where
        R: Blocking,
        ensures waited { WaitedFor (λ granted. (granted ≡ permits)
            × InSomeHold (TriesPermits {W = Option Waker} permits true)) PollsAcquire result }
    {
        if let Some(releaser) = self.try_acquire(permits)? {
            return Ok(releaser);
        }
        let acquire = self.acquire(permits)?;
        wait_for(self.semaphore.monitor.runtime(), acquire)?
    }

    fn share(&self) -> Result<Arc<Semaphore<R, L>, Global>, Refused>
        ensures { IfOk result (λ shared. arc_value shared ≡ self.now) }
    {
        share(&self.semaphore)
    }
}
