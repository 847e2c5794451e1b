//! The semaphore that threads share by reference.
ghost use Rattle.std.specs.Prelude.{◌≡◌, ◌≤◌, ◌+◌, ◌^◌, Option, true, IfOk, IfErr, IfSome, is_some};
ghost use Rattle.futures.specs.declared.task.waker.Waker.{Waker};
ghost use Rattle.fi_locks.specs.Semaphore.{Releases};
ghost use Rattle.fi_parts.specs.declared.errors.Fault.{Fault};
ghost use Rattle.fi_sync.specs.Granted.{PollsAcquire};
ghost use Rattle.fi_sync.specs.Waiting.{InSomeHold, IsNew, WaitedFor};
ghost use Rattle.fi_sync.specs.Blanks.{IsPermitBlank};
ghost use Rattle.fi_sync.specs.Closable.{Closable, WhileOpen, TriesPermits, Closes, free_at};

pub mod counted;
pub mod future;
pub mod releaser;
pub mod shared;

use crate::blocking::{Blocking, wait_for};
use crate::monitor::Monitor;
use crate::semaphore::counted::CountedSemaphore;
use crate::semaphore::future::SemaphoreAcquireFutureOf;
use crate::semaphore::releaser::SemaphoreReleaserOf;
use fi_parts::{CloseStatus, Fault};
use std::alloc::Global;
use std::fmt;
use std::marker::Model;
use std::sync::Wait;
use std::sync::ledger::{Blank, Ledger};

/// A semaphore: futures acquire permits, several at once, and releasers give them back. Threads share it by reference.
///
/// A fair semaphore tells its futures in the order of their first polls; those told together are granted in the order in which
/// they are polled again. An unfair one lets a caller that finds permits free pass those that wait; once futures of different
/// needs were made, one whose need is free can be left without a notice. Each call but `new` takes the lock. Keeps
/// `GenericSemaphore` of futures-intrusive's `sync`.
///
/// # Examples
///
/// ```
/// ghost use Rattle.futures_intrusive.specs.Blanks.{IsPermitBlank};
///
/// use futures_intrusive::blocking::Blocking;
/// use futures_intrusive::sync::Semaphore;
/// use std::marker::Brand;
/// use std::sync::ledger::{Blank, Ledger};
///
/// // `R` is the runtime, which waits for the lock; `L` is the ledger that counts the permits held, and `blank` begins it.
/// fn connect<R: Blocking + Copy, L: Ledger>(rt: R, blank: Blank) -> bool
/// where
///     requires blank { IsPermitBlank L.Ledger blank }
/// {
///     let connections = Semaphore::<R, L>::new(rt.alloc(), rt, blank, true, 2); // fair, at most two at a time
///     let Ok(permit) = connections.acquire_blocking(2) else {
///         return false;
///     };
///     let are_all_taken = connections.try_acquire(1).is_none();
///     drop(permit); // gives them back, and wakes who waits for them
///     are_all_taken && connections.permits() == 2
/// }
/// // ..
/// assert!(rt; connect::<HostRuntime, Brand>(rt, Blank::new(u64::MAX)));
/// ```
#[derive(Drop)]
pub struct Semaphore<R, L: Ledger> {
    monitor: Monitor<CountedSemaphore<L>, R>,
}

impl<R: Wait, L: Ledger> fmt::Debug for Semaphore<R, L> {
    fn fmt<F: fmt::Write>(&self, f: &mut fmt::Formatter<F>) -> fmt::Result {
        f.debug_struct("Semaphore")
            .field("permits", &self.permits())
            .finish()
    }
}

impl<R, L: Ledger> Model for Semaphore<R, L> {
    ghost use Rattle.std.specs.Prelude.{ℕ};

    ghost Value = { ℕ };

    ghost view = { λ semaphore. semaphore.monitor };
}

impl<R, L: Ledger> Semaphore<R, L> {
    /// A semaphore with this many free permits, fair or unfair. It takes no memory yet. Keeps `GenericSemaphore::new`.
    ///
    /// The blank is of the semaphore's own ledger `L`, and has a part for each permit that can be held: `u64::MAX`.
    pub fn new(alloc: Global, rt: R, blank: Blank, is_fair: bool, permits: usize) -> Self
        requires blank { IsPermitBlank L.Ledger blank }
    {
        Semaphore {
            monitor: Monitor::new(rt, CountedSemaphore::new(alloc, blank, is_fair, permits)),
        }
    }
}

/// Permits of a semaphore that are held; it refers to the semaphore. Keeps `GenericSemaphoreReleaser` of futures-intrusive's `sync`.
pub type SemaphoreReleaser<'a, R, L> = SemaphoreReleaserOf<&'a Monitor<CountedSemaphore<L>, R>, L>;

impl<R: Wait, L: Ledger> fmt::Debug for SemaphoreReleaser<'_, R, L> {
    fn fmt<F: fmt::Write>(&self, f: &mut fmt::Formatter<F>) -> fmt::Result {
        f.debug_struct("GenericSemaphoreReleaser").finish()
    }
}

/// Acquires permits of a semaphore, which it refers to. Keeps `GenericSemaphoreAcquireFuture` of futures-intrusive's `sync`.
pub type SemaphoreAcquireFuture<'a, R, L> = SemaphoreAcquireFutureOf<
    &'a Monitor<CountedSemaphore<L>, R>,
    L,
>;

impl<R: Wait, L: Ledger> fmt::Debug for SemaphoreAcquireFuture<'_, R, L> {
    fn fmt<F: fmt::Write>(&self, f: &mut fmt::Formatter<F>) -> fmt::Result {
        f.debug_struct("GenericSemaphoreAcquireFuture").finish()
    }
}

impl<R: Wait, L: Ledger> Semaphore<R, L> {
    /// A future that acquires this many permits. Refused only with `NoMemory`; then nothing has changed. Keeps
    /// `GenericSemaphore::acquire`.
    #[inline(always)]
    pub fn acquire(&self, permits: usize) -> Result<SemaphoreAcquireFuture<'_, R, L>, Fault>
        ensures made { IfOk result (λ future. IsNew self.now future) }
        ensures fault { IfErr result (λ fault. fault ≡ Fault.NoMemory) }
    {
        let claim = self.monitor.claim(permits, CountedSemaphore::claim)?;
        Ok(SemaphoreAcquireFutureOf::of(&self.monitor, &self.monitor, claim))
    }

    /// Acquires this many permits if they are free and, in a fair semaphore, no future is queued; 0 permits are always granted.
    /// None if they are not granted, or the semaphore is closed. Keeps `GenericSemaphore::try_acquire`.
    #[inline(always)]
    pub fn try_acquire(&self, permits: usize) -> Option<SemaphoreReleaser<'_, R, L>>
        ensures tried { InSomeHold (TriesPermits {W = Option Waker} permits (is_some result)) }
        ensures granted { IfSome result (λ releaser. releaser ≡ permits) }
    {
        let grant = self.monitor.call(permits, CountedSemaphore::try_acquire)?;
        Some(SemaphoreReleaserOf::of(&self.monitor, grant))
    }

    /// Adds free permits, and wakes the longest front of the queue whose needs together are free then.
    ///
    /// Refused with `Overflow` if the permits, free and held, would be more than `usize::MAX`; then nothing has changed.
    /// Keeps `GenericSemaphore::release`, which does not check.
    pub fn release(&self, permits: usize) -> Result<(), Fault>
        ensures released { IfOk result (λ _. InSomeHold (WhileOpen {W = Option Waker} (λ old new. Releases old permits new))) }
        ensures refused { IfErr result (λ fault. (fault ≡ Fault.Overflow)
            × (held : Closable (Option Waker)) × (2 ^ 64 ≤ held.permits.own.free + held.permits.own.held + permits)) }
    {
        self.monitor.call(permits, CountedSemaphore::release)
    }

    /// Closes the semaphore, and wakes all who wait: they end with `Closed`, as do all who come later. Permits that are held then need not
    /// come back, and a release adds none. `AlreadyClosed` if it was closed; then nothing has changed. As tokio's `Semaphore::close`;
    /// futures-intrusive has none.
    ///
    /// Those whose needs together are at most `usize::MAX` are woken at once; each of them that is polled or dropped wakes the next.
    pub fn close(&self) -> CloseStatus
        ensures closed { InSomeHold (Closes {W = Option Waker} result) }
    {
        self.monitor.call((), |semaphore, ()| semaphore.close())
    }

    /// Returns `true` if the semaphore was closed when it was looked at.
    pub fn is_closed(&self) -> bool
        ensures shown { (held : Closable (Option Waker)) × (result ≡ held.is_closed) }
    {
        self.monitor.call((), |semaphore, ()| semaphore.is_closed())
    }

    /// How many permits were free when it was looked at; 0 once the semaphore is closed. Keeps `GenericSemaphore::permits`.
    pub fn permits(&self) -> usize
        ensures shown { (held : Closable (Option Waker)) × (result ≡ free_at held) }
    {
        self.monitor.call((), |semaphore, ()| semaphore.permits())
    }

    /// How many permits were held when it was looked at; 0 once the semaphore is closed. The Rust crate does not count them.
    pub fn held(&self) -> usize
        ensures shown { (held : Closable (Option Waker)) × (result ≡ held.permits.own.held) }
    {
        self.monitor.call((), |semaphore, ()| semaphore.held())
    }
}

impl<R: Blocking, L: Ledger> Semaphore<R, L> {
    /// Blocks this thread until this many permits are granted: their releaser; or until the semaphore is closed: `Closed`. Refused
    /// with `NoMemory` where no future or no executor can be made.
    pub fn acquire_blocking(&self, permits: usize) -> Result<SemaphoreReleaser<'_, R, L>, Fault>
        ensures waited { WaitedFor (λ granted. (granted ≡ permits)
            × InSomeHold (TriesPermits {W = Option Waker} permits true)) PollsAcquire result }
    {
        if let Some(releaser) = self.try_acquire(permits) {
            return Ok(releaser);
        }
        let acquire = self.acquire(permits)?;
        wait_for(self.monitor.runtime(), acquire)?
    }
}
