//! The mutex that threads share, its guard and its future.
ghost use Rattle.std.specs.Arc.{arc_value};
ghost use Rattle.std.specs.Prelude.{◌≡◌, Option, Some, Result, Err, true, not, IfOk, IfErr, ⊤};
ghost use Rattle.std.specs.Borrow.{Lends, sem};
ghost use Rattle.futures.specs.declared.task.Poll.{Poll};
ghost use Rattle.futures.specs.Poll.{OnPending, IfReady};
ghost use Rattle.futures.specs.Task.{Covers, Keeps};
ghost use Rattle.futures.specs.declared.task.waker.Waker.{Waker};
ghost use Rattle.fi_locks.specs.Mutex.{MutexMachine, TriesLock, is_free};
ghost use Rattle.fi_parts.specs.declared.errors.Fault.{Fault};
ghost use Rattle.fi_sync.specs.Locked.{IsLockAnswer, PollsLock};
ghost use Rattle.fi_sync.specs.Waiting.{InSomeHold, IsGiven, IsNew, WaitedFor, is_final, polled};
ghost use Rattle.fi_sync.specs.Blanks.{IsLockBlank};

pub mod counted;

use crate::blocking::{Blocking, wait_for};
use crate::monitor::{HasMonitor, Monitor};
use crate::mutex::counted::{CountedMutex, Locked};
use crate::slot_future::SlotFuture;
use crate::wakes::HasOutbox;
use fi_locks::{Grant, MutexLock};
use fi_parts::Fault;
use fi_parts::memory::share;
use futures::Future;
use futures::task::{Context, Poll};
use std::alloc::Global;
use std::fmt;
use std::marker::Model;
use std::ops::{Deref, DerefMut};
use std::sync::ledger::{Blank, Ledger};
use std::sync::{Arc, Wait};

/// A mutex: one holder at a time has its value, and futures wait for it. Threads share it by reference.
///
/// A fair mutex is granted in the order of the futures' first polls. An unfair one is granted to whoever comes while it is free.
/// Each call but `new`, `into_inner` and `get_mut` takes the lock. Keeps `GenericMutex` of futures-intrusive's `sync`.
///
/// # Examples
///
/// ```
/// ghost use Rattle.futures_intrusive.specs.Blanks.{IsLockBlank};
///
/// use futures_intrusive::blocking::Blocking;
/// use futures_intrusive::sync::Mutex;
/// use std::marker::Brand;
/// use std::sync::ledger::{Blank, Ledger};
/// use std::thread;
/// use std::thread::Threads;
///
/// // `R` is the runtime, which waits for the lock; `L` is the ledger that counts the mutex's guards, and `blank` begins it.
/// fn add_up<R, L: Ledger + Send + Sync>(rt: R, blank: Blank) -> Option<u64>
/// where
///     R: Blocking + Threads + Copy + Drop + Send + Sync,
///     requires blank { IsLockBlank L.Ledger blank }
/// {
///     let sum = Mutex::<u64, R, L>::new(rt.alloc(), rt, blank, 0, true); // a fair one
///     let add = |part: u64| {
///         if let Ok(mut guard) = sum.lock_blocking() {
///             *guard = guard.wrapping_add(part);
///         }
///     };
///     thread::join(&rt, || add(3), || add(4));
///     sum.into_inner()
/// }
/// // ..
/// assert!(rt; add_up::<HostRuntime, Brand>(rt, Blank::new(1)) == Some(7));
/// ```
#[derive(Drop)]
pub struct Mutex<T, R, L: Ledger> {
    monitor: Monitor<CountedMutex<T, L>, R>,
}

impl<T: Drop, R: Wait, L: Ledger> fmt::Debug for Mutex<T, R, L> {
    fn fmt<F: fmt::Write>(&self, f: &mut fmt::Formatter<F>) -> fmt::Result {
        f.debug_struct("Mutex")
            .field("is_locked", &self.is_locked())
            .finish()
    }
}

impl<T, R, L: Ledger> Model for Mutex<T, R, L> {
    ghost use Rattle.std.specs.Prelude.{ℕ};

    ghost Value = { ℕ };

    ghost view = { λ mutex. mutex.monitor };
}

impl<T: Drop, R: Wait + Drop, L: Ledger> HasMonitor for Arc<Mutex<T, R, L>, Global> {
    type State = CountedMutex<T, L>;

    type Runtime = R;

    ghost source = { λ mutex. mutex.value };

    fn monitor(&self) -> &Monitor<CountedMutex<T, L>, R> {
        &self.monitor
    }
}

impl<T: Drop, R, L: Ledger> Mutex<T, R, L> {
    /// A free mutex with this value, fair or not. It takes no memory yet. Keeps `GenericMutex::new`.
    ///
    /// The blank is of the mutex's own ledger `L`, and has one part, for the guard.
    pub fn new(alloc: Global, rt: R, blank: Blank, value: T, is_fair: bool) -> Self
        requires blank { IsLockBlank L.Ledger blank }
    {
        Mutex {
            monitor: Monitor::new(rt, CountedMutex::new(alloc, blank, value, is_fair)),
        }
    }
}

impl<T, R, L: Ledger> Mutex<T, R, L> {
    /// Takes the value out of a mutex that is used no more. None only if a guard of it was forgotten and never dropped: then the value
    /// is with that. It takes no lock and no memory, and constant time. Not in futures-intrusive.
    pub fn into_inner(self) -> Option<T>
    where
        R: Drop,
    {
        let Mutex { monitor } = self;
        monitor.into_inner()
    }

    /// Lends the value out, to be changed in place. None only if a guard of it was forgotten and never dropped. It takes no lock and no
    /// memory, and constant time: whoever can borrow the mutex so shares it with nobody. Not in futures-intrusive.
    pub fn get_mut(&mut self) -> Option<&mut T> {
        self.monitor.get_mut()
    }
}

impl<T: Drop, R: Wait, L: Ledger> Mutex<T, R, L> {
    /// A future that locks the mutex. Refused only with `NoMemory`; then nothing has changed. Keeps `GenericMutex::lock`.
    #[inline(always)]
    pub fn lock(&self) -> Result<MutexLockFuture<'_, T, R, L>, Fault>
        ensures made { IfOk result (λ future. IsNew self.now future) }
        ensures fault { IfErr result (λ fault. fault ≡ Fault.NoMemory) }
    {
        MutexLockFutureOf::make(&self.monitor, &self.monitor)
    }

    /// As `lock`, for a mutex that stands in an `Arc`: the future and its guard own a share of the mutex each, so that they borrow
    /// nothing and can go to a thread or a task that outlives the caller. Refused with `NoMemory` as `lock`, or where 2^63 - 1 shares
    /// are counted. Not in futures-intrusive.
    #[inline(always)]
    pub fn lock_owned(mutex: &Arc<Self>) -> Result<OwnedMutexLockFuture<T, R, L>, Fault>
    where
        R: Drop,
        ensures made { IfOk result (λ future. IsNew (arc_value mutex.now) future) }
        ensures fault { IfErr result (λ fault. fault ≡ Fault.NoMemory) }
    {
        MutexLockFutureOf::make(share(mutex)?, share(mutex)?)
    }

    /// Locks the mutex at once: its guard. None where it is locked, or is fair and a future is queued for it. Keeps
    /// `GenericMutex::try_lock`.
    #[inline(always)]
    pub fn try_lock(&self) -> Option<MutexGuard<'_, T, R, L>>
        ensures tried { InSomeHold (λ old. TriesLock {W = Option Waker} old result) }
    {
        let locked = self.monitor.call((), |mutex, ()| mutex.try_lock())?;
        Some(MutexGuardOf::of(&self.monitor, locked))
    }

    /// Returns `true` if somebody held the mutex when it was looked at. Keeps `GenericMutex::is_locked`.
    pub fn is_locked(&self) -> bool
        ensures shown { (held : MutexMachine T (Option Waker)) × (result ≡ not (is_free held)) }
    {
        self.monitor.call((), |mutex, ()| mutex.is_locked())
    }
}

impl<T: Drop, R: Blocking, L: Ledger> Mutex<T, R, L> {
    /// Blocks this thread until the mutex is free for it, and locks it: its guard. Refused with `NoMemory` where no future or no
    /// executor can be made.
    pub fn lock_blocking(&self) -> Result<MutexGuard<'_, T, R, L>, Fault>
        ensures waited { WaitedFor (λ value. InSomeHold (λ old. TriesLock {W = Option Waker} old (Some value))) PollsLock result }
    {
        if let Some(guard) = self.try_lock() {
            return Ok(guard);
        }
        let lock = self.lock()?;
        wait_for(self.monitor.runtime(), lock)?
    }
}

/// Holds a mutex, with its value. Its drop puts the value back and unlocks the mutex, and wakes the oldest queued future.
///
/// At most one guard of a mutex is alive. It reaches the mutex by a reference or an `Arc`.
pub struct MutexGuardOf<M: HasMonitor<State = CountedMutex<T, L>>, T: Drop, L: Ledger> {
    monitor: M,
    value: T,
    hold: Grant<L>,
}

impl<M: HasMonitor<State = CountedMutex<T, L>>, T: Drop, L: Ledger> fmt::Debug
    for MutexGuardOf<M, T, L> {
    fn fmt<F: fmt::Write>(&self, f: &mut fmt::Formatter<F>) -> fmt::Result {
        f.debug_struct("GenericMutexGuard").finish()
    }
}

/// The guard of a mutex, to which it refers. Keeps `GenericMutexGuard` of futures-intrusive's `sync`.
pub type MutexGuard<'a, T, R, L> = MutexGuardOf<&'a Monitor<CountedMutex<T, L>, R>, T, L>;

/// A `MutexGuard` that owns a share of its mutex in place of a reference to it.
pub type OwnedMutexGuard<T, R, L> = MutexGuardOf<Arc<Mutex<T, R, L>, Global>, T, L>;

impl<M: HasMonitor<State = CountedMutex<T, L>>, T: Drop, L: Ledger> Model
    for MutexGuardOf<M, T, L> {
    ghost use Rattle.std.specs.Prelude.{◌≡◌};

    ghost Value = { T };

    ghost coded = { T.code };

    ghost view = { λ guard. guard.value };

    ghost invariant = { λ guard. (guard.hold ≡ 1) × (L.parts ≡ 1) };
}

impl<M: HasMonitor<State = CountedMutex<T, L>>, T: Drop, L: Ledger> MutexGuardOf<M, T, L> {
    // The guard of this hold.
    fn of(monitor: M, locked: Locked<T, L>) -> Self
        ensures { result ≡ locked }
    {
        let Locked { value, hold } = locked;
        MutexGuardOf {
            monitor,
            value,
            hold,
        }
    }

    /// For proofs: at most one guard of a mutex is alive, whatever it reaches the mutex by.
    pub fn never_two<N>(&mut self, other: &mut MutexGuardOf<N, T, L>)
    where
        N: HasMonitor<State = CountedMutex<T, L>>,
        ensures { ⊥ }
    {
        self.hold.apart(&mut other.hold);
    }
}

impl<M: HasMonitor<State = CountedMutex<T, L>>, T: Drop, L: Ledger> Drop for MutexGuardOf<M, T, L> {
    #[inline(always)]
    fn drop(self) {
        let MutexGuardOf {
            monitor,
            value,
            hold,
        } = self;
        monitor
            .monitor()
            .call(Locked { value, hold }, CountedMutex::unlock);
        drop(monitor);
    }
}

impl<M: HasMonitor<State = CountedMutex<T, L>>, T: Drop, L: Ledger> Deref
    for MutexGuardOf<M, T, L> {
    type Target = T;

    ghost deref_gives = { λ guard value. value ≡ guard };

    /// The value of the mutex.
    fn deref(&self) -> &T {
        &self.value
    }
}

impl<M: HasMonitor<State = CountedMutex<T, L>>, T: Drop, L: Ledger> DerefMut
    for MutexGuardOf<M, T, L> {
    ghost use Rattle.fi_sync.specs.contracts.mutex.MutexGuardOf.{the_row};

    ghost deref_mut_gives = { λ guard value. value ≡ guard };

    /// The value of the mutex, to be changed: what is written there is what the guard's drop puts back.
    fn deref_mut(&mut self) -> &mut T
        ensures* writes_back { sem 𝓛 (Lends
            (the_row M.row T.row L.row M.Runtime.row M.HasMonitor ⟦<CountedMutex<T, L> as HasOutbox>⟧ L.Ledger)
            T.row self.entry result (λ value. value)) }
        ensures shows { result.now ≡ self.old }
    {
        &mut self.value
    }
}

/// Locks a mutex. Its drop unregisters it; if it was told, the oldest queued future is told and woken in its place.
///
/// Its output is the guard, once the mutex is free for it. Refused with `NoMemory` where it had to wait and no waker could be
/// made; it may then be polled again. It reaches the mutex by a reference or an `Arc`.
#[derive(Drop)]
pub struct MutexLockFutureOf<M: HasMonitor<State = CountedMutex<T, L>>, T: Drop, L: Ledger> {
    future: SlotFuture<M, MutexLock>,
    // The guard's way to the mutex, which is made with the future: so a grant is never refused for want of memory.
    guard_monitor: Option<M>,
}

impl<M: HasMonitor<State = CountedMutex<T, L>>, T: Drop, L: Ledger> fmt::Debug
    for MutexLockFutureOf<M, T, L> {
    fn fmt<F: fmt::Write>(&self, f: &mut fmt::Formatter<F>) -> fmt::Result {
        f.debug_struct("GenericMutexLockFuture").finish()
    }
}

/// Locks a mutex, to which it refers. Keeps `GenericMutexLockFuture` of futures-intrusive's `sync`.
pub type MutexLockFuture<'a, T, R, L> = MutexLockFutureOf<&'a Monitor<CountedMutex<T, L>, R>, T, L>;

/// A `MutexLockFuture` that owns a share of its mutex in place of a reference to it, as its guard does.
pub type OwnedMutexLockFuture<T, R, L> = MutexLockFutureOf<Arc<Mutex<T, R, L>, Global>, T, L>;

impl<M: HasMonitor<State = CountedMutex<T, L>>, T: Drop, L: Ledger> Model
    for MutexLockFutureOf<M, T, L> {
    ghost use Rattle.std.specs.Prelude.{◌≡◌, true, is_none};
    ghost use Rattle.fi_sync.specs.Waiting.{SharedFuture};

    ghost Value = { SharedFuture };

    ghost view = { λ lock. lock.future };

    // The guard has it once the mutex was granted.
    ghost invariant = { λ lock. is_none lock.guard_monitor ≡ true → lock.future.has_ended ≡ true };
}

impl<M: HasMonitor<State = CountedMutex<T, L>>, T: Drop, L: Ledger> MutexLockFutureOf<M, T, L> {
    // Makes a future. Both monitors are the mutex's. Refused only with `NoMemory`; then nothing has changed.
    #[inline(always)]
    fn make(monitor: M, guard_monitor: M) -> Result<Self, Fault>
        ensures made { IfOk result (λ future. IsNew (M.source monitor) future) }
        ensures fault { IfErr result (λ fault. fault ≡ Fault.NoMemory) }
    {
        let future = SlotFuture::make(monitor, (), |mutex: &mut CountedMutex<T, L>, ()| {
            mutex.claim()
        })?;
        Ok(MutexLockFutureOf {
            future,
            guard_monitor: Some(guard_monitor),
        })
    }

    /// Returns `true` if the future was polled to its end. It takes no lock. Keeps `FusedFuture::is_terminated`.
    pub fn is_terminated(&self) -> bool
        ensures { result ≡ self.now.has_ended }
    {
        self.future.is_terminated()
    }
}

impl<M: HasMonitor<State = CountedMutex<T, L>>, T: Drop, L: Ledger> Future
    for MutexLockFutureOf<M, T, L> {
    type Output = Result<MutexGuardOf<M, T, L>, Fault>;

    ghost needs = { λ lock source. source ≡ lock.source };

    ghost gives = { λ lock. IsGiven PollsLock (Err Fault.NoMemory) };

    #[inline(always)]
    fn poll(&mut self, cx: &mut Context<'_>) -> Poll<Result<MutexGuardOf<M, T, L>, Fault>>
        ensures value { IfReady result (IsGiven PollsLock (Err Fault.NoMemory)) }
        ensures again { OnPending result ⊤ }
        ensures same { OnPending result ((output : Result T Fault) → IsGiven PollsLock (Err Fault.NoMemory) output
            → IsGiven PollsLock (Err Fault.NoMemory) output) }
        ensures registered { OnPending result (Covers cx.new (λ source. source ≡ self.new.source)) }
        ensures kept { Keeps cx.old cx.new }
        ensures stands { self.new ≡ polled is_final self.old result }
        ensures spent { self.old.has_ended ≡ true → result ≡ Poll.Pending }
        ensures answered { IsLockAnswer self.old.name self.old.has_ended cx.new.lacks_waker result }
    {
        match self.future.poll(cx) {
            Poll::Ready(Ok(locked)) => match self.guard_monitor.take() {
                Some(monitor) => Poll::Ready(Ok(MutexGuardOf::of(monitor, locked))),
                // A future is given the lock once, and has the monitor until then.
                None => unreachable!(),
            },
            Poll::Ready(Err(fault)) => Poll::Ready(Err(fault)),
            Poll::Pending => Poll::Pending,
        }
    }
}
