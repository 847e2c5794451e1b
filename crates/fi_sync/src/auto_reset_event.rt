//! An event that resets itself, which threads share.
ghost use Rattle.std.specs.Arc.{arc_value};
ghost use Rattle.std.specs.Prelude.{◌≡◌, true, Option, IfOk, IfErr, false};
ghost use Rattle.futures.specs.declared.task.waker.Waker.{Waker};
ghost use Rattle.fi_locks.specs.Mutex.{MutexMachine, can_be_polled, is_free, Polls, Cancels};
ghost use Rattle.fi_parts.specs.declared.errors.Fault.{Fault};
ghost use Rattle.fi_sync.specs.AutoReset.{Sets, TriesWait};
ghost use Rattle.fi_sync.specs.Waiting.{InSomeHold, IsNew, PollsAt, WaitedFor, WouldWait, leftover_at, CancelsAt};

use crate::blocking::{Blocking, wait_for};
use crate::monitor::{HasMonitor, Monitor};
use crate::slot_future::{PollSlot, SlotFuture, SlotPolled, no_slot};
use crate::wakes::{HasOutbox, PollWaker};
use fi_locks::MutexState;
use fi_parts::memory::share;
use fi_parts::{Fault, FutureKind, NotPolled, Slot};
use futures::task::Poll;
use std::alloc::Global;
use std::fmt;
use std::marker::Model;
use std::sync::{Arc, Wait};

/// An event of which one wait passes once it is set, and that resets it. Threads share it by reference.
///
/// It is a mutex without a value, and set while that is free: `set` unlocks it, a wait that passes locks it. So it stays set until
/// one passes, however often it is set; and a notified wait that is dropped passes its notice on to the next. A fair one lets
/// waits pass in the order of their first polls; in an unfair one whoever comes while it is set may pass before the notified one.
///
/// Each call but `new` takes the lock. futures-intrusive has none; it is like .NET's and Windows', without a `Reset`.
///
/// # Examples
///
/// ```
/// use futures_intrusive::sync::AutoResetEvent;
/// use std::thread;
///
/// let has_work = AutoResetEvent::new(rt.alloc(), rt, false, true);
/// let work = || has_work.wait_blocking() == Ok(()); // blocks until another thread sets the event
/// let submit = || has_work.set();
/// let (is_done, ()) = thread::join(&rt, work, submit);
/// assert!(rt; is_done && !has_work.is_set());
/// ```
#[derive(Drop)]
pub struct AutoResetEvent<R> {
    monitor: Monitor<MutexState<(), PollWaker>, R>,
}

impl<R> fmt::Debug for AutoResetEvent<R> {
    fn fmt<F: fmt::Write>(&self, f: &mut fmt::Formatter<F>) -> fmt::Result {
        f.debug_struct("AutoResetEvent").finish()
    }
}

impl<R> Model for AutoResetEvent<R> {
    ghost use Rattle.std.specs.Prelude.{ℕ};

    ghost Value = { ℕ };

    ghost view = { λ event. event.monitor };
}

/// The kind of an auto-reset event's futures: ready once the event is set, which resets it.
pub struct AutoResetWait;

impl FutureKind for AutoResetWait {
    fn name() -> &'static str {
        "WaitForAutoResetEventFuture"
    }
}

/// Waits for an auto-reset event. Its drop unregisters it; if it was notified, the oldest registered wait is notified in its place.
///
/// Its output is `Ok(())` once it has passed, which resets the event. It is refused as every `SlotFuture`'s.
pub type WaitForAutoResetEventFuture<'a, R> = SlotFuture<
    &'a Monitor<MutexState<(), PollWaker>, R>,
    AutoResetWait,
>;

/// A `WaitForAutoResetEventFuture` that owns a share of its event in place of a reference to it.
pub type OwnedWaitForAutoResetEventFuture<R> = SlotFuture<
    Arc<AutoResetEvent<R>, Global>,
    AutoResetWait,
>;

impl<R> AutoResetEvent<R> {
    /// An event that nobody waits for, set or not, fair or not. It takes no memory yet.
    pub fn new(alloc: Global, rt: R, is_set: bool, is_fair: bool) -> Self {
        let mut state = MutexState::new(alloc, (), is_fair);
        if !is_set {
            let _ = state.try_take();
        }
        AutoResetEvent {
            monitor: Monitor::new(rt, state),
        }
    }
}

impl<R: Wait> AutoResetEvent<R> {
    /// Sets the event, and wakes the oldest registered wait. A set event stays as it is.
    pub fn set(&self)
        ensures set { InSomeHold (Sets {W = Option Waker}) }
    {
        let _ = self.monitor.call((), |event, ()| event.unlock(()));
    }

    /// Returns `true` if the event was set when it was looked at.
    pub fn is_set(&self) -> bool
        ensures shown { (held : MutexMachine (Unit {0}) (Option Waker)) × (result ≡ is_free held) }
    {
        !self.monitor.call((), |event, ()| event.is_locked())
    }

    /// Returns `true` if it passes at once, which resets the event: it is set and, if fair, no wait has been notified or waits. On
    /// `false` nothing has changed.
    pub fn try_wait(&self) -> bool
        ensures tried { InSomeHold (λ old. TriesWait {W = Option Waker} old result) }
    {
        match self.monitor.call((), |event, ()| event.try_take()) {
            Some(()) => true,
            None => false,
        }
    }

    /// A future that waits for the event. Refused only with `NoMemory`; then nothing has changed.
    #[inline(always)]
    pub fn wait(&self) -> Result<WaitForAutoResetEventFuture<'_, R>, Fault>
        ensures made { IfOk result (λ future. IsNew self.now future) }
        ensures fault { IfErr result (λ fault. fault ≡ Fault.NoMemory) }
    {
        SlotFuture::make(&self.monitor, (), |event, ()| event.claim())
    }

    /// As `wait`, for an event that stands in an `Arc`: the future owns a share of the event, so that it borrows nothing and can go
    /// to a thread or a task that outlives the caller. Refused with `NoMemory` as `wait`, or where 2^63 - 1 shares are counted.
    #[inline(always)]
    pub fn wait_owned(event: &Arc<Self>) -> Result<OwnedWaitForAutoResetEventFuture<R>, Fault>
    where
        R: Drop,
        ensures made { IfOk result (λ future. IsNew (arc_value event.now) future) }
        ensures fault { IfErr result (λ fault. fault ≡ Fault.NoMemory) }
    {
        SlotFuture::make(share(event)?, (), |event, ()| event.claim())
    }
}

impl<R: Blocking> AutoResetEvent<R> {
    /// Blocks this thread until it passes. Refused with `NoMemory` only where it has to wait and no future, executor or waker can be
    /// made.
    pub fn wait_blocking(&self) -> Result<(), Fault>
        // In some hold of the lock a newcomer passed, or a poll of a wait was ready.
        ensures waited { WaitedFor (λ _. InSomeHold (λ old. TriesWait {W = Option Waker} old true))
            (PollsAt can_be_polled (Polls {W = Option Waker})) result }
    {
        if self.try_wait() {
            return Ok(());
        }
        let wait = self.wait()?;
        wait_for(self.monitor.runtime(), wait)?
    }
}

impl<R: Wait + Drop> HasMonitor for Arc<AutoResetEvent<R>, Global> {
    type State = MutexState<(), PollWaker>;

    type Runtime = R;

    ghost source = { λ event. event.value };

    fn monitor(&self) -> &Monitor<MutexState<(), PollWaker>, R> {
        &self.monitor
    }
}

impl HasOutbox for MutexState<(), PollWaker> {
    ghost use Rattle.fi_locks.specs.Mutex.{Wakes};
    ghost use Rattle.fi_parts.specs.Pairs.{wakers_of};

    ghost wakers = { λ event. wakers_of event.waiting.out };

    ghost wakes = { Wakes };

    fn next_wake(&mut self) -> Option<PollWaker> {
        MutexState::next_wake(self)
    }

    fn wake_count(&self) -> u128 {
        MutexState::wake_count(self) as u128
    }
}

impl PollSlot<AutoResetWait> for MutexState<(), PollWaker> {
    type Output = Result<(), Fault>;

    type Left = Option<PollWaker>;

    ghost polls = { PollsAt can_be_polled Polls };

    ghost would_wait = { WouldWait (PollsAt can_be_polled Polls) };

    ghost leaves = { leftover_at };

    ghost cancels = { CancelsAt Cancels };

    ghost takes_out = { false };

    #[inline(always)]
    fn poll_slot(&mut self, slot: Slot, waker: PollWaker) -> SlotPolled<Self::Output> {
        let may_wait = waker.is_some();
        match self.poll(slot, waker, may_wait) {
            Ok((Poll::Ready(()), leftover)) => Some((Poll::Ready(Ok(())), leftover)),
            Ok((Poll::Pending, leftover)) => Some((Poll::Pending, leftover)),
            Err(NotPolled::NoFuture(waker)) => no_slot(waker),
            Err(NotPolled::WouldWait(_none)) => None,
        }
    }

    #[inline(always)]
    fn cancel(&mut self, slot: Slot) -> Option<PollWaker> {
        self.leave(slot)
    }
}
