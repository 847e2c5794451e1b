//! A manual reset event that threads share.
ghost use Rattle.std.specs.Arc.{arc_value};
ghost use Rattle.std.specs.Prelude.{◌≡◌, true, Option, IfOk, IfErr};
ghost use Rattle.futures.specs.declared.task.waker.Waker.{Waker};
ghost use Rattle.fi_channels.specs.Event.{EventMachine, can_be_polled, is_set, Polls, Sets, Resets};
ghost use Rattle.fi_parts.specs.declared.errors.Fault.{Fault};
ghost use Rattle.fi_sync.specs.Waiting.{InSomeHold, IsNew, PollsAt, WaitedFor};

pub mod future;

use crate::blocking::{Blocking, wait_for};
use crate::event::future::{OwnedWaitForEventFuture, WaitForEventFuture};
use crate::monitor::{HasMonitor, Monitor};
use crate::slot_future::SlotFuture;
use crate::wakes::{HasOutbox, PollWaker};
use fi_channels::EventState;
use fi_parts::Fault;
use fi_parts::memory::share;
use std::alloc::Global;
use std::fmt;
use std::marker::Model;
use std::sync::{Arc, Wait};

/// An event that stays set until it is reset. Waits for it end once it is set. Threads share it by reference.
///
/// Each call but `new` takes the lock. Keeps `ManualResetEvent` of futures-intrusive's `sync`.
///
/// # Examples
///
/// ```
/// use futures_intrusive::sync::ManualResetEvent;
/// use std::thread;
///
/// let is_loaded = ManualResetEvent::new(rt.alloc(), rt, false);
/// let serve = || is_loaded.wait_blocking() == Ok(()); // blocks until another thread sets the event
/// let load = || is_loaded.set();
/// let (is_served, ()) = thread::join(&rt, serve, load);
/// assert!(rt; is_served && is_loaded.is_set());
/// ```
#[derive(Drop)]
pub struct ManualResetEvent<R> {
    pub(crate) monitor: Monitor<EventState<PollWaker>, R>,
}

impl<R> fmt::Debug for ManualResetEvent<R> {
    fn fmt<F: fmt::Write>(&self, f: &mut fmt::Formatter<F>) -> fmt::Result {
        f.debug_struct("ManualResetEvent").finish()
    }
}

impl<R> Model for ManualResetEvent<R> {
    ghost use Rattle.std.specs.Prelude.{ℕ};

    ghost Value = { ℕ };

    ghost view = { λ event. event.monitor };
}

impl<R> ManualResetEvent<R> {
    /// An event that nobody waits for, set or not. It takes no memory yet. Keeps `ManualResetEvent::new`.
    pub fn new(alloc: Global, rt: R, is_set: bool) -> Self {
        ManualResetEvent {
            monitor: Monitor::new(rt, EventState::new(alloc, is_set)),
        }
    }
}

impl<R: Wait> ManualResetEvent<R> {
    /// Sets the event and wakes each wait that was registered, the oldest first. A set event stays as it is.
    ///
    /// Keeps `ManualResetEvent::set`.
    pub fn set(&self)
        ensures set { InSomeHold (Sets {W = Option Waker}) }
    {
        self.monitor.call((), |event, ()| event.set());
    }

    /// Clears the flag; waits that were told stay told. Keeps `ManualResetEvent::reset`.
    pub fn reset(&self)
        ensures reset { InSomeHold (Resets {W = Option Waker}) }
    {
        self.monitor.call((), |event, ()| event.reset());
    }

    /// Returns `true` if the event was set when it was looked at. Keeps `ManualResetEvent::is_set`.
    pub fn is_set(&self) -> bool
        ensures shown { (held : EventMachine (Option Waker)) × (result ≡ is_set held) }
    {
        self.monitor.call((), |event, ()| event.is_set())
    }

    /// A future that waits for the event. Refused only with `NoMemory`; then nothing has changed.
    ///
    /// Keeps `ManualResetEvent::wait`.
    #[inline(always)]
    pub fn wait(&self) -> Result<WaitForEventFuture<'_, R>, Fault>
        ensures made { IfOk result (λ future. IsNew self.now future) }
        ensures fault { IfErr result (λ fault. fault ≡ Fault.NoMemory) }
    {
        SlotFuture::make(&self.monitor, (), |event, ()| event.claim())
    }

    /// As `wait`, for an event that stands in an `Arc`: the future owns a share of the event, so that it borrows nothing and can go
    /// to a thread or a task that outlives the caller. Refused with `NoMemory` as `wait`, or where 2^63 - 1 shares are counted.
    ///
    /// Not in futures-intrusive.
    #[inline(always)]
    pub fn wait_owned(event: &Arc<Self>) -> Result<OwnedWaitForEventFuture<R>, Fault>
    where
        R: Drop,
        ensures made { IfOk result (λ future. IsNew (arc_value event.now) future) }
        ensures fault { IfErr result (λ fault. fault ≡ Fault.NoMemory) }
    {
        SlotFuture::make(share(event)?, (), |event, ()| event.claim())
    }
}

impl<R: Wait + Drop> HasMonitor for Arc<ManualResetEvent<R>, Global> {
    type State = EventState<PollWaker>;

    type Runtime = R;

    ghost source = { λ event. event.value };

    fn monitor(&self) -> &Monitor<EventState<PollWaker>, R> {
        &self.monitor
    }
}

impl<R: Blocking> ManualResetEvent<R> {
    /// Blocks this thread until the event is set. Refused with `NoMemory` where no future or no executor can be made.
    pub fn wait_blocking(&self) -> Result<(), Fault>
        // Some hold of the lock showed the event set, or had a poll of a wait that was ready.
        ensures waited { WaitedFor (λ _. (held : EventMachine (Option Waker)) × (is_set held ≡ true))
            (PollsAt can_be_polled (Polls {W = Option Waker})) result }
    {
        if self.is_set() {
            return Ok(());
        }
        let wait = self.wait()?;
        wait_for(self.monitor.runtime(), wait)?
    }
}

impl HasOutbox for EventState<PollWaker> {
    ghost use Rattle.fi_channels.specs.Event.{Wakes};
    ghost use Rattle.fi_parts.specs.Pairs.{wakers_of};

    ghost wakers = { λ event. wakers_of event.waiting.out };

    ghost wakes = { Wakes };

    fn next_wake(&mut self) -> Option<PollWaker> {
        EventState::next_wake(self)
    }

    fn wake_count(&self) -> u128 {
        EventState::wake_count(self) as u128
    }
}
