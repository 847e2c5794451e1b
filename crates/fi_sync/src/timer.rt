//! The timer that threads share.
ghost use Rattle.std.specs.Arc.{arc_value};
ghost use Rattle.std.specs.Prelude.{◌≡◌, IfOk, IfErr};
ghost use Rattle.fi_parts.specs.declared.errors.Fault.{Fault};
ghost use Rattle.fi_sync.specs.Waiting.{IsNew};

pub mod timed;

use crate::blocking::{Blocking, wait_for};
use crate::event::ManualResetEvent;
use crate::monitor::{HasMonitor, Monitor};
use crate::slot_future::SlotFuture;
use crate::timer::timed::{Sleeper, Timed, TimedWait};
use fi_parts::memory::{share, start_thread};
use fi_parts::{Clock, Fault, Refused};
use futures::Future;
use futures::future::{Either, select};
use std::alloc::Global;
use std::marker::Model;
use std::sync::atomic::{AtomicBool, Ordering};
use std::sync::{Arc, Wait};
use std::thread::Threads;
use std::time::Duration;
use std::{fmt, thread};

/// How long `TimerService::run` sleeps at most before it looks at its event again, in milliseconds.
const LONGEST_SLEEP: u64 = 10;

/// A timer: a future of it is ready at its first poll if its moment has come by then, and else once a check has told it. Threads
/// share it by reference.
///
/// Only a check tells futures, so some thread has to `run` the timer, or to call `check_expirations` as time
/// passes. Each call but `new` takes the lock, and wakes those who were told and not woken yet. Keeps
/// `GenericTimerService` of futures-intrusive's `timer`.
///
/// # Examples
///
/// ```
/// use futures::task::Poll;
/// use futures::test::MockTask;
/// use futures_intrusive::timer::{MockClock, TimerService};
/// use std::sync::Arc;
///
/// let task = MockTask::new(&rt)?;
/// let clock = Arc::new(rt.alloc(), MockClock::new())?;
/// let timer = TimerService::new(rt.alloc(), rt, Arc::try_clone(&clock)?);
/// let mut wait = timer.deadline(5)?;
/// assert!(rt; task.poll(&mut wait).is_pending());
/// clock.set_time(5);
/// timer.check_expirations();
/// assert!(rt; task.is_woken() && task.poll(&mut wait) == Poll::Ready(Ok(())));
/// ```
#[derive(Drop)]
pub struct TimerService<C, R> {
    monitor: Monitor<Timed<C>, R>,
}

impl<C, R> fmt::Debug for TimerService<C, R> {
    fn fmt<F: fmt::Write>(&self, f: &mut fmt::Formatter<F>) -> fmt::Result {
        f.debug_struct("TimerService").finish()
    }
}

/// Waits for a moment of a timer's clock. Its drop unregisters it, and tells nobody.
///
/// Its output is Ok at its first poll if the clock has reached the moment, else once a check has told it, and refused as every
/// `SlotFuture`'s. Keeps `TimerFuture` of futures-intrusive's `timer`.
pub type TimerFuture<'a, C, R> = SlotFuture<&'a Monitor<Timed<C>, R>, TimedWait>;

/// A `TimerFuture` that owns a share of its timer in place of a reference to it.
pub type OwnedTimerFuture<C, R> = SlotFuture<Arc<TimerService<C, R>, Global>, TimedWait>;

impl<C, R> Model for TimerService<C, R> {
    ghost use Rattle.std.specs.Prelude.{ℕ};

    ghost Value = { ℕ };

    ghost view = { λ service. service.monitor };
}

impl<C: Clock + Drop, R: Wait + Drop> HasMonitor for Arc<TimerService<C, R>, Global> {
    type State = Timed<C>;

    type Runtime = R;

    ghost source = { λ timer. timer.value };

    fn monitor(&self) -> &Monitor<Timed<C>, R> {
        &self.monitor
    }
}

impl<C: Clock + Drop, R> TimerService<C, R> {
    /// A timer by this clock, that nobody waits for. It takes no memory yet. Keeps `GenericTimerService::new`.
    pub fn new(alloc: Global, rt: R, clock: C) -> Self {
        TimerService {
            monitor: Monitor::new(rt, Timed::new(alloc, clock)),
        }
    }
}

impl<C: Clock + Drop, R: Wait> TimerService<C, R> {
    /// A future for this moment, in milliseconds: ready at its first poll if the clock has reached it, else once
    /// `check_expirations` has told it. Refused only with `NoMemory`; then nothing has changed. Keeps `Timer::deadline`.
    #[inline(always)]
    pub fn deadline(&self, expiry: u64) -> Result<TimerFuture<'_, C, R>, Fault>
        ensures made { IfOk result (λ future. IsNew self.now future) }
        ensures fault { IfErr result (λ fault. fault ≡ Fault.NoMemory) }
    {
        SlotFuture::make(&self.monitor, expiry, Timed::claim)
    }

    /// A future for the moment this long after the clock's time now, in whole milliseconds, rounded down, and at most `u64::MAX`.
    /// Refused only with `NoMemory`; then nothing has changed. Keeps `Timer::delay`.
    #[inline(always)]
    pub fn delay(&self, delay: Duration) -> Result<TimerFuture<'_, C, R>, Fault>
        ensures made { IfOk result (λ future. IsNew self.now future) }
        ensures fault { IfErr result (λ fault. fault ≡ Fault.NoMemory) }
    {
        SlotFuture::make(&self.monitor, delay, Timed::claim_delay)
    }

    /// As `deadline`, for a timer that stands in an `Arc`: the future owns a share of the timer, so that it borrows nothing and can
    /// go to a thread or a task that outlives the caller. Refused with `NoMemory` as `deadline`, or where 2^63 - 1 shares are
    /// counted. Not in futures-intrusive.
    #[inline(always)]
    pub fn deadline_owned(timer: &Arc<Self>, expiry: u64) -> Result<OwnedTimerFuture<C, R>, Fault>
    where
        R: Drop,
        ensures made { IfOk result (λ future. IsNew (arc_value timer.now) future) }
        ensures fault { IfErr result (λ fault. fault ≡ Fault.NoMemory) }
    {
        SlotFuture::make(share(timer)?, expiry, Timed::claim)
    }

    /// As `delay`, for a timer that stands in an `Arc`: the future owns a share of the timer, and the call is refused as
    /// `deadline_owned`. Not in futures-intrusive.
    #[inline(always)]
    pub fn delay_owned(timer: &Arc<Self>, delay: Duration) -> Result<OwnedTimerFuture<C, R>, Fault>
    where
        R: Drop,
        ensures made { IfOk result (λ future. IsNew (arc_value timer.now) future) }
        ensures fault { IfErr result (λ fault. fault ≡ Fault.NoMemory) }
    {
        SlotFuture::make(share(timer)?, delay, Timed::claim_delay)
    }

    /// The least expiry of those that wait, in milliseconds; None where none does. Keeps `GenericTimerService::next_expiration`.
    pub fn next_expiration(&self) -> Option<u64> {
        self.monitor.call((), |timed, ()| timed.next_expiration())
    }

    /// Wakes those whose expiry is not after the clock's time now, in rising order of expiry. Keeps
    /// `GenericTimerService::check_expirations`.
    pub fn check_expirations(&self) {
        self.monitor.call((), |timed, ()| timed.check_expirations());
    }
}

impl<C: Clock + Drop, R: Blocking> TimerService<C, R> {
    /// Runs the timer on this thread until the event is set: wakes each future once its time has come. Answers the least expiry of those
    /// that wait then, whom this thread tells no more; None where none does.
    ///
    /// The thread sleeps until the next expiry, and is roused if a future comes to wait for an earlier one.
    /// An event wakes tasks, and no thread that sleeps with a time limit: so this one looks at the event every
    /// 10 milliseconds, and ends so much later at most. If several threads run one timer, only the one that
    /// began last is roused, and none any more once one of them has ended: then an earlier expiry is seen up to 10 milliseconds late.
    ///
    /// Refused with `NoMemory` if there is none for what the thread is roused by; then it did nothing.
    pub fn run(&self, until: &ManualResetEvent<R>) -> Result<Option<u64>, Fault>
        ensures fault { IfErr result (λ fault. fault ≡ Fault.NoMemory) }
    {
        let sleeper = self.begin_running()?;
        Ok(self.run_until(&sleeper, || until.is_set()))
    }

    /// Makes the call while a thread of its own runs the timer. That thread ends once the call has returned, whatever it answers; who
    /// waits then is told by a later check alone.
    ///
    /// Refused with `NoMemory` where there is none for that thread, or it can't be started; then the call was not made.
    pub fn while_running<A, F>(&self, rt: &R, call: F) -> Result<A, Fault>
    where
        C: Send,
        R: Threads + Send + Sync,
        F: FnOnce(&Self) -> A,
        requires { F.IsAlwaysCallable call }
        ensures fault { IfErr result (λ fault. fault ≡ Fault.NoMemory) }
    {
        let sleeper = self.begin_running()?;
        let is_over = AtomicBool::new(false);
        match beside(rt, self, &sleeper, &is_over, call) {
            Ok(answer) => Ok(answer),
            Err(refused) => Err(Fault::from(refused)),
        }
    }

    // Where the thread that is to run the timer will sleep, and be roused if a future comes to wait for an earlier moment.
    fn begin_running(&self) -> Result<Sleeper, Refused> {
        let sleeper = Sleeper::new(self.monitor.runtime().alloc())?;
        self.monitor.call(sleeper.share()?, Timed::run_by);
        Ok(sleeper)
    }

    // Runs the timer on this thread until the call, which is made after each check, answers `true`. Answers the least expiry of those that
    // wait then.
    fn run_until<F: Fn() -> bool>(&self, sleeper: &Sleeper, is_over: F) -> Option<u64>
        requires { F.IsAlwaysCallable is_over }
    {
        let rt = self.monitor.runtime();
        for _ in rt.forever() {
            let nap = self.monitor.call(LONGEST_SLEEP, Timed::check_and_plan);
            if is_over() {
                break;
            }
            sleeper.sleep(rt, nap);
        }
        self.monitor.call((), |timed, ()| timed.end_running())
    }

    /// Blocks this thread until the future is ready, but at most so long: its output, or None once the time is over. Then the future
    /// goes on: it may be waited for again, cancelled or dropped.
    ///
    /// The time is over when a check finds it so: another thread has to `run` the timer, or to call `check_expirations`. Refused
    /// with `NoMemory` where no delay or no executor can be made; the future goes on then too.
    pub fn wait_at_most<F: Future>(
        &self,
        limit: Duration,
        future: &mut F,
    ) -> Result<Option<F::Output>, Fault>
        requires { F.can_poll future.old }
    {
        let delay = self.delay(limit)?;
        match wait_for(self.monitor.runtime(), select(future, delay))? {
            Either::Left((output, _delay)) => Ok(Some(output)),
            Either::Right((elapsed, _future)) => {
                elapsed?;
                Ok(None)
            }
        }
    }
}

// Makes the call beside a thread that runs the timer. Refused where that can't be started; then the call was not made.
fn beside<'a, C, R, A, F>(
    rt: &'a R,
    timer: &'a TimerService<C, R>,
    sleeper: &'a Sleeper,
    is_over: &'a AtomicBool,
    call: F,
) -> Result<A, Refused>
where
    C: Clock + Drop + Send,
    R: Blocking + Threads + Send + Sync,
    F: FnOnce(&TimerService<C, R>) -> A,
    requires { F.IsAlwaysCallable call }
{
    thread::scope(thread::scope_env(), rt, |scope| {
        let started = start_thread(scope, move || {
            let _left = timer.run_until(sleeper, || is_over.load(Ordering::SeqCst));
        });
        if let Err(refused) = started {
            timer.monitor.call((), |timed, ()| timed.end_running());
            return Err(refused);
        }
        let answer = call(timer);
        is_over.store(true, Ordering::SeqCst);
        sleeper.rouse();
        Ok(answer)
    })
}
