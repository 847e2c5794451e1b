//! A worker pool.
ghost use Rattle.std.specs.Prelude.{◌≡◌, IfOk, IfErr, OnOk, length};
ghost use Rattle.std.specs.Option.{option_map};
ghost use Rattle.fi_parts.specs.Machine.{phase_at};
ghost use Rattle.fi_parts.specs.Stages.{stage_of, AppendsQueue};
ghost use Rattle.fi_desk.specs.Pool.{IsSound, OwesNoWake, Opens, Step, SetsIf, is_drained};
ghost use Rattle.fi_desk.specs.PoolFields.{machine_of, AreTied, IsPool};
ghost use Rattle.fi_desk.specs.declared.pool.PoolCall.TheVariants as calls;

use fi_channels::{ChannelState, EventState, TryReceiveError, TrySendError};
use fi_locks::SemaphoreState;
use fi_parts::buffer::GrowingHeapBuf;
use fi_parts::{CloseStatus, Fault, NotPolled, Refused, Slot, Stage};
use fi_run::Answer;
use futures::task::Poll;
use std::alloc::Global;
use std::marker::Model;

/// A worker pool: jobs are handed in, wait in their order, and are started; at most `limit` run at once, and at most `capacity` wait.
///
/// A job is a number. The pool runs none itself: whoever starts a job runs it, and says when it has finished. Once the pool is shut
/// down it takes no more jobs, and a wait for it is ready when the last one has finished.
///
/// It names the wakers to be woken and wakes nobody itself: whoever calls it takes them out by `next_wake`. Each call but the makings
/// of waits takes constant time, except that `submit` may have to take memory, and that the call which drains the pool takes time for
/// each wait that it tells.
///
/// # Examples
///
/// ```
/// use futures_intrusive::run::{Answer, PoolState};
///
/// let mut pool = PoolState::<u64>::new(rt.alloc(), 2, 10)?; // two jobs at a time, ten in the queue; wakers are numbers
/// assert!(rt; pool.submit(5) == Answer::Done);
/// assert!(rt; pool.start() == Answer::Item(5));
/// assert!(rt; pool.finish() == Answer::Done);
/// ```
#[derive(Drop)]
pub struct PoolState<W> {
    fields: PoolFields<W>,
}

impl<W> Model for PoolState<W> {
    ghost use Rattle.fi_desk.specs.Pool.{PoolMachine};
    ghost use Rattle.fi_desk.specs.PoolCode.{pool_code};
    ghost use Rattle.fi_desk.specs.PoolFields.{machine_of, IsPool};

    ghost Value = { PoolMachine W };

    ghost coded = { pool_code W.code };

    ghost view = { λ s. machine_of s.fields };

    ghost invariant = { λ s. IsPool s.fields };
}

impl<W: Drop> PoolState<W> {
    /// Makes an open pool without jobs. Refused only with `NoMemory`.
    pub fn new(alloc: Global, limit: usize, capacity: usize) -> Result<Self, Fault>
        ensures opened { IfOk result (λ made. Opens (limit, capacity) made) }
        ensures fault { IfErr result (λ fault. fault ≡ Fault.NoMemory) }
    {
        let fields = PoolFields::new(alloc, limit, capacity)?;
        Ok(PoolState { fields })
    }

    /// Hands in a job, which waits behind the others. Answers `Done`.
    ///
    /// Else the job comes back in `Back` and nothing has changed: with `Closed` if the pool is shut down, else with `Full` if as many
    /// jobs wait as may, else with `NoMemory` if there was no memory for it.
    pub fn submit(&mut self, job: u64) -> Answer<u64, W>
        ensures { Step self.old (calls.Submit job) result self.new }
    {
        self.fields.submit(job)
    }

    /// Starts the job that has waited longest. Answers `Item` with it.
    ///
    /// Else nothing has changed. Answers `Nothing` if as many jobs run as may; else, if no job waits, `Refused(Closed)` if the pool is
    /// shut down and `Refused(Empty)` if it is not.
    pub fn start(&mut self) -> Answer<u64, W>
        ensures { Step self.old calls.Start result self.new }
    {
        self.fields.start()
    }

    /// Says that a job has finished. Answers `Done`; `Refused(NotHeld)` if none runs.
    ///
    /// If the pool is shut down, and this was its last job, all waits are told.
    pub fn finish(&mut self) -> Answer<u64, W>
        ensures { Step self.old calls.Finish result self.new }
    {
        self.fields.finish()
    }

    /// Shuts the pool down: it takes no more jobs, and those that wait can still be started. Answers `Newly`, or `Already` if it was
    /// shut down before.
    ///
    /// If no job waits or runs, all waits are told.
    pub fn shutdown(&mut self) -> Answer<u64, W>
        ensures { Step self.old calls.Shutdown result self.new }
    {
        self.fields.shutdown()
    }

    /// Makes a wait until the pool is shut down and no job waits or runs. Answers `Made`, or `Refused(NoMemory)`.
    pub fn wait(&mut self) -> Answer<u64, W>
        ensures { Step self.old calls.Wait result self.new }
    {
        self.fields.wait()
    }

    /// Polls the wait under this slot. Answers `Ready`, or `Pending`: then the wait is registered with this waker.
    ///
    /// `Refused(NoSlot)` if no wait lives under this slot, or it has ended.
    pub fn poll(&mut self, slot: Slot, waker: W) -> Answer<u64, W>
        ensures { Step self.old (calls.Poll slot waker) result self.new }
    {
        self.fields.poll(slot, waker)
    }

    /// Cancels the wait under this slot. Answers `Done`; `Refused(NoSlot)` if none lives under it.
    pub fn cancel(&mut self, slot: Slot) -> Answer<u64, W>
        ensures { Step self.old (calls.Cancel slot) result self.new }
    {
        self.fields.cancel(slot)
    }

    /// Takes out the oldest waker that was named to be woken. Answers `Woken` with it, or with None if none is left.
    pub fn next_wake(&mut self) -> Answer<u64, W>
        ensures { Step self.old calls.NextWake result self.new }
    {
        self.fields.next_wake()
    }

    /// How far the wait under this slot is; None if none lives there.
    pub fn stage(&self, slot: Slot) -> Option<Stage>
        ensures { result ≡ option_map stage_of (phase_at self.now.drained slot.0) }
    {
        self.fields.drained.stage(slot)
    }

    /// Appends the slots of the queue of waits, the oldest first. Where there was no memory for all, a beginning was appended.
    pub fn queue(&mut self, slots: &mut Vec<Slot>) -> Result<(), Refused>
        ensures same { self.new ≡ self.old }
        ensures appended { OnOk result (AppendsQueue self.old.drained.waiting.side.queue slots.old.items slots.new.items) }
    {
        self.fields.drained.queue(slots)
    }

    /// How many wakers are named to be woken. Its clauses also say what holds of every pool: it is sound and owes no wake.
    pub fn wake_count(&self) -> usize
        ensures count { result ≡ length self.now.drained.waiting.out }
        ensures sound { IsSound self.now }
        ensures no_wake { OwesNoWake self.now }
    {
        self.fields.wake_count()
    }
}

/// The states that a pool stands on. Between two calls on them the pool's law may be broken.
#[derive(Drop)]
struct PoolFields<W> {
    // The jobs that wait.
    jobs: ChannelState<u64, GrowingHeapBuf<u64>, W>,
    // An unfair semaphore, of which a permit is held for each job that runs.
    permits: SemaphoreState<W>,
    // Set once the pool is shut down and no job waits or runs.
    drained: EventState<W>,
    // Whether `jobs` is open, how many wait in it, and how many may, kept beside it.
    is_open: bool,
    waiting: usize,
    capacity: usize,
}

impl<W: Drop> PoolFields<W> {
    fn new(alloc: Global, limit: usize, capacity: usize) -> Result<Self, Fault>
        ensures opened { IfOk result (λ made. Opens (limit, capacity) (machine_of made)) }
        ensures is_pool { IfOk result (λ made. IsPool made) }
        ensures fault { IfErr result (λ fault. fault ≡ Fault.NoMemory) }
    {
        let jobs = ChannelState::with_capacity(alloc, capacity)?;
        // What holds of every channel holds of this one.
        let _ = jobs.wake_count();
        Ok(PoolFields {
            jobs,
            permits: SemaphoreState::new(alloc, false, limit),
            drained: EventState::new(alloc, false),
            is_open: true,
            waiting: 0,
            capacity,
        })
    }

    fn wake_count(&self) -> usize
        requires { IsPool self.now }
        ensures count { result ≡ length (machine_of self.now).drained.waiting.out }
        ensures sound { IsSound (machine_of self.now) }
        ensures no_wake { OwesNoWake (machine_of self.now) }
    {
        // The queue of jobs names nobody; what holds of it is part of what holds of the pool.
        let _ = self.jobs.wake_count();
        self.drained.wake_count()
    }

    fn submit(&mut self, job: u64) -> Answer<u64, W>
        requires { IsPool self.old }
        ensures stepped { Step (machine_of self.old) (calls.Submit job) result (machine_of self.new) }
        ensures is_pool { IsPool self.new }
    {
        match self.jobs.try_send(job) {
            Ok(()) => {
                self.waiting += 1;
                Answer::Done
            }
            Err(TrySendError::Closed(back)) => Answer::Back(back, Fault::Closed),
            Err(TrySendError::Full(back)) => Answer::Back(back, Fault::Full),
            Err(TrySendError::NoMemory(failed)) => Answer::without_room(failed),
        }
    }

    fn start(&mut self) -> Answer<u64, W>
        requires { IsPool self.old }
        ensures stepped { Step (machine_of self.old) calls.Start result (machine_of self.new) }
        ensures is_pool { IsPool self.new }
    {
        if self.permits.permits() == 0 {
            return Answer::Nothing;
        }
        match self.jobs.try_receive() {
            Ok(job) => {
                self.waiting -= 1;
                self.permits.try_acquire_sync(1);
                Answer::Item(job)
            }
            Err(TryReceiveError::Empty) => Answer::Refused(Fault::Empty),
            Err(TryReceiveError::Closed) => Answer::Refused(Fault::Closed),
        }
    }

    fn finish(&mut self) -> Answer<u64, W>
        requires { IsPool self.old }
        ensures stepped { Step (machine_of self.old) calls.Finish result (machine_of self.new) }
        ensures is_pool { IsPool self.new }
    {
        if self.permits.held() == 0 {
            return Answer::Refused(Fault::NotHeld);
        }
        self.permits.give_back(1);
        self.set_if_drained();
        Answer::Done
    }

    fn shutdown(&mut self) -> Answer<u64, W>
        requires { IsPool self.old }
        ensures stepped { Step (machine_of self.old) calls.Shutdown result (machine_of self.new) }
        ensures is_pool { IsPool self.new }
    {
        match self.jobs.close() {
            CloseStatus::AlreadyClosed => Answer::Already,
            CloseStatus::NewlyClosed => {
                self.is_open = false;
                self.set_if_drained();
                Answer::Newly
            }
        }
    }

    // The event has to be set by the call that drains the pool.
    fn set_if_drained(&mut self)
        requires { AreTied self.old }
        ensures set { SetsIf (is_drained (machine_of self.old)) self.old.drained self.new.drained }
        ensures rest { self.new ≡ record self.old { drained = self.new.drained } }
    {
        if !self.is_open && self.waiting == 0 && self.permits.held() == 0 {
            self.drained.set();
        }
    }

    fn wait(&mut self) -> Answer<u64, W>
        requires { IsPool self.old }
        ensures stepped { Step (machine_of self.old) calls.Wait result (machine_of self.new) }
        ensures is_pool { IsPool self.new }
    {
        match self.drained.claim() {
            Ok(slot) => Answer::Made(slot),
            Err(fault) => Answer::Refused(fault),
        }
    }

    fn poll(&mut self, slot: Slot, waker: W) -> Answer<u64, W>
        requires { IsPool self.old }
        ensures stepped { Step (machine_of self.old) (calls.Poll slot waker) result (machine_of self.new) }
        ensures is_pool { IsPool self.new }
    {
        match self.drained.poll(slot, waker, true) {
            Ok((Poll::Ready(_), _)) => Answer::Ready,
            Ok((Poll::Pending, _)) => Answer::Pending,
            Err(NotPolled::NoFuture(_)) => Answer::Refused(Fault::NoSlot),
            // It may wait.
            Err(NotPolled::WouldWait(_)) => unreachable!(),
        }
    }

    fn cancel(&mut self, slot: Slot) -> Answer<u64, W>
        requires { IsPool self.old }
        ensures stepped { Step (machine_of self.old) (calls.Cancel slot) result (machine_of self.new) }
        ensures is_pool { IsPool self.new }
    {
        if self.drained.stage(slot).is_none() {
            return Answer::Refused(Fault::NoSlot);
        }
        self.drained.leave(slot);
        Answer::Done
    }

    fn next_wake(&mut self) -> Answer<u64, W>
        requires { IsPool self.old }
        ensures stepped { Step (machine_of self.old) calls.NextWake result (machine_of self.new) }
        ensures is_pool { IsPool self.new }
    {
        Answer::Woken(self.drained.next_wake())
    }
}
