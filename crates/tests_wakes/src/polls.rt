//! How often tasks are polled. A poll that is ready makes no waker, whose drop would have its task polled once more.
ghost use Rattle.fi_sync.specs.Blanks.{IsPermitBlank};

use fi_sync::{Blocking, ManualResetEvent, Semaphore, SemaphoreAcquireFuture, WaitForEventFuture};
use futures::Future;
use futures::task::Poll;
use futures::test::MockTask;
use std::alloc::AllocGlobal;
use std::marker::Brand;
use std::sync::Wait;
use std::sync::ledger::{Blank, Ledger};

// Whether a future is ready at its first poll by this task, which nobody wakes when the future is gone.
fn is_ready_in_peace<F: Future + Drop>(task: &MockTask, future: F) -> bool
where
    F::Output: Drop,
    requires { F.can_poll future }
{
    let mut future = future;
    let is_ready = task.poll(&mut future).is_ready();
    drop(future);
    is_ready && !task.is_woken()
}

// Whether a thousand waits for a set event are ready in peace.
fn wake_nobody<R: Blocking>(rt: &R, event: &ManualResetEvent<R>) -> Option<bool> {
    let task = MockTask::new(rt).ok()?;
    for _ in 0..1_000u64 {
        if !is_ready_in_peace(&task, event.wait().ok()?) {
            return Some(false);
        }
    }
    Some(true)
}

// One body makes a waker for every primitive's poll: where it has to wait.
#[test]
fn ready_waits_wake_nobody(rt: HostRuntime) {
    let event = ManualResetEvent::new(rt.alloc(), rt, true);
    assert!(rt; wake_nobody(&rt, &event) == Some(true));
}

/// A semaphore's futures, without their clauses: the proofs of those who only look at answers stay small.
trait Permits {
    type Acquire: Acquires;

    fn begin(&self) -> Option<Self::Acquire>;

    fn add_one(&self) -> bool;
}

/// One of them, which needs one permit.
trait Acquires: Drop {
    fn is_granted(&mut self, task: &MockTask) -> bool;
}

impl<R: Wait, L: Ledger> Acquires for SemaphoreAcquireFuture<'_, R, L> {
    fn is_granted(&mut self, task: &MockTask) -> bool {
        task.poll(self).is_ready()
    }
}

impl<'a, R: Wait, L: Ledger> Permits for &'a Semaphore<R, L> {
    type Acquire = SemaphoreAcquireFuture<'a, R, L>;

    fn begin(&self) -> Option<SemaphoreAcquireFuture<'a, R, L>> {
        let semaphore = *self;
        semaphore.acquire(1).ok()
    }

    fn add_one(&self) -> bool {
        self.release(1).is_ok()
    }
}

// Whether an acquire that is granted while it is registered wakes nobody while it lives: it has two wakers of its own task then.
// Another that waits before it is told; the semaphore isn't fair.
fn overtakes_in_peace<P: Permits>(permits: &P, task: &MockTask, other: &MockTask) -> Option<bool> {
    let (mut first, mut second) = (permits.begin()?, permits.begin()?);
    let waits = !first.is_granted(other);
    let second_waits = !second.is_granted(task) && !second.is_granted(task);
    let is_granted = permits.add_one() && second.is_granted(task);
    Some(waits && second_waits && is_granted && !task.is_woken())
}

fn acquire_in_peace<R: Blocking + Copy, L: Ledger>(rt: R, blank: Blank) -> Option<bool>
    requires blank { IsPermitBlank L.Ledger blank }
{
    let (task, other) = (MockTask::new(&rt).ok()?, MockTask::new(&rt).ok()?);
    let semaphore = &Semaphore::<R, L>::new(rt.alloc(), rt, blank, false, 0);
    overtakes_in_peace(&semaphore, &task, &other)
}

#[test]
fn an_acquire_that_overtakes_wakes_nobody(rt: HostRuntime) {
    assert!(rt; acquire_in_peace::<HostRuntime, Brand>(rt, Blank::new(u64::MAX)) == Some(true));
}

/// An event with one wait.
trait Signal {
    fn set(&self);

    fn reset(&self);

    /// Polls the wait. None if its answer is neither ready nor pending.
    fn is_ready(&mut self, task: &MockTask) -> Option<bool>;
}

#[derive(Drop)]
struct Waiting<'a, R: Wait> {
    event: &'a ManualResetEvent<R>,
    wait: WaitForEventFuture<'a, R>,
}

impl<R: Wait> Signal for Waiting<'_, R> {
    fn set(&self) {
        self.event.set();
    }

    fn reset(&self) {
        self.event.reset();
    }

    fn is_ready(&mut self, task: &MockTask) -> Option<bool> {
        match task.poll(&mut self.wait) {
            Poll::Ready(Ok(())) => Some(true),
            Poll::Ready(Err(_)) => None,
            Poll::Pending => Some(false),
        }
    }
}

#[derive(Clone, Copy)]
enum Call {
    /// A poll by the task of this number.
    Poll(usize),
    Set,
    Reset,
}

/// A call, whether it is a poll that is ready, and which of the three tasks are woken then.
type Step = (Call, bool, [bool; 3]);

// Makes the call. Whether it is a poll that is ready.
fn make<S: Signal>(signal: &mut S, tasks: &[MockTask], call: Call) -> Option<bool> {
    match call {
        Call::Poll(number) => return signal.is_ready(tasks.get(number)?),
        Call::Set => signal.set(),
        Call::Reset => signal.reset(),
    }
    Some(false)
}

// Whether just these tasks are woken.
fn are_woken(tasks: &[MockTask], woken: [bool; 3]) -> bool {
    for (task, is_woken) in tasks.iter().zip(woken) {
        if task.is_woken() != is_woken {
            return false;
        }
    }
    true
}

// Makes the calls on a wait that three tasks poll. Answers how many went as they should, one after another.
fn steps<R: Blocking, S: Signal>(rt: &R, signal: &mut S, steps: &[Step]) -> Option<usize> {
    let mut tasks = Vec::new(rt.alloc());
    for _ in 0..3 {
        tasks.push(MockTask::new(rt).ok()?).ok()?;
    }
    for (number, step) in steps.iter().enumerate() {
        let (call, is_ready, woken) = *step;
        if make(signal, tasks.as_slice(), call) != Some(is_ready)
            || !are_woken(tasks.as_slice(), woken)
        {
            return Some(number);
        }
    }
    Some(steps.len())
}

// The same on an event.
fn play<R: Blocking + Copy>(rt: R, is_set: bool, list: &[Step]) -> Option<usize> {
    let event = &ManualResetEvent::new(rt.alloc(), rt, is_set);
    let mut waiting = Waiting {
        event,
        wait: event.wait().ok()?,
    };
    steps(&rt, &mut waiting, list)
}

// A task counts as woken until its first poll.
const READY_AFTER_OTHERS: [Step; 4] = [
    (Call::Poll(0), false, [false, true, true]),
    (Call::Poll(0), false, [false, true, true]),
    (Call::Set, false, [true, true, true]),
    // This poll keeps the wakers of the polls before it, which were made for the same task: their drop would wake it.
    (Call::Poll(0), true, [false, true, true]),
];

// The newest waker is the one that is woken. One that a poll displaced is kept, and is let go when another comes, which has its task
// polled once.
const THREE_TASKS: [Step; 5] = [
    (Call::Poll(0), false, [false, true, true]),
    (Call::Poll(1), false, [false, false, true]),
    (Call::Poll(2), false, [true, false, false]),
    (Call::Set, false, [true, false, true]),
    // The other waker that a poll displaced is let go.
    (Call::Poll(2), true, [true, true, false]),
];

const ENDED: [Step; 5] = [
    (Call::Poll(0), true, [false, true, true]),
    (Call::Poll(0), false, [false, true, true]),
    (Call::Poll(1), false, [true, false, true]),
    (Call::Reset, false, [true, false, true]),
    (Call::Set, false, [true, false, true]),
];

#[test]
fn a_ready_poll_after_others_wakes_nobody(rt: HostRuntime) {
    let right = play(rt, false, &READY_AFTER_OTHERS);
    assert!(rt; right == Some(4), "{right:?} are right");
}

#[test]
fn a_future_that_three_tasks_poll(rt: HostRuntime) {
    let right = play(rt, false, &THREE_TASKS);
    assert!(rt; right == Some(5), "{right:?} are right");
}

#[test]
fn an_ended_future_that_two_tasks_poll(rt: HostRuntime) {
    let right = play(rt, true, &ENDED);
    assert!(rt; right == Some(5), "{right:?} are right");
}
