//! The event that resets itself: who passes, and in which order.

use fi_sync::{
    AutoResetEvent, Blocking, OwnedWaitForAutoResetEventFuture, WaitForAutoResetEventFuture,
};
use futures::executor::block_on;
use futures::task::Poll;
use futures::test::MockTask;
use std::sync::{Arc, Wait};
use std::thread;
use std::thread::Threads;

/// The event, without its clauses: the proofs of those who only look at answers stay small.
trait Event {
    type Wait: PassingWait;

    fn begin(&self) -> Option<Self::Wait>;

    fn signal(&self);

    fn is_signalled(&self) -> bool;

    fn passes_at_once(&self) -> bool;
}

/// A wait for it.
trait PassingWait: Drop {
    /// Polls it, and answers whether it passes. None if it is refused.
    fn passes(&mut self, task: &MockTask) -> Option<bool>;
}

impl<R: Wait> PassingWait for WaitForAutoResetEventFuture<'_, R> {
    fn passes(&mut self, task: &MockTask) -> Option<bool> {
        match task.poll(self) {
            Poll::Ready(Ok(())) => Some(true),
            Poll::Ready(Err(_)) => None,
            Poll::Pending => Some(false),
        }
    }
}

impl<'a, R: Wait> Event for &'a AutoResetEvent<R> {
    type Wait = WaitForAutoResetEventFuture<'a, R>;

    fn begin(&self) -> Option<WaitForAutoResetEventFuture<'a, R>> {
        let event = *self;
        event.wait().ok()
    }

    fn signal(&self) {
        self.set();
    }

    fn is_signalled(&self) -> bool {
        self.is_set()
    }

    fn passes_at_once(&self) -> bool {
        self.try_wait()
    }
}

// Whether both wait then.
fn both_wait<W: PassingWait>(
    older: &mut W,
    first: &MockTask,
    younger: &mut W,
    second: &MockTask,
) -> bool {
    older.passes(first) == Some(false) && younger.passes(second) == Some(false)
}

// Two waits are registered. Whether each set lets one pass, the oldest first, and one of a set event wakes nobody.
fn lets_one_pass_each<E: Event>(event: &E, first: &MockTask, second: &MockTask) -> Option<bool> {
    let (mut older, mut younger) = (event.begin()?, event.begin()?);
    let wait = both_wait(&mut older, first, &mut younger, second);
    event.signal();
    event.signal();
    let is_one_woken = event.is_signalled() && first.is_woken() && !second.is_woken();
    let passes = older.passes(first)? && !event.is_signalled();
    event.signal();
    let other_passes = second.is_woken() && younger.passes(second)?;
    Some(wait && is_one_woken && passes && other_passes && !event.is_signalled())
}

fn sets_let_one_pass_each<R: Blocking + Copy>(rt: R, is_fair: bool) -> Option<bool> {
    let event = &AutoResetEvent::new(rt.alloc(), rt, false, is_fair);
    lets_one_pass_each(&event, &MockTask::new(&rt).ok()?, &MockTask::new(&rt).ok()?)
}

#[test]
fn each_set_lets_one_wait_pass(rt: HostRuntime) {
    let fair = sets_let_one_pass_each(rt, true);
    assert!(rt; fair == Some(true) && sets_let_one_pass_each(rt, false) == Some(true));
}

// An event that is set twice while nobody waits. Whether one newcomer passes, and the next doesn't.
fn lets_one_newcomer_pass<E: Event>(event: &E, task: &MockTask) -> Option<bool> {
    event.signal();
    event.signal();
    let (mut one, mut other) = (event.begin()?, event.begin()?);
    let passes = event.is_signalled() && one.passes(task)?;
    Some(passes && !event.passes_at_once() && !other.passes(task)?)
}

fn one_newcomer_passes<R: Blocking + Copy>(rt: R, is_set: bool) -> Option<bool> {
    let event = &AutoResetEvent::new(rt.alloc(), rt, is_set, true);
    let starts = event.is_set() == is_set;
    Some(starts && lets_one_newcomer_pass(&event, &MockTask::new(&rt).ok()?)?)
}

#[test]
fn a_set_event_lets_the_next_that_comes_pass(rt: HostRuntime) {
    let was_set = one_newcomer_passes(rt, true);
    assert!(rt; was_set == Some(true) && one_newcomer_passes(rt, false) == Some(true));
}

// A wait is registered and notified, once who came before has passed, if the event was set. Whether a newcomer may pass it, and it waits
// again then.
fn lets_newcomer_pass<E: Event>(event: &E, is_set: bool, task: &MockTask) -> Option<bool> {
    let starts = event.passes_at_once() == is_set && !event.passes_at_once();
    let mut wait = event.begin()?;
    let waits = !wait.passes(task)?;
    event.signal();
    let passes = event.passes_at_once();
    let waits_again = !wait.passes(task)?;
    (starts && waits && waits_again == passes).then_some(passes)
}

fn newcomer_passes<R: Blocking + Copy>(rt: R, is_set: bool, is_fair: bool) -> Option<bool> {
    let event = &AutoResetEvent::new(rt.alloc(), rt, is_set, is_fair);
    lets_newcomer_pass(&event, is_set, &MockTask::new(&rt).ok()?)
}

#[test]
fn a_newcomer_passes_an_unfair_event_alone(rt: HostRuntime) {
    let unfair = newcomer_passes(rt, false, false) == Some(true);
    let fair = newcomer_passes(rt, false, true) == Some(false);
    let are_right = unfair && newcomer_passes(rt, true, false) == Some(true);
    assert!(rt; are_right && fair && newcomer_passes(rt, true, true) == Some(false));
}

// Two waits are registered, and the one that was notified is dropped. Whether the other passes.
fn passes_notice_on<E: Event>(event: &E, first: &MockTask, second: &MockTask) -> Option<bool> {
    let (mut older, mut younger) = (event.begin()?, event.begin()?);
    let wait = both_wait(&mut older, first, &mut younger, second);
    event.signal();
    drop(older);
    Some(wait && second.is_woken() && younger.passes(second)?)
}

fn notice_is_passed_on<R: Blocking + Copy>(rt: R, is_fair: bool) -> Option<bool> {
    let event = &AutoResetEvent::new(rt.alloc(), rt, false, is_fair);
    passes_notice_on(&event, &MockTask::new(&rt).ok()?, &MockTask::new(&rt).ok()?)
}

#[test]
fn a_dropped_wait_passes_its_notice_on(rt: HostRuntime) {
    let fair = notice_is_passed_on(rt, true);
    assert!(rt; fair == Some(true) && notice_is_passed_on(rt, false) == Some(true));
}

const ROUNDS: u64 = 1000;

// Waits for its turn and gives the other its own, in each round.
fn takes_turns<R: Blocking>(mine: &AutoResetEvent<R>, other: &AutoResetEvent<R>) -> bool {
    for _ in 0..ROUNDS {
        if mine.wait_blocking() != Ok(()) {
            return false;
        }
        other.set();
    }
    true
}

fn both_take_turns<R>(rt: R) -> bool
where
    R: Blocking + Threads + Copy + Send + Sync,
{
    let left = &AutoResetEvent::new(rt.alloc(), rt, true, true);
    let right = &AutoResetEvent::new(rt.alloc(), rt, false, false);
    let (one, other) = thread::join(
        &rt,
        move || takes_turns(left, right),
        move || takes_turns(right, left),
    );
    one && other && left.is_set() && !right.is_set()
}

#[test]
fn two_threads_take_turns(rt: HostRuntime) {
    assert!(rt; both_take_turns(rt));
}

fn passes<R: Wait>(rt: &R, wait: OwnedWaitForAutoResetEventFuture<R>) -> bool
where
    R: Blocking + Drop,
{
    matches!(block_on(rt, wait), Ok(Ok(())))
}

// Whether a wait that owns a share of its event ends on a thread of its own.
fn wait_moves<R>(rt: R) -> Option<bool>
where
    R: Blocking + Threads + Copy + Drop + Send + Sync + 'static,
{
    let task = MockTask::new(&rt).ok()?;
    let event = AutoResetEvent::new(rt.alloc(), rt, false, true);
    let event = Arc::new(rt.alloc(), event).ok()?;
    let mut wait = AutoResetEvent::wait_owned(&event).ok()?;
    let is_pending = task.poll(&mut wait).is_pending();
    let waiter = thread::spawn(&rt, move || passes(&rt, wait)).ok()?;
    event.set();
    let is_over = waiter.join(&rt);
    Some(is_pending && is_over && !event.is_set())
}

#[test]
fn an_owned_wait_for_one_pass_moves_to_a_thread(rt: HostRuntime) {
    assert!(rt; wait_moves(rt) == Some(true));
}
