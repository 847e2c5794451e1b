//! How many wakers a payment takes, against a state of the test's own.
ghost use Rattle.fi_sync.specs.Wakes.{TakesFirst};

use fi_sync::{Guarded, HasOutbox, PollWaker};
use futures::task::{Doorbell, Poll, Queue, Source, Waker};
use std::alloc::AllocGlobal;
use std::random::RandomSource;
use std::sync::Wait;

// Wakers that are to be woken, the oldest first.
#[derive(Drop)]
struct Named {
    wakers: Vec<PollWaker>,
}

impl HasOutbox for Named {
    ghost use Rattle.std.specs.Vec.{vec_items};

    ghost wakers = { λ named. vec_items named.wakers };

    ghost wakes = { λ old answer new. TakesFirst (vec_items old.wakers) answer (vec_items new.wakers) };

    fn next_wake(&mut self) -> Option<PollWaker> {
        if self.wakers.is_empty() {
            return None;
        }
        Some(self.wakers.remove(0))
    }

    fn wake_count(&self) -> u128 {
        self.wakers.len() as u128
    }
}

// The task that is queued first, which is ended. None if none is queued.
fn next<R: Wait>(rt: &R, tasks: &Queue) -> Option<usize> {
    let cx = tasks.next(rt)?;
    let task = cx.task();
    cx.cancel();
    Some(task)
}

// Whether just these tasks were woken, in this order. They are ended.
fn are_woken<R: Wait>(rt: &R, tasks: &Queue, expected: &[usize]) -> bool {
    let Ok(last) = tasks.add() else {
        return false;
    };
    let end = last.task();
    last.schedule();
    for expected in expected {
        if next(rt, tasks) != Some(*expected) {
            return false;
        }
    }
    next(rt, tasks) == Some(end)
}

// A waker of a task of its own, and that task.
fn waker<R: Wait>(rt: &R, tasks: &Queue, source: &Source) -> Option<(Waker, usize)> {
    let vacancy = tasks.add().ok()?;
    let task = vacancy.task();
    vacancy.schedule();
    let mut cx = tasks.next(rt)?;
    let mut slot = None;
    let _pending: Poll<()> = cx.register(source, &mut slot);
    cx.park();
    Some((slot?, task))
}

// A state that names so many wakers, each of a task of its own; and these tasks.
fn naming<R: Wait + AllocGlobal>(
    rt: &R,
    tasks: &Queue,
    source: &Source,
    count: u64,
) -> Option<(Guarded<Named>, Vec<usize>)> {
    let (mut wakers, mut owed_to) = (Vec::new(rt.alloc()), Vec::new(rt.alloc()));
    for _ in 0..count {
        let (waker, task) = waker(rt, tasks, source)?;
        wakers.push(Some(waker)).ok()?;
        owed_to.push(task).ok()?;
    }
    Some((Guarded::new(Named { wakers }), owed_to))
}

// Whether the oldest of them alone are woken by the first payment, and the one that was named later by the second, which was owed to all.
fn are_paid<R: Wait>(
    rt: &R,
    tasks: &Queue,
    named: &Guarded<Named>,
    owed_to: &[usize],
    newest: (Waker, usize),
) -> bool {
    let (newest, last) = newest;
    let ((), owed) = named.lend(rt, (), |_named, ()| ());
    let push = |named: &mut Named, newest| named.wakers.push(newest).is_ok();
    let (is_pushed, owed_later) = named.lend(rt, Some(newest), push);
    owed.pay(rt);
    let are_oldest_woken = are_woken(rt, tasks, owed_to);
    owed_later.pay(rt);
    is_pushed && are_oldest_woken && are_woken(rt, tasks, &[last])
}

fn pays_what_was_owed<R: Wait + AllocGlobal + RandomSource>(rt: &R) -> Option<bool> {
    let tasks = &Queue::new(rt, Doorbell::spinning()).ok()?;
    let source = &Source::new();
    let (named, owed_to) = naming(rt, tasks, source, 5)?;
    let newest = waker(rt, tasks, source)?;
    let are_right = are_paid(rt, tasks, &named, owed_to.as_slice(), newest);
    drop(named);
    Some(are_right && are_woken(rt, tasks, &[]))
}

// Six are named by the time that five wakes, which were owed, are paid: the five oldest are woken, and the sixth stays.
#[test]
fn a_payment_takes_what_was_owed(rt: HostRuntime) {
    assert!(rt; pays_what_was_owed(&rt) == Some(true));
}

// One of two who are named is taken out before the payment. Whether the other is woken alone, and nobody by a payment after it; a waker
// that is let go wakes its task.
fn are_left<R: Wait>(rt: &R, tasks: &Queue, named: &Guarded<Named>, owed_to: &[usize]) -> bool {
    let (Some(first), Some(second)) = (owed_to.first(), owed_to.last()) else {
        return false;
    };
    let ((), owed) = named.lend(rt, (), |_named, ()| ());
    let (taken, owed_later) = named.lend(rt, (), |named, ()| named.next_wake());
    owed.pay(rt);
    let is_other_woken = are_woken(rt, tasks, &[*second]);
    owed_later.pay(rt);
    drop(taken);
    is_other_woken && are_woken(rt, tasks, &[*first])
}

fn pays_who_is_left<R: Wait + AllocGlobal + RandomSource>(rt: &R) -> Option<bool> {
    let tasks = &Queue::new(rt, Doorbell::spinning()).ok()?;
    let (named, owed_to) = naming(rt, tasks, &Source::new(), 2)?;
    Some(are_left(rt, tasks, &named, owed_to.as_slice()))
}

// Where another thread took one out meanwhile, a payment ends without it.
#[test]
fn a_payment_ends_where_nobody_is_left(rt: HostRuntime) {
    assert!(rt; pays_who_is_left(&rt) == Some(true));
}
