//! A call that wakes many wakes each of them, however many there are: one body takes them out for every primitive.

use fi_sync::{Blocking, ManualResetEvent, WaitForEventFuture};
use futures::test::MockTask;

const MANY: usize = 100;

// A wait that this task has polled once. None if it is ready, or can't be made.
fn begin<'a, R: Blocking>(
    event: &'a ManualResetEvent<R>,
    task: &MockTask,
) -> Option<WaitForEventFuture<'a, R>> {
    let mut wait = event.wait().ok()?;
    task.poll(&mut wait).is_pending().then_some(wait)
}

// How many of the tasks are woken.
fn woken(tasks: &[MockTask]) -> usize {
    tasks.iter().filter(|task| task.is_woken()).count()
}

// Whether a hundred who wait are woken once the event is set, and none before.
fn wakes_all<R: Blocking>(rt: &R, event: &ManualResetEvent<R>) -> Option<bool> {
    let (mut tasks, mut waits) = (Vec::new(rt.alloc()), Vec::new(rt.alloc()));
    for _ in 0..MANY {
        let task = MockTask::new(rt).ok()?;
        waits.push(begin(event, &task)?).ok()?;
        tasks.push(task).ok()?;
    }
    let before = woken(&tasks);
    event.set();
    Some(before == 0 && woken(&tasks) == MANY)
}

#[test]
fn an_event_wakes_a_hundred(rt: HostRuntime) {
    let event = ManualResetEvent::new(rt.alloc(), rt, false);
    assert!(rt; wakes_all(&rt, &event) == Some(true));
}
