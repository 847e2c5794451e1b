//! Tasks that poll futures, by the numbers of their wakers.

use futures::Future;
use futures::task::{Doorbell, Poll, Queue, Source, Waker};
use std::alloc::AllocGlobal;
use std::random::RandomSource;
use std::sync::Wait;

/// How many there are: one that marks the end of those that were woken, and five that poll.
const COUNT: usize = 6;

/// Some of the tasks.
#[derive(Clone, Copy)]
pub struct TaskSet([bool; COUNT]);

impl TaskSet {
    pub fn new() -> Self {
        TaskSet([false; COUNT])
    }

    pub fn insert(&mut self, task: usize) {
        if let Some(is_in) = self.0.get_mut(task) {
            *is_in = true;
        }
    }

    fn contains(&self, task: usize) -> bool {
        self.0.get(task).copied() == Some(true)
    }
}

/// Tasks that poll futures. One more waker of each is kept here, so that it can be woken to poll.
#[derive(Drop)]
pub struct Tasks {
    queue: Queue,
    source: Source,
    wakers: [Option<Waker>; COUNT],
}

impl Tasks {
    /// None if memory or random numbers are missing.
    pub fn new<R: Wait + RandomSource + AllocGlobal>(rt: &R) -> Option<Self> {
        let mut tasks = Tasks {
            queue: Queue::new(rt, Doorbell::spinning()).ok()?,
            source: Source::new(),
            wakers: [None, None, None, None, None, None],
        };
        if tasks.fill(rt) { Some(tasks) } else { None }
    }

    // Makes all tasks, each of which rests.
    fn fill<R: Wait>(&mut self, rt: &R) -> bool {
        for number in 0..COUNT {
            match self.queue.add() {
                Ok(vacancy) => vacancy.schedule(),
                Err(_) => return false,
            }
            if self.rest(rt) != Some(number) {
                return false;
            }
        }
        true
    }

    /// Polls a future by the task of this number. No other task is queued.
    pub fn poll<R: Wait, F: Future>(
        &mut self,
        rt: &R,
        task: usize,
        future: &mut F,
    ) -> Option<Poll<F::Output>>
        requires { F.can_poll future.old }
    {
        let waker = self.wakers.get_mut(task)?;
        *waker = None;
        let mut cx = self.queue.next(rt)?;
        let polled = future.poll(&mut cx);
        let _: Poll<()> = cx.register(&self.source, waker);
        cx.park();
        Some(polled)
    }

    /// Whether those with these wakers were woken, in this order, and no others but these own
    /// tasks.
    pub fn are_woken<R: Wait>(&mut self, rt: &R, own: TaskSet, wanted: &[u64]) -> bool {
        self.mark();
        for waker in wanted {
            if self.next_woken(rt, own) != Some(*waker) {
                return false;
            }
        }
        self.next_woken(rt, own).is_none()
    }

    /// Leaves nobody woken.
    pub fn forget_woken<R: Wait>(&mut self, rt: &R) {
        self.mark();
        for _ in 0..COUNT {
            if self.rest(rt) == Some(0) {
                return;
            }
        }
    }

    // Queues the mark behind those that were woken.
    fn mark(&mut self) {
        let [mark, ..] = &mut self.wakers;
        *mark = None;
    }

    // The waker of the task that was woken next, but for these. None once the mark is reached.
    fn next_woken<R: Wait>(&mut self, rt: &R, but: TaskSet) -> Option<u64> {
        for _ in 0..COUNT {
            let task = self.rest(rt)?;
            if task == 0 {
                return None;
            }
            if !but.contains(task) {
                return Some(task as u64);
            }
        }
        None
    }

    // Ends the turn of the task that is queued next.
    fn rest<R: Wait>(&mut self, rt: &R) -> Option<usize> {
        let mut cx = self.queue.next(rt)?;
        let task = cx.task();
        match self.wakers.get_mut(task) {
            Some(waker) => {
                let _: Poll<()> = cx.register(&self.source, waker);
                cx.park();
                Some(task)
            }
            None => {
                cx.cancel();
                None
            }
        }
    }
}
