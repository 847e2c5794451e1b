//! The futures of a primitive, and the tasks that polled them.

use crate::Seen;
use crate::answers::{IntoAnswer, of_poll};
use crate::pollable::{Pollable, Withdraw};
use crate::tasks::{TaskSet, Tasks};
use fi_parts::{Fault, NoRoom, Slot};
use fi_run::Answer;
use futures::task::Poll;
use futures::{Stream, StreamExt};
use std::alloc::AllocGlobal;
use std::sync::Wait;

/// So many futures are kept without a request for memory.
pub const ROOM: usize = 8;

/// A future, until it is dropped, and the tasks that have polled it.
#[derive(Drop)]
struct Owned<F: Drop> {
    future: Option<F>,
    tasks: TaskSet,
}

/// Futures, by the numbers in which they were made.
#[derive(Drop)]
pub struct Futures<F: Drop> {
    owned: Vec<Owned<F>>,
}

impl<F: Drop> Futures<F> {
    /// None if memory is missing.
    pub fn new<R: AllocGlobal>(rt: &R) -> Option<Self> {
        Some(Futures {
            owned: Vec::with_capacity(rt.alloc(), ROOM).ok()?,
        })
    }

    pub fn is_empty(&self) -> bool {
        self.owned.is_empty()
    }

    /// The future that was made last, unless it was dropped.
    pub fn last(&self) -> Option<&F> {
        self.owned.last()?.future.as_ref()
    }

    /// Keeps a future, if it was made.
    pub fn keep(&mut self, made: Result<F, Fault>) -> Seen {
        match made {
            Ok(future) => self.keep_made(future),
            Err(fault) => Seen::answered(Answer::Refused(fault)),
        }
    }

    /// Keeps a send, if it was made.
    pub fn keep_send(&mut self, made: Result<F, NoRoom<u64>>) -> Seen {
        match made {
            Ok(send) => self.keep_made(send),
            Err(failed) => Seen::answered(Answer::Back(failed.0, Fault::from(failed))),
        }
    }

    fn keep_made(&mut self, future: F) -> Seen {
        let slot = Slot(self.owned.len());
        let owned = Owned {
            future: Some(future),
            tasks: TaskSet::new(),
        };
        match self.owned.push(owned) {
            Ok(()) => Seen::answered(Answer::Made(slot)),
            Err(_) => Seen::Lost,
        }
    }

    /// Drops the future of this number.
    pub fn let_go(&mut self, number: usize) -> Seen {
        let Some(owned) = self.owned.get_mut(number) else {
            return Seen::Lost;
        };
        owned.future = None;
        Seen::Dropped(owned.tasks)
    }

    /// What is seen of a poll of the future of this number that is answered so.
    pub fn seen(&self, number: usize, answer: Answer<u64, u64>) -> Seen {
        match self.owned.get(number) {
            Some(owned) => Seen::polled(owned.tasks, answer),
            None => Seen::Lost,
        }
    }

    // The future of this number, which this task polls.
    fn polled_by(&mut self, number: usize, task: usize) -> Option<&mut F> {
        let owned = self.owned.get_mut(number)?;
        owned.tasks.insert(task);
        owned.future.as_mut()
    }
}

impl<F: Withdraw> Futures<F> {
    /// Cancels the send of this number, and drops it. What is seen is the value that it gives back, or that it gives none.
    pub fn cancel(&mut self, number: usize) -> Seen {
        let Some(owned) = self.owned.get_mut(number) else {
            return Seen::Lost;
        };
        let Some(mut send) = owned.future.take() else {
            return Seen::Dropped(owned.tasks);
        };
        let answer = match send.withdraw() {
            Some(value) => Answer::Item(value),
            None => Answer::Nothing,
        };
        Seen::Answered(answer, owned.tasks)
    }
}

impl<F: Pollable> Futures<F> {
    /// Polls the future of this number by the task with this waker. None if it can't be polled any more.
    pub fn try_poll<R: Wait>(
        &mut self,
        rt: &R,
        tasks: &mut Tasks,
        number: usize,
        waker: u64,
    ) -> Option<Poll<F::Output>> {
        let task = waker as usize;
        let future = self.polled_by(number, task)?;
        tasks.poll(rt, task, future)
    }
}

impl<F: Pollable> Futures<F>
where
    F::Output: IntoAnswer,
{
    /// What is seen of a poll of the future of this number by the task with this waker.
    pub fn poll<R: Wait>(&mut self, rt: &R, tasks: &mut Tasks, number: usize, waker: u64) -> Seen {
        match self.try_poll(rt, tasks, number, waker) {
            Some(polled) => self.seen(number, of_poll(polled)),
            None => Seen::Lost,
        }
    }
}

impl<S: Stream> Futures<S>
where
    Option<S::Item>: IntoAnswer,
{
    /// What is seen of a poll of the stream of this number by the task with this waker.
    pub fn poll_next<R: Wait>(
        &mut self,
        rt: &R,
        tasks: &mut Tasks,
        number: usize,
        waker: u64,
    ) -> Seen
        requires { (any : S) → S.can_poll any }
    {
        let task = waker as usize;
        let Some(stream) = self.polled_by(number, task) else {
            return Seen::Lost;
        };
        match tasks.poll(rt, task, &mut stream.next()) {
            Some(polled) => self.seen(number, of_poll(polled)),
            None => Seen::Lost,
        }
    }
}
