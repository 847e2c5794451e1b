//! Lists of calls on what threads share. A flavour makes the calls of its plain state, on futures that tasks of their own poll, and each
//! call is held against a line: what it is answered, and whom it wakes. Nothing here ends the process: what can't go on is lost, and
//! agrees with no line.
//!
//! A drop stands for a cancel, and has no answer.
#![tactic(auto)]

use fi_run::{Answer, Primitive};
use std::alloc::{AllocError, AllocGlobal};
use std::sync::Wait;

pub mod answers;
pub mod channel;
pub mod drawn;
pub mod entries;
pub mod event;
pub mod mutex;
pub mod one_value;
pub mod owned;
pub mod pollable;
pub mod refusals;
pub mod semaphore;
pub mod state;
pub mod tasks;
pub mod timer;
pub mod worked;

use answers::IntoAnswer;
use tasks::{TaskSet, Tasks};

/// A call, its answer, and the wakers of those whom it wakes, in their order. The waker `n` is that of the task `n`.
#[derive(Clone, Copy)]
pub struct Line<'a, C> {
    pub call: C,
    pub answer: Answer<u64, u64>,
    pub woken: &'a [u64],
}

/// What is seen of a call.
#[derive(Drop)]
pub enum Seen {
    /// It was answered so. The tasks are those that polled the future that has ended: the wakers that it lets go wake them, whomever the
    /// call wakes.
    Answered(Answer<u64, u64>, TaskSet),
    /// A future that these tasks polled was dropped.
    Dropped(TaskSet),
    /// Memory or a future was missing.
    Lost,
}

impl Seen {
    pub fn answered(answer: Answer<u64, u64>) -> Self {
        Seen::Answered(answer, TaskSet::new())
    }

    /// Of a call at once that gives this.
    pub fn given<A: IntoAnswer>(given: A) -> Self {
        Seen::answered(given.into_answer())
    }

    /// Of a poll of a future that these tasks have polled.
    pub fn polled(own: TaskSet, answer: Answer<u64, u64>) -> Self {
        if answer == Answer::Pending {
            return Seen::answered(answer);
        }
        Seen::Answered(answer, own)
    }

    pub fn is_answer(&self, answer: Answer<u64, u64>) -> bool {
        match self {
            Seen::Answered(seen, _) => *seen == answer,
            Seen::Dropped(_) => true,
            Seen::Lost => false,
        }
    }

    fn own(&self) -> TaskSet {
        match self {
            Seen::Answered(_, own) => *own,
            Seen::Dropped(own) => *own,
            Seen::Lost => TaskSet::new(),
        }
    }

    /// Whether this is the answer, and those with these wakers were woken.
    pub fn agrees<R: Wait>(
        &self,
        rt: &R,
        tasks: &mut Tasks,
        answer: Answer<u64, u64>,
        woken: &[u64],
    ) -> bool {
        self.is_answer(answer) && tasks.are_woken(rt, self.own(), woken)
    }
}

/// A primitive that threads share, with its futures.
pub trait Opened<R, C> {
    /// The call that this one is on the plain state.
    fn meant(&self, call: C) -> C {
        call
    }

    /// Whether it has no such call.
    fn lacks(&self, _call: &C) -> bool {
        false
    }

    /// Makes the call that does what this one does to the plain state. Futures have the numbers in which they were made as slots.
    fn apply(&mut self, rt: &R, tasks: &mut Tasks, call: C) -> Seen;
}

/// Whether the line's call is answered as it says, and wakes whom it says.
pub fn agrees<R: Wait, C: Copy, O: Opened<R, C>>(
    rt: &R,
    tasks: &mut Tasks,
    opened: &mut O,
    line: Line<C>,
) -> bool {
    let seen = opened.apply(rt, tasks, line.call);
    seen.agrees(rt, tasks, line.answer, line.woken)
}

/// Takes out the wakers that a plain state has to hand out, of which there are at most four.
pub fn take_wakers<R: AllocGlobal, P: Primitive<Answer = Answer<u64, u64>>>(
    rt: &R,
    state: &mut P,
) -> Result<Vec<u64>, AllocError> {
    let mut wakers = Vec::new(rt.alloc());
    for _ in 0..5u64 {
        match state.apply(P::next_wake_call()) {
            Answer::Woken(Some(waker)) => wakers.push(waker)?,
            _ => return Ok(wakers),
        }
    }
    Ok(wakers)
}

/// How a list of calls went.
#[derive(Clone, Copy, Debug, PartialEq, Eq)]
pub enum Played {
    /// All agreed.
    AsListed,
    /// The first call that did not agree, counted from 0.
    DiffersAt(usize),
    /// The list has a call that the type lacks.
    LeftOut,
    /// Memory is missing: the type could not be opened.
    NoMemory,
}

impl Played {
    /// The first of both that did not go as listed; the second, if the first did.
    pub fn and(self, other: Self) -> Self {
        if self == Played::AsListed {
            other
        } else {
            self
        }
    }
}

/// A list of calls.
pub trait Play<R, C> {
    /// Makes the calls on what was opened, up to the first that does not agree.
    fn play<O: Opened<R, C>>(&mut self, rt: &R, tasks: &mut Tasks, opened: &mut O) -> Played;
}

/// A type that threads share, which is opened anew for each list.
pub trait Flavour<R> {
    type Call: Copy;

    /// Opens the type, and plays the list on it.
    fn play<P: Play<R, Self::Call>>(&self, rt: &R, tasks: &mut Tasks, list: &mut P) -> Played;
}
