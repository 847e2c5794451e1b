//! Drawn lists of calls that two threads make in turn on what they share. Each has futures and tasks of its own, and after each call both
//! look which of their tasks are woken: those whose wakers the plain state hands out.

use fi_run::{Answer, Primitive};
use fi_scripts::Scripted;
use std::alloc::{AllocGlobal, Global};
use std::process::Abort;
use std::random::RandomSource;
use std::sync::{Barrier, Wait};
use std::thread;
use std::thread::Threads;
use tests_driver::drawn::{Draws, is_left_out};
use tests_driver::tasks::Tasks;
use tests_driver::{Opened, Seen, take_wakers};
use tests_rows::calls::Reader;

mod channel;
mod event;
mod mutex;
mod one_value;
mod semaphore;
mod state;
mod timer;

/// So many lists are tried that are not left out.
const LISTS: u64 = 200;

/// So many calls are drawn for each.
const CALLS: usize = 6;

/// The tasks of the first thread have the wakers up to this one, those of the second the others.
const LAST_OF_FIRST: u64 = 2;

/// A call of a thread that may be granted something, or give it back.
trait Holds: Copy {
    /// How much its thread holds once the call is answered so, if it held this much. None if it gives back what it does not hold.
    fn held_after(self, _answer: Answer<u64, u64>, held: u64) -> Option<u64> {
        Some(held)
    }
}

/// A call, its answer, and the wakers of the tasks of each thread that it wakes.
#[derive(Drop)]
struct Turn<C> {
    call: C,
    answer: Answer<u64, u64>,
    of_first: Vec<u64>,
    of_second: Vec<u64>,
}

/// What each thread makes to begin with, and the calls that they make in turn.
#[derive(Clone, Copy)]
struct List<'a, C> {
    makings: &'a [C],
    turns: &'a [Turn<C>],
}

/// What each thread makes to begin with, and what the calls of the first and of the second are drawn from: lines apart by `; `.
#[derive(Clone, Copy)]
struct Lines {
    makings: &'static str,
    first: &'static str,
    second: &'static str,
}

/// The calls of the lines.
#[derive(Drop)]
struct Choices<C> {
    makings: Vec<C>,
    first: Vec<C>,
    second: Vec<C>,
}

// The calls of these lines. None if one is bad, or memory is missing.
fn choices_of<P: Scripted>(
    alloc: Global,
    opening: P::Opening,
    lines: Lines,
) -> Option<Choices<P::Call>>
where
    P::Call: Copy,
{
    let mut reader = Reader::<P>::open(alloc, opening)?;
    Some(Choices {
        makings: reader.calls(lines.makings)?,
        first: reader.choices(lines.first)?,
        second: reader.choices(lines.second)?,
    })
}

impl<C: Copy> Choices<C> {
    // The call at this place of a list: the first thread begins.
    fn at(&self, place: usize, draws: &mut Draws) -> Option<C> {
        let calls = if place % 2 == 0 {
            &self.first
        } else {
            &self.second
        };
        draws.choose(calls.as_slice())
    }
}

// Draws a list, and asks the plain state for its answers. None if the list is left out, or memory is missing.
fn drawn_turns<R, P>(
    rt: &R,
    state: &mut P,
    choices: &Choices<P::Call>,
    draws: &mut Draws,
) -> Option<Vec<Turn<P::Call>>>
where
    R: AllocGlobal,
    P: Primitive<Answer = Answer<u64, u64>>,
    P::Call: Holds,
{
    for making in &choices.makings {
        state.apply(*making);
    }
    let mut turns = Vec::new(rt.alloc());
    let (mut held, mut held_by_other) = (0u64, 0u64);
    for place in 0..CALLS {
        let call = choices.at(place, draws)?;
        let answer = state.apply(call);
        if is_left_out(&answer) {
            return None;
        }
        held = call.held_after(answer, held)?;
        (held, held_by_other) = (held_by_other, held);
        let woken = take_wakers(rt, state).ok()?;
        let (of_first, of_second) = split(rt, woken.as_slice())?;
        let turn = Turn {
            call,
            answer,
            of_first,
            of_second,
        };
        turns.push(turn).ok()?;
    }
    Some(turns)
}

// The wakers of the first thread's tasks, and those of the second's.
fn split<R: AllocGlobal>(rt: &R, wakers: &[u64]) -> Option<(Vec<u64>, Vec<u64>)> {
    let mut of_first = Vec::new(rt.alloc());
    let mut of_second = Vec::new(rt.alloc());
    for waker in wakers {
        let woken = if *waker <= LAST_OF_FIRST {
            &mut of_first
        } else {
            &mut of_second
        };
        woken.push(*waker).ok()?;
    }
    Some((of_first, of_second))
}

// Makes those calls of the list that are this thread's. Answers whether each is answered as it should be, and this thread's tasks are
// woken as they should be after each call of both.
fn plays<R, C, O>(
    rt: &R,
    barrier: &Barrier,
    opened: Option<O>,
    is_first: bool,
    list: List<C>,
) -> bool
where
    R: Wait + Abort + RandomSource + AllocGlobal,
    C: Copy,
    O: Opened<R, C> + Drop,
{
    let mut opened = opened.expect(rt, "memory");
    let mut tasks = Tasks::new(rt).expect(rt, "memory");
    for making in list.makings {
        opened.apply(rt, &mut tasks, *making);
    }
    let mut is_right = true;
    let mut is_own = is_first;
    for turn in list.turns {
        let seen = if is_own {
            opened.apply(rt, &mut tasks, turn.call)
        } else {
            Seen::answered(turn.answer)
        };
        barrier.wait(rt);
        let woken = if is_first {
            &turn.of_first
        } else {
            &turn.of_second
        };
        if !seen.agrees(rt, &mut tasks, turn.answer, woken.as_slice()) {
            is_right = false;
        }
        barrier.wait(rt);
        is_own = !is_own;
    }
    is_right
}

// Draws a list that is not left out. None if all are, or memory is missing.
fn next_turns<R, P>(
    rt: &R,
    opening: P::Opening,
    choices: &Choices<P::Call>,
    draws: &mut Draws,
) -> Option<Vec<Turn<P::Call>>>
where
    R: AllocGlobal,
    P: Primitive<Answer = Answer<u64, u64>> + Drop,
    P::Opening: Copy,
    P::Call: Holds,
{
    for _ in 0..1000u64 {
        let mut state = P::open(rt.alloc(), opening).ok()?;
        let turns = drawn_turns(rt, &mut state, choices, draws);
        if turns.is_some() {
            return turns;
        }
    }
    None
}

/// What two threads share.
trait TakesTurns<R> {
    type Call: Copy;

    /// Makes those calls of the list that are this thread's, on futures of its own, and answers what `plays` does.
    fn take_turns(&self, rt: &R, barrier: &Barrier, is_first: bool, list: List<Self::Call>) -> bool;
}

// Plays a list on what two threads share.
fn play_at<R, T>(rt: &R, shared: &T, list: List<T::Call>) -> bool
where
    R: Wait + Threads + Send + Sync,
    T: TakesTurns<R> + Send + Sync,
    T::Call: Send + Sync,
{
    let barrier = &Barrier::new(2);
    let (first, second) = thread::join(
        rt,
        move || shared.take_turns(rt, barrier, true, list),
        move || shared.take_turns(rt, barrier, false, list),
    );
    first && second
}

/// What is shared, if nothing but a runtime is needed to open it.
trait Opens<R>: TakesTurns<R> + Drop {
    /// None if memory is missing.
    fn open(rt: &R) -> Option<Self>;
}

// Two hundred lists, each on what is opened anew. Answers how many went right, one after another.
fn tried_turns<R, P, T>(rt: &R, opening: P::Opening, lines: Lines) -> u64
where
    R: Wait + Threads + AllocGlobal + Send + Sync,
    P: Scripted,
    P::Opening: Copy,
    P::Call: Holds + Send + Sync,
    T: Opens<R, Call = P::Call> + Send + Sync,
{
    let Some(choices) = choices_of::<P>(rt.alloc(), opening, lines) else {
        return 0;
    };
    let mut draws = Draws(1);
    for number in 0..LISTS {
        let Some(turns) = next_turns::<R, P>(rt, opening, &choices, &mut draws) else {
            return number;
        };
        let list = List {
            makings: choices.makings.as_slice(),
            turns: turns.as_slice(),
        };
        let Some(shared) = T::open(rt) else {
            return number;
        };
        if !play_at(rt, &shared, list) {
            return number;
        }
    }
    LISTS
}
