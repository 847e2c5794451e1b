//! Drawn lists of calls on what threads share: each call is answered as the plain state of the primitive answers it, and wakes those
//! whose wakers the plain state hands out, in the same order. (The plain states are held against references of their own in `tests_drawn`.)
//!
//! Left out are lists with a call on a future that was dropped, with a poll of one that has ended, and with an unlock or a give-back
//! where nothing is held.

use crate::tasks::Tasks;
use crate::{Flavour, Line, Opened, Play, Played, agrees, take_wakers};
use fi_parts::Fault;
use fi_run::{Answer, Primitive};
use fi_scripts::Scripted;
use std::alloc::{AllocGlobal, Global};
use std::random::RandomSource;
use std::sync::Wait;
use tests_rows::calls::Reader;

/// Draws numbers: the same ones in each run.
#[derive(Clone, Copy, Drop)]
pub struct Draws(pub u64);

impl Draws {
    pub fn next(&mut self) -> u64 {
        self.0 = self
            .0
            .wrapping_mul(6_364_136_223_846_793_005)
            .wrapping_add(1_442_695_040_888_963_407);
        self.0 >> 33
    }

    /// One of these.
    pub fn choose<C: Copy>(&mut self, choices: &[C]) -> Option<C> {
        let drawn = self.next().checked_rem(choices.len() as u64)?;
        choices.get(drawn as usize).copied()
    }
}

/// What lists are drawn from, as lines apart by `; `: the makings of four futures, which begin each list, and what each call after them
/// is one of.
#[derive(Clone, Copy)]
pub struct Lines {
    pub makings: &'static str,
    pub choices: &'static str,
}

// The calls on two sends, and on two receives or streams.
const ON_CHANNEL: &str =
    "poll a 1; poll b 2; poll c 3; poll d 4; cancel a; cancel b; cancel c; cancel d; try-send 5; try-receive; close";

/// Two sends and two receives of a channel.
pub const RECEIVES: Lines = Lines {
    makings: "send a 1; send b 2; receive c; receive d",
    choices: ON_CHANNEL,
};

/// Two sends and two streams of a channel.
pub const STREAMS: Lines = Lines {
    makings: "send a 1; send b 2; stream c; stream d",
    choices: ON_CHANNEL,
};

/// The calls of these lines.
#[derive(Drop)]
struct Calls<C> {
    makings: Vec<C>,
    choices: Vec<C>,
}

// The calls of these lines. None if one is bad, or memory is missing.
fn calls_of<P: Scripted>(alloc: Global, opening: P::Opening, lines: Lines) -> Option<Calls<P::Call>>
where
    P::Call: Copy,
{
    let mut reader = Reader::<P>::open(alloc, opening)?;
    Some(Calls {
        makings: reader.calls(lines.makings)?,
        choices: reader.choices(lines.choices)?,
    })
}

impl<C: Copy> Calls<C> {
    // The call at this place of a list.
    fn at(&self, place: usize, draws: &mut Draws) -> Option<C> {
        match self.makings.get(place) {
            Some(making) => Some(*making),
            None => draws.choose(self.choices.as_slice()),
        }
    }
}

/// Plays a drawn list on a type, and on the plain state.
#[derive(Drop)]
struct Drawn<'a, P, C> {
    state: &'a mut P,
    calls: &'a Calls<C>,
    draws: Draws,
    // How many calls are drawn.
    count: usize,
}

impl<R, C: Copy, P> Play<R, C> for Drawn<'_, P, C>
where
    R: Wait + AllocGlobal,
    P: Primitive<Call = C, Answer = Answer<u64, u64>>,
{
    fn play<O: Opened<R, C>>(&mut self, rt: &R, tasks: &mut Tasks, opened: &mut O) -> Played {
        let end = self.calls.makings.len().saturating_add(self.count);
        for place in 0..end {
            let Some(call) = self.calls.at(place, &mut self.draws) else {
                return Played::DiffersAt(place);
            };
            let call = opened.meant(call);
            let answer = self.state.apply(call);
            if is_left_out(&answer) {
                return Played::LeftOut;
            }
            let Ok(woken) = take_wakers(rt, self.state) else {
                return Played::NoMemory;
            };
            let woken = woken.as_slice();
            if !agrees(
                rt,
                tasks,
                opened,
                Line {
                    call,
                    answer,
                    woken,
                },
            ) {
                return Played::DiffersAt(place);
            }
        }
        Played::AsListed
    }
}

/// Whether a list with a call that is answered so is left out.
pub fn is_left_out(answer: &Answer<u64, u64>) -> bool {
    matches!(
        answer,
        Answer::Refused(Fault::NoSlot | Fault::NotHeld) | Answer::Back(_, Fault::NotHeld)
    )
}

/// How drawn lists went.
#[derive(Clone, Copy, Debug, PartialEq, Eq)]
pub enum Lists {
    /// Both did the same at each call of so many lists. The others were left out.
    Agree(u64),
    /// The list of this number differs at this call.
    DifferAt(u64, usize),
    /// Memory is missing.
    NoMemory,
}

impl Lists {
    /// Whether they agree, and a hundred lists were not left out.
    pub fn are_right(self) -> bool {
        match self {
            Lists::Agree(tried) => tried >= 100,
            _ => false,
        }
    }

    /// The first of both that is not right; the second, if both are.
    pub fn and(self, other: Self) -> Self {
        if self.are_right() { other } else { self }
    }
}

// Plays the list that is drawn next, of so many calls, on a type and on the plain state.
fn play_list<R, P, F>(
    rt: &R,
    tasks: &mut Tasks,
    flavour: &F,
    opening: P::Opening,
    calls: &Calls<P::Call>,
    draws: Draws,
    count: usize,
) -> Played
where
    R: Wait + AllocGlobal,
    P: Primitive<Answer = Answer<u64, u64>> + Drop,
    P::Call: Copy,
    F: Flavour<R, Call = P::Call>,
{
    let Ok(mut state) = P::open(rt.alloc(), opening) else {
        return Played::NoMemory;
    };
    let mut drawn = Drawn {
        state: &mut state,
        calls,
        draws,
        count,
    };
    flavour.play(rt, tasks, &mut drawn)
}

/// Draws two thousand lists of so many calls of these lines, and plays each on a type and on the plain state.
pub fn play_lines<R, P, F>(
    rt: &R,
    flavour: &F,
    opening: P::Opening,
    lines: Lines,
    count: usize,
) -> Lists
where
    R: Wait + RandomSource + AllocGlobal,
    P: Scripted,
    P::Opening: Copy,
    P::Call: Copy,
    F: Flavour<R, Call = P::Call>,
{
    let Some(calls) = calls_of::<P>(rt.alloc(), opening, lines) else {
        return Lists::NoMemory;
    };
    let Some(mut tasks) = Tasks::new(rt) else {
        return Lists::NoMemory;
    };
    let mut draws = Draws(1);
    let mut tried = 0u64;
    for number in 0..2_000u64 {
        match play_list::<R, P, F>(rt, &mut tasks, flavour, opening, &calls, draws, count) {
            Played::AsListed => tried = tried.wrapping_add(1),
            Played::DiffersAt(place) => return Lists::DifferAt(number, place),
            Played::LeftOut => (),
            Played::NoMemory => return Lists::NoMemory,
        }
        tasks.forget_woken(rt);
        for _ in 0..count {
            draws.next();
        }
    }
    Lists::Agree(tried)
}
