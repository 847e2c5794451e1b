//! Drawn lists of calls: each primitive answers them as a plain reference of its machine does, wakes the same wakers in the same order,
//! and owes no wake. The references hold no lists: who is queued since when, and named since when, stands in arrays.
use fi_run::Primitive;
use fi_scripts::Scripted;
use std::alloc::Global;
use std::test::Fail;
use tests_rows::calls::Reader;

/// What a primitive is held against: the same calls, answered as plainly as can be.
pub(crate) trait Reference<P: Primitive> {
    fn answer(&mut self, call: P::Call) -> P::Answer;

    fn owes_no_wake(&self) -> bool;
}

/// What a list's calls are drawn from, as lines apart by `; `: a poll of each of four futures, a cancel of each, and the calls without
/// futures. The futures `a` to `d` are made first.
#[derive(Clone, Copy)]
pub(crate) struct Lines {
    pub(crate) makings: &'static str,
    pub(crate) polls: &'static str,
    pub(crate) others: &'static str,
}

/// Each future is polled by a task of its own.
pub(crate) const POLLS: &str = "poll a 1; poll b 2; poll c 3; poll d 4";

const CANCELS: &str = "cancel a; cancel b; cancel c; cancel d";

/// The calls of the lines.
#[derive(Drop)]
struct Case<C> {
    makings: Vec<C>,
    polls: Vec<C>,
    cancels: Vec<C>,
    others: Vec<C>,
}

// The calls of these lines. None if one is bad, or memory is missing.
fn case_of<P: Scripted>(alloc: Global, opening: P::Opening, lines: Lines) -> Option<Case<P::Call>>
where
    P::Call: Copy,
{
    let mut reader = Reader::<P>::open(alloc, opening)?;
    Some(Case {
        makings: reader.calls(lines.makings)?,
        polls: reader.choices(lines.polls)?,
        cancels: reader.choices(CANCELS)?,
        others: reader.choices(lines.others)?,
    })
}

impl<C: Copy> Case<C> {
    // The call that this number stands for.
    fn choice(&self, number: u64) -> Option<C> {
        let count = 8u64.wrapping_add(self.others.len() as u64);
        let place = number.checked_rem(count)? as usize;
        let chosen = match place {
            0..=3 => self.polls.get(place),
            4..=7 => self.cancels.get(place - 4),
            _ => self.others.get(place - 8),
        };
        chosen.copied()
    }
}

/// Draws numbers: the same ones in each run.
#[derive(Clone, Copy, Drop)]
struct Draws(u64);

impl Draws {
    fn next(&mut self) -> u64 {
        self.0 = self
            .0
            .wrapping_mul(6_364_136_223_846_793_005)
            .wrapping_add(1_442_695_040_888_963_407);
        self.0 >> 33
    }
}

/// A primitive and its reference.
#[derive(Drop)]
struct Pair<P: Drop, R: Drop> {
    primitive: P,
    reference: R,
}

impl<P: Primitive + Drop, R: Reference<P> + Drop> Pair<P, R>
where
    P::Call: Copy,
    P::Answer: PartialEq,
{
    // Whether both answer the call alike, and no wake is owed then.
    fn agrees(&mut self, call: P::Call) -> bool {
        let answer = self.primitive.apply(call);
        answer == self.reference.answer(call) && self.reference.owes_no_wake()
    }

    fn agrees_on(&mut self, calls: &[P::Call]) -> bool {
        for call in calls {
            if !self.agrees(*call) {
                return false;
            }
        }
        true
    }

    // The wakers that are to be woken: at most one for each future, and then none.
    fn agrees_on_wakers(&mut self) -> bool {
        for _ in 0..5u64 {
            if !self.agrees(P::next_wake_call()) {
                return false;
            }
        }
        true
    }

    // So many drawn calls, and then the wakers. Once all futures are cancelled, nobody is woken or may be polled.
    fn agrees_on_drawn(&mut self, case: &Case<P::Call>, draws: &mut Draws, count: u64) -> bool {
        if !self.agrees_on(case.makings.as_slice()) {
            return false;
        }
        for _ in 0..count {
            match case.choice(draws.next()) {
                Some(call) if self.agrees(call) => (),
                _ => return false,
            }
        }
        self.agrees_on_wakers()
            && self.agrees_on(case.cancels.as_slice())
            && self.agrees_on_wakers()
            && self.agrees_on(case.polls.as_slice())
    }
}

// Draws lists of eight calls. Each of a list's beginnings runs on a primitive made anew, so that what is to be woken is compared after
// each call.
pub(crate) fn agree<P: Scripted, R: Reference<P> + Copy + Drop>(
    alloc: Global,
    opening: P::Opening,
    reference: R,
    lines: Lines,
) -> Result<bool, Fail>
where
    P::Opening: Copy,
    P::Call: Copy,
{
    let case = case_of::<P>(alloc, opening, lines).ok_or("a line")?;
    let mut draws = Draws(1);
    for _ in 0..20_000u64 {
        let first = draws;
        for count in 0..9u64 {
            draws = first;
            let primitive = P::open(alloc, opening)?;
            let mut pair = Pair {
                primitive,
                reference,
            };
            if !pair.agrees_on_drawn(&case, &mut draws, count) {
                return Ok(false);
            }
        }
    }
    Ok(true)
}
