//! A call that may be refused memory, and how to come to it.
use fi_run::{Answer, Primitive};
use std::alloc::Global;
use tests_help::hoard::Hoard;
use tests_help::refusals::no_memory;

/// The step by which what is left grows: no block takes less.
pub const STEP: usize = 32;

/// So many steps are tried.
pub const STEPS: usize = 1000;

/// A call that may be refused memory, and how to come to it.
pub trait Scene {
    type P: Primitive + Drop;

    /// The primitive before the call.
    fn before(&self, alloc: Global) -> Option<Self::P>;

    /// The call.
    fn call(&self, alloc: Global) -> Option<<Self::P as Primitive>::Call>;

    /// What it is answered where it is refused memory.
    fn refusal(&self, alloc: Global) -> Option<<Self::P as Primitive>::Answer>;

    /// What is called afterwards, by which differences show.
    fn after(&self, alloc: Global) -> Option<Vec<<Self::P as Primitive>::Call>>;
}

/// What a call is answered that is refused memory.
#[derive(Clone, Copy, Drop)]
pub enum Refusal {
    Refused,
    /// Of a send: its value comes back.
    Back(u64),
}

impl Refusal {
    pub fn answer(self, alloc: Global) -> Option<Answer<u64, u64>> {
        let fault = no_memory(alloc)?;
        Some(match self {
            Refusal::Refused => Answer::Refused(fault),
            Refusal::Back(value) => Answer::Back(value, fault),
        })
    }
}

/// A scene whose calls are plain data.
#[derive(Drop)]
pub struct Plain<'a, P: Primitive> {
    pub opening: P::Opening,
    pub before: &'a [P::Call],
    pub call: P::Call,
    pub refusal: Refusal,
    pub after: &'a [P::Call],
}

impl<'a, P> Scene for Plain<'a, P>
where
    P: Primitive<Answer = Answer<u64, u64>> + Drop,
    P::Opening: Copy,
    P::Call: Copy,
{
    type P = P;

    fn before(&self, alloc: Global) -> Option<P> {
        let mut primitive = P::open(alloc, self.opening).ok()?;
        for call in self.before {
            primitive.apply(*call);
        }
        Some(primitive)
    }

    fn call(&self, _alloc: Global) -> Option<P::Call> {
        Some(self.call)
    }

    fn refusal(&self, alloc: Global) -> Option<Answer<u64, u64>> {
        self.refusal.answer(alloc)
    }

    fn after(&self, alloc: Global) -> Option<Vec<P::Call>> {
        Vec::from_slice(alloc, self.after).ok()
    }
}

/// What the tries of a call came to.
#[derive(Clone, Copy, PartialEq, Eq, Debug, Drop)]
pub enum Tried {
    /// So many tries were refused memory and changed nothing, and then one was not.
    Refused(u64),
    /// Memory has no end in this build, so nothing was tried.
    HasNoEnd,
    /// There was no memory to begin with, it was not used up though it has an end, or an answer was another one, so many refusals in.
    Differs(u64),
}

impl Tried {
    /// Of a try that found memory left, so many refusals in.
    pub fn unused(hoard: &Hoard, refusals: u64) -> Self {
        if hoard.has_end() {
            Tried::Differs(refusals)
        } else {
            Tried::HasNoEnd
        }
    }

    /// Whether at least so many tries were refused before one was not, or memory has no end here.
    pub fn is_right(self, least: u64) -> bool {
        match self {
            Tried::Refused(count) => least <= count,
            Tried::HasNoEnd => true,
            Tried::Differs(_) => false,
        }
    }

    /// The first of both that was not refused at least once; the second, if both were.
    pub fn and(self, other: Self) -> Self {
        if self.is_right(1) { other } else { self }
    }
}

/// How one try ended.
#[derive(Clone, Copy, PartialEq, Eq, Drop)]
pub enum Try {
    /// It was refused, and changed nothing.
    Refused,
    /// It was answered as one that is refused nothing.
    Answered,
    /// Memory was not used up.
    HasNoEnd,
    /// It was answered otherwise, or a refusal changed something.
    Differs,
}

/// What tries of the call come to, with ever more memory left: each try is refused and changes nothing, until one is not.
pub fn tries_of<S: Scene>(alloc: Global, hoard: &mut Hoard, scene: &S) -> Tried
where
    <S::P as Primitive>::Answer: PartialEq,
{
    let undrained = each_refusal(scene, alloc, hoard, false);
    let drained = each_refusal(scene, alloc, hoard, true);
    undrained.and(drained)
}

// Makes the call with ever more memory left, until it is not refused.
//
// After a refusal the same call is made again, and then what comes after it; a primitive that was refused nothing is held against it.
// With `drains` the outbox is emptied before the call is made again.
fn each_refusal<S: Scene>(scene: &S, alloc: Global, hoard: &mut Hoard, drains: bool) -> Tried
where
    <S::P as Primitive>::Answer: PartialEq,
{
    let mut refusals = 0u64;
    for step in 0..STEPS {
        match one_refusal(scene, alloc, hoard, drains, STEP * step) {
            Some(Try::Refused) => refusals = refusals.wrapping_add(1),
            Some(Try::Answered) => return Tried::Refused(refusals),
            Some(Try::HasNoEnd) => return Tried::unused(hoard, refusals),
            Some(Try::Differs) | None => return Tried::Differs(refusals),
        }
    }
    Tried::Differs(refusals)
}

// Makes the call with so many bytes left.
fn one_refusal<S: Scene>(
    scene: &S,
    alloc: Global,
    hoard: &mut Hoard,
    drains: bool,
    left: usize,
) -> Option<Try>
where
    <S::P as Primitive>::Answer: PartialEq,
{
    let mut primitive = scene.before(alloc)?;
    let mut unrefused = scene.before(alloc)?;
    let call = scene.call(alloc)?;
    let again = scene.call(alloc)?;
    let wanted = scene.call(alloc)?;
    let refusal = scene.refusal(alloc)?;
    let is_used_up = hoard.leave(left);
    let answer = primitive.apply(call);
    hoard.let_go();
    if !is_used_up {
        return Some(Try::HasNoEnd);
    }
    let is_refused = answer == refusal;
    if is_refused && drains && !agree_on_wakers(&mut primitive, &mut unrefused) {
        return Some(Try::Differs);
    }
    let answer = if is_refused {
        primitive.apply(again)
    } else {
        answer
    };
    let (after, same) = (scene.after(alloc)?, scene.after(alloc)?);
    let is_same = answer == unrefused.apply(wanted)
        && agree_on(&mut primitive, &mut unrefused, after, same)
        && agree_on_wakers(&mut primitive, &mut unrefused);
    Some(match (is_same, is_refused) {
        (false, _) => Try::Differs,
        (true, true) => Try::Refused,
        (true, false) => Try::Answered,
    })
}

// Whether both hand out the same waker next.
fn agree_on_waker<P: Primitive>(first: &mut P, second: &mut P) -> bool
where
    P::Answer: PartialEq,
{
    let one = first.apply(P::next_wake_call());
    let other = second.apply(P::next_wake_call());
    one == other
}

// Whether both hand out the same wakers.
fn agree_on_wakers<P: Primitive>(first: &mut P, second: &mut P) -> bool
where
    P::Answer: PartialEq,
{
    for _ in 0..8u64 {
        if !agree_on_waker(first, second) {
            return false;
        }
    }
    true
}

// Whether both answer these calls alike.
fn agree_on<P: Primitive>(
    first: &mut P,
    second: &mut P,
    calls: Vec<P::Call>,
    same: Vec<P::Call>,
) -> bool
where
    P::Answer: PartialEq,
{
    for (call, other) in calls.into_iter().zip(same) {
        if first.apply(call) != second.apply(other) {
            return false;
        }
    }
    true
}
