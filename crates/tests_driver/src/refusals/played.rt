//! A scene played on what threads share: its call may be refused memory there, and is held against the plain state.
use super::scene::{Plain, STEP, STEPS, Tried, tries_of};
use crate::tasks::Tasks;
use crate::{Flavour, Line, Opened, Play, Played, agrees, take_wakers};
use fi_run::{Answer, Primitive};
use std::alloc::AllocGlobal;
use std::random::RandomSource;
use std::sync::Wait;
use tests_help::hoard::Hoard;

/// Plays a scene, its call with so many bytes left.
#[derive(Drop)]
struct Starved<'a, P: Primitive> {
    scene: &'a Plain<'a, P>,
    // What the call is answered if it is refused.
    refusal: &'a Answer<u64, u64>,
    state: &'a mut P,
    hoard: &'a mut Hoard,
    left: usize,
    is_used_up: bool,
    is_refused: bool,
}

impl<R, C: Copy, P> Play<R, C> for Starved<'_, P>
where
    R: Wait + AllocGlobal,
    P: Primitive<Call = C, Answer = Answer<u64, u64>>,
{
    fn play<O: Opened<R, C>>(&mut self, rt: &R, tasks: &mut Tasks, opened: &mut O) -> Played {
        let scene = self.scene;
        if !agree(rt, tasks, opened, self.state, scene.before) {
            return Played::DiffersAt(0);
        }
        self.is_used_up = self.hoard.leave(self.left);
        let seen = opened.apply(rt, tasks, scene.call);
        self.hoard.let_go();
        self.is_refused = seen.is_answer(*self.refusal);
        let is_right = if self.is_refused {
            seen.agrees(rt, tasks, *self.refusal, &[])
                && agree_at(rt, tasks, opened, self.state, scene.call)
        } else {
            let answer = self.state.apply(scene.call);
            match take_wakers(rt, self.state) {
                Ok(woken) => seen.agrees(rt, tasks, answer, woken.as_slice()),
                Err(_) => false,
            }
        };
        if is_right && agree(rt, tasks, opened, self.state, scene.after) {
            Played::AsListed
        } else {
            Played::DiffersAt(scene.before.len())
        }
    }
}

// Whether the type answers this call, and wakes, as the plain state does.
fn agree_at<R, C: Copy, P, O>(
    rt: &R,
    tasks: &mut Tasks,
    opened: &mut O,
    state: &mut P,
    call: C,
) -> bool
where
    R: Wait + AllocGlobal,
    P: Primitive<Call = C, Answer = Answer<u64, u64>>,
    O: Opened<R, C>,
{
    let answer = state.apply(call);
    let Ok(woken) = take_wakers(rt, state) else {
        return false;
    };
    let woken = woken.as_slice();
    agrees(
        rt,
        tasks,
        opened,
        Line {
            call,
            answer,
            woken,
        },
    )
}

// Whether it does so at each of these calls.
fn agree<R, C: Copy, P, O>(
    rt: &R,
    tasks: &mut Tasks,
    opened: &mut O,
    state: &mut P,
    calls: &[C],
) -> bool
where
    R: Wait + AllocGlobal,
    P: Primitive<Call = C, Answer = Answer<u64, u64>>,
    O: Opened<R, C>,
{
    for call in calls {
        if !agree_at(rt, tasks, opened, state, *call) {
            return false;
        }
    }
    true
}

// What tries of the scene's call on this type come to, with ever more memory left: each try is refused and changes nothing, until
// one is not.
fn tries_on<R, P, F>(rt: &R, hoard: &mut Hoard, flavour: &F, scene: &Plain<P>) -> Tried
where
    R: Wait + RandomSource + AllocGlobal,
    P: Primitive<Answer = Answer<u64, u64>> + Drop,
    P::Opening: Copy,
    P::Call: Copy,
    F: Flavour<R, Call = P::Call>,
{
    let Some(refusal) = scene.refusal.answer(rt.alloc()) else {
        return Tried::Differs(0);
    };
    let Some(mut tasks) = Tasks::new(rt) else {
        return Tried::Differs(0);
    };
    let mut refusals = 0u64;
    for step in 0..STEPS {
        let Ok(mut state) = P::open(rt.alloc(), scene.opening) else {
            return Tried::Differs(refusals);
        };
        let mut starved = Starved {
            scene: &*scene,
            refusal: &refusal,
            state: &mut state,
            hoard: &mut *hoard,
            left: STEP * step,
            is_used_up: false,
            is_refused: false,
        };
        let played = flavour.play(rt, &mut tasks, &mut starved);
        let (is_used_up, is_refused) = (starved.is_used_up, starved.is_refused);
        tasks.forget_woken(rt);
        if played != Played::AsListed {
            return Tried::Differs(refusals);
        }
        if !is_used_up {
            return Tried::unused(hoard, refusals);
        }
        if !is_refused {
            return Tried::Refused(refusals);
        }
        refusals = refusals.wrapping_add(1);
    }
    Tried::Differs(refusals)
}

/// What tries of the scene's call on the plain state, and then on this type, come to.
pub fn tries_on_both<R, P, F>(rt: &R, hoard: &mut Hoard, flavour: &F, scene: &Plain<P>) -> Tried
where
    R: Wait + RandomSource + AllocGlobal,
    P: Primitive<Answer = Answer<u64, u64>> + Drop,
    P::Opening: Copy,
    P::Call: Copy,
    F: Flavour<R, Call = P::Call>,
{
    let tried = tries_of(rt.alloc(), hoard, scene);
    tried.and(tries_on(rt, hoard, flavour, scene))
}
