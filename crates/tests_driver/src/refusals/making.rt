//! A call that makes something, and may be refused memory.
use super::scene::{STEP, STEPS, Tried};
use tests_help::hoard::Hoard;

/// A call that makes something.
pub trait Making {
    /// Makes it and lets it go again. Answers whether it was refused, and what it was given came back.
    fn is_refused(&mut self) -> bool;
}

/// Makes it with ever more memory left, until it is not refused.
pub fn tries<M: Making>(hoard: &mut Hoard, making: &mut M) -> Tried {
    let mut refusals = 0u64;
    for step in 0..STEPS {
        let is_used_up = hoard.leave(STEP * step);
        let is_refused = making.is_refused();
        hoard.let_go();
        if !is_used_up {
            return Tried::unused(hoard, refusals);
        }
        if !is_refused {
            return Tried::Refused(refusals);
        }
        refusals = refusals.wrapping_add(1);
    }
    Tried::Differs(refusals)
}
