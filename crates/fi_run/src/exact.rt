//! Values that are equal only if they are identical.
ghost use Rattle.std.specs.Prelude.{◌≡◌, true};
ghost use Rattle.std.proofs.Common.{rules};

use crate::answer::Answer;
use crate::channel::ChannelCall;
use crate::event::EventCall;
use crate::mutex::MutexCall;
use crate::oneshot::OneshotCall;
use crate::semaphore::SemaphoreCall;
use crate::state::StateCall;
use crate::timer::TimerCall;
use fi_parts::{Fault, Slot, StateId};

/// Plain values whose `==` tells any two of them apart, so that a history can be compared with receipts.
///
/// # Examples
///
/// ```
/// use futures_intrusive::run::{Entry, ExactEq, Primitive, Receipt};
///
/// // Whether the receipt is of the call that this entry records.
/// fn is_of<P: Primitive>(entry: &Entry<P::Call, P::Answer>, receipt: &Receipt<P>) -> bool
/// where
///     P::Opening: ExactEq,
///     P::Call: ExactEq,
///     P::Answer: ExactEq,
/// {
///     entry.call == receipt.call() && entry.answer == receipt.answer()
/// }
/// ```
pub trait ExactEq: Copy + Eq + Drop {
    /// Equal values are identical.
    ghost exact: { (x y : Self) → Self.eq x y ≡ true → x ≡ y };
}

impl ExactEq for bool {
    ghost exact = { Prim.search rules };
}

impl ExactEq for u64 {
    ghost exact = { Prim.search rules };
}

impl ExactEq for usize {
    ghost exact = { Prim.search rules };
}

impl ExactEq for () {
    ghost exact = { Prim.search rules };
}

impl<A: ExactEq, B: ExactEq> ExactEq for (A, B) {
    ghost exact = { Prim.search rules };
}

impl<T: ExactEq> ExactEq for Option<T> {
    ghost exact = { Prim.search rules };
}

impl ExactEq for Slot {
    ghost exact = { Prim.search rules };
}

impl ExactEq for StateId {
    ghost exact = { Prim.search rules };
}

impl ExactEq for Fault {
    ghost exact = { Prim.search rules };
}

impl<T: ExactEq, W: ExactEq> ExactEq for Answer<T, W> {
    ghost exact = { Prim.search rules };
}

impl<T: ExactEq, W: ExactEq> ExactEq for ChannelCall<T, W> {
    ghost exact = { Prim.search rules };
}

impl<W: ExactEq> ExactEq for EventCall<W> {
    ghost exact = { Prim.search rules };
}

impl<T: ExactEq, W: ExactEq> ExactEq for MutexCall<T, W> {
    ghost exact = { Prim.search rules };
}

impl<T: ExactEq, W: ExactEq> ExactEq for OneshotCall<T, W> {
    ghost exact = { Prim.search rules };
}

impl<W: ExactEq> ExactEq for SemaphoreCall<W> {
    ghost exact = { Prim.search rules };
}

impl<T: ExactEq, W: ExactEq> ExactEq for StateCall<T, W> {
    ghost exact = { Prim.search rules };
}

impl<W: ExactEq> ExactEq for TimerCall<W> {
    ghost exact = { Prim.search rules };
}
