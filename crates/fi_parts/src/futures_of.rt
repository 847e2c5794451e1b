//! The futures of one kind, as a state has them: they are polled and cancelled by slot.
ghost use Rattle.std.specs.Prelude.{◌≡◌, ℕ, Bool, true, false, IfSome, IfNone};
ghost use Rattle.futures.specs.Poll.{OnPending};
ghost use Rattle.futures.specs.declared.task.Poll.{Poll};

use crate::errors::Slot;
use futures::task::Poll;

/// A kind of future.
pub trait FutureKind {
    /// The name that `Debug` shows.
    fn name() -> &'static str;
}

/// The futures of this kind that a state `S` has. They are polled and cancelled by slot, so that one `LocalFuture` serves all kinds.
///
/// No call asks its caller for anything: a poll changes nothing where no future lives under the slot that has not ended, a cancel
/// where none lives there.
pub trait FuturesOf<S>: FutureKind {
    /// Who is to be woken.
    type Waker: Drop;

    /// What a poll is given beside its waker: the time, of a timer's future, and else nothing.
    type Moment;

    /// What a poll gives that is ready.
    type Output;

    /// What a cancelled future leaves: a value that was to be sent, and else nothing.
    type Left;

    /// A future lives under this name that has not ended.
    ghost is_pollable: { S → ℕ → Bool };

    /// A future lives under this name.
    ghost is_live: { S → ℕ → Bool };

    /// A poll of this name at this moment with this waker may give this answer and go on from old to new.
    ghost polls: { S → ℕ → Self.Moment → Self.Waker → Poll Self.Output → S → Type 0 };

    /// What else holds after a poll of this name with this answer.
    ghost shows: { ℕ → Poll Self.Output → S → Type 0 } = { λ name answer state. Unit {0} };

    /// This answer ends the future.
    ghost is_end: { Poll Self.Output → Bool };

    /// A cancel of this name may leave this and go on from old to new.
    ghost cancels: { S → ℕ → Self.Left → S → Type 0 };

    /// What else every cancel keeps from old to new.
    ghost keeps: { S → S → Type 0 } = { λ old new. Unit {0} };

    /// What is left where no future was cancelled.
    ghost nothing: { Self.Left };

    /// All others than the future of this name that live stay live from old to new, and those that could be polled still can.
    ghost others_stay: { ℕ → S → S → Type 0 };

    /// Polls the future under this slot, if one lives there that has not ended: it is ready with an answer, or is registered with
    /// this waker. Whether an answer ends it, `is_end` says. Else None, and nothing has changed. Wakers of no more use are
    /// dropped.
    fn poll(
        state: &mut S,
        slot: Slot,
        at: Self::Moment,
        waker: Self::Waker,
    ) -> Option<Poll<Self::Output>>
        ensures polled { IfSome result (λ answer. polls state.old slot.0 at waker answer state.new) }
        ensures shown { IfSome result (λ answer. shows slot.0 answer state.new) }
        // The future still lives, until it is cancelled.
        ensures live { IfSome result (λ _. is_live state.new slot.0 ≡ true) }
        ensures pending { IfSome result (λ answer. OnPending answer (is_pollable state.new slot.0 ≡ true)) }
        ensures refused { IfNone result ((is_pollable state.old slot.0 ≡ false) × (state.new ≡ state.old)) }
        ensures others { others_stay slot.0 state.old state.new };

    /// Whether this answer ends its future.
    fn ends(answer: &Poll<Self::Output>) -> bool
        ensures { result ≡ is_end answer.now };

    /// Cancels the future under this slot, if one lives there. Returns what it leaves; its waker is dropped. Else nothing changes.
    fn leave(state: &mut S, slot: Slot) -> Self::Left
        ensures cancelled { is_live state.old slot.0 ≡ true → cancels state.old slot.0 result state.new }
        ensures kept { keeps state.old state.new }
        ensures unchanged { is_live state.old slot.0 ≡ false → (state.new ≡ state.old) × (result ≡ nothing) }
        ensures others { others_stay slot.0 state.old state.new };
}
