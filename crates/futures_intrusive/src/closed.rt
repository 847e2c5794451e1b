//! A wait until a channel is closed, by which a sender learns that the receivers have left.
ghost use Rattle.std.specs.Prelude.{◌≡◌, Option, IfOk, IfErr, OnErr, false};
ghost use Rattle.futures.specs.declared.task.waker.Waker.{Waker};
ghost use Rattle.fi_channels.specs.Event.{can_be_polled, Makes, Polls, Cancels};
ghost use Rattle.fi_parts.specs.declared.errors.Fault.{Fault};
ghost use Rattle.fi_sync.specs.Waiting.{CancelsAt, IsNew, PollsAt, WouldWait, leftover_at};
ghost use Rattle.futures_intrusive.specs.Ends.{OnClosed};

use crate::counted_ends::{ClosesByEnds, CountedEnds};
use crate::ends::{End, SharedFutureOf, Side, future_of};
use fi_parts::{Fault, Slot};
use fi_sync::{EventWait, FutureKind, PollSlot, PollWaker, SlotPolled};
use std::sync::Wait;

/// Waits until a channel is closed.
pub struct ClosedWait;

impl FutureKind for ClosedWait {
    fn name() -> &'static str {
        "ChannelClosedFuture"
    }
}

/// Waits until its channel is closed. It owns a share of the channel, and counts as none of its ends.
///
/// Its output is Ok, and refused as every `SlotFuture`'s. Its drop unregisters it, and tells nobody. Not in futures-intrusive.
pub type ChannelClosedFuture<S, R> = SharedFutureOf<S, R, ClosedWait>;

impl<S: ClosesByEnds> CountedEnds<S> {
    /// Makes a wait until the channel is closed. Refused only with `NoMemory`; then nothing has changed.
    pub fn claim_closed(&mut self) -> Result<Slot, Fault>
        ensures made { IfOk result (λ slot. OnClosed (λ old new. Makes old slot.0 new) self.old self.new) }
        ensures refused { OnErr result (self.new ≡ self.old) }
        ensures fault { IfErr result (λ fault. fault ≡ Fault.NoMemory) }
    {
        self.closed.claim()
    }
}

impl<S: ClosesByEnds> PollSlot<ClosedWait> for CountedEnds<S> {
    type Output = Result<(), Fault>;

    type Left = Option<PollWaker>;

    ghost polls = { λ old name waker answer new.
        OnClosed (λ before after. PollsAt can_be_polled Polls before name waker answer after) old new };

    ghost would_wait = { λ ends. WouldWait (PollsAt can_be_polled (Polls {W = Option Waker})) ends.closed };

    ghost leaves = { λ ends. leftover_at ends.closed };

    ghost cancels = { λ old name left new. OnClosed (λ before after. CancelsAt Cancels before name left after) old new };

    ghost takes_out = { false };

    fn poll_slot(&mut self, slot: Slot, waker: PollWaker) -> SlotPolled<Self::Output> {
        PollSlot::<EventWait>::poll_slot(&mut self.closed, slot, waker)
    }

    fn cancel(&mut self, slot: Slot) -> Option<PollWaker> {
        self.closed.leave(slot)
    }
}

impl<S: ClosesByEnds + Drop, R: Wait + Drop, K: Side<S>> End<S, R, K> {
    /// A future that waits until the channel is closed: by the drop of its last receiver or of its last sender, by a `close`, or of a
    /// channel of one value by its send. Refused only with `NoMemory`; then nothing has changed. Not in futures-intrusive.
    pub fn closed(&self) -> Result<ChannelClosedFuture<S, R>, Fault>
        ensures made { IfOk result (λ future. IsNew self.now future) }
        ensures fault { IfErr result (λ fault. fault ≡ Fault.NoMemory) }
    {
        let shared = self.share()?;
        let claim = |ends: &mut CountedEnds<S>, ()| -> Result<Slot, Fault>
            ensures { IfErr result (λ fault. fault ≡ Fault.NoMemory) }
        { ends.claim_closed() };
        future_of(shared, (), claim)
    }
}
