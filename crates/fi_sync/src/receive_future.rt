//! Receives from the channels that threads share.
ghost use Rattle.std.specs.Prelude.{Err, false};
ghost use Rattle.fi_parts.specs.Polled.{LeavesWhere};
ghost use Rattle.fi_parts.specs.declared.errors.Fault.{Fault};
ghost use Rattle.fi_sync.specs.Waiting.{PollsOrRefuses, WouldWait, leftover_after};

use crate::monitor::Monitor;
use crate::slot_future::{PollSlot, SlotFuture, SlotPolled, no_slot};
use crate::wakes::PollWaker;
use fi_channels::{ChannelReceive, ChannelReceiveAccess};
use fi_parts::{Fault, NotPolled, Slot};

/// Receives one value from a channel, or None if none will come. Its drop unregisters it; if it was told of a value, the oldest
/// receive that waits is told in its place.
///
/// Its output is refused as every `SlotFuture`'s, and also where a clone of the value could not be allocated. Keeps
/// `ChannelReceiveFuture` of futures-intrusive's `channel`.
pub type ChannelReceiveFuture<'a, C, R> = SlotFuture<&'a Monitor<C, R>, ChannelReceive>;

impl<C: ChannelReceiveAccess<Waker = PollWaker>> PollSlot<ChannelReceive> for C {
    type Output = Result<Option<C::Item>, Fault>;

    type Left = Option<PollWaker>;

    ghost polls = { PollsOrRefuses C.is_pollable C.receives (Err Fault.NoSlot) };

    ghost would_wait = { WouldWait (PollsOrRefuses C.is_pollable C.receives (Err Fault.NoSlot)) };

    ghost leaves = { λ old name waker answer. leftover_after answer (C.waker_of old name) waker };

    ghost cancels = { λ old name left new. LeavesWhere (C.is_receiving old name) (C.cancels old name new)
        (C.waker_of old name) old left new };

    ghost takes_out = { false };

    #[inline(always)]
    fn poll_slot(&mut self, slot: Slot, waker: PollWaker) -> SlotPolled<Self::Output> {
        let may_wait = waker.is_some();
        match self.poll_receive(slot, waker, may_wait) {
            Ok(polled) => Some(polled),
            Err(NotPolled::NoFuture(waker)) => no_slot(waker),
            Err(NotPolled::WouldWait(_none)) => None,
        }
    }

    #[inline(always)]
    fn cancel(&mut self, slot: Slot) -> Option<PollWaker> {
        self.leave_receive(slot)
    }
}
