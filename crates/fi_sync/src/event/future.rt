//! A wait for an event that threads share.
ghost use Rattle.std.specs.Prelude.{false};
ghost use Rattle.fi_channels.specs.Event.{can_be_polled, Polls, Cancels};
ghost use Rattle.fi_sync.specs.Waiting.{PollsAt, WouldWait, leftover_at, CancelsAt};

use crate::event::ManualResetEvent;
use crate::monitor::Monitor;
use crate::slot_future::{PollSlot, SlotFuture, SlotPolled, no_slot};
use crate::wakes::PollWaker;
use fi_channels::{EventState, EventWait};
use fi_parts::{Fault, NotPolled, Slot};
use futures::task::Poll;
use std::alloc::Global;
use std::sync::Arc;

/// Waits for an event. Its drop unregisters it, and tells nobody.
///
/// Its output is Ok once the event was set since its first poll, and refused as every `SlotFuture`'s. Keeps `WaitForEventFuture` of
/// futures-intrusive's `sync`.
pub type WaitForEventFuture<'a, R> = SlotFuture<&'a Monitor<EventState<PollWaker>, R>, EventWait>;

/// A `WaitForEventFuture` that owns a share of its event in place of a reference to it.
pub type OwnedWaitForEventFuture<R> = SlotFuture<Arc<ManualResetEvent<R>, Global>, EventWait>;

impl PollSlot<EventWait> for EventState<PollWaker> {
    type Output = Result<(), Fault>;

    type Left = Option<PollWaker>;

    ghost polls = { PollsAt can_be_polled Polls };

    ghost would_wait = { WouldWait (PollsAt can_be_polled Polls) };

    ghost leaves = { leftover_at };

    ghost cancels = { CancelsAt Cancels };

    ghost takes_out = { false };

    #[inline(always)]
    fn poll_slot(&mut self, slot: Slot, waker: PollWaker) -> SlotPolled<Self::Output> {
        let may_wait = waker.is_some();
        match self.poll(slot, waker, may_wait) {
            Ok((Poll::Ready(()), leftover)) => Some((Poll::Ready(Ok(())), leftover)),
            Ok((Poll::Pending, leftover)) => Some((Poll::Pending, leftover)),
            Err(NotPolled::NoFuture(waker)) => no_slot(waker),
            Err(NotPolled::WouldWait(_none)) => None,
        }
    }

    #[inline(always)]
    fn cancel(&mut self, slot: Slot) -> Option<PollWaker> {
        self.leave(slot)
    }
}
