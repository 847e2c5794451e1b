//! What drivers ask of futures: that they may be polled at any time, and that sends can be cancelled.

use fi_sync::{
    ChannelSend, CountedSemaphore, HasMonitor, MutexLockFuture, PollSlot, PollWaker,
    SemaphoreAcquireFutureOf, SlotFuture,
};
use futures::Future;
use std::sync::Wait;
use std::sync::ledger::Ledger;

/// A future that may be polled at any time.
pub trait Pollable: Future {
    ghost is_pollable: { (any : Self) → Self.can_poll any };
}

impl<M: HasMonitor, K> Pollable for SlotFuture<M, K>
where
    M::State: PollSlot<K>,
{
    ghost is_pollable = { λ _. tt };
}

impl<R: Wait, L: Ledger> Pollable for MutexLockFuture<'_, u64, R, L> {
    ghost is_pollable = { λ _. tt };
}

impl<M: HasMonitor<State = CountedSemaphore<L>>, L: Ledger> Pollable
    for SemaphoreAcquireFutureOf<M, L> {
    ghost is_pollable = { λ _. tt };
}

/// A send, which gives its value back where it is cancelled in time.
pub trait Withdraw: Drop {
    fn withdraw(&mut self) -> Option<u64>;
}

impl<M: HasMonitor> Withdraw for SlotFuture<M, ChannelSend>
where
    M::State: PollSlot<ChannelSend, Left = (Option<u64>, Option<PollWaker>)>,
{
    fn withdraw(&mut self) -> Option<u64> {
        self.cancel()
    }
}
