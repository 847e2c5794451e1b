//! The future that acquires permits of a semaphore that threads share.
ghost use Rattle.std.specs.Prelude.{◌≡◌, ℕ, Some, Result, Err, true, false, ⊤};
ghost use Rattle.futures.specs.declared.task.Poll.{Poll};
ghost use Rattle.futures.specs.Poll.{OnPending, IfReady};
ghost use Rattle.futures.specs.Task.{Covers, Keeps};
ghost use Rattle.fi_parts.specs.declared.errors.Fault.{Fault};
ghost use Rattle.fi_sync.specs.Granted.{IsAcquireAnswer, PollsAcquire};
ghost use Rattle.fi_sync.specs.Waiting.{IsGiven, is_final, polled};

use crate::claim::Claim;
use crate::monitor::HasMonitor;
use crate::semaphore::counted::CountedSemaphore;
use crate::semaphore::releaser::SemaphoreReleaserOf;
use crate::slot_future::SlotFuture;
use fi_locks::SemaphoreAcquire;
use fi_parts::Fault;
use futures::Future;
use futures::task::{Context, Poll};
use std::marker::Model;
use std::sync::ledger::Ledger;

/// Acquires permits of a semaphore. Its drop unregisters it; a notice that it had not used is passed on to those who wait.
///
/// Its output is the releaser of the permits, once they are granted; `Closed` ends it once the semaphore is closed. Refused with
/// `NoMemory` where it had to wait and no waker could be made; it may then be polled again. It reaches the semaphore by a reference
/// or an `Arc`.
#[derive(Drop)]
pub struct SemaphoreAcquireFutureOf<M: HasMonitor<State = CountedSemaphore<L>>, L: Ledger> {
    future: SlotFuture<M, SemaphoreAcquire>,
    // The releaser's way to the semaphore, which is made with the future: so a grant is never refused for want of memory.
    releaser_monitor: Option<M>,
}

impl<M: HasMonitor<State = CountedSemaphore<L>>, L: Ledger> Model
    for SemaphoreAcquireFutureOf<M, L> {
    ghost use Rattle.std.specs.Prelude.{◌≡◌, true, is_none};
    ghost use Rattle.fi_sync.specs.Waiting.{SharedFuture};

    ghost Value = { SharedFuture };

    ghost view = { λ acquire. acquire.future };

    // The releaser has it once the permits were granted.
    ghost invariant = { λ acquire. is_none acquire.releaser_monitor ≡ true → acquire.future.has_ended ≡ true };
}

impl<M: HasMonitor<State = CountedSemaphore<L>>, L: Ledger> SemaphoreAcquireFutureOf<M, L> {
    /// The future whose slot this is. Both monitors are the semaphore's.
    pub(crate) fn of(monitor: M, releaser_monitor: M, claim: Claim<SemaphoreAcquire>) -> Self
        ensures { result ≡ record { source = M.source monitor; name = Some claim; has_ended = false } }
    {
        SemaphoreAcquireFutureOf {
            future: SlotFuture::new(monitor, claim),
            releaser_monitor: Some(releaser_monitor),
        }
    }

    /// Returns `true` if the future was polled to its end. It takes no lock. Keeps `FusedFuture::is_terminated`.
    pub fn is_terminated(&self) -> bool
        ensures { result ≡ self.now.has_ended }
    {
        self.future.is_terminated()
    }
}

impl<M: HasMonitor<State = CountedSemaphore<L>>, L: Ledger> Future
    for SemaphoreAcquireFutureOf<M, L> {
    type Output = Result<SemaphoreReleaserOf<M, L>, Fault>;

    ghost needs = { λ acquire source. source ≡ acquire.source };

    ghost gives = { λ acquire. IsGiven PollsAcquire (Err Fault.NoMemory) };

    #[inline(always)]
    fn poll(&mut self, cx: &mut Context<'_>) -> Poll<Result<SemaphoreReleaserOf<M, L>, Fault>>
        ensures value { IfReady result (IsGiven PollsAcquire (Err Fault.NoMemory)) }
        ensures again { OnPending result ⊤ }
        ensures same { OnPending result ((output : Result ℕ Fault) → IsGiven PollsAcquire (Err Fault.NoMemory) output
            → IsGiven PollsAcquire (Err Fault.NoMemory) output) }
        ensures registered { OnPending result (Covers cx.new (λ source. source ≡ self.new.source)) }
        ensures kept { Keeps cx.old cx.new }
        ensures stands { self.new ≡ polled is_final self.old result }
        ensures spent { self.old.has_ended ≡ true → result ≡ Poll.Pending }
        ensures answered { IsAcquireAnswer self.old.name self.old.has_ended cx.new.lacks_waker result }
    {
        match self.future.poll(cx) {
            Poll::Ready(Ok(grant)) => match self.releaser_monitor.take() {
                Some(monitor) => Poll::Ready(Ok(SemaphoreReleaserOf::of(monitor, grant))),
                // A future is granted permits once, and has the monitor until then.
                None => unreachable!(),
            },
            Poll::Ready(Err(fault)) => Poll::Ready(Err(fault)),
            Poll::Pending => Poll::Pending,
        }
    }
}
