//! The releaser of permits of a semaphore that threads share.
ghost use Rattle.std.specs.Prelude.{◌≡◌, ℕ};

use crate::monitor::HasMonitor;
use crate::semaphore::counted::CountedSemaphore;
use fi_locks::Grant;
use std::marker::Model;
use std::sync::ledger::Ledger;

/// Permits of a semaphore that are held. Its drop gives them back, and wakes the longest front of the queue whose needs together
/// are free then.
///
/// It reaches the semaphore by a reference or an `Arc`.
pub struct SemaphoreReleaserOf<M: HasMonitor<State = CountedSemaphore<L>>, L: Ledger> {
    monitor: M,
    grant: Grant<L>,
}

impl<M: HasMonitor<State = CountedSemaphore<L>>, L: Ledger> Model for SemaphoreReleaserOf<M, L> {
    ghost use Rattle.std.specs.Prelude.{ℕ};

    ghost Value = { ℕ };

    ghost view = { λ releaser. releaser.grant };
}

impl<M: HasMonitor<State = CountedSemaphore<L>>, L: Ledger> SemaphoreReleaserOf<M, L> {
    /// The releaser of these permits.
    pub(crate) fn of(monitor: M, grant: Grant<L>) -> Self
        ensures { result ≡ grant }
    {
        SemaphoreReleaserOf { monitor, grant }
    }

    /// Leaves no permits here, and answers how many there were: they are no longer held, and will not be given back. Keeps
    /// `GenericSemaphoreReleaser::disarm`.
    pub fn disarm(&mut self) -> usize
        ensures permits { result ≡ self.old }
        ensures none { self.new ≡ 0 }
    {
        let permits = self.grant.units();
        let grant = self.grant.take();
        self.monitor.monitor().call(grant, CountedSemaphore::disarm);
        permits
    }
}

impl<M: HasMonitor<State = CountedSemaphore<L>>, L: Ledger> Drop for SemaphoreReleaserOf<M, L> {
    #[inline(always)]
    fn drop(self) {
        let SemaphoreReleaserOf { monitor, grant } = self;
        monitor.monitor().call(grant, CountedSemaphore::give_back);
        drop(monitor);
    }
}
