//! The locks. The other thread lets go of what this one needs.

use super::Waited;
use fi_sync::{
    Blocking, Mutex, MutexGuard, Semaphore, SemaphoreReleaser, SharedSemaphore,
    SharedSemaphoreReleaser,
};
use std::sync::ledger::Ledger;

impl<'a, R: Blocking, L: Ledger> Waited for &'a Mutex<u64, R, L> {
    type Means = MutexGuard<'a, u64, R, L>;

    fn hold(&self) -> Option<MutexGuard<'a, u64, R, L>> {
        let mutex = *self;
        mutex.try_lock()
    }

    fn blocks(&self) -> bool {
        match self.lock_blocking() {
            Ok(guard) => *guard == 8,
            Err(_) => false,
        }
    }

    fn bring(&self, means: MutexGuard<'a, u64, R, L>) {
        let mut guard = means;
        *guard = 8;
    }
}

impl<'a, R: Blocking, L: Ledger> Waited for &'a Semaphore<R, L> {
    type Means = SemaphoreReleaser<'a, R, L>;

    fn hold(&self) -> Option<SemaphoreReleaser<'a, R, L>> {
        let semaphore = *self;
        semaphore.try_acquire(2)
    }

    fn blocks(&self) -> bool {
        let Ok(mut releaser) = self.acquire_blocking(2) else {
            return false;
        };
        let are_held = self.held() == 2 && self.permits() == 0;
        are_held && releaser.disarm() == 2 && self.held() == 0
    }

    fn bring(&self, means: SemaphoreReleaser<'a, R, L>) {
        drop(means);
    }
}

impl<R: Blocking + Drop + Copy, L: Ledger> Waited for &SharedSemaphore<R, L> {
    type Means = SharedSemaphoreReleaser<R, L>;

    fn hold(&self) -> Option<SharedSemaphoreReleaser<R, L>> {
        self.try_acquire(2).ok()?
    }

    fn blocks(&self) -> bool {
        let Ok(mut releaser) = self.acquire_blocking(2) else {
            return false;
        };
        let are_held = self.held() == 2 && self.permits() == 0;
        are_held && releaser.disarm() == 2 && self.held() == 0
    }

    fn bring(&self, means: SharedSemaphoreReleaser<R, L>) {
        drop(means);
    }
}
