//! The semaphore that its owners share.
ghost use Rattle.fi_sync.specs.Blanks.{IsPermitBlank};

use fi_sync::{SharedSemaphore, SharedSemaphoreAcquireFuture, SharedSemaphoreReleaser};
use futures::task::Poll;
use futures::test::MockTask;
use std::alloc::AllocGlobal;
use std::marker::Brand;
use std::random::RandomSource;
use std::sync::Wait;
use std::sync::ledger::{Blank, Ledger};

// What the future is granted once all that is held is given back. None unless it waits until then.
fn granted<R: Wait + Drop + Copy, L: Ledger>(
    task: &MockTask,
    mut acquire: SharedSemaphoreAcquireFuture<R, L>,
    held: SharedSemaphoreReleaser<R, L>,
) -> Option<SharedSemaphoreReleaser<R, L>> {
    let is_pending = task.poll(&mut acquire).is_pending();
    drop(held);
    if !is_pending || !task.is_woken() {
        return None;
    }
    match task.poll(&mut acquire) {
        Poll::Ready(Ok(releaser)) => Some(releaser),
        _ => None,
    }
}

// The future waits, and its owner goes. Whether it is granted all the same, and the last owner of all, a releaser, gives back.
fn outlives<R: Wait + Drop + Copy, L: Ledger>(
    task: &MockTask,
    semaphore: SharedSemaphore<R, L>,
) -> Option<bool> {
    let other = semaphore.clone().ok()?;
    let both = semaphore.try_acquire(2).ok()??;
    let acquire = semaphore.acquire(1).ok()?;
    drop(semaphore);
    let releaser = granted(task, acquire, both)?;
    let is_one_free = other.permits() == 1 && other.held() == 1;
    drop(releaser);
    Some(is_one_free && other.permits() == 2)
}

// What a semaphore of two permits does.
fn shared<R, L>(rt: R, blank: Blank) -> Option<bool>
where
    R: Wait + Drop + Copy + RandomSource + AllocGlobal,
    L: Ledger,
    requires blank { IsPermitBlank L.Ledger blank }
{
    let task = MockTask::new(&rt).ok()?;
    let semaphore = SharedSemaphore::<R, L>::new(rt.alloc(), rt, blank, true, 2);
    outlives(&task, semaphore.ok()?)
}

#[test]
fn shared_semaphore_outlives_its_owner(rt: HostRuntime) {
    let outlives = shared::<HostRuntime, Brand>(rt, Blank::new(u64::MAX));
    assert!(rt; outlives == Some(true));
}
