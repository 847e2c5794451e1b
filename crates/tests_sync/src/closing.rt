//! Semaphores that are closed: who waits, and who comes later, is told.
ghost use Rattle.fi_sync.specs.Blanks.{IsPermitBlank};

use fi_parts::{CloseStatus, Fault};
use fi_sync::{
    Blocking, Semaphore, SemaphoreAcquireFuture, SharedSemaphore, SharedSemaphoreReleaser,
};
use futures::task::Poll;
use futures::test::MockTask;
use std::alloc::AllocGlobal;
use std::marker::Brand;
use std::random::RandomSource;
use std::sync::Wait;
use std::sync::ledger::{Blank, Ledger};
use std::thread;
use std::thread::Threads;

/// A semaphore's futures, without their clauses: the proofs of those who only look at answers stay small.
trait Permits {
    type Acquire: Acquires;

    fn begin(&self, permits: usize) -> Option<Self::Acquire>;

    /// Whether the close is its first.
    fn shut(&self) -> bool;
}

/// One of them.
trait Acquires: Drop {
    fn waits(&mut self, task: &MockTask) -> bool;

    /// Whether this poll ends it since its semaphore is closed.
    fn ends(&mut self, task: &MockTask) -> bool;
}

impl<R: Wait, L: Ledger> Acquires for SemaphoreAcquireFuture<'_, R, L> {
    fn waits(&mut self, task: &MockTask) -> bool {
        task.poll(self).is_pending()
    }

    fn ends(&mut self, task: &MockTask) -> bool {
        matches!(task.poll(self), Poll::Ready(Err(Fault::Closed))) && self.is_terminated()
    }
}

impl<'a, R: Wait, L: Ledger> Permits for &'a Semaphore<R, L> {
    type Acquire = SemaphoreAcquireFuture<'a, R, L>;

    fn begin(&self, permits: usize) -> Option<SemaphoreAcquireFuture<'a, R, L>> {
        let semaphore = *self;
        semaphore.acquire(permits).ok()
    }

    fn shut(&self) -> bool {
        self.close() == CloseStatus::NewlyClosed
    }
}

// Two futures wait for permits that are held. Whether the close wakes both, they end, and so does one that comes later.
fn all_end<P: Permits>(permits: &P, first: &MockTask, second: &MockTask) -> Option<bool> {
    let (mut older, mut younger) = (permits.begin(1)?, permits.begin(2)?);
    let wait = older.waits(first) && younger.waits(second);
    let are_woken = permits.shut() && first.is_woken() && second.is_woken();
    let end = younger.ends(second) && older.ends(first);
    Some(wait && are_woken && end && permits.begin(1)?.ends(first))
}

// What a closed semaphore answers.
fn has_none<R: Wait, L: Ledger>(semaphore: &Semaphore<R, L>) -> bool {
    let grants = semaphore.try_acquire(0).is_some() || semaphore.release(5) != Ok(());
    let has_some = semaphore.permits() > 0 || semaphore.held() > 0;
    let is_closed = semaphore.is_closed() && semaphore.close() == CloseStatus::AlreadyClosed;
    is_closed && !grants && !has_some
}

fn closes<R, L>(rt: R, blank: Blank, is_fair: bool) -> Option<bool>
where
    R: Wait + Copy + RandomSource + AllocGlobal,
    L: Ledger,
    requires blank { IsPermitBlank L.Ledger blank }
{
    let (first, second) = (MockTask::new(&rt).ok()?, MockTask::new(&rt).ok()?);
    let semaphore = &Semaphore::<R, L>::new(rt.alloc(), rt, blank, is_fair, 2);
    let held = semaphore.try_acquire(2)?;
    let end = !semaphore.is_closed() && all_end(&semaphore, &first, &second)?;
    drop(held);
    Some(end && has_none(semaphore))
}

#[test]
fn a_close_ends_all_who_wait_or_come(rt: HostRuntime) {
    let fair = closes::<HostRuntime, Brand>(rt, Blank::new(u64::MAX), true);
    let unfair = closes::<HostRuntime, Brand>(rt, Blank::new(u64::MAX), false);
    assert!(rt; fair == Some(true) && unfair == Some(true));
}

// Two futures that need as many permits as there can be wait. Whether the close wakes the older, and its end the other.
fn one_tells_the_next<P: Permits>(
    permits: &P,
    first: &MockTask,
    second: &MockTask,
) -> Option<bool> {
    let (mut older, mut younger) = (permits.begin(usize::MAX)?, permits.begin(usize::MAX)?);
    let wait = older.waits(first) && younger.waits(second);
    let is_one_woken = permits.shut() && first.is_woken() && !second.is_woken();
    let end = older.ends(first) && second.is_woken() && younger.ends(second);
    Some(wait && is_one_woken && end)
}

fn tells<R, L>(rt: R, blank: Blank, is_fair: bool) -> Option<bool>
where
    R: Wait + Copy + RandomSource + AllocGlobal,
    L: Ledger,
    requires blank { IsPermitBlank L.Ledger blank }
{
    let (first, second) = (MockTask::new(&rt).ok()?, MockTask::new(&rt).ok()?);
    let semaphore = &Semaphore::<R, L>::new(rt.alloc(), rt, blank, is_fair, 2);
    one_tells_the_next(&semaphore, &first, &second)
}

#[test]
fn whoever_ends_tells_the_next(rt: HostRuntime) {
    let fair = tells::<HostRuntime, Brand>(rt, Blank::new(u64::MAX), true);
    let unfair = tells::<HostRuntime, Brand>(rt, Blank::new(u64::MAX), false);
    assert!(rt; fair == Some(true) && unfair == Some(true));
}

// A thread waits for a permit of this semaphore, which has none, and another closes it. Whether the first learns that.
fn learns<'a, R, L>(rt: &'a R, semaphore: &'a Semaphore<R, L>) -> bool
where
    R: Blocking + Threads + Send + Sync,
    L: Ledger + Send + Sync,
{
    let wait = || matches!(semaphore.acquire_blocking(1), Err(Fault::Closed));
    let stop = || semaphore.close() == CloseStatus::NewlyClosed;
    let (is_told, is_closed) = thread::join(rt, wait, stop);
    is_told && is_closed
}

fn blocked<R, L>(rt: R, blank: Blank) -> bool
where
    R: Blocking + Threads + Copy + Send + Sync,
    L: Ledger + Send + Sync,
    requires blank { IsPermitBlank L.Ledger blank }
{
    let semaphore = Semaphore::<R, L>::new(rt.alloc(), rt, blank, true, 0);
    learns(&rt, &semaphore)
}

#[test]
fn a_blocked_thread_learns_of_the_close(rt: HostRuntime) {
    assert!(rt; blocked::<HostRuntime, Brand>(rt, Blank::new(u64::MAX)));
}

// A semaphore that its owners share is closed while a permit is held. Whether the other owner sees it, and the permit is still counted by
// its releaser.
fn owners_see<R: Wait + Drop, L: Ledger>(
    semaphore: SharedSemaphore<R, L>,
    mut held: SharedSemaphoreReleaser<R, L>,
) -> Option<bool> {
    let other = semaphore.clone().ok()?;
    let closes = semaphore.close() == CloseStatus::NewlyClosed;
    drop(semaphore);
    let sees = other.is_closed() && other.try_acquire(1).ok()?.is_none();
    Some(closes && sees && held.disarm() == 1 && other.held() == 0)
}

fn shared<R, L>(rt: R, blank: Blank) -> Option<bool>
where
    R: Wait + Drop + Copy + AllocGlobal,
    L: Ledger,
    requires blank { IsPermitBlank L.Ledger blank }
{
    let semaphore = SharedSemaphore::<R, L>::new(rt.alloc(), rt, blank, true, 2).ok()?;
    let held = semaphore.try_acquire(1).ok()??;
    owners_see(semaphore, held)
}

#[test]
fn owners_see_the_close(rt: HostRuntime) {
    let seen = shared::<HostRuntime, Brand>(rt, Blank::new(u64::MAX));
    assert!(rt; seen == Some(true));
}
