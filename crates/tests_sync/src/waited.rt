//! What a thread waits for, and what another thread does then.

use std::alloc::{Alloc, AllocGlobal, Global};
use std::random::RandomSource;
use std::sync::Wait;
use std::sync::atomic::{AtomicBool, AtomicU64, Ordering};
use std::thread::Threads;
use std::time::{Clock, Duration};
use std::{io, thread};
use tests_help::meeting::was_set;

mod channels;
mod locks;
mod signals;

pub(crate) use channels::{Receives, Sends};
pub(crate) use signals::Limited;

/// A call that blocks until another thread has brought about what it waits for.
pub(crate) trait Waited {
    /// What that thread needs for it: a guard, a releaser, or nothing.
    type Means;

    /// Takes what stands in the way of the wait.
    fn hold(&self) -> Option<Self::Means>;

    /// Makes the call. Answers whether it is given what it should be.
    fn blocks(&self) -> bool;

    fn bring(&self, means: Self::Means);
}

/// Whether a call blocks until another thread has brought about what it waits for, 20 milliseconds after the call has begun.
pub(crate) fn has_blocked<R, W>(rt: &R, waited: W) -> bool
where
    R: Clock + Threads + Sync,
    W: Waited + Copy + Send,
    W::Means: Drop + Send,
{
    let Some(means) = waited.hold() else {
        return false;
    };
    let has_begun = &AtomicBool::new(false);
    let is_brought = &AtomicBool::new(false);
    let waits = move || {
        has_begun.store(true, Ordering::SeqCst);
        waited.blocks() && is_brought.load(Ordering::SeqCst)
    };
    let brings = move || {
        let _ = was_set(has_begun);
        thread::sleep(rt, Duration::from_millis(20));
        is_brought.store(true, Ordering::SeqCst);
        waited.bring(means);
    };
    let (is_right, ()) = thread::join(rt, waits, brings);
    is_right
}

/// A runtime that counts the executors that are made by it: each takes its random bytes once. A call that only tries, again and again,
/// makes none; one that blocks anew, again and again, makes many.
#[derive(Clone, Copy, Drop)]
pub(crate) struct Counting<'a, R> {
    rt: R,
    executors: &'a AtomicU64,
}

impl<'a, R: Copy> Counting<'a, R> {
    pub(crate) fn new(rt: &R, executors: &'a AtomicU64) -> Self {
        Counting { rt: *rt, executors }
    }
}

impl<R: Wait> Wait for Counting<'_, R> {}

impl<R: RandomSource> RandomSource for Counting<'_, R> {
    fn fill_bytes(&self, bytes: &mut [u8]) -> io::Result<()> {
        self.executors.fetch_add(1, Ordering::SeqCst);
        self.rt.fill_bytes(bytes)
    }
}

impl<R: AllocGlobal> Alloc for Counting<'_, R> {
    type A = Global;

    fn alloc(&self) -> Global {
        self.rt.alloc()
    }
}

/// Whether one executor was made.
pub(crate) fn is_one(executors: &AtomicU64) -> bool {
    executors.load(Ordering::SeqCst) == 1
}
