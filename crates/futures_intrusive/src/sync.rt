//! Events, mutexes and semaphores. Keeps futures-intrusive's `sync`.
//!
//! Take a `ManualResetEvent` where many wait until something has happened, an `AutoResetEvent` where one of several is to pass once
//! it is set, a `Mutex` where one at a time uses a value, and a `Semaphore` where at most so many pass at a time; a
//! `SharedSemaphore` owns a share of its state, so its futures and releasers can outlive the maker; so do the futures of calls that
//! end in `_owned`, of what stands in an `Arc`. The types that begin with `Local` are for one thread, and those that end in `State`
//! for callers that name futures by slots.
//!
//! ```
//! use futures::task::Poll;
//! use futures::test::MockTask;
//! use futures_intrusive::sync::ManualResetEvent;
//!
//! let task = MockTask::new(&rt)?;
//! let event = ManualResetEvent::new(rt.alloc(), rt, false);
//! let mut wait = event.wait()?;
//! assert!(rt; task.poll(&mut wait).is_pending());
//! event.set();                                                     // wakes the task
//! assert!(rt; task.is_woken() && task.poll(&mut wait) == Poll::Ready(Ok(())));
//! ```

pub use fi_channels::{EventState, LocalManualResetEvent, LocalWaitForEventFuture};
pub use fi_locks::{
    LocalMutex, LocalMutexGuard, LocalMutexLockFuture, LocalSemaphore, LocalSemaphoreAcquireFuture,
    LocalSemaphoreReleaser, MutexState, SemaphoreState,
};
pub use fi_sync::{
    AutoResetEvent, ManualResetEvent, Mutex, MutexGuard, MutexLockFuture, OwnedMutexGuard,
    OwnedMutexLockFuture, OwnedWaitForAutoResetEventFuture, OwnedWaitForEventFuture, Semaphore,
    SemaphoreAcquireFuture, SemaphoreReleaser, SharedSemaphore, SharedSemaphoreAcquireFuture,
    SharedSemaphoreReleaser, WaitForAutoResetEventFuture, WaitForEventFuture,
};
