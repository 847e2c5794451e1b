//! The states of the primitives that hold tasks back until a lock, permits or a moment are theirs, as machines, and the flavours
//! that are used by one thread.
//!
//! - `MutexState` (`LocalMutex`) has a value that one at a time uses: a `LocalMutexLockFuture`, or `try_lock`, gives it in a
//!   `LocalMutexGuard`, which is spent by `unlock`.
//! - `SemaphoreState` (`LocalSemaphore`) has permits: a `LocalSemaphoreAcquireFuture`, or `try_acquire`, gives so many in a
//!   `LocalSemaphoreReleaser`, which is spent by `give_back`. Both are fair or unfair.
//! - `TimerState` (`LocalTimerService`) has moments: a `LocalTimerFuture` ends once `check_expirations` has come to its own.
//!
//! `Tally` counts what a primitive that threads share has handed out, and a `Grant` is so much of it: the shares of a ledger.
//!
//! A state names whom to wake, the oldest first: `next_wake` takes the wakers out.
#![tactic(auto)]

mod mutex;
mod semaphore;
mod tally;
mod timer;

pub use mutex::future::{LocalMutexLockFuture, MutexLock};
pub use mutex::guard::LocalMutexGuard;
pub use mutex::{LocalMutex, MutexState};
pub use semaphore::future::{
    LocalSemaphoreAcquireFuture, LocalSemaphoreReleaser, SemaphoreAcquire,
};
pub use semaphore::{LocalSemaphore, SemaphoreState};
pub use tally::{Grant, Tally};
pub use timer::future::{LocalTimerFuture, TimerWait};
pub use timer::{LocalTimerService, TimerState};
