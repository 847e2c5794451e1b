//! The primitives that threads share: each state stands behind a lock, and its futures implement the kit's `Future`.
//!
//! - `ManualResetEvent`, `AutoResetEvent`, `Mutex`, `Semaphore`, `SharedSemaphore`, `TimerService`, and the channels: `Channel`, `UnbufferedChannel`,
//!   `OneshotChannel`, `OneshotBroadcastChannel`, `StateBroadcastChannel`. `futures_intrusive` has them under the crate's paths.
//! - A future is dropped where it is not wanted any more: it leaves its primitive, and passes on a notice that it has not used.
//! - `wait_for` blocks the calling thread until a future is ready; `Blocking` is what it needs of the runtime.
//! - `Monitor` is a state behind its lock, `Claim` a future's place in it. A call gives what it owes (whom to wake) beside its
//!   answer; to pay it, each waker is taken out in a hold of its own and woken with no lock held.
//!
//! "Keeps `X`" says which item of futures-intrusive an item stands for.
#![tactic(auto)]

mod auto_reset_event;
mod blocking;
mod channel;
mod claim;
mod event;
mod monitor;
mod mutex;
mod one_value;
mod receive_future;
mod semaphore;
mod send_future;
mod slot_future;
mod state_broadcast;
mod timer;
mod wakes;

pub use auto_reset_event::{
    AutoResetEvent, AutoResetWait, OwnedWaitForAutoResetEventFuture, WaitForAutoResetEventFuture,
};
pub use blocking::{Blocking, wait_for};
pub use channel::stream::ChannelStream;
pub use channel::{Channel, GenericChannel, UnbufferedChannel};
pub use claim::{Claim, Fate};
pub use event::ManualResetEvent;
pub use event::future::{OwnedWaitForEventFuture, WaitForEventFuture};
pub use fi_channels::{ChannelReceive, ChannelSend, ChannelStreaming, EventWait};
pub use fi_locks::{Grant, MutexLock, SemaphoreAcquire, Tally};
pub use fi_parts::FutureKind;
pub use monitor::{HasMonitor, Monitor};
pub use mutex::counted::{CountedMutex, Locked};
pub use mutex::{
    Mutex, MutexGuard, MutexGuardOf, MutexLockFuture, MutexLockFutureOf, OwnedMutexGuard,
    OwnedMutexLockFuture,
};
pub use one_value::{OneValueChannel, OneshotBroadcastChannel, OneshotChannel};
pub use receive_future::ChannelReceiveFuture;
pub use semaphore::counted::CountedSemaphore;
pub use semaphore::future::SemaphoreAcquireFutureOf;
pub use semaphore::releaser::SemaphoreReleaserOf;
pub use semaphore::shared::{
    SharedSemaphore, SharedSemaphoreAcquireFuture, SharedSemaphoreReleaser,
};
pub use semaphore::{Semaphore, SemaphoreAcquireFuture, SemaphoreReleaser};
pub use send_future::ChannelSendFuture;
pub use slot_future::{PollOutput, PollSlot, SlotFuture, SlotPolled};
pub use state_broadcast::{StateBroadcastChannel, StateReceiveFuture};
pub use timer::timed::{Timed, TimedWait};
pub use timer::{OwnedTimerFuture, TimerFuture, TimerService};
pub use wakes::{Guarded, HasOutbox, Owed, PollWaker};
