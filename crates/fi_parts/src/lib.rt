//! The parts that the primitives stand on: a list over live slots, an outbox of named wakers, a store of waiting futures over
//! both, and one of futures that wait for a moment, over that and a heap.
//!
//! - `LinkedList` and `PairingHeap` keep values under slots (`Slot`), in a list or by order.
//! - `Outbox` keeps the wakers that are named to be woken, each by its `Ticket`.
//! - `Waits` keeps futures with what they ask for and their `Phase`, those that wait in a queue (a `WaitQueue` and an `Outbox`);
//!   `Deadlines` those that wait for a moment (`Waits` and a heap).
//! - `buffer` has what a channel keeps its values in. `Clock` says which moment it is.
//! - `Fault`, `NoRoom`, `ChannelSendError`, `CloseStatus` and `StateId` are what calls answer everywhere. `Refused` shows that a
//!   request for memory failed: without one nothing answers that there is no memory.
#![tactic(auto)]

mod blocks;
pub mod buffer;
mod clocks;
mod deadlines;
mod drain;
mod errors;
mod futures_of;
mod heap;
mod heap_links;
mod heap_nodes;
mod heap_trees;
mod list;
mod local_future;
pub mod memory;
mod outbox;
mod phase;
mod visits;
mod wait_queue;
mod waits;

pub use clocks::{Clock, MockClock, StdClock, whole_millis};
pub use deadlines::{Deadline, Deadlines};
pub use drain::{Drain, ReverseDrain};
pub use errors::{ChannelSendError, CloseStatus, Fault, NoRoom, Slot, StateId};
pub use futures_of::{FutureKind, FuturesOf};
pub use heap::PairingHeap;
pub use list::LinkedList;
pub use local_future::LocalFuture;
pub use memory::Refused;
pub use outbox::{Outbox, Ticket};
pub use phase::{Leftover, LiveFuture, NotPolled, Notice, Phase, Stage};
pub use wait_queue::{Ticketed, WaitQueue, last_waker, release, waker_from};
pub use waits::Waits;
