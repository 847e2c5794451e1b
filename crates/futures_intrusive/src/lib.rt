//! Synchronization primitives and channels for polled futures: the items of futures-intrusive 0.5.0 under its module paths.
//!
//! - `sync`: wait until something has happened (`ManualResetEvent`), let one at a time use a value (`Mutex`), or at most so many
//!   at a time pass (`Semaphore`, `SharedSemaphore`).
//! - `channel`: hand values on. Each value to one receive, in the order sent (`Channel`); one value once (`OneshotChannel`, or to
//!   all `OneshotBroadcastChannel`); the newest of many (`StateBroadcastChannel`).
//! - `channel::shared`: the same channels, whose senders and receivers are owned and counted instead of borrowed.
//! - `timer`: wait for a moment of a clock. `buffer`: where a channel keeps its values.
//!
//! `list`, `heap`, `outbox`, `blocking` and `run` have what futures-intrusive keeps private or lacks. The fault of a
//! refused call is `Fault`.
#![tactic(auto)]

pub mod blocking;
mod blocking_iter;
pub mod buffer;
pub mod channel;
mod channel_ends;
mod closed;
mod counted_channel;
mod counted_ends;
mod ends;
pub mod heap;
pub mod list;
mod one_value_ends;
pub mod outbox;
pub mod run;
mod shared_stream;
mod state_ends;
mod state_reader;
mod state_stream;
pub mod sync;
pub mod timer;

pub use fi_parts::{Fault, Leftover, NoRoom, NotPolled, Refused, Slot, Stage, memory};
