//! Histories of calls that replay, and a worker pool made of primitives.
//!
//! - `Journal` keeps the history of one primitive, as `Entry`s, and gives a `Receipt` for each call. `Desk` shares a journal among
//!   callers, each of whom has a `Seat`; `Settled` is a history that has exactly the receipts of all seats.
//! - `Settled::write_script` writes a history as a script of the program `schedule`, `Settled::write_table` as a table of who waits
//!   after each call.
//! - `PoolState` is a worker pool, made of a channel, a semaphore and an event; `every_run_of_a_pool` has a contract that says what
//!   holds over every list of its calls.
#![tactic(auto)]

mod desk;
mod journal;
mod pool;
mod script;
mod table;

pub use desk::{Desk, Mismatch, Seat};
pub use journal::{Entry, Journal, Receipt, Settled};
pub use pool::state::PoolState;
pub use pool::{PoolCall, every_run_of_a_pool};
