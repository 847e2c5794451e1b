//! Primitives as machines that answer calls, and lists of calls as runs.
//!
//! - `Primitive` is a state that answers the calls of its type (`EventCall`, `ChannelCall`, ..) with an `Answer`; `run` makes a list
//!   of calls on it.
//! - `every_run`, and `every_run_of_an_event` to `every_run_of_a_channel`, have contracts that say what holds over every list of calls.
//! - `ScriptLines` are the lines of each primitive in scripts of the program `schedule`; `ScriptFutures` tells the futures apart.
//! - A `Table` shows who waits after each call, row by row.
//!
//! The histories of calls that are written so, and the worker pool, stand in `fi_desk`.
#![tactic(auto)]

mod answer;
mod channel;
mod event;
mod exact;
mod mutex;
mod oneshot;
mod runs;
mod script;
mod semaphore;
mod state;
mod table;
mod timer;

pub use answer::Answer;
pub use channel::{ChannelCall, every_run_of_a_channel};
pub use event::{EventCall, every_run_of_an_event};
pub use exact::ExactEq;
pub use mutex::{MutexCall, every_run_of_a_mutex};
pub use oneshot::{OneshotCall, every_run_of_a_oneshot, every_run_of_a_oneshot_broadcast};
pub use runs::{Primitive, every_run, run};
pub use script::channel::ScriptBuffer;
pub use script::oneshot::ScriptGiving;
pub use script::row::{MadeFuture, Numbers, Row};
pub use script::verb::Verb;
pub use script::{MOST_PLACES, ScriptError, ScriptFutures, ScriptLines, is_left_out, write_call};
pub use semaphore::{SemaphoreCall, every_run_of_a_semaphore};
pub use state::{StateCall, every_run_of_a_state_broadcast};
pub use table::{Lane, Table, TableRow};
pub use timer::{TimerCall, every_run_of_a_timer};
