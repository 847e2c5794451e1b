//! Scripts of calls on one primitive, answered line by line: the language of the program `schedule`.
//!
//! - `run_script` reads a script and writes its answers; `ScriptFault` says how that can fail. `run_program` is a program's whole run:
//!   arguments, input, output and status.
//! - `words`, `label` and `number` read a line, whose words are those of `fi_run`, as are the calls of each primitive (`ScriptLines`).
//!   `named`, `buffer` and `scripted` read what the first line opens.
//! - `Labels` keeps the futures whose labels are in use, and reads by them the call that a line asks for, whoever then makes it.
//! - `engine` answers a script and each of its lines; `labelled` keeps futures by their labels; `texts` and `output` write the answers.
#![tactic(auto)]

mod buffer;
mod engine;
mod fairness;
mod fault;
mod input;
mod label;
mod labelled;
mod named;
mod number;
mod output;
mod program;
mod requests;
mod scripted;
mod texts;
mod words;

pub use buffer::Buffer;
pub use engine::run_script;
pub use fault::{ScriptFault, report, status};
pub use input::read_whole;
pub use label::Label;
pub use labelled::Labelled;
pub use named::Named;
pub use number::parse_numbers;
pub use output::{COLLECTED, LINE, write_whole};
pub use program::run_program;
pub use requests::{Labels, Request};
pub use scripted::Scripted;
pub use words::{Lines, Words, after_hold, split_at_first};
