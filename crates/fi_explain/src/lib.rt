//! Scripts explained: what the program `explain` prints.
//!
//! - `explain_script` reads a script, makes its calls, and adds a row for each line to a `Table`. It reads lines by the readers of
//!   `fi_scripts`, by which `schedule` answers them.
//! - `Reason` says why a line is bad. `write_picture` draws a table as a page of SVG. `run_program` is a program's whole run.
#![tactic(auto)]

mod picture;
mod program;
mod reason;
mod script;

pub use picture::write_picture;
pub use program::run_program;
pub use reason::{Reason, reason_of};
pub use script::{Stop, explain_script};
