//! Drawn lists of calls on ends.

mod channel;
mod one_value;
mod state;
