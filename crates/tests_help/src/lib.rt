//! What tests of several crates share.
#![tactic(auto)]

pub mod hoard;
pub mod meeting;
pub mod refusals;
pub mod texts;
