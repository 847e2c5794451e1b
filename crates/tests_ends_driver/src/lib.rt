//! Lists of calls on the ends of channels, which are owned and counted. What is made at a type of ends alone is said of a trait, with
//! the calls that a list makes: so only the impls of these traits, and the makings, name the types.
#![tactic(auto)]

pub mod channel_ends;
pub mod ends;
