//! Tests of the shared ends in several threads, of their calls that block, and of what their drops drop.
#![tactic(auto)]

#[cfg(test)]
mod blocking;
#[cfg(test)]
mod drops;
#[cfg(test)]
mod stress;
#[cfg(test)]
mod threads;
