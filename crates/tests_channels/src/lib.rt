//! Tests of the event and of the channels that one thread uses.
#![tactic(auto)]

#[cfg(test)]
mod beside;
#[cfg(test)]
mod by_slot;
#[cfg(test)]
mod channel;
#[cfg(test)]
mod clones;
#[cfg(test)]
mod debug;
#[cfg(test)]
mod drops;
#[cfg(test)]
mod kept;
#[cfg(test)]
mod local;
