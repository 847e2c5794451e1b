//! Tests of the parts that the primitives stand on.
#![tactic(auto)]

#[cfg(test)]
mod buffers;
#[cfg(test)]
mod clocks;
#[cfg(test)]
mod debug;
#[cfg(test)]
mod heap;
#[cfg(test)]
mod list;
#[cfg(test)]
mod memory;
#[cfg(test)]
mod parts;
