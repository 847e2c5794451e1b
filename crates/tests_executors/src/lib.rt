//! Futures of this library under the executors and combinators of the kit.
#![tactic(auto)]

#[cfg(test)]
mod joins;
#[cfg(test)]
mod stops;
