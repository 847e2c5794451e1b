//! Tests of whom the calls on what threads share wake, and of how often tasks are polled.
#![tactic(auto)]

#[cfg(test)]
mod many;
#[cfg(test)]
mod polls;
#[cfg(test)]
mod timer_runs;
#[cfg(test)]
mod wakes;
