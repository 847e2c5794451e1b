//! The worked rows, played on each borrowed type that threads share. (`tests_ends_lists` plays those of channels on their ends.)
#![tactic(auto)]

#[cfg(test)]
mod rows;
