//! Tests of the shared ends, of what threads share, and of the names under which users find both.
#![tactic(auto)]

#[cfg(test)]
mod ends;
#[cfg(test)]
mod pages;
#[cfg(test)]
mod paths;
