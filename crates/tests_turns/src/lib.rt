//! Drawn lists of calls on what threads share, made by one thread, and by two in turn. (`tests_ends_lists` draws those on ends.)
#![tactic(auto)]

#[cfg(test)]
mod drawn_threads;
#[cfg(test)]
mod turns;
