//! The programs with which the pages in docs/ begin, and the examples of public types.
#![tactic(auto)]

#[cfg(test)]
mod auto_reset_event;
#[cfg(test)]
mod channel;
#[cfg(test)]
mod ends;
#[cfg(test)]
mod event;
#[cfg(test)]
mod journal;
#[cfg(test)]
mod mutex;
#[cfg(test)]
mod oneshot;
#[cfg(test)]
mod pool;
#[cfg(test)]
mod semaphore;
#[cfg(test)]
mod state_broadcast;
#[cfg(test)]
mod timer;
#[cfg(test)]
mod types;
