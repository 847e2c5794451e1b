//! Tests of the mutex, the semaphore and the timer that one thread uses.
#![tactic(auto)]

#[cfg(test)]
mod by_slot;
#[cfg(test)]
mod debug;
#[cfg(test)]
mod drops;
#[cfg(test)]
mod kept;
#[cfg(test)]
mod mutex;
#[cfg(test)]
mod semaphore;
