//! Tests of what threads share.
#![tactic(auto)]

#[cfg(test)]
mod auto_reset_event;
#[cfg(test)]
mod blocking;
#[cfg(test)]
mod channel;
#[cfg(test)]
mod closing;
#[cfg(test)]
mod contention;
#[cfg(test)]
mod crosses;
#[cfg(test)]
mod debug;
#[cfg(test)]
mod drops;
#[cfg(test)]
mod event;
#[cfg(test)]
mod mutex;
#[cfg(test)]
mod owned;
#[cfg(test)]
mod shared_semaphore;
#[cfg(test)]
mod waited;
