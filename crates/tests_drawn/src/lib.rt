//! Drawn lists of calls, which each primitive answers as a plain reference does.
#![tactic(auto)]

#[cfg(test)]
mod cases;
#[cfg(test)]
mod channel;
#[cfg(test)]
mod event;
#[cfg(test)]
mod mutex;
#[cfg(test)]
mod one_value;
#[cfg(test)]
mod pool;
#[cfg(test)]
mod semaphore;
#[cfg(test)]
mod state;
#[cfg(test)]
mod timer;
#[cfg(test)]
mod waiters;
