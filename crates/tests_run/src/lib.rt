//! Tests of the runs, journals and desks, and programs of one thread as their users would write them.
#![tactic(auto)]

#[cfg(test)]
mod desks;
#[cfg(test)]
mod journals;
#[cfg(test)]
mod one_thread;
#[cfg(test)]
mod pools;
#[cfg(test)]
mod runs;
#[cfg(test)]
mod scripts;
#[cfg(test)]
mod tables;
