//! Each request for memory is refused in turn, by taking all memory that the process can have. (`tests_ends_lists` does so to ends.)
//!
//! Where nothing is refused, as in a run without proofs, `memory_runs_out` fails and the others say nothing.
#![tactic(auto)]

#[cfg(test)]
mod blocking;
#[cfg(test)]
mod boxes;
#[cfg(test)]
mod buffers;
#[cfg(test)]
mod growth;
#[cfg(test)]
mod hoard;
#[cfg(test)]
mod journals;
#[cfg(test)]
mod locks;
#[cfg(test)]
mod polls;
#[cfg(test)]
mod pool;
#[cfg(test)]
mod rounds;
#[cfg(test)]
mod values;
