//! Each request for memory of ends is refused in turn. Where nothing is refused, as in a run without proofs, the tests say nothing.

mod blocking;
mod broadcast;
mod clones;
mod deliveries;
mod polls;
mod shared;
mod values;
