//! What the primitives are for: small programs of one thread, as their users would write them. A task is known by a number, which is
//! also its waker.
mod answer;
mod pipeline;
