//! What the programs ask of the runtime that `main` is given.

use futures_intrusive::blocking::Blocking;
use std::thread::Threads;
use std::time::Clock;

/// A runtime that blocks, starts threads, has a clock, prints, and is copied to where it is used.
pub trait Runtime: Blocking + Threads + Clock + Print + Copy + Drop + Send + Sync {}

impl<R: Blocking + Threads + Clock + Print + Copy + Drop + Send + Sync> Runtime for R {}
