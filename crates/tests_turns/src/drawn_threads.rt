//! Lists that one thread makes.

mod channel;
mod event;
mod mutex;
mod one_value;
mod semaphore;
mod state;
mod timer;
