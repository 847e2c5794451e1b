//! The examples of public types, each with all that it names. Other examples are lines of the tests of their crates.

mod ends;
mod parts;
mod runs;
mod states;
mod threads;
