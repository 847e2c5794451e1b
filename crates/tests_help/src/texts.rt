//! Whether values and errors have the texts that are wanted.
use std::alloc::Global;
use std::error::Error;
use std::fmt;

/// Whether this is the value's text by its `Debug`.
pub fn shows<D: fmt::Debug>(alloc: Global, value: &D, wanted: &str) -> bool {
    match format!(in alloc; "{value:?}") {
        Ok(text) => text.as_str() == wanted,
        Err(_) => false,
    }
}

/// Whether this is the error's text by its `Display`.
pub fn reads<E: Error>(alloc: Global, error: &E, wanted: &str) -> bool {
    match format!(in alloc; "{error}") {
        Ok(text) => text.as_str() == wanted,
        Err(_) => false,
    }
}
