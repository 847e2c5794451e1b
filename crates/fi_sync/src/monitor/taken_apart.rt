//! The value of a mutex whose owner needs no lock for it.

use crate::monitor::Monitor;
use crate::mutex::counted::CountedMutex;
use std::sync::ledger::Ledger;

impl<T, R, L: Ledger> Monitor<CountedMutex<T, L>, R> {
    /// Takes the value out of a mutex that is used no more, as `Guarded::into_inner`.
    pub fn into_inner(self) -> Option<T>
    where
        R: Drop,
    {
        let Monitor { state, .. } = self;
        state.into_inner()
    }

    /// Lends the value out, to be changed in place, as `Guarded::get_mut`.
    pub fn get_mut(&mut self) -> Option<&mut T> {
        self.state.get_mut()
    }
}
