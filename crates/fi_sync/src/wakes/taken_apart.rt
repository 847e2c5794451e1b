//! The value of a mutex whose owner needs no lock for it: nobody else reaches the mutex then, so nobody waits to be woken.

use crate::mutex::counted::CountedMutex;
use crate::wakes::Guarded;
use std::sync::ledger::Ledger;

impl<T, L: Ledger> Guarded<CountedMutex<T, L>> {
    /// Takes the value out of a mutex that is used no more. None if a guard of it was never dropped.
    pub fn into_inner(self) -> Option<T> {
        let Guarded { state } = self;
        state.into_inner().into_inner()
    }

    /// Lends the value out, to be changed in place. None if a guard of it was never dropped.
    pub fn get_mut(&mut self) -> Option<&mut T> {
        self.state.get_mut().get_mut()
    }
}
