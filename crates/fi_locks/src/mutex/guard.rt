//! What a local mutex gives to whoever locks it.
ghost use Rattle.std.specs.Prelude.{◌≡◌, false, Ok};
ghost use Rattle.std.specs.Borrow.{Lends, sem};
ghost use Rattle.fi_parts.specs.Stays.{AllStay};
ghost use Rattle.fi_locks.specs.Mutex.{can_be_polled, is_free, Unlocks};

use crate::mutex::LocalMutex;
use std::fmt;
use std::marker::Model;
use std::ops::{Deref, DerefMut};

/// Holds a local mutex, with its value. `unlock` spends it, and is lent the mutex; it cannot be dropped.
///
/// Keeps `GenericMutexGuard` of futures-intrusive's `sync`.
pub struct LocalMutexGuard<T> {
    value: T,
}

impl<T> fmt::Debug for LocalMutexGuard<T> {
    fn fmt<F: fmt::Write>(&self, f: &mut fmt::Formatter<F>) -> fmt::Result {
        f.debug_struct("GenericMutexGuard").finish()
    }
}

impl<T> Model for LocalMutexGuard<T> {
    ghost Value = { T };

    ghost coded = { T.code };

    ghost view = { λ guard. guard.value };
}

impl<T> LocalMutexGuard<T> {
    // The guard of a mutex that was just locked, with its value.
    pub(crate) fn of(value: T) -> Self
        ensures { result ≡ value }
    {
        LocalMutexGuard { value }
    }
}

impl<T: Drop> LocalMutexGuard<T> {
    /// Puts the value back and unlocks the mutex, whose oldest queued future is told and named to be woken.
    ///
    /// The caller lends the guard's own mutex, which is locked. Keeps the drop of `GenericMutexGuard`.
    pub fn unlock<W: Drop>(self, mutex: &mut LocalMutex<T, W>)
        requires { is_free mutex.old ≡ false }
        ensures unlocked { Unlocks mutex.old self (Ok tt) mutex.new }
        ensures all_stay { AllStay can_be_polled mutex.old mutex.new }
    {
        let LocalMutexGuard { value } = self;
        match mutex.unlock(value) {
            Ok(()) => {}
            // A guard has the value, so the mutex has none.
            Err(_value) => unreachable!(),
        }
    }

    /// Unlocks the mutex as `unlock` does, if it is locked. Else the value comes back, and nothing has changed: so it asks its caller
    /// for nothing.
    pub fn unlock_checked<W: Drop>(self, mutex: &mut LocalMutex<T, W>) -> Result<(), T>
        ensures unlocked { Unlocks mutex.old self result mutex.new }
        ensures all_stay { AllStay can_be_polled mutex.old mutex.new }
    {
        let LocalMutexGuard { value } = self;
        mutex.unlock(value)
    }
}

impl<T> Deref for LocalMutexGuard<T> {
    type Target = T;

    ghost deref_gives = { λ guard value. value ≡ guard };

    /// The value of the mutex.
    fn deref(&self) -> &T {
        &self.value
    }
}

impl<T> DerefMut for LocalMutexGuard<T> {
    ghost use Rattle.fi_locks.specs.contracts.mutex.guard.LocalMutexGuard.{the_row};

    ghost deref_mut_gives = { λ guard value. value ≡ guard };

    /// The value of the mutex, to be changed: what is written there is what `unlock` puts back.
    fn deref_mut(&mut self) -> &mut T
        ensures* writes_back { sem 𝓛 (Lends (the_row T.row) T.row self.entry result (λ value. value)) }
        ensures shows { result.now ≡ self.old }
    {
        &mut self.value
    }
}
