//! The futures of a mutex.
use crate::mutex::MutexState;
use crate::mutex::guard::LocalMutexGuard;
use fi_parts::{FutureKind, FuturesOf, LocalFuture, NotPolled, Slot};
use futures::task::Poll;

/// The kind of a mutex's futures: ready with the guard of the mutex, once it is free for them. If one that was told is cancelled, the
/// oldest queued one is told in its place.
pub struct MutexLock;

/// Locks a local mutex. `leave` or `cancel` spends it, and is lent the mutex; it cannot be dropped.
///
/// Keeps `GenericMutexLockFuture` of futures-intrusive's `sync`, and its `cancel` the drop of that.
pub type LocalMutexLockFuture = LocalFuture<MutexLock>;

impl FutureKind for MutexLock {
    fn name() -> &'static str {
        "GenericMutexLockFuture"
    }
}

impl<T: Drop, W: Drop> FuturesOf<MutexState<T, W>> for MutexLock {
    ghost use Rattle.std.specs.Prelude.{◌≡◌, is_some};
    ghost use Rattle.fi_parts.specs.Machine.{phase_at};
    ghost use Rattle.fi_parts.specs.Polled.{is_ready};
    ghost use Rattle.fi_parts.specs.Stays.{OthersStay};
    ghost use Rattle.fi_locks.specs.Mutex.{can_be_polled, Polls, Cancels, IsLockedIfReady};

    type Waker = W;

    type Moment = ();

    type Output = LocalMutexGuard<T>;

    type Left = ();

    ghost is_pollable = { λ mutex name. can_be_polled (phase_at mutex name) };

    ghost is_live = { λ mutex name. is_some (phase_at mutex name) };

    ghost polls = { λ old name at. Polls old name };

    ghost shows = { λ name answer mutex. IsLockedIfReady answer mutex };

    ghost is_end = { is_ready };

    ghost cancels = { λ old name left new. Cancels old name new };

    ghost keeps = { λ old new. new.own ≡ old.own };

    ghost nothing = { tt };

    ghost others_stay = { OthersStay can_be_polled };

    fn poll(
        mutex: &mut MutexState<T, W>,
        slot: Slot,
        _at: (),
        waker: W,
    ) -> Option<Poll<LocalMutexGuard<T>>> {
        let (answer, _leftover) = match mutex.poll(slot, waker, true) {
            Ok(polled) => polled,
            Err(NotPolled::NoFuture(_)) => return None,
            // It may wait.
            Err(NotPolled::WouldWait(_)) => unreachable!(),
        };
        match answer {
            Poll::Ready(value) => Some(Poll::Ready(LocalMutexGuard::of(value))),
            Poll::Pending => Some(Poll::Pending),
        }
    }

    fn ends(answer: &Poll<LocalMutexGuard<T>>) -> bool {
        answer.is_ready()
    }

    fn leave(mutex: &mut MutexState<T, W>, slot: Slot) {
        mutex.leave(slot);
    }
}
