//! The futures of a timer.
use crate::timer::TimerState;
use fi_parts::{FutureKind, FuturesOf, LocalFuture, NotPolled, Slot};
use futures::task::Poll;

/// The kind of a timer's futures: ready once a check has told them, or at a first poll that is not before their expiry. A poll says
/// which moment it is.
pub struct TimerWait;

/// Waits for a moment of a local timer. `leave` or `cancel` spends it, and is lent the timer; it cannot be dropped.
///
/// Keeps `LocalTimerFuture` of futures-intrusive's `timer`.
pub type LocalTimerFuture = LocalFuture<TimerWait>;

impl FutureKind for TimerWait {
    fn name() -> &'static str {
        "LocalTimerFuture"
    }
}

impl<W: Drop> FuturesOf<TimerState<W>> for TimerWait {
    ghost use Rattle.std.specs.Prelude.{is_some};
    ghost use Rattle.fi_parts.specs.Machine.{phase_at};
    ghost use Rattle.fi_parts.specs.Polled.{is_ready};
    ghost use Rattle.fi_parts.specs.Stays.{OthersStay};
    ghost use Rattle.fi_locks.specs.Timer.{can_be_polled, Polls, Cancels};

    type Waker = W;

    // The time.
    type Moment = u64;

    type Output = ();

    type Left = ();

    ghost is_pollable = { λ timer name. can_be_polled (phase_at timer name) };

    ghost is_live = { λ timer name. is_some (phase_at timer name) };

    ghost polls = { Polls };

    ghost is_end = { is_ready };

    ghost cancels = { λ old name left new. Cancels old name new };

    ghost nothing = { tt };

    ghost others_stay = { OthersStay can_be_polled };

    fn poll(timer: &mut TimerState<W>, slot: Slot, now: u64, waker: W) -> Option<Poll<()>> {
        match timer.poll(slot, now, waker, true) {
            Ok((answer, _leftover)) => Some(answer),
            Err(NotPolled::NoFuture(_)) => None,
            // It may wait.
            Err(NotPolled::WouldWait(_)) => unreachable!(),
        }
    }

    fn ends(answer: &Poll<()>) -> bool {
        answer.is_ready()
    }

    fn leave(timer: &mut TimerState<W>, slot: Slot) {
        timer.leave(slot);
    }
}
