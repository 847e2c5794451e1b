//! Script lines of the timer. A future's letter is `t`.
ghost use Rattle.std.specs.Prelude.{◌≡◌, ◌*◌};
ghost use Rattle.std.specs.Duration.{as_nanos};
ghost use Rattle.fi_run.specs.Rows.{of_millis};

use super::row::{MadeFuture, Numbers, Row};
use super::verb::Verb;
use super::{ScriptError, ScriptFutures, ScriptLines};
use crate::timer::TimerCall;
use fi_locks::TimerState;
use fi_parts::{Refused, Slot, Stage, whole_millis};
use std::time::Duration;

impl ScriptLines for TimerState<u64> {
    ghost use Rattle.std.specs.Prelude.{refl};
    ghost use Rattle.fi_run.specs.Rows.{timer_call, in_whole_millis};
    ghost use Rattle.fi_run.specs.Hidden.{timer_hides};

    ghost call_of = { timer_call };

    ghost as_written = { in_whole_millis };

    ghost says_woken = { λ waker. refl };

    ghost hides = { timer_hides };

    fn write_opening(script: &mut String, _opening: &()) -> Result<(), ScriptError> {
        script.push_str("timer")?;
        Ok(())
    }

    fn call(row: Row) -> Option<TimerCall<u64>> {
        match row {
            Row::Make(Verb::Deadline, Numbers::One(expiry)) => Some(TimerCall::Deadline(expiry)),
            Row::Make(Verb::Delay, Numbers::Two(now, millis)) => {
                Some(TimerCall::Delay(now, delay_of(millis)))
            }
            Row::Poll(future, Numbers::Two(now, waker)) => Some(TimerCall::Poll(
                future.slot,
                now,
                waker,
            )),
            Row::Cancel(future, Numbers::Absent) => Some(TimerCall::Cancel(future.slot)),
            Row::Plain(Verb::Check, Numbers::One(now)) => Some(TimerCall::Check(now)),
            Row::Plain(Verb::Next, Numbers::Absent) => Some(TimerCall::Next),
            _ => None,
        }
    }

    /// A delay is written in whole milliseconds, which is all of it that counts.
    fn row(call: &TimerCall<u64>) -> Option<Row> {
        match *call {
            TimerCall::Deadline(expiry) => Some(Row::Make(Verb::Deadline, Numbers::One(expiry))),
            TimerCall::Delay(now, delay) => Some(Row::Make(
                Verb::Delay,
                Numbers::Two(now, whole_millis(delay)),
            )),
            TimerCall::Poll(slot, now, waker) => Some(Row::Poll(
                MadeFuture {
                    verb: Verb::Deadline,
                    slot,
                },
                Numbers::Two(now, waker),
            )),
            TimerCall::Cancel(slot) => Some(Row::cancel(Verb::Deadline, slot)),
            TimerCall::Check(now) => Some(Row::Plain(Verb::Check, Numbers::One(now))),
            TimerCall::Next => Some(Row::Plain(Verb::Next, Numbers::Absent)),
            TimerCall::NextWake => None,
        }
    }
}

impl ScriptFutures for TimerState<u64> {
    const LETTERS: &'static str = "t";

    fn stage_of(&self, _letter: char, slot: Slot) -> Option<Stage> {
        self.stage(slot)
    }

    /// A timer has no queue.
    fn queue_of(&mut self, _letter: char, _slots: &mut Vec<Slot>) -> Result<(), Refused> {
        Ok(())
    }

    /// Its expiry.
    fn rank_of(&self, _letter: char, slot: Slot) -> u64 {
        self.expiry(slot).unwrap_or(0)
    }
}

/// A delay of this many milliseconds.
fn delay_of(millis: u64) -> Duration
    ensures value { result ≡ of_millis millis }
    ensures length { as_nanos result ≡ millis * 1_000_000 }
{
    Duration::from_millis(millis)
}
