//! Script lines of the mutex. A future's letter is `l`.
use super::row::{Numbers, Row};
use super::verb::Verb;
use super::{ScriptError, ScriptFutures, ScriptLines};
use crate::mutex::MutexCall;
use fi_locks::MutexState;
use fi_parts::{Refused, Slot, Stage};

impl ScriptLines for MutexState<u64, u64> {
    ghost use Rattle.std.specs.Prelude.{refl};
    ghost use Rattle.fi_run.specs.Rows.{mutex_call};
    ghost use Rattle.fi_run.specs.Hidden.{mutex_hides};

    ghost call_of = { mutex_call };

    ghost says_woken = { λ waker. refl };

    ghost hides = { mutex_hides };

    fn write_opening(script: &mut String, opening: &(u64, bool)) -> Result<(), ScriptError> {
        let (value, is_fair) = *opening;
        let fairness = if is_fair { "fair" } else { "unfair" };
        write!(script, "mutex {fairness} {value}")?;
        Ok(())
    }

    fn call(row: Row) -> Option<MutexCall<u64, u64>> {
        match row {
            Row::Make(Verb::Lock, Numbers::Absent) => Some(MutexCall::Lock),
            Row::Poll(future, Numbers::One(waker)) => Some(MutexCall::Poll(future.slot, waker)),
            Row::Cancel(future, Numbers::Absent) => Some(MutexCall::Cancel(future.slot)),
            Row::Plain(Verb::TryLock, Numbers::Absent) => Some(MutexCall::TryLock),
            Row::Plain(Verb::Unlock, Numbers::One(value)) => Some(MutexCall::Unlock(value)),
            Row::Plain(Verb::IsLocked, Numbers::Absent) => Some(MutexCall::IsLocked),
            _ => None,
        }
    }

    fn row(call: &MutexCall<u64, u64>) -> Option<Row> {
        match *call {
            MutexCall::Lock => Some(Row::Make(Verb::Lock, Numbers::Absent)),
            MutexCall::Poll(slot, waker) => Some(Row::poll(Verb::Lock, slot, waker)),
            MutexCall::Cancel(slot) => Some(Row::cancel(Verb::Lock, slot)),
            MutexCall::TryLock => Some(Row::Plain(Verb::TryLock, Numbers::Absent)),
            MutexCall::Unlock(value) => Some(Row::Plain(Verb::Unlock, Numbers::One(value))),
            MutexCall::IsLocked => Some(Row::Plain(Verb::IsLocked, Numbers::Absent)),
            MutexCall::NextWake => None,
        }
    }
}

impl ScriptFutures for MutexState<u64, u64> {
    const LETTERS: &'static str = "l";

    fn stage_of(&self, _letter: char, slot: Slot) -> Option<Stage> {
        self.stage(slot)
    }

    fn queue_of(&mut self, _letter: char, slots: &mut Vec<Slot>) -> Result<(), Refused> {
        self.queue(slots)
    }
}
