//! Script lines of the semaphore. A future's letter is `a`.
use super::row::{Numbers, Row};
use super::verb::Verb;
use super::{ScriptError, ScriptFutures, ScriptLines};
use crate::semaphore::SemaphoreCall;
use fi_locks::SemaphoreState;
use fi_parts::{Refused, Slot, Stage};

impl ScriptLines for SemaphoreState<u64> {
    ghost use Rattle.std.specs.Prelude.{refl};
    ghost use Rattle.fi_run.specs.Rows.{semaphore_call};
    ghost use Rattle.fi_run.specs.Hidden.{semaphore_hides};

    ghost call_of = { semaphore_call };

    ghost says_woken = { λ waker. refl };

    ghost hides = { semaphore_hides };

    fn write_opening(script: &mut String, opening: &(usize, bool)) -> Result<(), ScriptError> {
        let (permits, is_fair) = *opening;
        let fairness = if is_fair { "fair" } else { "unfair" };
        write!(script, "semaphore {fairness} {permits}")?;
        Ok(())
    }

    fn call(row: Row) -> Option<SemaphoreCall<u64>> {
        match row {
            Row::Make(Verb::Acquire, Numbers::One(need)) => {
                Some(SemaphoreCall::Acquire(need as usize))
            }
            Row::Poll(future, Numbers::One(waker)) => Some(SemaphoreCall::Poll(future.slot, waker)),
            Row::Cancel(future, Numbers::Absent) => Some(SemaphoreCall::Cancel(future.slot)),
            Row::Plain(Verb::TryAcquire, Numbers::One(n)) => {
                Some(SemaphoreCall::TryAcquire(n as usize))
            }
            Row::Plain(Verb::Release, Numbers::One(n)) => Some(SemaphoreCall::Release(n as usize)),
            Row::Plain(Verb::GiveBack, Numbers::One(n)) => {
                Some(SemaphoreCall::GiveBack(n as usize))
            }
            Row::Plain(Verb::Disarm, Numbers::One(n)) => Some(SemaphoreCall::Disarm(n as usize)),
            Row::Plain(Verb::Permits, Numbers::Absent) => Some(SemaphoreCall::Permits),
            Row::Plain(Verb::Held, Numbers::Absent) => Some(SemaphoreCall::Held),
            _ => None,
        }
    }

    fn row(call: &SemaphoreCall<u64>) -> Option<Row> {
        match *call {
            SemaphoreCall::Acquire(n) => Some(Row::Make(Verb::Acquire, Numbers::One(n as u64))),
            SemaphoreCall::Poll(slot, waker) => Some(Row::poll(Verb::Acquire, slot, waker)),
            SemaphoreCall::Cancel(slot) => Some(Row::cancel(Verb::Acquire, slot)),
            SemaphoreCall::TryAcquire(n) => {
                Some(Row::Plain(Verb::TryAcquire, Numbers::One(n as u64)))
            }
            SemaphoreCall::Release(n) => Some(Row::Plain(Verb::Release, Numbers::One(n as u64))),
            SemaphoreCall::GiveBack(n) => Some(Row::Plain(Verb::GiveBack, Numbers::One(n as u64))),
            SemaphoreCall::Disarm(n) => Some(Row::Plain(Verb::Disarm, Numbers::One(n as u64))),
            SemaphoreCall::Permits => Some(Row::Plain(Verb::Permits, Numbers::Absent)),
            SemaphoreCall::Held => Some(Row::Plain(Verb::Held, Numbers::Absent)),
            SemaphoreCall::NextWake => None,
        }
    }
}

impl ScriptFutures for SemaphoreState<u64> {
    const LETTERS: &'static str = "a";

    fn stage_of(&self, _letter: char, slot: Slot) -> Option<Stage> {
        self.stage(slot)
    }

    fn queue_of(&mut self, _letter: char, slots: &mut Vec<Slot>) -> Result<(), Refused> {
        self.queue(slots)
    }
}
