//! Script lines of the worker pool. A wait's letter is `w`.
use crate::pool::PoolCall;
use crate::pool::state::PoolState;
use fi_parts::{Refused, Slot, Stage};
use fi_run::{MOST_PLACES, Numbers, Row, ScriptError, ScriptFutures, ScriptLines, Verb};

impl ScriptLines for PoolState<u64> {
    ghost use Rattle.std.specs.Prelude.{refl};
    ghost use Rattle.fi_desk.specs.PoolRows.{pool_call};
    ghost use Rattle.fi_desk.specs.PoolLaws.{pool_hides};

    ghost call_of = { pool_call };

    ghost says_woken = { λ waker. refl };

    ghost hides = { pool_hides };

    fn write_opening(script: &mut String, opening: &(usize, usize)) -> Result<(), ScriptError> {
        let (limit, capacity) = *opening;
        if capacity > MOST_PLACES {
            return Err(ScriptError::Opening);
        }
        write!(script, "pool {limit} {capacity}")?;
        Ok(())
    }

    fn call(row: Row) -> Option<PoolCall<u64>> {
        match row {
            Row::Make(Verb::Wait, Numbers::Absent) => Some(PoolCall::Wait),
            Row::Poll(future, Numbers::One(waker)) => Some(PoolCall::Poll(future.slot, waker)),
            Row::Cancel(future, Numbers::Absent) => Some(PoolCall::Cancel(future.slot)),
            Row::Plain(Verb::Submit, Numbers::One(job)) => Some(PoolCall::Submit(job)),
            Row::Plain(Verb::Start, Numbers::Absent) => Some(PoolCall::Start),
            Row::Plain(Verb::Finish, Numbers::Absent) => Some(PoolCall::Finish),
            Row::Plain(Verb::Shutdown, Numbers::Absent) => Some(PoolCall::Shutdown),
            _ => None,
        }
    }

    fn row(call: &PoolCall<u64>) -> Option<Row> {
        match *call {
            PoolCall::Wait => Some(Row::Make(Verb::Wait, Numbers::Absent)),
            PoolCall::Poll(slot, waker) => Some(Row::poll(Verb::Wait, slot, waker)),
            PoolCall::Cancel(slot) => Some(Row::cancel(Verb::Wait, slot)),
            PoolCall::Submit(job) => Some(Row::Plain(Verb::Submit, Numbers::One(job))),
            PoolCall::Start => Some(Row::Plain(Verb::Start, Numbers::Absent)),
            PoolCall::Finish => Some(Row::Plain(Verb::Finish, Numbers::Absent)),
            PoolCall::Shutdown => Some(Row::Plain(Verb::Shutdown, Numbers::Absent)),
            PoolCall::NextWake => None,
        }
    }
}

impl ScriptFutures for PoolState<u64> {
    const LETTERS: &'static str = "w";

    fn stage_of(&self, _letter: char, slot: Slot) -> Option<Stage> {
        self.stage(slot)
    }

    fn queue_of(&mut self, _letter: char, slots: &mut Vec<Slot>) -> Result<(), Refused> {
        self.queue(slots)
    }
}
