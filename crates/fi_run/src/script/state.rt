//! Script lines of the state broadcast. A receive's letter is `r`.
use super::row::{Numbers, Row};
use super::verb::Verb;
use super::{ScriptError, ScriptFutures, ScriptLines};
use crate::state::StateCall;
use fi_channels::StateBroadcastState;
use fi_parts::{Refused, Slot, Stage, StateId};

impl ScriptLines for StateBroadcastState<u64, u64> {
    ghost use Rattle.std.specs.Prelude.{refl};
    ghost use Rattle.fi_run.specs.Rows.{state_call};
    ghost use Rattle.fi_run.specs.Hidden.{state_hides};

    ghost call_of = { state_call };

    ghost says_woken = { λ waker. refl };

    ghost hides = { state_hides };

    fn write_opening(script: &mut String, _opening: &()) -> Result<(), ScriptError> {
        script.push_str("state-broadcast")?;
        Ok(())
    }

    fn call(row: Row) -> Option<StateCall<u64, u64>> {
        match row {
            Row::Make(Verb::Receive, Numbers::One(seen)) => {
                Some(StateCall::Receive(StateId::from_value(seen)))
            }
            Row::Poll(future, Numbers::One(waker)) => Some(StateCall::Poll(future.slot, waker)),
            Row::Cancel(future, Numbers::Absent) => Some(StateCall::Cancel(future.slot)),
            Row::Plain(Verb::TryReceive, Numbers::One(seen)) => {
                Some(StateCall::TryReceive(StateId::from_value(seen)))
            }
            Row::Plain(Verb::Send, Numbers::One(value)) => Some(StateCall::Send(value)),
            Row::Plain(Verb::Close, Numbers::Absent) => Some(StateCall::Close),
            _ => None,
        }
    }

    fn row(call: &StateCall<u64, u64>) -> Option<Row> {
        match *call {
            StateCall::Receive(seen) => Some(Row::Make(Verb::Receive, Numbers::One(seen.value()))),
            StateCall::Poll(slot, waker) => Some(Row::poll(Verb::Receive, slot, waker)),
            StateCall::Cancel(slot) => Some(Row::cancel(Verb::Receive, slot)),
            StateCall::TryReceive(seen) => {
                Some(Row::Plain(Verb::TryReceive, Numbers::One(seen.value())))
            }
            StateCall::Send(value) => Some(Row::Plain(Verb::Send, Numbers::One(value))),
            StateCall::Close => Some(Row::Plain(Verb::Close, Numbers::Absent)),
            StateCall::NextWake => None,
        }
    }
}

impl ScriptFutures for StateBroadcastState<u64, u64> {
    const LETTERS: &'static str = "r";

    fn stage_of(&self, _letter: char, slot: Slot) -> Option<Stage> {
        self.stage(slot)
    }

    fn queue_of(&mut self, _letter: char, slots: &mut Vec<Slot>) -> Result<(), Refused> {
        self.queue(slots)
    }
}
