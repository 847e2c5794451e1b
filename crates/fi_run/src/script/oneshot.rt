//! Script lines of the two channels of one value. A receive's letter is `r`.
use super::row::{Numbers, Row};
use super::verb::Verb;
use super::{ScriptError, ScriptFutures, ScriptLines};
use crate::oneshot::OneshotCall;
use fi_channels::{ClonesValue, GivesValue, OneValueState, TakesValue};
use fi_parts::{Refused, Slot, Stage};

/// A way of giving the value whose channel has a name in scripts.
pub trait ScriptGiving {
    const NAME: &'static str;
}

impl ScriptGiving for TakesValue {
    const NAME: &'static str = "oneshot";
}

impl ScriptGiving for ClonesValue {
    const NAME: &'static str = "oneshot-broadcast";
}

impl<G: GivesValue<u64> + ScriptGiving> ScriptLines for OneValueState<u64, u64, G> {
    ghost use Rattle.std.specs.Prelude.{refl};
    ghost use Rattle.fi_run.specs.Rows.{oneshot_call};
    ghost use Rattle.fi_run.specs.Hidden.{oneshot_hides};

    ghost call_of = { oneshot_call };

    ghost says_woken = { λ waker. refl };

    ghost hides = { oneshot_hides };

    fn write_opening(script: &mut String, _opening: &()) -> Result<(), ScriptError> {
        script.push_str(G::NAME)?;
        Ok(())
    }

    fn call(row: Row) -> Option<OneshotCall<u64, u64>> {
        match row {
            Row::Make(Verb::Receive, Numbers::Absent) => Some(OneshotCall::Receive),
            Row::Poll(future, Numbers::One(waker)) => Some(OneshotCall::Poll(future.slot, waker)),
            Row::Cancel(future, Numbers::Absent) => Some(OneshotCall::Cancel(future.slot)),
            Row::Plain(Verb::TryReceive, Numbers::Absent) => Some(OneshotCall::TryReceive),
            Row::Plain(Verb::Send, Numbers::One(value)) => Some(OneshotCall::Send(value)),
            Row::Plain(Verb::Close, Numbers::Absent) => Some(OneshotCall::Close),
            _ => None,
        }
    }

    fn row(call: &OneshotCall<u64, u64>) -> Option<Row> {
        match *call {
            OneshotCall::Receive => Some(Row::Make(Verb::Receive, Numbers::Absent)),
            OneshotCall::Poll(slot, waker) => Some(Row::poll(Verb::Receive, slot, waker)),
            OneshotCall::Cancel(slot) => Some(Row::cancel(Verb::Receive, slot)),
            OneshotCall::TryReceive => Some(Row::Plain(Verb::TryReceive, Numbers::Absent)),
            OneshotCall::Send(value) => Some(Row::Plain(Verb::Send, Numbers::One(value))),
            OneshotCall::Close => Some(Row::Plain(Verb::Close, Numbers::Absent)),
            OneshotCall::NextWake => None,
        }
    }
}

impl<G: GivesValue<u64> + ScriptGiving> ScriptFutures for OneValueState<u64, u64, G> {
    const LETTERS: &'static str = "r";

    fn stage_of(&self, _letter: char, slot: Slot) -> Option<Stage> {
        self.stage(slot)
    }

    fn queue_of(&mut self, _letter: char, slots: &mut Vec<Slot>) -> Result<(), Refused> {
        self.queue(slots)
    }
}
