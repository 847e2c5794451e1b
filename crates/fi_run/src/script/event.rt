//! Script lines of the event. A wait's letter is `w`.
use super::row::{Numbers, Row};
use super::verb::Verb;
use super::{ScriptError, ScriptFutures, ScriptLines};
use crate::event::EventCall;
use fi_channels::EventState;
use fi_parts::{Refused, Slot, Stage};

impl ScriptLines for EventState<u64> {
    ghost use Rattle.std.specs.Prelude.{refl};
    ghost use Rattle.fi_run.specs.Rows.{event_call};
    ghost use Rattle.fi_run.specs.Hidden.{event_hides};

    ghost call_of = { event_call };

    ghost says_woken = { λ waker. refl };

    ghost hides = { event_hides };

    fn write_opening(script: &mut String, opening: &bool) -> Result<(), ScriptError> {
        script.push_str(if *opening { "event set" } else { "event reset" })?;
        Ok(())
    }

    fn call(row: Row) -> Option<EventCall<u64>> {
        match row {
            Row::Make(Verb::Wait, Numbers::Absent) => Some(EventCall::Wait),
            Row::Poll(future, Numbers::One(waker)) => Some(EventCall::Poll(future.slot, waker)),
            Row::Cancel(future, Numbers::Absent) => Some(EventCall::Cancel(future.slot)),
            Row::Plain(Verb::Set, Numbers::Absent) => Some(EventCall::Set),
            Row::Plain(Verb::Reset, Numbers::Absent) => Some(EventCall::Reset),
            Row::Plain(Verb::IsSet, Numbers::Absent) => Some(EventCall::IsSet),
            _ => None,
        }
    }

    fn row(call: &EventCall<u64>) -> Option<Row> {
        match *call {
            EventCall::Wait => Some(Row::Make(Verb::Wait, Numbers::Absent)),
            EventCall::Poll(slot, waker) => Some(Row::poll(Verb::Wait, slot, waker)),
            EventCall::Cancel(slot) => Some(Row::cancel(Verb::Wait, slot)),
            EventCall::Set => Some(Row::Plain(Verb::Set, Numbers::Absent)),
            EventCall::Reset => Some(Row::Plain(Verb::Reset, Numbers::Absent)),
            EventCall::IsSet => Some(Row::Plain(Verb::IsSet, Numbers::Absent)),
            EventCall::NextWake => None,
        }
    }
}

impl ScriptFutures for EventState<u64> {
    const LETTERS: &'static str = "w";

    fn stage_of(&self, _letter: char, slot: Slot) -> Option<Stage> {
        self.stage(slot)
    }

    fn queue_of(&mut self, _letter: char, slots: &mut Vec<Slot>) -> Result<(), Refused> {
        self.queue(slots)
    }
}
