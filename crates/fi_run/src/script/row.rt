//! What a line of a call says, whatever the primitive.
ghost use Rattle.std.specs.Prelude.{◌≡◌};
ghost use Rattle.fi_run.specs.Rows.{cancel_row, labelled_row, poll_row};

use super::verb::Verb;
use crate::answer::Answer;
use fi_parts::Slot;

/// The numbers that end a line, at most two.
#[derive(Clone, Copy, Debug, PartialEq, Eq)]
pub enum Numbers {
    Absent,
    One(u64),
    Two(u64, u64),
}

/// A future that a line made, and the verb that made it.
#[derive(Clone, Copy, Debug, PartialEq, Eq, Drop)]
pub struct MadeFuture {
    pub verb: Verb,
    pub slot: Slot,
}

/// What a line asks for, once its label was looked up.
#[derive(Clone, Copy, Debug, PartialEq, Eq)]
pub enum Row {
    /// A verb without a label.
    Plain(Verb, Numbers),
    /// A verb with a label that isn't in use.
    Make(Verb, Numbers),
    /// `poll` with a label that is in use.
    Poll(MadeFuture, Numbers),
    /// `cancel` with a label that is in use.
    Cancel(MadeFuture, Numbers),
}

impl Row {
    /// The row of a line with a label, which stands for this future if it is in use.
    #[inline(always)]
    pub fn labelled(verb: Verb, numbers: Numbers, future: Option<MadeFuture>) -> Option<Row>
        ensures { result ≡ labelled_row verb numbers future }
    {
        match (future, verb) {
            (None, _) => Some(Row::Make(verb, numbers)),
            (Some(future), Verb::Poll) => Some(Row::Poll(future, numbers)),
            (Some(future), Verb::Cancel) => Some(Row::Cancel(future, numbers)),
            (Some(_), _) => None,
        }
    }

    /// The poll of a future that this verb made.
    pub fn poll(verb: Verb, slot: Slot, waker: u64) -> Row
        ensures { result ≡ poll_row verb slot waker }
    {
        Row::Poll(MadeFuture { verb, slot }, Numbers::One(waker))
    }

    /// The cancel of a future that this verb made.
    pub fn cancel(verb: Verb, slot: Slot) -> Row
        ensures { result ≡ cancel_row verb slot }
    {
        Row::Cancel(MadeFuture { verb, slot }, Numbers::Absent)
    }

    /// The verb that its line begins with, and the numbers that end it.
    pub(crate) fn words(self) -> (Verb, Numbers) {
        match self {
            Row::Plain(verb, numbers) | Row::Make(verb, numbers) => (verb, numbers),
            Row::Poll(_, numbers) => (Verb::Poll, numbers),
            Row::Cancel(_, numbers) => (Verb::Cancel, numbers),
        }
    }

    /// The future that its line is about, where its call was answered so: none if the line has no label, or the future could not be made.
    pub(crate) fn future(self, answer: &Answer<u64, u64>) -> Option<MadeFuture> {
        match (self, *answer) {
            (Row::Poll(future, _) | Row::Cancel(future, _), _) => Some(future),
            (Row::Make(verb, _), Answer::Made(slot)) => Some(MadeFuture { verb, slot }),
            _ => None,
        }
    }
}
