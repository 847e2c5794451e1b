//! The lines of scripts, which the program `schedule` answers: what each line of a call says.
ghost use Rattle.std.specs.Prelude.{◌≡◌, ◌≢◌, ◌⊎◌, ℕ, IfErr, MatchOption, Option, Some};
ghost use Rattle.fi_run.specs.Script.{is_left_out};
ghost use Rattle.fi_run.specs.declared.answer.Answer.TheVariants.{Woken};
ghost use Rattle.fi_run.specs.declared.script.row.Row.{Row};

use crate::answer::Answer;
use crate::runs::Primitive;
use crate::script::row::{Numbers, Row};
use fi_parts::{Fault, Refused, Slot, Stage};
use std::alloc::AllocError;
use std::error::Error;
use std::fmt;
use std::io::{self, ErrorKind};

pub(crate) mod channel;
mod event;
mod mutex;
pub(crate) mod oneshot;
pub(crate) mod row;
mod semaphore;
mod state;
mod timer;
pub(crate) mod verb;

/// The greatest capacity of a buffer over the heap, or of a pool's queue, that a script names.
pub const MOST_PLACES: usize = 65536;

/// Why a history could not be written as a script.
///
/// # Examples
///
/// ```
/// use futures_intrusive::run::{Journal, PoolState, ScriptError};
///
/// let journal = Journal::<PoolState<u64>>::new(rt.alloc(), (1, 65_537))?; // a script's queue has 65,536 places at most
/// let mut script = String::new(rt.alloc());
/// let refused = journal.settle().write_script(&mut script).err();
/// assert!(rt; refused == Some(ScriptError::Opening) && script.is_empty());
/// ```
#[derive(Clone, Copy, Debug, PartialEq, Eq, Drop)]
pub enum ScriptError {
    /// There was no memory for the text.
    NoMemory,
    /// No first line of a script opens the primitive so.
    Opening,
    /// The entry with this number takes out a waker, and the next entry is no call for one more. A script takes out all wakers or none.
    Wakers(usize),
}

impl fmt::Display for ScriptError {
    fn fmt<W: fmt::Write>(&self, f: &mut fmt::Formatter<W>) -> fmt::Result {
        match self {
            ScriptError::NoMemory => f.pad("out of memory"),
            ScriptError::Opening => f.pad("no script opens the primitive so"),
            ScriptError::Wakers(number) => write!(
                f,
                "entry {number} takes some wakers and may leave others"
            ),
        }
    }
}

impl Error for ScriptError {}

/// So that `?` serves where an `io::Error` is answered: want of memory stays `OutOfMemory`, all else is `InvalidData`.
impl From<ScriptError> for io::Error {
    fn from(error: ScriptError) -> io::Error {
        io::Error::from(match error {
            ScriptError::NoMemory => ErrorKind::OutOfMemory,
            ScriptError::Opening | ScriptError::Wakers(_) => ErrorKind::InvalidData,
        })
    }
}

impl From<AllocError> for ScriptError {
    ghost use Rattle.std.specs.Prelude.{◌≡◌};
    ghost use Rattle.fi_run.specs.declared.script.ScriptError.TheVariants.{NoMemory};

    ghost from_gives = { λ _ error. error ≡ NoMemory };

    fn from(_error: AllocError) -> ScriptError {
        ScriptError::NoMemory
    }
}

impl From<Refused> for ScriptError {
    ghost use Rattle.std.specs.Prelude.{◌≡◌};
    ghost use Rattle.fi_run.specs.declared.script.ScriptError.TheVariants.{NoMemory};

    ghost from_gives = { λ _ error. error ≡ NoMemory };

    fn from(_refused: Refused) -> ScriptError {
        ScriptError::NoMemory
    }
}

/// A primitive whose calls have lines in scripts: docs/SCRIPTS.md.
///
/// What a line says of a call is a row: a verb, a future if it is about one, and numbers. A future's label is a letter and its slot.
///
/// # Examples
///
/// ```
/// use futures_intrusive::run::{EventCall, Journal};
/// use futures_intrusive::sync::EventState;
///
/// let mut journal = Journal::<EventState<u64>>::new(rt.alloc(), false)?;
/// journal.record(0, EventCall::Set)?;
/// let mut script = String::new(rt.alloc());
/// journal.settle().write_script(&mut script)?;
/// assert!(rt; script.as_str() == "event reset\nhold set\n");
/// ```
pub trait ScriptLines: Primitive<Answer = Answer<u64, u64>, Waker = u64> {
    /// The call that a row asks for, if it asks for one.
    ghost call_of: { Row → Option Self.Call };

    /// A call as its row has it: a delay in whole milliseconds, and any other call as it is.
    ghost as_written: { Self.Call → Self.Call } = { λ call. call };

    /// Writes the first line but for its end: the primitive's name, and the words of the opening. Refused with `Opening` if no
    /// script names the opening, and with `NoMemory`.
    fn write_opening(script: &mut String, opening: &Self::Opening) -> Result<(), ScriptError>
        ensures unwritten { IfErr result (λ error. error ≢ ScriptError.NoMemory → script.new ≡ script.old) }
        ensures fault { IfErr result (λ error. (error ≡ ScriptError.NoMemory) ⊎ (error ≡ ScriptError.Opening)) };

    /// The call that a row asks for; `None` if it asks for none of this primitive's.
    fn call(row: Row) -> Option<Self::Call>
        ensures { result ≡ call_of row };

    /// The row of a call, which asks for that call. Only the call for the oldest waker has none.
    fn row(call: &Self::Call) -> Option<Row>
        ensures { MatchOption result (call.now ≡ Self.take_waker) (λ row. call_of row ≡ Some (as_written call.now)) };

    /// A waker is handed out in this form.
    ghost says_woken: { (waker : Option ℕ) → Self.hands_out waker ≡ Woken waker };

    /// No line asks for the oldest waker.
    ghost hides: { (row : Row) → call_of row ≢ Some Self.take_waker };
}

/// A primitive whose futures can be told apart by their labels: which future a call is about, how far it is, and who waits.
///
/// The letter of a label says what a future is; only a channel's futures have more than one.
///
/// # Examples
///
/// ```
/// use futures_intrusive::Stage;
/// use futures_intrusive::run::{Answer, EventCall, Primitive, ScriptFutures};
/// use futures_intrusive::sync::EventState;
///
/// let mut event: EventState<u64> = EventState::open(rt.alloc(), false)?;
/// let Answer::Made(wait) = event.apply(EventCall::Wait) else {
///     return Err("no memory".into());
/// };
/// // ..
/// let future = EventState::<u64>::future_of(&EventCall::Cancel(wait), &Answer::Done);
/// assert!(rt; future == Some(('w', wait)) && event.stage_of('w', wait) == Some(Stage::Fresh));
/// ```
pub trait ScriptFutures: ScriptLines {
    /// The letters of its futures.
    const LETTERS: &'static str;

    /// The letter and the slot of the future that a call made, polled or cancelled, if it is about one.
    fn future_of(call: &Self::Call, answer: &Answer<u64, u64>) -> Option<(char, Slot)> {
        let future = Self::row(call)?.future(answer)?;
        Some((future.verb.letter(), future.slot))
    }

    /// How far a future is; None if none lives under this label.
    fn stage_of(&self, letter: char, slot: Slot) -> Option<Stage>;

    /// Appends the slots of those with this letter that stand in a queue, the oldest first. Where there was no memory for all, a
    /// beginning was appended.
    fn queue_of(&mut self, letter: char, slots: &mut Vec<Slot>) -> Result<(), Refused>;

    /// The futures of a primitive without a queue wait in the order of these numbers.
    fn rank_of(&self, _letter: char, _slot: Slot) -> u64 {
        0
    }
}

/// Whether an entry of this answer changed nothing and has no line: a future that could not be made, or isn't there to be called.
pub fn is_left_out(answer: &Answer<u64, u64>) -> bool
    ensures { result ≡ is_left_out answer.now }
{
    matches!(
        answer,
        Answer::Refused(Fault::NoMemory { .. } | Fault::NoSlot)
            | Answer::Back(_, Fault::NoMemory { .. })
    )
}

/// Writes the line of a call that was answered so, but for its end. A call for the oldest waker has none, nor has one whose future could
/// not be made.
pub fn write_call<P: ScriptLines>(
    script: &mut String,
    call: &P::Call,
    answer: &Answer<u64, u64>,
) -> Result<(), AllocError> {
    let Some(row) = P::row(call) else {
        return Ok(());
    };
    let (verb, numbers) = row.words();
    let future = row.future(answer);
    if matches!(row, Row::Make(..)) && future.is_none() {
        return Ok(());
    }
    script.push_str(verb.text())?;
    if let Some(future) = future {
        let (letter, Slot(slot)) = (future.verb.letter(), future.slot);
        write!(script, " {letter}{slot}")?;
    }
    match numbers {
        Numbers::Absent => Ok(()),
        Numbers::One(number) => write!(script, " {number}"),
        Numbers::Two(first, second) => write!(script, " {first} {second}"),
    }
}
