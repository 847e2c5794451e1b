//! Why a script was not answered to its end.
ghost use Rattle.std.specs.Prelude.{◌≡◌, ◌++◌, codes};
ghost use Rattle.std.specs.Fmt.{decimal};
ghost use Rattle.fi_scripts.specs.Begun.{Begins, fault_line};
ghost use Rattle.fi_scripts.specs.Statuses.{status_of};

use crate::output::write_whole;
use fi_parts::{Fault, Refused};
use itoa::Buffer;
use std::io::Write;

/// Why a script was not answered to its end.
#[derive(Clone, Copy, Debug, PartialEq, Eq)]
pub enum ScriptFault {
    /// The input could not be read.
    Read,
    /// The output could not be written.
    Write,
    /// The line of this number, from 1, is not one of the script's grammar.
    BadLine(usize),
    /// Memory was refused.
    NoMemory,
}

/// So that `?` serves where a `ScriptFault` is answered: `NoMemory`.
impl From<Refused> for ScriptFault {
    ghost use Rattle.fi_scripts.specs.declared.fault.ScriptFault.TheVariants.{NoMemory};

    ghost from_gives = { λ _ fault. fault ≡ NoMemory };

    fn from(_refused: Refused) -> ScriptFault {
        ScriptFault::NoMemory
    }
}

impl ScriptFault {
    ghost use Rattle.fi_parts.specs.declared.errors.Fault.TheVariants as faults;
    ghost use Rattle.fi_scripts.specs.declared.fault.ScriptFault.TheVariants.{NoMemory};

    /// What ends a script whose call was refused memory.
    pub fn of(fault: Fault) -> Self
        requires { fault ≡ faults.NoMemory }
        ensures { result ≡ NoMemory }
    {
        match Refused::of(fault) {
            Some(refused) => ScriptFault::from(refused),
            // The fault is a refusal, as the call requires.
            None => unreachable!(),
        }
    }
}

/// The status that a program ends with.
pub fn status(fault: &ScriptFault) -> u8
    ensures { result ≡ status_of fault.now }
{
    match fault {
        ScriptFault::Read | ScriptFault::Write => 1,
        ScriptFault::BadLine(_) => 2,
        ScriptFault::NoMemory => 3,
    }
}

/// Writes the fault's line to a program's standard error, and answers the status that the program ends with,
/// also where that line can't be written.
pub fn report<W: Write>(fault: &ScriptFault, writer: &mut W) -> u8
    ensures status { result ≡ status_of fault.now }
    ensures line { Begins (W.contents writer.old) (W.contents writer.new) (fault_line fault.now) }
{
    let _ = match fault {
        ScriptFault::Read => write_whole(writer, b"schedule: read failed\n"),
        ScriptFault::Write => write_whole(writer, b"schedule: write failed\n"),
        ScriptFault::BadLine(line) => write_bad_line(*line, writer),
        ScriptFault::NoMemory => write_whole(writer, b"schedule: no memory\n"),
    };
    status(fault)
}

/// Writes the line that tells of a bad line.
fn write_bad_line<W: Write>(line: usize, writer: &mut W) -> Result<(), ScriptFault>
    ensures { Begins (W.contents writer.old) (W.contents writer.new)
        (codes "schedule: line " ++ decimal line ++ codes " is bad\n") }
{
    write_whole(writer, b"schedule: line ")?;
    let mut digits = Buffer::new();
    write_whole(writer, digits.format(line).as_bytes())?;
    write_whole(writer, b" is bad\n")
}
