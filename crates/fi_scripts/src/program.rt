//! The program's run, for any arguments, reader and writers.
ghost use Rattle.std.specs.Prelude.{◌≡◌, ◌≤◌, IsOkAnd};
ghost use Rattle.std.specs.Vec.Iter.{into_iter_len};
ghost use Rattle.fi_scripts.specs.Ended.{EndsScript, EndsAtOnce, RefusesArguments};
ghost use Rattle.fi_scripts.specs.Script.{AnswersScript, RefusesScript, StopsScript, Turns};

use crate::engine::run_script;
use crate::fault::{ScriptFault, report};
use crate::output::write_whole;
use std::alloc::Global;
use std::env::Args;
use std::io;
use std::io::{ErrorKind, Read, Write};

/// The status of a run that was given an argument.
const BAD_ARGUMENTS: u8 = 2;

/// Answers the script that the reader gives, if the arguments are the program's name alone, and answers the status that the
/// program ends with: 0 if all lines were answered, 1 if a read or a write failed, 2 if an argument was given or a line is
/// bad, 3 if memory was refused. What the status means is written to `errors`, also if that fails.
pub fn run_program<R: Read, W: Write, E: Write>(
    alloc: Global,
    arguments: io::Result<Args>,
    reader: &mut R,
    writer: &mut W,
    errors: &mut E,
) -> u8
    ensures script { IsOkAnd arguments (λ given. into_iter_len given ≤ 1)
        → EndsScript result (writer.new ≡ writer.old)
        (Turns (R.remaining reader.old) (W.contents writer.old) (W.contents writer.new) AnswersScript)
        (λ number. Turns (R.remaining reader.old) (W.contents writer.old) (W.contents writer.new) (RefusesScript number))
        (Turns (R.remaining reader.old) (W.contents writer.old) (W.contents writer.new) StopsScript)
        (E.contents errors.old) (E.contents errors.new) }
    ensures arguments { (¬ IsOkAnd arguments (λ given. into_iter_len given ≤ 1))
        → (reader.new ≡ reader.old) × (writer.new ≡ writer.old)
        × EndsAtOnce result (E.contents errors.old) (E.contents errors.new) }
    ensures given { IsOkAnd arguments (λ given. 2 ≤ into_iter_len given)
        → RefusesArguments result (E.contents errors.old) (E.contents errors.new) }
{
    match arguments {
        Ok(arguments) if arguments.len() <= 1 => match run_script(alloc, reader, writer) {
            Ok(()) => 0,
            Err(fault) => report(&fault, errors),
        },
        Err(error) if error.kind() == ErrorKind::OutOfMemory => {
            report(&ScriptFault::NoMemory, errors)
        }
        _ => {
            let _ = write_whole(errors, b"schedule: takes no arguments\n");
            BAD_ARGUMENTS
        }
    }
}
