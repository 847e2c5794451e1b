//! The program's run, for any arguments, reader and writers.

use crate::picture::write_picture;
use crate::reason::Reason;
use crate::script::{Stop, explain_script};
use fi_run::Table;
use fi_scripts::{Lines, ScriptFault, read_whole, split_at_first, status, write_whole};
use std::alloc::{AllocError, Global};
use std::env::Args;
use std::io;
use std::io::{ErrorKind, Read, Write};

/// The status of a run that was given other arguments than it takes.
const BAD_ARGUMENTS: u8 = 2;

/// Explains the script that the reader gives, as text, or as a page of SVG if the one argument behind the program's name is `svg`. Answers
/// the status that the program ends with: 0 if all lines were explained, 1 if a read or a write failed, 2 if another argument was given or
/// a line is bad, 3 if memory was refused. What the status means is written to `errors`, with a bad line's words and why it is bad; what
/// was explained before is written all the same.
pub fn run_program<R: Read, W: Write, E: Write>(
    alloc: Global,
    arguments: io::Result<Args>,
    reader: &mut R,
    writer: &mut W,
    errors: &mut E,
) -> u8 {
    let is_drawn = match arguments {
        Ok(arguments) => is_svg(arguments),
        Err(error) if error.kind() == ErrorKind::OutOfMemory => {
            return report(ScriptFault::NoMemory, errors);
        }
        Err(_) => None,
    };
    let Some(is_drawn) = is_drawn else {
        let _ = write_whole(errors, b"explain: takes no argument but svg\n");
        return BAD_ARGUMENTS;
    };
    let script = match read_whole(alloc, reader) {
        Ok(script) => script,
        Err(fault) => return report(fault, errors),
    };
    let mut table = Table::new(alloc);
    let ended = explain_script(alloc, script.as_slice(), &mut table);
    if let Err(fault) = write_table(alloc, &table, is_drawn, writer) {
        return report(fault, errors);
    }
    match ended {
        Ok(()) => 0,
        Err(Stop::NoMemory) => report(ScriptFault::NoMemory, errors),
        Err(Stop::BadLine(number, reason)) => {
            let _ = write_bad_line(alloc, number, reason, script.as_slice(), errors);
            status(&ScriptFault::BadLine(number))
        }
    }
}

// Whether the arguments behind the program's name are `svg`, or none; None if they are others.
fn is_svg(arguments: Args) -> Option<bool> {
    let mut is_drawn = false;
    for (number, argument) in arguments.enumerate() {
        if number > 1 || number == 1 && argument.as_str() != "svg" {
            return None;
        }
        is_drawn = number == 1;
    }
    Some(is_drawn)
}

fn write_table<W: Write>(
    alloc: Global,
    table: &Table,
    is_drawn: bool,
    writer: &mut W,
) -> Result<(), ScriptFault> {
    let mut text = String::new(alloc);
    let written = if is_drawn {
        write_picture(alloc, table, &mut text)
    } else if table.rows.is_empty() {
        Ok(())
    } else {
        table.write(&mut text)
    };
    match written {
        Ok(()) => write_whole(writer, text.as_str().as_bytes()),
        Err(AllocError) => Err(ScriptFault::NoMemory),
    }
}

// Tells of a fault, but for a bad line, and answers the status.
fn report<E: Write>(fault: ScriptFault, errors: &mut E) -> u8 {
    let text = match fault {
        ScriptFault::Read => b"explain: read failed\n".as_slice(),
        ScriptFault::Write => b"explain: write failed\n".as_slice(),
        ScriptFault::NoMemory | ScriptFault::BadLine(_) => b"explain: no memory\n".as_slice(),
    };
    let _ = write_whole(errors, text);
    status(&fault)
}

fn write_bad_line<E: Write>(
    alloc: Global,
    number: usize,
    reason: Reason,
    script: &[u8],
    errors: &mut E,
) -> Result<(), ScriptFault> {
    let Ok(text) = format!(in alloc; "explain: line {number} is bad, {reason}: ") else {
        return Err(ScriptFault::NoMemory);
    };
    write_whole(errors, text.as_str().as_bytes())?;
    write_whole(errors, line_at(script, number))?;
    write_whole(errors, b"\n")
}

// The line of this number, from 1.
fn line_at(script: &[u8], number: usize) -> &[u8] {
    let (mut line, rest) = split_at_first(script, b'\n');
    let mut lines = Lines::after(rest);
    for _ in 1..number {
        line = lines.line().unwrap_or(line);
    }
    line
}
