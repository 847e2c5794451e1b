//! Reading scripts into tables.

use crate::reason::{Reason, reason_of};
use fi_channels::{
    ChannelState, EventState, OneshotBroadcastState, OneshotState, StateBroadcastState,
};
use fi_desk::PoolState;
use fi_locks::{MutexState, SemaphoreState, TimerState};
use fi_parts::Refused;
use fi_parts::buffer::{ArrayBuf, FixedHeapBuf, GrowingHeapBuf};
use fi_run::{Answer, ScriptError, ScriptFutures, Table, TableRow};
use fi_scripts::{Buffer, Labels, Lines, Named, ScriptFault, Scripted, split_at_first};
use std::alloc::{AllocError, Global};

/// A shelf for labels serves so many bytes of a script.
const BYTES_PER_SHELF: usize = 256;

/// Why a script was not explained to its end.
#[derive(Clone, Copy, Debug, PartialEq, Eq)]
pub enum Stop {
    /// The line of this number, from 1, is bad for this reason.
    BadLine(usize, Reason),
    /// Memory was refused.
    NoMemory,
}

impl From<AllocError> for Stop {
    fn from(_error: AllocError) -> Stop {
        Stop::NoMemory
    }
}

impl From<Refused> for Stop {
    fn from(_refused: Refused) -> Stop {
        Stop::NoMemory
    }
}

/// A table is refused nothing but memory.
impl From<ScriptError> for Stop {
    fn from(_error: ScriptError) -> Stop {
        Stop::NoMemory
    }
}

/// Labels are refused nothing but memory.
impl From<ScriptFault> for Stop {
    fn from(_fault: ScriptFault) -> Stop {
        Stop::NoMemory
    }
}

/// Makes the calls of a script, and adds a row for each of its lines behind the first to the table.
///
/// # Errors
///
/// - `BadLine` with the number of the first bad line, from 1, and why it is bad; the table has the rows of the lines before it.
/// - `NoMemory` where memory was refused; the table has the rows of some first lines.
pub fn explain_script(alloc: Global, script: &[u8], table: &mut Table) -> Result<(), Stop> {
    let (first, rest) = split_at_first(script, b'\n');
    let lines = Lines::after(rest);
    let (name, words) = split_at_first(first, b' ');
    let Some(named) = Named::by(name) else {
        return Err(Stop::BadLine(1, Reason::UnknownPrimitive));
    };
    push_bytes(&mut table.opening, first)?;
    match named {
        Named::Channel => explain_channel(alloc, words, lines, table),
        Named::Event => explain_calls::<EventState<u64>>(alloc, words, lines, table),
        Named::Oneshot => explain_calls::<OneshotState<u64, u64>>(alloc, words, lines, table),
        Named::OneshotBroadcast => {
            explain_calls::<OneshotBroadcastState<u64, u64>>(alloc, words, lines, table)
        }
        Named::StateBroadcast => {
            explain_calls::<StateBroadcastState<u64, u64>>(alloc, words, lines, table)
        }
        Named::Timer => explain_calls::<TimerState<u64>>(alloc, words, lines, table),
        Named::Mutex => explain_calls::<MutexState<u64, u64>>(alloc, words, lines, table),
        Named::Semaphore => explain_calls::<SemaphoreState<u64>>(alloc, words, lines, table),
        Named::Pool => explain_calls::<PoolState<u64>>(alloc, words, lines, table),
    }
}

// Explains the lines behind one whose words, behind a primitive's name, are these.
fn explain_calls<P: Scripted + ScriptFutures>(
    alloc: Global,
    words: Option<&[u8]>,
    lines: Lines<'_>,
    table: &mut Table,
) -> Result<(), Stop>
where
    P::Call: Copy,
{
    match P::opening(words) {
        Some(opening) => explain_lines::<P>(alloc, opening, lines, table),
        None => Err(Stop::BadLine(1, Reason::UnknownOpening)),
    }
}

// The same behind `channel`.
fn explain_channel(
    alloc: Global,
    words: Option<&[u8]>,
    lines: Lines<'_>,
    table: &mut Table,
) -> Result<(), Stop> {
    let Some(buffer) = Buffer::named(words) else {
        return Err(Stop::BadLine(1, Reason::UnknownOpening));
    };
    let places = buffer.capacity();
    match buffer {
        Buffer::Array0 => explain_lines::<Array<0>>(alloc, places, lines, table),
        Buffer::Array1 => explain_lines::<Array<1>>(alloc, places, lines, table),
        Buffer::Array2 => explain_lines::<Array<2>>(alloc, places, lines, table),
        Buffer::Array5 => explain_lines::<Array<5>>(alloc, places, lines, table),
        Buffer::Fixed(_) => explain_lines::<Fixed>(alloc, places, lines, table),
        Buffer::Growing(_) => explain_lines::<Growing>(alloc, places, lines, table),
    }
}

type Array<const N: usize> = ChannelState<u64, ArrayBuf<u64, N>, u64>;

type Fixed = ChannelState<u64, FixedHeapBuf<u64>, u64>;

type Growing = ChannelState<u64, GrowingHeapBuf<u64>, u64>;

// Opens a primitive, and explains its lines.
fn explain_lines<P: Scripted + ScriptFutures>(
    alloc: Global,
    opening: P::Opening,
    mut lines: Lines<'_>,
    table: &mut Table,
) -> Result<(), Stop>
where
    P::Call: Copy,
{
    let Ok(mut primitive) = P::open(alloc, opening) else {
        return Err(Stop::NoMemory);
    };
    let mut labels = Labels::new(alloc, lines.len() / BYTES_PER_SHELF)?;
    // There is no more than a line for each byte that is left.
    for number in 2..lines.len().saturating_add(2) {
        let Some(line) = lines.line() else {
            return Ok(());
        };
        explain_line(alloc, &mut primitive, &mut labels, number, line, table)?;
    }
    Ok(())
}

// Makes the call of a line, if it is one, and adds its row.
fn explain_line<P: Scripted + ScriptFutures>(
    alloc: Global,
    primitive: &mut P,
    labels: &mut Labels,
    number: usize,
    line: &[u8],
    table: &mut Table,
) -> Result<(), Stop>
where
    P::Call: Copy,
{
    let Some((holds, request)) = labels.read::<P>(line) else {
        return Err(Stop::BadLine(number, reason_of::<P>(labels, line)));
    };
    let mut row = TableRow::new(alloc);
    write!(row.number, "{number}")?;
    push_bytes(&mut row.call, line)?;
    let mut answer = Answer::Done;
    let mut future = None;
    if let Some(request) = request {
        answer = primitive.apply(request.call);
        future = P::future_of(&request.call, &answer);
        labels.keep(request.row, request.label, &answer)?;
    }
    if answer.refusal().is_some() {
        return Err(Stop::NoMemory);
    }
    write!(row.answer, "{answer}")?;
    if !holds {
        table.take_wakers(primitive, &mut row)?;
    }
    table.add(primitive, future, row)?;
    Ok(())
}

// Appends a line, whose words have only characters of ASCII.
fn push_bytes(text: &mut String, line: &[u8]) -> Result<(), AllocError> {
    for byte in line {
        text.push(char::from(*byte))?;
    }
    Ok(())
}
