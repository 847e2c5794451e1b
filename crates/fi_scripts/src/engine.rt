//! Answering scripts.
ghost use Rattle.std.specs.Prelude.{◌≡◌, ◌⊎◌, [], Some, None, true, OnOk, IfOk, IfErr, drop, option_copied};
ghost use Rattle.fi_scripts.specs.Answered.{AnswersLine, IfStopped};
ghost use Rattle.fi_scripts.specs.Asked.{Performs};
ghost use Rattle.fi_scripts.specs.Channels.{spoken_channel, capacity_of};
ghost use Rattle.fi_parts.specs.Order.{head_or};
ghost use Rattle.fi_scripts.specs.Language.{spoken, AsksFor};
ghost use Rattle.fi_scripts.specs.Lines.{IsBad};
ghost use Rattle.fi_scripts.specs.Primitives.{known, openings_of};
ghost use Rattle.fi_scripts.specs.Script.{AnswersScript, RefusesScript, StopsScript, Turns, IfFault};
ghost use Rattle.fi_scripts.specs.InUse.{labels_of};
ghost use Rattle.fi_scripts.specs.Outputs.{GoesOn, Tells, Collects, SameWriter};
ghost use Rattle.fi_scripts.specs.Openings.{channel_openings};
ghost use Rattle.fi_scripts.specs.Texts.{wakes_text};
ghost use Rattle.fi_scripts.specs.Unread.{lines_left, AnswersLeft};

use crate::buffer::Buffer;
use crate::fault::ScriptFault;
use crate::input::read_whole;
use crate::labelled::Labelled;
use crate::named::Named;
use crate::output::{COLLECTED, LINE, Output};
use crate::requests::{Labels, Request};
use crate::scripted::Scripted;
use crate::texts::{put_waker, write_answer};
use crate::words::{Lines, split_at_first};
use fi_channels::{
    ChannelState, EventState, OneshotBroadcastState, OneshotState, StateBroadcastState,
};
use fi_desk::PoolState;
use fi_locks::{MutexState, SemaphoreState, TimerState};
use fi_parts::buffer::{ArrayBuf, FixedHeapBuf, GrowingHeapBuf, RingBuf};
use fi_parts::memory::items_for;
use fi_run::{Answer, ScriptBuffer};
use std::alloc::Global;
use std::io::{Read, Write};

/// Labels get a shelf for so many bytes of a script, which is about ten of its labels.
const BYTES_PER_SHELF: usize = 256;

/// Reads a script to its end, and then answers it line by line.
///
/// # Errors
///
/// - `Read` where a read failed; nothing was written.
/// - `Write` where a write failed, or took no byte.
/// - `BadLine` with the number of the first bad line, from 1; the answers of the lines before it were written.
/// - `NoMemory` where memory was refused: the answers of the lines before were written, and of the line that asked for it
///   nothing.
pub fn run_script<R: Read, W: Write>(
    alloc: Global,
    reader: &mut R,
    writer: &mut W,
) -> Result<(), ScriptFault>
    ensures answered { OnOk result (Turns (R.remaining reader.old) (W.contents writer.old)
        (W.contents writer.new) AnswersScript) }
    ensures fault { IfErr result (IfFault (writer.new ≡ writer.old)
        (λ number. Turns (R.remaining reader.old) (W.contents writer.old) (W.contents writer.new)
        (RefusesScript number))
        (Turns (R.remaining reader.old) (W.contents writer.old) (W.contents writer.new) StopsScript)) }
{
    let script = read_whole(alloc, reader)?;
    let mut collected = match items_for(alloc, COLLECTED + LINE) {
        Ok(collected) => collected,
        Err(refused) => return Err(ScriptFault::from(refused)),
    };
    let mut output = Output::new(writer, &mut collected);
    let answered = answer_script(alloc, script.as_slice(), &mut output);
    if let Err(ScriptFault::Write) = answered {
        return answered;
    }
    output.flush()?;
    answered
}

/// Answers a script of the primitive that its first line names.
fn answer_script<W: Write>(
    alloc: Global,
    script: &[u8],
    output: &mut Output<'_, W>,
) -> Result<(), ScriptFault>
    ensures answered { OnOk result (Tells W.contents output.old output.new
        (AnswersScript script.now)) }
    ensures stopped { IfErr result (IfStopped
        (λ number. Tells W.contents output.old output.new (RefusesScript number script.now))
        (Tells W.contents output.old output.new (StopsScript script.now))) }
    ensures same_writer { SameWriter output.old output.new }
{
    let (first, rest) = split_at_first(script, b'\n');
    let lines = Lines::after(rest);
    let (name, words) = split_at_first(first, b' ');
    match Named::by(name) {
        Some(named) => answer_named(alloc, named, words, lines, output),
        None => Err(ScriptFault::BadLine(1)),
    }
}

/// Answers the lines after one whose words, behind this primitive's name, are these.
fn answer_named<W: Write>(
    alloc: Global,
    named: Named,
    words: Option<&[u8]>,
    lines: Lines<'_>,
    output: &mut Output<'_, W>,
) -> Result<(), ScriptFault>
    ensures { AnswersLeft (known named).spoken (AsksFor (openings_of named) (option_copied words.entry))
        (lines_left lines.entry) W.contents output.old output.new result }
{
    match named {
        Named::Channel => answer_channel(alloc, words, lines, output),
        Named::Event => answer_calls::<EventState<u64>, W>(alloc, words, lines, output),
        Named::Oneshot => answer_calls::<OneshotState<u64, u64>, W>(alloc, words, lines, output),
        Named::OneshotBroadcast => {
            answer_calls::<OneshotBroadcastState<u64, u64>, W>(alloc, words, lines, output)
        }
        Named::StateBroadcast => {
            answer_calls::<StateBroadcastState<u64, u64>, W>(alloc, words, lines, output)
        }
        Named::Timer => answer_calls::<TimerState<u64>, W>(alloc, words, lines, output),
        Named::Mutex => answer_calls::<MutexState<u64, u64>, W>(alloc, words, lines, output),
        Named::Semaphore => answer_calls::<SemaphoreState<u64>, W>(alloc, words, lines, output),
        Named::Pool => answer_calls::<PoolState<u64>, W>(alloc, words, lines, output),
    }
}

/// Answers the lines after one whose words, behind a primitive's name, are these.
fn answer_calls<P: Scripted, W: Write>(
    alloc: Global,
    words: Option<&[u8]>,
    lines: Lines<'_>,
    output: &mut Output<'_, W>,
) -> Result<(), ScriptFault>
    ensures { AnswersLeft (spoken P.opens P.step P.outgoing P.Scripted.openings P.ScriptLines.call_of)
        (AsksFor P.Scripted.openings (option_copied words.entry))
        (lines_left lines.entry) W.contents output.old output.new result }
{
    match P::opening(words) {
        Some(opening) => answer_lines::<P, W>(alloc, opening, lines, output),
        None => Err(ScriptFault::BadLine(1)),
    }
}

/// Answers the lines after one whose words, behind `channel`, are these.
fn answer_channel<W: Write>(
    alloc: Global,
    words: Option<&[u8]>,
    lines: Lines<'_>,
    output: &mut Output<'_, W>,
) -> Result<(), ScriptFault>
    ensures { AnswersLeft spoken_channel (AsksFor channel_openings (option_copied words.entry))
        (lines_left lines.entry) W.contents output.old output.new result }
{
    match Buffer::named(words) {
        Some(buffer) => answer_over_named(alloc, buffer, lines, output),
        None => Err(ScriptFault::BadLine(1)),
    }
}

/// Answers the lines of a channel over this buffer.
fn answer_over_named<W: Write>(
    alloc: Global,
    buffer: Buffer,
    lines: Lines<'_>,
    output: &mut Output<'_, W>,
) -> Result<(), ScriptFault>
    ensures { AnswersLeft spoken_channel (λ asked. asked ≡ buffer)
        (lines_left lines.entry) W.contents output.old output.new result }
{
    match buffer {
        Buffer::Array0 => answer_over::<ArrayBuf<u64, 0>, W>(alloc, buffer, lines, output),
        Buffer::Array1 => answer_over::<ArrayBuf<u64, 1>, W>(alloc, buffer, lines, output),
        Buffer::Array2 => answer_over::<ArrayBuf<u64, 2>, W>(alloc, buffer, lines, output),
        Buffer::Array5 => answer_over::<ArrayBuf<u64, 5>, W>(alloc, buffer, lines, output),
        Buffer::Fixed(_) => answer_over::<FixedHeapBuf<u64>, W>(alloc, buffer, lines, output),
        Buffer::Growing(_) => answer_over::<GrowingHeapBuf<u64>, W>(alloc, buffer, lines, output),
    }
}

/// Answers the lines of a channel over this buffer, which `B` is.
fn answer_over<B: RingBuf<Item = u64> + ScriptBuffer, W: Write>(
    alloc: Global,
    buffer: Buffer,
    lines: Lines<'_>,
    output: &mut Output<'_, W>,
) -> Result<(), ScriptFault>
    requires { B.capacity_for (capacity_of buffer) ≡ capacity_of buffer }
    ensures { AnswersLeft spoken_channel (λ asked. asked ≡ buffer)
        (lines_left lines.entry) W.contents output.old output.new result }
{
    answer_lines::<ChannelState<u64, B, u64>, W>(alloc, buffer.capacity(), lines, output)
}

/// Opens a primitive, and answers its lines.
fn answer_lines<P: Scripted, W: Write>(
    alloc: Global,
    opening: P::Opening,
    mut lines: Lines<'_>,
    output: &mut Output<'_, W>,
) -> Result<(), ScriptFault>
    ensures { AnswersLeft (spoken P.opens P.step P.outgoing P.Scripted.openings P.ScriptLines.call_of) (λ asked. asked ≡ opening)
        (lines_left lines.entry) W.contents output.old output.new result }
{
    let primitive = match P::open(alloc, opening) {
        Ok(primitive) => primitive,
        Err(fault) => return Err(ScriptFault::of(fault)),
    };
    let futures = match Labelled::new(alloc, lines.len() / BYTES_PER_SHELF) {
        Ok(futures) => futures,
        Err(refused) => return Err(ScriptFault::from(refused)),
    };
    let mut session = Session { primitive, futures };
    let mut number = 1;
    while let Some(line) = lines.line() {
        number += 1;
        session.answer_line(number, line, output)?;
    }
    Ok(())
}

/// A primitive, and its futures whose labels are in use.
#[derive(Drop)]
struct Session<P: Scripted> {
    primitive: P,
    futures: Labels,
}

impl<P: Scripted> Session<P> {
    /// Answers one line. Where it can't be answered to its end, nothing of its answer stays collected.
    fn answer_line<W: Write>(
        &mut self,
        number: usize,
        line: &[u8],
        output: &mut Output<'_, W>,
    ) -> Result<(), ScriptFault>
        ensures answered { OnOk result (Tells W.contents output.old output.new
            (AnswersLine (spoken P.opens P.step P.outgoing P.Scripted.openings P.ScriptLines.call_of) line.now
            (labels_of self.old.futures) self.old.primitive (labels_of self.new.futures) self.new.primitive)) }
        ensures stopped { IfErr result (IfStopped (λ at. (at ≡ number)
            × IsBad P.ScriptLines.call_of (labels_of self.old.futures) line.now
            × GoesOn W.contents output.old output.new (Some []))
            (GoesOn W.contents output.old output.new (Some []))) }
        ensures same_writer { SameWriter output.old output.new }
    {
        output.make_room()?;
        let start = output.collected();
        let answered = self.collect_answer(number, line, output);
        if answered.is_err() {
            output.keep_first(start);
        }
        answered
    }

    /// Collects the answer of one line.
    fn collect_answer<W: Write>(
        &mut self,
        number: usize,
        line: &[u8],
        output: &mut Output<'_, W>,
    ) -> Result<(), ScriptFault>
        ensures answered { OnOk result (Tells W.contents output.old output.new
            (AnswersLine (spoken P.opens P.step P.outgoing P.Scripted.openings P.ScriptLines.call_of) line.now
            (labels_of self.old.futures) self.old.primitive (labels_of self.new.futures) self.new.primitive)) }
        // A bad line is told by its number.
        ensures fault { IfErr result (λ fault. (fault ≡ ScriptFault.NoMemory)
            ⊎ ((fault ≡ ScriptFault.BadLine number)
            × IsBad P.ScriptLines.call_of (labels_of self.old.futures) line.now)) }
        ensures collects { Collects output.old output.new }
    {
        let Some((holds, request)) = self.futures.read::<P>(line) else {
            return Err(ScriptFault::BadLine(number));
        };
        let answer = self.perform(request)?;
        write_answer(&answer, output)?;
        if !holds {
            self.write_wakes(output)?;
        }
        output.put_byte(b'\n')
    }

    /// Makes the call that a line asks for, if it asks for one, and keeps the labels in use.
    #[inline(always)]
    fn perform(
        &mut self,
        request: Option<Request<P::Call>>,
    ) -> Result<Answer<u64, u64>, ScriptFault>
        ensures answered { IfOk result (λ answer. Performs P.step request
            (labels_of self.old.futures) self.old.primitive answer (labels_of self.new.futures)
            self.new.primitive) }
        ensures fault { IfErr result (λ fault. fault ≡ ScriptFault.NoMemory) }
    {
        let Some(request) = request else {
            return Ok(Answer::Done);
        };
        let answer = self.primitive.apply(request.call);
        self.futures.keep(request.row, request.label, &answer)?;
        Ok(answer)
    }

    /// Takes out the oldest waker, if there is one.
    fn take_waker(&mut self) -> Option<u64>
        ensures waker { result ≡ head_or (P.outgoing.wakers self.old.primitive) None }
        ensures taken { P.outgoing.wakers self.new.primitive
            ≡ drop 1 (P.outgoing.wakers self.old.primitive) }
        ensures rest { P.outgoing.without_wakers self.new.primitive
            ≡ P.outgoing.without_wakers self.old.primitive }
        ensures futures { self.new.futures ≡ self.old.futures }
    {
        match self.primitive.apply(P::next_wake_call()) {
            Answer::Woken(waker) => waker,
            // The law of the call leaves no other answer.
            _ => None,
        }
    }

    /// Takes out all wakers and writes them, oldest first.
    fn write_wakes<W: Write>(&mut self, output: &mut Output<'_, W>) -> Result<(), ScriptFault>
        ensures text { OnOk result (GoesOn W.contents output.old output.new
            (Some (wakes_text true (P.outgoing.wakers self.old.primitive)))) }
        ensures emptied { OnOk result (P.outgoing.wakers self.new.primitive ≡ []) }
        ensures rest { OnOk result (P.outgoing.without_wakers self.new.primitive
            ≡ P.outgoing.without_wakers self.old.primitive) }
        ensures futures { self.new.futures ≡ self.old.futures }
        ensures collects { Collects output.old output.new }
        ensures fault { IfErr result (λ fault. fault ≡ ScriptFault.NoMemory) }
    {
        let mut is_first = true;
        while let Some(waker) = self.take_waker() {
            put_waker(waker, is_first, output)?;
            is_first = false;
        }
        Ok(())
    }
}
