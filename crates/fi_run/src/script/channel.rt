//! Script lines of the channel of many values. A send's letter is `s`, that of a receive or a stream `r`.
ghost use Rattle.std.specs.Prelude.{◌≡◌, ◌≢◌, ◌⊎◌, IfErr};
ghost use Rattle.fi_run.specs.Rows.{channel_poll, channel_cancel};

use super::row::{MadeFuture, Numbers, Row};
use super::verb::Verb;
use super::{MOST_PLACES, ScriptError, ScriptFutures, ScriptLines};
use crate::channel::ChannelCall;
use fi_channels::ChannelState;
use fi_parts::buffer::{ArrayBuf, FixedHeapBuf, GrowingHeapBuf, RingBuf};
use fi_parts::{Refused, Slot, Stage};

/// A buffer over which a first line opens a channel.
pub trait ScriptBuffer {
    /// Writes the first line but for its end. Refused with `Opening` if none opens a channel over a buffer of this capacity, and with
    /// `NoMemory`.
    fn write_opening(script: &mut String, capacity: usize) -> Result<(), ScriptError>
        ensures unwritten { IfErr result (λ error. error ≢ ScriptError.NoMemory → script.new ≡ script.old) }
        ensures fault { IfErr result (λ error. (error ≡ ScriptError.NoMemory) ⊎ (error ≡ ScriptError.Opening)) };
}

impl<const N: usize> ScriptBuffer for ArrayBuf<u64, N> {
    /// The capacity is the array's, whatever was asked for.
    fn write_opening(script: &mut String, _capacity: usize) -> Result<(), ScriptError> {
        if !matches!(N, 0 | 1 | 2 | 5) {
            return Err(ScriptError::Opening);
        }
        write!(script, "channel array {N}")?;
        Ok(())
    }
}

impl ScriptBuffer for FixedHeapBuf<u64> {
    fn write_opening(script: &mut String, capacity: usize) -> Result<(), ScriptError> {
        write_heap_opening(script, "fixed", capacity)
    }
}

impl ScriptBuffer for GrowingHeapBuf<u64> {
    fn write_opening(script: &mut String, capacity: usize) -> Result<(), ScriptError> {
        write_heap_opening(script, "growing", capacity)
    }
}

impl<B: RingBuf<Item = u64> + ScriptBuffer> ScriptLines for ChannelState<u64, B, u64> {
    ghost use Rattle.std.specs.Prelude.{refl};
    ghost use Rattle.fi_run.specs.Rows.{channel_call};
    ghost use Rattle.fi_run.specs.Hidden.{channel_hides};

    ghost call_of = { channel_call };

    ghost says_woken = { λ waker. refl };

    ghost hides = { channel_hides };

    fn write_opening(script: &mut String, opening: &usize) -> Result<(), ScriptError> {
        B::write_opening(script, *opening)
    }

    fn call(row: Row) -> Option<ChannelCall<u64, u64>> {
        match row {
            Row::Make(Verb::Send, Numbers::One(value)) => Some(ChannelCall::Send(value)),
            Row::Make(Verb::Receive, Numbers::Absent) => Some(ChannelCall::Receive),
            Row::Make(Verb::Stream, Numbers::Absent) => Some(ChannelCall::Stream),
            Row::Poll(future, Numbers::One(waker)) => poll_of(future, waker),
            Row::Cancel(future, Numbers::Absent) => cancel_of(future),
            Row::Plain(Verb::TrySend, Numbers::One(value)) => Some(ChannelCall::TrySend(value)),
            Row::Plain(Verb::TryReceive, Numbers::Absent) => Some(ChannelCall::TryReceive),
            Row::Plain(Verb::Close, Numbers::Absent) => Some(ChannelCall::Close),
            _ => None,
        }
    }

    fn row(call: &ChannelCall<u64, u64>) -> Option<Row> {
        match *call {
            ChannelCall::Send(value) => Some(Row::Make(Verb::Send, Numbers::One(value))),
            ChannelCall::Receive => Some(Row::Make(Verb::Receive, Numbers::Absent)),
            ChannelCall::Stream => Some(Row::Make(Verb::Stream, Numbers::Absent)),
            ChannelCall::PollSend(slot, waker) => Some(Row::poll(Verb::Send, slot, waker)),
            ChannelCall::PollReceive(slot, waker) => Some(Row::poll(Verb::Receive, slot, waker)),
            ChannelCall::PollNext(slot, waker) => Some(Row::poll(Verb::Stream, slot, waker)),
            ChannelCall::CancelSend(slot) => Some(Row::cancel(Verb::Send, slot)),
            ChannelCall::CancelReceive(slot) => Some(Row::cancel(Verb::Receive, slot)),
            ChannelCall::TrySend(value) => Some(Row::Plain(Verb::TrySend, Numbers::One(value))),
            ChannelCall::TryReceive => Some(Row::Plain(Verb::TryReceive, Numbers::Absent)),
            ChannelCall::Close => Some(Row::Plain(Verb::Close, Numbers::Absent)),
            ChannelCall::NextWake => None,
        }
    }
}

impl<B: RingBuf<Item = u64> + ScriptBuffer> ScriptFutures for ChannelState<u64, B, u64> {
    const LETTERS: &'static str = "sr";

    fn stage_of(&self, letter: char, slot: Slot) -> Option<Stage> {
        match letter {
            's' => self.send_stage(slot),
            _ => self.receive_stage(slot),
        }
    }

    fn queue_of(&mut self, letter: char, slots: &mut Vec<Slot>) -> Result<(), Refused> {
        match letter {
            's' => self.send_queue(slots),
            _ => self.receive_queue(slots),
        }
    }
}

/// Writes the first line of a channel over a buffer on the heap.
fn write_heap_opening(script: &mut String, kind: &str, capacity: usize) -> Result<(), ScriptError>
    ensures unwritten { IfErr result (λ error. error ≢ ScriptError.NoMemory → script.new ≡ script.old) }
    ensures fault { IfErr result (λ error. (error ≡ ScriptError.NoMemory) ⊎ (error ≡ ScriptError.Opening)) }
{
    if capacity > MOST_PLACES {
        return Err(ScriptError::Opening);
    }
    write!(script, "channel {kind} {capacity}")?;
    Ok(())
}

/// The poll of a future, by what it was made as.
fn poll_of(future: MadeFuture, waker: u64) -> Option<ChannelCall<u64, u64>>
    ensures { result ≡ channel_poll future.verb future.slot waker }
{
    match future.verb {
        Verb::Send => Some(ChannelCall::PollSend(future.slot, waker)),
        Verb::Receive => Some(ChannelCall::PollReceive(future.slot, waker)),
        Verb::Stream => Some(ChannelCall::PollNext(future.slot, waker)),
        _ => None,
    }
}

/// The cancel of a future, by what it was made as.
fn cancel_of(future: MadeFuture) -> Option<ChannelCall<u64, u64>>
    ensures { result ≡ channel_cancel future.verb future.slot }
{
    match future.verb {
        Verb::Send => Some(ChannelCall::CancelSend(future.slot)),
        Verb::Receive | Verb::Stream => Some(ChannelCall::CancelReceive(future.slot)),
        _ => None,
    }
}
