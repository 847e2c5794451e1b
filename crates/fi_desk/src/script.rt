//! Histories as scripts.
ghost use Rattle.std.specs.Prelude.{◌≡◌, ◌≢◌, IfErr, OnOk, slice_get};
ghost use Rattle.fi_desk.specs.ScriptWakers.{LeavesWakers, TakesAllWakers, asks_for_waker, took_waker};

use crate::journal::{Entry, Settled};
use fi_run::{Answer, ScriptError, ScriptLines, is_left_out, write_call};
use std::alloc::AllocError;

impl<P: ScriptLines> Settled<P> {
    /// Appends the history as a script, which `schedule` answers as the history was answered.
    ///
    /// Each entry is a line, in order. A call's line is held back (`hold`), unless the next entries take out wakers, which are then
    /// in its answer. Wakers that are taken out elsewhere are a line `wakes`. An entry that was refused `NoMemory` or `NoSlot` changed
    /// nothing and has no line.
    ///
    /// # Errors
    ///
    /// - `Opening` if no script opens the primitive so: a channel over an array whose length isn't 0, 1, 2 or 5, a channel over a heap
    ///   buffer or a pool whose capacity is above 65536.
    /// - `Wakers` with the number of the first entry that takes out a waker where the next entry is no call for one more. A script takes
    ///   out all wakers or none.
    /// - `NoMemory` where memory was refused: then a beginning of the script was appended. With another error nothing was.
    ///
    /// That the program answers the lines as the history has it is tested for each primitive, and not proved. It takes time linear in
    /// the text.
    pub fn write_script(&self, script: &mut String) -> Result<(), ScriptError>
        ensures unwritten { IfErr result (λ error. error ≢ ScriptError.NoMemory → script.new ≡ script.old) }
        ensures wakers { IfErr result (λ error. LeavesWakers self.now.history.items error) }
        ensures whole { OnOk result (TakesAllWakers self.now.history.items) }
    {
        let history = self.history.as_slice();
        check_wakers(history)?;
        P::write_opening(script, &self.opening)?;
        script.push_str("\n")?;
        write_entries::<P>(script, history)?;
        Ok(())
    }
}

/// Whether the entry with this number is there, and is a call for the oldest waker.
fn is_wake_call<C>(history: &[Entry<C, Answer<u64, u64>>], number: usize) -> bool
    ensures { result ≡ asks_for_waker (slice_get history.now number) }
{
    match history.get(number) {
        Some(entry) => matches!(entry.answer, Answer::Woken(_)),
        None => false,
    }
}

/// Whether the entry with this number is there, and took out a waker.
fn has_taken<C>(history: &[Entry<C, Answer<u64, u64>>], number: usize) -> bool
    ensures { result ≡ took_waker (slice_get history.now number) }
{
    match history.get(number) {
        Some(entry) => matches!(entry.answer, Answer::Woken(Some(_))),
        None => false,
    }
}

/// Checks that after each entry that takes out a waker there is one that asks for more.
fn check_wakers<C>(history: &[Entry<C, Answer<u64, u64>>]) -> Result<(), ScriptError>
    ensures wakers { IfErr result (λ error. LeavesWakers history.now error) }
    ensures whole { OnOk result (TakesAllWakers history.now) }
{
    for number in 0..history.len() {
        if has_taken(history, number) && !is_wake_call(history, number + 1) {
            return Err(ScriptError::Wakers(number));
        }
    }
    Ok(())
}

/// Writes the lines of a history in which all wakers are taken out where some are.
fn write_entries<P: ScriptLines>(
    script: &mut String,
    history: &[Entry<P::Call, Answer<u64, u64>>],
) -> Result<(), AllocError> {
    // Whether the last line takes out the wakers that the next entries take out.
    let mut is_taking = false;
    for place in 0..history.len() {
        let entry = &history[place];
        let is_followed = is_wake_call(history, place + 1);
        if matches!(entry.answer, Answer::Woken(_)) {
            if !is_taking {
                script.push_str("wakes\n")?;
            }
            is_taking = is_followed;
        } else if !is_left_out(&entry.answer) {
            if !is_followed {
                script.push_str("hold ")?;
            }
            write_call::<P>(script, &entry.call, &entry.answer)?;
            script.push_str("\n")?;
            is_taking = is_followed;
        }
    }
    Ok(())
}
