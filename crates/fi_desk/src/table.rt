//! Histories as tables: each call, and after it who waits and how.
ghost use Rattle.std.specs.Prelude.{◌≡◌, IfErr};

use crate::journal::{Entry, Settled};
use fi_parts::{Fault, Refused};
use fi_run::{Answer, ScriptError, ScriptFutures, Table, TableRow, is_left_out, write_call};

impl<P: ScriptFutures + Drop> Settled<P>
where
    P::Opening: Copy,
    P::Call: Copy,
{
    /// Appends the history as a table: who waits after each entry, and how.
    ///
    /// A line has an entry's number, its seat, its call and its answer in the words of scripts, the wakers that the call named to be
    /// woken, the futures that stand in a queue after it, the oldest first, and the others that live, in the order of their makings, those
    /// of a timer by their expiries. Each future is fresh, registered, notified or ended. A line at the end tells of each that was
    /// notified, and neither polled nor cancelled since.
    ///
    /// The calls are made again in order, on a primitive that is opened so. One that was refused `NoMemory` or `NoSlot` changed nothing,
    /// and isn't made again. A call for a waker is the line `next-wake`; the table has the waker where it was named.
    ///
    /// Refused only with `NoMemory`; then a beginning may have been appended. It takes time and memory for each entry and each future that
    /// lives after it. What it appends is tested, and not proved.
    pub fn write_table(&self, table: &mut String) -> Result<(), ScriptError>
        ensures fault { IfErr result (λ error. error ≡ ScriptError.NoMemory) }
    {
        let alloc = *self.history.allocator();
        let mut primitive = match P::open(alloc, self.opening) {
            Ok(primitive) => primitive,
            Err(fault) => return Err(no_memory(fault)),
        };
        let mut drawn = Table::new(alloc);
        match P::write_opening(&mut drawn.opening, &self.opening) {
            // Scripts have no words for some openings.
            Ok(()) | Err(ScriptError::Opening) => {}
            Err(error) => return Err(error),
        }
        for (number, entry) in self.history.iter().enumerate() {
            replay(&mut drawn, &mut primitive, number, entry)?;
        }
        drawn.write(table)?;
        Ok(())
    }
}

// Makes an entry's call again, and adds its row.
fn replay<P: ScriptFutures>(
    table: &mut Table,
    primitive: &mut P,
    number: usize,
    entry: &Entry<P::Call, Answer<u64, u64>>,
) -> Result<(), ScriptError>
where
    P::Call: Copy,
    ensures fault { IfErr result (λ error. error ≡ ScriptError.NoMemory) }
{
    let mut row = TableRow::new(*table.rows.allocator());
    let (seat, answer) = (entry.seat, entry.answer);
    write!(row.number, "{number}")?;
    write!(row.seat, "{seat}")?;
    write!(row.answer, "{answer}")?;
    if matches!(answer, Answer::Woken(_)) {
        row.call.push_str("next-wake")?;
        return table.add(primitive, None, row);
    }
    write_call::<P>(&mut row.call, &entry.call, &answer)?;
    if row.call.is_empty() {
        // The future could not be made, and so has no label.
        row.call.push_str("making")?;
    }
    if is_left_out(&answer) {
        return table.add(primitive, None, row);
    }
    if let Some(refused) = primitive.apply(entry.call).refusal() {
        return Err(ScriptError::from(refused));
    }
    table.take_wakers(primitive, &mut row)?;
    table.add(primitive, P::future_of(&entry.call, &answer), row)
}

// The error of an opening that was refused memory.
fn no_memory(fault: Fault) -> ScriptError
    requires { fault ≡ Fault.NoMemory }
    ensures { result ≡ ScriptError.NoMemory }
{
    match Refused::of(fault) {
        Some(refused) => ScriptError::from(refused),
        // The fault is a refusal, as the call requires.
        None => unreachable!(),
    }
}
