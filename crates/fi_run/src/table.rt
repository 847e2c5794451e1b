//! Histories as tables: each call, and after it who waits and how.
ghost use Rattle.std.specs.Prelude.{◌≡◌, IfErr};

use crate::answer::Answer;
use crate::script::{ScriptError, ScriptFutures};
use fi_parts::memory::{insert_under, push};
use fi_parts::{Slot, Stage};
use std::alloc::{AllocError, Global};
use std::collections::BTreeMap;

/// A future of a table.
#[derive(Drop)]
pub struct Lane {
    pub label: String,
    letter: char,
    slot: Slot,
    // How far it was after the newest row; None once it was cancelled.
    stage: Option<Stage>,
    // The row after which it was notified last.
    notified: usize,
    // The newest row that shows it.
    shown: Option<usize>,
}

impl Lane {
    // How far it is after this row, by what its primitive says. One that was sent back while it waited was notified, and so was a send
    // whose value was taken.
    fn go_on(&mut self, stage: Stage, row: usize) -> Stage {
        let stage = match (self.stage, stage) {
            (Some(Stage::Registered | Stage::Notified), Stage::Fresh) | (_, Stage::Complete) => {
                Stage::Notified
            }
            _ => stage,
        };
        if stage == Stage::Notified && self.stage != Some(Stage::Notified) {
            self.notified = row;
        }
        self.stage = Some(stage);
        stage
    }
}

/// A call, as a table shows it, and the futures that live after it.
#[derive(Drop)]
pub struct TableRow {
    pub number: String,
    pub seat: String,
    /// The call in the words of scripts.
    pub call: String,
    pub answer: String,
    pub wakers: String,
    queue: String,
    others: String,
    /// How far each future is, by the numbers of their lanes: those in a queue, the oldest first, and then the others.
    pub futures: Vec<(usize, Stage)>,
}

impl TableRow {
    /// A row without words and futures.
    pub fn new(alloc: Global) -> Self {
        TableRow {
            number: String::new(alloc),
            seat: String::new(alloc),
            call: String::new(alloc),
            answer: String::new(alloc),
            wakers: String::new(alloc),
            queue: String::new(alloc),
            others: String::new(alloc),
            futures: Vec::new(alloc),
        }
    }

    /// The heads of the columns, as a row.
    pub fn heads(alloc: Global) -> Result<Self, AllocError> {
        let mut heads = TableRow::new(alloc);
        heads.number.push_str("no")?;
        heads.seat.push_str("seat")?;
        heads.call.push_str("call")?;
        heads.answer.push_str("answer")?;
        heads.wakers.push_str("wakes")?;
        heads.queue.push_str("queue")?;
        heads.others.push_str("others")?;
        Ok(heads)
    }

    fn cell(&self, column: usize) -> &str {
        match column {
            0 => self.number.as_str(),
            1 => self.seat.as_str(),
            2 => self.call.as_str(),
            3 => self.answer.as_str(),
            4 => self.wakers.as_str(),
            5 => self.queue.as_str(),
            _ => self.others.as_str(),
        }
    }

    /// Appends the cells, padded to these widths, without spaces at the end; a column without a width is left out.
    pub fn write(
        &self,
        alloc: Global,
        widths: &[usize],
        text: &mut String,
    ) -> Result<(), AllocError> {
        let mut line = String::new(alloc);
        for (column, width) in widths.iter().enumerate() {
            let width = *width;
            if width > 0 {
                let cell = self.cell(column);
                line.push_str(cell)?;
                for _ in cell.len()..width {
                    line.push_str(" ")?;
                }
                line.push_str("  ")?;
            }
        }
        text.push_str(line.as_str().trim_end())
    }
}

/// How many columns a table has.
const COLUMNS: usize = 7;

/// A history, row by row, with its futures.
#[derive(Drop)]
pub struct Table {
    alloc: Global,
    /// How the primitive was opened, in the words of scripts.
    pub opening: String,
    pub lanes: Vec<Lane>,
    pub rows: Vec<TableRow>,
    // The lanes of the futures that live, by letter and slot.
    live: BTreeMap<(char, usize), usize>,
}

impl Table {
    /// A table without rows.
    pub fn new(alloc: Global) -> Self {
        Table {
            alloc,
            opening: String::new(alloc),
            lanes: Vec::new(alloc),
            rows: Vec::new(alloc),
            live: BTreeMap::new(alloc),
        }
    }

    /// Takes the wakers that are to be woken out of the primitive, and writes them into the row. A future has one at most.
    pub fn take_wakers<P: ScriptFutures>(
        &self,
        primitive: &mut P,
        row: &mut TableRow,
    ) -> Result<(), ScriptError>
        ensures fault { IfErr result (λ error. error ≡ ScriptError.NoMemory) }
    {
        for _ in 0..self.lanes.len() {
            let Answer::Woken(Some(waker)) = primitive.apply(P::next_wake_call()) else {
                return Ok(());
            };
            if !row.wakers.is_empty() {
                row.wakers.push_str(" ")?;
            }
            write!(row.wakers, "{waker}")?;
        }
        Ok(())
    }

    /// Adds the row of a call that was just made on the primitive, and how its futures are now. The call made, polled or cancelled the
    /// future with this letter and slot, if it is about one. Refused only with `NoMemory`; then the row is missing.
    ///
    /// It takes time for each future that lives, and for the search of its lane.
    pub fn add<P: ScriptFutures>(
        &mut self,
        primitive: &mut P,
        future: Option<(char, Slot)>,
        mut row: TableRow,
    ) -> Result<(), ScriptError>
        ensures fault { IfErr result (λ error. error ≡ ScriptError.NoMemory) }
    {
        if let Some((letter, slot)) = future {
            let stage = primitive.stage_of(letter, slot);
            self.follow(letter, slot, stage, row.call.as_str())?;
        }
        for number in self.queued_lanes(primitive)? {
            self.show(primitive, number, true, &mut row)?;
        }
        let living = self.living_lanes(primitive)?;
        for (_, number) in living.keys() {
            self.show(primitive, *number, false, &mut row)?;
        }
        push(&mut self.rows, row)?;
        Ok(())
    }

    // Keeps which futures live, after a call on this one.
    fn follow(
        &mut self,
        letter: char,
        slot: Slot,
        stage: Option<Stage>,
        call: &str,
    ) -> Result<(), ScriptError>
        ensures fault { IfErr result (λ error. error ≡ ScriptError.NoMemory) }
    {
        let key = (letter, slot.0);
        match (self.live.get(&key).copied(), stage) {
            (None, Some(_)) => {
                let number = self.lanes.len();
                let label = String::from_str(self.alloc, label_in(call))?;
                let lane = Lane {
                    label,
                    letter,
                    slot,
                    stage,
                    notified: 0,
                    shown: None,
                };
                push(&mut self.lanes, lane)?;
                insert_under(&mut self.live, key, number)?;
            }
            (Some(number), _) => {
                if stage.is_none() {
                    let _ = self.live.remove(&key);
                }
                if let Some(lane) = self.lanes.get_mut(number) {
                    lane.stage = stage;
                }
            }
            (None, None) => {}
        }
        Ok(())
    }

    // The lanes of the futures that stand in a queue, the oldest first.
    fn queued_lanes<P: ScriptFutures>(&self, primitive: &mut P) -> Result<Vec<usize>, ScriptError>
        ensures fault { IfErr result (λ error. error ≡ ScriptError.NoMemory) }
    {
        let mut lanes = Vec::new(self.alloc);
        for letter in P::LETTERS.chars() {
            let mut slots = Vec::new(self.alloc);
            primitive.queue_of(letter, &mut slots)?;
            for slot in slots {
                if let Some(number) = self.live.get(&(letter, slot.0)) {
                    push(&mut lanes, *number)?;
                }
            }
        }
        Ok(lanes)
    }

    // The lanes of all futures that live, by their ranks; those of the same rank in the order of their makings.
    fn living_lanes<P: ScriptFutures>(
        &self,
        primitive: &P,
    ) -> Result<BTreeMap<(u64, usize), ()>, ScriptError>
        ensures fault { IfErr result (λ error. error ≡ ScriptError.NoMemory) }
    {
        let mut lanes = BTreeMap::new(self.alloc);
        for number in self.live.values() {
            if let Some(lane) = self.lanes.get(*number) {
                let rank = primitive.rank_of(lane.letter, lane.slot);
                insert_under(&mut lanes, (rank, *number), ())?;
            }
        }
        Ok(lanes)
    }

    // Shows a future in the row that comes next, unless it stands there.
    fn show<P: ScriptFutures>(
        &mut self,
        primitive: &P,
        number: usize,
        is_queued: bool,
        row: &mut TableRow,
    ) -> Result<(), ScriptError>
        ensures fault { IfErr result (λ error. error ≡ ScriptError.NoMemory) }
    {
        let newest = self.rows.len();
        let Some(lane) = self.lanes.get_mut(number) else {
            return Ok(());
        };
        let Some(stage) = primitive.stage_of(lane.letter, lane.slot) else {
            return Ok(());
        };
        if lane.shown == Some(newest) {
            return Ok(());
        }
        lane.shown = Some(newest);
        let stage = lane.go_on(stage, newest);
        push(&mut row.futures, (number, stage))?;
        if is_queued {
            append_future(&mut row.queue, lane.label.as_str(), stage)?;
        } else {
            append_future(&mut row.others, lane.label.as_str(), stage)?;
        }
        Ok(())
    }

    /// Appends the table as text: a line for each row, below the opening and the heads of the columns. A column without any word is left
    /// out. A line at the end tells of each future that was notified, and neither polled nor cancelled since.
    pub fn write(&self, text: &mut String) -> Result<(), AllocError> {
        if !self.opening.is_empty() {
            text.push_str(self.opening.as_str())?;
            text.push_str("\n")?;
        }
        let heads = TableRow::heads(self.alloc)?;
        let widths = self.widths(&heads, COLUMNS)?;
        heads.write(self.alloc, widths.as_slice(), text)?;
        text.push_str("\n")?;
        for row in &self.rows {
            row.write(self.alloc, widths.as_slice(), text)?;
            text.push_str("\n")?;
        }
        self.write_notified(text)
    }

    /// The widths of the first columns, whose heads are these; 0 for one without any word.
    pub fn widths(&self, heads: &TableRow, columns: usize) -> Result<Vec<usize>, AllocError> {
        let mut widths = Vec::new(self.alloc);
        for column in 0..columns {
            let mut width = 0;
            for row in &self.rows {
                width = row.cell(column).len().max(width);
            }
            if width > 0 {
                width = width.max(heads.cell(column).len());
            }
            widths.push(width)?;
        }
        Ok(widths)
    }

    fn write_notified(&self, text: &mut String) -> Result<(), AllocError> {
        for lane in &self.lanes {
            if lane.stage == Some(Stage::Notified) {
                let label = lane.label.as_str();
                let number = match self.rows.get(lane.notified) {
                    Some(row) => row.number.as_str(),
                    None => "",
                };
                write!(
                    text,
                    "{label} was notified at {number}, and neither polled nor cancelled since\n"
                )?;
            }
        }
        Ok(())
    }
}

// The label of a call that is about a future: its second word.
fn label_in(call: &str) -> &str {
    let words = call.strip_prefix("hold ").unwrap_or(call);
    let Some((_, rest)) = words.split_once(' ') else {
        return "";
    };
    match rest.split_once(' ') {
        Some((label, _)) => label,
        None => rest,
    }
}

fn append_future(cell: &mut String, label: &str, stage: Stage) -> Result<(), AllocError> {
    if !cell.is_empty() {
        cell.push_str(", ")?;
    }
    let word = match stage {
        Stage::Fresh => "fresh",
        Stage::Registered => "registered",
        Stage::Notified | Stage::Complete => "notified",
        Stage::Ended => "ended",
    };
    write!(cell, "{label} {word}")
}
