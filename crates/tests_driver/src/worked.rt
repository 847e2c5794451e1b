//! Worked rows, played on types that threads share.

use crate::entries::{AnsweredCall, entries_of};
use crate::tasks::Tasks;
use crate::{Flavour, Opened, Play, Played, agrees};
use fi_scripts::Scripted;
use std::alloc::AllocGlobal;
use std::random::RandomSource;
use std::sync::Wait;
use tests_rows::{Row, opening_of};

/// Plays the calls of a row.
#[derive(Drop)]
struct Worked<'a, C> {
    entries: &'a [AnsweredCall<C>],
}

impl<R: Wait, C: Copy> Play<R, C> for Worked<'_, C> {
    fn play<O: Opened<R, C>>(&mut self, rt: &R, tasks: &mut Tasks, opened: &mut O) -> Played {
        for (place, entry) in self.entries.iter().enumerate() {
            if opened.lacks(&entry.call) {
                return Played::AsListed;
            }
            if !agrees(rt, tasks, opened, entry.line()) {
                return Played::DiffersAt(place);
            }
        }
        Played::AsListed
    }
}

/// Plays a row on a type that is opened for it, up to the first call that the type lacks.
pub fn play_row<R, P, F>(rt: &R, flavour: &F, opening: P::Opening, row: &str) -> Played
where
    R: Wait + RandomSource + AllocGlobal,
    P: Scripted,
    P::Call: Copy,
    F: Flavour<R, Call = P::Call>,
{
    let (Some(mut tasks), Some(entries)) = (Tasks::new(rt), entries_of::<R, P>(rt, opening, row))
    else {
        return Played::NoMemory;
    };
    let mut worked = Worked {
        entries: entries.as_slice(),
    };
    flavour.play(rt, &mut tasks, &mut worked)
}

/// How rows went.
#[derive(Clone, Copy, Debug, PartialEq, Eq)]
pub enum Rows {
    /// So many were played as they say.
    Played(usize),
    /// The row of this name differs, or has a bad line, or memory is missing.
    Differs(&'static str, Played),
}

impl Rows {
    /// Whether there were rows, and all were played as they say.
    pub fn are_right(self) -> bool {
        match self {
            Rows::Played(count) => count > 0,
            Rows::Differs(..) => false,
        }
    }

    // The same, with one more row that went so.
    fn and(self, name: &'static str, played: Played) -> Self {
        match self {
            Rows::Played(count) if played == Played::AsListed => {
                Rows::Played(count.saturating_add(1))
            }
            Rows::Played(_) => Rows::Differs(name, played),
            Rows::Differs(..) => self,
        }
    }
}

/// Plays each row on a type that is opened as its first line says.
pub fn play_rows<R, P, F>(rt: &R, rows: &[Row]) -> Rows
where
    R: Wait + RandomSource + AllocGlobal,
    P: Scripted,
    P::Opening: Copy,
    P::Call: Copy,
    F: Flavour<R, Call = P::Call> + From<P::Opening> + Drop,
{
    let mut went = Rows::Played(0);
    for row in rows {
        if let Some(opening) = opening_of::<P>(row.text) {
            let flavour = F::from(opening);
            went = went.and(
                row.name,
                play_row::<R, P, F>(rt, &flavour, opening, row.text),
            );
        }
    }
    went
}

/// Plays each row that begins with this line on a type.
pub fn play_rows_after<R, P, F>(
    rt: &R,
    flavour: &F,
    opening: P::Opening,
    first: &str,
    rows: &[Row],
) -> Rows
where
    R: Wait + RandomSource + AllocGlobal,
    P: Scripted,
    P::Opening: Copy,
    P::Call: Copy,
    F: Flavour<R, Call = P::Call>,
{
    let mut went = Rows::Played(0);
    for row in rows {
        if first_line(row.text) == first {
            went = went.and(
                row.name,
                play_row::<R, P, F>(rt, flavour, opening, row.text),
            );
        }
    }
    went
}

fn first_line(row: &str) -> &str {
    match row.split_once('\n') {
        Some((first, _)) => first,
        None => row,
    }
}
