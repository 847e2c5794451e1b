//! Worked rows played on what threads share with no memory left, but for the makings: all other calls are answered, and wake, as ever.
use crate::entries::{AnsweredCall, entries_of};
use crate::tasks::Tasks;
use crate::{Flavour, Opened, Play, Played, agrees};
use fi_run::Answer;
use fi_scripts::Scripted;
use std::alloc::AllocGlobal;
use std::random::RandomSource;
use std::sync::Wait;
use tests_help::hoard::Hoard;

/// Plays a row, each call but a making with no memory left.
#[derive(Drop)]
struct Starved<'a, C> {
    entries: &'a [AnsweredCall<C>],
    hoard: Hoard,
}

impl<C> Starved<'_, C> {
    // Leaves nothing to a call, unless it makes something. Answers whether nothing is left, where memory has an end.
    fn starve(&mut self, answer: Answer<u64, u64>) -> bool {
        matches!(answer, Answer::Made(_)) || !self.hoard.has_end() || self.hoard.leave(0)
    }
}

impl<R: Wait, C: Copy> Play<R, C> for Starved<'_, C> {
    fn play<O: Opened<R, C>>(&mut self, rt: &R, tasks: &mut Tasks, opened: &mut O) -> Played {
        for (place, entry) in self.entries.iter().enumerate() {
            if opened.lacks(&entry.call) {
                return Played::AsListed;
            }
            let is_starved = self.starve(entry.answer);
            let is_right = agrees(rt, tasks, opened, entry.line());
            self.hoard.let_go();
            if !is_right || !is_starved {
                return Played::DiffersAt(place);
            }
        }
        Played::AsListed
    }
}

/// Plays a row on a type that is opened for it, up to the first call that the type lacks: each call but a making is answered as the row
/// says with no memory left, and wakes whom it says.
pub fn play_starved<R, P, F>(rt: &R, flavour: &F, opening: P::Opening, row: &str) -> Played
where
    R: Wait + RandomSource + AllocGlobal,
    P: Scripted,
    P::Call: Copy,
    F: Flavour<R, Call = P::Call>,
{
    let (Some(mut tasks), Ok(hoard), Some(entries)) = (
        Tasks::new(rt),
        Hoard::new(rt.alloc()),
        entries_of::<R, P>(rt, opening, row),
    ) else {
        return Played::NoMemory;
    };
    let mut starved = Starved {
        entries: entries.as_slice(),
        hoard,
    };
    flavour.play(rt, &mut tasks, &mut starved)
}
