//! The calls of a row on what threads share, with what the plain state answers and whom it wakes.
//!
//! A thread-safe call wakes before it returns, so nothing is held back. A poll of a future that has ended stays pending, and no guard or
//! releaser gives back what isn't held: such calls of a row are left out.

use crate::drawn::is_left_out;
use crate::{Line, take_wakers};
use fi_parts::{Fault, Slot};
use fi_run::{Answer, Row, Verb};
use fi_scripts::{Labels, Scripted};
use std::alloc::{AllocGlobal, Global};
use tests_rows::call_of;

/// A call, its answer, and the wakers of those whom it wakes, in their order. A drop has no answer, whatever stands here.
#[derive(Drop)]
pub struct AnsweredCall<C> {
    pub call: C,
    pub answer: Answer<u64, u64>,
    pub woken: Vec<u64>,
}

impl<C: Copy> AnsweredCall<C> {
    /// The line that says the same.
    pub fn line(&self) -> Line<'_, C> {
        Line {
            call: self.call,
            answer: self.answer,
            woken: self.woken.as_slice(),
        }
    }
}

/// How many futures were made, by what they are. A type that threads share keeps its futures by these numbers.
#[derive(Clone, Copy, Drop)]
struct Made {
    sends: usize,
    streams: usize,
    others: usize,
}

impl Made {
    // The number of the next future that this verb makes.
    fn next(&mut self, verb: Verb) -> Slot {
        let count = match verb {
            Verb::Send => &mut self.sends,
            Verb::Stream => &mut self.streams,
            _ => &mut self.others,
        };
        let number = *count;
        *count = number.saturating_add(1);
        Slot(number)
    }
}

/// A plain state on which a row is played, with its labels: what they stand for there, and on a type that threads share.
#[derive(Drop)]
struct Reader<P: Scripted> {
    state: P,
    labels: Labels,
    shared_labels: Labels,
    made: Made,
}

impl<P: Scripted> Reader<P> {
    fn open(alloc: Global, opening: P::Opening) -> Option<Self> {
        Some(Reader {
            state: P::open(alloc, opening).ok()?,
            labels: Labels::new(alloc, 1).ok()?,
            shared_labels: Labels::new(alloc, 1).ok()?,
            made: Made {
                sends: 0,
                streams: 0,
                others: 0,
            },
        })
    }

    // Makes the call of a line on the state. Some(None) where the line has none that a type that threads share can make.
    fn entry<R: AllocGlobal>(
        &mut self,
        rt: &R,
        line: &str,
    ) -> Option<Option<AnsweredCall<P::Call>>> {
        let line = call_of(line).as_bytes();
        let (_, request) = self.labels.read::<P>(line)?;
        let Some(request) = request else {
            return Some(None);
        };
        let (_, shared) = self.shared_labels.read::<P>(line)?;
        let call = shared?.call;
        let (row, label) = (request.row, request.label);
        let answer = self.state.apply(request.call);
        self.labels.keep(row, label, &answer).ok()?;
        let answer = self.shared_answer(row, answer);
        self.shared_labels.keep(row, label, &answer).ok()?;
        if is_left_out(&answer) {
            return Some(None);
        }
        let woken = take_wakers(rt, &mut self.state).ok()?;
        Some(Some(AnsweredCall {
            call,
            answer,
            woken,
        }))
    }

    // What a type that threads share answers where the state answers this.
    fn shared_answer(&mut self, row: Row, answer: Answer<u64, u64>) -> Answer<u64, u64> {
        match (row, answer) {
            (Row::Make(verb, _), Answer::Made(_)) => Answer::Made(self.made.next(verb)),
            (_, Answer::Refused(Fault::NoSlot)) => Answer::Pending,
            _ => answer,
        }
    }
}

/// The entries of a row on a state that is opened so. None if memory is missing, or a line is bad.
pub fn entries_of<R: AllocGlobal, P: Scripted>(
    rt: &R,
    opening: P::Opening,
    row: &str,
) -> Option<Vec<AnsweredCall<P::Call>>> {
    let mut reader = Reader::<P>::open(rt.alloc(), opening)?;
    let mut entries = Vec::new(rt.alloc());
    let (_, lines) = row.split_once('\n')?;
    for line in lines.split('\n') {
        if let Some(entry) = reader.entry(rt, line)? {
            entries.push(entry).ok()?;
        }
    }
    Some(entries)
}
