//! Who waits, as plainly as can be.
use fi_parts::{Fault, Slot};
use fi_run::Answer;

/// What became of a future.
#[derive(Clone, Copy, Debug, PartialEq, Eq)]
pub(crate) enum Stage {
    Unmade,
    Unpolled,
    Waiting,
    Told,
    Complete,
    Over,
}

/// All four futures.
pub(crate) const ALL: [usize; 4] = [0, 1, 2, 3];

/// Four futures by their places: what became of each, and its ranks in the queue and among those that are to be woken.
#[derive(Clone, Copy, Drop)]
pub(crate) struct PlainWaiters {
    stages: [Stage; 4],
    queued: [Option<u64>; 4],
    named: [Option<u64>; 4],
    ranks: u64,
}

// Which of these has the least rank above this one, and that rank.
fn least(ranks: &[Option<u64>; 4], names: &[usize], above: u64) -> Option<(u64, usize)> {
    let mut least: Option<(u64, usize)> = None;
    for name in names {
        if let Some(Some(rank)) = ranks.get(*name) {
            match least {
                _ if *rank <= above => (),
                Some((before, _)) if before <= *rank => (),
                _ => least = Some((*rank, *name)),
            }
        }
    }
    least
}

fn put<T: Copy>(places: &mut [T; 4], name: usize, value: T) {
    if let Some(place) = places.get_mut(name) {
        *place = value;
    }
}

impl PlainWaiters {
    pub(crate) fn new() -> Self {
        PlainWaiters {
            stages: [Stage::Unmade; 4],
            queued: [None; 4],
            named: [None; 4],
            ranks: 0,
        }
    }

    pub(crate) fn stage(&self, name: usize) -> Stage {
        match self.stages.get(name) {
            Some(stage) => *stage,
            None => Stage::Unmade,
        }
    }

    // How many of these are at this stage.
    pub(crate) fn count(&self, names: &[usize], stage: Stage) -> usize {
        let mut count = 0usize;
        for name in names {
            if self.stage(*name) == stage {
                count = count.wrapping_add(1);
            }
        }
        count
    }

    fn next_rank(&mut self) -> u64 {
        self.ranks = self.ranks.wrapping_add(1);
        self.ranks
    }

    // It is at this stage, and neither queued nor named.
    pub(crate) fn leave(&mut self, name: usize, stage: Stage) {
        put(&mut self.stages, name, stage);
        put(&mut self.queued, name, None);
        put(&mut self.named, name, None);
    }

    // The first of these that was not made is made.
    pub(crate) fn make(&mut self, names: &[usize]) -> Answer<u64, u64> {
        let mut slot = 0usize;
        for name in names {
            if self.stage(*name) == Stage::Unmade {
                self.leave(*name, Stage::Unpolled);
                return Answer::Made(Slot(slot));
            }
            slot = slot.wrapping_add(1);
        }
        // The lists make no more: no call is answered this.
        Answer::Refused(Fault::TooManyEnds)
    }

    // What a poll is answered, unless it ends its future: one that was not polled yet waits then, or doesn't.
    pub(crate) fn poll(&mut self, name: usize, waits: bool) -> Option<Answer<u64, u64>> {
        match self.stage(name) {
            Stage::Waiting => Some(Answer::Pending),
            Stage::Unpolled if waits => {
                self.wait(name);
                Some(Answer::Pending)
            }
            Stage::Unpolled | Stage::Told => {
                self.leave(name, Stage::Over);
                None
            }
            _ => Some(Answer::Refused(Fault::NoSlot)),
        }
    }

    // It waits, before all of a greater rank.
    pub(crate) fn wait_at(&mut self, name: usize, rank: u64) {
        self.leave(name, Stage::Waiting);
        put(&mut self.queued, name, Some(rank));
    }

    // It waits, at the queue's end.
    pub(crate) fn wait(&mut self, name: usize) {
        let rank = self.next_rank();
        self.wait_at(name, rank);
    }

    // Who of these has waited longest.
    pub(crate) fn oldest(&self, names: &[usize]) -> Option<usize> {
        let (_, name) = least(&self.queued, names, 0)?;
        Some(name)
    }

    // Who is queued next behind this rank, with its own. Ranks begin at 1.
    pub(crate) fn queued_behind(&self, rank: u64) -> Option<(u64, usize)> {
        least(&self.queued, &ALL, rank)
    }

    // It is told and to be woken, after the others, and keeps its place in the queue.
    pub(crate) fn tell_in_place(&mut self, name: usize) {
        let rank = self.next_rank();
        put(&mut self.stages, name, Stage::Told);
        put(&mut self.named, name, Some(rank));
    }

    // It leaves the queue for this stage, and is to be woken, after the others.
    pub(crate) fn name(&mut self, name: usize, stage: Stage) {
        let rank = self.next_rank();
        self.leave(name, stage);
        put(&mut self.named, name, Some(rank));
    }

    pub(crate) fn name_oldest(&mut self, names: &[usize], stage: Stage) {
        if let Some(oldest) = self.oldest(names) {
            self.name(oldest, stage);
        }
    }

    pub(crate) fn name_all(&mut self, names: &[usize], stage: Stage) {
        for _ in 0..4u64 {
            self.name_oldest(names, stage);
        }
    }

    pub(crate) fn cancel(&mut self, name: usize) -> Answer<u64, u64> {
        if self.stage(name) == Stage::Unmade {
            return Answer::Refused(Fault::NoSlot);
        }
        self.leave(name, Stage::Unmade);
        Answer::Done
    }

    // Each future's waker is its place and one.
    pub(crate) fn next_wake(&mut self) -> Answer<u64, u64> {
        let named = least(&self.named, &ALL, 0);
        match named {
            Some((_, name)) => {
                put(&mut self.named, name, None);
                Answer::Woken(Some((name as u64).wrapping_add(1)))
            }
            None => Answer::Woken(None),
        }
    }
}
