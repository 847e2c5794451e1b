//! A plain worker pool, in which at most two jobs wait.
use crate::cases::{Lines, POLLS, Reference, agree};
use crate::waiters::{ALL, PlainWaiters, Stage};
use fi_desk::{PoolCall, PoolState};
use fi_parts::Fault;
use fi_run::Answer;
use std::alloc::Global;
use std::test::Fail;

#[derive(Clone, Copy, Drop)]
struct PlainPool {
    limit: usize,
    capacity: usize,
    is_closed: bool,
    is_drained: bool,
    running: usize,
    // The jobs that wait, the oldest first.
    jobs: [Option<u64>; 2],
    waits: PlainWaiters,
}

impl PlainPool {
    fn waiting(&self) -> usize {
        match self.jobs {
            [None, _] => 0,
            [Some(_), None] => 1,
            [Some(_), Some(_)] => 2,
        }
    }

    fn submit(&mut self, job: u64) -> Answer<u64, u64> {
        if self.is_closed {
            return Answer::Back(job, Fault::Closed);
        }
        if self.waiting() >= self.capacity {
            return Answer::Back(job, Fault::Full);
        }
        self.jobs = match self.jobs {
            [None, _] => [Some(job), None],
            [first, _] => [first, Some(job)],
        };
        Answer::Done
    }

    fn start(&mut self) -> Answer<u64, u64> {
        if self.running >= self.limit {
            return Answer::Nothing;
        }
        let [first, second] = self.jobs;
        match first {
            Some(job) => {
                self.jobs = [second, None];
                self.running = self.running.wrapping_add(1);
                Answer::Item(job)
            }
            None if self.is_closed => Answer::Refused(Fault::Closed),
            None => Answer::Refused(Fault::Empty),
        }
    }

    fn finish(&mut self) -> Answer<u64, u64> {
        if self.running == 0 {
            return Answer::Refused(Fault::NotHeld);
        }
        self.running = self.running.wrapping_sub(1);
        self.tell_if_drained();
        Answer::Done
    }

    fn shutdown(&mut self) -> Answer<u64, u64> {
        if self.is_closed {
            return Answer::Already;
        }
        self.is_closed = true;
        self.tell_if_drained();
        Answer::Newly
    }

    fn tell_if_drained(&mut self) {
        if self.is_closed && self.running == 0 && self.waiting() == 0 {
            self.is_drained = true;
            self.waits.name_all(&ALL, Stage::Told);
        }
    }
}

impl Reference<PoolState<u64>> for PlainPool {
    fn answer(&mut self, call: PoolCall<u64>) -> Answer<u64, u64> {
        match call {
            PoolCall::Submit(job) => self.submit(job),
            PoolCall::Start => self.start(),
            PoolCall::Finish => self.finish(),
            PoolCall::Shutdown => self.shutdown(),
            PoolCall::Wait => self.waits.make(&ALL),
            PoolCall::Poll(slot, _) => {
                let answer = self.waits.poll(slot.0, !self.is_drained);
                answer.unwrap_or(Answer::Ready)
            }
            PoolCall::Cancel(slot) => self.waits.cancel(slot.0),
            PoolCall::NextWake => self.waits.next_wake(),
        }
    }

    fn owes_no_wake(&self) -> bool {
        !self.is_drained || self.waits.count(&ALL, Stage::Waiting) == 0
    }
}

fn agrees(alloc: Global, limit: usize, capacity: usize) -> Result<bool, Fail> {
    let reference = PlainPool {
        limit,
        capacity,
        is_closed: false,
        is_drained: false,
        running: 0,
        jobs: [None; 2],
        waits: PlainWaiters::new(),
    };
    let lines = Lines {
        makings: "wait a; wait b; wait c; wait d",
        polls: POLLS,
        others: "submit 5; start; finish; shutdown",
    };
    agree::<PoolState<u64>, PlainPool>(alloc, (limit, capacity), reference, lines)
}

#[test]
fn drawn_schedules_of_a_pool(rt: HostRuntime) -> Result<(), Fail> {
    assert!(rt; agrees(rt.alloc(), 1, 1)? && agrees(rt.alloc(), 2, 2)?);
    Ok(())
}
