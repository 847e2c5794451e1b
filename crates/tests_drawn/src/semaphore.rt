//! A plain semaphore, fair or unfair.
use crate::cases::{Lines, POLLS, Reference, agree};
use crate::waiters::{ALL, PlainWaiters, Stage};
use fi_locks::SemaphoreState;
use fi_parts::Fault;
use fi_run::{Answer, SemaphoreCall};
use std::alloc::Global;
use std::test::Fail;

#[derive(Clone, Copy, Drop)]
struct PlainSemaphore {
    is_fair: bool,
    free: usize,
    held: usize,
    needs: [usize; 4],
    // Whether all futures need equally many: of an unfair one with different needs nothing is claimed.
    needs_are_equal: bool,
    acquires: PlainWaiters,
}

impl PlainSemaphore {
    fn need(&self, name: usize) -> usize {
        match self.needs.get(name) {
            Some(need) => *need,
            None => 0,
        }
    }

    // Tells the longest front of the queue whose needs together are free. Of a fair one they keep their places.
    fn tell(&mut self) {
        let mut left = self.free;
        let mut rank = 0u64;
        for _ in 0..4u64 {
            let Some((next, name)) = self.acquires.queued_behind(rank) else {
                return;
            };
            if self.need(name) > left {
                return;
            }
            left = left.wrapping_sub(self.need(name));
            rank = next;
            if !self.is_fair {
                self.acquires.name(name, Stage::Told);
            } else if self.acquires.stage(name) != Stage::Told {
                self.acquires.tell_in_place(name);
            }
        }
    }

    // Whether so many are there for one who has not waited.
    fn is_free_for(&self, permits: usize) -> bool {
        let has_turn = !self.is_fair || permits == 0 || self.acquires.oldest(&ALL).is_none();
        permits <= self.free && has_turn
    }

    fn hand_out(&mut self, permits: usize) {
        self.free = self.free.wrapping_sub(permits);
        self.held = self.held.wrapping_add(permits);
    }

    fn poll(&mut self, name: usize) -> Answer<u64, u64> {
        let need = self.need(name);
        let stage = self.acquires.stage(name);
        let is_granted = match stage {
            Stage::Unpolled => self.is_free_for(need),
            Stage::Waiting => !self.is_fair && need <= self.free,
            Stage::Told => need <= self.free,
            _ => return Answer::Refused(Fault::NoSlot),
        };
        if is_granted {
            self.acquires.leave(name, Stage::Over);
            self.hand_out(need);
            if self.is_fair && stage == Stage::Told {
                self.tell();
            }
            return Answer::Ready;
        }
        if stage != Stage::Waiting {
            self.acquires.wait(name);
        }
        Answer::Pending
    }

    fn cancel(&mut self, name: usize) -> Answer<u64, u64> {
        let stage = self.acquires.stage(name);
        let answer = self.acquires.cancel(name);
        if stage == Stage::Told || (self.is_fair && stage == Stage::Waiting) {
            self.tell();
        }
        answer
    }

    fn try_acquire(&mut self, permits: usize) -> Answer<u64, u64> {
        if !self.is_free_for(permits) {
            return Answer::Nothing;
        }
        self.hand_out(permits);
        Answer::Done
    }

    fn release(&mut self, permits: usize) -> Answer<u64, u64> {
        self.free = self.free.wrapping_add(permits);
        if permits > 0 {
            self.tell();
        }
        Answer::Done
    }

    fn disarm(&mut self, permits: usize) -> Answer<u64, u64> {
        if permits > self.held {
            return Answer::Refused(Fault::NotHeld);
        }
        self.held = self.held.wrapping_sub(permits);
        Answer::Done
    }

    fn give_back(&mut self, permits: usize) -> Answer<u64, u64> {
        match self.disarm(permits) {
            Answer::Done => self.release(permits),
            refused => refused,
        }
    }

    // Whether the told ones are a front of the queue whose needs together are free, which has the oldest if its need alone is.
    fn told_are_a_front(&self) -> bool {
        let mut needed = 0usize;
        let mut rank = 0u64;
        let mut is_over = false;
        for _ in 0..4u64 {
            let Some((next, name)) = self.acquires.queued_behind(rank) else {
                break;
            };
            let is_told = self.acquires.stage(name) == Stage::Told;
            if (is_told && is_over) || (rank == 0 && is_told != (self.need(name) <= self.free)) {
                return false;
            }
            is_over = !is_told;
            if is_told {
                needed = needed.wrapping_add(self.need(name));
            }
            rank = next;
        }
        needed <= self.free
    }
}

impl Reference<SemaphoreState<u64>> for PlainSemaphore {
    fn answer(&mut self, call: SemaphoreCall<u64>) -> Answer<u64, u64> {
        match call {
            SemaphoreCall::Acquire(_) => self.acquires.make(&ALL),
            SemaphoreCall::Poll(slot, _) => self.poll(slot.0),
            SemaphoreCall::Cancel(slot) => self.cancel(slot.0),
            SemaphoreCall::TryAcquire(permits) => self.try_acquire(permits),
            SemaphoreCall::Release(permits) => self.release(permits),
            SemaphoreCall::GiveBack(permits) => self.give_back(permits),
            SemaphoreCall::Disarm(permits) => self.disarm(permits),
            SemaphoreCall::Permits => Answer::Number(self.free),
            SemaphoreCall::Held => Answer::Number(self.held),
            SemaphoreCall::NextWake => self.acquires.next_wake(),
        }
    }

    // Of an unfair one whose futures need equally many: those told and one more would need more than is free.
    fn owes_no_wake(&self) -> bool {
        if self.is_fair {
            return self.told_are_a_front();
        }
        let served = self.acquires.count(&ALL, Stage::Told).wrapping_add(1);
        !self.needs_are_equal
            || self.acquires.oldest(&ALL).is_none()
            || served.wrapping_mul(self.need(0)) > self.free
    }
}

const MIXED: &str = "acquire a 1; acquire b 2; acquire c 1; acquire d 1";

const OF_TWO: &str = "acquire a 2; acquire b 2; acquire c 2; acquire d 2";

// Of futures that these lines make, which need so many permits each.
fn agrees(
    alloc: Global,
    is_fair: bool,
    makings: &'static str,
    needs: [usize; 4],
) -> Result<bool, Fail> {
    let [first, second, third, fourth] = needs;
    let reference = PlainSemaphore {
        is_fair,
        free: 1,
        held: 0,
        needs,
        needs_are_equal: first == second && first == third && first == fourth,
        acquires: PlainWaiters::new(),
    };
    let lines = Lines {
        makings,
        polls: POLLS,
        others: "try-acquire 1; release 1; give-back 1",
    };
    agree::<SemaphoreState<u64>, PlainSemaphore>(alloc, (1, is_fair), reference, lines)
}

#[test]
fn drawn_schedules_of_a_semaphore(rt: HostRuntime) -> Result<(), Fail> {
    assert!(rt; agrees(rt.alloc(), true, MIXED, [1, 2, 1, 1])?);
    assert!(rt; agrees(rt.alloc(), false, MIXED, [1, 2, 1, 1])?);
    assert!(rt; agrees(rt.alloc(), false, OF_TWO, [2; 4])?);
    Ok(())
}
