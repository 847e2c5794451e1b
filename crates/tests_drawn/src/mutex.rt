//! A plain mutex, fair or unfair.
use crate::cases::{Lines, POLLS, Reference, agree};
use crate::waiters::{ALL, PlainWaiters, Stage};
use fi_locks::MutexState;
use fi_parts::Fault;
use fi_run::{Answer, MutexCall};
use std::alloc::Global;
use std::test::Fail;

#[derive(Clone, Copy, Drop)]
struct PlainMutex {
    is_fair: bool,
    // None while it is locked.
    value: Option<u64>,
    locks: PlainWaiters,
}

impl PlainMutex {
    fn tell_oldest(&mut self) {
        match self.locks.oldest(&ALL) {
            Some(oldest) if self.is_fair => self.locks.tell_in_place(oldest),
            Some(oldest) => self.locks.name(oldest, Stage::Told),
            None => (),
        }
    }

    // The value, for one who has not waited.
    fn take(&mut self) -> Option<u64> {
        if self.is_fair && self.locks.oldest(&ALL).is_some() {
            return None;
        }
        self.value.take()
    }

    fn poll(&mut self, name: usize) -> Answer<u64, u64> {
        let stage = self.locks.stage(name);
        let given = match stage {
            Stage::Unpolled => self.take(),
            Stage::Waiting if self.is_fair => None,
            Stage::Waiting | Stage::Told => self.value.take(),
            _ => return Answer::Refused(Fault::NoSlot),
        };
        match given {
            Some(value) => {
                self.locks.leave(name, Stage::Over);
                Answer::Item(value)
            }
            None => {
                if stage != Stage::Waiting {
                    self.locks.wait(name);
                }
                Answer::Pending
            }
        }
    }

    fn cancel(&mut self, name: usize) -> Answer<u64, u64> {
        let was_told = self.locks.stage(name) == Stage::Told;
        let answer = self.locks.cancel(name);
        if was_told {
            self.tell_oldest();
        }
        answer
    }

    fn unlock(&mut self, value: u64) -> Answer<u64, u64> {
        if self.value.is_some() {
            return Answer::Back(value, Fault::NotHeld);
        }
        self.value = Some(value);
        self.tell_oldest();
        Answer::Done
    }
}

impl Reference<MutexState<u64, u64>> for PlainMutex {
    fn answer(&mut self, call: MutexCall<u64, u64>) -> Answer<u64, u64> {
        match call {
            MutexCall::Lock => self.locks.make(&ALL),
            MutexCall::Poll(slot, _) => self.poll(slot.0),
            MutexCall::Cancel(slot) => self.cancel(slot.0),
            MutexCall::TryLock => match self.take() {
                Some(value) => Answer::Item(value),
                None => Answer::Nothing,
            },
            MutexCall::Unlock(value) => self.unlock(value),
            MutexCall::IsLocked => Answer::Flag(self.value.is_none()),
            MutexCall::NextWake => self.locks.next_wake(),
        }
    }

    // Of a fair one the oldest alone is told, exactly while it is free. A free unfair one has told someone, if anybody is queued.
    fn owes_no_wake(&self) -> bool {
        let told = self.locks.count(&ALL, Stage::Told);
        match self.locks.oldest(&ALL) {
            None => !self.is_fair || told == 0,
            Some(_) if !self.is_fair => self.value.is_none() || told > 0,
            Some(oldest) => {
                let is_told = self.locks.stage(oldest) == Stage::Told;
                is_told == self.value.is_some() && told == is_told as usize
            }
        }
    }
}

fn agrees(alloc: Global, is_fair: bool) -> Result<bool, Fail> {
    let reference = PlainMutex {
        is_fair,
        value: Some(7),
        locks: PlainWaiters::new(),
    };
    let lines = Lines {
        makings: "lock a; lock b; lock c; lock d",
        polls: POLLS,
        others: "try-lock; unlock 8",
    };
    agree::<MutexState<u64, u64>, PlainMutex>(alloc, (7, is_fair), reference, lines)
}

#[test]
fn drawn_schedules_of_a_mutex(rt: HostRuntime) -> Result<(), Fail> {
    assert!(rt; agrees(rt.alloc(), true)? && agrees(rt.alloc(), false)?);
    Ok(())
}
