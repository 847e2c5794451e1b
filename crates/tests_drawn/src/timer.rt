//! A plain timer.
use crate::cases::{Lines, Reference, agree};
use crate::waiters::{ALL, PlainWaiters, Stage};
use fi_locks::TimerState;
use fi_parts::Fault;
use fi_run::{Answer, TimerCall};
use std::test::Fail;

/// When each of the four futures expires, as their lines say.
const EXPIRIES: [u64; 4] = [1, 2, 2, 3];

#[derive(Clone, Copy, Drop)]
struct PlainTimer {
    // The greatest moment of a check. Polls are made at 0.
    checked: u64,
    futures: PlainWaiters,
}

fn expiry(name: usize) -> u64 {
    match EXPIRIES.get(name) {
        Some(expiry) => *expiry,
        None => u64::MAX,
    }
}

impl PlainTimer {
    fn poll(&mut self, name: usize, now: u64) -> Answer<u64, u64> {
        match self.futures.stage(name) {
            Stage::Waiting => Answer::Pending,
            Stage::Unpolled if now < expiry(name) => {
                self.futures.wait_at(name, expiry(name));
                self.checked = now.min(self.checked);
                Answer::Pending
            }
            Stage::Unpolled | Stage::Told => {
                self.futures.leave(name, Stage::Over);
                Answer::Ready
            }
            _ => Answer::Refused(Fault::NoSlot),
        }
    }

    fn next(&self) -> Option<u64> {
        Some(expiry(self.futures.oldest(&ALL)?))
    }

    fn check(&mut self, now: u64) -> Answer<u64, u64> {
        self.checked = now.max(self.checked);
        for _ in &ALL {
            match self.next() {
                Some(expiry) if expiry <= now => self.futures.name_oldest(&ALL, Stage::Told),
                _ => (),
            }
        }
        Answer::Done
    }
}

impl Reference<TimerState<u64>> for PlainTimer {
    fn answer(&mut self, call: TimerCall<u64>) -> Answer<u64, u64> {
        match call {
            TimerCall::Deadline(_) | TimerCall::Delay(_, _) => self.futures.make(&ALL),
            TimerCall::Poll(slot, now, _) => self.poll(slot.0, now),
            TimerCall::Cancel(slot) => self.futures.cancel(slot.0),
            TimerCall::Check(now) => self.check(now),
            TimerCall::Next => Answer::Moment(self.next()),
            TimerCall::NextWake => self.futures.next_wake(),
        }
    }

    fn owes_no_wake(&self) -> bool {
        match self.next() {
            Some(expiry) => self.checked < expiry,
            None => true,
        }
    }
}

#[test]
fn drawn_schedules_of_a_timer(rt: HostRuntime) -> Result<(), Fail> {
    let reference = PlainTimer {
        checked: 0,
        futures: PlainWaiters::new(),
    };
    let lines = Lines {
        makings: "deadline a 1; deadline b 2; deadline c 2; deadline d 3",
        polls: "poll a 0 1; poll b 0 2; poll c 0 3; poll d 0 4",
        others: "check 1; check 3",
    };
    assert!(rt; agree::<TimerState<u64>, PlainTimer>(rt.alloc(), (), reference, lines)?);
    Ok(())
}
