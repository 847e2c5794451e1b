//! A plain event.
use crate::cases::{Lines, POLLS, Reference, agree};
use crate::waiters::{ALL, PlainWaiters, Stage};
use fi_channels::EventState;
use fi_run::{Answer, EventCall};
use std::test::Fail;

#[derive(Clone, Copy, Drop)]
struct PlainEvent {
    is_set: bool,
    waits: PlainWaiters,
}

impl Reference<EventState<u64>> for PlainEvent {
    fn answer(&mut self, call: EventCall<u64>) -> Answer<u64, u64> {
        match call {
            EventCall::Wait => self.waits.make(&ALL),
            EventCall::Poll(slot, _) => {
                let answer = self.waits.poll(slot.0, !self.is_set);
                answer.unwrap_or(Answer::Ready)
            }
            EventCall::Cancel(slot) => self.waits.cancel(slot.0),
            EventCall::Set => {
                self.is_set = true;
                self.waits.name_all(&ALL, Stage::Told);
                Answer::Done
            }
            EventCall::Reset => {
                self.is_set = false;
                Answer::Done
            }
            EventCall::IsSet => Answer::Flag(self.is_set),
            EventCall::NextWake => self.waits.next_wake(),
        }
    }

    fn owes_no_wake(&self) -> bool {
        !self.is_set || self.waits.count(&ALL, Stage::Waiting) == 0
    }
}

#[test]
fn drawn_schedules_of_an_event(rt: HostRuntime) -> Result<(), Fail> {
    let reference = PlainEvent {
        is_set: false,
        waits: PlainWaiters::new(),
    };
    let lines = Lines {
        makings: "wait a; wait b; wait c; wait d",
        polls: POLLS,
        others: "set; reset",
    };
    assert!(rt; agree::<EventState<u64>, PlainEvent>(rt.alloc(), false, reference, lines)?);
    Ok(())
}
