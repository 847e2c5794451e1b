//! Plain channels of one value: the oneshot, whose first receive takes the value, and the broadcast, whose receives are all given it.
use crate::cases::{Lines, POLLS, Reference, agree};
use crate::waiters::{ALL, PlainWaiters, Stage};
use fi_channels::{ClonesValue, GivesValue, OneValueState, TakesValue};
use fi_parts::Fault;
use fi_run::{Answer, OneshotCall, ScriptGiving};
use std::alloc::Global;
use std::test::Fail;

#[derive(Clone, Copy, PartialEq, Eq)]
enum Content {
    Empty,
    Full(u64),
    Spent,
}

#[derive(Clone, Copy, Drop)]
struct PlainOneValue {
    content: Content,
    keeps_value: bool,
    receives: PlainWaiters,
}

impl PlainOneValue {
    fn new(keeps_value: bool) -> Self {
        PlainOneValue {
            content: Content::Empty,
            keeps_value,
            receives: PlainWaiters::new(),
        }
    }

    fn give(&mut self) -> Answer<u64, u64> {
        match self.content {
            Content::Full(value) => {
                if !self.keeps_value {
                    self.content = Content::Spent;
                }
                Answer::Item(value)
            }
            Content::Empty | Content::Spent => Answer::Nothing,
        }
    }

    fn poll(&mut self, name: usize) -> Answer<u64, u64> {
        match self.receives.poll(name, self.content == Content::Empty) {
            Some(answer) => answer,
            None => self.give(),
        }
    }

    // Leaves it with this content, where it was empty: whether it was.
    fn settle(&mut self, content: Content) -> bool {
        if self.content != Content::Empty {
            return false;
        }
        self.content = content;
        self.receives.name_all(&ALL, Stage::Unpolled);
        true
    }
}

impl<G: GivesValue<u64>> Reference<OneValueState<u64, u64, G>> for PlainOneValue {
    fn answer(&mut self, call: OneshotCall<u64, u64>) -> Answer<u64, u64> {
        match call {
            OneshotCall::Receive => self.receives.make(&ALL),
            OneshotCall::Poll(slot, _) => self.poll(slot.0),
            OneshotCall::Cancel(slot) => self.receives.cancel(slot.0),
            OneshotCall::TryReceive if self.content == Content::Empty => Answer::Refused(
                Fault::Empty,
            ),
            OneshotCall::TryReceive => self.give(),
            OneshotCall::Send(value) if self.settle(Content::Full(value)) => Answer::Done,
            OneshotCall::Send(value) => Answer::Back(value, Fault::Closed),
            OneshotCall::Close if self.settle(Content::Spent) => Answer::Newly,
            OneshotCall::Close => Answer::Already,
            OneshotCall::NextWake => self.receives.next_wake(),
        }
    }

    fn owes_no_wake(&self) -> bool {
        self.content == Content::Empty || self.receives.count(&ALL, Stage::Waiting) == 0
    }
}

fn agrees<G: GivesValue<u64> + ScriptGiving>(
    alloc: Global,
    keeps_value: bool,
) -> Result<bool, Fail> {
    let lines = Lines {
        makings: "receive a; receive b; receive c; receive d",
        polls: POLLS,
        others: "try-receive; send 5; close",
    };
    let reference = PlainOneValue::new(keeps_value);
    agree::<OneValueState<u64, u64, G>, PlainOneValue>(alloc, (), reference, lines)
}

#[test]
fn drawn_schedules_of_a_oneshot(rt: HostRuntime) -> Result<(), Fail> {
    assert!(rt; agrees::<TakesValue>(rt.alloc(), false)?);
    Ok(())
}

#[test]
fn drawn_schedules_of_a_oneshot_broadcast(rt: HostRuntime) -> Result<(), Fail> {
    assert!(rt; agrees::<ClonesValue>(rt.alloc(), true)?);
    Ok(())
}
