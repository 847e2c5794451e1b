//! A plain state broadcast.
use crate::cases::{Lines, POLLS, Reference, agree};
use crate::waiters::{ALL, PlainWaiters, Stage};
use fi_channels::StateBroadcastState;
use fi_parts::{Fault, StateId};
use fi_run::{Answer, StateCall};
use std::test::Fail;

/// Which state each of the four receives has seen, as their lines say.
const SEEN: [u64; 4] = [0, 1, 0, 1];

#[derive(Clone, Copy, Drop)]
struct PlainState {
    is_closed: bool,
    number: u64,
    value: u64,
    receives: PlainWaiters,
}

fn seen(name: usize) -> u64 {
    match SEEN.get(name) {
        Some(seen) => *seen,
        None => 0,
    }
}

impl PlainState {
    // A state that is newer than this one, if there is one.
    fn newer(&self, seen: u64) -> Option<Answer<u64, u64>> {
        if self.number > seen {
            Some(Answer::State(StateId::from_value(self.number), self.value))
        } else {
            None
        }
    }

    fn poll(&mut self, name: usize) -> Answer<u64, u64> {
        let newer = self.newer(seen(name));
        let waits = newer.is_none() && !self.is_closed;
        match self.receives.poll(name, waits) {
            Some(answer) => answer,
            None => newer.unwrap_or(Answer::Nothing),
        }
    }

    fn send(&mut self, value: u64) -> Answer<u64, u64> {
        if self.is_closed {
            return Answer::Back(value, Fault::Closed);
        }
        self.number = self.number.wrapping_add(1);
        self.value = value;
        self.receives.name_all(&ALL, Stage::Unpolled);
        Answer::Done
    }

    fn close(&mut self) -> Answer<u64, u64> {
        if self.is_closed {
            return Answer::Already;
        }
        self.is_closed = true;
        self.receives.name_all(&ALL, Stage::Unpolled);
        Answer::Newly
    }
}

impl Reference<StateBroadcastState<u64, u64>> for PlainState {
    fn answer(&mut self, call: StateCall<u64, u64>) -> Answer<u64, u64> {
        match call {
            // In each case the receives are made in this order.
            StateCall::Receive(_) => self.receives.make(&ALL),
            StateCall::Poll(slot, _) => self.poll(slot.0),
            StateCall::Cancel(slot) => self.receives.cancel(slot.0),
            StateCall::TryReceive(seen) => self.newer(seen.value()).unwrap_or(Answer::Nothing),
            StateCall::Send(value) => self.send(value),
            StateCall::Close => self.close(),
            StateCall::NextWake => self.receives.next_wake(),
        }
    }

    // Whoever waits has seen the newest state, or the first send is still to come.
    fn owes_no_wake(&self) -> bool {
        for name in &ALL {
            let waits = self.receives.stage(*name) == Stage::Waiting;
            if waits && (self.is_closed || self.newer(seen(*name)).is_some()) {
                return false;
            }
        }
        true
    }
}

#[test]
fn drawn_schedules_of_a_state_broadcast(rt: HostRuntime) -> Result<(), Fail> {
    let reference = PlainState {
        is_closed: false,
        number: 0,
        value: 0,
        receives: PlainWaiters::new(),
    };
    let lines = Lines {
        makings: "receive a 0; receive b 1; receive c 0; receive d 1",
        polls: POLLS,
        others: "try-receive 0; try-receive 1; send 5; close",
    };
    assert!(rt;
        agree::<StateBroadcastState<u64, u64>, PlainState>(rt.alloc(), (), reference, lines)?
    );
    Ok(())
}
