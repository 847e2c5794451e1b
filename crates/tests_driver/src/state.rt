//! The state broadcast.

use crate::owned::Futures;
use crate::tasks::Tasks;
use crate::{Flavour, Opened, Play, Played, Seen};
use fi_parts::{Slot, StateId};
use fi_run::{Answer, StateCall};
use fi_sync::{StateBroadcastChannel, StateReceiveFuture};
use std::alloc::AllocGlobal;
use std::sync::Wait;

/// The number of the state that a call has seen already. (A number, since a function with borrows can't bind a `StateId`: the prover
/// doesn't find its type then.)
pub fn asked(call: StateCall<u64, u64>) -> u64 {
    match call {
        StateCall::Receive(seen) | StateCall::TryReceive(seen) => seen.value(),
        _ => 0,
    }
}

#[derive(Drop)]
pub struct OpenedState<'a, C, F: Drop> {
    channel: &'a C,
    receives: Futures<F>,
}

impl<'a, C, F: Drop> OpenedState<'a, C, F> {
    /// None if memory is missing.
    pub fn new<R: AllocGlobal>(rt: &R, channel: &'a C) -> Option<Self> {
        Some(OpenedState {
            channel,
            receives: Futures::new(rt)?,
        })
    }
}

impl<'a, R: Wait> Opened<R, StateCall<u64, u64>>
    for OpenedState<'a, StateBroadcastChannel<u64, R>, StateReceiveFuture<'a, u64, R>> {
    fn apply(&mut self, rt: &R, tasks: &mut Tasks, call: StateCall<u64, u64>) -> Seen {
        match call {
            StateCall::Receive(_) => {
                let receive = self.channel.receive(StateId::from_value(asked(call)));
                self.receives.keep(receive)
            }
            StateCall::Poll(Slot(number), waker) => self.receives.poll(rt, tasks, number, waker),
            StateCall::Cancel(Slot(number)) => self.receives.let_go(number),
            StateCall::TryReceive(_) => {
                Seen::given(self.channel.try_receive(StateId::from_value(asked(call))))
            }
            StateCall::Send(value) => Seen::given(self.channel.send(value)),
            StateCall::Close => Seen::given(self.channel.close()),
            StateCall::NextWake => Seen::answered(Answer::Woken(None)),
        }
    }
}

#[derive(Drop)]
pub struct StateBroadcast;

impl From<()> for StateBroadcast {
    fn from(_opening: ()) -> Self {
        StateBroadcast
    }
}

impl<R: Wait + Copy + AllocGlobal> Flavour<R> for StateBroadcast {
    type Call = StateCall<u64, u64>;

    fn play<P: Play<R, StateCall<u64, u64>>>(
        &self,
        rt: &R,
        tasks: &mut Tasks,
        list: &mut P,
    ) -> Played {
        let channel = &StateBroadcastChannel::new(rt.alloc(), *rt);
        match OpenedState::new(rt, channel) {
            Some(mut opened) => list.play(rt, tasks, &mut opened),
            None => Played::NoMemory,
        }
    }
}
