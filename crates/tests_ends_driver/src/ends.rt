//! The ends of the channels of one value and of the state broadcast. They have no `close`, so no list closes them.

use fi_parts::{Fault, Slot, StateId};
use fi_run::{Answer, OneshotCall, StateCall};
use futures::Future;
use std::alloc::AllocGlobal;
use std::sync::Wait;
use tests_driver::owned::Futures;
use tests_driver::pollable::Pollable;
use tests_driver::state::asked;
use tests_driver::tasks::Tasks;
use tests_driver::{Flavour, Opened, Play, Played, Seen};
use tests_ends_calls::one_value::{oneshot_broadcast_channel, oneshot_channel};
use tests_ends_calls::states::state_broadcast_channel;
use tests_ends_calls::{ReceivesOne, ReceivesStates, SendsAtOnce};

/// Both ends, with the receives.
#[derive(Drop)]
struct OpenedEnds<S: Drop, E: Drop, F: Drop> {
    sender: S,
    receiver: E,
    receives: Futures<F>,
}

impl<S: Drop, E: Drop, F: Drop> OpenedEnds<S, E, F> {
    // None if memory is missing.
    fn new<R: AllocGlobal>(rt: &R, sender: S, receiver: E) -> Option<Self> {
        Some(OpenedEnds {
            sender,
            receiver,
            receives: Futures::new(rt)?,
        })
    }
}

impl<R, S, E, F> Opened<R, OneshotCall<u64, u64>> for OpenedEnds<S, E, F>
where
    R: Wait,
    S: SendsAtOnce<u64>,
    E: ReceivesOne<u64, Receive = F>,
    F: Pollable + Future<Output = Result<Option<u64>, Fault>>,
{
    fn lacks(&self, call: &OneshotCall<u64, u64>) -> bool {
        matches!(call, OneshotCall::Close)
    }

    fn apply(&mut self, rt: &R, tasks: &mut Tasks, call: OneshotCall<u64, u64>) -> Seen {
        match call {
            OneshotCall::Receive => self.receives.keep(self.receiver.receive()),
            OneshotCall::Poll(Slot(number), waker) => {
                self.receives.poll(rt, tasks, number, waker)
            }
            OneshotCall::Cancel(Slot(number)) => self.receives.let_go(number),
            OneshotCall::TryReceive => Seen::given(self.receiver.try_receive()),
            OneshotCall::Send(value) => Seen::given(self.sender.send(value)),
            OneshotCall::Close => Seen::Lost,
            OneshotCall::NextWake => Seen::answered(Answer::Woken(None)),
        }
    }
}

impl<R, S, E, F> Opened<R, StateCall<u64, u64>> for OpenedEnds<S, E, F>
where
    R: Wait,
    S: SendsAtOnce<u64>,
    E: ReceivesStates<u64, Receive = F>,
    F: Pollable + Future<Output = Result<Option<(StateId, u64)>, Fault>>,
{
    fn lacks(&self, call: &StateCall<u64, u64>) -> bool {
        matches!(call, StateCall::Close)
    }

    fn apply(&mut self, rt: &R, tasks: &mut Tasks, call: StateCall<u64, u64>) -> Seen {
        match call {
            StateCall::Receive(_) => self.receives.keep(self.receiver.receive(asked(call))),
            StateCall::Poll(Slot(number), waker) => self.receives.poll(rt, tasks, number, waker),
            StateCall::Cancel(Slot(number)) => self.receives.let_go(number),
            StateCall::TryReceive(_) => Seen::given(self.receiver.try_receive(asked(call))),
            StateCall::Send(value) => Seen::given(self.sender.send(value)),
            StateCall::Close => Seen::Lost,
            StateCall::NextWake => Seen::answered(Answer::Woken(None)),
        }
    }
}

// Plays a list on the ends of a channel of one value.
fn play_one_value<R, S, E, P>(
    rt: &R,
    tasks: &mut Tasks,
    list: &mut P,
    sender: S,
    receiver: E,
) -> Played
where
    R: Wait + AllocGlobal,
    S: SendsAtOnce<u64>,
    E: ReceivesOne<u64>,
    E::Receive: Pollable + Future<Output = Result<Option<u64>, Fault>>,
    P: Play<R, OneshotCall<u64, u64>>,
{
    let opened: Option<OpenedEnds<S, E, E::Receive>> = OpenedEnds::new(rt, sender, receiver);
    match opened {
        Some(mut opened) => list.play(rt, tasks, &mut opened),
        None => Played::NoMemory,
    }
}

// Plays a list on the ends of a state broadcast.
fn play_states<R, S, E, P>(
    rt: &R,
    tasks: &mut Tasks,
    list: &mut P,
    sender: S,
    receiver: E,
) -> Played
where
    R: Wait + AllocGlobal,
    S: SendsAtOnce<u64>,
    E: ReceivesStates<u64>,
    E::Receive: Pollable + Future<Output = Result<Option<(StateId, u64)>, Fault>>,
    P: Play<R, StateCall<u64, u64>>,
{
    let opened: Option<OpenedEnds<S, E, E::Receive>> = OpenedEnds::new(rt, sender, receiver);
    match opened {
        Some(mut opened) => list.play(rt, tasks, &mut opened),
        None => Played::NoMemory,
    }
}

#[derive(Drop)]
pub struct OneshotEnds;

impl From<()> for OneshotEnds {
    fn from(_opening: ()) -> Self {
        OneshotEnds
    }
}

impl<R: Wait + Copy + Drop + AllocGlobal> Flavour<R> for OneshotEnds {
    type Call = OneshotCall<u64, u64>;

    fn play<P: Play<R, OneshotCall<u64, u64>>>(
        &self,
        rt: &R,
        tasks: &mut Tasks,
        list: &mut P,
    ) -> Played {
        match oneshot_channel::<u64, R>(rt.alloc(), *rt) {
            Ok((sender, receiver)) => play_one_value(rt, tasks, list, sender, receiver),
            Err(_) => Played::NoMemory,
        }
    }
}

#[derive(Drop)]
pub struct BroadcastEnds;

impl From<()> for BroadcastEnds {
    fn from(_opening: ()) -> Self {
        BroadcastEnds
    }
}

impl<R: Wait + Copy + Drop + AllocGlobal> Flavour<R> for BroadcastEnds {
    type Call = OneshotCall<u64, u64>;

    fn play<P: Play<R, OneshotCall<u64, u64>>>(
        &self,
        rt: &R,
        tasks: &mut Tasks,
        list: &mut P,
    ) -> Played {
        match oneshot_broadcast_channel::<u64, R>(rt.alloc(), *rt) {
            Ok((sender, receiver)) => play_one_value(rt, tasks, list, sender, receiver),
            Err(_) => Played::NoMemory,
        }
    }
}

#[derive(Drop)]
pub struct StateEnds;

impl From<()> for StateEnds {
    fn from(_opening: ()) -> Self {
        StateEnds
    }
}

impl<R: Wait + Copy + Drop + AllocGlobal> Flavour<R> for StateEnds {
    type Call = StateCall<u64, u64>;

    fn play<P: Play<R, StateCall<u64, u64>>>(
        &self,
        rt: &R,
        tasks: &mut Tasks,
        list: &mut P,
    ) -> Played {
        match state_broadcast_channel::<u64, R>(rt.alloc(), *rt) {
            Ok((sender, receiver)) => play_states(rt, tasks, list, sender, receiver),
            Err(_) => Played::NoMemory,
        }
    }
}
