//! The oneshot and the oneshot broadcast.

use crate::owned::Futures;
use crate::tasks::Tasks;
use crate::{Flavour, Opened, Play, Played, Seen};
use fi_channels::{ClonesValue, GivesValue, OneValueState, TakesValue};
use fi_parts::Slot;
use fi_run::{Answer, OneshotCall};
use fi_sync::{ChannelReceiveFuture, OneValueChannel, PollWaker};
use std::alloc::AllocGlobal;
use std::marker::PhantomData;
use std::sync::Wait;

type Receiving<'a, G, R> = ChannelReceiveFuture<'a, OneValueState<u64, PollWaker, G>, R>;

#[derive(Drop)]
pub struct OpenedOneValue<'a, C, F: Drop> {
    channel: &'a C,
    receives: Futures<F>,
}

impl<'a, C, F: Drop> OpenedOneValue<'a, C, F> {
    /// None if memory is missing.
    pub fn new<R: AllocGlobal>(rt: &R, channel: &'a C) -> Option<Self> {
        Some(OpenedOneValue {
            channel,
            receives: Futures::new(rt)?,
        })
    }
}

impl<'a, R: Wait, G: GivesValue<u64>> Opened<R, OneshotCall<u64, u64>>
    for OpenedOneValue<'a, OneValueChannel<u64, G, R>, Receiving<'a, G, R>> {
    fn apply(&mut self, rt: &R, tasks: &mut Tasks, call: OneshotCall<u64, u64>) -> Seen {
        match call {
            OneshotCall::Receive => self.receives.keep(self.channel.receive()),
            OneshotCall::Poll(Slot(number), waker) => {
                self.receives.poll(rt, tasks, number, waker)
            }
            OneshotCall::Cancel(Slot(number)) => self.receives.let_go(number),
            OneshotCall::TryReceive => Seen::given(self.channel.try_receive()),
            OneshotCall::Send(value) => Seen::given(self.channel.send(value)),
            OneshotCall::Close => Seen::given(self.channel.close()),
            OneshotCall::NextWake => Seen::answered(Answer::Woken(None)),
        }
    }
}

#[derive(Drop)]
pub struct OneValue<G> {
    giving: PhantomData<G>,
}

pub type Oneshot = OneValue<TakesValue>;

pub type OneshotBroadcast = OneValue<ClonesValue>;

pub const ONESHOT: OneValue<TakesValue> = OneValue {
    giving: PhantomData,
};

pub const BROADCAST: OneValue<ClonesValue> = OneValue {
    giving: PhantomData,
};

impl<G> From<()> for OneValue<G> {
    fn from(_opening: ()) -> Self {
        OneValue {
            giving: PhantomData,
        }
    }
}

impl<R: Wait + Copy + AllocGlobal, G: GivesValue<u64>> Flavour<R> for OneValue<G> {
    type Call = OneshotCall<u64, u64>;

    fn play<P: Play<R, OneshotCall<u64, u64>>>(
        &self,
        rt: &R,
        tasks: &mut Tasks,
        list: &mut P,
    ) -> Played {
        let channel = &OneValueChannel::<u64, G, R>::new(rt.alloc(), *rt);
        match OpenedOneValue::new(rt, channel) {
            Some(mut opened) => list.play(rt, tasks, &mut opened),
            None => Played::NoMemory,
        }
    }
}
