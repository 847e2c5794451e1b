//! The channel of many values, over each kind of buffer.

use crate::owned::Futures;
use crate::tasks::Tasks;
use crate::{Flavour, Opened, Play, Played, Seen};
use fi_channels::ChannelState;
use fi_parts::Slot;
use fi_parts::buffer::RingBuf;
use fi_run::{Answer, ChannelCall};
use fi_sync::{ChannelReceiveFuture, ChannelSendFuture, ChannelStream, GenericChannel, PollWaker};
use std::alloc::AllocGlobal;
use std::marker::PhantomData;
use std::sync::Wait;

type Sending<'a, B, R> = ChannelSendFuture<'a, ChannelState<u64, B, PollWaker>, R>;

type Receiving<'a, B, R> = ChannelReceiveFuture<'a, ChannelState<u64, B, PollWaker>, R>;

/// A channel with its sends, and with its receives or its streams: no list has both.
#[derive(Drop)]
pub struct OpenedChannel<'a, C, S: Drop, F: Drop, T: Drop> {
    channel: &'a C,
    sends: Futures<S>,
    receives: Futures<F>,
    streams: Futures<T>,
}

impl<'a, C, S: Drop, F: Drop, T: Drop> OpenedChannel<'a, C, S, F, T> {
    /// None if memory is missing.
    pub fn new<R: AllocGlobal>(rt: &R, channel: &'a C) -> Option<Self> {
        Some(OpenedChannel {
            channel,
            sends: Futures::new(rt)?,
            receives: Futures::new(rt)?,
            streams: Futures::new(rt)?,
        })
    }

    // Drops the receive or the stream of this number.
    fn let_go(&mut self, number: usize) -> Seen {
        if self.streams.is_empty() {
            return self.receives.let_go(number);
        }
        self.streams.let_go(number)
    }
}

impl<'a, R: Wait, B: RingBuf<Item = u64>> Opened<R, ChannelCall<u64, u64>>
    for OpenedChannel<
        'a,
        GenericChannel<u64, B, R>,
        Sending<'a, B, R>,
        Receiving<'a, B, R>,
        ChannelStream<'a, u64, B, R>,
    > {
    fn apply(&mut self, rt: &R, tasks: &mut Tasks, call: ChannelCall<u64, u64>) -> Seen {
        match call {
            ChannelCall::Send(value) => self.sends.keep_send(self.channel.send(value)),
            ChannelCall::Receive => self.receives.keep(self.channel.receive()),
            ChannelCall::Stream => self.streams.keep(self.channel.stream()),
            ChannelCall::PollSend(Slot(number), waker) => {
                self.sends.poll(rt, tasks, number, waker)
            }
            ChannelCall::PollReceive(Slot(number), waker) => {
                self.receives.poll(rt, tasks, number, waker)
            }
            ChannelCall::PollNext(Slot(number), waker) => {
                self.streams.poll_next(rt, tasks, number, waker)
            }
            ChannelCall::CancelSend(Slot(number)) => self.sends.cancel(number),
            ChannelCall::CancelReceive(Slot(number)) => self.let_go(number),
            ChannelCall::TrySend(value) => Seen::given(self.channel.try_send(value)),
            ChannelCall::TryReceive => Seen::given(self.channel.try_receive()),
            ChannelCall::Close => Seen::given(self.channel.close()),
            ChannelCall::NextWake => Seen::answered(Answer::Woken(None)),
        }
    }
}

/// A channel over a buffer of the kind `B`.
#[derive(Drop)]
pub struct ChannelOver<B> {
    capacity: usize,
    buffer: PhantomData<B>,
}

impl<B> ChannelOver<B> {
    pub const fn new(capacity: usize) -> Self {
        ChannelOver {
            capacity,
            buffer: PhantomData,
        }
    }
}

impl<R: Wait + Copy + Drop + AllocGlobal, B: RingBuf<Item = u64>> Flavour<R> for ChannelOver<B> {
    type Call = ChannelCall<u64, u64>;

    fn play<P: Play<R, ChannelCall<u64, u64>>>(
        &self,
        rt: &R,
        tasks: &mut Tasks,
        list: &mut P,
    ) -> Played {
        let channel = GenericChannel::<u64, B, R>::with_capacity(rt.alloc(), *rt, self.capacity);
        let Ok(channel) = channel else {
            return Played::NoMemory;
        };
        match OpenedChannel::new(rt, &channel) {
            Some(mut opened) => list.play(rt, tasks, &mut opened),
            None => Played::NoMemory,
        }
    }
}
