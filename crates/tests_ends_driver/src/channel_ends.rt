//! The ends of the channel of many values, over a buffer that grows. One of them is the one that closes.

use fi_channels::SendFault;
use fi_parts::{CloseStatus, Fault, Slot};
use fi_run::{Answer, ChannelCall};
use futures::{Future, Stream};
use std::alloc::AllocGlobal;
use std::sync::Wait;
use tests_driver::owned::Futures;
use tests_driver::pollable::Pollable;
use tests_driver::tasks::Tasks;
use tests_driver::{Flavour, Opened, Play, Played, Seen};
use tests_ends_calls::many::channel;
use tests_ends_calls::{ReceivingEnd, SendingEnd, StreamingEnd, TriesToReceive, TriesToSend};

/// Who closes.
#[derive(Clone, Copy)]
pub enum Closer {
    Sender,
    Receiver,
    /// The stream that was made last, or the receiver while there is none.
    Stream,
}

/// Both ends, with the sends, and with the receives or the streams: no list has both.
#[derive(Drop)]
struct OpenedEnds<S: Drop, E: Drop, F: Drop, G: Drop, T: Drop> {
    closer: Closer,
    sender: S,
    sends: Futures<F>,
    receiver: E,
    receives: Futures<G>,
    streams: Futures<T>,
}

impl<S: Drop, E: Drop, F: Drop, G: Drop, T: Drop> OpenedEnds<S, E, F, G, T> {
    // None if memory is missing.
    fn new<R: AllocGlobal>(rt: &R, closer: Closer, sender: S, receiver: E) -> Option<Self> {
        Some(OpenedEnds {
            closer,
            sender,
            sends: Futures::new(rt)?,
            receiver,
            receives: Futures::new(rt)?,
            streams: Futures::new(rt)?,
        })
    }

    // Drops the receive or the stream of this number.
    fn let_go(&mut self, number: usize) -> Seen {
        if self.streams.is_empty() {
            return self.receives.let_go(number);
        }
        self.streams.let_go(number)
    }
}

impl<S, E, F, G, T> OpenedEnds<S, E, F, G, T>
where
    S: TriesToSend<u64>,
    E: TriesToReceive<u64>,
    F: Drop,
    G: Drop,
    T: StreamingEnd,
{
    fn close(&self) -> CloseStatus {
        match (self.closer, self.streams.last()) {
            (Closer::Sender, _) => self.sender.close(),
            (Closer::Stream, Some(stream)) => stream.close(),
            _ => self.receiver.close(),
        }
    }
}

impl<R, S, E, F, G, T> Opened<R, ChannelCall<u64, u64>> for OpenedEnds<S, E, F, G, T>
where
    R: Wait,
    S: SendingEnd<u64, Send = F>,
    E: ReceivingEnd<u64, Receive = G, Items = T>,
    F: Pollable + Future<Output = Result<(), SendFault<u64>>>,
    G: Pollable + Future<Output = Result<Option<u64>, Fault>>,
    T: StreamingEnd + Stream<Item = Result<u64, Fault>>,
{
    fn apply(&mut self, rt: &R, tasks: &mut Tasks, call: ChannelCall<u64, u64>) -> Seen {
        match call {
            ChannelCall::Send(value) => self.sends.keep_send(self.sender.send(value)),
            ChannelCall::Receive => self.receives.keep(self.receiver.receive()),
            ChannelCall::Stream => self.streams.keep(self.receiver.stream()),
            ChannelCall::PollSend(Slot(number), waker) => {
                self.sends.poll(rt, tasks, number, waker)
            }
            ChannelCall::PollReceive(Slot(number), waker) => {
                self.receives.poll(rt, tasks, number, waker)
            }
            ChannelCall::PollNext(Slot(number), waker) => {
                self.streams.poll_next(rt, tasks, number, waker)
            }
            ChannelCall::CancelSend(Slot(number)) => self.sends.let_go(number),
            ChannelCall::CancelReceive(Slot(number)) => self.let_go(number),
            ChannelCall::TrySend(value) => Seen::given(self.sender.try_send(value)),
            ChannelCall::TryReceive => Seen::given(self.receiver.try_receive()),
            ChannelCall::Close => Seen::given(self.close()),
            ChannelCall::NextWake => Seen::answered(Answer::Woken(None)),
        }
    }
}

// Plays a list on two ends.
fn play_on<R, S, E, P>(
    rt: &R,
    tasks: &mut Tasks,
    list: &mut P,
    closer: Closer,
    sender: S,
    receiver: E,
) -> Played
where
    R: Wait + AllocGlobal,
    S: SendingEnd<u64>,
    S::Send: Pollable + Future<Output = Result<(), SendFault<u64>>>,
    E: ReceivingEnd<u64>,
    E::Receive: Pollable + Future<Output = Result<Option<u64>, Fault>>,
    E::Items: StreamingEnd + Stream<Item = Result<u64, Fault>>,
    P: Play<R, ChannelCall<u64, u64>>,
{
    let opened: Option<OpenedEnds<S, E, S::Send, E::Receive, E::Items>> = OpenedEnds::new(
        rt, closer, sender, receiver,
    );
    match opened {
        Some(mut opened) => list.play(rt, tasks, &mut opened),
        None => Played::NoMemory,
    }
}

/// The ends of a channel of this capacity, and the one that closes it.
#[derive(Drop)]
pub struct ChannelEnds {
    pub capacity: usize,
    pub closer: Closer,
}

impl<R: Wait + Copy + Drop + AllocGlobal> Flavour<R> for ChannelEnds {
    type Call = ChannelCall<u64, u64>;

    fn play<P: Play<R, ChannelCall<u64, u64>>>(
        &self,
        rt: &R,
        tasks: &mut Tasks,
        list: &mut P,
    ) -> Played {
        match channel::<u64, R>(rt.alloc(), *rt, self.capacity) {
            Ok((sender, receiver)) => play_on(rt, tasks, list, self.closer, sender, receiver),
            Err(_) => Played::NoMemory,
        }
    }
}
