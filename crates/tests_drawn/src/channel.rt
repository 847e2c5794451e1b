//! A plain channel of at most two places, with two sends and two receives, or two sends and two streams.
use crate::cases::{Lines, POLLS, Reference, agree};
use crate::waiters::{PlainWaiters, Stage};
use fi_channels::ChannelState;
use fi_parts::buffer::{ArrayBuf, FixedHeapBuf, GrowingHeapBuf, RingBuf};
use fi_parts::{Fault, Slot};
use fi_run::{Answer, ChannelCall, ScriptBuffer};
use std::alloc::Global;
use std::test::Fail;

/// The sends' places among all futures.
const SENDS: [usize; 2] = [0, 1];

/// The receives' places.
const RECEIVES: [usize; 2] = [2, 3];

#[derive(Clone, Copy, Drop)]
struct PlainChannel {
    capacity: usize,
    has_streams: bool,
    is_closed: bool,
    // What is buffered, the oldest first.
    buffered: [Option<u64>; 2],
    // What each send still owns.
    offered: [Option<u64>; 2],
    futures: PlainWaiters,
}

impl PlainChannel {
    fn new(capacity: usize, has_streams: bool) -> Self {
        PlainChannel {
            capacity,
            has_streams,
            is_closed: false,
            buffered: [None; 2],
            offered: [None; 2],
            futures: PlainWaiters::new(),
        }
    }

    fn len(&self) -> usize {
        match self.buffered {
            [None, _] => 0,
            [Some(_), None] => 1,
            [Some(_), Some(_)] => 2,
        }
    }

    fn store(&mut self, value: u64) {
        self.buffered = match self.buffered {
            [None, _] => [Some(value), None],
            [first, _] => [first, Some(value)],
        };
    }

    fn take_offer(&mut self, name: usize) -> Option<u64> {
        self.offered.get_mut(name)?.take()
    }

    // The value of the send that has waited longest, which is complete.
    fn take_from_oldest(&mut self) -> Option<u64> {
        let oldest = self.futures.oldest(&SENDS)?;
        self.futures.name(oldest, Stage::Complete);
        self.take_offer(oldest)
    }

    fn take_next(&mut self) -> Option<u64> {
        let [first, second] = self.buffered;
        if first.is_none() {
            return self.take_from_oldest();
        }
        self.buffered = [second, None];
        if let Some(value) = self.take_from_oldest() {
            self.store(value);
        }
        first
    }

    fn make_send(&mut self, value: u64) -> Answer<u64, u64> {
        let made = self.futures.make(&SENDS);
        if let Answer::Made(slot) = made {
            if let Some(offer) = self.offered.get_mut(slot.0) {
                *offer = Some(value);
            }
        }
        made
    }

    fn poll_unpolled_send(&mut self, name: usize) -> Answer<u64, u64> {
        if !self.is_closed && self.len() == self.capacity {
            self.futures.wait(name);
            self.futures.name_oldest(&RECEIVES, Stage::Told);
            return Answer::Pending;
        }
        self.futures.leave(name, Stage::Over);
        match self.take_offer(name) {
            Some(value) => match self.try_send(value) {
                Answer::Back(value, fault) => Answer::Back(value, fault),
                _ => Answer::Done,
            },
            None => Answer::Nothing,
        }
    }

    fn poll_send(&mut self, name: usize) -> Answer<u64, u64> {
        match self.futures.stage(name) {
            Stage::Waiting => Answer::Pending,
            Stage::Unpolled => self.poll_unpolled_send(name),
            Stage::Complete => {
                self.futures.leave(name, Stage::Over);
                Answer::Done
            }
            _ => Answer::Refused(Fault::NoSlot),
        }
    }

    // What a receive, or a stream, is answered once nothing will come.
    fn end(&self) -> Answer<u64, u64> {
        if self.has_streams {
            Answer::End
        } else {
            Answer::Nothing
        }
    }

    fn poll_receive(&mut self, name: usize) -> Answer<u64, u64> {
        match self.futures.stage(name) {
            Stage::Waiting => return Answer::Pending,
            Stage::Unpolled | Stage::Told => (),
            Stage::Over if self.has_streams => return Answer::End,
            _ => return Answer::Refused(Fault::NoSlot),
        }
        match self.take_next() {
            Some(value) if self.has_streams => {
                self.futures.leave(name, Stage::Unpolled);
                Answer::Item(value)
            }
            Some(value) => {
                self.futures.leave(name, Stage::Over);
                Answer::Item(value)
            }
            None if self.is_closed => {
                self.futures.leave(name, Stage::Over);
                self.end()
            }
            None => {
                self.futures.wait(name);
                Answer::Pending
            }
        }
    }

    fn cancel_send(&mut self, name: usize) -> Answer<u64, u64> {
        match self.futures.cancel(name) {
            Answer::Done => match self.take_offer(name) {
                Some(value) => Answer::Item(value),
                None => Answer::Nothing,
            },
            refused => refused,
        }
    }

    fn cancel_receive(&mut self, name: usize) -> Answer<u64, u64> {
        let was_told = self.futures.stage(name) == Stage::Told;
        let answer = self.futures.cancel(name);
        if was_told {
            self.futures.name_oldest(&RECEIVES, Stage::Told);
        }
        answer
    }

    fn try_send(&mut self, value: u64) -> Answer<u64, u64> {
        if self.is_closed {
            return Answer::Back(value, Fault::Closed);
        }
        if self.len() == self.capacity {
            return Answer::Back(value, Fault::Full);
        }
        self.store(value);
        self.futures.name_oldest(&RECEIVES, Stage::Told);
        Answer::Done
    }

    fn try_receive(&mut self) -> Answer<u64, u64> {
        match self.take_next() {
            Some(value) => Answer::Item(value),
            None if self.is_closed => Answer::Refused(Fault::Closed),
            None => Answer::Refused(Fault::Empty),
        }
    }

    fn close(&mut self) -> Answer<u64, u64> {
        if self.is_closed {
            return Answer::Already;
        }
        self.is_closed = true;
        self.futures.name_all(&RECEIVES, Stage::Unpolled);
        self.futures.name_all(&SENDS, Stage::Unpolled);
        Answer::Newly
    }
}

// The place of the receive with this slot.
fn receive_at(slot: Slot) -> usize {
    slot.0.wrapping_add(2)
}

impl<B: RingBuf<Item = u64>> Reference<ChannelState<u64, B, u64>> for PlainChannel {
    fn answer(&mut self, call: ChannelCall<u64, u64>) -> Answer<u64, u64> {
        match call {
            ChannelCall::Send(value) => self.make_send(value),
            ChannelCall::Receive | ChannelCall::Stream => self.futures.make(&RECEIVES),
            ChannelCall::PollSend(slot, _) => self.poll_send(slot.0),
            ChannelCall::PollReceive(slot, _) | ChannelCall::PollNext(slot, _) => {
                self.poll_receive(receive_at(slot))
            }
            ChannelCall::CancelSend(slot) => self.cancel_send(slot.0),
            ChannelCall::CancelReceive(slot) => self.cancel_receive(receive_at(slot)),
            ChannelCall::TrySend(value) => self.try_send(value),
            ChannelCall::TryReceive => self.try_receive(),
            ChannelCall::Close => self.close(),
            ChannelCall::NextWake => self.futures.next_wake(),
        }
    }

    // A receive waits only if enough others are told of all that there is, a send only at an open channel that is full.
    fn owes_no_wake(&self) -> bool {
        let sending = self.futures.count(&SENDS, Stage::Waiting);
        let told = self.futures.count(&RECEIVES, Stage::Told);
        let are_told = self.futures.count(&RECEIVES, Stage::Waiting) == 0
            || told >= self.len().wrapping_add(sending);
        are_told && (sending == 0 || !self.is_closed && self.len() == self.capacity)
    }
}

fn agrees<B: RingBuf<Item = u64> + ScriptBuffer>(
    alloc: Global,
    capacity: usize,
    has_streams: bool,
) -> Result<bool, Fail> {
    let lines = Lines {
        makings: if has_streams {
            "send a 1; send b 2; stream c; stream d"
        } else {
            "send a 1; send b 2; receive c; receive d"
        },
        polls: POLLS,
        others: "try-send 5; try-receive; close",
    };
    let reference = PlainChannel::new(capacity, has_streams);
    agree::<ChannelState<u64, B, u64>, PlainChannel>(alloc, capacity, reference, lines)
}

fn agrees_with_each_capacity<B: RingBuf<Item = u64> + ScriptBuffer>(
    alloc: Global,
    has_streams: bool,
) -> Result<bool, Fail> {
    for capacity in 0..3 {
        if !agrees::<B>(alloc, capacity, has_streams)? {
            return Ok(false);
        }
    }
    Ok(true)
}

fn agrees_over_each(alloc: Global, has_streams: bool) -> Result<bool, Fail> {
    Ok(
        agrees::<ArrayBuf<u64, 0>>(alloc, 0, has_streams)?
            && agrees::<ArrayBuf<u64, 1>>(alloc, 1, has_streams)?
            && agrees::<ArrayBuf<u64, 2>>(alloc, 2, has_streams)?
            && agrees_with_each_capacity::<FixedHeapBuf<u64>>(alloc, has_streams)?
            && agrees_with_each_capacity::<GrowingHeapBuf<u64>>(alloc, has_streams)?,
    )
}

#[test]
fn drawn_schedules_of_a_channel(rt: HostRuntime) -> Result<(), Fail> {
    assert!(rt; agrees_over_each(rt.alloc(), false)?);
    Ok(())
}

#[test]
fn drawn_schedules_of_streams(rt: HostRuntime) -> Result<(), Fail> {
    assert!(rt; agrees_over_each(rt.alloc(), true)?);
    Ok(())
}
