//! A growing buffer of thousands of values: each growth is refused once, and a send that finds room never is. Where memory has no end,
//! all are accepted.
use fi_channels::ChannelState;
use fi_parts::buffer::GrowingHeapBuf;
use fi_parts::{Fault, Slot};
use fi_run::{Answer, ChannelCall, Primitive};
use std::alloc::{AllocError, Global};
use std::process::Abort;
use std::test::Fail;
use tests_help::hoard::Hoard;
use tests_help::refusals::no_memory;

type Growing = ChannelState<u64, GrowingHeapBuf<u64>, u64>;

/// How many values the buffer has taken memory for, each time that it has to grow.
const ROOMS: [u64; 12] = [0, 4, 8, 16, 32, 64, 128, 256, 512, 1024, 2048, 4096];

/// So many values fit at most.
const CAPACITY: u64 = 5000;

const WAKER: u64 = 7;

fn growing(rt: &impl Abort, alloc: Global) -> Growing {
    ChannelState::with_capacity(alloc, 5000).expect(rt, "it takes no memory yet")
}

// Whether all of these values are accepted, and the one after them is answered this.
fn are_accepted(channel: &mut Growing, from: u64, end: u64, last: Answer<u64, u64>) -> bool {
    for value in from..end {
        if channel.apply(ChannelCall::TrySend(value)) != Answer::Done {
            return false;
        }
    }
    channel.apply(ChannelCall::TrySend(end)) == last
}

// Whether the channel gives all values that were sent, in their order, and no other.
fn are_received(channel: &mut Growing) -> bool {
    for value in 0..CAPACITY {
        if channel.apply(ChannelCall::TryReceive) != Answer::Item(value) {
            return false;
        }
    }
    channel.apply(ChannelCall::TryReceive) == Answer::Refused(Fault::Empty)
}

#[test]
fn each_growth_is_refused_to_a_send_at_once(rt: HostRuntime) -> Result<(), Fail> {
    let mut hoard = Hoard::new(rt.alloc())?;
    let mut channel = growing(&rt, rt.alloc());
    let mut from = 0u64;
    for room in ROOMS {
        let is_used_up = hoard.leave(0);
        let last = if is_used_up {
            Answer::Back(room, no_memory(rt.alloc()).expect(&rt, "refused"))
        } else {
            Answer::Done
        };
        let is_right = are_accepted(&mut channel, from, room, last);
        hoard.let_go();
        let is_sent = !is_used_up || channel.apply(ChannelCall::TrySend(room)) == Answer::Done;
        assert!(rt;
            is_right && is_sent && is_used_up == hoard.has_end(),
            "room for {room}"
        );
        from = room.wrapping_add(1);
    }
    hoard.leave(0);
    let last = Answer::Back(CAPACITY, Fault::Full);
    let is_right = are_accepted(&mut channel, from, CAPACITY, last);
    hoard.let_go();
    assert!(rt; is_right && are_received(&mut channel));
    Ok(())
}

// Makes a send of each of these values.
fn make_sends(
    channel: &mut Growing,
    sends: &mut Vec<Slot>,
    from: u64,
    end: u64,
) -> Result<(), AllocError> {
    for value in from..end {
        if let Answer::Made(slot) = channel.apply(ChannelCall::Send(value)) {
            sends.push(slot)?;
        }
    }
    Ok(())
}

// Whether each of these sends is accepted when it is polled.
fn are_sent(channel: &mut Growing, sends: &[Slot]) -> bool {
    for slot in sends {
        if channel.apply(ChannelCall::PollSend(*slot, WAKER)) != Answer::Done {
            return false;
        }
    }
    true
}

// Whether each of these sends leaves nothing when it is cancelled.
fn are_cancelled(channel: &mut Growing, sends: &[Slot]) -> bool {
    for slot in sends {
        if channel.apply(ChannelCall::CancelSend(*slot)) != Answer::Nothing {
            return false;
        }
    }
    true
}

// Whether a refused send of this value goes on: with memory it is accepted when it is polled again, or gives its value when it is
// cancelled.
fn goes_on(channel: &mut Growing, slot: Slot, value: u64, is_cancelled: bool) -> bool {
    if is_cancelled {
        return channel.apply(ChannelCall::CancelSend(slot)) == Answer::Item(value)
            && channel.apply(ChannelCall::TrySend(value)) == Answer::Done;
    }
    channel.apply(ChannelCall::PollSend(slot, WAKER)) == Answer::Done
        && channel.apply(ChannelCall::CancelSend(slot)) == Answer::Nothing
}

// Sends these values, for which there is room, and one more by a poll that is refused, or accepted where nothing is refused. Answers
// whether they did so.
fn refused_poll(
    alloc: Global,
    hoard: &mut Hoard,
    channel: &mut Growing,
    from: u64,
    end: u64,
    is_cancelled: bool,
) -> Result<bool, AllocError> {
    let mut sends = Vec::new(alloc);
    make_sends(channel, &mut sends, from, end.wrapping_add(1))?;
    let Some((last, before)) = sends.as_slice().split_last() else {
        return Ok(false);
    };
    let is_used_up = hoard.leave(0);
    let are_sent = are_sent(channel, before);
    let answer = channel.apply(ChannelCall::PollSend(*last, WAKER));
    hoard.let_go();
    let is_right = if is_used_up {
        matches!(answer, Answer::Refused(Fault::NoMemory { .. }))
            && goes_on(channel, *last, end, is_cancelled)
            && are_cancelled(channel, before)
    } else {
        answer == Answer::Done && are_cancelled(channel, sends.as_slice())
    };
    Ok(are_sent && is_right && is_used_up == hoard.has_end())
}

fn sends_by_polls(rt: &impl Abort, alloc: Global, is_cancelled: bool) -> Result<(), Fail> {
    let mut hoard = Hoard::new(alloc)?;
    let mut channel = growing(rt, alloc);
    let mut from = 0u64;
    for room in ROOMS {
        let is_right = refused_poll(alloc, &mut hoard, &mut channel, from, room, is_cancelled)?;
        assert!(rt; is_right, "room for {room}");
        from = room.wrapping_add(1);
    }
    let mut sends = Vec::new(alloc);
    make_sends(&mut channel, &mut sends, from, CAPACITY)?;
    hoard.leave(0);
    let are_sent = are_sent(&mut channel, sends.as_slice());
    hoard.let_go();
    assert!(rt; are_sent && are_received(&mut channel));
    Ok(())
}

#[test]
fn each_growth_is_refused_to_a_poll(rt: HostRuntime) -> Result<(), Fail> {
    sends_by_polls(&rt, rt.alloc(), false)
}

#[test]
fn each_refused_send_is_cancelled(rt: HostRuntime) -> Result<(), Fail> {
    sends_by_polls(&rt, rt.alloc(), true)
}
