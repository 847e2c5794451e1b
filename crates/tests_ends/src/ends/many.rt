//! Many values in a channel, and many ends of one at once.

use fi_channels::TrySendError;
use fi_parts::buffer::FixedHeapBuf;
use std::alloc::{AllocGlobal, Global};
use tests_ends_calls::many::{channel, generic_channel};
use tests_ends_calls::{ClonedEnd, CountsEnds, Made, TriesToReceive, TriesToSend};

/// So many values fit into a channel.
const PLACES: u64 = 5_000;

/// So many ends of a side there are at once.
const ENDS: usize = 1_000;

// Whether a channel has room for so many values and no more, and gives them in their order.
fn holds_them<S: TriesToSend<u64>, E: TriesToReceive<u64>>(ends: Made<S, E>) -> Option<bool> {
    let (sender, receiver) = ends.ok()?;
    for value in 0..PLACES {
        sender.try_send(value).ok()?;
    }
    let is_full = sender.try_send(PLACES) == Err(TrySendError::Full(PLACES));
    for value in 0..PLACES {
        if receiver.try_receive() != Ok(value) {
            return None;
        }
    }
    Some(is_full)
}

#[test]
fn ends_have_the_places_asked_for(rt: HostRuntime) {
    let fixed = generic_channel::<u64, FixedHeapBuf<u64>, HostRuntime>(
        rt.alloc(),
        rt,
        PLACES as usize,
    );
    assert!(rt; holds_them(fixed) == Some(true));
}

// How many ends of both sides there are, once this one was cloned so often that there are a thousand of its side.
fn counts_of_clones<K: ClonedEnd + CountsEnds>(alloc: Global, end: &K) -> Option<(usize, usize)> {
    let mut clones = Vec::new(alloc);
    for _ in 1..ENDS {
        clones.push(end.try_clone().ok()?).ok()?;
    }
    Some(end.counts())
}

// Whether there can be a thousand ends of each side, one side after the other.
fn are_cloned<S, E>(alloc: Global, ends: Made<S, E>) -> Option<bool>
where
    S: ClonedEnd + CountsEnds,
    E: ClonedEnd + CountsEnds,
{
    let (sender, receiver) = ends.ok()?;
    let are_senders = counts_of_clones(alloc, &sender) == Some((ENDS, 1));
    Some(are_senders && counts_of_clones(alloc, &receiver) == Some((1, ENDS)))
}

#[test]
fn a_thousand_ends_of_a_side(rt: HostRuntime) {
    let ends = channel::<u64, HostRuntime>(rt.alloc(), rt, 1);
    assert!(rt; are_cloned(rt.alloc(), ends) == Some(true));
}
