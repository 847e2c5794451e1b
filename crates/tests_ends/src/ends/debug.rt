//! The texts of `Debug`: those of the Rust crate, and a name alone where it has none.

use fi_channels::{ClonesValue, OneValueState, StateBroadcastState, TakesValue};
use fi_sync::PollWaker;
use futures_intrusive::channel::shared::{CountedEnds, EndNames, channel, state_broadcast_channel};
use std::alloc::{AllocGlobal, Global};
use std::fmt;
use std::sync::Wait;
use tests_ends_calls::Made;
use tests_help::texts::shows;

// Whether the sender and the receiver show these names.
fn show<S, E>(alloc: Global, ends: Made<S, E>, sender: &str, receiver: &str) -> bool
where
    S: fmt::Debug + Drop,
    E: fmt::Debug + Drop,
{
    match ends {
        Ok(ends) => shows(alloc, &ends.0, sender) && shows(alloc, &ends.1, receiver),
        Err(_) => false,
    }
}

#[test]
fn ends_of_a_channel_show_their_names(rt: HostRuntime) {
    let ends = channel::<u64, HostRuntime>(rt.alloc(), rt, 1);
    assert!(rt; show(rt.alloc(), ends, "Sender", "Receiver"));
}

fn stream_shows<R: Wait + Drop>(alloc: Global, rt: R, wanted: &str) -> Option<bool> {
    let (_sender, receiver) = channel::<u64, R>(alloc, rt, 1).ok()?;
    let stream = receiver.into_stream().ok()?;
    Some(shows(alloc, &stream, wanted))
}

#[test]
fn a_shared_stream_shows_its_name(rt: HostRuntime) {
    assert!(rt; stream_shows(rt.alloc(), rt, "SharedStream") == Some(true));
}

fn stream_of_states_shows<R: Wait + Drop>(alloc: Global, rt: R, wanted: &str) -> Option<bool> {
    let (_sender, receiver) = state_broadcast_channel::<u64, R>(alloc, rt).ok()?;
    Some(shows(alloc, &receiver.into_reader().into_stream(), wanted))
}

#[test]
fn a_stream_of_states_shows_its_name(rt: HostRuntime) {
    assert!(rt; stream_of_states_shows(rt.alloc(), rt, "StateStream") == Some(true));
}

// Whether the ends of this kind of channel have these names. That an end shows its kind's name is tried on those of a channel.
fn have_names<K: EndNames>(sender: &str, receiver: &str) -> bool {
    K::sender() == sender && K::receiver() == receiver
}

#[test]
fn ends_of_other_kinds_have_their_names(rt: HostRuntime) {
    assert!(rt;
        have_names::<OneValueState<u64, PollWaker, TakesValue>>("OneshotSender", "OneshotReceiver")
    );
    assert!(rt;
        have_names::<OneValueState<u64, PollWaker, ClonesValue>>(
            "OneshotBroadcastSender",
            "OneshotBroadcastReceiver"
        )
    );
    assert!(rt; have_names::<StateBroadcastState<u64, PollWaker>>("StateSender", "StateReceiver"));
}

#[test]
fn counted_ends_show_their_name(rt: HostRuntime) {
    let state = OneValueState::<u64, PollWaker, TakesValue>::new(rt.alloc());
    assert!(rt;
        shows(
            rt.alloc(),
            &CountedEnds::new(rt.alloc(), state),
            "CountedEnds"
        )
    );
}
