//! Worked rows played on ends with no memory left, but for the makings: all other calls are answered, and wake, as ever.
use fi_channels::{ChannelState, OneshotBroadcastState, OneshotState, StateBroadcastState};
use fi_parts::buffer::GrowingHeapBuf;
use tests_driver::Played;
use tests_driver::refusals::rows::play_starved;
use tests_ends_driver::channel_ends::{ChannelEnds, Closer};
use tests_ends_driver::ends::{BroadcastEnds, OneshotEnds, StateEnds};
use tests_rows::{channel, one_value, state, text_of};

#[test]
fn calls_on_channels_of_one_value_take_no_memory(rt: HostRuntime) {
    let row = text_of(&one_value::ONESHOT, "oneshot_one_value");
    let oneshot = play_starved::<_, OneshotState<u64, u64>, _>(&rt, &OneshotEnds, (), row);
    let row = text_of(&one_value::BROADCAST, "broadcast_clones");
    let broadcast = play_starved::<_, OneshotBroadcastState<u64, u64>, _>(
        &rt,
        &BroadcastEnds,
        (),
        row,
    );
    let played = oneshot.and(broadcast);
    assert!(rt; played == Played::AsListed, "{played:?}");
}

#[test]
fn calls_on_a_state_broadcast_take_no_memory(rt: HostRuntime) {
    let row = text_of(&state::ROWS, "state_broadcast_numbers");
    let played = play_starved::<_, StateBroadcastState<u64, u64>, _>(&rt, &StateEnds, (), row);
    assert!(rt; played == Played::AsListed, "{played:?}");
}

type Growing = ChannelState<u64, GrowingHeapBuf<u64>, u64>;

#[test]
fn calls_on_channels_take_no_memory(rt: HostRuntime) {
    let ends = &ChannelEnds {
        capacity: 0,
        closer: Closer::Stream,
    };
    let row = text_of(&channel::ROWS, "channel_cancels_held");
    let receives = play_starved::<_, Growing, _>(&rt, ends, 0, row);
    let row = text_of(&channel::ROWS, "stream_rendezvous");
    let played = receives.and(play_starved::<_, Growing, _>(&rt, ends, 0, row));
    assert!(rt; played == Played::AsListed, "{played:?}");
}
