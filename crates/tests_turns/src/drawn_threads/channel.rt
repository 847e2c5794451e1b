//! The channel of many values over each kind of buffer, with capacities 0, 1 and 2: two sends, and two receives or two streams.

use fi_channels::ChannelState;
use fi_parts::buffer::{ArrayBuf, FixedHeapBuf, GrowingHeapBuf, RingBuf};
use fi_run::ScriptBuffer;
use std::alloc::AllocGlobal;
use std::random::RandomSource;
use std::sync::Wait;
use tests_driver::channel::ChannelOver;
use tests_driver::drawn::{Lists, RECEIVES, STREAMS, play_lines};

// Two thousand lists of three calls on a channel over this buffer, of this capacity, and as many on its streams.
fn try_buffer<R, B: RingBuf<Item = u64> + ScriptBuffer>(rt: &R, capacity: usize) -> Lists
where
    R: Wait + Copy + Drop + RandomSource + AllocGlobal,
{
    let channel = &ChannelOver::<B>::new(capacity);
    let receives = play_lines::<R, ChannelState<u64, B, u64>, _>(
        rt, channel, capacity, RECEIVES, 3,
    );
    let streams = play_lines::<R, ChannelState<u64, B, u64>, _>(rt, channel, capacity, STREAMS, 3);
    receives.and(streams)
}

// The same with each capacity.
fn try_capacities<R, B: RingBuf<Item = u64> + ScriptBuffer>(rt: &R) -> Lists
where
    R: Wait + Copy + Drop + RandomSource + AllocGlobal,
{
    let mut tried = try_buffer::<R, B>(rt, 0);
    for capacity in 1..3 {
        tried = tried.and(try_buffer::<R, B>(rt, capacity));
    }
    tried
}

#[test]
fn drawn_calls_on_a_channel_over_an_array(rt: HostRuntime) {
    let none = try_buffer::<_, ArrayBuf<u64, 0>>(&rt, 0);
    let one = try_buffer::<_, ArrayBuf<u64, 1>>(&rt, 1);
    let two = try_buffer::<_, ArrayBuf<u64, 2>>(&rt, 2);
    let tried = none.and(one).and(two);
    assert!(rt; tried.are_right(), "{tried:?}");
}

#[test]
fn drawn_calls_on_a_channel_over_a_block(rt: HostRuntime) {
    let tried = try_capacities::<_, FixedHeapBuf<u64>>(&rt);
    assert!(rt; tried.are_right(), "{tried:?}");
}

#[test]
fn drawn_calls_on_a_channel_that_grows(rt: HostRuntime) {
    let tried = try_capacities::<_, GrowingHeapBuf<u64>>(&rt);
    assert!(rt; tried.are_right(), "{tried:?}");
}
