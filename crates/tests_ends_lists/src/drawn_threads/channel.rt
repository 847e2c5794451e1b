//! The ends of a channel with capacities 0, 1 and 2: two sends, and two receives or two streams.

use fi_channels::ChannelState;
use fi_parts::buffer::GrowingHeapBuf;
use std::alloc::AllocGlobal;
use std::random::RandomSource;
use std::sync::Wait;
use tests_driver::drawn::{Lines, Lists, RECEIVES, STREAMS, play_lines};
use tests_ends_driver::channel_ends::{ChannelEnds, Closer};

type Growing = ChannelState<u64, GrowingHeapBuf<u64>, u64>;

// Two thousand lists of three calls on the ends of a channel of this capacity, of which this one closes.
fn try_capacity<R>(rt: &R, lines: Lines, closer: Closer, capacity: usize) -> Lists
where
    R: Wait + Copy + Drop + RandomSource + AllocGlobal,
{
    let ends = &ChannelEnds { capacity, closer };
    play_lines::<R, Growing, _>(rt, ends, capacity, lines, 3)
}

// The same with each capacity.
fn try_ends<R>(rt: &R, lines: Lines, closer: Closer) -> Lists
where
    R: Wait + Copy + Drop + RandomSource + AllocGlobal,
{
    let mut tried = try_capacity(rt, lines, closer, 0);
    for capacity in 1..3 {
        tried = tried.and(try_capacity(rt, lines, closer, capacity));
    }
    tried
}

#[test]
fn drawn_calls_on_channel_ends(rt: HostRuntime) {
    let by_sender = try_ends(&rt, RECEIVES, Closer::Sender);
    let tried = by_sender.and(try_ends(&rt, RECEIVES, Closer::Receiver));
    assert!(rt; tried.are_right(), "{tried:?}");
}

#[test]
fn drawn_calls_on_shared_streams(rt: HostRuntime) {
    let by_sender = try_ends(&rt, STREAMS, Closer::Sender);
    let tried = by_sender.and(try_ends(&rt, STREAMS, Closer::Stream));
    assert!(rt; tried.are_right(), "{tried:?}");
}
