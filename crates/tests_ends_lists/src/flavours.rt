//! The worked rows, played on the ends of a channel up to the first call that they lack. A row is played once by each end that may close
//! the channel.

use fi_channels::{ChannelState, OneshotBroadcastState, OneshotState, StateBroadcastState};
use fi_parts::buffer::GrowingHeapBuf;
use std::alloc::AllocGlobal;
use std::random::RandomSource;
use std::sync::Wait;
use tests_driver::worked::{Rows, play_rows, play_rows_after};
use tests_ends_driver::channel_ends::{ChannelEnds, Closer};
use tests_ends_driver::ends::{BroadcastEnds, OneshotEnds, StateEnds};
use tests_rows::{channel, one_value, state};

#[test]
fn oneshot_rows(rt: HostRuntime) {
    let went = play_rows::<_, OneshotState<u64, u64>, OneshotEnds>(&rt, &one_value::ONESHOT);
    assert!(rt; went.are_right(), "{went:?}");
}

#[test]
fn broadcast_rows(rt: HostRuntime) {
    let went = play_rows::<_, OneshotBroadcastState<u64, u64>, BroadcastEnds>(
        &rt,
        &one_value::BROADCAST,
    );
    assert!(rt; went.are_right(), "{went:?}");
}

#[test]
fn state_broadcast_rows(rt: HostRuntime) {
    let went = play_rows::<_, StateBroadcastState<u64, u64>, StateEnds>(&rt, &state::ROWS);
    assert!(rt; went.are_right(), "{went:?}");
}

// The rows that begin with this line, on ends of this capacity which this one closes.
fn closed_by<R>(rt: &R, closer: Closer, capacity: usize, first: &str) -> Rows
where
    R: Wait + Copy + Drop + RandomSource + AllocGlobal,
{
    play_rows_after::<R, ChannelState<u64, GrowingHeapBuf<u64>, u64>, _>(
        rt,
        &ChannelEnds { capacity, closer },
        capacity,
        first,
        &channel::ROWS,
    )
}

const CLOSERS: [Closer; 3] = [Closer::Sender, Closer::Receiver, Closer::Stream];

#[test]
fn channel_rows_without_places(rt: HostRuntime) {
    for closer in CLOSERS {
        let went = closed_by(&rt, closer, 0, "channel array 0");
        assert!(rt; went.are_right(), "{went:?}");
    }
}

#[test]
fn channel_rows_with_one_place(rt: HostRuntime) {
    for closer in CLOSERS {
        let went = closed_by(&rt, closer, 1, "channel array 1");
        assert!(rt; went.are_right(), "{went:?}");
    }
}

#[test]
fn channel_rows_with_two_places(rt: HostRuntime) {
    let went = closed_by(&rt, Closer::Sender, 2, "channel array 2");
    assert!(rt; went.are_right(), "{went:?}");
}
