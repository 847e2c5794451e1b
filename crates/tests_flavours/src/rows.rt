//! Each call of a row has the answer that stands in the row, and wakes the tasks that the row names.

use fi_channels::{
    ChannelState, EventState, OneshotBroadcastState, OneshotState, StateBroadcastState,
};
use fi_locks::{MutexState, SemaphoreState, TimerState};
use fi_parts::buffer::{ArrayBuf, FixedHeapBuf, GrowingHeapBuf, RingBuf};
use fi_run::ScriptBuffer;
use std::alloc::AllocGlobal;
use std::random::RandomSource;
use std::sync::Wait;
use tests_driver::channel::ChannelOver;
use tests_driver::event::Event;
use tests_driver::mutex::MutexOf;
use tests_driver::one_value::{Oneshot, OneshotBroadcast};
use tests_driver::semaphore::{ByOwners, ByReference};
use tests_driver::state::StateBroadcast;
use tests_driver::timer::Timer;
use tests_driver::worked::{Rows, play_rows, play_rows_after};
use tests_rows::{channel, event, mutex, one_value, semaphore, state, timer};

#[test]
fn event_rows(rt: HostRuntime) {
    let went = play_rows::<_, EventState<u64>, Event>(&rt, &event::ROWS);
    assert!(rt; went.are_right(), "{went:?}");
}

#[test]
fn oneshot_rows(rt: HostRuntime) {
    let went = play_rows::<_, OneshotState<u64, u64>, Oneshot>(&rt, &one_value::ONESHOT);
    assert!(rt; went.are_right(), "{went:?}");
}

#[test]
fn broadcast_rows(rt: HostRuntime) {
    let went = play_rows::<_, OneshotBroadcastState<u64, u64>, OneshotBroadcast>(
        &rt,
        &one_value::BROADCAST,
    );
    assert!(rt; went.are_right(), "{went:?}");
}

#[test]
fn state_broadcast_rows(rt: HostRuntime) {
    let went = play_rows::<_, StateBroadcastState<u64, u64>, StateBroadcast>(&rt, &state::ROWS);
    assert!(rt; went.are_right(), "{went:?}");
}

// The rows of a channel over an array of this capacity, over a buffer of this kind.
fn over<R, B: RingBuf<Item = u64> + ScriptBuffer>(rt: &R, capacity: usize, first: &str) -> Rows
where
    R: Wait + Copy + Drop + RandomSource + AllocGlobal,
{
    let flavour = &ChannelOver::<B>::new(capacity);
    play_rows_after::<R, ChannelState<u64, B, u64>, _>(rt, flavour, capacity, first, &channel::ROWS)
}

#[test]
fn channel_rows_without_places(rt: HostRuntime) {
    let went = over::<_, ArrayBuf<u64, 0>>(&rt, 0, "channel array 0");
    assert!(rt; went.are_right(), "{went:?}");
}

#[test]
fn channel_rows_over_an_array(rt: HostRuntime) {
    let went = over::<_, ArrayBuf<u64, 1>>(&rt, 1, "channel array 1");
    assert!(rt; went.are_right(), "{went:?}");
}

#[test]
fn channel_rows_over_a_fixed_buffer(rt: HostRuntime) {
    let went = over::<_, FixedHeapBuf<u64>>(&rt, 2, "channel array 2");
    assert!(rt; went.are_right(), "{went:?}");
}

#[test]
fn channel_rows_over_a_growing_buffer(rt: HostRuntime) {
    for (capacity, first) in [
        (0, "channel array 0"),
        (1, "channel array 1"),
        (5, "channel array 5"),
    ] {
        let went = over::<_, GrowingHeapBuf<u64>>(&rt, capacity, first);
        assert!(rt; went.are_right(), "{went:?}");
    }
}

#[test]
fn mutex_rows(rt: HostRuntime) {
    let went = play_rows::<_, MutexState<u64, u64>, MutexOf>(&rt, &mutex::ROWS);
    assert!(rt; went.are_right(), "{went:?}");
}

#[test]
fn semaphore_rows_by_reference(rt: HostRuntime) {
    let went = play_rows::<_, SemaphoreState<u64>, ByReference>(&rt, &semaphore::ROWS);
    assert!(rt; went.are_right(), "{went:?}");
}

#[test]
fn semaphore_rows_by_owners(rt: HostRuntime) {
    let went = play_rows::<_, SemaphoreState<u64>, ByOwners>(&rt, &semaphore::ROWS);
    assert!(rt; went.are_right(), "{went:?}");
}

#[test]
fn timer_rows(rt: HostRuntime) {
    let went = play_rows::<_, TimerState<u64>, Timer>(&rt, &timer::ROWS);
    assert!(rt; went.are_right(), "{went:?}");
}
