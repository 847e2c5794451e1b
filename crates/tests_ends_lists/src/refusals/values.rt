//! The calls of ends that take memory.
use fi_channels::{ChannelState, OneshotBroadcastState, OneshotState, StateBroadcastState};
use fi_parts::buffer::GrowingHeapBuf;
use std::alloc::AllocGlobal;
use std::random::RandomSource;
use std::sync::Wait;
use std::test::Fail;
use tests_driver::refusals::cases::{GROWS, MAKINGS, ONE_VALUE, STATES};
use tests_driver::refusals::scene::Tried;
use tests_driver::refusals::scene_rows::{SceneRow, tries_of_rows};
use tests_ends_driver::channel_ends::{ChannelEnds, Closer};
use tests_ends_driver::ends::{BroadcastEnds, OneshotEnds, StateEnds};
use tests_help::hoard::Hoard;

type Growing = ChannelState<u64, GrowingHeapBuf<u64>, u64>;

// Of each channel of one value.
fn makings_of_one_value<R>(rt: &R, hoard: &mut Hoard) -> Tried
where
    R: Wait + Copy + Drop + RandomSource + AllocGlobal,
{
    let ends = (&OneshotEnds, &BroadcastEnds);
    let one = tries_of_rows::<R, OneshotState<u64, u64>, _>(rt, hoard, ends.0, (), &ONE_VALUE);
    let all = tries_of_rows::<R, OneshotBroadcastState<u64, u64>, _>(
        rt,
        hoard,
        ends.1,
        (),
        &ONE_VALUE,
    );
    one.and(all)
}

#[test]
fn makings(rt: HostRuntime) -> Result<(), Fail> {
    let mut hoard = Hoard::new(rt.alloc())?;
    let one_value = makings_of_one_value(&rt, &mut hoard);
    let ends = &StateEnds;
    let states = tries_of_rows::<_, StateBroadcastState<u64, u64>, _>(
        &rt,
        &mut hoard,
        ends,
        (),
        &STATES,
    );
    let tried = one_value.and(states);
    assert!(rt; tried.is_right(1), "{tried:?}");
    Ok(())
}

// The calls of these rows on ends of a channel of this capacity.
fn tries_on_ends<R>(rt: &R, hoard: &mut Hoard, capacity: usize, rows: &[SceneRow]) -> Tried
where
    R: Wait + Copy + Drop + RandomSource + AllocGlobal,
{
    let ends = &ChannelEnds {
        capacity,
        closer: Closer::Sender,
    };
    tries_of_rows::<R, Growing, _>(rt, hoard, ends, capacity, rows)
}

#[test]
fn makings_of_channels(rt: HostRuntime) -> Result<(), Fail> {
    let mut hoard = Hoard::new(rt.alloc())?;
    let tried = tries_on_ends(&rt, &mut hoard, 1, &MAKINGS);
    assert!(rt; tried.is_right(1), "{tried:?}");
    Ok(())
}

#[test]
fn growing_sends(rt: HostRuntime) -> Result<(), Fail> {
    let mut hoard = Hoard::new(rt.alloc())?;
    let tried = tries_on_ends(&rt, &mut hoard, 3, &GROWS);
    assert!(rt; tried.is_right(1), "{tried:?}");
    Ok(())
}
