//! The calls of primitives that take memory, on plain states and on what threads share.
use fi_channels::{
    ChannelState, EventState, OneshotBroadcastState, OneshotState, StateBroadcastState,
};
use fi_locks::{MutexState, SemaphoreState, TimerState};
use fi_parts::buffer::{ArrayBuf, FixedHeapBuf, GrowingHeapBuf, RingBuf};
use fi_run::{ScriptBuffer, SemaphoreCall};
use std::alloc::AllocGlobal;
use std::random::RandomSource;
use std::sync::Wait;
use std::test::Fail;
use tests_driver::Flavour;
use tests_driver::channel::ChannelOver;
use tests_driver::event::Event;
use tests_driver::mutex::MutexOf;
use tests_driver::one_value::{BROADCAST, ONESHOT};
use tests_driver::refusals::cases::{GROWS, MAKINGS, ONE_VALUE, STATES};
use tests_driver::refusals::scene::Tried;
use tests_driver::refusals::scene_rows::{SceneRow, tries_of_rows};
use tests_driver::semaphore::{ByOwners, ByReference, Opening};
use tests_driver::state::StateBroadcast;
use tests_driver::timer::Timer;
use tests_help::hoard::Hoard;

// Once the event was set and reset, and while it never was.
const EVENT: [SceneRow; 2] = [
    "wait a; wait b; wait c; wait d; poll a 1; set; reset; wait e -> no-memory; poll e 2; poll a 3; set",
    "wait a; wait b; wait c; wait d; poll a 1; wait e -> no-memory; is-set; poll e 2; set; poll a 3; poll e 4",
];

#[test]
fn makings_of_an_event(rt: HostRuntime) -> Result<(), Fail> {
    let mut hoard = Hoard::new(rt.alloc())?;
    let event = &Event { is_set: false };
    let tried = tries_of_rows::<_, EventState<u64>, _>(&rt, &mut hoard, event, false, &EVENT);
    assert!(rt; tried.is_right(1), "{tried:?}");
    Ok(())
}

#[test]
fn makings_of_channels_of_one_value(rt: HostRuntime) -> Result<(), Fail> {
    let mut hoard = Hoard::new(rt.alloc())?;
    let oneshot = tries_of_rows::<_, OneshotState<u64, u64>, _>(
        &rt,
        &mut hoard,
        &ONESHOT,
        (),
        &ONE_VALUE,
    );
    let broadcast = tries_of_rows::<_, OneshotBroadcastState<u64, u64>, _>(
        &rt,
        &mut hoard,
        &BROADCAST,
        (),
        &ONE_VALUE,
    );
    let tried = oneshot.and(broadcast);
    assert!(rt; tried.is_right(1), "{tried:?}");
    Ok(())
}

#[test]
fn makings_of_a_state_broadcast(rt: HostRuntime) -> Result<(), Fail> {
    let mut hoard = Hoard::new(rt.alloc())?;
    let tried = tries_of_rows::<_, StateBroadcastState<u64, u64>, _>(
        &rt,
        &mut hoard,
        &StateBroadcast,
        (),
        &STATES,
    );
    assert!(rt; tried.is_right(1), "{tried:?}");
    Ok(())
}

// Once the mutex was unlocked, and while it is locked.
const LOCKS: [SceneRow; 2] = [
    "try-lock; lock a; lock b; lock c; lock d; poll a 1; unlock 8; lock e -> no-memory; poll e 2; poll a 3; unlock 9",
    "try-lock; lock a; lock b; lock c; lock d; poll a 1; lock e -> no-memory; \
        is-locked; poll e 2; unlock 8; poll a 3; unlock 9; poll e 4",
];

#[test]
fn makings_of_a_mutex(rt: HostRuntime) -> Result<(), Fail> {
    let mut hoard = Hoard::new(rt.alloc())?;
    let fair = &MutexOf {
        value: 7,
        is_fair: true,
    };
    let opening = (7, true);
    let tried = tries_of_rows::<_, MutexState<u64, u64>, _>(&rt, &mut hoard, fair, opening, &LOCKS);
    assert!(rt; tried.is_right(1), "{tried:?}");
    Ok(())
}

const UNFAIR: Opening = Opening {
    is_fair: false,
    permits: 0,
};

// Once permits were released, and while none were.
const ACQUIRES: [SceneRow; 2] = [
    "acquire a 2; acquire b 2; acquire c 2; acquire d 2; poll a 1; release 3; acquire e 2 -> no-memory; \
        poll e 2; poll a 3; permits",
    "acquire a 2; acquire b 2; acquire c 2; acquire d 2; poll a 1; acquire e 2 -> no-memory; \
        permits; poll e 2; release 2; poll a 3; permits",
];

// Of a semaphore of this kind.
fn acquires<R, F>(rt: &R, hoard: &mut Hoard, flavour: &F) -> Tried
where
    R: Wait + RandomSource + AllocGlobal,
    F: Flavour<R, Call = SemaphoreCall<u64>>,
{
    let opening = (0, false);
    tries_of_rows::<R, SemaphoreState<u64>, F>(rt, hoard, flavour, opening, &ACQUIRES)
}

#[test]
fn makings_of_semaphores(rt: HostRuntime) -> Result<(), Fail> {
    let mut hoard = Hoard::new(rt.alloc())?;
    let by_reference = acquires(&rt, &mut hoard, &ByReference(UNFAIR));
    let by_owners = acquires(&rt, &mut hoard, &ByOwners(UNFAIR));
    let tried = by_reference.and(by_owners);
    assert!(rt; tried.is_right(1), "{tried:?}");
    Ok(())
}

// The first wait is polled by its task before its moment. Once a check was made after it; once the moment has come and no check was made,
// and the making makes none; and once it is still to come.
const TIMER: [SceneRow; 5] = [
    "deadline a 3; deadline b 9; deadline c 3; deadline d 3; poll a 1 1; check 4; delay e 4 2 -> no-memory; \
        poll e 5 2; next; check 6; poll a 6 3; poll e 6 2",
    "deadline a 3; deadline b 9; deadline c 3; deadline d 3; poll a 1 1; check 4; deadline e 6 -> no-memory; \
        poll e 5 2; next; check 6; poll a 6 3; poll e 6 2",
    "deadline a 3; deadline b 9; deadline c 3; deadline d 3; poll a 1 1; poll b 4 2; delay e 4 2 -> no-memory; \
        poll e 5 2; next; check 6; poll a 6 3; poll e 6 2",
    "deadline a 3; deadline b 9; deadline c 3; deadline d 3; poll a 1 1; poll b 4 2; deadline e 6 -> no-memory; \
        poll e 5 2; next; check 6; poll a 6 3; poll e 6 2",
    "deadline a 3; deadline b 9; deadline c 3; deadline d 3; poll a 1 1; deadline e 6 -> no-memory; \
        poll e 5 2; next; check 6; poll a 6 3; poll e 6 2",
];

#[test]
fn makings_of_a_timer(rt: HostRuntime) -> Result<(), Fail> {
    let mut hoard = Hoard::new(rt.alloc())?;
    let tried = tries_of_rows::<_, TimerState<u64>, _>(&rt, &mut hoard, &Timer, (), &TIMER);
    assert!(rt; tried.is_right(1), "{tried:?}");
    Ok(())
}

// The calls of these rows on a channel of this capacity over this buffer.
fn tries_over<R, B>(rt: &R, hoard: &mut Hoard, capacity: usize, rows: &[SceneRow]) -> Tried
where
    R: Wait + Copy + Drop + RandomSource + AllocGlobal,
    B: RingBuf<Item = u64> + ScriptBuffer + Drop,
{
    let channel = &ChannelOver::<B>::new(capacity);
    tries_of_rows::<R, ChannelState<u64, B, u64>, _>(rt, hoard, channel, capacity, rows)
}

#[test]
fn makings_of_channels(rt: HostRuntime) -> Result<(), Fail> {
    let mut hoard = Hoard::new(rt.alloc())?;
    let array = tries_over::<_, ArrayBuf<u64, 1>>(&rt, &mut hoard, 1, &MAKINGS);
    let block = tries_over::<_, FixedHeapBuf<u64>>(&rt, &mut hoard, 1, &MAKINGS);
    let growing = tries_over::<_, GrowingHeapBuf<u64>>(&rt, &mut hoard, 1, &MAKINGS);
    let tried = array.and(block).and(growing);
    assert!(rt; tried.is_right(1), "{tried:?}");
    Ok(())
}

#[test]
fn growing_sends(rt: HostRuntime) -> Result<(), Fail> {
    let mut hoard = Hoard::new(rt.alloc())?;
    let tried = tries_over::<_, GrowingHeapBuf<u64>>(&rt, &mut hoard, 3, &GROWS);
    assert!(rt; tried.is_right(1), "{tried:?}");
    Ok(())
}
