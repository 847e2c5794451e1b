//! The worked rows, as scripts: the library's answers are those that the row lists, also for the script of a recorded history of its calls.

use crate::histories::history_of;
use fi_channels::{
    ChannelState, EventState, OneshotBroadcastState, OneshotState, StateBroadcastState,
};
use fi_desk::PoolState;
use fi_locks::{MutexState, SemaphoreState, TimerState};
use fi_parts::buffer::{ArrayBuf, FixedHeapBuf, GrowingHeapBuf};
use fi_run::Primitive;
use fi_scripts::{ScriptFault, Scripted, run_script};
use std::alloc::{AllocGlobal, Global};
use std::process::Abort;
use tests_rows::{
    Row, answers_of, channel, event, mutex, one_value, opening_of, over_buffer, pool,
    recorded_answers_of, script_of, semaphore, state, timer,
};

/// What a script is answered, and how its run ends.
pub(crate) fn answer(alloc: Global, script: &[u8]) -> (Vec<u8>, Result<(), ScriptFault>) {
    let mut reader = script;
    let mut output = Vec::new(alloc);
    let ended = run_script(alloc, &mut reader, &mut output);
    (output, ended)
}

/// Runs a script, and compares its output and how its run ends.
pub(crate) fn check_script(
    rt: &impl Abort,
    alloc: Global,
    script: &str,
    wanted: &str,
    wanted_end: Result<(), ScriptFault>,
) {
    let (output, ended) = answer(alloc, script.as_bytes());
    assert_eq!(rt; ended, wanted_end, "{script}");
    assert!(rt; output.as_slice() == wanted.as_bytes(), "{script}");
}

// Whether the script is answered so to its end.
fn is_answered(alloc: Global, script: &str, wanted: &str) -> bool {
    let (output, ended) = answer(alloc, script.as_bytes());
    ended == Ok(()) && output.as_slice() == wanted.as_bytes()
}

// Whether the answers are those that the row lists, also for the script of its history. None if memory is missing, or the history can't be
// written.
fn is_right<P: Scripted>(alloc: Global, opening: P::Opening, row: &str) -> Option<bool>
where
    P::Opening: Copy,
    P::Call: Copy,
{
    let script = script_of(alloc, row).ok()?;
    let wanted = answers_of(alloc, row).ok()?;
    let history = history_of::<P>(alloc, opening, row)?;
    let recorded = recorded_answers_of(alloc, row).ok()?;
    Some(
        is_answered(alloc, script.as_str(), wanted.as_str())
            && is_answered(alloc, history.as_str(), recorded.as_str()),
    )
}

// The first of these rows that is not right.
fn first_wrong<P: Scripted>(alloc: Global, rows: &[Row]) -> Option<&'static str>
where
    P::Opening: Copy,
    P::Call: Copy,
{
    for row in rows {
        let Some(opening) = opening_of::<P>(row.text) else {
            return Some(row.name);
        };
        if is_right::<P>(alloc, opening, row.text) != Some(true) {
            return Some(row.name);
        }
    }
    None
}

#[test]
fn event_rows(rt: HostRuntime) {
    let wrong = first_wrong::<EventState<u64>>(rt.alloc(), &event::ROWS);
    assert!(rt; wrong.is_none(), "{wrong:?}");
}

#[test]
fn event_texts(rt: HostRuntime) {
    let wrong = first_wrong::<EventState<u64>>(rt.alloc(), &event::TEXTS);
    assert!(rt; wrong.is_none(), "{wrong:?}");
}

#[test]
fn oneshot_rows(rt: HostRuntime) {
    let wrong = first_wrong::<OneshotState<u64, u64>>(rt.alloc(), &one_value::ONESHOT);
    assert!(rt; wrong.is_none(), "{wrong:?}");
}

#[test]
fn broadcast_rows(rt: HostRuntime) {
    let wrong = first_wrong::<OneshotBroadcastState<u64, u64>>(rt.alloc(), &one_value::BROADCAST);
    assert!(rt; wrong.is_none(), "{wrong:?}");
}

#[test]
fn state_broadcast_rows(rt: HostRuntime) {
    let wrong = first_wrong::<StateBroadcastState<u64, u64>>(rt.alloc(), &state::ROWS);
    assert!(rt; wrong.is_none(), "{wrong:?}");
}

#[test]
fn mutex_rows(rt: HostRuntime) {
    let wrong = first_wrong::<MutexState<u64, u64>>(rt.alloc(), &mutex::ROWS);
    assert!(rt; wrong.is_none(), "{wrong:?}");
}

#[test]
fn mutex_texts(rt: HostRuntime) {
    let wrong = first_wrong::<MutexState<u64, u64>>(rt.alloc(), &mutex::TEXTS);
    assert!(rt; wrong.is_none(), "{wrong:?}");
}

#[test]
fn semaphore_rows(rt: HostRuntime) {
    let wrong = first_wrong::<SemaphoreState<u64>>(rt.alloc(), &semaphore::ROWS);
    assert!(rt; wrong.is_none(), "{wrong:?}");
}

#[test]
fn semaphore_texts(rt: HostRuntime) {
    let wrong = first_wrong::<SemaphoreState<u64>>(rt.alloc(), &semaphore::TEXTS);
    assert!(rt; wrong.is_none(), "{wrong:?}");
}

#[test]
fn timer_rows(rt: HostRuntime) {
    let wrong = first_wrong::<TimerState<u64>>(rt.alloc(), &timer::ROWS);
    assert!(rt; wrong.is_none(), "{wrong:?}");
}

#[test]
fn timer_texts(rt: HostRuntime) {
    let wrong = first_wrong::<TimerState<u64>>(rt.alloc(), &timer::TEXTS);
    assert!(rt; wrong.is_none(), "{wrong:?}");
}

#[test]
fn pool_rows(rt: HostRuntime) {
    let wrong = first_wrong::<PoolState<u64>>(rt.alloc(), &pool::ROWS);
    assert!(rt; wrong.is_none(), "{wrong:?}");
}

// The capacity of a row that begins with `channel array` and a digit.
fn capacity_of(row: &str) -> Option<usize> {
    let (_, rest) = row.split_once("array ")?;
    let digit = rest.as_bytes().first()?;
    Some(usize::from(digit.wrapping_sub(b'0')))
}

// The first of the rows over an array of this length that is not right over a buffer of this kind, which that of `P` is.
fn first_wrong_over<P: Scripted>(
    alloc: Global,
    kind: &str,
    capacity: usize,
    opening: P::Opening,
    rows: &[Row],
) -> Option<&'static str>
where
    P::Opening: Copy,
    P::Call: Copy,
{
    for row in rows {
        if capacity_of(row.text) == Some(capacity) {
            let Ok(text) = over_buffer(alloc, kind, row.text) else {
                return Some(row.name);
            };
            if is_right::<P>(alloc, opening, text.as_str()) != Some(true) {
                return Some(row.name);
            }
        }
    }
    None
}

type Array<const N: usize> = ChannelState<u64, ArrayBuf<u64, N>, u64>;

type Fixed = ChannelState<u64, FixedHeapBuf<u64>, u64>;

type Growing = ChannelState<u64, GrowingHeapBuf<u64>, u64>;

#[test]
fn channel_rows_over_an_empty_array(rt: HostRuntime) {
    let wrong = first_wrong_over::<Array<0>>(rt.alloc(), "array", 0, 0, &channel::ROWS);
    assert!(rt; wrong.is_none(), "{wrong:?}");
}

#[test]
fn channel_rows_over_an_array_of_one(rt: HostRuntime) {
    let wrong = first_wrong_over::<Array<1>>(rt.alloc(), "array", 1, 1, &channel::ROWS);
    assert!(rt; wrong.is_none(), "{wrong:?}");
}

#[test]
fn channel_rows_over_an_array_of_two(rt: HostRuntime) {
    let wrong = first_wrong_over::<Array<2>>(rt.alloc(), "array", 2, 2, &channel::ROWS);
    assert!(rt; wrong.is_none(), "{wrong:?}");
}

#[test]
fn channel_rows_over_an_array_of_five(rt: HostRuntime) {
    let wrong = first_wrong_over::<Array<5>>(rt.alloc(), "array", 5, 5, &channel::ROWS);
    assert!(rt; wrong.is_none(), "{wrong:?}");
}

// The first of the rows that is not right over a heap buffer of this kind.
fn first_wrong_heap<P: Scripted + Primitive<Opening = usize>>(
    alloc: Global,
    kind: &str,
) -> Option<&'static str>
where
    P::Call: Copy,
{
    for capacity in [0, 1, 2, 5] {
        let wrong = first_wrong_over::<P>(alloc, kind, capacity, capacity, &channel::ROWS);
        if wrong.is_some() {
            return wrong;
        }
    }
    let text = over_buffer(alloc, kind, channel::MOST_PLACES.text).ok()?;
    match is_right::<P>(alloc, 65_536, text.as_str()) {
        Some(true) => None,
        _ => Some(channel::MOST_PLACES.name),
    }
}

#[test]
fn channel_rows_over_a_fixed_buffer(rt: HostRuntime) {
    let wrong = first_wrong_heap::<Fixed>(rt.alloc(), "fixed");
    assert!(rt; wrong.is_none(), "{wrong:?}");
}

#[test]
fn channel_rows_over_a_growing_buffer(rt: HostRuntime) {
    let wrong = first_wrong_heap::<Growing>(rt.alloc(), "growing");
    assert!(rt; wrong.is_none(), "{wrong:?}");
}

#[test]
fn channel_texts(rt: HostRuntime) {
    let wrong = first_wrong_over::<Array<0>>(rt.alloc(), "array", 0, 0, &channel::TEXTS);
    assert!(rt; wrong.is_none(), "{wrong:?}");
}
