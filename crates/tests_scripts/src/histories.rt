//! The rows' calls, recorded by a journal, whose history is written as a script again; and long ones.

use fi_channels::{
    ChannelState, EventState, OneshotBroadcastState, OneshotState, StateBroadcastState,
};
use fi_desk::{Journal, PoolState};
use fi_locks::{MutexState, SemaphoreState, TimerState};
use fi_parts::Fault;
use fi_parts::buffer::ArrayBuf;
use fi_run::{Answer, EventCall, run};
use fi_scripts::{Labels, Scripted};
use std::alloc::{AllocGlobal, Global};
use tests_rows::{Row, call_of, histories, recorded_script_of};

// Records the call of a line, and that the wakers are taken out, unless the line holds them back. Answers whether it could.
fn record<P: Scripted>(journal: &mut Journal<P>, labels: &mut Labels, line: &str) -> Option<()>
where
    P::Opening: Copy,
    P::Call: Copy,
{
    let (holds, request) = labels.read::<P>(call_of(line).as_bytes())?;
    if let Some(request) = request {
        let answer = journal.record(0, request.call).ok()?.answer();
        labels.keep(request.row, request.label, &answer).ok()?;
        if answer == Answer::Refused(Fault::NoSlot) {
            return Some(());
        }
    }
    if !holds {
        take_wakers(journal)?;
    }
    Some(())
}

// Records calls for the oldest waker, until none is left. (A row names some few.)
fn take_wakers<P: Scripted>(journal: &mut Journal<P>) -> Option<()>
where
    P::Opening: Copy,
    P::Call: Copy,
{
    for _ in 0..100u32 {
        let answer = journal.record(0, P::next_wake_call()).ok()?.answer();
        if answer == Answer::Woken(None) {
            return Some(());
        }
    }
    None
}

/// The script of the recorded history of a row's calls. None if memory is missing, or it can't be written.
pub(crate) fn history_of<P: Scripted>(
    alloc: Global,
    opening: P::Opening,
    row: &str,
) -> Option<String>
where
    P::Opening: Copy,
    P::Call: Copy,
{
    let mut journal = Journal::<P>::new(alloc, opening).ok()?;
    let mut labels = Labels::new(alloc, 1).ok()?;
    let (_, lines) = row.split_once('\n')?;
    for line in lines.split('\n') {
        record(&mut journal, &mut labels, line)?;
    }
    let mut script = String::new(alloc);
    journal.settle().write_script(&mut script).ok()?;
    Some(script)
}

// Whether the history of the row's calls is written as the row's script, but for the lines of calls that found no future.
fn is_written<P: Scripted>(alloc: Global, opening: P::Opening, row: Row) -> bool
where
    P::Opening: Copy,
    P::Call: Copy,
{
    let (Some(history), Ok(script)) = (
        history_of::<P>(alloc, opening, row.text),
        recorded_script_of(alloc, row.text),
    ) else {
        return false;
    };
    history.as_str() == script.as_str()
}

// How many entries a journal has, in which so many calls were recorded.
fn recorded(alloc: Global, calls: usize) -> Option<usize> {
    let mut journal = Journal::<EventState<u64>>::new(alloc, false).ok()?;
    for _ in 0..calls {
        journal.record(0, EventCall::IsSet).ok()?;
    }
    Some(journal.settle().history.len())
}

#[test]
fn a_journal_keeps_each_call(rt: HostRuntime) {
    assert!(rt; recorded(rt.alloc(), 100_000) == Some(100_000));
}

// How many answers a run of so many calls has.
fn answered(alloc: Global, count: usize) -> Option<usize> {
    let mut event = EventState::<u64>::new(alloc, false);
    let (mut calls, mut answers) = (Vec::new(alloc), Vec::new(alloc));
    for _ in 0..count {
        calls.push(EventCall::IsSet).ok()?;
    }
    run(&mut event, calls, &mut answers).ok()?;
    Some(answers.len())
}

#[test]
fn a_run_answers_each_call(rt: HostRuntime) {
    assert!(rt; answered(rt.alloc(), 200_000) == Some(200_000));
}

#[test]
fn event_history(rt: HostRuntime) {
    assert!(rt; is_written::<EventState<u64>>(rt.alloc(), false, histories::EVENT_HISTORY));
}

#[test]
fn oneshot_history(rt: HostRuntime) {
    assert!(rt; is_written::<OneshotState<u64, u64>>(rt.alloc(), (), histories::ONESHOT_HISTORY));
}

#[test]
fn oneshot_broadcast_history(rt: HostRuntime) {
    let row = histories::BROADCAST_HISTORY;
    assert!(rt; is_written::<OneshotBroadcastState<u64, u64>>(rt.alloc(), (), row));
}

#[test]
fn state_broadcast_history(rt: HostRuntime) {
    let row = histories::STATE_BROADCAST_HISTORY;
    assert!(rt; is_written::<StateBroadcastState<u64, u64>>(rt.alloc(), (), row));
}

/// Sends have slots of their own; receives and streams share theirs.
#[test]
fn channel_history(rt: HostRuntime) {
    let row = histories::CHANNEL_HISTORY;
    assert!(rt; is_written::<ChannelState<u64, ArrayBuf<u64, 1>, u64>>(rt.alloc(), 1, row));
}

#[test]
fn mutex_history(rt: HostRuntime) {
    let row = histories::MUTEX_HISTORY;
    assert!(rt; is_written::<MutexState<u64, u64>>(rt.alloc(), (7, true), row));
}

#[test]
fn semaphore_history(rt: HostRuntime) {
    let row = histories::SEMAPHORE_HISTORY;
    assert!(rt; is_written::<SemaphoreState<u64>>(rt.alloc(), (0, true), row));
}

#[test]
fn timer_history(rt: HostRuntime) {
    assert!(rt; is_written::<TimerState<u64>>(rt.alloc(), (), histories::TIMER_HISTORY));
}

#[test]
fn pool_history(rt: HostRuntime) {
    assert!(rt; is_written::<PoolState<u64>>(rt.alloc(), (1, 2), histories::POOL_HISTORY));
}
