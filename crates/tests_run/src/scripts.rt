//! Histories that have no script, and what their errors become. Those that have one are run in `tests_scripts` (`histories`).
use fi_channels::{ChannelState, EventState};
use fi_desk::{Journal, Mismatch, PoolState};
use fi_parts::Slot;
use fi_parts::buffer::{ArrayBuf, FixedHeapBuf, GrowingHeapBuf};
use fi_run::{Answer, EventCall, ScriptError, ScriptLines};
use std::alloc::Global;
use std::io::{self, ErrorKind};
use std::test::Fail;
use tests_help::texts::reads;

/// The script of an event's history: with a wait that is polled by 1, one that is polled by 2, and these calls.
fn script_of(alloc: Global, calls: &[EventCall<u64>]) -> Result<Result<String, ScriptError>, Fail> {
    let mut journal: Journal<EventState<u64>> = Journal::new(alloc, false)?;
    for waker in [1u64, 2u64] {
        let Answer::Made(wait) = journal.record(0, EventCall::Wait)?.answer() else {
            return Err("no wait".into());
        };
        journal.record(0, EventCall::Poll(wait, waker))?;
    }
    for call in calls {
        journal.record(0, *call)?;
    }
    let mut script = String::new(alloc);
    Ok(match journal.settle().write_script(&mut script) {
        Ok(()) => Ok(script),
        Err(error) => Err(error),
    })
}

/// Whether the script of such a history is this one.
fn is_script(alloc: Global, calls: &[EventCall<u64>], wanted: &str) -> Result<bool, Fail> {
    Ok(script_of(alloc, calls)??.as_str() == wanted)
}

/// Entries 0 to 3 are the waits.
#[test]
fn some_wakers_are_no_line(rt: HostRuntime) -> Result<(), Fail> {
    let alloc = rt.alloc();
    let call = EventCall::NextWake;
    let before_a_call = [EventCall::Set, call, EventCall::IsSet, call, call];
    let at_the_end = [EventCall::Set, call, call];
    let all = [EventCall::Set, EventCall::Cancel(Slot(7)), call, call, call];
    let wanted =
        "event reset\nhold wait w0\nhold poll w0 1\nhold wait w1\nhold poll w1 2\nhold set\nwakes\n";
    assert!(rt;
        script_of(alloc, before_a_call.as_slice())?.err() == Some(ScriptError::Wakers(5))
            && script_of(alloc, at_the_end.as_slice())?.err() == Some(ScriptError::Wakers(6))
            && is_script(alloc, all.as_slice(), wanted)?
            && reads(
                alloc,
                &ScriptError::Wakers(5),
                "entry 5 takes some wakers and may leave others"
            )
    );
    Ok(())
}

/// Why a journal that is opened so and has no entry has no script.
fn refusal<P: ScriptLines + Drop>(
    alloc: Global,
    opening: P::Opening,
) -> Result<Option<ScriptError>, Fail>
where
    P::Opening: Copy,
    P::Call: Copy,
{
    let journal: Journal<P> = Journal::new(alloc, opening)?;
    let mut script = String::from_str(alloc, "before")?;
    let refused = journal.settle().write_script(&mut script).err();
    if script.as_str() != "before" {
        return Err("something was written".into());
    }
    Ok(refused)
}

#[test]
fn openings_without_a_line(rt: HostRuntime) -> Result<(), Fail> {
    let alloc = rt.alloc();
    let wanted = Some(ScriptError::Opening);
    assert!(rt;
        refusal::<ChannelState<u64, ArrayBuf<u64, 3>, u64>>(alloc, 3)? == wanted
            && refusal::<ChannelState<u64, FixedHeapBuf<u64>, u64>>(alloc, 65537)? == wanted
            && refusal::<ChannelState<u64, GrowingHeapBuf<u64>, u64>>(alloc, 65537)? == wanted
            && refusal::<PoolState<u64>>(alloc, (1, 65537))? == wanted
            && reads(
                alloc,
                &ScriptError::Opening,
                "no script opens the primitive so"
            )
            && reads(alloc, &ScriptError::NoMemory, "out of memory")
    );
    Ok(())
}

#[test]
fn a_mismatch_says_what_is_missing(rt: HostRuntime) {
    assert!(rt;
        reads(
            rt.alloc(),
            &Mismatch::Seats,
            "seats of the desk are missing"
        ) && reads(
            rt.alloc(),
            &Mismatch::Entry(3),
            "entry 3 has no receipt at its seat"
        )
    );
}

#[test]
fn errors_become_io_errors(rt: HostRuntime) {
    assert!(rt;
        io::Error::from(ScriptError::NoMemory).kind() == ErrorKind::OutOfMemory
            && io::Error::from(ScriptError::Opening).kind() == ErrorKind::InvalidData
            && io::Error::from(ScriptError::Wakers(3)).kind() == ErrorKind::InvalidData
            && io::Error::from(Mismatch::Seats).kind() == ErrorKind::InvalidData
            && io::Error::from(Mismatch::Entry(3)).kind() == ErrorKind::InvalidData
    );
}
