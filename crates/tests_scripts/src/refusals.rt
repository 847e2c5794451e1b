//! Each request for memory is refused in turn. What was written is whole lines of the true output.

use crate::rooms::{Left, Rooms};
use crate::rows::answer;
use fi_scripts::{COLLECTED, LINE, ScriptFault, run_script};
use std::alloc::{AllocError, Global};
use std::process::Abort;
use std::test::Fail;
use tests_help::hoard::REGION;
use tests_rows::{answers_of, channel, over_buffer, script_of, text_of, timer};

/// The room that a short script is read into.
const SCRIPT: usize = 131_072;

/// The room that a script of some 80,000 bytes is read into.
const LONG_SCRIPT: usize = 262_144;

/// The step by which what is left grows: no block takes less.
const STEP: usize = 32;

/// So many steps are tried, up to a region.
const STEPS: usize = REGION / STEP;

/// How a run ended.
#[derive(Clone, Copy, PartialEq, Eq, Debug)]
enum Ended {
    /// The script was answered.
    Answered,
    /// Memory was refused. What was written is whole lines of the true output, so many bytes.
    Refused(usize),
    /// Memory was not used up, so nothing is said.
    HasNoEnd,
    /// Something else was written, or the run ended otherwise.
    Differs,
}

// Runs a script with so much memory.
fn run_with(
    alloc: Global,
    rooms: &mut Rooms,
    left: Left,
    script: &[u8],
    wanted: &[u8],
) -> Result<Ended, AllocError> {
    let mut output = Vec::with_capacity(alloc, wanted.len())?;
    let mut reader = script;
    let is_used_up = rooms.leave(left);
    let ended = run_script(alloc, &mut reader, &mut output);
    rooms.let_go();
    if !is_used_up {
        return Ok(Ended::HasNoEnd);
    }
    let written = output.as_slice();
    Ok(match ended {
        Ok(()) if written == wanted => Ended::Answered,
        Err(ScriptFault::NoMemory) if is_front(written, wanted) => Ended::Refused(written.len()),
        _ => Ended::Differs,
    })
}

// Whether the first bytes are whole lines at the beginning of the others.
fn is_front(written: &[u8], wanted: &[u8]) -> bool {
    let ends_a_line = match written.last() {
        Some(last) => *last == b'\n',
        None => true,
    };
    ends_a_line && wanted.starts_with(written)
}

/// What the runs of a script came to.
#[derive(Clone, Copy, PartialEq, Eq, Debug)]
enum Tried {
    /// So many runs were refused memory, of which so many had written lines, and then one was answered.
    Answered { refused: u64, begun: u64 },
    /// Memory has no end here.
    HasNoEnd,
    /// A run differed, so many refusals in, or all were refused.
    Differs(u64),
}

// Runs a script with ever more memory left besides its room and that of its answers, until it is answered.
fn each_refusal(
    alloc: Global,
    rooms: &mut Rooms,
    script: &[u8],
    wanted: &[u8],
) -> Result<Tried, AllocError> {
    let (mut refused, mut begun) = (0u64, 0u64);
    for step in 0..STEPS {
        let left = Left {
            script: true,
            answers: true,
            bytes: STEP * step,
        };
        match run_with(alloc, rooms, left, script, wanted)? {
            Ended::Answered => return Ok(Tried::Answered { refused, begun }),
            Ended::Refused(written) => {
                refused = refused.wrapping_add(1);
                if written > 0 {
                    begun = begun.wrapping_add(1);
                }
            }
            Ended::HasNoEnd => return Ok(Tried::HasNoEnd),
            Ended::Differs => break,
        }
    }
    Ok(Tried::Differs(refused))
}

// Refuses a row's script each request in turn: those for its room and for that of its answers, and then those of the primitive and its
// labels, some of them when lines were answered.
fn check_refusals(rt: &impl Abort, alloc: Global, row: &str) -> Result<(), Fail> {
    let script = script_of(alloc, row)?;
    let wanted = answers_of(alloc, row)?;
    let (script, wanted) = (script.as_bytes(), wanted.as_bytes());
    let mut rooms = Rooms::new(alloc, SCRIPT, COLLECTED + LINE)?;
    for (script_room, answers_room) in [(false, false), (false, true), (true, false)] {
        let left = Left {
            script: script_room,
            answers: answers_room,
            bytes: 0,
        };
        let ended = run_with(alloc, &mut rooms, left, script, wanted)?;
        assert!(rt;
            ended == Ended::Refused(0) || ended == Ended::HasNoEnd,
            "{left:?}: {ended:?}"
        );
    }
    let tried = each_refusal(alloc, &mut rooms, script, wanted)?;
    let is_right = match tried {
        Tried::Answered { refused, begun } => 0 < begun && begun < refused,
        Tried::HasNoEnd => true,
        Tried::Differs(_) => false,
    };
    assert!(rt; is_right, "{tried:?}");
    Ok(())
}

#[test]
fn a_rendezvous_is_refused(rt: HostRuntime) -> Result<(), Fail> {
    let row = text_of(&channel::ROWS, "channel_rendezvous");
    check_refusals(&rt, rt.alloc(), row)
}

#[test]
fn a_cancelled_send_is_refused(rt: HostRuntime) -> Result<(), Fail> {
    let row = text_of(&channel::ROWS, "channel_cancelled_send");
    let row = over_buffer(rt.alloc(), "growing", row)?;
    check_refusals(&rt, rt.alloc(), row.as_str())
}

#[test]
fn expirations_are_refused(rt: HostRuntime) -> Result<(), Fail> {
    // The first four futures lie in one chunk of memory, so the fifth is the next that asks for more.
    let mut row = String::from_str(rt.alloc(), text_of(&timer::ROWS, "timer_expirations"))?;
    row.push_str("\ndeadline d 999\ndeadline e 999")?;
    check_refusals(&rt, rt.alloc(), row.as_str())
}

// A script whose last line names 200 wakers, for which there is no room behind the 65,528 bytes that were collected before.
fn long_script(alloc: Global) -> Result<String, Fail> {
    let mut script = String::from_str(alloc, "event reset\n")?;
    for _ in 0..10_488u64 {
        script.push_str("is-set\n")?;
    }
    for wait in 0..200u64 {
        write!(script, "wait w{wait}\npoll w{wait} 18446744073709551615\n")?;
    }
    script.push_str("set\n")?;
    Ok(script)
}

/// So many bytes are written of the long script where its last line is refused.
const BEFORE: usize = 65_528;

#[test]
fn a_long_line_is_refused_whole(rt: HostRuntime) -> Result<(), Fail> {
    let alloc = rt.alloc();
    let script = long_script(alloc)?;
    let (wanted, ended) = answer(alloc, script.as_bytes());
    assert_eq!(rt; ended, Ok(()));
    let mut rooms = Rooms::new(alloc, LONG_SCRIPT, COLLECTED + LINE)?;
    let left = Left {
        script: true,
        answers: true,
        bytes: REGION,
    };
    let ended = run_with(
        alloc,
        &mut rooms,
        left,
        script.as_bytes(),
        wanted.as_slice(),
    )?;
    assert!(rt;
        ended == Ended::Refused(BEFORE) || ended == Ended::HasNoEnd,
        "{ended:?}"
    );
    Ok(())
}
