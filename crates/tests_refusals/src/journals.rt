//! Runs, journals and desks whose room for answers, entries and receipts is refused.
ghost use Rattle.std.specs.Prelude.{◌≡◌};

use fi_channels::EventState;
use fi_desk::{Desk, Journal};
use fi_parts::Fault;
use fi_run::{Answer, EventCall, Primitive, run};
use std::alloc::{AllocGlobal, Global};
use std::marker::Brand;
use std::sync::Wait;
use std::sync::ledger::{Blank, Ledger};
use std::test::Fail;
use tests_driver::refusals::scene::{STEP, STEPS, Tried, Try};
use tests_help::hoard::Hoard;

const CALLS: [EventCall<u64>; 4] = [
    EventCall::Set,
    EventCall::IsSet,
    EventCall::Reset,
    EventCall::IsSet,
];

const ANSWERS: [Answer<u64, u64>; 4] = [
    Answer::Done,
    Answer::Flag(true),
    Answer::Done,
    Answer::Flag(false),
];

// Runs 40 calls with so many bytes left. A refused run leaves the answers so far, and the state of the calls that were answered.
fn run_once(alloc: Global, hoard: &mut Hoard, left: usize) -> Result<Try, Fail> {
    let mut event = EventState::<u64>::new(alloc, false);
    let mut calls = Vec::new(alloc);
    for _ in 0..10u64 {
        calls.extend_from_slice(&CALLS)?;
    }
    let mut out = Vec::new(alloc);
    let is_used_up = hoard.leave(left);
    let ended = run(&mut event, calls, &mut out);
    hoard.let_go();
    if !is_used_up {
        return Ok(Try::HasNoEnd);
    }
    for (answer, wanted) in out.iter().zip(ANSWERS.iter().cycle()) {
        if *answer != *wanted {
            return Ok(Try::Differs);
        }
    }
    let is_set = matches!(event.apply(EventCall::IsSet), Answer::Flag(true));
    if is_set != (out.len() % 4 == 1 || out.len() % 4 == 2) {
        return Ok(Try::Differs);
    }
    Ok(match ended {
        Ok(()) if out.len() == 40 => Try::Answered,
        Err(Fault::NoMemory { .. }) if out.len() < 40 => Try::Refused,
        _ => Try::Differs,
    })
}

#[test]
fn runs_are_refused(rt: HostRuntime) -> Result<(), Fail> {
    let mut hoard = Hoard::new(rt.alloc())?;
    let mut tried = Tried::Differs(0);
    let mut refusals = 0u64;
    for step in 0..STEPS {
        match run_once(rt.alloc(), &mut hoard, STEP * step)? {
            Try::Refused => refusals = refusals.wrapping_add(1),
            Try::Answered => tried = Tried::Refused(refusals),
            Try::HasNoEnd => tried = Tried::unused(&hoard, refusals),
            Try::Differs => tried = Tried::Differs(refusals),
        }
        if tried != Tried::Differs(0) {
            break;
        }
    }
    assert!(rt; tried.is_right(1), "{tried:?}");
    Ok(())
}

// Records with so many bytes left, until it is not refused, on one journal: it changes nothing where it is refused.
#[test]
fn records_are_refused(rt: HostRuntime) -> Result<(), Fail> {
    let mut hoard = Hoard::new(rt.alloc())?;
    let mut journal: Journal<EventState<u64>> = Journal::new(rt.alloc(), false)?;
    let (mut refusals, mut made) = (0u64, 0usize);
    let mut is_used_up = true;
    for step in 0..STEPS {
        is_used_up = hoard.leave(STEP * step) && is_used_up;
        let receipt = journal.record(3, EventCall::Wait);
        hoard.let_go();
        match receipt {
            Ok(receipt) => {
                assert_eq!(rt; receipt.number(), made);
                made = made.wrapping_add(1);
                if !matches!(receipt.answer(), Answer::Refused(Fault::NoMemory { .. })) {
                    break;
                }
            }
            Err(fault) => {
                assert!(rt; matches!(fault, Fault::NoMemory { .. }));
                refusals = refusals.wrapping_add(1);
            }
        }
    }
    let is_right = is_used_up == hoard.has_end() && (refusals > 0 || !hoard.has_end());
    assert!(rt; is_right, "{refusals} records were refused");
    let settled = journal.settle();
    assert_eq!(rt; settled.history.len(), made);
    Ok(())
}

// Calls with so many bytes left, until the call is not refused: the seat has a receipt of each that was not.
fn calls_at_a_desk<R: Wait + Copy + AllocGlobal, L: Ledger>(
    rt: R,
    blank: Blank,
    hoard: &mut Hoard,
) -> Result<Tried, Fail>
    requires name { blank.name ≡ L.name }
    requires parts { blank.parts ≡ L.parts }
    requires count { blank.parts ≡ 1 }
{
    let desk: Desk<EventState<u64>, R, L> = Desk::new(rt.alloc(), rt, blank, false, 1)?;
    let mut seat = desk.seat()?;
    let mut refusals = 0u64;
    let mut made = 0usize;
    for step in 0..STEPS {
        let is_used_up = hoard.leave(STEP * step);
        let receipt = desk.call(&mut seat, EventCall::Wait);
        hoard.let_go();
        if !is_used_up {
            return Ok(Tried::unused(hoard, refusals));
        }
        match receipt {
            Ok(receipt) => {
                if receipt.number() != made {
                    return Ok(Tried::Differs(refusals));
                }
                made = made.wrapping_add(1);
                if !matches!(receipt.answer(), Answer::Refused(Fault::NoMemory { .. })) {
                    break;
                }
            }
            Err(Fault::NoMemory { .. }) => refusals = refusals.wrapping_add(1),
            Err(_) => return Ok(Tried::Differs(refusals)),
        }
    }
    let mut seats = Vec::new(rt.alloc());
    seats.push(seat)?;
    match desk.settle(seats) {
        Ok(settled) if settled.history.len() == made => Ok(Tried::Refused(refusals)),
        _ => Ok(Tried::Differs(refusals)),
    }
}

#[test]
fn calls_at_a_desk_are_refused(rt: HostRuntime) -> Result<(), Fail> {
    let mut hoard = Hoard::new(rt.alloc())?;
    let tried = calls_at_a_desk::<HostRuntime, Brand>(rt, Blank::new(1), &mut hoard)?;
    assert!(rt; tried.is_right(1), "{tried:?}");
    Ok(())
}
