//! Desks among threads, and what their receipts and histories show.
ghost use Rattle.std.specs.Prelude.{◌≡◌};

use fi_channels::EventState;
use fi_desk::{Desk, Mismatch, Seat, Settled};
use fi_locks::SemaphoreState;
use fi_parts::Fault;
use fi_run::{Answer, EventCall, Primitive, SemaphoreCall};
use std::alloc::AllocGlobal;
use std::marker::Brand;
use std::sync::Wait;
use std::sync::ledger::{Blank, Ledger};
use std::test::Fail;
use std::thread;
use std::thread::Threads;

/// Whether two seats of one desk see one event, in one order: a desk with a journal for each seat would answer `Flag(false)`, number 0.
fn two_seats<R: Wait + Threads + Copy + AllocGlobal + Send + Sync, L: Ledger + Send + Sync>(
    rt: R,
    blank: Blank,
) -> Result<bool, Fail>
    requires name { blank.name ≡ L.name }
    requires parts { blank.parts ≡ L.parts }
    requires count { blank.parts ≡ 2 }
{
    let desk: Desk<EventState<u64>, R, L> = Desk::new(rt.alloc(), rt, blank, false, 2)?;
    let shared = &desk;
    let mut first = desk.seat()?;
    let mut second = desk.seat()?;
    let setter = move || {
        let answered = shared.call(&mut first, EventCall::Set).is_ok();
        (first, answered)
    };
    let ((first, answered), ()) = thread::join(&rt, setter, || ());
    let receipt = desk.call(&mut second, EventCall::IsSet)?;
    let sees = receipt.answer() == Answer::Flag(true) && receipt.number() == 1;
    let mut seats = Vec::new(rt.alloc());
    seats.push(second)?;
    seats.push(first)?;
    let settled = desk.settle(seats)?;
    Ok(answered && sees && settled.history.len() == 2)
}

#[test]
fn desk_two_seats(rt: HostRuntime) -> Result<(), Fail> {
    assert!(rt; two_seats::<HostRuntime, Brand>(rt, Blank::new(2))?);
    Ok(())
}

/// Makes so many seats at a desk for two, and settles with so many of them: how long the history is, or the mismatch.
fn settles_with<R: Wait + Copy + AllocGlobal, L: Ledger>(
    rt: R,
    blank: Blank,
    made: u64,
    given: usize,
) -> Result<Result<usize, Mismatch>, Fail>
    requires name { blank.name ≡ L.name }
    requires parts { blank.parts ≡ L.parts }
    requires count { blank.parts ≡ 2 }
{
    let desk: Desk<EventState<u64>, R, L> = Desk::new(rt.alloc(), rt, blank, false, 2)?;
    let mut seats = Vec::new(rt.alloc());
    for _ in 0..made {
        seats.push(desk.seat()?)?;
    }
    seats.truncate(given);
    Ok(match desk.settle(seats) {
        Ok(settled) => Ok(settled.history.len()),
        Err(mismatch) => Err(mismatch),
    })
}

/// Whether a third seat at a desk for two is refused.
fn refuses_a_third<R: Wait + Copy + AllocGlobal, L: Ledger>(
    rt: R,
    blank: Blank,
) -> Result<bool, Fail>
    requires name { blank.name ≡ L.name }
    requires parts { blank.parts ≡ L.parts }
    requires count { blank.parts ≡ 2 }
{
    let desk: Desk<EventState<u64>, R, L> = Desk::new(rt.alloc(), rt, blank, false, 2)?;
    let _first = desk.seat()?;
    let _second = desk.seat()?;
    Ok(matches!(desk.seat(), Err(Fault::TooManyEnds)))
}

#[test]
fn desk_seats(rt: HostRuntime) -> Result<(), Fail> {
    assert!(rt;
        settles_with::<HostRuntime, Brand>(rt, Blank::new(2), 2, 1)? == Err(Mismatch::Seats)
            && settles_with::<HostRuntime, Brand>(rt, Blank::new(2), 2, 2)? == Ok(0)
            && refuses_a_third::<HostRuntime, Brand>(rt, Blank::new(2))?
            && settles_with::<HostRuntime, Brand>(rt, Blank::new(2), 0, 0)? == Ok(0)
    );
    Ok(())
}

/// Makes forty seats at a desk for forty, and a call with each: whether one more is refused, and each entry is of its seat.
fn seats_forty<R: Wait + Copy + AllocGlobal, L: Ledger>(rt: R, blank: Blank) -> Result<bool, Fail>
    requires name { blank.name ≡ L.name }
    requires parts { blank.parts ≡ L.parts }
    requires count { blank.parts ≡ 40 }
{
    let desk: Desk<EventState<u64>, R, L> = Desk::new(rt.alloc(), rt, blank, false, 40)?;
    let mut seats = Vec::new(rt.alloc());
    for _ in 0..40u64 {
        let mut seat = desk.seat()?;
        desk.call(&mut seat, EventCall::Set)?;
        seats.push(seat)?;
    }
    let is_one_more_refused = desk.seat().is_err();
    let mut next = 0u64;
    for entry in &desk.settle(seats)?.history {
        if entry.seat != next {
            return Ok(false);
        }
        next = next.wrapping_add(1);
    }
    Ok(is_one_more_refused && next == 40)
}

#[test]
fn each_seat_has_its_entries(rt: HostRuntime) -> Result<(), Fail> {
    assert!(rt; seats_forty::<HostRuntime, Brand>(rt, Blank::new(40))?);
    Ok(())
}

/// Tries a thousand times to acquire a permit, and gives back each that it was granted. Answers how many calls it made, if all
/// were answered.
fn tries<R: Wait, L: Ledger>(
    desk: &Desk<SemaphoreState<u64>, R, L>,
    seat: &mut Seat<SemaphoreState<u64>, L>,
) -> Option<usize> {
    let mut calls = 0usize;
    for _ in 0..1000u32 {
        let receipt = desk.call(seat, SemaphoreCall::TryAcquire(1)).ok()?;
        calls = calls.wrapping_add(1);
        if receipt.answer() == Answer::Done {
            desk.call(seat, SemaphoreCall::GiveBack(1)).ok()?;
            calls = calls.wrapping_add(1);
        }
    }
    Some(calls)
}

/// Whether the history's calls, made on a state of the same opening, have its answers.
fn has_its_answers<R: AllocGlobal>(
    rt: &R,
    settled: &Settled<SemaphoreState<u64>>,
) -> Result<bool, Fail> {
    let mut fresh: SemaphoreState<u64> = SemaphoreState::open(rt.alloc(), settled.opening)?;
    for entry in &settled.history {
        if fresh.apply(entry.call) != entry.answer {
            return Ok(false);
        }
    }
    Ok(true)
}

/// Whether three threads that call at once have all their calls in the history, which can be replayed.
fn three_threads<R: Wait + Threads + Copy + AllocGlobal + Send + Sync, L: Ledger + Send + Sync>(
    rt: R,
    blank: Blank,
) -> Result<bool, Fail>
    requires name { blank.name ≡ L.name }
    requires parts { blank.parts ≡ L.parts }
    requires count { blank.parts ≡ 3 }
{
    let desk: Desk<SemaphoreState<u64>, R, L> = Desk::new(rt.alloc(), rt, blank, (2, false), 3)?;
    let (mut a, mut b, mut c) = (desk.seat()?, desk.seat()?, desk.seat()?);
    let shared = &desk;
    let others = || thread::join(&rt, || tries(shared, &mut b), || tries(shared, &mut c));
    let (first, (second, third)) = thread::join(&rt, || tries(shared, &mut a), others);
    let calls = first
        .ok_or("a call")?
        .wrapping_add(second.ok_or("a call")?)
        .wrapping_add(third.ok_or("a call")?);
    let mut seats = Vec::new(rt.alloc());
    seats.push(a)?;
    seats.push(b)?;
    seats.push(c)?;
    let settled = desk.settle(seats)?;
    let are_all = settled.history.len() == calls && has_its_answers(&rt, &settled)?;
    Ok(are_all && settled.state.permits() == 2 && settled.state.held() == 0)
}

#[test]
fn three_seats(rt: HostRuntime) -> Result<(), Fail> {
    assert!(rt; three_threads::<HostRuntime, Brand>(rt, Blank::new(3))?);
    Ok(())
}
