//! Three threads use a semaphore at a desk, which records each call. The record is then played again, on one thread.
ghost use Rattle.std.specs.Prelude.{◌≡◌};

use crate::runtime::Runtime;
use futures_intrusive::Fault;
use futures_intrusive::run::{Answer, Desk, Primitive, Seat, SemaphoreCall, Settled, run};
use futures_intrusive::sync::SemaphoreState;
use std::alloc::Global;
use std::sync::ledger::{Blank, Ledger};
use std::{io, thread};

/// A semaphore whose wakers are numbers.
type Permits = SemaphoreState<u64>;

/// Makes six calls: thrice takes a permit and gives it back, or asks for their number where there is none to take.
fn work<R: Runtime, L: Ledger>(
    desk: &Desk<Permits, R, L>,
    mut seat: Seat<Permits, L>,
) -> Result<Seat<Permits, L>, Fault> {
    for _ in 0..3 {
        let next = match desk.call(&mut seat, SemaphoreCall::TryAcquire(1))?.answer() {
            Answer::Done => SemaphoreCall::GiveBack(1),
            _ => SemaphoreCall::Permits,
        };
        desk.call(&mut seat, next)?;
    }
    Ok(seat)
}

/// Plays a record again: how many calls were answered as they had been.
fn play(alloc: Global, record: &Settled<Permits>) -> io::Result<u64> {
    let mut calls = Vec::new(alloc);
    for entry in record.history.iter() {
        calls.push(entry.call)?;
    }
    let mut permits = Permits::open(alloc, record.opening)?;
    let mut answers = Vec::new(alloc);
    run(&mut permits, calls, &mut answers)?;
    let mut same = 0u64;
    for (entry, answer) in record.history.iter().zip(answers.iter()) {
        if entry.answer == *answer {
            same = same.wrapping_add(1);
        }
    }
    Ok(same)
}

/// Records three threads, and plays the record again.
pub fn record<R: Runtime, L: Ledger + Send + Sync>(rt: R, blank: Blank) -> io::Result<()>
    requires name { blank.name ≡ L.name }
    requires parts { blank.parts ≡ L.parts }
    requires count { blank.parts ≡ 3 }
{
    let desk = Desk::<Permits, R, L>::new(rt.alloc(), rt, blank, (2, true), 3)?;
    let (first, second, third) = (desk.seat()?, desk.seat()?, desk.seat()?);
    let others = || thread::join(&rt, || work(&desk, second), || work(&desk, third));
    let (first, (second, third)) = thread::join(&rt, || work(&desk, first), others);
    let seats = vec![in rt.alloc(); first?, second?, third?]?;
    let Ok(settled) = desk.settle(seats) else {
        return println!(rt; "replay: a call is not in the record");
    };
    let same = play(rt.alloc(), &settled)?;
    println!(rt; "replay: {same} calls were answered as they had been")
}
