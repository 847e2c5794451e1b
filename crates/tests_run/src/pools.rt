//! A pool whose workers are threads at one desk.
ghost use Rattle.std.specs.Prelude.{◌≡◌};

use fi_desk::{Desk, PoolCall, PoolState, Seat, Settled};
use fi_parts::Fault;
use fi_run::Answer;
use std::alloc::AllocGlobal;
use std::marker::Brand;
use std::sync::Wait;
use std::sync::ledger::{Blank, Ledger};
use std::test::Fail;
use std::thread;
use std::thread::Threads;

/// Hands in the jobs 1 to 100, and shuts the pool down.
fn submits<R: Wait, L: Ledger>(
    desk: &Desk<PoolState<u64>, R, L>,
    seat: &mut Seat<PoolState<u64>, L>,
) -> Result<bool, Fail> {
    for job in 1..101u64 {
        if desk.call(seat, PoolCall::Submit(job))?.answer() != Answer::Done {
            return Ok(false);
        }
    }
    Ok(desk.call(seat, PoolCall::Shutdown)?.answer() == Answer::Newly)
}

/// Starts jobs and finishes each, until none is left. Answers whether the pool said so.
fn works<R: Wait, L: Ledger>(
    desk: &Desk<PoolState<u64>, R, L>,
    seat: &mut Seat<PoolState<u64>, L>,
) -> bool {
    for _ in 0..101u32 {
        let Ok(receipt) = desk.call(seat, PoolCall::Start) else {
            return false;
        };
        match receipt.answer() {
            Answer::Item(_) => {
                if desk.call(seat, PoolCall::Finish).is_err() {
                    return false;
                }
            }
            answer => return answer == Answer::Refused(Fault::Closed),
        }
    }
    false
}

/// Waits for the pool. Answers whether it is drained.
fn is_drained<R: Wait, L: Ledger>(
    desk: &Desk<PoolState<u64>, R, L>,
    seat: &mut Seat<PoolState<u64>, L>,
) -> Result<bool, Fail> {
    let Answer::Made(wait) = desk.call(seat, PoolCall::Wait)?.answer() else {
        return Ok(false);
    };
    Ok(desk.call(seat, PoolCall::Poll(wait, 1))?.answer() == Answer::Ready)
}

/// Whether the jobs that were started are 1 to 100, in order.
fn started_in_order(settled: &Settled<PoolState<u64>>) -> bool {
    let mut last = 0u64;
    for entry in &settled.history {
        if let Answer::Item(job) = entry.answer {
            if job != last.wrapping_add(1) {
                return false;
            }
            last = job;
        }
    }
    last == 100
}

/// Whether two workers do all jobs in order, and the pool is drained then.
fn workers<R: Wait + Threads + Copy + AllocGlobal + Send + Sync, L: Ledger + Send + Sync>(
    rt: R,
    blank: Blank,
) -> Result<bool, Fail>
    requires name { blank.name ≡ L.name }
    requires parts { blank.parts ≡ L.parts }
    requires count { blank.parts ≡ 3 }
{
    let desk: Desk<PoolState<u64>, R, L> = Desk::new(rt.alloc(), rt, blank, (2, 100), 3)?;
    let (mut a, mut b, mut c) = (desk.seat()?, desk.seat()?, desk.seat()?);
    let are_submitted = submits(&desk, &mut a)?;
    let shared = &desk;
    let (first, second) = thread::join(&rt, || works(shared, &mut b), || works(shared, &mut c));
    let are_done = are_submitted && first && second && is_drained(&desk, &mut a)?;
    let mut seats = Vec::new(rt.alloc());
    seats.push(a)?;
    seats.push(b)?;
    seats.push(c)?;
    let settled = desk.settle(seats)?;
    Ok(are_done && settled.history.len() == 305 && started_in_order(&settled))
}

#[test]
fn pool_on_a_desk(rt: HostRuntime) -> Result<(), Fail> {
    assert!(rt; workers::<HostRuntime, Brand>(rt, Blank::new(3))?);
    Ok(())
}
