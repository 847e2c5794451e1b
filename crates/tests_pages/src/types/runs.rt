//! Of calls as values, and of what records them.

ghost use Rattle.std.specs.Prelude.{◌≡◌};

use futures_intrusive::channel::{LocalChannel, OneshotState, StateBroadcastState, StateId};
use futures_intrusive::run::{
    Answer, ChannelCall, Desk, Entry, EventCall, ExactEq, Journal, Mismatch, MutexCall,
    OneshotCall, PoolCall, PoolState, Primitive, Receipt, ScriptError, ScriptFutures,
    SemaphoreCall, StateCall, TimerCall,
};
use futures_intrusive::sync::{EventState, MutexState, SemaphoreState};
use futures_intrusive::timer::TimerState;
use futures_intrusive::{Fault, Slot, Stage};
use std::alloc::AllocGlobal;
use std::marker::Brand;
use std::sync::Wait;
use std::sync::ledger::{Blank, Ledger};
use std::test::Fail;
use std::time::Duration;

#[test]
fn answer(rt: HostRuntime) -> Result<(), Fail> {
    let mut event: EventState<u64> = EventState::open(rt.alloc(), false)?;
    let Answer::Made(wait) = event.apply(EventCall::Wait) else {
        return Err("no memory".into());
    };
    assert!(rt; event.apply(EventCall::Poll(wait, 1)) == Answer::Pending); // by the task with the waker 1
    assert!(rt; event.apply(EventCall::Set) == Answer::Done);
    assert!(rt; event.apply(EventCall::NextWake) == Answer::Woken(Some(1)));
    Ok(())
}

#[test]
fn channel_call(rt: HostRuntime) -> Result<(), Fail> {
    let mut channel: LocalChannel<u64, 1, u64> = LocalChannel::open(rt.alloc(), 1)?; // room for one
    assert!(rt; channel.apply(ChannelCall::TrySend(5)) == Answer::Done);
    assert!(rt; channel.apply(ChannelCall::TrySend(6)) == Answer::Back(6, Fault::Full));
    assert!(rt; channel.apply(ChannelCall::TryReceive) == Answer::Item(5));
    Ok(())
}

#[test]
fn mutex_call(rt: HostRuntime) -> Result<(), Fail> {
    let mut mutex: MutexState<u64, u64> = MutexState::open(rt.alloc(), (7, true))?; // the value, and whether it is fair
    assert!(rt; mutex.apply(MutexCall::TryLock) == Answer::Item(7));
    assert!(rt; mutex.apply(MutexCall::TryLock) == Answer::Nothing);
    assert!(rt; mutex.apply(MutexCall::Unlock(8)) == Answer::Done);
    Ok(())
}

#[test]
fn oneshot_call(rt: HostRuntime) -> Result<(), Fail> {
    let mut channel: OneshotState<u64, u64> = OneshotState::open(rt.alloc(), ())?;
    assert!(rt; channel.apply(OneshotCall::Send(5)) == Answer::Done);
    assert!(rt; channel.apply(OneshotCall::Send(6)) == Answer::Back(6, Fault::Closed));
    Ok(())
}

#[test]
fn pool_call(rt: HostRuntime) -> Result<(), Fail> {
    let mut pool: PoolState<u64> = PoolState::open(rt.alloc(), (1, 1))?; // one job at a time, one in the queue
    assert!(rt; pool.apply(PoolCall::Submit(5)) == Answer::Done);
    assert!(rt; pool.apply(PoolCall::Submit(6)) == Answer::Back(6, Fault::Full));
    assert!(rt; pool.apply(PoolCall::Start) == Answer::Item(5));
    Ok(())
}

#[test]
fn semaphore_call(rt: HostRuntime) -> Result<(), Fail> {
    let mut permits: SemaphoreState<u64> = SemaphoreState::open(rt.alloc(), (1, true))?; // one permit, fair
    assert!(rt; permits.apply(SemaphoreCall::TryAcquire(1)) == Answer::Done);
    assert!(rt; permits.apply(SemaphoreCall::TryAcquire(1)) == Answer::Nothing);
    assert!(rt; permits.apply(SemaphoreCall::GiveBack(1)) == Answer::Done);
    Ok(())
}

#[test]
fn state_call(rt: HostRuntime) -> Result<(), Fail> {
    let mut channel: StateBroadcastState<u64, u64> = StateBroadcastState::open(rt.alloc(), ())?;
    let newest = Answer::State(StateId::from_value(1), 5);
    assert!(rt; channel.apply(StateCall::Send(5)) == Answer::Done);
    assert!(rt; channel.apply(StateCall::TryReceive(StateId::new())) == newest);
    Ok(())
}

#[test]
fn timer_call(rt: HostRuntime) -> Result<(), Fail> {
    let mut timer: TimerState<u64> = TimerState::open(rt.alloc(), ())?;
    let delay = TimerCall::Delay(5, Duration::from_micros(1_999)); // from the moment 5 on, in whole milliseconds
    assert!(rt; timer.apply(delay) == Answer::Made(Slot(0)));
    assert!(rt; timer.apply(TimerCall::Poll(Slot(0), 5, 1)) == Answer::Pending);
    assert!(rt; timer.apply(TimerCall::Next) == Answer::Moment(Some(6)));
    Ok(())
}

#[test]
fn entry(rt: HostRuntime) -> Result<(), Fail> {
    let mut journal = Journal::<EventState<u64>>::new(rt.alloc(), false)?;
    let receipt = journal.record(3, EventCall::Set)?; // by whoever has the seat 3
    assert!(rt; receipt.number() == 0 && receipt.answer() == Answer::Done);
    let settled = journal.settle();
    let Some(entry) = settled.history.first() else {
        return Err("no entry".into());
    };
    assert!(rt; entry.seat == 3 && entry.call == EventCall::Set && entry.answer == Answer::Done);
    assert!(rt; is_of(entry, &receipt));
    Ok(())
}

// Whether the receipt is of the call that this entry records.
fn is_of<P: Primitive>(entry: &Entry<P::Call, P::Answer>, receipt: &Receipt<P>) -> bool
where
    P::Opening: ExactEq,
    P::Call: ExactEq,
    P::Answer: ExactEq,
{
    entry.call == receipt.call() && entry.answer == receipt.answer()
}

// Two seats share an event. Answers how many calls they made. `R` is the runtime, which waits for the lock; `L` is the ledger that
// counts the seats, and `blank` begins it.
fn share<R: Wait + Copy + AllocGlobal, L: Ledger>(rt: R, blank: Blank) -> Result<usize, Fail>
    requires name { blank.name ≡ L.name }
    requires parts { blank.parts ≡ L.parts }
    requires count { blank.parts ≡ 2 }
{
    let desk: Desk<EventState<u64>, R, L> = Desk::new(rt.alloc(), rt, blank, false, 2)?;
    let (mut first, mut second) = (desk.seat()?, desk.seat()?);
    desk.call(&mut first, EventCall::Set)?;
    desk.call(&mut second, EventCall::IsSet)?;
    let settled = desk.settle(vec![in rt.alloc(); first, second]?)?;
    Ok(settled.history.len())
}

// Settles a desk of one seat without it. `blank` begins the ledger `L`, which counts the seats.
fn loses<R: Wait + Copy + AllocGlobal, L: Ledger>(
    rt: R,
    blank: Blank,
) -> Result<Option<Mismatch>, Fail>
    requires name { blank.name ≡ L.name }
    requires parts { blank.parts ≡ L.parts }
    requires count { blank.parts ≡ 1 }
{
    let desk: Desk<EventState<u64>, R, L> = Desk::new(rt.alloc(), rt, blank, false, 1)?;
    let mut seat = desk.seat()?;
    desk.call(&mut seat, EventCall::Set)?;
    drop(seat);
    Ok(desk.settle(Vec::new(rt.alloc())).err()) // Some(Mismatch::Seats)
}

#[test]
fn desk(rt: HostRuntime) -> Result<(), Fail> {
    assert!(rt; share::<HostRuntime, Brand>(rt, Blank::new(2))? == 2);
    assert!(rt; loses::<HostRuntime, Brand>(rt, Blank::new(1))? == Some(Mismatch::Seats));
    Ok(())
}

#[test]
fn script_lines(rt: HostRuntime) -> Result<(), Fail> {
    let mut journal = Journal::<EventState<u64>>::new(rt.alloc(), false)?;
    journal.record(0, EventCall::Set)?;
    let mut script = String::new(rt.alloc());
    journal.settle().write_script(&mut script)?;
    assert!(rt; script.as_str() == "event reset\nhold set\n");
    Ok(())
}

#[test]
fn script_futures(rt: HostRuntime) -> Result<(), Fail> {
    let mut event: EventState<u64> = EventState::open(rt.alloc(), false)?;
    let Answer::Made(wait) = event.apply(EventCall::Wait) else {
        return Err("no memory".into());
    };
    assert!(rt; event.stage(wait) == Some(Stage::Fresh));
    let future = EventState::<u64>::future_of(&EventCall::Cancel(wait), &Answer::Done);
    assert!(rt; future == Some(('w', wait)) && event.stage_of('w', wait) == Some(Stage::Fresh));
    Ok(())
}

#[test]
fn script_error(rt: HostRuntime) -> Result<(), Fail> {
    let journal = Journal::<PoolState<u64>>::new(rt.alloc(), (1, 65_537))?; // a script's queue has 65,536 places at most
    let mut script = String::new(rt.alloc());
    let refused = journal.settle().write_script(&mut script).err();
    assert!(rt; refused == Some(ScriptError::Opening) && script.is_empty());
    Ok(())
}
