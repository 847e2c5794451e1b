//! What threads share may be moved to another thread, and shared by reference; its futures, streams, guards and releasers may be moved. It
//! is enough that a use of each compiles: one body runs there for all futures, and guards and releasers are dropped there in `blocking`.
ghost use Rattle.fi_sync.specs.Blanks.{IsLockBlank, IsPermitBlank};

use fi_channels::{ClonesValue, GivesValue, TakesValue};
use fi_parts::buffer::{ArrayBuf, FixedHeapBuf, GrowingHeapBuf, RingBuf};
use fi_parts::{MockClock, StateId};
use fi_sync::{
    Blocking, GenericChannel, ManualResetEvent, Mutex, OneValueChannel, Semaphore, SharedSemaphore,
    StateBroadcastChannel, TimerService,
};
use futures::executor::block_on;
use std::alloc::AllocGlobal;
use std::marker::Brand;
use std::sync::Wait;
use std::sync::ledger::{Blank, Ledger};
use std::thread;
use std::thread::Threads;

// Both may be moved to another thread, and the first may be shared.
fn cross<P: Send + Sync, F: Send>(_primitive: &P, _future: &F) -> bool {
    true
}

// Whether a wait that is moved to a thread is over once another has set the event.
fn wait_crosses<R: Blocking + Threads + Copy + Send + Sync>(rt: R) -> Option<bool> {
    let event = &ManualResetEvent::new(rt.alloc(), rt, false);
    let wait = event.wait().ok()?;
    let may_cross = cross(event, &wait);
    let waits = move || matches!(block_on(&rt, wait), Ok(Ok(())));
    let (is_over, ()) = thread::join(&rt, waits, move || event.set());
    Some(may_cross && is_over)
}

#[test]
fn crosses_threads(rt: HostRuntime) {
    assert!(rt; wait_crosses(rt) == Some(true));
}

fn receive_of_one_crosses<R, G: GivesValue<u64> + Send + Sync>(rt: R) -> Option<bool>
where
    R: Wait + Copy + AllocGlobal + Send + Sync,
{
    let channel = OneValueChannel::<u64, G, R>::new(rt.alloc(), rt);
    let receive = channel.receive().ok()?;
    Some(cross(&channel, &receive))
}

#[test]
fn oneshot_crosses_threads(rt: HostRuntime) {
    assert!(rt; receive_of_one_crosses::<HostRuntime, TakesValue>(rt) == Some(true));
}

#[test]
fn oneshot_broadcast_crosses_threads(rt: HostRuntime) {
    assert!(rt; receive_of_one_crosses::<HostRuntime, ClonesValue>(rt) == Some(true));
}

fn receive_of_a_state_crosses<R>(rt: R) -> Option<bool>
where
    R: Wait + Copy + AllocGlobal + Send + Sync,
{
    let channel = StateBroadcastChannel::<u64, R>::new(rt.alloc(), rt);
    let receive = channel.receive(StateId::new()).ok()?;
    let is_closed = channel.close().is_newly_closed() && channel.is_closed();
    Some(is_closed && cross(&channel, &receive))
}

#[test]
fn state_crosses_threads(rt: HostRuntime) {
    assert!(rt; receive_of_a_state_crosses(rt) == Some(true));
}

fn receive_crosses<R, B: RingBuf<Item = u64> + Send + Sync>(rt: R) -> Option<bool>
where
    R: Wait + Copy + Drop + AllocGlobal + Send + Sync,
{
    let channel = GenericChannel::<u64, B, R>::with_capacity(rt.alloc(), rt, 1).ok()?;
    let receive = channel.receive().ok()?;
    Some(cross(&channel, &receive))
}

fn send_crosses<R, B: RingBuf<Item = u64> + Send + Sync>(rt: R) -> Option<bool>
where
    R: Wait + Copy + Drop + AllocGlobal + Send + Sync,
{
    let channel = GenericChannel::<u64, B, R>::with_capacity(rt.alloc(), rt, 1).ok()?;
    let send = channel.send(7).ok()?;
    Some(cross(&channel, &send))
}

fn stream_crosses<R, B: RingBuf<Item = u64> + Send + Sync>(rt: R) -> Option<bool>
where
    R: Wait + Copy + Drop + AllocGlobal + Send + Sync,
{
    let channel = GenericChannel::<u64, B, R>::with_capacity(rt.alloc(), rt, 1).ok()?;
    let stream = channel.stream().ok()?;
    Some(cross(&channel, &stream))
}

#[test]
fn channel_crosses_threads(rt: HostRuntime) {
    let receive = receive_crosses::<HostRuntime, FixedHeapBuf<u64>>(rt);
    assert!(rt; receive == Some(true) && send_crosses::<_, GrowingHeapBuf<u64>>(rt) == Some(true));
}

#[test]
fn stream_crosses_threads(rt: HostRuntime) {
    assert!(rt; stream_crosses::<HostRuntime, ArrayBuf<u64, 1>>(rt) == Some(true));
}

fn moment_crosses<R: Wait + Copy + AllocGlobal + Send + Sync>(rt: R) -> Option<bool> {
    let timer = TimerService::new(rt.alloc(), rt, MockClock::new());
    let moment = timer.deadline(7).ok()?;
    Some(cross(&timer, &moment))
}

#[test]
fn timer_crosses_threads(rt: HostRuntime) {
    assert!(rt; moment_crosses(rt) == Some(true));
}

fn lock_crosses<R, L: Ledger + Send + Sync>(rt: R, blank: Blank) -> Option<bool>
where
    R: Wait + Copy + AllocGlobal + Send + Sync,
    requires blank { IsLockBlank L.Ledger blank }
{
    let mutex = Mutex::<u64, R, L>::new(rt.alloc(), rt, blank, 7, true);
    let lock = mutex.lock().ok()?;
    Some(cross(&mutex, &lock))
}

#[test]
fn mutex_crosses_threads(rt: HostRuntime) {
    assert!(rt; lock_crosses::<HostRuntime, Brand>(rt, Blank::new(1)) == Some(true));
}

fn acquire_crosses<R, L: Ledger + Send + Sync>(rt: R, blank: Blank) -> Option<bool>
where
    R: Wait + Copy + AllocGlobal + Send + Sync,
    requires blank { IsPermitBlank L.Ledger blank }
{
    let semaphore = Semaphore::<R, L>::new(rt.alloc(), rt, blank, true, 2);
    let acquire = semaphore.acquire(1).ok()?;
    Some(cross(&semaphore, &acquire))
}

#[test]
fn semaphore_crosses_threads(rt: HostRuntime) {
    let crosses = acquire_crosses::<HostRuntime, Brand>(rt, Blank::new(u64::MAX));
    assert!(rt; crosses == Some(true));
}

fn shared_crosses<R, L: Ledger + Send + Sync>(rt: R, blank: Blank) -> Option<bool>
where
    R: Wait + Copy + Drop + AllocGlobal + Send + Sync,
    requires blank { IsPermitBlank L.Ledger blank }
{
    let semaphore = SharedSemaphore::<R, L>::new(rt.alloc(), rt, blank, true, 2).ok()?;
    let acquire = semaphore.acquire(1).ok()?;
    Some(cross(&semaphore, &acquire))
}

#[test]
fn shared_semaphore_crosses_threads(rt: HostRuntime) {
    let crosses = shared_crosses::<HostRuntime, Brand>(rt, Blank::new(u64::MAX));
    assert!(rt; crosses == Some(true));
}
