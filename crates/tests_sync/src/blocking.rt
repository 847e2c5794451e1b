//! Calls that block their thread until they are answered.
ghost use Rattle.fi_sync.specs.Blanks.{IsLockBlank, IsPermitBlank};

use crate::waited::{Counting, Limited, Receives, Sends, has_blocked, is_one};
use fi_channels::{GivesValue, TakesValue, TrySendError};
use fi_parts::buffer::{GrowingHeapBuf, RingBuf};
use fi_parts::{Clock, Fault};
use fi_sync::{
    AutoResetEvent, Blocking, Channel, GenericChannel, ManualResetEvent, Mutex, OneValueChannel,
    Semaphore, SharedSemaphore, StateBroadcastChannel, TimerService, UnbufferedChannel,
};
use std::alloc::{Alloc, AllocGlobal};
use std::marker::Brand;
use std::random::RandomSource;
use std::sync::Wait;
use std::sync::atomic::{AtomicU64, Ordering};
use std::sync::ledger::{Blank, Ledger};
use std::thread::Threads;
use std::time::Duration;
use std::{io, thread, time};

// Sends a one, and closes the channel.
fn send_and_close<R: Blocking>(channel: &UnbufferedChannel<u64, R>) {
    let _ = channel.send_blocking(1);
    channel.close();
}

// Whether a one is received, and then the end.
fn receives_all<'a, R>(rt: &'a R, channel: &'a UnbufferedChannel<u64, R>) -> bool
where
    R: Blocking + Threads + Send + Sync,
{
    thread::scope(thread::scope_env(), rt, |scope| {
        let _ = scope.spawn(move || send_and_close(channel));
        channel.receive_blocking() == Ok(Some(1)) && channel.receive_blocking() == Ok(None)
    })
}

// Whether they meet, and a value that comes too late is handed back.
fn meet<R: Blocking + Threads + Copy + Send + Sync>(rt: R) -> bool {
    let channel = UnbufferedChannel::new(rt.alloc(), rt);
    let have_met = receives_all(&rt, &channel);
    have_met && channel.send_blocking(2) == Err(TrySendError::Closed(2))
}

#[test]
fn sends_and_receives_block_until_they_meet(rt: HostRuntime) {
    assert!(rt; meet(rt));
}

// A channel over this buffer, by a runtime that counts.
fn channel<'a, R, B: RingBuf<Item = u64>>(
    rt: &R,
    executors: &'a AtomicU64,
    capacity: usize,
) -> Option<GenericChannel<u64, B, Counting<'a, R>>>
where
    R: Blocking + Copy + Drop,
{
    let counting = Counting::new(rt, executors);
    GenericChannel::with_capacity(rt.alloc(), counting, capacity).ok()
}

// Whether a receive blocks. On a channel without room the send that comes then blocks too.
fn receive_blocks<R, B: RingBuf<Item = u64> + Send + Sync>(rt: &R, capacity: usize) -> Option<bool>
where
    R: Blocking + time::Clock + Threads + Copy + Drop + Send + Sync,
{
    let executors = &AtomicU64::new(0);
    let channel = channel::<R, B>(rt, executors, capacity)?;
    let count = if capacity == 0 { 2 } else { 1 };
    Some(has_blocked(rt, Receives(&channel)) && executors.load(Ordering::SeqCst) == count)
}

// Whether a send blocks.
fn send_blocks<R, B: RingBuf<Item = u64> + Send + Sync>(rt: &R, capacity: usize) -> Option<bool>
where
    R: Blocking + time::Clock + Threads + Copy + Drop + Send + Sync,
{
    let executors = &AtomicU64::new(0);
    let channel = channel::<R, B>(rt, executors, capacity)?;
    Some(has_blocked(rt, Sends(&channel)) && is_one(executors))
}

#[test]
fn receives_block(rt: HostRuntime) {
    assert!(rt; receive_blocks::<_, GrowingHeapBuf<u64>>(&rt, 0) == Some(true));
    assert!(rt; receive_blocks::<_, GrowingHeapBuf<u64>>(&rt, 1) == Some(true));
}

#[test]
fn sends_block(rt: HostRuntime) {
    assert!(rt; send_blocks::<_, GrowingHeapBuf<u64>>(&rt, 0) == Some(true));
    assert!(rt; send_blocks::<_, GrowingHeapBuf<u64>>(&rt, 1) == Some(true));
}

// Whether a receive of a channel of one value blocks.
fn receive_one_blocks<R, G: GivesValue<u64> + Send + Sync>(rt: &R) -> bool
where
    R: Blocking + time::Clock + Threads + Copy + Send + Sync,
{
    let executors = &AtomicU64::new(0);
    let channel = OneValueChannel::<u64, G, _>::new(rt.alloc(), Counting::new(rt, executors));
    has_blocked(rt, &channel) && is_one(executors)
}

#[test]
fn receives_of_one_value_block(rt: HostRuntime) {
    assert!(rt; receive_one_blocks::<_, TakesValue>(&rt));
}

#[test]
fn a_receive_of_a_state_blocks(rt: HostRuntime) {
    let executors = &AtomicU64::new(0);
    let states = StateBroadcastChannel::<u64, _>::new(rt.alloc(), Counting::new(&rt, executors));
    assert!(rt; has_blocked(&rt, &states) && is_one(executors));
}

#[test]
fn a_wait_blocks_until_the_event_is_set(rt: HostRuntime) {
    let executors = &AtomicU64::new(0);
    let event = ManualResetEvent::new(rt.alloc(), Counting::new(&rt, executors), false);
    assert!(rt; has_blocked(&rt, &event) && is_one(executors));
}

#[test]
fn a_wait_blocks_until_it_passes(rt: HostRuntime) {
    let executors = &AtomicU64::new(0);
    let event = AutoResetEvent::new(rt.alloc(), Counting::new(&rt, executors), false, true);
    assert!(rt; has_blocked(&rt, &event) && is_one(executors) && !event.is_set());
}

#[test]
fn a_wait_for_a_set_event_passes_at_once(rt: HostRuntime) {
    let executors = &AtomicU64::new(0);
    let event = AutoResetEvent::new(rt.alloc(), Counting::new(&rt, executors), true, true);
    let passes = event.wait_blocking() == Ok(()) && !event.is_set();
    assert!(rt; passes && executors.load(Ordering::SeqCst) == 0);
}

// A clock that shows what stands in a cell.
#[derive(Drop)]
pub(crate) struct Shown<'a> {
    pub(crate) time: &'a AtomicU64,
}

impl Clock for Shown<'_> {
    fn now(&self) -> u64 {
        self.time.load(Ordering::SeqCst)
    }
}

// Whether a wait for an event, with a limit that is far off, blocks.
fn limit_blocks<'a, R>(rt: &R, time: &'a AtomicU64, executors: &'a AtomicU64) -> bool
where
    R: Blocking + time::Clock + Threads + Copy + Send + Sync,
{
    let timer = Counting::new(rt, executors);
    let timer = &TimerService::new(rt.alloc(), timer, Shown { time });
    let event = Counting::new(rt, executors);
    let event = &ManualResetEvent::new(rt.alloc(), event, false);
    has_blocked(rt, Limited { timer, event }) && is_one(executors)
}

#[test]
fn waits_by_a_timer_block(rt: HostRuntime) {
    assert!(rt; limit_blocks(&rt, &AtomicU64::new(0), &AtomicU64::new(0)));
}

fn lock_blocks<R, L: Ledger + Send + Sync>(rt: &R, blank: Blank) -> bool
where
    R: Blocking + time::Clock + Threads + Copy + Send + Sync,
    requires blank { IsLockBlank L.Ledger blank }
{
    let executors = &AtomicU64::new(0);
    let counting = Counting::new(rt, executors);
    let mutex = Mutex::<u64, _, L>::new(rt.alloc(), counting, blank, 7, true);
    has_blocked(rt, &mutex) && is_one(executors)
}

#[test]
fn locks_block(rt: HostRuntime) {
    assert!(rt; lock_blocks::<HostRuntime, Brand>(&rt, Blank::new(1)));
}

fn acquire_blocks<R, L: Ledger + Send + Sync>(rt: &R, blank: Blank) -> bool
where
    R: Blocking + time::Clock + Threads + Copy + Send + Sync,
    requires blank { IsPermitBlank L.Ledger blank }
{
    let executors = &AtomicU64::new(0);
    let counting = Counting::new(rt, executors);
    let semaphore = Semaphore::<_, L>::new(rt.alloc(), counting, blank, true, 2);
    has_blocked(rt, &semaphore) && is_one(executors)
}

fn shared_blocks<R, L: Ledger + Send + Sync>(rt: &R, blank: Blank) -> Option<bool>
where
    R: Blocking + time::Clock + Threads + Copy + Drop + Send + Sync,
    requires blank { IsPermitBlank L.Ledger blank }
{
    let executors = &AtomicU64::new(0);
    let counting = Counting::new(rt, executors);
    let made = SharedSemaphore::<_, L>::new(rt.alloc(), counting, blank, true, 2);
    let semaphore = made.ok()?;
    Some(has_blocked(rt, &semaphore) && is_one(executors))
}

#[test]
fn acquires_block(rt: HostRuntime) {
    assert!(rt; acquire_blocks::<HostRuntime, Brand>(&rt, Blank::new(u64::MAX)));
}

#[test]
fn acquires_of_owners_block(rt: HostRuntime) {
    let blocks = shared_blocks::<HostRuntime, Brand>(&rt, Blank::new(u64::MAX));
    assert!(rt; blocks == Some(true));
}

// A runtime without random bytes, so that no executor can be made.
#[derive(Drop)]
struct NoExecutor<R> {
    rt: R,
}

impl<R: Wait> Wait for NoExecutor<R> {}

impl<R> RandomSource for NoExecutor<R> {
    fn fill_bytes(&self, _bytes: &mut [u8]) -> io::Result<()> {
        Err(io::Error::from(io::ErrorKind::Other))
    }
}

impl<R: Alloc> Alloc for NoExecutor<R> {
    type A = R::A;

    fn alloc(&self) -> R::A {
        self.rt.alloc()
    }
}

// A call that has to block and can't is refused, and a value to be sent comes back; one that need not block needs no executor.
fn loses_nothing<R: Blocking>(channel: &Channel<u64, 2, R>) -> bool {
    let is_refused = matches!(channel.receive_blocking(), Err(Fault::NoMemory { .. }));
    let are_sent = channel.send_blocking(5).is_ok() && channel.send_blocking(6).is_ok();
    let is_back = match channel.send_blocking(7) {
        Err(TrySendError::NoMemory(failed)) => failed.0 == 7,
        _ => false,
    };
    let is_left = channel.receive_blocking() == Ok(Some(5)) && channel.len() == 1;
    is_refused && are_sent && is_back && is_left
}

#[test]
fn calls_without_an_executor_lose_nothing(rt: HostRuntime) {
    let channel = Channel::new(rt.alloc(), NoExecutor { rt });
    assert!(rt; loses_nothing(&channel));
}

// Lets five milliseconds pass as soon as somebody waits, and keeps the moment that is waited for.
fn skip_ahead<R: Wait>(timer: &TimerService<Shown<'_>, R>, time: &AtomicU64, moment: &AtomicU64) {
    for _ in 0..10_000_000u32 {
        if let Some(next) = timer.next_expiration() {
            moment.store(next, Ordering::SeqCst);
            time.fetch_add(5, Ordering::SeqCst);
            timer.check_expirations();
            return;
        }
        thread::yield_now();
    }
}

// The moment at which a wait for at most five milliseconds is over, while what is waited for doesn't come. None unless the wait goes on
// then, and ends once that has come.
fn limit_of<'a, 'b, R>(
    rt: &'a R,
    timer: &'a TimerService<Shown<'b>, R>,
    event: &'a ManualResetEvent<R>,
    time: &'a AtomicU64,
) -> Option<u64>
where
    R: Blocking + Threads + Send + Sync,
{
    let mut wait = event.wait().ok()?;
    let limit = Duration::from_millis(5);
    let moment = &AtomicU64::new(0);
    let late = thread::scope(thread::scope_env(), rt, |scope| {
        let _ = scope.spawn(move || skip_ahead(timer, time, moment));
        timer.wait_at_most(limit, &mut wait)
    });
    event.set();
    let came = timer.wait_at_most(limit, &mut wait);
    let are_right = late == Ok(None) && came == Ok(Some(Ok(())));
    are_right.then_some(moment.load(Ordering::SeqCst))
}

#[test]
fn a_wait_is_over_at_its_limit(rt: HostRuntime) {
    let time = &AtomicU64::new(100);
    let timer = TimerService::new(rt.alloc(), rt, Shown { time });
    let event = ManualResetEvent::new(rt.alloc(), rt, false);
    assert_eq!(rt; limit_of(&rt, &timer, &event, time), Some(105));
}
