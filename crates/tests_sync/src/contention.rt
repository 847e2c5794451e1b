//! Four threads at one primitive: no value, no permit and no wake is lost.
ghost use Rattle.fi_sync.specs.Blanks.{IsLockBlank, IsPermitBlank};

use fi_sync::{Blocking, Channel, Mutex, Semaphore};
use std::alloc::AllocGlobal;
use std::marker::Brand;
use std::sync::atomic::{AtomicU64, Ordering};
use std::sync::ledger::{Blank, Ledger};
use std::thread;
use std::thread::Threads;

const ROUNDS: u64 = 2500;

// Adds one to the value under the lock, in each round.
fn adds<R: Blocking, L: Ledger>(mutex: &Mutex<u64, R, L>) {
    for _ in 0..ROUNDS {
        if let Ok(mut guard) = mutex.lock_blocking() {
            *guard = guard.saturating_add(1);
        }
    }
}

fn add_all<'a, R, L>(rt: &'a R, mutex: &'a Mutex<u64, R, L>)
where
    R: Blocking + Threads + Send + Sync,
    L: Ledger + Send + Sync,
{
    thread::scope(thread::scope_env(), rt, |scope| {
        for _ in 0..4 {
            let _ = scope.spawn(move || adds(mutex));
        }
    });
}

// What four threads add up to under the lock.
fn sum_of_all<R, L>(rt: R, blank: Blank, is_fair: bool) -> Option<u64>
where
    R: Blocking + Threads + Copy + Drop + Send + Sync,
    L: Ledger + Send + Sync,
    requires blank { IsLockBlank L.Ledger blank }
{
    let mutex = Mutex::<u64, R, L>::new(rt.alloc(), rt, blank, 0, is_fair);
    add_all(&rt, &mutex);
    mutex.into_inner()
}

#[test]
fn four_threads_lock_fairly(rt: HostRuntime) {
    let sum = sum_of_all::<HostRuntime, Brand>(rt, Blank::new(1), true);
    assert!(rt; sum == Some(4 * ROUNDS));
}

#[test]
fn four_threads_lock_unfairly(rt: HostRuntime) {
    let sum = sum_of_all::<HostRuntime, Brand>(rt, Blank::new(1), false);
    assert!(rt; sum == Some(4 * ROUNDS));
}

// Takes two permits and gives them back, in each round. Counts the rounds in which it was granted them.
fn takes<R: Blocking, L: Ledger>(semaphore: &Semaphore<R, L>, granted: &AtomicU64) {
    for _ in 0..ROUNDS {
        if semaphore.acquire_blocking(2).is_ok() {
            granted.fetch_add(1, Ordering::SeqCst);
        }
    }
}

fn take_all<'a, R, L>(rt: &'a R, semaphore: &'a Semaphore<R, L>, granted: &'a AtomicU64)
where
    R: Blocking + Threads + Send + Sync,
    L: Ledger + Send + Sync,
{
    thread::scope(thread::scope_env(), rt, |scope| {
        for _ in 0..4 {
            let _ = scope.spawn(move || takes(semaphore, granted));
        }
    });
}

// Whether all are granted, and all permits are free then.
fn are_all_granted<R, L>(rt: R, blank: Blank) -> bool
where
    R: Blocking + Threads + Copy + Send + Sync,
    L: Ledger + Send + Sync,
    requires blank { IsPermitBlank L.Ledger blank }
{
    let semaphore = Semaphore::<R, L>::new(rt.alloc(), rt, blank, true, 3);
    let granted = AtomicU64::new(0);
    take_all(&rt, &semaphore, &granted);
    granted.load(Ordering::SeqCst) == 4 * ROUNDS && semaphore.permits() == 3
}

#[test]
fn four_threads_acquire(rt: HostRuntime) {
    assert!(rt; are_all_granted::<HostRuntime, Brand>(rt, Blank::new(u64::MAX)));
}

// Sends a one in each round.
fn sends_ones<R: Blocking>(channel: &Channel<u64, 3, R>) {
    for _ in 0..ROUNDS {
        let _ = channel.send_blocking(1);
    }
}

// Receives once in each round, and adds up what it received.
fn receives<R: Blocking>(channel: &Channel<u64, 3, R>, sum: &AtomicU64) {
    for _ in 0..ROUNDS {
        if let Ok(Some(value)) = channel.receive_blocking() {
            sum.fetch_add(value, Ordering::SeqCst);
        }
    }
}

fn pass_all<'a, R>(rt: &'a R, channel: &'a Channel<u64, 3, R>, sum: &'a AtomicU64)
where
    R: Blocking + Threads + Send + Sync,
{
    thread::scope(thread::scope_env(), rt, |scope| {
        for _ in 0..2 {
            let _ = scope.spawn(move || sends_ones(channel));
            let _ = scope.spawn(move || receives(channel, sum));
        }
    });
}

#[test]
fn four_threads_send_and_receive(rt: HostRuntime) {
    let channel = Channel::new(rt.alloc(), rt);
    let sum = AtomicU64::new(0);
    pass_all(&rt, &channel, &sum);
    assert_eq!(rt; sum.load(Ordering::SeqCst), 2 * ROUNDS);
}
