//! Threads that wait for each other many times: no value and no wake is lost. Channels, mutexes and semaphores that threads borrow stand in
//! `tests_sync`.

use futures::StreamExt;
use futures::task::Poll;
use futures::test::MockTask;
use futures_intrusive::blocking::{Blocking, wait_for};
use futures_intrusive::channel::shared::{Receiver, Sender, channel};
use std::alloc::AllocGlobal;
use std::process::Abort;
use std::sync::atomic::{AtomicU64, Ordering};
use std::thread;
use std::thread::Threads;

const ROUNDS: u64 = 1000;

// Adds up what a stream gives, until no sender is left.
fn adds_up<R: Blocking + Drop>(rt: &R, receiver: Receiver<u64, R>, sum: &AtomicU64) {
    let Ok(mut stream) = receiver.into_stream() else {
        return;
    };
    for _ in 0..4 * ROUNDS + 1 {
        match wait_for(rt, stream.next()) {
            Ok(Some(Ok(value))) => sum.fetch_add(value, Ordering::SeqCst),
            _ => return,
        };
    }
}

// Sends a one in each round. Before it, a receive is polled and dropped; what it was told of it passes on, and what it was given is sent
// again.
fn sends_ones<R: Blocking + Drop>(rt: &R, sender: Sender<u64, R>, receiver: Receiver<u64, R>) {
    let Ok(task) = MockTask::new(rt) else {
        return;
    };
    for _ in 0..ROUNDS {
        let Ok(mut receive) = receiver.receive() else {
            return;
        };
        if let Poll::Ready(Ok(Some(value))) = task.poll(&mut receive) {
            let _ = sender.send_blocking(value);
        }
        drop(receive);
        let _ = sender.send_blocking(1);
    }
}

fn stream_all<'a, R>(
    rt: &'a R,
    sender: Sender<u64, R>,
    receiver: Receiver<u64, R>,
    sum: &'a AtomicU64,
)
where
    R: Blocking + Threads + Drop + Send + Sync,
{
    thread::scope(thread::scope_env(), rt, |scope| {
        for _ in 0..2 {
            if let (Ok(own), Ok(streamed), Ok(other)) = (
                sender.clone(),
                receiver.clone(),
                receiver.clone(),
            ) {
                let _ = scope.spawn(move || sends_ones(rt, own, other));
                let _ = scope.spawn(move || adds_up(rt, streamed, sum));
            }
        }
        drop(sender);
        drop(receiver);
    });
}

fn streams<R>(rt: R)
where
    R: Blocking + Threads + Abort + Drop + Copy + Send + Sync,
{
    let (sender, receiver) = channel::<u64, R>(rt.alloc(), rt, 3).expect(&rt, "memory");
    let sum = AtomicU64::new(0);
    stream_all(&rt, sender, receiver, &sum);
    assert_eq!(rt; sum.load(Ordering::SeqCst), 2 * ROUNDS);
}

#[test]
fn two_streams_share_what_two_threads_send(rt: HostRuntime) {
    streams(rt)
}
