//! Ends, futures and streams in several threads.

use fi_channels::{TryReceiveError, TrySendError};
use fi_parts::StateId;
use fi_run::Answer;
use futures::StreamExt;
use futures::executor::block_on;
use futures_intrusive::blocking::Blocking;
use futures_intrusive::channel::GivesValue;
use std::alloc::AllocGlobal;
use std::sync::Wait;
use std::thread;
use std::thread::Threads;
use tests_driver::answers::IntoAnswer;
use tests_driver::pollable::Pollable;
use tests_ends_calls::many::channel;
use tests_ends_calls::one_value::oneshot_channel;
use tests_ends_calls::states::state_broadcast_channel;
use tests_ends_calls::{
    ClonedEnd, CountsEnds, Made, ReceivesOne, ReceivesStates, ReceivingEnd, SendsAtOnce,
    StreamsStates, TriesToReceive, TriesToSend, one_value, states,
};

const ROUNDS: u32 = 10_000;

// Clones both ends and drops the clones, in each round. The ends that it was given are dropped at the end.
fn clones<S: ClonedEnd, E: ClonedEnd>(sender: S, receiver: E) {
    for _ in 0..ROUNDS {
        let _ = (sender.try_clone(), receiver.try_clone());
    }
}

fn clone_all<'a, R, S, E>(rt: &'a R, sender: &'a S, receiver: &'a E)
where
    R: Wait + Threads + Sync,
    S: ClonedEnd + Send + Sync,
    E: ClonedEnd + Send + Sync,
{
    thread::scope(thread::scope_env(), rt, |scope| {
        for _ in 0..4 {
            if let (Ok(sender), Ok(receiver)) = (sender.try_clone(), receiver.try_clone()) {
                let _ = scope.spawn(move || clones(sender, receiver));
            }
        }
    });
}

// Four threads clone and drop ends. Both sides are counted exactly: the channel stays open, has one end of each side afterwards, and the
// last sender closes it.
fn counts_exactly<R, S, E>(rt: &R, ends: Made<S, E>) -> Option<bool>
where
    R: Wait + Threads + Sync,
    S: ClonedEnd + CountsEnds + Send + Sync,
    E: TriesToReceive<u64> + ClonedEnd + Send + Sync,
{
    let (sender, receiver) = ends.ok()?;
    clone_all(rt, &sender, &receiver);
    let is_open = receiver.try_receive() == Err(TryReceiveError::Empty);
    let has_one_each = sender.counts() == (1, 1);
    drop(sender);
    Some(is_open && has_one_each && !receiver.close().is_newly_closed())
}

#[test]
fn four_threads_clone_and_drop_ends(rt: HostRuntime) {
    let ends = channel::<u64, HostRuntime>(rt.alloc(), rt, 1);
    assert!(rt; counts_exactly(&rt, ends) == Some(true));
}

// A stream is a receiver too. It is moved to another thread, and dropped there.
fn stream_crosses<R, S, E>(rt: &R, ends: Made<S, E>) -> Option<bool>
where
    R: Threads,
    S: TriesToSend<u64>,
    E: ReceivingEnd<u64>,
    E::Items: Send,
{
    let (sender, receiver) = ends.ok()?;
    let stream = receiver.stream().ok()?;
    drop(receiver);
    let is_open = sender.try_send(1).is_ok();
    let ((), ()) = thread::join(rt, move || drop(stream), || ());
    Some(is_open && sender.try_send(2) == Err(TrySendError::Closed(2)))
}

#[test]
fn a_stream_crosses_threads(rt: HostRuntime) {
    let ends = channel::<u64, HostRuntime>(rt.alloc(), rt, 1);
    assert!(rt; stream_crosses(&rt, ends) == Some(true));
}

// The last state of a stream, which a thread follows to its end.
fn last_of<R: Blocking, E: StreamsStates<u64>>(rt: &R, mut states: E) -> Option<u64> {
    let mut last = None;
    for _ in rt.forever() {
        let Some(state) = block_on(rt, states.next()).ok()? else {
            break;
        };
        last = Some(state.ok()?);
    }
    last
}

// A sender and a stream of states are moved to other threads.
fn states_cross<R, S, E>(rt: &R, sender: S, states: E) -> bool
where
    R: Blocking + Threads + Sync,
    S: SendsAtOnce<u64> + Send,
    E: StreamsStates<u64> + Send,
{
    let follow = move || last_of(rt, states);
    let (last, is_sent) = thread::join(rt, follow, move || sender.send(7).is_ok());
    last == Some(7) && is_sent
}

#[test]
fn a_stream_of_states_crosses_threads(rt: HostRuntime) {
    let ends = state_broadcast_channel::<u64, HostRuntime>(rt.alloc(), rt);
    let (sender, receiver) = ends.expect(&rt, "memory");
    assert!(rt; states_cross(&rt, sender, receiver.into_reader().into_stream()));
}

// What a thread is answered that waits for this future.
fn answer_of<R: Blocking, F: Pollable>(rt: &R, future: F) -> Option<Answer<u64, u64>>
where
    F::Output: IntoAnswer,
{
    Some(block_on(rt, future).ok()?.into_answer())
}

/// A future that a thread waits for.
trait Awaited: Drop {
    fn answer<R: Blocking>(self, rt: &R) -> Option<Answer<u64, u64>>;
}

impl<G: GivesValue<u64>, R: Wait + Drop> Awaited for one_value::Receiving<u64, G, R> {
    fn answer<Q: Blocking>(self, rt: &Q) -> Option<Answer<u64, u64>> {
        answer_of(rt, self)
    }
}

impl<R: Wait + Drop> Awaited for states::Receiving<u64, R> {
    fn answer<Q: Blocking>(self, rt: &Q) -> Option<Answer<u64, u64>> {
        answer_of(rt, self)
    }
}

// A sender and a receive are moved to other threads. Whether the receive is answered so.
fn crosses<R, S, F>(rt: &R, sender: S, receive: F, wanted: Answer<u64, u64>) -> bool
where
    R: Blocking + Threads + Sync,
    S: SendsAtOnce<u64> + Send,
    F: Awaited + Send,
{
    let receives = move || receive.answer(rt);
    let (received, is_sent) = thread::join(rt, receives, move || sender.send(7).is_ok());
    received == Some(wanted) && is_sent
}

fn one_value_crosses<R, S, E>(rt: &R, ends: Made<S, E>) -> Option<bool>
where
    R: Blocking + Threads + Sync,
    S: SendsAtOnce<u64> + Send,
    E: ReceivesOne<u64>,
    E::Receive: Awaited + Send,
{
    let (sender, receiver) = ends.ok()?;
    let receive = receiver.receive().ok()?;
    Some(crosses(rt, sender, receive, Answer::Item(7)))
}

fn state_crosses<R, S, E>(rt: &R, ends: Made<S, E>) -> Option<bool>
where
    R: Blocking + Threads + Sync,
    S: SendsAtOnce<u64> + Send,
    E: ReceivesStates<u64>,
    E::Receive: Awaited + Send,
{
    let (sender, receiver) = ends.ok()?;
    let receive = receiver.receive(0).ok()?;
    let wanted = Answer::State(StateId::from_value(1), 7);
    Some(crosses(rt, sender, receive, wanted))
}

#[test]
fn other_ends_cross_threads(rt: HostRuntime) {
    let ends = oneshot_channel::<u64, HostRuntime>(rt.alloc(), rt);
    assert!(rt; one_value_crosses(&rt, ends) == Some(true));
    let ends = state_broadcast_channel::<u64, HostRuntime>(rt.alloc(), rt);
    assert!(rt; state_crosses(&rt, ends) == Some(true));
}
