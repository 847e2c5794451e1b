//! A reader of states, and the stream that it is made into.

use futures::StreamExt;
use futures::executor::block_on;
use futures::task::Poll;
use futures::test::MockTask;
use futures_intrusive::Fault;
use futures_intrusive::blocking::Blocking;
use futures_intrusive::channel::shared::{StateReader, StateReceiver};
use std::alloc::{AllocError, AllocGlobal};
use std::sync::Wait;
use std::sync::atomic::{AtomicBool, Ordering};
use tests_ends_calls::states::state_broadcast_channel;
use tests_ends_calls::{Made, ReadsStates, SendsAtOnce, StreamsStates};

// The last setting, once nobody is left who changes it.
fn follow<R: Blocking + Drop>(rt: &R, settings: StateReceiver<u64, R>) -> Result<u64, Fault> {
    let mut reader = settings.into_reader();
    let mut last = 0;
    for _ in rt.forever() {
        let Some(setting) = reader.next_blocking()? else {
            break;
        };
        last = setting;
    }
    Ok(last)
}

// Two states are sent, of which the second is the newest, and then the sender is dropped.
fn is_changed_twice<S: SendsAtOnce<u64>>(sender: S) -> bool {
    sender.send(5).is_ok() && sender.send(6).is_ok()
}

#[test]
fn a_reader_follows_to_the_end(rt: HostRuntime) {
    let ends = state_broadcast_channel::<u64, HostRuntime>(rt.alloc(), rt);
    let (sender, receiver) = ends.expect(&rt, "memory");
    assert!(rt; is_changed_twice(sender) && follow(&rt, receiver.end) == Ok(6));
}

// Each newest state is read once; the reader's drop is that of the only receiver.
fn each_newest_state_is_read_once<S, E>(sender: S, mut reader: E) -> bool
where
    S: SendsAtOnce<u64>,
    E: ReadsStates<u64>,
{
    let is_empty = reader.try_next() == Ok(None) && reader.seen() == 0;
    let are_sent = sender.send(5).is_ok() && sender.send(6).is_ok();
    let is_read = reader.try_next() == Ok(Some(6)) && reader.seen() == 2;
    let once = is_read && reader.try_next() == Ok(None) && reader.seen() == 2;
    let is_next = sender.send(7).is_ok() && reader.next_blocking() == Ok(Some(7));
    drop(reader);
    is_empty && are_sent && once && is_next && sender.send(8).is_err()
}

#[test]
fn a_reader_gives_each_newest_state_once(rt: HostRuntime) {
    let ends = state_broadcast_channel::<u64, HostRuntime>(rt.alloc(), rt);
    let (sender, receiver) = ends.expect(&rt, "memory");
    assert!(rt; each_newest_state_is_read_once(sender, receiver.into_reader()));
}

// The newest state is lent, read before or not, also once nobody sends any more, and counts as read.
fn newest_is_lent<S, R>(sender: S, mut reader: StateReader<u64, R>) -> bool
where
    S: SendsAtOnce<u64>,
    R: Wait + Drop,
{
    let is_empty = reader.with_value(|state| *state) == None && reader.seen().value() == 0;
    let are_sent = sender.send(5).is_ok() && sender.send(6).is_ok();
    let is_lent = reader.with_value(|state| *state) == Some(6) && reader.seen().value() == 2;
    let is_read = reader.try_next() == Ok(None);
    drop(sender);
    is_empty && are_sent && is_lent && is_read && reader.with_value(|state| *state) == Some(6)
}

#[test]
fn a_reader_lends_the_newest_state(rt: HostRuntime) {
    let ends = state_broadcast_channel::<u64, HostRuntime>(rt.alloc(), rt);
    let (sender, receiver) = ends.expect(&rt, "memory");
    assert!(rt; newest_is_lent(sender, receiver.end.into_reader()));
}

// The last port, once nobody is left who changes it.
fn last_port<R: Blocking + Drop>(rt: &R, ports: StateReceiver<u64, R>) -> Option<u64> {
    let mut ports = ports.into_reader().into_stream();
    let mut last = None;
    for _ in rt.forever() {
        let Some(port) = block_on(rt, ports.next()).ok()? else {
            break;
        };
        last = Some(port.ok()?);
    }
    last
}

#[test]
fn a_stream_of_states_follows_to_the_end(rt: HostRuntime) {
    let ends = state_broadcast_channel::<u64, HostRuntime>(rt.alloc(), rt);
    let (sender, receiver) = ends.expect(&rt, "memory");
    assert!(rt; is_changed_twice(sender) && last_port(&rt, receiver.end) == Some(6));
}

// A poll waits, and a state wakes its task.
fn a_state_wakes<S, E>(task: &MockTask, sender: &S, states: &mut E) -> bool
where
    S: SendsAtOnce<u64>,
    E: StreamsStates<u64>,
{
    let waits = task.poll(&mut states.next()).is_pending() && !task.is_woken();
    waits && sender.send(5).is_ok() && task.is_woken()
}

// Of two states that are sent between polls the newest is given, and once.
fn newest_is_given_once<S, E>(task: &MockTask, sender: &S, states: &mut E) -> bool
where
    S: SendsAtOnce<u64>,
    E: StreamsStates<u64>,
{
    let are_sent = a_state_wakes(task, sender, states) && sender.send(6).is_ok();
    let comes = task.poll(&mut states.next()) == Poll::Ready(Some(Ok(6))) && states.seen() == 2;
    are_sent && comes && task.poll(&mut states.next()).is_pending() && !task.is_woken()
}

// Once nobody sends any more the stream ends, again and again.
fn stays_ended<E: StreamsStates<u64>>(task: &MockTask, states: &mut E) -> bool {
    let ends = !states.is_terminated() && task.poll(&mut states.next()) == Poll::Ready(None);
    ends && states.is_terminated() && task.poll(&mut states.next()) == Poll::Ready(None)
}

// The sender goes while a receive waits.
fn a_waiting_stream_ends<S, E>(task: &MockTask, sender: S, mut states: E) -> bool
where
    S: SendsAtOnce<u64>,
    E: StreamsStates<u64>,
{
    let once = newest_is_given_once(task, &sender, &mut states);
    drop(sender);
    once && task.is_woken() && stays_ended(task, &mut states)
}

#[test]
fn a_stream_gives_each_newest_state_once(rt: HostRuntime) {
    let task = MockTask::new(&rt).expect(&rt, "task");
    let ends = state_broadcast_channel::<u64, HostRuntime>(rt.alloc(), rt);
    let (sender, receiver) = ends.expect(&rt, "memory");
    assert!(rt; a_waiting_stream_ends(&task, sender, receiver.into_reader().into_stream()));
}

// A stream whose reader has read the first state waits for the second; its drop, while it waits, is that of the only receiver.
fn waits_for_the_second<S, E>(task: &MockTask, sender: &S, mut states: E) -> bool
where
    S: SendsAtOnce<u64>,
    E: StreamsStates<u64>,
{
    let waits = task.poll(&mut states.next()).is_pending() && states.seen() == 1;
    drop(states);
    waits && sender.send(6).is_err()
}

#[test]
fn a_stream_goes_on_from_its_reader(rt: HostRuntime) {
    let task = MockTask::new(&rt).expect(&rt, "task");
    let ends = state_broadcast_channel::<u64, HostRuntime>(rt.alloc(), rt);
    let (sender, receiver) = ends.expect(&rt, "memory");
    let mut reader = receiver.into_reader();
    assert!(rt; sender.send(5).is_ok() && reader.try_next() == Ok(Some(5)));
    assert!(rt; waits_for_the_second(&task, &sender, reader.into_stream()));
}

/// A state of whose clones each second one is allowed.
#[derive(Drop)]
struct Reluctant {
    is_ready: AtomicBool,
}

impl Clone for Reluctant {
    fn clone(&self) -> Result<Self, AllocError> {
        if !self.is_ready.fetch_xor(true, Ordering::SeqCst) {
            return Err(AllocError);
        }
        Ok(unready())
    }
}

fn unready() -> Reluctant {
    Reluctant {
        is_ready: AtomicBool::new(false),
    }
}

// A poll is refused the state's clone, and the next one is given it.
fn comes_after_a_refusal<E: StreamsStates<Reluctant>>(task: &MockTask, states: &mut E) -> bool {
    let refused = task.poll(&mut states.next());
    let is_refused = matches!(refused, Poll::Ready(Some(Err(Fault::NoMemory { .. }))));
    is_refused && matches!(task.poll(&mut states.next()), Poll::Ready(Some(Ok(_))))
}

// At once, and by a receive that waited.
fn goes_on_after_refusals<S, E>(task: &MockTask, ends: Made<S, E>) -> Option<bool>
where
    S: SendsAtOnce<Reluctant>,
    E: StreamsStates<Reluctant>,
{
    let (sender, mut states) = ends.ok()?;
    let is_sent = sender.send(unready()).is_ok();
    let comes = is_sent && comes_after_a_refusal(task, &mut states);
    let waits = comes && task.poll(&mut states.next()).is_pending();
    let is_sent = sender.send(unready()).is_ok();
    Some(waits && is_sent && comes_after_a_refusal(task, &mut states) && states.seen() == 2)
}

#[test]
fn a_stream_goes_on_after_refusals(rt: HostRuntime) {
    let task = MockTask::new(&rt).expect(&rt, "task");
    let ends = state_broadcast_channel::<Reluctant, HostRuntime>(rt.alloc(), rt);
    let (sender, receiver) = ends.expect(&rt, "memory");
    let made = Ok((sender, receiver.into_reader().into_stream()));
    assert!(rt; goes_on_after_refusals(&task, made) == Some(true));
}
