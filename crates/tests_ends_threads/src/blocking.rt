//! Calls of ends that block their thread until another thread brings what they wait for.

use fi_parts::buffer::GrowingHeapBuf;
use fi_parts::{Fault, StateId};
use fi_run::Answer;
use futures_intrusive::blocking::Blocking;
use futures_intrusive::channel::GivesValue;
use std::alloc::AllocGlobal;
use std::sync::Wait;
use std::thread::{self, Threads};
use std::time::{self, CpuClock, Duration};
use tests_driver::answers::IntoAnswer;
use tests_ends_calls::many::channel;
use tests_ends_calls::one_value::oneshot_channel;
use tests_ends_calls::states::state_broadcast_channel;
use tests_ends_calls::{Made, SendsAtOnce, TriesToReceive, TriesToSend, many, one_value, states};

const DELAY_MILLIS: u64 = 20;

type Sender<R> = many::Sender<u64, GrowingHeapBuf<u64>, R>;

type Receiver<R> = many::Receiver<u64, GrowingHeapBuf<u64>, R>;

/// The call of an end that blocks.
trait Blocks: Drop {
    fn block(&self) -> Answer<u64, u64>;
}

impl<R: Blocking + Drop> Blocks for Sender<R> {
    fn block(&self) -> Answer<u64, u64> {
        self.end.send_blocking(6).into_answer()
    }
}

impl<R: Blocking + Drop> Blocks for Receiver<R> {
    fn block(&self) -> Answer<u64, u64> {
        self.end.receive_blocking().into_answer()
    }
}

// Of the oneshot broadcast too.
impl<G: GivesValue<u64>, R: Blocking + Drop> Blocks for one_value::Receiver<u64, G, R> {
    fn block(&self) -> Answer<u64, u64> {
        self.end.receive_blocking().into_answer()
    }
}

impl<R: Blocking + Drop> Blocks for states::Receiver<u64, R> {
    fn block(&self) -> Answer<u64, u64> {
        self.end
            .receive_blocking(StateId::from_value(1))
            .into_answer()
    }
}

/// The call at once of the other end.
trait Acts: Drop {
    fn act(&self) -> Answer<u64, u64>;
}

impl<R: Wait + Drop> Acts for Sender<R> {
    fn act(&self) -> Answer<u64, u64> {
        self.try_send(7).into_answer()
    }
}

impl<R: Wait + Drop> Acts for Receiver<R> {
    fn act(&self) -> Answer<u64, u64> {
        self.try_receive().into_answer()
    }
}

impl<G: GivesValue<u64>, R: Wait + Drop> Acts for one_value::Sender<u64, G, R> {
    fn act(&self) -> Answer<u64, u64> {
        self.send(7).into_answer()
    }
}

impl<R: Wait + Drop> Acts for states::Sender<u64, R> {
    fn act(&self) -> Answer<u64, u64> {
        self.send(7).into_answer()
    }
}

// Some time later the end acts, and is answered so; or it is dropped, if no answer is wanted.
fn acts_later<R, E>(rt: &R, end: E, wanted: Option<Answer<u64, u64>>) -> Option<E>
where
    R: time::Clock,
    E: Acts,
{
    thread::sleep(rt, Duration::from_millis(DELAY_MILLIS));
    let wanted = wanted?;
    (end.act() == wanted).then_some(end)
}

// The answer of a call that blocks, if its thread takes a processor for less than half of the time for which it waits.
fn idle_answer<R: CpuClock, B: Blocks>(rt: &R, end: &B) -> Option<Answer<u64, u64>> {
    let begun = rt.thread_cpu_time().ok()?;
    let answer = end.block();
    let limit = begun.saturating_add(Duration::from_millis(DELAY_MILLIS / 2));
    let is_idle = rt.thread_cpu_time().ok()? < limit;
    is_idle.then_some(answer)
}

// What a call of an end that blocks is answered while the other end acts later, or is dropped; and that other end.
fn wait_for_other<R, B, E>(
    rt: &R,
    waits: &B,
    acts: E,
    wanted: Option<Answer<u64, u64>>,
) -> (Option<E>, Option<Answer<u64, u64>>)
where
    R: Threads + time::Clock + CpuClock + Sync,
    B: Blocks,
    E: Acts + Send,
{
    thread::join(
        rt,
        move || acts_later(rt, acts, wanted),
        || idle_answer(rt, waits),
    )
}

// Whether a receive waits until it is answered so: by a value, or by the end.
fn receives<R, S, E>(rt: &R, ends: Made<S, E>, wanted: Answer<u64, u64>) -> bool
where
    R: Threads + time::Clock + CpuClock + Sync,
    S: Acts + Send,
    E: Blocks,
{
    let Ok((sender, receiver)) = ends else {
        return false;
    };
    let sent = (wanted != Answer::Nothing).then_some(Answer::Done);
    let (sender, received) = wait_for_other(rt, &receiver, sender, sent);
    received == Some(wanted) && sender.is_some() == sent.is_some()
}

#[test]
fn receives_block_until_a_value_or_the_end_comes(rt: HostRuntime) {
    for wanted in [Answer::Item(7), Answer::Nothing] {
        let ends = channel::<u64, HostRuntime>(rt.alloc(), rt, 1);
        assert!(rt; receives(&rt, ends, wanted));
    }
}

#[test]
fn receives_of_a_oneshot_block_until_its_value_or_the_end_comes(rt: HostRuntime) {
    for wanted in [Answer::Item(7), Answer::Nothing] {
        let ends = oneshot_channel::<u64, HostRuntime>(rt.alloc(), rt);
        assert!(rt; receives(&rt, ends, wanted));
    }
}

// The ends, once a first state was sent.
fn after_a_state<S: SendsAtOnce<u64>, E>(ends: Made<S, E>) -> Made<S, E> {
    if let Ok((sender, _)) = &ends {
        let _ = sender.send(6);
    }
    ends
}

// Whoever has seen the first state waits for the next.
#[test]
fn receives_of_states_block_until_one_or_the_end_comes(rt: HostRuntime) {
    for wanted in [Answer::State(StateId::from_value(2), 7), Answer::Nothing] {
        let ends = state_broadcast_channel::<u64, HostRuntime>(rt.alloc(), rt);
        assert!(rt; receives(&rt, after_a_state(ends), wanted));
    }
}

// Whether a send on a full channel waits until it is answered so: as a value is taken, or after the last receiver.
fn sends<R, S, E>(rt: &R, ends: Made<S, E>, wanted: Answer<u64, u64>) -> bool
where
    R: Threads + time::Clock + CpuClock + Sync,
    S: TriesToSend<u64> + Blocks,
    E: Acts + Send,
{
    let Ok((sender, receiver)) = ends else {
        return false;
    };
    let is_full = sender.try_send(5).is_ok();
    let taken = (wanted == Answer::Done).then_some(Answer::Item(5));
    let (receiver, sent) = wait_for_other(rt, &sender, receiver, taken);
    let is_in = match receiver {
        Some(receiver) => receiver.act() == Answer::Item(6),
        None => taken.is_none(),
    };
    is_full && sent == Some(wanted) && is_in
}

#[test]
fn sends_block_until_there_is_room_or_no_receiver(rt: HostRuntime) {
    for wanted in [Answer::Done, Answer::Back(6, Fault::Closed)] {
        let ends = channel::<u64, HostRuntime>(rt.alloc(), rt, 1);
        assert!(rt; sends(&rt, ends, wanted));
    }
}
