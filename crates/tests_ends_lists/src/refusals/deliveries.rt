//! Bytes that ends deliver, whose clone takes memory: refused until there is enough, and then the same as to anybody else.
use fi_parts::{Fault, StateId};
use futures::Future;
use futures::task::Poll;
use futures::test::MockTask;
use std::alloc::{AllocGlobal, Global};
use std::test::Fail;
use tests_driver::pollable::Pollable;
use tests_driver::refusals::making::{Making, tries};
use tests_ends_calls::one_value::oneshot_broadcast_channel;
use tests_ends_calls::states::state_broadcast_channel;
use tests_ends_calls::{Made, ReceivesOne, ReceivesStates, SendsAtOnce};
use tests_help::hoard::Hoard;

const BYTES: &[u8] = b"seven and seventy bytes";

/// What a receive delivers.
#[derive(Clone, Copy, PartialEq, Eq, Drop)]
enum Delivery {
    Bytes,
    NoMemory,
    Other,
}

impl Delivery {
    fn of(received: &Result<Option<Vec<u8>>, Fault>) -> Self {
        match received {
            Ok(Some(value)) if value.as_slice() == BYTES => Delivery::Bytes,
            Err(Fault::NoMemory { .. }) => Delivery::NoMemory,
            _ => Delivery::Other,
        }
    }
}

trait Delivers: Drop {
    fn delivery(self) -> Delivery;
}

impl Delivers for Result<Option<Vec<u8>>, Fault> {
    fn delivery(self) -> Delivery {
        Delivery::of(&self)
    }
}

impl Delivers for Result<Option<(StateId, Vec<u8>)>, Fault> {
    fn delivery(self) -> Delivery {
        match self {
            Ok(Some((_, value))) => Delivery::of(&Ok(Some(value))),
            Ok(None) => Delivery::Other,
            Err(fault) => Delivery::of(&Err(fault)),
        }
    }
}

/// A receive, and what it delivered when it was polled last.
#[derive(Drop)]
struct Polls<'a, F: Drop> {
    task: &'a MockTask,
    receive: F,
    delivery: Delivery,
}

impl<F: Pollable> Making for Polls<'_, F>
where
    F::Output: Delivers,
{
    fn is_refused(&mut self) -> bool {
        self.delivery = match self.task.poll(&mut self.receive) {
            Poll::Ready(received) => received.delivery(),
            Poll::Pending => Delivery::Other,
        };
        self.delivery == Delivery::NoMemory
    }
}

/// Receives at once.
#[derive(Drop)]
struct AtOnce<'a, E> {
    receiver: &'a E,
    delivery: Delivery,
}

impl<E: ReceivesStates<Vec<u8>>> Making for AtOnce<'_, E> {
    fn is_refused(&mut self) -> bool {
        self.delivery = self.receiver.try_receive(0).delivery();
        self.delivery == Delivery::NoMemory
    }
}

// Whether a receive that waits is told of the bytes, refused until there is enough memory, and then given them.
fn waits_for_bytes<S, F>(
    alloc: Global,
    task: &MockTask,
    hoard: &mut Hoard,
    sender: &S,
    receive: F,
) -> Option<bool>
where
    S: SendsAtOnce<Vec<u8>>,
    F: Pollable,
    F::Output: Delivers,
{
    let mut polls = Polls {
        task,
        receive,
        delivery: Delivery::Other,
    };
    let waits = !polls.is_refused() && polls.delivery == Delivery::Other;
    sender.send(Vec::from_slice(alloc, BYTES).ok()?).ok()?;
    let is_told = waits && task.is_woken();
    let is_right = tries(hoard, &mut polls).is_right(1);
    Some(is_told && is_right && polls.delivery == Delivery::Bytes)
}

// Of one value, which a second receive gets too.
fn delivers_one_value<S, E>(
    alloc: Global,
    task: &MockTask,
    hoard: &mut Hoard,
    ends: Made<S, E>,
) -> Option<bool>
where
    S: SendsAtOnce<Vec<u8>>,
    E: ReceivesOne<Vec<u8>>,
    E::Receive: Pollable + Future<Output = Result<Option<Vec<u8>>, Fault>>,
{
    let (sender, receiver) = ends.ok()?;
    let receive = receiver.receive().ok()?;
    let comes = waits_for_bytes(alloc, task, hoard, &sender, receive)?;
    let mut again = Polls {
        task,
        receive: receiver.receive().ok()?,
        delivery: Delivery::Other,
    };
    Some(comes && !again.is_refused() && again.delivery == Delivery::Bytes)
}

#[test]
fn deliveries_of_one_value(rt: HostRuntime) -> Result<(), Fail> {
    let (mut hoard, task) = (Hoard::new(rt.alloc())?, MockTask::new(&rt)?);
    let ends = oneshot_broadcast_channel::<Vec<u8>, HostRuntime>(rt.alloc(), rt);
    assert!(rt; delivers_one_value(rt.alloc(), &task, &mut hoard, ends) == Some(true));
    Ok(())
}

// Of a state, which a receive at once gets too, refused until there is enough memory.
fn delivers_states<S, E>(
    alloc: Global,
    task: &MockTask,
    hoard: &mut Hoard,
    ends: Made<S, E>,
) -> Option<bool>
where
    S: SendsAtOnce<Vec<u8>>,
    E: ReceivesStates<Vec<u8>>,
    E::Receive: Pollable + Future<Output = Result<Option<(StateId, Vec<u8>)>, Fault>>,
{
    let (sender, receiver) = ends.ok()?;
    let receive = receiver.receive(0).ok()?;
    let comes = waits_for_bytes(alloc, task, hoard, &sender, receive)?;
    let mut at_once = AtOnce {
        receiver: &receiver,
        delivery: Delivery::Other,
    };
    let is_right = tries(hoard, &mut at_once).is_right(1);
    Some(comes && is_right && at_once.delivery == Delivery::Bytes)
}

#[test]
fn deliveries_of_states(rt: HostRuntime) -> Result<(), Fail> {
    let (mut hoard, task) = (Hoard::new(rt.alloc())?, MockTask::new(&rt)?);
    let ends = state_broadcast_channel::<Vec<u8>, HostRuntime>(rt.alloc(), rt);
    assert!(rt; delivers_states(rt.alloc(), &task, &mut hoard, ends) == Some(true));
    Ok(())
}
