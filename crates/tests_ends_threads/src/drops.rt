//! Each value is dropped once, whatever is dropped first, and with no lock held.

use fi_channels::{SendFault, TrySendError};
use fi_parts::buffer::GrowingHeapBuf;
use futures::Future;
use futures::test::MockTask;
use std::alloc::AllocGlobal;
use std::process::Abort;
use std::random::RandomSource;
use std::rc::Rc;
use std::sync::Wait;
use std::thread;
use tests_driver::pollable::Pollable;
use tests_ends_calls::many::{Sender, channel};
use tests_ends_calls::states::{Receiver, state_broadcast_channel};
use tests_ends_calls::{Made, ReceivingEnd, SendingEnd, SendsAtOnce, TriesToSend};
use tests_help::meeting::{Guest, Meeting};

type Counted = Rc<u64>;

fn owner(rt: &impl Abort, counted: &Counted) -> Counted {
    counted.clone().expect(rt, "memory")
}

// What lives of a channel: two ends and three futures.
#[derive(Drop)]
struct Living<A, B, C, D, E> {
    sender: Option<A>,
    receiver: Option<B>,
    send: Option<C>,
    receive: Option<D>,
    stream: Option<E>,
}

impl<A: Drop, B: Drop, C: Drop, D: Drop, E: Drop> Living<A, B, C, D, E> {
    // Drops the part of this number, if it is still there.
    fn let_go(&mut self, part: u32) {
        match part {
            0 => self.sender = None,
            1 => self.receiver = None,
            2 => self.send = None,
            3 => self.receive = None,
            _ => self.stream = None,
        }
    }

    // Drops four parts in turn, and then what is left.
    fn let_all_go(self, order: u32) {
        let mut living = self;
        living.let_go(order % 5);
        living.let_go(order / 5 % 5);
        living.let_go(order / 25 % 5);
        living.let_go(order / 125);
    }
}

// Sends a value that is buffered, one that waits and one that is refused. The send that waits.
fn fill<R, S>(rt: R, task: &MockTask, sender: &S, counted: &Counted) -> S::Send
where
    R: Abort + Copy,
    S: SendingEnd<Counted>,
    S::Send: Pollable + Future<Output = Result<(), SendFault<Counted>>>,
{
    assert!(rt; sender.try_send(owner(&rt, counted)).is_ok());
    let mut send = sender.send(owner(&rt, counted)).ok().expect(&rt, "memory");
    assert!(rt; task.poll(&mut send).is_pending());
    assert!(rt; sender.try_send(owner(&rt, counted)).is_err());
    assert_eq!(rt; Rc::strong_count(counted), 3);
    send
}

// Fills the channel, and drops its parts.
fn drop_parts<R, S, E>(rt: R, ends: Made<S, E>, counted: &Counted, order: u32)
where
    R: Abort + Copy + RandomSource + AllocGlobal,
    S: SendingEnd<Counted>,
    S::Send: Pollable + Future<Output = Result<(), SendFault<Counted>>>,
    E: ReceivingEnd<Counted>,
{
    let task = MockTask::new(&rt).expect(&rt, "memory");
    let (sender, receiver) = ends.expect(&rt, "memory");
    let send = fill(rt, &task, &sender, counted);
    let receive = receiver.receive().expect(&rt, "memory");
    let stream = receiver.stream().expect(&rt, "memory");
    let living = Living {
        sender: Some(sender),
        receiver: Some(receiver),
        send: Some(send),
        receive: Some(receive),
        stream: Some(stream),
    };
    living.let_all_go(order);
}

#[test]
fn each_value_is_dropped_once(rt: HostRuntime) {
    let counted = Rc::new(rt.alloc(), 7u64).expect(&rt, "memory");
    for order in 0..625u32 {
        let ends = channel::<Counted, HostRuntime>(rt.alloc(), rt, 1);
        drop_parts(rt, ends, &counted, order);
        assert_eq!(rt; Rc::strong_count(&counted), 1);
    }
}

// Whether a send that is made once a value's drop has begun finds the channel closed.
fn send_is_refused<'a, R: Wait + Drop>(
    sender: Sender<Guest<'a>, GrowingHeapBuf<Guest<'a>>, R>,
    meeting: &'a Meeting,
) -> bool {
    let has_begun = meeting.has_begun();
    let sent = sender.try_send(Guest { meeting: None });
    meeting.end_call();
    has_begun && matches!(sent, Err(TrySendError::Closed(_)))
}

// What the last receiver clears is let go while another thread sends.
#[test]
fn cleared_values_are_let_go_without_the_lock(rt: HostRuntime) {
    let meeting = &Meeting::new();
    let ends = channel::<Guest<'_>, HostRuntime>(rt.alloc(), rt, 2);
    let (sender, receiver) = ends.expect(&rt, "memory");
    let guest = Guest {
        meeting: Some(meeting),
    };
    assert!(rt; sender.try_send(guest).is_ok());
    let sends = move || send_is_refused(sender, meeting);
    let ((), is_refused) = thread::join(&rt, move || drop(receiver), sends);
    assert!(rt; is_refused && meeting.was_met());
}

// Whether the channel is found open once a value's drop has begun.
fn is_open<'a, R: Wait + Drop>(receiver: Receiver<Guest<'a>, R>, meeting: &'a Meeting) -> bool {
    let has_begun = meeting.has_begun();
    let is_open = !receiver.is_closed();
    meeting.end_call();
    has_begun && is_open
}

// The state that another replaces is let go while another thread calls.
#[test]
fn replaced_states_are_let_go_without_the_lock(rt: HostRuntime) {
    let meeting = &Meeting::new();
    let ends = state_broadcast_channel::<Guest<'_>, HostRuntime>(rt.alloc(), rt);
    let (sender, receiver) = ends.expect(&rt, "memory");
    let guest = Guest {
        meeting: Some(meeting),
    };
    assert!(rt; sender.send(guest).is_ok());
    let sends = move || sender.send(Guest { meeting: None }).is_ok();
    let (is_sent, is_open) = thread::join(&rt, sends, move || is_open(receiver, meeting));
    assert!(rt; is_sent && is_open && meeting.was_met());
}
