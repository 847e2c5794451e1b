//! Values are let go with no lock held: their drops are their owners' code, and may use the same primitive. A future that has ended is
//! dropped with no lock taken.

use fi_parts::StateId;
use fi_parts::buffer::RingBuf;
use fi_sync::{Blocking, Channel, GenericChannel, StateBroadcastChannel, StateReceiveFuture};
use futures::test::MockTask;
use std::alloc::{AllocError, AllocGlobal};
use std::sync::Wait;
use std::thread;
use std::thread::Threads;
use tests_help::meeting::{Guest, Meeting};

/// What lets a value go, or clones it.
trait Begins {
    /// Whether it was answered as it should be.
    fn begin(self) -> bool;
}

/// What another thread calls meanwhile.
trait Calls {
    fn call(self);
}

// Whether the call came to its end meanwhile.
fn have_met<R, B, C>(rt: &R, meeting: &Meeting, begins: B, calls: C) -> bool
where
    R: Wait + Threads,
    B: Begins + Drop + Send,
    C: Calls + Drop + Send,
{
    let other = move || {
        let _ = meeting.has_begun();
        calls.call();
        meeting.end_call();
    };
    let (is_right, ()) = thread::join(rt, move || begins.begin(), other);
    is_right && meeting.was_met()
}

/// The replacement of a state by this one.
#[derive(Drop)]
struct Replaces<'a, T: Clone, R> {
    channel: &'a StateBroadcastChannel<T, R>,
    next: T,
}

impl<T: Clone, R: Wait> Begins for Replaces<'_, T, R> {
    fn begin(self) -> bool {
        let Replaces { channel, next } = self;
        channel.send(next).is_ok()
    }
}

/// A close.
#[derive(Drop)]
struct Closes<C>(C);

impl<T: Clone, R: Wait> Calls for Closes<&StateBroadcastChannel<T, R>> {
    fn call(self) {
        let _ = self.0.close();
    }
}

// The state that is replaced is let go while another thread closes the channel.
fn is_replaced<R: Wait + Threads + AllocGlobal + Copy + Send + Sync>(rt: R) -> bool {
    let meeting = &Meeting::new();
    let channel = &StateBroadcastChannel::new(rt.alloc(), rt);
    let first = Guest {
        meeting: Some(meeting),
    };
    let next = Guest { meeting: None };
    let is_sent = channel.send(first).is_ok();
    is_sent && have_met(&rt, meeting, Replaces { channel, next }, Closes(channel))
}

#[test]
fn a_replaced_state_is_let_go_without_the_lock(rt: HostRuntime) {
    assert!(rt; is_replaced(rt));
}

/// A send of this value that is dropped before its first poll.
#[derive(Drop)]
struct Unsent<'a, T: Drop, B: RingBuf<Item = T>, R> {
    channel: &'a GenericChannel<T, B, R>,
    value: T,
}

impl<T: Drop, B: RingBuf<Item = T>, R: Wait> Begins for Unsent<'_, T, B, R> {
    fn begin(self) -> bool {
        let Unsent { channel, value } = self;
        channel.send(value).is_ok()
    }
}

impl<T: Drop, B: RingBuf<Item = T>, R: Wait> Calls for Closes<&GenericChannel<T, B, R>> {
    fn call(self) {
        let _ = self.0.close();
    }
}

// The value of a send that is dropped is let go while another thread closes the channel.
fn is_unsent<R: Wait + Threads + AllocGlobal + Copy + Send + Sync>(rt: R) -> bool {
    let meeting = &Meeting::new();
    let channel = &Channel::<Guest<'_>, 1, R>::new(rt.alloc(), rt);
    let value = Guest {
        meeting: Some(meeting),
    };
    have_met(&rt, meeting, Unsent { channel, value }, Closes(channel))
}

#[test]
fn an_unsent_value_is_let_go_without_the_lock(rt: HostRuntime) {
    assert!(rt; is_unsent(rt));
}

// A state whose clone lasts until the other thread's call is over, unless that never comes. Its clones are cloned at once.
#[derive(Drop)]
struct Host<'a> {
    meeting: Option<&'a Meeting>,
}

impl Clone for Host<'_> {
    fn clone(&self) -> Result<Self, AllocError> {
        if let Some(meeting) = self.meeting {
            meeting.host();
        }
        Ok(Host { meeting: None })
    }
}

/// A clone of a state.
#[derive(Drop)]
struct Clones<'a, T: Clone, R>(&'a StateBroadcastChannel<T, R>);

impl<T: Clone, R: Wait> Begins for Clones<'_, T, R> {
    fn begin(self) -> bool {
        matches!(self.0.try_receive(StateId::new()), Ok(Some(_)))
    }
}

/// The drop of a receive.
#[derive(Drop)]
struct Drops<F: Drop>(F);

impl<F: Drop> Calls for Drops<F> {
    fn call(self) {
        drop(self);
    }
}

// Whether this becomes the channel's state.
fn is_sent<T: Clone, R: Wait>(channel: &StateBroadcastChannel<T, R>, state: T) -> bool {
    channel.send(state).is_ok()
}

// A receive that has ended, on a channel that has a state.
fn ended<'a, T: Clone, R: Wait>(
    channel: &'a StateBroadcastChannel<T, R>,
    task: &MockTask,
) -> Option<StateReceiveFuture<'a, T, R>> {
    let mut receive = channel.receive(StateId::new()).ok()?;
    task.poll(&mut receive).is_ready().then_some(receive)
}

// A receive that has ended is dropped while another thread clones the state, for which it holds the lock.
fn is_dropped<'a, R: Blocking + Threads + Send + Sync>(
    rt: &R,
    meeting: &'a Meeting,
    channel: &StateBroadcastChannel<Host<'a>, R>,
) -> Option<bool> {
    let is_first_sent = is_sent(channel, Host { meeting: None });
    let receive = ended(channel, &MockTask::new(rt).ok()?)?;
    let host = Host {
        meeting: Some(meeting),
    };
    let are_sent = is_first_sent && is_sent(channel, host);
    Some(are_sent && have_met(rt, meeting, Clones(channel), Drops(receive)))
}

#[test]
fn an_ended_receive_is_dropped_without_the_lock(rt: HostRuntime) {
    let meeting = &Meeting::new();
    let channel = &StateBroadcastChannel::new(rt.alloc(), rt);
    assert!(rt; is_dropped(&rt, meeting, channel) == Some(true));
}
