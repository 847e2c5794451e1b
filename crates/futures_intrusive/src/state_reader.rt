//! A receiver of states that remembers which it has read.
ghost use Rattle.std.specs.Prelude.{◌≡◌, Option, IfOk, IfErr, OnErr, Ok};
ghost use Rattle.futures.specs.declared.task.waker.Waker.{Waker};
ghost use Rattle.fi_parts.specs.declared.errors.Fault.{Fault};
ghost use Rattle.fi_channels.specs.StateBroadcast.{StateMachine, TriesReceive, MayLackNewer, newer_than};
ghost use Rattle.fi_sync.specs.Received.{PollsState};
ghost use Rattle.fi_sync.specs.Waiting.{WaitedFor};
ghost use Rattle.futures_intrusive.specs.Readers.{IsRead, Reads, Lends};
ghost use Rattle.futures_intrusive.specs.StateStreams.{AnswersAtOnce};

use crate::counted_ends::CountedEnds;
use crate::state_ends::StateReceiver;
use fi_channels::StateBroadcastState;
use fi_parts::{Fault, StateId};
use fi_sync::{Blocking, PollWaker};
use futures::task::Poll;
use std::marker::Model;
use std::sync::Wait;

/// Reads each newest state of a channel once: a receiver, and the number of the newest state that it has read.
///
/// It owns its receiver and drops it. A task takes its `into_stream`. The Rust crate has none: there a user keeps the `StateId`.
///
/// # Examples
///
/// ```
/// use futures_intrusive::Fault;
/// use futures_intrusive::blocking::Blocking;
/// use futures_intrusive::channel::shared::StateReceiver;
///
/// fn follow<R: Blocking + Drop>(rt: &R, settings: StateReceiver<u64, R>) -> Result<u64, Fault> {
///     let mut reader = settings.into_reader();
///     let mut last = 0;
///     for _ in rt.forever() {
///         let Some(setting) = reader.next_blocking()? else {
///             break;
///         };
///         last = setting;
///     }
///     Ok(last)
/// }
/// ```
#[derive(Drop)]
pub struct StateReader<T: Clone + Drop, R: Wait + Drop> {
    receiver: StateReceiver<T, R>,
    seen: StateId,
}

impl<T: Clone + Drop, R: Wait + Drop> Model for StateReader<T, R> {
    ghost use Rattle.futures_intrusive.specs.Readers.{Reader};

    ghost Value = { Reader };

    ghost view = { λ reader. record { source = reader.receiver; seen = reader.seen } };
}

impl<T: Clone + Drop, R: Wait + Drop> StateReceiver<T, R> {
    /// A reader that has read no state yet, and keeps the receiver. Takes constant time, no memory and no lock.
    pub fn into_reader(self) -> StateReader<T, R>
        ensures { result ≡ record { source = self; seen = 0 } }
    {
        StateReader {
            receiver: self,
            seen: StateId::new(),
        }
    }
}

impl<T: Clone + Drop, R: Wait + Drop> StateReader<T, R> {
    /// The receiver, to ask it about its channel, or to clone it. Takes no lock.
    pub fn receiver(&self) -> &StateReceiver<T, R>
        ensures { result.now ≡ self.now.source }
    {
        &self.receiver
    }

    /// The number of the newest state that was read; 0 if none was. Takes no lock.
    pub fn seen(&self) -> StateId
        ensures { result ≡ self.now.seen }
    {
        self.seen
    }

    /// A clone of the newest state if it has not been read; else None, closed or not. As `StateReceiver::try_receive`, with the
    /// number of the newest state that was read, and at its cost.
    ///
    /// Refused with `NoMemory` where the clone could not be allocated; then that state has still to be read.
    pub fn try_next(&mut self) -> Result<Option<T>, Fault>
        ensures read { IfOk result (λ value. (held : StateMachine T (Option Waker))
            × Reads (TriesReceive T.is_clone held self.old.seen) self.old value self.new) }
        ensures refused { OnErr result (self.new ≡ self.old) }
        ensures fault { IfErr result (λ fault. fault ≡ Fault.NoMemory) }
        // In some hold of the lock there was a newer state, whose clone can fail.
        ensures lacks { OnErr result ((state : StateMachine T (Option Waker))
            × MayLackNewer T.is_infallible (newer_than state.own self.old.seen)) }
    {
        let state = self.receiver.try_receive(self.seen)?;
        Ok(self.read(state))
    }

    /// Blocks this thread until there is a state that has not been read, and gives a clone of the newest; None once the channel is
    /// closed and has none. As `StateReceiver::receive_blocking`, with the number of the newest state that was read, and at its
    /// cost.
    ///
    /// Refused as that is; then what was read is as before.
    pub fn next_blocking(&mut self) -> Result<Option<T>, Fault>
    where
        R: Blocking,
        ensures waited { IfOk result (λ value. Reads (λ state. WaitedFor
            (λ state. (held : StateMachine T (Option Waker)) × TriesReceive T.is_clone held self.old.seen state)
            (PollsState T.is_clone T.is_infallible) (Ok state)) self.old value self.new) }
        ensures refused { OnErr result (self.new ≡ self.old) }
    {
        let state = self.receiver.receive_blocking(self.seen)?;
        Ok(self.read(state))
    }

    /// Lends the newest state to a call, read before or not, and gives what the call answers; that state counts as read then. None
    /// if no state was sent yet; then nothing has changed.
    ///
    /// Takes no memory, as nothing is cloned. The call is made with the channel's lock held, so it must not call the channel.
    pub fn with_value<A, F: FnOnce(&T) -> A + Drop>(&mut self, look: F) -> Option<A>
        requires { F.IsAlwaysCallable look }
        ensures { Reads (λ looked. (held : StateMachine T (Option Waker)) × Lends F.FnOnce look held looked) self.old result self.new }
    {
        let call = |ends: &mut CountedEnds<StateBroadcastState<T, PollWaker>>, ()| -> Option<
            (StateId, A),
        >
            requires { F.IsAlwaysCallable look }
            ensures { (held : StateMachine T (Option Waker)) × Lends F.FnOnce look held result }
        { ends.look(look) };
        let looked = self.receiver.channel().call((), call);
        self.read(looked)
    }

    // What a receive of a newer state is answered at once: one, or None where the channel is closed. It is pending where it would have
    // to wait.
    pub(crate) fn receive_at_once(&self) -> Poll<Result<Option<(StateId, T)>, Fault>>
        ensures { (held : StateMachine T (Option Waker)) × AnswersAtOnce T.is_clone T.is_infallible held self.now.seen result }
    {
        let call = |ends: &mut CountedEnds<
            StateBroadcastState<T, PollWaker>,
        >, seen: StateId| -> Poll<Result<Option<(StateId, T)>, Fault>>
            ensures { (held : StateMachine T (Option Waker)) × AnswersAtOnce T.is_clone T.is_infallible held seen result }
        { ends.receive_at_once(seen) };
        self.receiver.channel().call(self.seen, call)
    }

    // Remembers that the state of this number was read.
    pub(crate) fn remember(&mut self, id: StateId)
        ensures { self.new ≡ record self.old { seen = id } }
    {
        self.seen = id;
    }

    // Remembers the number of this state, if there is one, and gives what comes with it.
    fn read<A>(&mut self, state: Option<(StateId, A)>) -> Option<A>
        ensures { IsRead self.old state result self.new }
    {
        let Some((id, value)) = state else {
            return None;
        };
        self.remember(id);
        Some(value)
    }
}
