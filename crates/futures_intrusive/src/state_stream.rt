//! The stream of states that owns its reader.
ghost use Rattle.std.specs.Prelude.{◌≡◌, ⊤, List, Option, Result, None, IfSome, OnSome, false};
ghost use Rattle.futures.specs.Poll.{OnPending, IfReady};
ghost use Rattle.futures.specs.Task.{Covers, Keeps};
ghost use Rattle.fi_parts.specs.declared.errors.Fault.{Fault};
ghost use Rattle.fi_sync.specs.Waiting.{IsNew};
ghost use Rattle.futures_intrusive.specs.StateStreams.{GivesOfReceive, GivesState, PollsStates};

use crate::state_ends::StateReceiveFuture;
use crate::state_reader::StateReader;
use fi_parts::{Fault, StateId};
use futures::task::{Context, Poll};
use futures::{Future, Stream};
use std::fmt;
use std::marker::Model;
use std::sync::Wait;

/// Each newest state of a channel once, until the channel is closed and has none that is newer; then it answers its end, again and
/// again.
///
/// It is made of a reader, which it keeps, and goes on from the state that this has read. `StreamExt::next` is a future of the next
/// state, and a task that follows a configuration keeps the stream alone. Its drop drops its receive first, and then the reader.
///
/// An item is `Err(NoMemory)` where the clone of a state could not be allocated, or where the poll had to wait and no receive or no
/// waker could be made; the stream goes on after it, and skips no state for that. The Rust crate has none; of tokio it is
/// `tokio_stream::wrappers::WatchStream`, whose first item too is the state that is there.
///
/// # Examples
///
/// ```
/// use futures::StreamExt;
/// use futures::executor::block_on;
/// use futures_intrusive::blocking::Blocking;
/// use futures_intrusive::channel::shared::StateReceiver;
///
/// // The last port, once nobody is left who changes it.
/// fn last_port<R: Blocking + Drop>(rt: &R, ports: StateReceiver<u64, R>) -> Option<u64> {
///     let mut ports = ports.into_reader().into_stream();
///     let mut last = None;
///     for _ in rt.forever() {
///         let Some(port) = block_on(rt, ports.next()).ok()? else {
///             break;
///         };
///         last = Some(port.ok()?);
///     }
///     last
/// }
/// ```
#[derive(Drop)]
pub struct StateStream<T: Clone + Drop, R: Wait + Drop> {
    // In this order they are dropped. The receive waits for a state newer than the reader has read.
    receive: Option<StateReceiveFuture<T, R>>,
    reader: StateReader<T, R>,
    has_ended: bool,
}

impl<T: Clone + Drop, R: Wait + Drop> fmt::Debug for StateStream<T, R> {
    fn fmt<F: fmt::Write>(&self, f: &mut fmt::Formatter<F>) -> fmt::Result {
        f.debug_struct("StateStream").finish()
    }
}

impl<T: Clone + Drop, R: Wait + Drop> Model for StateStream<T, R> {
    ghost use Rattle.std.specs.Prelude.{IfSome};
    ghost use Rattle.fi_sync.specs.Waiting.{IsNew};
    ghost use Rattle.futures_intrusive.specs.StateStreams.{Follower};

    ghost Value = { Follower };

    ghost view = { λ stream. record { reader = stream.reader; receive = stream.receive; has_ended = stream.has_ended } };

    // Its receive is one of its own channel, and has not ended.
    ghost invariant = { λ stream. IfSome stream.receive (IsNew stream.reader.source) };
}

impl<T: Clone + Drop, R: Wait + Drop> StateReader<T, R> {
    /// A stream of the states newer than those that were read, which keeps the reader. Takes constant time, no memory and no lock.
    pub fn into_stream(self) -> StateStream<T, R>
        ensures { result ≡ record { reader = self; receive = None; has_ended = false } }
    {
        StateStream {
            receive: None,
            reader: self,
            has_ended: false,
        }
    }
}

impl<T: Clone + Drop, R: Wait + Drop> StateStream<T, R> {
    /// Polls for the next state: `Stream::poll_next`, with a contract that says what it answers.
    ///
    /// A poll that finds a newer state, or the channel closed, takes one hold of the lock, and no memory but the clone. One that has
    /// to wait makes a receive, and takes two more holds; while that waits, a poll takes one.
    pub fn poll_item(&mut self, cx: &mut Context<'_>) -> Poll<Option<Result<T, Fault>>>
        ensures registered { OnPending result (Covers cx.new (λ source. source ≡ self.new.reader.source)) }
        ensures kept { Keeps cx.old cx.new }
        ensures answered { PollsStates T.is_clone T.is_infallible self.old cx.new.lacks_waker result self.new }
    {
        if self.has_ended {
            return Poll::Ready(None);
        }
        if let Some(receive) = self.receive.take() {
            return self.poll_receive(receive, cx);
        }
        match self.reader.receive_at_once() {
            Poll::Ready(Ok(state)) => return Poll::Ready(self.give(state)),
            Poll::Ready(Err(fault)) => return Poll::Ready(Some(Err(fault))),
            Poll::Pending => {}
        }
        // What is sent from here on, or closes the channel, answers the first poll of this receive.
        match self.reader.receiver().receive(self.reader.seen()) {
            Ok(receive) => self.poll_receive(receive, cx),
            Err(fault) => Poll::Ready(Some(Err(fault))),
        }
    }

    /// The reader, to ask what was given last, or about its channel. Takes no lock.
    pub fn reader(&self) -> &StateReader<T, R>
        ensures { result.now ≡ self.now.reader }
    {
        &self.reader
    }

    /// Returns `true` if the stream has answered its end. It takes no lock. As `SharedStream::is_terminated`.
    pub fn is_terminated(&self) -> bool
        ensures { result ≡ self.now.has_ended }
    {
        self.has_ended
    }

    // Polls a receive, which is kept until it ends, and gives what that answers.
    fn poll_receive(
        &mut self,
        mut receive: StateReceiveFuture<T, R>,
        cx: &mut Context<'_>,
    ) -> Poll<Option<Result<T, Fault>>>
        requires new { IsNew self.old.reader.source receive }
        requires alone { self.old.receive ≡ None }
        requires lives { self.old.has_ended ≡ false }
        ensures registered { OnPending result (Covers cx.new (λ source. source ≡ self.new.reader.source)) }
        ensures kept { Keeps cx.old cx.new }
        ensures answered { GivesOfReceive T.is_clone T.is_infallible self.old.reader receive cx.new.lacks_waker result self.new }
    {
        match receive.poll(cx) {
            Poll::Ready(Ok(state)) => Poll::Ready(self.give(state)),
            Poll::Ready(Err(fault)) => {
                self.receive = Some(receive);
                Poll::Ready(Some(Err(fault)))
            }
            Poll::Pending => {
                self.receive = Some(receive);
                Poll::Pending
            }
        }
    }

    // Gives a state that was received, and remembers its number; where none will come, the stream has ended.
    fn give(&mut self, state: Option<(StateId, T)>) -> Option<Result<T, Fault>>
        requires alone { self.old.receive ≡ None }
        requires lives { self.old.has_ended ≡ false }
        ensures { GivesState self.old.reader state result self.new }
    {
        let Some((id, value)) = state else {
            self.has_ended = true;
            return None;
        };
        self.reader.remember(id);
        Some(Ok(value))
    }
}

impl<T: Clone + Drop, R: Wait + Drop> Stream for StateStream<T, R> {
    type Item = Result<T, Fault>;

    ghost needs = { λ stream source. source ≡ stream.reader.source };

    fn poll_next(&mut self, cx: &mut Context<'_>) -> Poll<Option<Result<T, Fault>>>
        ensures value { IfReady result (λ _. ⊤) }
        ensures rest { IfReady result (λ item. IfSome item (λ _. (xs : List (Result T Fault)) (last : Option (Result T Fault)) → ⊤ → ⊤)) }
        ensures goes { IfReady result (λ item. OnSome item ⊤) }
        ensures again { OnPending result ⊤ }
        ensures same { OnPending result ((xs : List (Result T Fault)) (last : Option (Result T Fault)) → ⊤ → ⊤) }
        ensures registered { OnPending result (Covers cx.new (λ source. source ≡ self.new.reader.source)) }
        ensures kept { Keeps cx.old cx.new }
        ensures answered { PollsStates T.is_clone T.is_infallible self.old cx.new.lacks_waker result self.new }
    {
        self.poll_item(cx)
    }
}
