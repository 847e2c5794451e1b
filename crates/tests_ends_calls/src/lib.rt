//! The calls of ends, as traits, and ends under short types of their own, which have these calls.
//!
//! What is generic over the traits is proved without a look at the types of ends. But the type of an end names its channel's state with the
//! state's buffer, and says of each part what it was shown to be: a call with it proves each bound through all of that, which takes a
//! minute. The ends of `many`, `one_value` and `states` are those of `futures_intrusive`, each in a struct that names only what a test
//! chooses: the values, the buffer and the runtime.
#![tactic(auto)]

use fi_channels::{TryReceiveError, TrySendError};
use fi_parts::{ChannelSendError, CloseStatus, Fault, NoRoom, StateId};
use futures::Stream;

pub mod closed;
pub mod many;
pub mod one_value;
pub mod states;

/// Two ends, if they could be made.
pub type Made<S, E> = Result<(S, E), Fault>;

/// An end of which there can be several.
pub trait ClonedEnd: Drop {
    fn try_clone(&self) -> Result<Self, Fault>;
}

/// An end at which a task waits until its channel is closed.
pub trait AwaitsClose: Drop {
    type Closed: Drop;

    fn closed(&self) -> Result<Self::Closed, Fault>;
}

/// An end that tells how many there are.
pub trait CountsEnds: Drop {
    /// Senders, and receivers.
    fn counts(&self) -> (usize, usize);
}

/// The calls at once of a sender of many values.
pub trait TriesToSend<T>: Drop {
    fn try_send(&self, value: T) -> Result<(), TrySendError<T>>;

    fn close(&self) -> CloseStatus;
}

/// A sender of many values.
pub trait SendingEnd<T>: TriesToSend<T> {
    type Send: Drop;

    fn send(&self, value: T) -> Result<Self::Send, NoRoom<T>>;
}

/// The calls at once of a receiver of many values.
pub trait TriesToReceive<T>: Drop {
    fn try_receive(&self) -> Result<T, TryReceiveError>;

    fn close(&self) -> CloseStatus;
}

/// A receiver of many values.
pub trait ReceivingEnd<T>: TriesToReceive<T> {
    type Receive: Drop;

    type Items: Drop;

    fn receive(&self) -> Result<Self::Receive, Fault>;

    /// A stream of a clone of the receiver.
    fn stream(&self) -> Result<Self::Items, Fault>;
}

/// A stream of a receiver, which may be polled at any time.
pub trait StreamingEnd: Stream {
    fn close(&self) -> CloseStatus;

    ghost is_pollable: { (any : Self) → Self.can_poll any };
}

/// The call of a sender of one value or of states.
pub trait SendsAtOnce<T>: Drop {
    fn send(&self, value: T) -> Result<(), ChannelSendError<T>>;
}

/// The calls of a receiver of one value.
pub trait ReceivesOne<T>: Drop {
    type Receive: Drop;

    fn receive(&self) -> Result<Self::Receive, Fault>;

    fn try_receive(&self) -> Result<Option<T>, Fault>;
}

/// The calls of a receiver of states. What is seen already is the number of a state.
pub trait ReceivesStates<T>: Drop {
    type Receive: Drop;

    fn receive(&self, seen: u64) -> Result<Self::Receive, Fault>;

    fn try_receive(&self, seen: u64) -> Result<Option<(StateId, T)>, Fault>;
}

/// A reader of states, which remembers what it has read.
pub trait ReadsStates<T>: Drop {
    /// The number of the newest state that was read.
    fn seen(&self) -> u64;

    fn try_next(&mut self) -> Result<Option<T>, Fault>;

    fn next_blocking(&mut self) -> Result<Option<T>, Fault>;
}

/// A stream of states, which may be polled at any time.
pub trait StreamsStates<T>: Stream<Item = Result<T, Fault>> {
    fn is_terminated(&self) -> bool;

    /// The number of the state that was given last.
    fn seen(&self) -> u64;

    ghost is_pollable: { (any : Self) → Self.can_poll any };
}
