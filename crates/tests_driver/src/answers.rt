//! What calls on what threads share give, as answers.

use fi_channels::{SendFault, TryReceiveError, TrySendError};
use fi_parts::{ChannelSendError, CloseStatus, Fault, StateId};
use fi_run::Answer;
use futures::task::Poll;

/// What the plain state answers where a call or a ready poll gives this.
pub trait IntoAnswer {
    fn into_answer(self) -> Answer<u64, u64>;
}

/// Of a poll.
pub fn of_poll<A: IntoAnswer>(polled: Poll<A>) -> Answer<u64, u64> {
    match polled {
        Poll::Ready(given) => given.into_answer(),
        Poll::Pending => Answer::Pending,
    }
}

/// Of a wait.
impl IntoAnswer for Result<(), Fault> {
    fn into_answer(self) -> Answer<u64, u64> {
        match self {
            Ok(()) => Answer::Ready,
            Err(fault) => Answer::Refused(fault),
        }
    }
}

/// Of a receive.
impl IntoAnswer for Result<Option<u64>, Fault> {
    fn into_answer(self) -> Answer<u64, u64> {
        match self {
            Ok(Some(value)) => Answer::Item(value),
            Ok(None) => Answer::Nothing,
            Err(fault) => Answer::Refused(fault),
        }
    }
}

/// Of a stream.
impl IntoAnswer for Option<Result<u64, Fault>> {
    fn into_answer(self) -> Answer<u64, u64> {
        match self {
            Some(Ok(value)) => Answer::Item(value),
            Some(Err(fault)) => Answer::Refused(fault),
            None => Answer::End,
        }
    }
}

/// Of a receive of a state.
impl IntoAnswer for Result<Option<(StateId, u64)>, Fault> {
    fn into_answer(self) -> Answer<u64, u64> {
        match self {
            Ok(Some((number, value))) => Answer::State(number, value),
            Ok(None) => Answer::Nothing,
            Err(fault) => Answer::Refused(fault),
        }
    }
}

/// Of a send on a channel of one value or of a state.
impl IntoAnswer for Result<(), ChannelSendError<u64>> {
    fn into_answer(self) -> Answer<u64, u64> {
        match self {
            Ok(()) => Answer::Done,
            Err(ChannelSendError(value)) => Answer::Back(value, Fault::Closed),
        }
    }
}

/// Of a send on a channel of many values.
impl IntoAnswer for Result<(), SendFault<u64>> {
    fn into_answer(self) -> Answer<u64, u64> {
        match self {
            Ok(()) => Answer::Done,
            Err(SendFault::Closed(value)) => Answer::Back(value, Fault::Closed),
            Err(SendFault::Fault(fault)) => Answer::Refused(fault),
        }
    }
}

/// Of a send at once on a channel of many values.
impl IntoAnswer for Result<(), TrySendError<u64>> {
    fn into_answer(self) -> Answer<u64, u64> {
        match self {
            Ok(()) => Answer::Done,
            Err(TrySendError::Closed(value)) => Answer::Back(value, Fault::Closed),
            Err(TrySendError::Full(value)) => Answer::Back(value, Fault::Full),
            Err(TrySendError::NoMemory(failed)) => Answer::Back(failed.0, Fault::from(failed)),
        }
    }
}

/// Of a receive at once from a channel of many values.
impl IntoAnswer for Result<u64, TryReceiveError> {
    fn into_answer(self) -> Answer<u64, u64> {
        match self {
            Ok(value) => Answer::Item(value),
            Err(TryReceiveError::Empty) => Answer::Refused(Fault::Empty),
            Err(TryReceiveError::Closed) => Answer::Refused(Fault::Closed),
        }
    }
}

impl IntoAnswer for CloseStatus {
    fn into_answer(self) -> Answer<u64, u64> {
        match self {
            CloseStatus::NewlyClosed => Answer::Newly,
            CloseStatus::AlreadyClosed => Answer::Already,
        }
    }
}
