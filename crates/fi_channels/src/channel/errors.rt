//! Why a call on a channel was refused.
ghost use Rattle.std.specs.Prelude.{◌≡◌};

use fi_parts::{Fault, NoRoom};
use std::error::Error;
use std::fmt;
use std::io::{self, ErrorKind};

/// Why a send failed: the channel is closed, or a poll was refused.
///
/// # Examples
///
/// ```
/// use futures::task::Poll;
/// use futures_intrusive::channel::{LocalChannel, SendFault};
///
/// let mut channel: LocalChannel<u64, 1, u64> = LocalChannel::new(rt.alloc());
/// let mut send = channel.send(6).ok().expect(&rt, "memory");
/// channel.close();
/// let answer = send.poll_if_live(&mut channel, 1);
/// send.leave(&mut channel);
/// assert!(rt; answer == Some(Poll::Ready(Err(SendFault::Closed(6))))); // the value comes back
/// ```
#[derive(Debug, PartialEq, Drop)]
pub enum SendFault<T> {
    /// The channel is closed; the value is handed back.
    Closed(T),
    /// The poll was refused and the send still owns its value: `NoMemory` if the buffer could not grow, or a send that threads
    /// share had to wait and no waker could be made.
    Fault(Fault),
}

impl<T> fmt::Display for SendFault<T> {
    fn fmt<W: fmt::Write>(&self, f: &mut fmt::Formatter<W>) -> fmt::Result {
        match self {
            SendFault::Closed(_) => f.pad("the channel is closed"),
            SendFault::Fault(fault) => fmt::Display::fmt(fault, f),
        }
    }
}

impl<T: fmt::Debug + Drop> Error for SendFault<T> {}

/// So that `?` serves where an `io::Error` is answered: `BrokenPipe` where the channel is closed (the value is dropped), else as the
/// fault converts.
impl<T: Drop> From<SendFault<T>> for io::Error {
    fn from(fault: SendFault<T>) -> io::Error {
        match fault {
            SendFault::Closed(_) => io::Error::from(ErrorKind::BrokenPipe),
            SendFault::Fault(fault) => io::Error::from(fault),
        }
    }
}

/// So that `?` serves where a `Fault` is answered: `Closed` where the channel is closed (the value is dropped), else the fault.
impl<T: Drop> From<SendFault<T>> for Fault {
    ghost use Rattle.fi_channels.specs.ChannelErrors.{fault_of_poll};

    ghost from_gives = { λ refused fault. fault ≡ fault_of_poll refused };

    fn from(refused: SendFault<T>) -> Fault {
        match refused {
            SendFault::Closed(_) => Fault::Closed,
            SendFault::Fault(fault) => fault,
        }
    }
}

impl<T> SendFault<T> {
    ghost use Rattle.fi_channels.specs.ChannelErrors.{value_of_poll};

    /// Returns the value that was not sent, where the channel is closed; None where the poll was refused, since the send still
    /// owns its value then. As `TrySendError::into_inner`.
    pub fn into_inner(self) -> Option<T>
        ensures { result ≡ value_of_poll self }
    {
        match self {
            SendFault::Closed(value) => Some(value),
            SendFault::Fault(_) => None,
        }
    }
}

/// Why a value was not sent at once; it is handed back.
///
/// Keeps `TrySendError` of futures-intrusive's `channel`.
///
/// # Examples
///
/// ```
/// use futures_intrusive::channel::{Channel, TrySendError};
///
/// let channel = Channel::<u64, 1, HostRuntime>::new(rt.alloc(), rt); // room for one
/// assert!(rt; channel.try_send(7) == Ok(()) && channel.try_send(8) == Err(TrySendError::Full(8)));
/// channel.close();
/// assert!(rt; channel.try_send(9) == Err(TrySendError::Closed(9))); // the value comes back
/// ```
#[derive(Debug, PartialEq, Drop)]
pub enum TrySendError<T> {
    /// The buffer has no room.
    Full(T),
    /// The channel is closed.
    Closed(T),
    /// There was no memory: the buffer could not grow, or a call that blocks could make no future or no executor.
    NoMemory(NoRoom<T>),
}

impl<T> fmt::Display for TrySendError<T> {
    fn fmt<W: fmt::Write>(&self, f: &mut fmt::Formatter<W>) -> fmt::Result {
        f.pad(match self {
            TrySendError::Full(_) => "the channel is full",
            TrySendError::Closed(_) => "the channel is closed",
            TrySendError::NoMemory(_) => "out of memory",
        })
    }
}

impl<T: fmt::Debug + Drop> Error for TrySendError<T> {}

/// So that `?` serves where an `io::Error` is answered: `WouldBlock` where the channel is full, `BrokenPipe` where it is closed,
/// `OutOfMemory` where there was no memory. The value is dropped.
impl<T: Drop> From<TrySendError<T>> for io::Error {
    fn from(refused: TrySendError<T>) -> io::Error {
        io::Error::from(match refused {
            TrySendError::Full(_) => ErrorKind::WouldBlock,
            TrySendError::Closed(_) => ErrorKind::BrokenPipe,
            TrySendError::NoMemory(_) => ErrorKind::OutOfMemory,
        })
    }
}

/// So that `?` serves where a `Fault` is answered: the fault of the same name. The value is dropped.
impl<T: Drop> From<TrySendError<T>> for Fault {
    ghost use Rattle.fi_channels.specs.ChannelErrors.{fault_of_send};

    ghost from_gives = { λ refused fault. fault ≡ fault_of_send refused };

    fn from(refused: TrySendError<T>) -> Fault {
        match refused {
            TrySendError::Full(_) => Fault::Full,
            TrySendError::Closed(_) => Fault::Closed,
            TrySendError::NoMemory(refused) => Fault::from(refused),
        }
    }
}

impl<T: Drop> TrySendError<T> {
    ghost use Rattle.fi_channels.specs.ChannelErrors.{value_in, is_full, is_closed_to, is_memory};

    /// Returns the value that was not sent. Keeps `TrySendError::into_inner`.
    pub fn into_inner(self) -> T
        ensures { result ≡ value_in self }
    {
        match self {
            TrySendError::Full(value) => value,
            TrySendError::Closed(value) => value,
            TrySendError::NoMemory(refused) => refused.into_parts().0,
        }
    }

    /// Returns whether the buffer had no room. Keeps `TrySendError::is_full`.
    pub fn is_full(&self) -> bool
        ensures { result ≡ is_full self.now }
    {
        match self {
            TrySendError::Full(_) => true,
            TrySendError::Closed(_) => false,
            TrySendError::NoMemory(_) => false,
        }
    }

    /// Returns whether the channel was closed. Keeps `TrySendError::is_closed`.
    pub fn is_closed(&self) -> bool
        ensures { result ≡ is_closed_to self.now }
    {
        match self {
            TrySendError::Full(_) => false,
            TrySendError::Closed(_) => true,
            TrySendError::NoMemory(_) => false,
        }
    }

    /// Returns whether there was no memory.
    pub fn is_memory(&self) -> bool
        ensures { result ≡ is_memory self.now }
    {
        match self {
            TrySendError::Full(_) => false,
            TrySendError::Closed(_) => false,
            TrySendError::NoMemory(_) => true,
        }
    }
}

/// Why nothing was received at once.
///
/// Keeps `TryReceiveError` of futures-intrusive's `channel`.
///
/// # Examples
///
/// ```
/// use futures_intrusive::channel::{Channel, TryReceiveError};
///
/// let channel = Channel::<u64, 2, HostRuntime>::new(rt.alloc(), rt);
/// assert!(rt; channel.try_send(1).is_ok() && channel.try_send(2).is_ok());
/// assert!(rt; channel.try_send(3).is_err());
/// channel.close();
/// assert!(rt; channel.try_receive() == Ok(1) && channel.try_receive() == Ok(2));
/// assert!(rt; channel.try_receive() == Err(TryReceiveError::Closed));
/// ```
#[derive(Clone, Copy, Debug, PartialEq, Eq)]
pub enum TryReceiveError {
    /// The channel has no value, and is open.
    Empty,
    /// The channel has no value, and is closed.
    Closed,
}

impl fmt::Display for TryReceiveError {
    fn fmt<W: fmt::Write>(&self, f: &mut fmt::Formatter<W>) -> fmt::Result {
        f.pad(match self {
            TryReceiveError::Empty => "the channel is empty",
            TryReceiveError::Closed => "the channel is closed and empty",
        })
    }
}

impl Error for TryReceiveError {}

/// So that `?` serves where an `io::Error` is answered: `WouldBlock` where the channel is empty, `BrokenPipe` where it is closed too.
impl From<TryReceiveError> for io::Error {
    fn from(refused: TryReceiveError) -> io::Error {
        io::Error::from(match refused {
            TryReceiveError::Empty => ErrorKind::WouldBlock,
            TryReceiveError::Closed => ErrorKind::BrokenPipe,
        })
    }
}

/// So that `?` serves where a `Fault` is answered: the fault of the same name.
impl From<TryReceiveError> for Fault {
    ghost use Rattle.fi_channels.specs.ChannelErrors.{fault_of_receive};

    ghost from_gives = { λ refused fault. fault ≡ fault_of_receive refused };

    fn from(refused: TryReceiveError) -> Fault {
        match refused {
            TryReceiveError::Empty => Fault::Empty,
            TryReceiveError::Closed => Fault::Closed,
        }
    }
}

impl TryReceiveError {
    ghost use Rattle.fi_channels.specs.ChannelErrors.{is_empty};
    ghost use Rattle.std.specs.Prelude.{not};

    /// Returns whether the channel was open and had no value. Keeps `TryReceiveError::is_empty`.
    pub fn is_empty(self) -> bool
        ensures { result ≡ is_empty self }
    {
        match self {
            TryReceiveError::Empty => true,
            TryReceiveError::Closed => false,
        }
    }

    /// Returns whether the channel was closed and had no value. Keeps `TryReceiveError::is_closed`.
    pub fn is_closed(self) -> bool
        ensures { result ≡ not (is_empty self) }
    {
        match self {
            TryReceiveError::Empty => false,
            TryReceiveError::Closed => true,
        }
    }
}
