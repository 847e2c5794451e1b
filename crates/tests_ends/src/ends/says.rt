//! What ends say of their channel.

use fi_channels::TrySendError;
use fi_parts::buffer::GrowingHeapBuf;
use std::alloc::AllocGlobal;
use std::sync::Wait;
use tests_ends_calls::many::{Sender, channel, unbuffered_channel};
use tests_ends_calls::{Made, TriesToReceive, TriesToSend};

/// What is said of a channel.
#[derive(Clone, Copy, PartialEq, Eq)]
struct Said {
    len: usize,
    capacity: usize,
    is_closed: bool,
    is_empty: bool,
    is_full: bool,
}

impl Said {
    // What should be said of a channel that has so many values, and room for so many.
    fn of(len: usize, capacity: usize, is_closed: bool) -> Self {
        Said {
            len,
            capacity,
            is_closed,
            is_empty: len == 0,
            is_full: len == capacity,
        }
    }
}

/// An end that is asked about its channel. Both ends have the same functions for it, so only a sender is asked.
trait Says {
    fn said(&self) -> Said;
}

impl<R: Wait + Drop> Says for Sender<u64, GrowingHeapBuf<u64>, R> {
    fn said(&self) -> Said {
        Said {
            len: self.end.len(),
            capacity: self.end.capacity(),
            is_closed: self.end.is_closed(),
            is_empty: self.end.is_empty(),
            is_full: self.end.is_full(),
        }
    }
}

// Of two places, as values come and go, and after a close.
fn says_how_it_is<S, E>(ends: Made<S, E>) -> Option<bool>
where
    S: TriesToSend<u64> + Says,
    E: TriesToReceive<u64>,
{
    let (sender, receiver) = ends.ok()?;
    let is_empty = sender.said() == Said::of(0, 2, false);
    let has_one = sender.try_send(1).is_ok() && sender.said() == Said::of(1, 2, false);
    let is_full = sender.try_send(2).is_ok() && sender.said() == Said::of(2, 2, false);
    let has_room = receiver.try_receive() == Ok(1) && sender.said() == Said::of(1, 2, false);
    let is_closed = sender.close().is_newly_closed() && sender.said() == Said::of(1, 2, true);
    Some(is_empty && has_one && is_full && has_room && is_closed)
}

#[test]
fn ends_say_what_the_channel_says(rt: HostRuntime) {
    let ends = channel::<u64, HostRuntime>(rt.alloc(), rt, 2);
    assert!(rt; says_how_it_is(ends) == Some(true));
}

fn has_no_room<S: TriesToSend<u64> + Says, E: Drop>(ends: Made<S, E>) -> Option<bool> {
    let (sender, _receiver) = ends.ok()?;
    let is_of_none = sender.said() == Said::of(0, 0, false);
    Some(is_of_none && sender.try_send(1) == Err(TrySendError::Full(1)))
}

#[test]
fn an_unbuffered_channel_has_no_room(rt: HostRuntime) {
    let ends = unbuffered_channel::<u64, HostRuntime>(rt.alloc(), rt);
    assert!(rt; has_no_room(ends) == Some(true));
}
