//! The values of a channel as an iterator that blocks.
ghost use Rattle.std.specs.Prelude.{◌≡◌};

use crate::channel_ends::GenericReceiver;
use fi_parts::Fault;
use fi_parts::buffer::RingBuf;
use fi_sync::Blocking;
use std::marker::Model;

/// The values of a channel, one after another, until it is closed and empty; each `next` blocks its thread until one comes.
///
/// It borrows its receiver. `GenericReceiver::blocking_iter` makes it. It also ends after `u64::MAX` items, which no run reaches. The
/// Rust crate has none.
///
/// # Examples
///
/// ```
/// use futures_intrusive::Fault;
/// use futures_intrusive::blocking::Blocking;
/// use futures_intrusive::channel::shared::Receiver;
///
/// fn add_up<R: Blocking + Drop>(numbers: &Receiver<u64, R>) -> Result<u64, Fault> {
///     let mut sum = 0u64;
///     for number in numbers.blocking_iter() {
///         sum = sum.wrapping_add(number?);
///     }
///     Ok(sum)
/// }
/// ```
#[derive(Drop)]
pub struct BlockingIter<'a, T: Drop, B: RingBuf<Item = T>, R: Blocking + Drop> {
    receiver: &'a GenericReceiver<T, B, R>,
    // How many items are left at most: a loop is to end, and no run uses these up.
    left: u64,
}

impl<'a, T: Drop, B: RingBuf<Item = T>, R: Blocking + Drop> Model for BlockingIter<'a, T, B, R> {
    ghost use Rattle.futures_intrusive.specs.Readers.{Values};

    ghost Value = { Values };

    ghost view = { λ values. record { source = values.receiver.now; left = values.left } };
}

impl<T: Drop, B: RingBuf<Item = T>, R: Blocking + Drop> GenericReceiver<T, B, R> {
    /// An iterator over the values, which ends once the channel is closed and empty. Takes constant time, no memory and no lock.
    pub fn blocking_iter(&self) -> BlockingIter<'_, T, B, R>
        ensures { result ≡ record { source = self.now; left = u64.MAX } }
    {
        BlockingIter {
            receiver: self,
            left: u64::MAX,
        }
    }
}

impl<'a, T: Drop, B: RingBuf<Item = T>, R: Blocking + Drop> Iterator for BlockingIter<'a, T, B, R> {
    ghost use Rattle.std.specs.Iterator.{at_most};
    ghost use Rattle.std.specs.Option.{option_transpose};
    ghost use Rattle.std.specs.Prelude.{◌≡◌, ◌⊎◌, None};
    ghost use Rattle.fi_sync.specs.Received.{PollsReceive, ReceivesAtOnce};
    ghost use Rattle.fi_sync.specs.Waiting.{WaitedFor};

    type Item = Result<T, Fault>;

    ghost next_gives = { λ old given _. ((old.left ≡ 0) × (given ≡ None))
        ⊎ WaitedFor ReceivesAtOnce PollsReceive (option_transpose given) };

    ghost remaining = { λ values. at_most values.left };

    /// Blocks this thread as `GenericReceiver::receive_blocking` does: a value, or None once the channel is closed and empty. An item
    /// is `Err(NoMemory)` where that call is refused so; the values go on after it.
    fn next(&mut self) -> Option<Result<T, Fault>> {
        if self.left == 0 {
            return None;
        }
        self.left -= 1;
        match self.receiver.receive_blocking() {
            Ok(Some(value)) => Some(Ok(value)),
            Ok(None) => None,
            Err(fault) => Some(Err(fault)),
        }
    }
}
