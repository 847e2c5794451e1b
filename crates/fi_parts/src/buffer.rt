//! Bounded buffers, first in first out.
ghost use Rattle.std.specs.Prelude.{◌≡◌, ℕ, ◌<◌, ◌≤◌, ◌==◌, ◌∷◌, length, nat_lt, IfErr, IfOk, OnOk};
ghost use Rattle.fi_parts.specs.Buffer.{Bounded, Fits, empty, pushed, popped};

use crate::errors::NoRoom;
use crate::memory::Refused;
use std::alloc::Global;

mod array;
mod block;
mod fixed;
mod growing;
mod ring;

pub use array::ArrayBuf;
pub use fixed::FixedHeapBuf;
pub use growing::GrowingHeapBuf;

/// A buffer of at most `capacity` items, which gives back the oldest first.
///
/// Keeps `RingBuf` of futures-intrusive. Here a buffer also has a `reserved` room, which is the number of items that fit
/// the memory it has taken: `len <= reserved <= capacity` in every buffer. Only a `push` at `len == reserved` takes memory,
/// so only such a push can be refused. The capacity never changes, and what is reserved never falls.
///
/// A caller learns of a buffer what `bounded` says of it: its items, oldest first, its capacity and what is reserved.
///
/// # Examples
///
/// ```
/// use futures_intrusive::NoRoom;
/// use futures_intrusive::buffer::RingBuf;
///
/// fn refill<B: RingBuf>(buffer: &mut B, item: B::Item) -> Result<Option<B::Item>, NoRoom<B::Item>>
/// // ..
///     if buffer.is_empty() {
///         buffer.push(item)?;
///         return Ok(None);
///     }
///     let oldest = buffer.pop();
/// ```
pub trait RingBuf: Drop {
    /// What is buffered.
    type Item: Drop;

    /// What a clause sees of a buffer.
    ghost bounded: { Self → Bounded Self.Item };

    /// The capacity of a buffer that was made for so many items.
    ghost capacity_for: { ℕ → ℕ };

    /// How many items fit the memory that such a buffer has taken by then.
    ghost reserved_for: { ℕ → ℕ };

    /// Returns an empty buffer, which has taken no memory. Its capacity is that of `with_capacity(alloc, 0)`.
    ///
    /// Keeps `RingBuf::new`.
    fn new(alloc: Global) -> Self
        ensures { bounded result ≡ empty (capacity_for 0) 0 };

    /// Returns an empty buffer for `capacity` items. An implementation may ignore the number and use a capacity of its own.
    ///
    /// Keeps `RingBuf::with_capacity`. An error says that a request for its memory was refused.
    fn with_capacity(alloc: Global, capacity: usize) -> Result<Self, Refused>
        ensures ok { IfOk result (λ made. bounded made ≡ empty (capacity_for capacity) (bounded made).reserved) }
        ensures reserved { IfOk result (λ made. (bounded made).reserved ≡ reserved_for capacity) }
        ensures fits { IfOk result (λ made. Fits (bounded made)) };

    /// Returns the most items that the buffer can hold.
    ///
    /// Keeps `RingBuf::capacity`.
    fn capacity(&self) -> usize
        ensures capacity { result ≡ (bounded self.now).capacity }
        ensures fits { Fits (bounded self.now) };

    /// Returns the number of items that fit the memory which the buffer has.
    fn reserved(&self) -> usize
        ensures reserved { result ≡ (bounded self.now).reserved }
        ensures fits { Fits (bounded self.now) };

    /// Returns the number of items in the buffer.
    ///
    /// Keeps `RingBuf::len`.
    fn len(&self) -> usize
        ensures len { result ≡ length (bounded self.now).items }
        ensures fits { Fits (bounded self.now) };

    /// Returns whether the buffer holds no item.
    ///
    /// Keeps `RingBuf::is_empty`.
    fn is_empty(&self) -> bool
        ensures empty { result ≡ (length (bounded self.now).items == 0) }
        ensures fits { Fits (bounded self.now) };

    /// Returns whether one more item can be pushed: whether `len` is not `capacity`.
    ///
    /// Keeps `RingBuf::can_push`.
    fn can_push(&self) -> bool
        ensures room { result ≡ nat_lt (length (bounded self.now).items) (bounded self.now).capacity }
        ensures fits { Fits (bounded self.now) };

    /// Puts the item behind the others. The caller asks `can_push` first.
    ///
    /// Keeps `RingBuf::push`. Where `len == reserved` the buffer needs more memory: if it gets none, nothing changes
    /// and the item is handed back.
    fn push(&mut self, item: Self::Item) -> Result<(), NoRoom<Self::Item>>
        requires { length (bounded self.old).items < (bounded self.old).capacity }
        ensures ok { OnOk result (bounded self.new ≡ pushed (bounded self.old) item (bounded self.new).reserved) }
        ensures err { IfErr result (λ back. (back.0 ≡ item) × (bounded self.new ≡ bounded self.old)
            × (length (bounded self.old).items ≡ (bounded self.old).reserved)) }
        ensures grows { (bounded self.old).reserved ≤ (bounded self.new).reserved }
        ensures stays { length (bounded self.old).items < (bounded self.old).reserved → (bounded self.new).reserved
            ≡ (bounded self.old).reserved }
        ensures fits { Fits (bounded self.new) };

    /// Takes out the oldest item. The caller asks `is_empty` first.
    ///
    /// Keeps `RingBuf::pop`.
    fn pop(&mut self) -> Self::Item
        requires { 0 < length (bounded self.old).items }
        ensures item { (bounded self.old).items ≡ result ∷ (bounded self.new).items }
        ensures left { bounded self.new ≡ popped (bounded self.old) (bounded self.new).items }
        ensures fits { Fits (bounded self.new) };

    /// Takes the whole buffer out, with its items and its memory. An empty one of the same capacity is left, which has no memory.
    ///
    /// So the caller chooses when the items are dropped. It takes no memory, and its cost does not depend on the number of items.
    fn take(&mut self) -> Self
        ensures taken { bounded result ≡ bounded self.old }
        ensures left { bounded self.new ≡ empty (bounded self.old).capacity 0 };
}
