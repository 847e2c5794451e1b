//! The buffers of channels that scripts name.
ghost use Rattle.std.specs.Prelude.{◌≡◌, ◌≢◌, ◌≤◌, ℕ, MatchOption, option_copied};
ghost use Rattle.std.specs.Fmt.{decimal};
ghost use Rattle.fi_scripts.specs.Channels.{capacity_of};
ghost use Rattle.fi_scripts.specs.Language.{AsksFor, AsksForNone};
ghost use Rattle.fi_scripts.specs.Openings.{buffer_text, channel_openings, IsNameable};
ghost use Rattle.fi_scripts.specs.declared.buffer.Buffer.TheVariants as buffers;

use crate::number::parse_number;
use crate::words::split_at_first;

/// The greatest capacity of a heap buffer.
pub const MOST_PLACES: u64 = 65536;

/// A channel's buffer: the arrays that scripts name, and the two heap buffers with their capacity.
#[derive(Clone, Copy, Debug, PartialEq, Eq)]
pub enum Buffer {
    Array0,
    Array1,
    Array2,
    Array5,
    Fixed(usize),
    Growing(usize),
}

impl Buffer {
    /// The buffer that the words after `channel` name, if they name one.
    pub fn named(words: Option<&[u8]>) -> Option<Buffer>
        ensures { MatchOption result (AsksForNone channel_openings (option_copied words.entry))
            (AsksFor channel_openings (option_copied words.entry)) }
    {
        let words = words?;
        if words == b"array 0".as_slice() {
            Some(Buffer::Array0)
        } else if words == b"array 1".as_slice() {
            Some(Buffer::Array1)
        } else if words == b"array 2".as_slice() {
            Some(Buffer::Array2)
        } else if words == b"array 5".as_slice() {
            Some(Buffer::Array5)
        } else {
            Buffer::heap(words)
        }
    }

    /// The heap buffer that words name, if they name one.
    fn heap(words: &[u8]) -> Option<Buffer>
        ensures { MatchOption result ((capacity : ℕ) → capacity ≤ 65536
            → (words.now ≢ buffer_text (buffers.Fixed capacity))
            × (words.now ≢ buffer_text (buffers.Growing capacity)))
            (λ buffer. IsNameable buffer × (words.now ≡ buffer_text buffer)) }
    {
        let (word, number) = split_at_first(words, b' ');
        let capacity = heap_capacity(number?)?;
        if word == b"fixed".as_slice() {
            Some(Buffer::Fixed(capacity))
        } else if word == b"growing".as_slice() {
            Some(Buffer::Growing(capacity))
        } else {
            None
        }
    }

    /// How many values it holds.
    pub fn capacity(self) -> usize
        ensures { result ≡ capacity_of self }
    {
        match self {
            Buffer::Array0 => 0,
            Buffer::Array1 => 1,
            Buffer::Array2 => 2,
            Buffer::Array5 => 5,
            Buffer::Fixed(capacity) | Buffer::Growing(capacity) => capacity,
        }
    }
}

/// The capacity of a heap buffer whose plain decimal numeral the word is, if it is one's.
fn heap_capacity(word: &[u8]) -> Option<usize>
    ensures { MatchOption result ((n : ℕ) → n ≤ 65536 → word.now ≢ decimal n)
        (λ n. (n ≤ 65536) × (word.now ≡ decimal n)) }
{
    let number = parse_number(word)?;
    if number > MOST_PLACES {
        return None;
    }
    Some(number as usize)
}
