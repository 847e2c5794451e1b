//! Lines and their words.
ghost use Rattle.std.specs.Prelude.{◌≡◌, ◌≢◌, ◌<◌, ℕ, List, Some, MatchOption, codes, length, option_copied, slice_index, take};
ghost use Rattle.fi_scripts.specs.Cuts.{IsCut, NextLine};
ghost use Rattle.fi_scripts.specs.Lines.{joined};
ghost use Rattle.fi_scripts.specs.Spelled.{IsSpelled, IsNotSpelled};

use crate::label::Label;
use crate::number::parse_numbers;
use fi_run::{Numbers, Verb};
use memchr::memchr;

/// What stands before the first separator, and what stands after it, if there is one.
#[inline(always)]
pub fn split_at_first(bytes: &[u8], separator: u8) -> (&[u8], Option<&[u8]>)
    ensures { IsCut separator bytes.now result.0.now (option_copied result.1) }
{
    match memchr(separator, bytes) {
        Some(at) => (&bytes[..at], Some(&bytes[at + 1..])),
        None => (bytes, None),
    }
}

/// What follows the word that a text begins with, if that word ends at this place: nothing where the text ends there, else
/// what stands behind a space.
#[inline(always)]
pub fn after_word(text: &[u8], end: usize) -> Option<Option<&[u8]>>
    ensures { MatchOption result ((end < length text.now) × (slice_index text.now end ≢ 32))
        (λ rest. text.now ≡ joined (take end text.now) (option_copied rest)) }
{
    if end >= text.len() {
        return Some(None);
    }
    if text[end] != b' ' {
        return None;
    }
    Some(Some(&text[end + 1..]))
}

/// What follows `hold` in a line that holds its wakers back.
pub fn after_hold(line: &[u8]) -> Option<&[u8]>
    ensures { MatchOption result ((call : List ℕ) → line.now ≢ joined (codes "hold") (Some call))
        (λ call. line.now ≡ joined (codes "hold") (Some call.now)) }
{
    line.strip_prefix(b"hold ".as_slice())
}

/// The lines of a script that were not read yet.
#[derive(Drop)]
pub struct Lines<'a> {
    rest: Option<&'a [u8]>,
}

impl<'a> Lines<'a> {
    /// The lines after a line's end, if it has one.
    pub fn after(rest: Option<&'a [u8]>) -> Self
        ensures { result.rest ≡ rest.entry }
    {
        Lines { rest }
    }

    /// How many bytes are left.
    pub fn len(&self) -> usize {
        match self.rest {
            Some(rest) => rest.len(),
            None => 0,
        }
    }

    /// The next line. A line feed at the very end ends the last line.
    #[inline(always)]
    pub fn line(&mut self) -> Option<&'a [u8]>
        ensures { NextLine (option_copied self.old.rest) (option_copied result)
            (option_copied self.new.rest) }
    {
        let rest = self.rest?;
        if rest.is_empty() {
            return None;
        }
        let (line, after) = split_at_first(rest, b'\n');
        self.rest = after;
        Some(line)
    }
}

/// The words of a line of calls.
#[derive(Clone, Copy, Debug)]
pub struct Words {
    pub verb: Verb,
    pub label: Option<Label>,
    pub numbers: Numbers,
}

impl Words {
    /// Reads a verb, then a label if there is one, then at most two numbers. Words are parted by single spaces.
    #[inline(always)]
    pub fn read(line: &[u8]) -> Option<Words>
        ensures { MatchOption result (IsNotSpelled line.now) (IsSpelled line.now) }
    {
        let (word, rest) = split_at_first(line, b' ');
        let verb = Verb::by(word)?;
        let Some(rest) = rest else {
            return Some(Words {
                verb,
                label: None,
                numbers: Numbers::Absent,
            });
        };
        let Some((label, after)) = Label::first(rest) else {
            return Some(Words {
                verb,
                label: None,
                numbers: parse_numbers(rest)?,
            });
        };
        let Some(numerals) = after else {
            return Some(Words {
                verb,
                label: Some(label),
                numbers: Numbers::Absent,
            });
        };
        Some(Words {
            verb,
            label: Some(label),
            numbers: parse_numbers(numerals)?,
        })
    }
}
