//! Labels of futures.
ghost use Rattle.std.specs.Prelude.{◌≡◌, ◌<◌, ◌≤◌, ◌↔◌, ◌/◌, ◌%◌, ◌^◌, ℕ, List, Option, IfSome, IsTrue, MatchOption, option_copied};
ghost use Rattle.fi_scripts.specs.Cuts.{IsCut};
ghost use Rattle.fi_scripts.specs.Labels.{IsLabel, IsLetterOrDigit, code_of};
ghost use Rattle.fi_scripts.specs.Spelled.{LabelBegins};

use crate::words::after_word;

/// The most characters that a label has.
const LONGEST: usize = 16;

/// A future's label: 1 to 16 of `a` to `z` and `0` to `9`, the first a letter.
#[derive(Clone, Copy, Debug, PartialEq, Eq, PartialOrd, Ord)]
pub struct Label {
    /// The characters as a number's bytes, the first the most significant.
    code: u128,
}

impl Label {
    /// The label before the first space of a text, if a label stands there, and what stands behind that space, if there is one.
    #[inline(always)]
    pub fn first(text: &[u8]) -> Option<(Label, Option<&[u8]>)>
        ensures label { MatchOption result ((word : List ℕ) (rest : Option (List ℕ))
            → IsCut 32 text.now word rest → ¬ IsLabel word)
            (λ found. LabelBegins text.now found.0.code (option_copied found.1)) }
        // No other word spells it.
        ensures one_word { IfSome result (λ found. (word other : List ℕ) → IsLabel word
            → IsLabel other → code_of word ≡ found.0.code → code_of other ≡ found.0.code
            → other ≡ word) }
    {
        let first = text.first()?;
        if !first.is_ascii_lowercase() {
            return None;
        }
        let most = text.len().min(LONGEST);
        let mut code = u128::from(*first);
        let mut end = 1;
        while end < most && is_letter_or_digit(text[end]) {
            code = code * 256 + u128::from(text[end]);
            end += 1;
        }
        let rest = after_word(text, end)?;
        Some((Label { code }, rest))
    }

    /// The number whose bytes are its characters.
    pub fn code(self) -> u128
        ensures { result ≡ self.code }
    {
        self.code
    }

    /// The same in 64 bits, if the characters are eight at most.
    pub fn short_code(self) -> Option<u64>
        ensures { MatchOption result (2 ^ 64 ≤ self.code)
            (λ code. (code ≡ self.code) × (code < 2 ^ 64)) }
    {
        if self.code < 1 << 64 {
            Some(self.code as u64)
        } else {
            None
        }
    }

    /// What stands before the last character, as a number whose bytes are the last eight of these characters.
    pub fn front(self) -> u64
        ensures { result ≡ self.code / 256 % 2 ^ 64 }
    {
        (self.code / 256 % (1 << 64)) as u64
    }
}

/// Whether a label may have this character.
#[inline(always)]
fn is_letter_or_digit(byte: u8) -> bool
    ensures { IsTrue result ↔ IsLetterOrDigit byte }
{
    byte.is_ascii_lowercase() || byte.is_ascii_digit()
}
