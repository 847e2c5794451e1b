//! Numbers of scripts.
ghost use Rattle.std.specs.Prelude.{◌≡◌, ◌≢◌, ℕ, ◌≤◌, List, Option, Some, MatchOption, option_copied};
ghost use Rattle.std.specs.Fmt.{decimal};
ghost use Rattle.fi_scripts.specs.Cuts.{IsCut};
ghost use Rattle.fi_scripts.specs.Lines.{numerals, Fit};
ghost use Rattle.fi_scripts.specs.Spelled.{IsNoNumerals};

use crate::words::after_word;
use fi_run::Numbers;

/// The numbers, one or two with a space between them, that a text spells, if it spells such.
#[inline(always)]
pub fn parse_numbers(text: &[u8]) -> Option<Numbers>
    ensures { MatchOption result (IsNoNumerals text.now)
        (λ numbers. Fit numbers × (Some text.now ≡ numerals numbers)) }
{
    let (first, rest) = first_number(text)?;
    match rest {
        None => Some(Numbers::One(first)),
        Some(second) => Some(Numbers::Two(first, parse_number(second)?)),
    }
}

/// The number whose plain decimal numeral the word is, if it is one's of 64 bits.
#[inline(always)]
pub fn parse_number(word: &[u8]) -> Option<u64>
    ensures { MatchOption result ((n : ℕ) → n ≤ u64.MAX → word.now ≢ decimal n)
        (λ n. word.now ≡ decimal n) }
{
    match first_number(word)? {
        (number, None) => Some(number),
        (_, Some(_)) => None,
    }
}

/// The number whose plain decimal numeral stands before the first space of a text, if it is one's of 64 bits, and what
/// stands behind that space, if there is one.
#[inline(always)]
pub fn first_number(text: &[u8]) -> Option<(u64, Option<&[u8]>)>
    ensures { MatchOption result ((n : ℕ) (rest : Option (List ℕ)) → n ≤ u64.MAX
        → ¬ IsCut 32 text.now (decimal n) rest)
        (λ found. IsCut 32 text.now (decimal found.0) (option_copied found.1)) }
{
    let mut number: u64 = 0;
    let mut end = 0;
    while end < text.len() && text[end].is_ascii_digit() {
        number = number
            .checked_mul(10)?
            .checked_add(u64::from(text[end] - b'0'))?;
        end += 1;
    }
    if end == 0 {
        return None;
    }
    if end > 1 && text[0] == b'0' {
        return None;
    }
    let rest = after_word(text, end)?;
    Some((number, rest))
}
