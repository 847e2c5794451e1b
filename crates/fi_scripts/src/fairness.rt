//! Openings of primitives that are fair or not.
ghost use Rattle.std.specs.Prelude.{◌≡◌, ◌≢◌, Bool, MatchOption, option_copied};
ghost use Rattle.fi_scripts.specs.Language.{AsksFor, AsksForNone};
ghost use Rattle.fi_scripts.specs.Openings.{fairness_text, fair_openings};

use crate::number::parse_number;
use crate::words::split_at_first;

/// Whether a word is `fair` or `unfair`; `None` if it is neither.
fn fairness(word: &[u8]) -> Option<bool>
    ensures { MatchOption result ((is_fair : Bool) → word.now ≢ fairness_text is_fair)
        (λ is_fair. word.now ≡ fairness_text is_fair) }
{
    match word {
        b"fair" => Some(true),
        b"unfair" => Some(false),
        _ => None,
    }
}

/// The number behind the word `fair` or `unfair`, and whether it is `fair`; `None` if the words are none of that form.
pub fn fair_opening(words: Option<&[u8]>) -> Option<(u64, bool)>
    ensures { MatchOption result (AsksForNone fair_openings (option_copied words.entry))
        (AsksFor fair_openings (option_copied words.entry)) }
{
    let words = words?;
    let (word, number) = split_at_first(words, b' ');
    let is_fair = fairness(word)?;
    let value = parse_number(number?)?;
    Some((value, is_fair))
}
