//! Why lines are bad.

use fi_run::{MadeFuture, Numbers, Row, Verb};
use fi_scripts::{Label, Labels, Scripted, Words, after_hold, parse_numbers, split_at_first};
use std::fmt;

/// Why a line is bad.
#[derive(Clone, Copy, Debug, PartialEq, Eq)]
pub enum Reason {
    /// The first line names no primitive.
    UnknownPrimitive,
    /// The first line names a primitive, and no opening of it.
    UnknownOpening,
    EmptyLine,
    /// A space stands at either end, or beside another.
    Spaces,
    UnknownVerb,
    /// The verb is one of other primitives.
    OtherPrimitive,
    LabelMissing,
    /// What stands where a label may stand is none.
    NotALabel,
    /// The call takes no label.
    LabelTooMany,
    LabelInUse,
    LabelNotInUse,
    NumberMissing,
    TooManyNumbers,
    NotANumber,
}

impl fmt::Display for Reason {
    fn fmt<W: fmt::Write>(&self, f: &mut fmt::Formatter<W>) -> fmt::Result {
        f.pad(match self {
            Reason::UnknownPrimitive => "unknown primitive",
            Reason::UnknownOpening => "no opening of this primitive",
            Reason::EmptyLine => "empty line",
            Reason::Spaces => "words not apart by single spaces",
            Reason::UnknownVerb => "unknown verb",
            Reason::OtherPrimitive => "call of another primitive",
            Reason::LabelMissing => "label missing",
            Reason::NotALabel => "not a label",
            Reason::LabelTooMany => "takes no label",
            Reason::LabelInUse => "label in use",
            Reason::LabelNotInUse => "label not in use",
            Reason::NumberMissing => "number missing",
            Reason::TooManyNumbers => "too many numbers",
            Reason::NotANumber => "not a plain number",
        })
    }
}

/// Why a line behind the first is none of a primitive of the type `P`, whose futures have these labels. (Of a line that is one, what it
/// answers says nothing.)
pub fn reason_of<P: Scripted>(labels: &Labels, line: &[u8]) -> Reason {
    if line.is_empty() {
        return Reason::EmptyLine;
    }
    if line.split(|byte| *byte == b' ').any(|word| word.is_empty()) {
        return Reason::Spaces;
    }
    let call = after_hold(line).unwrap_or(line);
    let (word, rest) = split_at_first(call, b' ');
    let Some(verb) = Verb::by(word) else {
        return Reason::UnknownVerb;
    };
    if !is_verb_of::<P>(verb) {
        return Reason::OtherPrimitive;
    }
    match Words::read(call) {
        Some(words) => reason_of_words::<P>(labels, words),
        None => reason_of_text(rest.unwrap_or(call)),
    }
}

// Whether a call of the primitive has this verb.
fn is_verb_of<P: Scripted>(verb: Verb) -> bool {
    matches!(verb, Verb::Poll | Verb::Cancel)
        || plain_count::<P>(verb).is_some()
        || labelled_count::<P>(verb, None).is_some()
}

// Why a line is none whose words can be read, and whose verb is one of the primitive.
fn reason_of_words<P: Scripted>(labels: &Labels, words: Words) -> Reason {
    let count = count_of(words.numbers);
    let Some(label) = words.label else {
        return match plain_count::<P>(words.verb) {
            Some(wanted) => reason_of_count(count, wanted),
            None => Reason::LabelMissing,
        };
    };
    let future = labels.get(label);
    match (future, words.verb) {
        (None, Verb::Poll | Verb::Cancel) => return Reason::LabelNotInUse,
        (None, _) | (Some(_), Verb::Poll | Verb::Cancel) => {}
        (Some(_), _) => {
            return match labelled_count::<P>(words.verb, None) {
                Some(_) => Reason::LabelInUse,
                None => Reason::LabelTooMany,
            };
        }
    }
    match labelled_count::<P>(words.verb, future) {
        Some(wanted) => reason_of_count(count, wanted),
        None => Reason::LabelTooMany,
    }
}

// Why a line is none that has so many numbers where these are wanted.
fn reason_of_count(count: usize, wanted: usize) -> Reason {
    if count < wanted {
        Reason::NumberMissing
    } else {
        Reason::TooManyNumbers
    }
}

// Why what stands behind a verb is neither a label with numbers behind it nor numbers.
fn reason_of_text(text: &[u8]) -> Reason {
    let numerals = match Label::first(text) {
        Some((_, Some(numerals))) => numerals,
        Some((_, None)) | None => text,
    };
    let (first, rest) = split_at_first(numerals, b' ');
    let (second, third) = split_at_first(rest.unwrap_or(first), b' ');
    if third.is_some() && parse_numbers(first).is_some() && parse_numbers(second).is_some() {
        return Reason::TooManyNumbers;
    }
    match numerals.first() {
        Some(byte) if byte.is_ascii_digit() => Reason::NotANumber,
        _ => Reason::NotALabel,
    }
}

fn count_of(numbers: Numbers) -> usize {
    match numbers {
        Numbers::Absent => 0,
        Numbers::One(_) => 1,
        Numbers::Two(_, _) => 2,
    }
}

// How many numbers the primitive's call of this verb without a label takes; None if there is no such call.
fn plain_count<P: Scripted>(verb: Verb) -> Option<usize> {
    for numbers in [Numbers::Absent, Numbers::One(0), Numbers::Two(0, 0)] {
        if P::call(Row::Plain(verb, numbers)).is_some() {
            return Some(count_of(numbers));
        }
    }
    None
}

// The same of the call with a label that isn't in use, or that stands for this future.
fn labelled_count<P: Scripted>(verb: Verb, future: Option<MadeFuture>) -> Option<usize> {
    for numbers in [Numbers::Absent, Numbers::One(0), Numbers::Two(0, 0)] {
        let call = match Row::labelled(verb, numbers, future) {
            Some(row) => P::call(row),
            None => None,
        };
        if call.is_some() {
            return Some(count_of(numbers));
        }
    }
    None
}
