//! What a primitive has to say to be called from scripts.
ghost use Rattle.std.specs.Prelude.{Option, MatchOption, option_copied};
ghost use Rattle.fi_scripts.specs.Language.{Openings, AsksFor, AsksForNone};
ghost use Rattle.fi_scripts.specs.Openings.{only_opening};

use crate::buffer::MOST_PLACES;
use crate::fairness::fair_opening;
use crate::number::parse_numbers;
use fi_channels::{ChannelState, EventState, GivesValue, OneValueState, StateBroadcastState};
use fi_desk::PoolState;
use fi_locks::{MutexState, SemaphoreState, TimerState};
use fi_parts::buffer::RingBuf;
use fi_run::{Numbers, ScriptBuffer, ScriptGiving, ScriptLines};

/// A primitive that the first line of a script can open.
pub trait Scripted: ScriptLines + Drop {
    /// How its openings are named.
    ghost openings: { Openings Self.Opening };

    /// The opening that the words after the primitive's name ask for; `None` if they ask for none.
    fn opening(words: Option<&[u8]>) -> Option<Self::Opening>
        ensures { MatchOption result (AsksForNone openings (option_copied words.entry))
            (AsksFor openings (option_copied words.entry)) };
}

impl Scripted for EventState<u64> {
    ghost use Rattle.fi_scripts.specs.Openings.{event_openings};

    ghost openings = { event_openings };

    fn opening(words: Option<&[u8]>) -> Option<bool> {
        match words {
            Some(b"set") => Some(true),
            Some(b"reset") => Some(false),
            _ => None,
        }
    }
}

impl<G: GivesValue<u64> + ScriptGiving> Scripted for OneValueState<u64, u64, G> {
    ghost openings = { only_opening };

    fn opening(words: Option<&[u8]>) -> Option<()> {
        opening_without_words(words)
    }
}

impl Scripted for StateBroadcastState<u64, u64> {
    ghost openings = { only_opening };

    fn opening(words: Option<&[u8]>) -> Option<()> {
        opening_without_words(words)
    }
}

impl Scripted for TimerState<u64> {
    ghost openings = { only_opening };

    fn opening(words: Option<&[u8]>) -> Option<()> {
        opening_without_words(words)
    }
}

impl Scripted for MutexState<u64, u64> {
    ghost use Rattle.fi_scripts.specs.Openings.{fair_openings};

    ghost openings = { fair_openings };

    fn opening(words: Option<&[u8]>) -> Option<(u64, bool)> {
        fair_opening(words)
    }
}

impl Scripted for SemaphoreState<u64> {
    ghost use Rattle.fi_scripts.specs.Openings.{fair_openings};

    ghost openings = { fair_openings };

    fn opening(words: Option<&[u8]>) -> Option<(usize, bool)> {
        let (permits, is_fair) = fair_opening(words)?;
        Some((permits as usize, is_fair))
    }
}

impl Scripted for PoolState<u64> {
    ghost use Rattle.fi_scripts.specs.Openings.{pool_openings};

    ghost openings = { pool_openings };

    fn opening(words: Option<&[u8]>) -> Option<(usize, usize)> {
        let Numbers::Two(limit, capacity) = parse_numbers(words?)? else {
            return None;
        };
        if capacity > MOST_PLACES {
            return None;
        }
        Some((limit as usize, capacity as usize))
    }
}

impl<B: RingBuf<Item = u64> + ScriptBuffer> Scripted for ChannelState<u64, B, u64> {
    ghost use Rattle.fi_scripts.specs.Openings.{no_openings};

    ghost openings = { no_openings };

    // The words after `channel` name a buffer too, which is in this type: `Buffer::named` reads them.
    fn opening(_words: Option<&[u8]>) -> Option<usize> {
        None
    }
}

/// The opening of a primitive that has no other, after whose name no word stands.
fn opening_without_words(words: Option<&[u8]>) -> Option<()>
    ensures { MatchOption result (AsksForNone only_opening (option_copied words.entry))
        (AsksFor only_opening (option_copied words.entry)) }
{
    match words {
        None => Some(()),
        Some(_) => None,
    }
}
