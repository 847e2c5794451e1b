//! How a channel of one value gives it.
ghost use Rattle.std.specs.Prelude.{◌≡◌, Option, Some, None, IfOk, IfErr, OnErr};
ghost use Rattle.fi_channels.specs.Oneshot.{Giving, GivesFrom, MayLackFor};

use crate::oneshot::content::Content;
use fi_parts::Fault;
use fi_parts::memory::clone_of;
use std::mem;

/// How a full channel of one value gives it to a receive: `TakesValue` or `ClonesValue`.
pub trait GivesValue<T> {
    /// Whether the channel keeps its value, what a receive is given of it, and when memory for that may be refused.
    ghost giving: { Giving T };

    /// Gives the value of a full channel; any other gives nothing. Refused only with `NoMemory`; then nothing has changed.
    fn give(content: &mut Content<T>) -> Result<Option<T>, Fault>
        ensures given { IfOk result (λ given. GivesFrom giving content.old given content.new) }
        ensures lacks { OnErr result (MayLackFor giving content.old) }
        ensures same { OnErr result (content.new ≡ content.old) }
        ensures fault { IfErr result (λ fault. fault ≡ Fault.NoMemory) };
}

/// The first receive that comes takes the value, and the channel is spent.
#[derive(Debug)]
pub struct TakesValue;

/// Each receive gets a clone of the value, and the channel keeps it.
#[derive(Debug)]
pub struct ClonesValue;

impl<T: Drop> GivesValue<T> for TakesValue {
    ghost use Rattle.fi_channels.specs.Oneshot.{taking};

    ghost giving = { taking };

    fn give(content: &mut Content<T>) -> Result<Option<T>, Fault> {
        if let Content::Empty = content {
            return Ok(None);
        }
        match mem::replace(content, Content::Spent) {
            Content::Full(value) => Ok(Some(value)),
            Content::Empty | Content::Spent => Ok(None),
        }
    }
}

impl<T: Clone> GivesValue<T> for ClonesValue {
    ghost use Rattle.fi_channels.specs.Oneshot.{cloning};

    ghost giving = { cloning T.is_clone T.is_infallible };

    fn give(content: &mut Content<T>) -> Result<Option<T>, Fault> {
        let value = match &*content {
            Content::Full(value) => value,
            Content::Empty | Content::Spent => return Ok(None),
        };
        match clone_of(value) {
            Ok(copy) => Ok(Some(copy)),
            Err(refused) => Err(Fault::from(refused)),
        }
    }
}
