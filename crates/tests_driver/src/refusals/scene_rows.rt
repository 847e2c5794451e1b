//! Scenes as text.
use super::played::tries_on_both;
use super::scene::{Plain, Refusal, Tried, tries_of};
use crate::Flavour;
use fi_run::Primitive;
use fi_scripts::Scripted;
use std::alloc::{AllocGlobal, Global};
use std::random::RandomSource;
use std::sync::Wait;
use tests_help::hoard::Hoard;
use tests_rows::calls::Reader;

/// The lines of a scene, apart by `; `. Behind the call that may be refused stands ` -> no-memory`, of a send or a submit with its value.
///
/// The first four futures of a primitive lie in one chunk of memory, so the fifth is the first of which the making asks for more.
pub type SceneRow = &'static str;

/// The calls of a row.
#[derive(Drop)]
struct Lines<P: Primitive> {
    before: Vec<P::Call>,
    call: P::Call,
    refusal: Refusal,
    after: Vec<P::Call>,
}

impl<P: Scripted> Lines<P>
where
    P::Opening: Copy,
    P::Call: Copy,
{
    fn read(alloc: Global, opening: P::Opening, row: &str) -> Option<Self> {
        let mut reader = Reader::<P>::open(alloc, opening)?;
        let (upto, rest) = row.split_once(" -> no-memory")?;
        let (value, after) = rest.split_once("; ")?;
        let (before, call) = upto.rsplit_once("; ")?;
        Some(Lines {
            before: reader.calls(before)?,
            call: reader.call(call)?,
            refusal: refusal(value)?,
            after: reader.calls(after)?,
        })
    }

    fn scene(&self, opening: P::Opening) -> Plain<'_, P> {
        Plain {
            opening,
            before: self.before.as_slice(),
            call: self.call,
            refusal: self.refusal,
            after: self.after.as_slice(),
        }
    }
}

// The refusal that gives this value back, behind a space; without one, that of a call that has no value.
fn refusal(value: &str) -> Option<Refusal> {
    if value.is_empty() {
        return Some(Refusal::Refused);
    }
    Some(Refusal::Back(value.trim_start().parse().ok()?))
}

/// What tries of the calls of these rows come to, on the plain state and on a type.
pub fn tries_of_rows<R, P, F>(
    rt: &R,
    hoard: &mut Hoard,
    flavour: &F,
    opening: P::Opening,
    rows: &[SceneRow],
) -> Tried
where
    R: Wait + RandomSource + AllocGlobal,
    P: Scripted,
    P::Opening: Copy,
    P::Call: Copy,
    F: Flavour<R, Call = P::Call>,
{
    let mut tried = Tried::Refused(1);
    for row in rows {
        let Some(lines) = Lines::<P>::read(rt.alloc(), opening, row) else {
            return Tried::Differs(0);
        };
        tried = tried.and(tries_on_both(rt, hoard, flavour, &lines.scene(opening)));
    }
    tried
}

/// The same on the plain state alone.
pub fn plain_tries_of_rows<P>(
    alloc: Global,
    hoard: &mut Hoard,
    opening: P::Opening,
    rows: &[SceneRow],
) -> Tried
where
    P: Scripted,
    P::Opening: Copy,
    P::Call: Copy,
{
    let mut tried = Tried::Refused(1);
    for row in rows {
        let Some(lines) = Lines::<P>::read(alloc, opening, row) else {
            return Tried::Differs(0);
        };
        tried = tried.and(tries_of(alloc, hoard, &lines.scene(opening)));
    }
    tried
}
