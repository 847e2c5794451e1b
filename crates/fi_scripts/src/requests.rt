//! What the lines of a script ask for, by the labels that are in use.
ghost use Rattle.std.specs.Prelude.{◌≡◌, ℕ, List, Option, OnOk, IfErr, MatchOption};
ghost use Rattle.fi_scripts.specs.Asked.{Requests, Asks};
ghost use Rattle.fi_scripts.specs.InUse.{labels_of};
ghost use Rattle.fi_scripts.specs.Lines.{IsNoCall, IsBad, LabelsAfter, row_of};
ghost use Rattle.fi_scripts.specs.Spelled.{IsLabelOf};

use crate::fault::ScriptFault;
use crate::label::Label;
use crate::labelled::Labelled;
use crate::scripted::Scripted;
use crate::words::{Words, after_hold};
use fi_run::{Answer, MadeFuture, Row};

/// The futures whose labels are in use, by their labels.
pub type Labels = Labelled<MadeFuture>;

/// A call that a line asks for, with what the line says of its label.
#[derive(Drop)]
pub struct Request<C> {
    pub row: Row,
    pub label: Option<Label>,
    pub call: C,
}

impl Labelled<MadeFuture> {
    /// What a line asks a primitive of the type `P` for, and whether it holds the wakers back; `None` for a bad line. A line without a
    /// call asks for the wakers alone.
    #[inline(always)]
    pub fn read<P: Scripted>(&self, line: &[u8]) -> Option<(bool, Option<Request<P::Call>>)>
        ensures { MatchOption result (IsBad P.ScriptLines.call_of (labels_of self.now) line.now)
            (λ asked. Asks P.ScriptLines.call_of (labels_of self.now) line.now asked.0 asked.1) }
    {
        if line == b"wakes".as_slice() {
            return Some((false, None));
        }
        match after_hold(line) {
            Some(call) => Some((true, Some(self.read_call::<P>(call)?))),
            None => Some((false, Some(self.read_call::<P>(line)?))),
        }
    }

    /// The call that a line stands for.
    #[inline(always)]
    fn read_call<P: Scripted>(&self, line: &[u8]) -> Option<Request<P::Call>>
        ensures { MatchOption result (IsNoCall P.ScriptLines.call_of (labels_of self.now) line.now)
            (Requests P.ScriptLines.call_of (labels_of self.now) line.now) }
    {
        let words = Words::read(line)?;
        let row = self.row(words)?;
        let call = P::call(row)?;
        Some(Request {
            row,
            label: words.label,
            call,
        })
    }

    /// What a line of these words asks for.
    #[inline(always)]
    fn row(&self, words: Words) -> Option<Row>
        ensures { (label : Option (List ℕ)) → IsLabelOf label words.label
            → result ≡ row_of (labels_of self.now) words.verb label words.numbers }
    {
        match words.label {
            None => Some(Row::Plain(words.verb, words.numbers)),
            Some(label) => Row::labelled(words.verb, words.numbers, self.get(label)),
        }
    }

    /// Keeps the labels in use after a call that was answered so: a label is in use from the making of its future until its cancel.
    #[inline(always)]
    pub fn keep(
        &mut self,
        row: Row,
        label: Option<Label>,
        answer: &Answer<u64, u64>,
    ) -> Result<(), ScriptFault>
        ensures kept { OnOk result ((word : Option (List ℕ)) → IsLabelOf word label
            → LabelsAfter row word answer.now (labels_of self.old) (labels_of self.new)) }
        ensures fault { IfErr result (λ fault. fault ≡ ScriptFault.NoMemory) }
    {
        let Some(label) = label else {
            return Ok(());
        };
        match (row, answer) {
            (Row::Make(verb, _), Answer::Made(slot)) => {
                match self.insert(label, MadeFuture { verb, slot: *slot }) {
                    Ok(()) => Ok(()),
                    Err(refused) => Err(ScriptFault::from(refused)),
                }
            }
            (Row::Cancel(..), _) => {
                self.remove(label);
                Ok(())
            }
            _ => Ok(()),
        }
    }
}
