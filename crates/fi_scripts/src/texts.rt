//! The texts of answers.
ghost use Rattle.std.specs.Prelude.{◌≡◌, Some, None, Err, OnOk, IfErr, codes};
ghost use Rattle.fi_scripts.specs.Outputs.{GoesOn, Collects};
ghost use Rattle.fi_scripts.specs.Texts.{answer_text, fault_text, waker_text, with_number};

use crate::fault::ScriptFault;
use crate::output::Output;
use fi_parts::Fault;
use fi_run::Answer;
use std::io::Write;

/// Writes an answer's text.
pub fn write_answer<W: Write>(
    answer: &Answer<u64, u64>,
    output: &mut Output<'_, W>,
) -> Result<(), ScriptFault>
    ensures text { OnOk result (GoesOn W.contents output.old output.new (answer_text answer.now)) }
    ensures memory { answer_text answer.now ≡ None → result ≡ Err ScriptFault.NoMemory }
    ensures collects { Collects output.old output.new }
    ensures fault { IfErr result (λ fault. fault ≡ ScriptFault.NoMemory) }
{
    match answer {
        Answer::Made(_) => output.put(b"made"),
        Answer::Pending => output.put(b"pending"),
        Answer::Ready => output.put(b"ready"),
        Answer::Item(value) => put_some(*value, output),
        Answer::State(id, value) => {
            put_some(id.value(), output)?;
            output.put(b" ")?;
            output.put_number(*value)
        }
        Answer::Nothing => output.put(b"none"),
        Answer::End => output.put(b"end"),
        Answer::Done | Answer::Woken(_) => output.put(b"ok"),
        Answer::Flag(true) => output.put(b"true"),
        Answer::Flag(false) => output.put(b"false"),
        Answer::Number(number) => output.put_number(*number as u64),
        Answer::Moment(Some(moment)) => put_some(*moment, output),
        Answer::Moment(None) => output.put(b"none"),
        Answer::Newly => output.put(b"newly-closed"),
        Answer::Already => output.put(b"already-closed"),
        Answer::Back(value, fault) => put_back(*value, *fault, output),
        Answer::Refused(fault) => put_fault(*fault, output),
    }
}

/// Writes a waker that is named, the first after the word for them.
pub fn put_waker<W: Write>(
    waker: u64,
    is_first: bool,
    output: &mut Output<'_, W>,
) -> Result<(), ScriptFault>
    ensures text { OnOk result (GoesOn W.contents output.old output.new
        (Some (waker_text is_first waker))) }
    ensures collects { Collects output.old output.new }
    ensures fault { IfErr result (λ fault. fault ≡ ScriptFault.NoMemory) }
{
    output.put(if is_first { b" wakes " } else { b" " })?;
    output.put_number(waker)
}

fn put_some<W: Write>(number: u64, output: &mut Output<'_, W>) -> Result<(), ScriptFault>
    ensures text { OnOk result (GoesOn W.contents output.old output.new
        (with_number (Some (codes "some")) number)) }
    ensures collects { Collects output.old output.new }
    ensures fault { IfErr result (λ fault. fault ≡ ScriptFault.NoMemory) }
{
    output.put(b"some ")?;
    output.put_number(number)
}

/// Writes a refusal's text; one for memory ends the run.
fn put_fault<W: Write>(fault: Fault, output: &mut Output<'_, W>) -> Result<(), ScriptFault>
    ensures text { OnOk result (GoesOn W.contents output.old output.new (fault_text fault)) }
    ensures memory { fault_text fault ≡ None → result ≡ Err ScriptFault.NoMemory }
    ensures collects { Collects output.old output.new }
    ensures fault { IfErr result (λ fault. fault ≡ ScriptFault.NoMemory) }
{
    match fault {
        Fault::NoMemory { .. } => Err(ScriptFault::of(fault)),
        Fault::NoSlot => output.put(b"no-slot"),
        Fault::Closed => output.put(b"closed"),
        Fault::Full => output.put(b"full"),
        Fault::Empty => output.put(b"empty"),
        Fault::Overflow => output.put(b"overflow"),
        Fault::NotHeld => output.put(b"not-held"),
        Fault::TooManyEnds => output.put(b"too-many-ends"),
    }
}

/// Writes the text of a value that is handed back.
fn put_back<W: Write>(
    value: u64,
    fault: Fault,
    output: &mut Output<'_, W>,
) -> Result<(), ScriptFault>
    ensures text { OnOk result (GoesOn W.contents output.old output.new
        (with_number (fault_text fault) value)) }
    ensures memory { fault_text fault ≡ None → result ≡ Err ScriptFault.NoMemory }
    ensures collects { Collects output.old output.new }
    ensures fault { IfErr result (λ fault. fault ≡ ScriptFault.NoMemory) }
{
    put_fault(fault, output)?;
    output.put(b" ")?;
    output.put_number(value)
}
