//! Writing the answers.

ghost use Rattle.std.specs.Prelude.{◌≡◌, ◌∷◌, [], Some, OnOk, IfErr, length, take};
ghost use Rattle.std.specs.Io.KnownBytes.{Appends};
ghost use Rattle.fi_scripts.specs.Begun.{Begins};
ghost use Rattle.fi_scripts.specs.Outputs.{GoesOn, Collects, SameWriter};
ghost use Rattle.std.specs.Fmt.{decimal};

use crate::fault::ScriptFault;
use fi_parts::memory::{extend, push};
use itoa::Buffer;
use std::io::Write;

/// How many bytes are collected before they are written.
pub const COLLECTED: usize = 65536;

/// There is room for a line of so many bytes behind them; only a longer one takes memory.
pub const LINE: usize = 4096;

/// Writes all of the bytes. An error and a write that takes no byte are failures, and are not tried again.
pub fn write_whole<W: Write>(writer: &mut W, bytes: &[u8]) -> Result<(), ScriptFault>
    ensures written { OnOk result (Appends (W.contents writer.old) (W.contents writer.new)
        bytes.now) }
    // Where it fails, a beginning of them was written.
    ensures begun { Begins (W.contents writer.old) (W.contents writer.new) bytes.now }
    ensures fault { IfErr result (λ fault. fault ≡ ScriptFault.Write) }
{
    let mut written = 0;
    while written < bytes.len() {
        match writer.write(&bytes[written..]) {
            Ok(0) => return Err(ScriptFault::Write),
            Ok(count) => written += count,
            Err(_) => return Err(ScriptFault::Write),
        }
    }
    Ok(())
}

/// Answers that are on their way to a writer.
#[derive(Drop)]
pub struct Output<'a, W> {
    writer: &'a mut W,
    collected: &'a mut Vec<u8>,
}

impl<'a, W: Write> Output<'a, W> {
    /// What is on its way is collected here first.
    pub fn new(writer: &'a mut W, collected: &'a mut Vec<u8>) -> Self
        ensures { (result.writer ≡ writer.entry) × (result.collected ≡ collected.entry) }
    {
        Output { writer, collected }
    }

    /// Writes what was collected, if it is as much as is collected at most before a line.
    pub fn make_room(&mut self) -> Result<(), ScriptFault>
        ensures stays { OnOk result (GoesOn W.contents self.old self.new (Some [])) }
        ensures fault { IfErr result (λ fault. fault ≡ ScriptFault.Write) }
        ensures same_writer { SameWriter self.old self.new }
    {
        if self.collected.len() >= COLLECTED {
            return self.flush();
        }
        Ok(())
    }

    /// Adds text to what is collected. Refused only with `NoMemory`.
    #[inline(always)]
    pub fn put(&mut self, text: &[u8]) -> Result<(), ScriptFault>
        ensures text { OnOk result (GoesOn W.contents self.old self.new (Some text.now)) }
        ensures collects { Collects self.old self.new }
        ensures fault { IfErr result (λ fault. fault ≡ ScriptFault.NoMemory) }
    {
        match extend(self.collected, text) {
            Ok(()) => Ok(()),
            Err(refused) => Err(ScriptFault::from(refused)),
        }
    }

    /// Adds one byte to what is collected. Refused only with `NoMemory`.
    pub fn put_byte(&mut self, byte: u8) -> Result<(), ScriptFault>
        ensures byte { OnOk result (GoesOn W.contents self.old self.new (Some (byte ∷ []))) }
        ensures collects { Collects self.old self.new }
        ensures fault { IfErr result (λ fault. fault ≡ ScriptFault.NoMemory) }
    {
        match push(self.collected, byte) {
            Ok(()) => Ok(()),
            Err(refused) => Err(ScriptFault::from(refused)),
        }
    }

    /// Adds a number in plain decimal to what is collected. Refused only with `NoMemory`.
    pub fn put_number(&mut self, number: u64) -> Result<(), ScriptFault>
        ensures numeral { OnOk result (GoesOn W.contents self.old self.new
            (Some (decimal number))) }
        ensures collects { Collects self.old self.new }
        ensures fault { IfErr result (λ fault. fault ≡ ScriptFault.NoMemory) }
    {
        let mut digits = Buffer::new();
        self.put(digits.format(number).as_bytes())
    }

    /// How many bytes are collected.
    pub fn collected(&self) -> usize
        ensures { result ≡ length self.now.collected.now.items }
    {
        self.collected.len()
    }

    /// Lets go what was collected behind so many bytes.
    pub fn keep_first(&mut self, count: usize)
        ensures kept { self.new.collected.now.items ≡ take count self.old.collected.now.items }
        ensures writer { self.new.writer ≡ self.old.writer }
    {
        self.collected.truncate(count);
    }

    /// Writes what was collected.
    pub fn flush(&mut self) -> Result<(), ScriptFault>
        ensures written { OnOk result (Appends (W.contents self.old.writer.now)
            (W.contents self.new.writer.now) self.old.collected.now.items) }
        ensures emptied { OnOk result (self.new.collected.now.items ≡ []) }
        ensures fault { IfErr result (λ fault. fault ≡ ScriptFault.Write) }
        ensures same_writer { SameWriter self.old self.new }
    {
        write_whole(self.writer, self.collected.as_slice())?;
        self.collected.clear();
        Ok(())
    }
}
