//! Reading the script.

ghost use Rattle.std.specs.Prelude.{◌≡◌, ◌⊎◌, ◌+◌, ◌≤◌, ◌<◌, OnOk, IfOk, IfErr, IfSome, take, vec_len};

use crate::fault::ScriptFault;
use fi_parts::memory::fill_up;
use std::alloc::Global;
use std::io::Read;

/// The least room that a read is given.
const LEAST_ROOM: usize = 65536;

/// All that the reader gives.
pub fn read_whole<R: Read>(alloc: Global, reader: &mut R) -> Result<Vec<u8>, ScriptFault>
    ensures bytes { IfOk result (λ bytes. IfSome (R.remaining reader.old)
        (λ left. bytes.items ≡ left)) }
    ensures fault { IfErr result (λ fault. fault ≡ ScriptFault.Read
        ⊎ fault ≡ ScriptFault.NoMemory) }
{
    let mut bytes: Vec<u8> = Vec::new(alloc);
    let mut filled = 0;
    loop {
        if bytes.len() - filled < LEAST_ROOM {
            make_room(&mut bytes)?;
        }
        match reader.read(&mut bytes[filled..]) {
            Ok(0) => break,
            Ok(count) => filled += count,
            Err(_) => return Err(ScriptFault::Read),
        }
    }
    bytes.truncate(filled);
    Ok(bytes)
}

/// Adds a quarter to the bytes, or the least room where that is more: the room is written before it is read into, so that
/// doubling would touch twice the memory that a script needs.
fn make_room(bytes: &mut Vec<u8>) -> Result<(), ScriptFault>
    ensures longer { OnOk result (vec_len bytes.old + LEAST_ROOM ≤ vec_len bytes.new) }
    ensures kept { OnOk result (take (vec_len bytes.old) bytes.new.items ≡ bytes.old.items) }
    ensures fault { IfErr result (λ fault. fault ≡ ScriptFault.NoMemory) }
{
    let more = (bytes.len() / 4).max(LEAST_ROOM);
    let count = bytes.len() + more;
    match fill_up(bytes, count, 0) {
        Ok(()) => Ok(()),
        Err(refused) => Err(ScriptFault::from(refused)),
    }
}
