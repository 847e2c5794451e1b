//! What refused requests for memory give.
use fi_parts::memory::items_for;
use fi_parts::{Fault, NoRoom, Refused};
use std::alloc::Global;

/// What shows that memory was refused: no address space has room for so much.
fn refused(alloc: Global) -> Option<Refused> {
    items_for::<u64>(alloc, usize::MAX).err()
}

/// The fault of a refused request.
pub fn no_memory(alloc: Global) -> Option<Fault> {
    Some(Fault::from(refused(alloc)?))
}

/// This value, for which memory was refused.
pub fn no_room<T: Drop>(alloc: Global, value: T) -> Option<NoRoom<T>> {
    Some(NoRoom::of(value, refused(alloc)?))
}
