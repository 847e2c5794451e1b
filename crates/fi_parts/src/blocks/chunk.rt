//! Memory for many values in a row.
ghost use Rattle.std.specs.Prelude.{◌≡◌, IfOk};
ghost use Rattle.std.specs.Vec.Ownership.{FitsInBlock};
ghost use Rattle.fi_parts.specs.BlockOwner.{chunk_owns};

use std::alloc::{AllocError, Allocator};
use std::marker::{Model, PhantomData};
use std::mem::{align_of, size_of};

/// Memory for so many values in a row, none of which is there, with the right to give it back.
pub struct Chunk<T, A: Allocator> {
    pub(crate) at: *mut T,
    pub(crate) len: usize,
    pub(crate) by: PhantomData<A>,
    pub(crate) ghost alloc: { A },
}

impl<T, A: Allocator> Model for Chunk<T, A> {
    ghost also_owns = { λ c. chunk_owns T.row (A.dealloc_token c.alloc) c.at c.len };
}

impl<T, A: Allocator> Chunk<T, A> {
    /// Memory for so many values, from the allocator.
    pub fn take(alloc: &A, len: usize) -> Result<Chunk<T, A>, AllocError>
        requires { FitsInBlock T.row len }
        ensures { IfOk result (λ c. (c.len ≡ len) × (c.alloc ≡ alloc.now)) }
    {
        match alloc.allocate(len * size_of::<T>(), align_of::<T>()) {
            Ok(block) => {
                let at = block as *mut T;
                let by = PhantomData;
                Ok(Chunk { at, len, by })
            }
            Err(refused) => Err(refused),
        }
    }

    /// Gives the memory back to the allocator.
    pub fn free(self, alloc: &A)
        requires { self.alloc ≡ alloc.now }
    {
        let Chunk { at, len, by: _ } = self;
        unsafe {
            alloc.deallocate(at as *mut u8, len * size_of::<T>(), align_of::<T>());
        }
    }
}
