//! All memory that the process can have, taken and let go: so requests for memory are really refused.
//!
//! A test is a process of its own, whose addresses soon come to an end. Nothing of what is taken is touched, but for a page in each of
//! some eight thousand large blocks.
use std::alloc::{AllocError, Global};

/// The largest block that is asked for.
const LARGEST: usize = 1 << 44;

/// Blocks from this size on are kept to the end. What is smaller is let go between two tries, to work with. Small blocks that the C
/// library keeps for itself cut that into ever more pieces, so it is large enough for whole regions after thousands of tries.
const WORKING: usize = 1 << 26;

/// The C library keeps freed blocks up to this size for requests of just their size, so each of these sizes is asked for.
const SMALL: usize = 1040;

/// So many blocks are held at most.
const PLACES: usize = 20_000;

/// What is left is the end of a block of this size, whose beginning is taken again. The C library would map a block of 128 KiB by
/// itself, and then small blocks could not be cut from its memory.
pub const REGION: usize = 96 << 10;

/// All memory that the process can have.
#[derive(Drop)]
pub struct Hoard {
    alloc: Global,
    kept: Vec<Vec<u8>>,
    taken: Vec<Vec<u8>>,
    has_end: bool,
}

impl Hoard {
    /// Takes all large blocks but one, and tries once whether memory comes to an end.
    pub fn new(alloc: Global) -> Result<Self, AllocError> {
        let mut kept = Vec::with_capacity(alloc, PLACES)?;
        let taken = Vec::with_capacity(alloc, PLACES)?;
        take_down(alloc, &mut kept, LARGEST, WORKING);
        kept.pop();
        let mut hoard = Hoard {
            alloc,
            kept,
            taken,
            has_end: false,
        };
        hoard.has_end = hoard.leave(0);
        hoard.let_go();
        Ok(hoard)
    }

    /// Whether memory came to an end at the first try. Where it has one, each later try has to find it too.
    pub fn has_end(&self) -> bool {
        self.has_end
    }

    /// Takes all but so many bytes, at most a region. Answers whether nothing more can be had; where the allocator has no end (as in a run
    /// without proofs), it can.
    pub fn leave(&mut self, bytes: usize) -> bool {
        let region: Result<Vec<u8>, AllocError> = Vec::with_capacity(self.alloc, REGION);
        take_down(self.alloc, &mut self.taken, WORKING, SMALL);
        let mut size = SMALL;
        for _ in 0..65u64 {
            take_all(self.alloc, &mut self.taken, size);
            size = size.saturating_sub(16);
        }
        let is_used_up = !take(self.alloc, &mut self.taken, 8);
        drop(region);
        if bytes < REGION {
            take(self.alloc, &mut self.taken, REGION - bytes);
        }
        is_used_up && self.taken.len() < PLACES
    }

    /// Lets go of what `leave` took.
    pub fn let_go(&mut self) {
        self.taken.clear();
    }
}

// Takes a block of this size, if there is one, and a place to hold it.
fn take(alloc: Global, held: &mut Vec<Vec<u8>>, size: usize) -> bool {
    if held.len() == held.capacity() {
        return false;
    }
    match Vec::with_capacity(alloc, size) {
        Ok(block) => held.push(block).is_ok(),
        Err(_) => false,
    }
}

// Takes all blocks of this size.
fn take_all(alloc: Global, held: &mut Vec<Vec<u8>>, size: usize) {
    for _ in 0..PLACES {
        if !take(alloc, held, size) {
            break;
        }
    }
}

// Takes all blocks, the largest first, down to this size.
fn take_down(alloc: Global, held: &mut Vec<Vec<u8>>, largest: usize, least: usize) {
    let mut size = largest;
    for _ in 0..64u64 {
        if size < least {
            break;
        }
        take_all(alloc, held, size);
        size /= 2;
    }
}

/// Whether memory runs out where a hoard has it all, and can be had again once the hoard has let it go.
pub fn runs_out(alloc: Global) -> Result<bool, AllocError> {
    let mut hoard = Hoard::new(alloc)?;
    let is_used_up = hoard.leave(0);
    let is_refused = !can_have(alloc, 64);
    hoard.let_go();
    Ok(is_used_up && is_refused && can_have(alloc, 64))
}

// Whether a block of this size can be had.
fn can_have(alloc: Global, size: usize) -> bool {
    let block: Result<Vec<u8>, AllocError> = Vec::with_capacity(alloc, size);
    block.is_ok()
}
