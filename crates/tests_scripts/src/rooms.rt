//! All memory that the process can have, with rooms for a script and for the answers that are collected.
use std::alloc::{AllocError, Global};
use std::test::Fail;
use tests_help::hoard::{Hoard, runs_out};

/// A block that is taken and let go again and again, always in its own place.
#[derive(Drop)]
struct Room {
    size: usize,
    block: Option<Vec<u8>>,
}

impl Room {
    fn new(alloc: Global, size: usize) -> Result<Self, AllocError> {
        Ok(Room {
            size,
            block: Some(Vec::with_capacity(alloc, size)?),
        })
    }

    fn let_go(&mut self) {
        self.block = None;
    }

    fn take_again(&mut self, alloc: Global) {
        if self.block.is_none() {
            self.block = Vec::with_capacity(alloc, self.size).ok();
        }
    }
}

/// What a try has of memory.
#[derive(Clone, Copy, Debug)]
pub struct Left {
    /// Whether there is room for a script.
    pub script: bool,
    /// Whether there is room for the answers that are collected.
    pub answers: bool,
    /// So many bytes besides, at most a region.
    pub bytes: usize,
}

/// A hoard with rooms for a script and for the answers that are collected.
#[derive(Drop)]
pub struct Rooms {
    alloc: Global,
    hoard: Hoard,
    script: Room,
    answers: Room,
}

impl Rooms {
    /// A hoard with rooms of these sizes.
    pub fn new(alloc: Global, script: usize, answers: usize) -> Result<Self, AllocError> {
        Ok(Rooms {
            alloc,
            hoard: Hoard::new(alloc)?,
            script: Room::new(alloc, script)?,
            answers: Room::new(alloc, answers)?,
        })
    }

    /// Takes all but what is to be left. Answers whether nothing more could be had; where the allocator has no end (as in a run without
    /// proofs), it can.
    pub fn leave(&mut self, left: Left) -> bool {
        let is_used_up = self.hoard.leave(left.bytes);
        if left.script {
            self.script.let_go();
        }
        if left.answers {
            self.answers.let_go();
        }
        is_used_up
    }

    /// Takes the rooms again, and lets go of what `leave` took.
    pub fn let_go(&mut self) {
        self.script.take_again(self.alloc);
        self.answers.take_again(self.alloc);
        self.hoard.let_go();
    }
}

#[test]
fn memory_runs_out(rt: HostRuntime) -> Result<(), Fail> {
    assert!(rt; runs_out(rt.alloc())?, "this process is refused no memory");
    Ok(())
}
