//! What the futures of a semaphore asked for.
ghost use Rattle.std.specs.Prelude.{◌≡◌};
ghost use Rattle.fi_locks.specs.Semaphore.{asked_after};

/// How many permits the futures of a semaphore needed that were made so far, those aside that needed none.
#[derive(Clone, Copy, Debug, PartialEq, Eq)]
pub enum Asked {
    /// None needed any.
    NoNeed,
    /// All of them needed this many.
    OneNeed(usize),
    /// They needed different numbers.
    MixedNeeds,
}

impl Asked {
    /// The same after one more future was made, which needs this many.
    pub fn after(self, need: usize) -> Asked
        ensures { result ≡ asked_after self need }
    {
        if need == 0 {
            return self;
        }
        match self {
            Asked::NoNeed => Asked::OneNeed(need),
            Asked::OneNeed(only) if only == need => self,
            _ => Asked::MixedNeeds,
        }
    }
}
