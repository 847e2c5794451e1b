//! How many ends a channel has on one side: its senders, or its receivers.
ghost use Rattle.std.specs.Prelude.{◌≡◌, ◌-◌, ◌==◌};
ghost use Rattle.fi_channels.specs.EndCount.{AddsEnd};

use fi_parts::Fault;
use std::marker::Model;

/// As many ends of one side as there can be: `isize::MAX`.
const MOST_ENDS: usize = 9223372036854775807;

/// How many ends a channel has on one side. The channel closes when the last of them is dropped.
#[derive(Debug, Drop)]
pub struct EndCount {
    count: usize,
}

impl Model for EndCount {
    ghost use Rattle.std.specs.Prelude.{◌≤◌, ℕ};
    ghost use Rattle.fi_channels.specs.EndCount.{most_ends};

    ghost Value = { ℕ };

    ghost view = { λ ends. ends.count };

    ghost invariant = { λ ends. ends.count ≤ most_ends };
}

impl EndCount {
    /// One end.
    pub fn new() -> Self
        ensures { result ≡ 1 }
    {
        EndCount { count: 1 }
    }

    /// How many ends there are.
    pub fn count(&self) -> usize
        ensures { result ≡ self.now }
    {
        self.count
    }

    /// One end more. Refused with `TooManyEnds` exactly if there are `isize::MAX`; then nothing changes.
    pub fn add_end(&mut self) -> Result<(), Fault>
        ensures { AddsEnd self.old result self.new }
    {
        if self.count == MOST_ENDS {
            return Err(Fault::TooManyEnds);
        }
        self.count += 1;
        Ok(())
    }

    /// One end less, and whether it was the last. If there was none, nothing changes.
    pub fn drop_end(&mut self) -> bool
        ensures is_last { result ≡ (self.old == 1) }
        ensures dropped { self.new ≡ self.old - 1 }
    {
        let is_last = self.count == 1;
        self.count = self.count.saturating_sub(1);
        is_last
    }
}
