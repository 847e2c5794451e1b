//! Where two threads meet: one in a value's drop or clone, the other with a call.
use std::alloc::AllocError;
use std::sync::atomic::{AtomicBool, Ordering};
use std::thread;

/// Whether it came to be set. It looks a bounded number of times.
pub fn was_set(flag: &AtomicBool) -> bool {
    for _ in 0..10_000_000u32 {
        if flag.load(Ordering::SeqCst) {
            return true;
        }
        thread::yield_now();
    }
    false
}

/// How far the two threads are.
#[derive(Drop)]
pub struct Meeting {
    has_begun: AtomicBool,
    was_called: AtomicBool,
    was_met: AtomicBool,
}

impl Meeting {
    /// Nothing has begun.
    pub fn new() -> Self {
        Meeting {
            has_begun: AtomicBool::new(false),
            was_called: AtomicBool::new(false),
            was_met: AtomicBool::new(false),
        }
    }

    /// For the drop or the clone: begins it, and lets it last until the other thread's call is over, unless that never comes.
    pub fn host(&self) {
        self.has_begun.store(true, Ordering::SeqCst);
        let is_met = was_set(&self.was_called);
        self.was_met.store(is_met, Ordering::SeqCst);
    }

    /// For the other thread, before its call: whether the drop or the clone came to begin.
    pub fn has_begun(&self) -> bool {
        was_set(&self.has_begun)
    }

    /// For the other thread, after its call.
    pub fn end_call(&self) {
        self.was_called.store(true, Ordering::SeqCst);
    }

    /// Whether the call came to its end meanwhile.
    pub fn was_met(&self) -> bool {
        self.was_met.load(Ordering::SeqCst)
    }
}

/// A value whose drop lasts until the other thread's call is over, if it has a meeting. Its clones meet nobody.
pub struct Guest<'a> {
    pub meeting: Option<&'a Meeting>,
}

impl Clone for Guest<'_> {
    fn clone(&self) -> Result<Self, AllocError> {
        Ok(Guest { meeting: None })
    }
}

impl Drop for Guest<'_> {
    fn drop(self) {
        let Guest { meeting } = self;
        if let Some(meeting) = meeting {
            meeting.host();
        }
    }
}
