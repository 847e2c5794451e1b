//! Clocks that count milliseconds.
ghost use Rattle.std.specs.Prelude.{◌≡◌};
ghost use Rattle.std.specs.Duration.{as_nanos};
ghost use Rattle.fi_parts.specs.Clocks.{whole_millis_in};

use std::sync::Arc;
use std::sync::atomic::{AtomicU64, Ordering};
use std::time::{Duration, Instant};
use std::{fmt, io, time};

/// A source of the time for a timer.
///
/// Keeps `Clock` of futures-intrusive.
///
/// # Examples
///
/// ```
/// use futures_intrusive::timer::Clock;
/// use std::sync::atomic::{AtomicU64, Ordering};
///
/// // A clock that shows what stands in a cell.
/// #[derive(Drop)]
/// pub(crate) struct Shown<'a> {
///     pub(crate) time: &'a AtomicU64,
/// }
///
/// impl Clock for Shown<'_> {
///     fn now(&self) -> u64 {
///         self.time.load(Ordering::SeqCst)
///     }
/// }
/// ```
pub trait Clock {
    /// The time in milliseconds since a moment of the clock's own. A timer that threads share calls it with its lock held, so it
    /// must not call that timer.
    fn now(&self) -> u64;
}

/// A clock that stands until its time is set, for tests.
///
/// Keeps `MockClock` of futures-intrusive. Threads that share it by a reference or an `Arc` may set
/// and read it at once.
///
/// # Examples
///
/// ```
/// use futures_intrusive::timer::{Clock, MockClock};
/// use std::sync::Arc;
///
/// let clock = Arc::new(rt.alloc(), MockClock::new())?;
/// let other = Arc::try_clone(&clock)?;
/// clock.set_time(3);
/// assert!(rt; other.now() == 3);
/// ```
#[derive(Drop)]
pub struct MockClock {
    now: AtomicU64,
}

impl fmt::Debug for MockClock {
    fn fmt<F: fmt::Write>(&self, f: &mut fmt::Formatter<F>) -> fmt::Result {
        f.debug_struct("MockClock")
            .field("now", &self.now())
            .finish()
    }
}

impl MockClock {
    /// A clock at 0 milliseconds.
    pub fn new() -> Self {
        MockClock {
            now: AtomicU64::new(0),
        }
    }

    /// Sets the time in milliseconds, to any value: it may go back.
    pub fn set_time(&self, now: u64) {
        self.now.store(now, Ordering::SeqCst);
    }
}

impl Clock for MockClock {
    fn now(&self) -> u64 {
        self.now.load(Ordering::SeqCst)
    }
}

impl Clock for Arc<MockClock> {
    fn now(&self) -> u64 {
        self.now.load(Ordering::SeqCst)
    }
}

/// A clock that counts from its making, by the runtime's monotonic clock.
///
/// Keeps `StdClock` of futures-intrusive.
///
/// # Examples
///
/// ```
/// use futures_intrusive::timer::{Clock, StdClock};
/// use std::thread;
/// use std::time::Duration;
///
/// let clock = StdClock::new(rt)?;
/// thread::sleep(&rt, Duration::from_millis(2));
/// assert!(rt; clock.now() >= 2); // milliseconds since it was made
/// ```
#[derive(Drop)]
pub struct StdClock<H> {
    rt: H,
    start: Instant,
}

impl<H> fmt::Debug for StdClock<H> {
    fn fmt<F: fmt::Write>(&self, f: &mut fmt::Formatter<F>) -> fmt::Result {
        f.debug_struct("StdClock").finish()
    }
}

impl<H: time::Clock + Drop> StdClock<H> {
    /// A clock that is at 0 milliseconds now, and keeps the runtime for its readings.
    ///
    /// # Errors
    ///
    /// The error of the first reading, where the system's clock cannot be read.
    pub fn new(rt: H) -> io::Result<Self> {
        let start = Instant::now(&rt)?;
        Ok(StdClock { rt, start })
    }
}

impl<H: time::Clock> Clock for StdClock<H> {
    /// Whole milliseconds since the clock was made, or 0 where the system's clock cannot be read.
    fn now(&self) -> u64 {
        match self.start.elapsed(&self.rt) {
            Ok(elapsed) => whole_millis(elapsed),
            Err(_) => 0,
        }
    }
}

/// The whole milliseconds of a duration: rounded down, and `u64::MAX` where there are more.
pub fn whole_millis(duration: Duration) -> u64
    ensures { result ≡ whole_millis_in (as_nanos duration) }
{
    u64::try_from(duration.as_millis()).unwrap_or(u64::MAX)
}
