//! What clocks read.
use fi_parts::{Clock, MockClock, StdClock};
use std::sync::atomic::{AtomicU64, Ordering};
use std::test::Fail;
use std::time::Duration;
use std::{io, time};

fn read<C: Clock>(clock: &C) -> u64 {
    clock.now()
}

#[test]
fn mock_clock(rt: HostRuntime) -> Result<(), Fail> {
    let clock = MockClock::new();
    assert_eq!(rt; clock.now(), 0);
    clock.set_time(u64::MAX);
    assert_eq!(rt; read(&clock), u64::MAX);
    clock.set_time(7);
    assert_eq!(rt; clock.now(), 7);
    Ok(())
}

/// A system's clock that shows these nanoseconds, and can't be read while they are `u64::MAX`.
#[derive(Drop)]
struct ShownTime<'a> {
    nanos: &'a AtomicU64,
}

impl time::Clock for ShownTime<'_> {
    fn monotonic(&self) -> io::Result<Duration> {
        match self.nanos.load(Ordering::SeqCst) {
            u64::MAX => Err(io::Error::from(io::ErrorKind::Other)),
            nanos => Ok(Duration::from_nanos(nanos)),
        }
    }

    fn since_1970(&self) -> io::Result<Duration> {
        self.monotonic()
    }
}

#[test]
fn std_clock_reads_whole_milliseconds(rt: HostRuntime) -> Result<(), Fail> {
    let nanos = &AtomicU64::new(5_000_000);
    let clock = StdClock::new(ShownTime { nanos })?;
    assert_eq!(rt; clock.now(), 0);
    nanos.store(7_999_999, Ordering::SeqCst);
    assert_eq!(rt; clock.now(), 2);
    // The system's clock has gone back.
    nanos.store(4_000_000, Ordering::SeqCst);
    assert_eq!(rt; clock.now(), 0);
    Ok(())
}

#[test]
fn std_clock_that_cannot_be_read(rt: HostRuntime) -> Result<(), Fail> {
    let nanos = &AtomicU64::new(5_000_000);
    let clock = StdClock::new(ShownTime { nanos })?;
    nanos.store(u64::MAX, Ordering::SeqCst);
    assert_eq!(rt; clock.now(), 0);
    assert!(rt; StdClock::new(ShownTime { nanos }).is_err());
    nanos.store(8_000_000, Ordering::SeqCst);
    assert_eq!(rt; clock.now(), 3);
    Ok(())
}
