//! The beginning of the page on timer.

use futures_intrusive::channel::OneshotChannel;
use futures_intrusive::timer::{StdClock, TimerService};
use std::time::Duration;

#[test]
fn timer(rt: HostRuntime) -> Result<(), std::test::Fail> {
    let timer = TimerService::new(rt.alloc(), rt, StdClock::new(rt)?);
    let answer = OneshotChannel::<u64, HostRuntime>::new(rt.alloc(), rt);
    let mut receive = answer.receive()?;
    let limit = Duration::from_millis(20);
    let waited = timer.while_running(&rt, |timer| timer.wait_at_most(limit, &mut receive))?;
    assert!(rt; waited == Ok(None)); // nobody sent, so the time was over
    Ok(())
}
