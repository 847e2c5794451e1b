//! The beginning of the page on pool.

use futures_intrusive::run::{Answer, PoolState};

#[test]
fn pool(rt: HostRuntime) -> Result<(), std::test::Fail> {
    let mut pool = PoolState::<u64>::new(rt.alloc(), 2, 10)?; // two jobs at a time, ten in the queue; wakers are numbers
    assert!(rt; pool.submit(5) == Answer::Done);
    assert!(rt; pool.start() == Answer::Item(5));
    assert!(rt; pool.finish() == Answer::Done);
    Ok(())
}
