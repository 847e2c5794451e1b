//! The beginning of the page on journal.

use futures_intrusive::run::{Answer, EventCall, Journal};
use futures_intrusive::sync::EventState;

#[test]
fn journal(rt: HostRuntime) -> Result<(), std::test::Fail> {
    let mut journal = Journal::<EventState<u64>>::new(rt.alloc(), false)?; // an event that is not set
    let receipt = journal.record(0, EventCall::Set)?; // by whoever has the seat 0
    assert!(rt; receipt.answer() == Answer::Done);
    let settled = journal.settle();
    assert!(rt; settled.history.len() == 1 && settled.state.is_set());
    Ok(())
}
