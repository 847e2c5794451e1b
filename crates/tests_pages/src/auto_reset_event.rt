//! The beginning of the page on the event that resets itself.

use futures_intrusive::sync::AutoResetEvent;
use std::thread;

#[test]
fn auto_reset_event(rt: HostRuntime) {
    let has_work = AutoResetEvent::new(rt.alloc(), rt, false, true); // not set, and fair
    let work = || has_work.wait_blocking() == Ok(()); // blocks until another thread sets the event
    let submit = || has_work.set();
    let (is_done, ()) = thread::join(&rt, work, submit);
    assert!(rt; is_done && !has_work.is_set()); // whoever passed has reset it
}
