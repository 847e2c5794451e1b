//! The beginning of the page on event.

use futures_intrusive::sync::ManualResetEvent;
use std::thread;

#[test]
fn event(rt: HostRuntime) {
    let is_loaded = ManualResetEvent::new(rt.alloc(), rt, false);
    let serve = || is_loaded.wait_blocking() == Ok(()); // blocks until another thread sets the event
    let load = || is_loaded.set();
    let (is_served, ()) = thread::join(&rt, serve, load);
    assert!(rt; is_served && is_loaded.is_set());
}
