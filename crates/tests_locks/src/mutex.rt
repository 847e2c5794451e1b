//! The mutex: its local future with its guard.
use fi_locks::LocalMutex;
use futures::task::Poll;

#[test]
fn a_guard_writes_the_value(rt: HostRuntime) {
    let mut mutex: LocalMutex<u64, u64> = LocalMutex::new(rt.alloc(), 7, true);
    let mut future = mutex.lock().expect(&rt, "room");
    let slot = future.slot();
    let mut read = 0;
    if let Poll::Ready(mut guard) = future.poll(&mut mutex, 1) {
        read = *guard;
        *guard += 1;
        guard.unlock(&mut mutex);
    }
    let is_ended = future.is_terminated();
    future.cancel(&mut mutex);
    assert!(rt;
        read == 7 && is_ended && mutex.stage(slot).is_none() && mutex.try_take() == Some(8)
    );
}
