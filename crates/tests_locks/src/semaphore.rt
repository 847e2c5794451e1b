//! The semaphore: its local futures, and the permits that they acquire.

use fi_locks::LocalSemaphore;
use futures::task::Poll;

#[test]
fn a_local_future_and_its_permits(rt: HostRuntime) {
    let mut semaphore: LocalSemaphore<u64> = LocalSemaphore::new(rt.alloc(), true, 3);
    let mut future = semaphore.acquire(2).expect(&rt, "room");
    let was_ended = future.is_terminated();
    let answer = future.poll(&mut semaphore, 1);
    let is_ended = future.is_terminated();
    future.cancel(&mut semaphore);
    let mut count = usize::MAX;
    if let Poll::Ready(releaser) = answer {
        count = releaser.permits();
        releaser.give_back(&mut semaphore);
    }
    assert!(rt; !was_ended && is_ended && count == 2);
    assert_eq!(rt; (semaphore.permits(), semaphore.held()), (3, 0));
}

#[test]
fn semaphore_disarm(rt: HostRuntime) {
    let mut semaphore: LocalSemaphore<u64> = LocalSemaphore::new(rt.alloc(), false, 2);
    let mut disarmed = 0;
    let mut left = usize::MAX;
    if let Some(mut releaser) = semaphore.try_acquire(2) {
        disarmed = releaser.disarm(&mut semaphore);
        left = releaser.permits();
        releaser.give_back(&mut semaphore);
    }
    let is_disarmed = (disarmed, left) == (2, 0) && semaphore.held() == 0;
    assert!(rt; is_disarmed && semaphore.release(2) == Ok(()) && semaphore.permits() == 2);
}
