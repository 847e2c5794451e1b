//! Of what threads share.

ghost use Rattle.futures_intrusive.specs.Blanks.{IsPermitBlank};

use futures_intrusive::blocking::Blocking;
use futures_intrusive::buffer::GrowingHeapBuf;
use futures_intrusive::channel::{
    Channel, ChannelSendError, GenericChannel, OneshotBroadcastChannel, OneshotChannel,
    TrySendError,
};
use futures_intrusive::sync::SharedSemaphore;
use std::marker::Brand;
use std::sync::ledger::{Blank, Ledger};

#[test]
fn try_send_error(rt: HostRuntime) {
    let channel = Channel::<u64, 1, HostRuntime>::new(rt.alloc(), rt); // room for one
    assert!(rt; channel.try_send(7) == Ok(()) && channel.try_send(8) == Err(TrySendError::Full(8)));
    channel.close();
    assert!(rt; channel.try_send(9) == Err(TrySendError::Closed(9))); // the value comes back
}

#[test]
fn channel_send_error(rt: HostRuntime) {
    let channel = OneshotChannel::<u64, HostRuntime>::new(rt.alloc(), rt);
    assert!(rt; channel.send(5) == Ok(()) && channel.send(6) == Err(ChannelSendError(6)));
}

#[test]
fn oneshot_broadcast_channel(rt: HostRuntime) {
    let news = OneshotBroadcastChannel::<u64, HostRuntime>::new(rt.alloc(), rt);
    assert!(rt; news.send(5).is_ok());
    assert!(rt; news.receive_blocking() == Ok(Some(5))); // a clone, for each who asks
    assert!(rt; news.receive_blocking() == Ok(Some(5)));
}

#[test]
fn generic_channel(rt: HostRuntime) {
    let growing: GenericChannel<u64, GrowingHeapBuf<u64>, HostRuntime> =
        GenericChannel::with_capacity(rt.alloc(), rt, 300).expect(&rt, "memory");
    assert!(rt; growing.capacity() == 300 && growing.try_send(7).is_ok());
    assert!(rt; growing.try_receive() == Ok(7));
}

// `R` is the runtime, which waits for the lock; `L` is the ledger that counts the permits held, and `blank` begins it.
fn outlives<R: Blocking + Copy + Drop, L: Ledger>(rt: R, blank: Blank) -> Option<usize>
where
    requires blank { IsPermitBlank L.Ledger blank }
{
    let permits = SharedSemaphore::<R, L>::new(rt.alloc(), rt, blank, true, 2).ok()?; // fair, two permits
    let other = permits.clone().ok()?;
    let permit = permits.try_acquire(1).ok()??;
    drop(permits); // `permit` and `other` share the semaphore still
    let free = other.permits();
    drop(permit); // gives it back
    Some(free)
}

#[test]
fn shared_semaphore(rt: HostRuntime) {
    assert!(rt; outlives::<HostRuntime, Brand>(rt, Blank::new(u64::MAX)) == Some(1));
}
