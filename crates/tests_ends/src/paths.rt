//! Names by each of futures-intrusive's module paths: that they are there. Other tests call what they name.

use futures_intrusive::buffer::{ArrayBuf, FixedHeapBuf, GrowingHeapBuf, RingBuf};
use futures_intrusive::channel::shared::{GenericReceiver, GenericSender, channel};
use futures_intrusive::channel::{
    Channel, CloseStatus, GenericChannel, LocalChannel, StateId, TryReceiveError,
};
use futures_intrusive::sync::{LocalManualResetEvent, ManualResetEvent};
use futures_intrusive::timer::{LocalTimerService, MockClock, TimerService};
use std::alloc::AllocGlobal;

#[test]
fn module_paths(rt: HostRuntime) {
    let (sender, receiver): (
        GenericSender<u64, GrowingHeapBuf<u64>, HostRuntime>,
        GenericReceiver<u64, GrowingHeapBuf<u64>, HostRuntime>,
    ) = channel(rt.alloc(), rt, 1).expect(&rt, "memory");
    assert!(rt; sender.try_send(7).is_ok() && receiver.try_receive() == Ok(7));
}
