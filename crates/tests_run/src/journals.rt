//! That each primitive's calls can be compared with receipts.
use fi_channels::{
    EventState, LocalChannel, OneshotBroadcastState, OneshotState, StateBroadcastState,
};
use fi_desk::PoolState;
use fi_locks::{MutexState, SemaphoreState, TimerState};
use fi_run::{ExactEq, Primitive};

/// A primitive that a desk shares.
fn may_be_shared<P: Primitive>()
where
    P::Opening: ExactEq,
    P::Call: ExactEq,
    P::Answer: ExactEq,
{}

#[test]
fn each_primitive_may_be_shared(_rt: HostRuntime) {
    may_be_shared::<EventState<u64>>();
    may_be_shared::<OneshotState<u64, u64>>();
    may_be_shared::<OneshotBroadcastState<u64, u64>>();
    may_be_shared::<StateBroadcastState<u64, u64>>();
    may_be_shared::<LocalChannel<u64, 2, u64>>();
    may_be_shared::<MutexState<u64, u64>>();
    may_be_shared::<SemaphoreState<u64>>();
    may_be_shared::<TimerState<u64>>();
    may_be_shared::<PoolState<u64>>();
}
