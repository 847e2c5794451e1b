//! The theorems at concrete types.
use fi_desk::every_run_of_a_pool;
use fi_parts::buffer::FixedHeapBuf;
use fi_run::{
    every_run_of_a_channel, every_run_of_a_mutex, every_run_of_a_oneshot,
    every_run_of_a_oneshot_broadcast, every_run_of_a_semaphore, every_run_of_a_state_broadcast,
    every_run_of_a_timer, every_run_of_an_event,
};

#[test]
fn theorems_at_concrete_types(_rt: HostRuntime) {
    every_run_of_an_event::<u64>();
    every_run_of_a_oneshot::<u32, u64>();
    every_run_of_a_oneshot_broadcast::<u32, u64>();
    every_run_of_a_state_broadcast::<u32, u64>();
    every_run_of_a_channel::<u64, FixedHeapBuf<u64>, u64>();
    every_run_of_a_mutex::<u64, u64>();
    every_run_of_a_semaphore::<u64>();
    every_run_of_a_timer::<u64>();
    every_run_of_a_pool::<u64>();
}
