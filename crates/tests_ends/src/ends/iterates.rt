//! The values of a channel, by a loop that blocks.

use futures_intrusive::Fault;
use futures_intrusive::blocking::Blocking;
use futures_intrusive::channel::shared::Receiver;
use std::alloc::AllocGlobal;
use tests_ends_calls::TriesToSend;
use tests_ends_calls::many::channel;

fn add_up<R: Blocking + Drop>(numbers: &Receiver<u64, R>) -> Result<u64, Fault> {
    let mut sum = 0u64;
    for number in numbers.blocking_iter() {
        sum = sum.wrapping_add(number?);
    }
    Ok(sum)
}

// Two values are sent, and then the sender is dropped.
fn are_sent<S: TriesToSend<u64>>(sender: S) -> bool {
    sender.try_send(1).is_ok() && sender.try_send(2).is_ok()
}

#[test]
fn a_loop_over_values_ends_with_the_sender(rt: HostRuntime) {
    let ends = channel::<u64, HostRuntime>(rt.alloc(), rt, 2);
    let (sender, receiver) = ends.expect(&rt, "memory");
    assert!(rt; are_sent(sender) && add_up(&receiver.end) == Ok(3));
}
