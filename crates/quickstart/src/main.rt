//! Two threads share a channel: one counts, the other adds up.
#![tactic(auto)]

use futures_intrusive::Fault;
use futures_intrusive::blocking::Blocking;
use futures_intrusive::channel::shared::{Receiver, Sender, channel};
use std::{io, thread};

/// Sends the numbers from 1 to 10, each once there is room for it. Then the sender is dropped, which closes the channel.
fn count<R: Blocking + Drop>(numbers: Sender<u64, R>) {
    for number in 1..11 {
        let _ = numbers.send_blocking(number);
    }
}

/// Adds up what comes, until the last sender is gone and the channel is empty.
fn add_up<R: Blocking + Drop>(rt: &R, numbers: Receiver<u64, R>) -> Result<u64, Fault> {
    let mut sum = 0u64;
    for _ in rt.forever() {
        let Some(number) = numbers.receive_blocking()? else {
            break;
        };
        sum = sum.wrapping_add(number);
    }
    Ok(sum)
}

fn main(rt: HostRuntime) -> io::Result<()> {
    let (sender, receiver) = channel::<u64, HostRuntime>(rt.alloc(), rt, 4)?;
    let ((), sum) = thread::join(&rt, move || count(sender), move || add_up(&rt, receiver));
    println!(rt; "the sum is {}", sum?)
}
