//! A client that sends all jobs, and adds up the answers.

use crate::runtime::Runtime;
use futures_intrusive::channel::shared::{Receiver, Sender};

const JOBS: u32 = 12;

/// Sends all jobs, and lets go of the sender.
fn send_all<R: Runtime>(jobs: Sender<u32, R>) {
    for job in 0..JOBS {
        let _ = jobs.send_blocking(job);
    }
}

/// Sends all jobs, and adds up the answers.
pub fn ask<R: Runtime>(jobs: Sender<u32, R>, answers: Receiver<u64, R>) -> u64 {
    send_all(jobs);
    let mut sum = 0u64;
    for _ in 0..JOBS {
        if let Ok(Some(answer)) = answers.receive_blocking() {
            sum = sum.wrapping_add(answer);
        }
    }
    sum
}
