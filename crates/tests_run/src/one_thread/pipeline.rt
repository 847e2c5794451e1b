//! A pipeline of two stages: the first squares numbers, the second adds the squares up. The channel between them has two places, so
//! that the first stage is never further ahead than two squares and one that waits.

use fi_channels::{ChannelReceiveAccess, ChannelSendAccess, LocalChannel, SendFault};
use fi_parts::{Fault, Slot};
use futures::task::Poll;

/// The task of the first stage, and of the second.
const SQUARES: u64 = 1;

const SUM: u64 = 2;

/// How often a stage goes on before others have their turn.
const STEPS: usize = 16;

type Pipe = LocalChannel<u64, 2, u64>;

/// Sends the squares of the numbers below an end, and then closes the channel.
#[derive(Drop)]
struct Squares {
    next: u64,
    end: u64,
    sending: Option<Slot>,
}

impl Squares {
    /// Sends until a square has to wait, or all were sent.
    fn run(&mut self, pipe: &mut Pipe) -> Result<(), Fault> {
        for _ in 0..STEPS {
            if !self.step(pipe)? {
                break;
            }
        }
        Ok(())
    }

    /// Sends the square that waits, or else the next. Returns whether there may be another; a fault if the channel is closed, or has no
    /// memory for the square, which then waits on.
    fn step(&mut self, pipe: &mut Pipe) -> Result<bool, Fault> {
        if self.sending.is_none() && self.next >= self.end {
            pipe.close();
            return Ok(false);
        }
        let slot = match self.sending {
            Some(slot) => slot,
            None => self.send_next(pipe)?,
        };
        let Ok((answer, _leftover)) = pipe.poll_send(slot, SQUARES, true) else {
            return Ok(false);
        };
        let sent = match answer {
            Poll::Pending => return Ok(false),
            // The send keeps its square: the next run tries again.
            Poll::Ready(Err(SendFault::Fault(fault))) => return Err(fault),
            Poll::Ready(Err(SendFault::Closed(_))) => Err(Fault::Closed),
            Poll::Ready(Ok(())) => Ok(true),
        };
        pipe.leave_send(slot);
        self.sending = None;
        sent
    }

    /// A send of the next square.
    fn send_next(&mut self, pipe: &mut Pipe) -> Result<Slot, Fault> {
        let slot = pipe.claim_send(self.next.wrapping_mul(self.next))?;
        self.next = self.next.wrapping_add(1);
        self.sending = Some(slot);
        Ok(slot)
    }
}

/// Adds up what the channel gives, until it is closed and empty.
#[derive(Drop)]
struct Sum {
    stream: Slot,
    total: u64,
    is_done: bool,
}

impl Sum {
    /// A sum of the channel's values.
    fn new(pipe: &mut Pipe) -> Result<Sum, Fault> {
        Ok(Sum {
            stream: pipe.claim_stream()?,
            total: 0,
            is_done: false,
        })
    }

    /// Adds until there is nothing to receive.
    fn run(&mut self, pipe: &mut Pipe) {
        for _ in 0..STEPS {
            let Ok((answer, _leftover)) = pipe.poll_next(self.stream, SUM, true) else {
                return;
            };
            match answer {
                Poll::Ready(Some(square)) => self.total = self.total.wrapping_add(square),
                Poll::Ready(None) => {
                    self.is_done = true;
                    return;
                }
                Poll::Pending => return,
            }
        }
    }

    /// Leaves the channel.
    fn leave(self, pipe: &mut Pipe) {
        pipe.leave_receive(self.stream);
    }
}

#[test]
fn squares_are_added_up(rt: HostRuntime) {
    let mut pipe: Pipe = LocalChannel::new(rt.alloc());
    let mut squares = Squares {
        next: 1,
        end: 6,
        sending: None,
    };
    let mut sum = Sum::new(&mut pipe).expect(&rt, "room");
    sum.run(&mut pipe);
    squares.run(&mut pipe).expect(&rt, "room");
    for _ in 0..STEPS {
        let Some(task) = pipe.next_wake() else {
            break;
        };
        if task == SUM {
            sum.run(&mut pipe);
        } else {
            squares.run(&mut pipe).expect(&rt, "room");
        }
    }
    assert!(rt; sum.is_done);
    assert_eq!(rt; sum.total, 55, "1 + 4 + 9 + 16 + 25");
    sum.leave(&mut pipe);
}
