//! A one-shot answer: who asked waits for the worker's answer, and learns if none will come.

use fi_channels::{ChannelReceiveAccess, LocalOneshotChannel};
use fi_parts::{Fault, Slot};
use futures::task::Poll;

/// The number of the task that asked.
const ASKER: u64 = 7;

/// What a worker does with a question: it answers, or gives up. False if nobody can have the answer any more.
fn work(question: u32, answer: &mut LocalOneshotChannel<u32, u64>) -> bool {
    match question.checked_mul(question) {
        Some(square) => answer.send(square).is_ok(),
        None => {
            answer.close();
            true
        }
    }
}

/// What who asked learns now: nothing if it has learnt all; a pending one is woken later.
fn learn(
    asked: Slot,
    answer: &mut LocalOneshotChannel<u32, u64>,
) -> Option<Poll<Result<Option<u32>, Fault>>> {
    let (answer, _leftover) = answer.poll_receive(asked, ASKER, true).ok()?;
    Some(answer)
}

/// Who asked does not wait any longer.
fn leave(asked: Slot, answer: &mut LocalOneshotChannel<u32, u64>) {
    answer.leave_receive(asked);
}

#[test]
fn an_answer_comes_once(rt: HostRuntime) {
    let mut answer = LocalOneshotChannel::new(rt.alloc());
    let asked = answer.claim_receive().expect(&rt, "room");
    assert!(rt;
        learn(asked, &mut answer) == Some(Poll::Pending)
            && work(12, &mut answer)
            && answer.next_wake() == Some(ASKER)
            && learn(asked, &mut answer) == Some(Poll::Ready(Ok(Some(144))))
            && learn(asked, &mut answer) == None
    );
    leave(asked, &mut answer);
    assert!(rt;
        !work(13, &mut answer),
        "one answer is all that the channel takes"
    );
}

#[test]
fn a_worker_that_gives_up_is_noticed(rt: HostRuntime) {
    let mut answer = LocalOneshotChannel::new(rt.alloc());
    let asked = answer.claim_receive().expect(&rt, "room");
    assert!(rt;
        work(70_000, &mut answer) && learn(asked, &mut answer) == Some(Poll::Ready(Ok(None)))
    );
    leave(asked, &mut answer);
}
