//! The semaphore of one permit, fair and unfair: each thread gives back what it acquired.
ghost use Rattle.std.specs.Prelude.{◌≡◌};

use super::{Holds, LISTS, Lines, List, TakesTurns, choices_of, next_turns, play_at, plays};
use fi_locks::SemaphoreState;
use fi_run::{Answer, SemaphoreCall};
use fi_sync::Semaphore;
use std::alloc::AllocGlobal;
use std::marker::Brand;
use std::process::Abort;
use std::random::RandomSource;
use std::sync::ledger::{Blank, Ledger};
use std::sync::{Barrier, Wait};
use std::thread::Threads;
use tests_driver::drawn::Draws;
use tests_driver::semaphore::OpenedSemaphore;

const LINES: Lines = Lines {
    makings: "acquire a 1; acquire b 1; acquire c 1; acquire d 1",
    first: "poll a 1; poll b 2; cancel a; cancel b; try-acquire 1; release 1; give-back 1",
    second: "poll c 3; poll d 4; cancel c; cancel d; try-acquire 1; release 1; give-back 1",
};

impl Holds for SemaphoreCall<u64> {
    fn held_after(self, answer: Answer<u64, u64>, held: u64) -> Option<u64> {
        match (self, answer) {
            (SemaphoreCall::GiveBack(_), _) => held.checked_sub(1),
            (SemaphoreCall::TryAcquire(_), Answer::Done) => held.checked_add(1),
            (SemaphoreCall::Poll(..), Answer::Ready) => held.checked_add(1),
            _ => Some(held),
        }
    }
}

impl<R: Wait + Abort + RandomSource + AllocGlobal, L: Ledger> TakesTurns<R> for Semaphore<R, L> {
    type Call = SemaphoreCall<u64>;

    fn take_turns(
        &self,
        rt: &R,
        barrier: &Barrier,
        is_first: bool,
        list: List<SemaphoreCall<u64>>,
    ) -> bool {
        plays(rt, barrier, OpenedSemaphore::new(rt, self), is_first, list)
    }
}

// Plays a list on a semaphore of one permit.
fn play_at_one<R, L>(rt: &R, blank: Blank, is_fair: bool, list: List<SemaphoreCall<u64>>) -> bool
where
    R: Wait + Threads + Abort + Copy + RandomSource + AllocGlobal + Send + Sync,
    L: Ledger + Send + Sync,
    requires name { blank.name ≡ L.name }
    requires parts { blank.parts ≡ L.parts }
    requires all { blank.parts ≡ 18446744073709551615 }
{
    let semaphore = Semaphore::<R, L>::new(rt.alloc(), *rt, blank, is_fair, 1);
    play_at(rt, &semaphore, list)
}

// Two hundred lists. Answers how many went right, one after another.
fn try_turns<R>(rt: &R, is_fair: bool) -> u64
where
    R: Wait + Threads + Abort + Copy + RandomSource + AllocGlobal + Send + Sync,
{
    let opening = (1, is_fair);
    let Some(choices) = choices_of::<SemaphoreState<u64>>(rt.alloc(), opening, LINES) else {
        return 0;
    };
    let mut draws = Draws(1);
    for number in 0..LISTS {
        let Some(turns) = next_turns::<R, SemaphoreState<u64>>(rt, opening, &choices, &mut draws)
        else {
            return number;
        };
        let list = List {
            makings: choices.makings.as_slice(),
            turns: turns.as_slice(),
        };
        if !play_at_one::<R, Brand>(rt, Blank::new(u64::MAX), is_fair, list) {
            return number;
        }
    }
    LISTS
}

#[test]
fn two_threads_take_turns_at_a_semaphore(rt: HostRuntime) {
    let (fair, unfair) = (try_turns(&rt, true), try_turns(&rt, false));
    assert!(rt; fair == LISTS && unfair == LISTS, "lists {fair}, {unfair}");
}
