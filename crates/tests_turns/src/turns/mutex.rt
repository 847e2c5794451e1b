//! The mutex, fair and unfair: each thread unlocks what it locked.
ghost use Rattle.std.specs.Prelude.{◌≡◌};

use super::{Holds, LISTS, Lines, List, TakesTurns, choices_of, next_turns, play_at, plays};
use fi_locks::MutexState;
use fi_run::{Answer, MutexCall};
use fi_sync::Mutex;
use std::alloc::AllocGlobal;
use std::marker::Brand;
use std::process::Abort;
use std::random::RandomSource;
use std::sync::ledger::{Blank, Ledger};
use std::sync::{Barrier, Wait};
use std::thread::Threads;
use tests_driver::drawn::Draws;
use tests_driver::mutex::OpenedMutex;

const LINES: Lines = Lines {
    makings: "lock a; lock b; lock c; lock d",
    first: "poll a 1; poll b 2; cancel a; cancel b; try-lock; unlock 8",
    second: "poll c 3; poll d 4; cancel c; cancel d; try-lock; unlock 9",
};

impl Holds for MutexCall<u64, u64> {
    fn held_after(self, answer: Answer<u64, u64>, held: u64) -> Option<u64> {
        match (self, answer) {
            (MutexCall::Unlock(_), _) => held.checked_sub(1),
            (_, Answer::Item(_)) => held.checked_add(1),
            _ => Some(held),
        }
    }
}

impl<R: Wait + Abort + RandomSource + AllocGlobal, L: Ledger> TakesTurns<R> for Mutex<u64, R, L> {
    type Call = MutexCall<u64, u64>;

    fn take_turns(
        &self,
        rt: &R,
        barrier: &Barrier,
        is_first: bool,
        list: List<MutexCall<u64, u64>>,
    ) -> bool {
        plays(rt, barrier, OpenedMutex::new(rt, self), is_first, list)
    }
}

// Plays a list on a mutex of a seven.
fn play_at_seven<R, L>(rt: &R, blank: Blank, is_fair: bool, list: List<MutexCall<u64, u64>>) -> bool
where
    R: Wait + Threads + Abort + Copy + RandomSource + AllocGlobal + Send + Sync,
    L: Ledger + Send + Sync,
    requires name { blank.name ≡ L.name }
    requires parts { blank.parts ≡ L.parts }
    requires one { blank.parts ≡ 1 }
{
    let mutex = Mutex::<u64, R, L>::new(rt.alloc(), *rt, blank, 7, is_fair);
    play_at(rt, &mutex, list)
}

// Two hundred lists. Answers how many went right, one after another.
fn try_turns<R>(rt: &R, is_fair: bool) -> u64
where
    R: Wait + Threads + Abort + Copy + RandomSource + AllocGlobal + Send + Sync,
{
    let opening = (7, is_fair);
    let Some(choices) = choices_of::<MutexState<u64, u64>>(rt.alloc(), opening, LINES) else {
        return 0;
    };
    let mut draws = Draws(1);
    for number in 0..LISTS {
        let Some(turns) = next_turns::<R, MutexState<u64, u64>>(rt, opening, &choices, &mut draws)
        else {
            return number;
        };
        let list = List {
            makings: choices.makings.as_slice(),
            turns: turns.as_slice(),
        };
        if !play_at_seven::<R, Brand>(rt, Blank::new(1), is_fair, list) {
            return number;
        }
    }
    LISTS
}

#[test]
fn two_threads_take_turns_at_a_mutex(rt: HostRuntime) {
    let (fair, unfair) = (try_turns(&rt, true), try_turns(&rt, false));
    assert!(rt; fair == LISTS && unfair == LISTS, "lists {fair}, {unfair}");
}
