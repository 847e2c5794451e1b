//! The semaphore of one permit, by reference and shared by its owners, fair and unfair.

use fi_locks::SemaphoreState;
use fi_run::SemaphoreCall;
use std::alloc::AllocGlobal;
use std::random::RandomSource;
use std::sync::Wait;
use tests_driver::Flavour;
use tests_driver::drawn::{Lines, Lists, play_lines};
use tests_driver::semaphore::{ByOwners, ByReference, Opening};

const MAKINGS: &str = "acquire a 1; acquire b 2; acquire c 1; acquire d 1";

const OF_TWO: &str = "acquire a 2; acquire b 2; acquire c 2; acquire d 2";

const CHOICES: &str =
    "poll a 1; poll b 2; poll c 3; poll d 4; cancel a; cancel b; cancel c; cancel d; try-acquire 1; release 1; give-back 1";

const FAIR: Opening = Opening {
    is_fair: true,
    permits: 1,
};

const UNFAIR: Opening = Opening {
    is_fair: false,
    permits: 1,
};

// Two thousand lists of three calls behind these makings, and as many of eight.
fn try_calls<R, F>(rt: &R, flavour: &F, is_fair: bool, makings: &'static str) -> Lists
where
    R: Wait + RandomSource + AllocGlobal,
    F: Flavour<R, Call = SemaphoreCall<u64>>,
{
    let lines = Lines {
        makings,
        choices: CHOICES,
    };
    let opening = (1, is_fair);
    let short = play_lines::<R, SemaphoreState<u64>, F>(rt, flavour, opening, lines, 3);
    let long = play_lines::<R, SemaphoreState<u64>, F>(rt, flavour, opening, lines, 8);
    short.and(long)
}

#[test]
fn drawn_calls_on_a_fair_semaphore(rt: HostRuntime) {
    let tried = try_calls(&rt, &ByReference(FAIR), true, MAKINGS);
    assert!(rt; tried.are_right(), "{tried:?}");
}

#[test]
fn drawn_calls_on_an_unfair_semaphore(rt: HostRuntime) {
    let tried = try_calls(&rt, &ByReference(UNFAIR), false, MAKINGS);
    assert!(rt; tried.are_right(), "{tried:?}");
    let tried = try_calls(&rt, &ByReference(UNFAIR), false, OF_TWO);
    assert!(rt; tried.are_right(), "{tried:?}");
}

#[test]
fn drawn_calls_on_a_fair_shared_semaphore(rt: HostRuntime) {
    let tried = try_calls(&rt, &ByOwners(FAIR), true, MAKINGS);
    assert!(rt; tried.are_right(), "{tried:?}");
}

#[test]
fn drawn_calls_on_an_unfair_shared_semaphore(rt: HostRuntime) {
    let tried = try_calls(&rt, &ByOwners(UNFAIR), false, MAKINGS);
    assert!(rt; tried.are_right(), "{tried:?}");
    let tried = try_calls(&rt, &ByOwners(UNFAIR), false, OF_TWO);
    assert!(rt; tried.are_right(), "{tried:?}");
}
