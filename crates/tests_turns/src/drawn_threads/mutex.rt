//! The mutex, fair and unfair.

use fi_locks::MutexState;
use std::alloc::AllocGlobal;
use std::random::RandomSource;
use std::sync::Wait;
use tests_driver::drawn::{Lines, Lists, play_lines};
use tests_driver::mutex::MutexOf;

const LINES: Lines = Lines {
    makings: "lock a; lock b; lock c; lock d",
    choices: "poll a 1; poll b 2; poll c 3; poll d 4; cancel a; cancel b; cancel c; cancel d; try-lock; unlock 8",
};

// Two thousand lists of three calls, and as many of six.
fn try_calls<R>(rt: &R, is_fair: bool) -> Lists
where
    R: Wait + Copy + RandomSource + AllocGlobal,
{
    let mutex = &MutexOf { value: 7, is_fair };
    let opening = (7, is_fair);
    let short = play_lines::<R, MutexState<u64, u64>, _>(rt, mutex, opening, LINES, 3);
    let long = play_lines::<R, MutexState<u64, u64>, _>(rt, mutex, opening, LINES, 6);
    short.and(long)
}

#[test]
fn drawn_calls_on_a_fair_mutex(rt: HostRuntime) {
    let tried = try_calls(&rt, true);
    assert!(rt; tried.are_right(), "{tried:?}");
}

#[test]
fn drawn_calls_on_an_unfair_mutex(rt: HostRuntime) {
    let tried = try_calls(&rt, false);
    assert!(rt; tried.are_right(), "{tried:?}");
}
