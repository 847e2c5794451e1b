//! Scripts at the edges of the grammar, and past them.

use crate::rows::check_script;
use fi_scripts::ScriptFault;
use std::alloc::Global;
use std::process::Abort;
use std::test::Fail;
use tests_rows::{answers_of, script_of};

#[test]
fn script_edges(rt: HostRuntime) {
    let alloc = rt.alloc();
    check_script(&rt, alloc, "", "", Err(ScriptFault::BadLine(1)));
    check_script(&rt, alloc, "event reset\nset", "ok\n", Ok(()));
    check_script(
        &rt,
        alloc,
        "event reset\npoll w 1\n",
        "",
        Err(ScriptFault::BadLine(2)),
    );
    check_script(&rt, alloc, "event reset", "", Ok(()));
    check_script(&rt, alloc, "event reset\n", "", Ok(()));
    check_script(
        &rt,
        alloc,
        "event reset\n\n",
        "",
        Err(ScriptFault::BadLine(2)),
    );
}

/// Ten thousand futures that are made by this verb and ask for this, each of which waits once it is polled at this moment, if a
/// primitive's polls have one. The beginning is the first line and those that leave nothing to be had.
fn check_all_wait(
    rt: &impl Abort,
    alloc: Global,
    beginning: &str,
    verb: &str,
    asks: &str,
    moment: &str,
) -> Result<(), Fail> {
    let mut script = script_of(alloc, beginning)?;
    let mut wanted = answers_of(alloc, beginning)?;
    for label in 0..10_000u64 {
        write!(
            script,
            "{verb} l{label}{asks}\npoll l{label}{moment} {label}\n"
        )?;
        wanted.push_str("made\npending\n")?;
    }
    check_script(rt, alloc, script.as_str(), wanted.as_str(), Ok(()));
    Ok(())
}

/// However many wait, and whatever they ask for, there is memory for one more.
#[test]
fn ten_thousand_wait(rt: HostRuntime) -> Result<(), Fail> {
    let most = " 18446744073709551615";
    let locked = "mutex fair 1\ntry-lock -> some 1";
    let passing = "mutex unfair 1\ntry-lock -> some 1";
    let kinds = [
        ("oneshot", "receive", "", ""),
        ("oneshot-broadcast", "receive", "", ""),
        ("state-broadcast", "receive", most, ""),
        ("channel array 0", "send", most, ""),
        ("channel fixed 2", "receive", "", ""),
        ("channel growing 2", "stream", "", ""),
        ("timer", "deadline", most, " 0"),
        ("timer", "delay", " 7 18446744073709551615", " 7"),
        (locked, "lock", "", ""),
        (passing, "lock", "", ""),
        ("semaphore fair 5", "acquire", most, ""),
        ("semaphore unfair 5", "acquire", " 6", ""),
        ("pool 1 2", "wait", "", ""),
    ];
    for (beginning, verb, asks, moment) in kinds {
        check_all_wait(&rt, rt.alloc(), beginning, verb, asks, moment)?;
    }
    Ok(())
}

/// A buffer on the heap has room for all that its capacity allows.
fn check_all_sent(rt: &impl Abort, alloc: Global, opening: &str) -> Result<(), Fail> {
    let mut script = script_of(alloc, opening)?;
    let mut wanted = answers_of(alloc, opening)?;
    for value in 0..10_000u64 {
        write!(script, "try-send {value}\n")?;
        wanted.push_str("ok\n")?;
    }
    script.push_str("try-send 10000\ntry-receive\n")?;
    wanted.push_str("full 10000\nsome 0\n")?;
    check_script(rt, alloc, script.as_str(), wanted.as_str(), Ok(()));
    Ok(())
}

#[test]
fn ten_thousand_values(rt: HostRuntime) -> Result<(), Fail> {
    check_all_sent(&rt, rt.alloc(), "channel fixed 10000")?;
    check_all_sent(&rt, rt.alloc(), "channel growing 10000")
}

/// One line names more wakers than are collected at a time.
#[test]
fn a_long_line(rt: HostRuntime) -> Result<(), Fail> {
    let mut script = String::from_str(rt.alloc(), "event reset\n")?;
    let mut wanted = String::new(rt.alloc());
    for label in 0..20000u64 {
        write!(script, "wait l{label}\npoll l{label} {label}\n")?;
        wanted.push_str("made\npending\n")?;
    }
    script.push_str("set\n")?;
    wanted.push_str("ok wakes")?;
    for label in 0..20000u64 {
        write!(wanted, " {label}")?;
    }
    wanted.push_str("\n")?;
    check_script(&rt, rt.alloc(), script.as_str(), wanted.as_str(), Ok(()));
    Ok(())
}
