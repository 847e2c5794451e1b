//! The program's run from its arguments on.

use fi_explain::run_program;
use std::alloc::Global;
use std::env::Args;
use std::io;
use std::io::ErrorKind;
use std::process::Abort;
use std::test::Fail;

/// The arguments of these words.
fn arguments_of(alloc: Global, words: &[&str]) -> Result<Args, Fail> {
    let mut all = Vec::new(alloc);
    for word in words {
        all.push(String::from_str(alloc, word)?)?;
    }
    Ok(all.into_iter())
}

/// Runs the program on a script, and compares how its output begins, what it tells and its status.
fn check_run(
    rt: &impl Abort,
    alloc: Global,
    arguments: io::Result<Args>,
    script: &str,
    wanted: (&str, &str, u8),
) {
    let mut reader = script.as_bytes();
    let mut output: Vec<u8> = Vec::new(alloc);
    let mut errors: Vec<u8> = Vec::new(alloc);
    let status = run_program(alloc, arguments, &mut reader, &mut output, &mut errors);
    assert!(rt; output.starts_with(wanted.0.as_bytes()), "{script}");
    assert!(rt; errors.as_slice() == wanted.1.as_bytes(), "{script}");
    assert_eq!(rt; status, wanted.2, "{script}");
}

const SCRIPT: &str = "event set\nis-set\n";

#[test]
fn a_bad_line_is_told(rt: HostRuntime) -> Result<(), Fail> {
    let alone = arguments_of(rt.alloc(), &["explain"])?;
    let table = "event set\nno  call    answer\n2   is-set  true\n";
    let told = "explain: line 3 is bad, label not in use: poll w 1\n";
    check_run(
        &rt,
        rt.alloc(),
        Ok(alone),
        "event set\nis-set\npoll w 1\nset\n",
        (table, told, 2),
    );
    let alone = arguments_of(rt.alloc(), &["explain"])?;
    let told = "explain: line 1 is bad, unknown primitive: latch\n";
    check_run(&rt, rt.alloc(), Ok(alone), "latch\n", ("", told, 2));
    Ok(())
}

#[test]
fn a_picture_is_asked_for(rt: HostRuntime) -> Result<(), Fail> {
    let svg = arguments_of(rt.alloc(), &["explain", "svg"])?;
    check_run(&rt, rt.alloc(), Ok(svg), SCRIPT, ("<svg ", "", 0));
    Ok(())
}

#[test]
fn other_arguments_are_refused(rt: HostRuntime) -> Result<(), Fail> {
    let told = "explain: takes no argument but svg\n";
    let other = arguments_of(rt.alloc(), &["explain", "--help"])?;
    check_run(&rt, rt.alloc(), Ok(other), SCRIPT, ("", told, 2));
    let more = arguments_of(rt.alloc(), &["explain", "svg", "svg"])?;
    check_run(&rt, rt.alloc(), Ok(more), SCRIPT, ("", told, 2));
    let refused = io::Error::from(ErrorKind::OutOfMemory);
    check_run(
        &rt,
        rt.alloc(),
        Err(refused),
        SCRIPT,
        ("", "explain: no memory\n", 3),
    );
    Ok(())
}
