//! The program's run from its arguments on.

use fi_scripts::run_program;
use std::alloc::Global;
use std::env::Args;
use std::io;
use std::io::ErrorKind;
use std::process::Abort;
use std::test::Fail;

/// The arguments of these words.
fn arguments_of(alloc: Global, words: &[&str]) -> Result<Args, Fail> {
    let mut all = Vec::new(alloc);
    for word in words {
        all.push(String::from_str(alloc, word)?)?;
    }
    Ok(all.into_iter())
}

/// Runs the program on a script, and compares its output, what it tells and its status.
fn check_run(
    rt: &impl Abort,
    alloc: Global,
    arguments: io::Result<Args>,
    script: &str,
    wanted: (&str, &str, u8),
) {
    let mut reader = script.as_bytes();
    let mut output: Vec<u8> = Vec::new(alloc);
    let mut errors: Vec<u8> = Vec::new(alloc);
    let status = run_program(alloc, arguments, &mut reader, &mut output, &mut errors);
    assert!(rt; output.as_slice() == wanted.0.as_bytes(), "{script}");
    assert!(rt; errors.as_slice() == wanted.1.as_bytes(), "{script}");
    assert_eq!(rt; status, wanted.2, "{script}");
}

#[test]
fn a_bad_line_is_told(rt: HostRuntime) -> Result<(), Fail> {
    let alone = arguments_of(rt.alloc(), &["schedule"])?;
    let told = "schedule: line 3 is bad\n";
    check_run(
        &rt,
        rt.alloc(),
        Ok(alone),
        "event set\nis-set\nnothing\nset\n",
        ("true\n", told, 2),
    );
    Ok(())
}

#[test]
fn arguments_are_refused(rt: HostRuntime) -> Result<(), Fail> {
    let told = "schedule: takes no arguments\n";
    let two = arguments_of(rt.alloc(), &["schedule", "--help"])?;
    check_run(
        &rt,
        rt.alloc(),
        Ok(two),
        "event set\nis-set\n",
        ("", told, 2),
    );
    let bad = io::Error::from(ErrorKind::InvalidData);
    check_run(&rt, rt.alloc(), Err(bad), "event set\n", ("", told, 2));
    let refused = io::Error::from(ErrorKind::OutOfMemory);
    check_run(
        &rt,
        rt.alloc(),
        Err(refused),
        "event set\n",
        ("", "schedule: no memory\n", 3),
    );
    Ok(())
}
