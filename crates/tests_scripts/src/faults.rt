//! Readers and writers that fail, and how a fault is reported.

use crate::rows::answer;
use fi_scripts::{ScriptFault, report, run_script};
use std::alloc::Global;
use std::io;
use std::io::{ErrorKind, Read, Write};
use std::process::Abort;
use std::test::Fail;
use tests_rows::{answers_of, channel, script_of, text_of, timer};

/// Gives at most `most` bytes a read, and fails after `reads` reads.
#[derive(Drop)]
struct FailingReader<'a> {
    rest: &'a [u8],
    most: usize,
    reads: usize,
}

impl Read for FailingReader<'_> {
    fn read(&mut self, buf: &mut [u8]) -> io::Result<usize> {
        if self.reads == 0 {
            return Err(io::Error::from(ErrorKind::Interrupted));
        }
        self.reads -= 1;
        let count = self.rest.len().min(self.most).min(buf.len());
        let (given, rest) = self.rest.split_at(count);
        buf[..count].copy_from_slice(given);
        self.rest = rest;
        Ok(count)
    }
}

/// How a writer fails.
#[derive(Clone, Copy, PartialEq, Eq, Debug)]
enum Failure {
    Interrupted,
    TakesNothing,
}

/// Takes at most `most` bytes a write, and fails after `writes` writes.
#[derive(Drop)]
struct FailingWriter {
    taken: Vec<u8>,
    most: usize,
    writes: usize,
    failure: Failure,
    has_failed: bool,
    was_asked_again: bool,
}

impl Write for FailingWriter {
    fn write(&mut self, buf: &[u8]) -> io::Result<usize> {
        if self.writes == 0 {
            self.was_asked_again = self.has_failed;
            self.has_failed = true;
            return match self.failure {
                Failure::Interrupted => Err(io::Error::from(ErrorKind::Interrupted)),
                Failure::TakesNothing => Ok(0),
            };
        }
        self.writes -= 1;
        let count = buf.len().min(self.most);
        self.taken.extend_from_slice(&buf[..count])?;
        Ok(count)
    }

    fn flush(&mut self) -> io::Result<()> {
        Ok(())
    }
}

const SCRIPT: &[u8] = b"event reset\nwait w\npoll w 7\nset\npoll w 8\nis-set\n";

const ANSWERS: &[u8] = b"made\npending\nok wakes 7\nready\ntrue\n";

// The rows on which each read and each write fails.
fn rows() -> [&'static str; 2] {
    [
        text_of(&channel::ROWS, "channel_rendezvous"),
        text_of(&timer::ROWS, "timer_expirations"),
    ]
}

// Each read of a script fails in turn, and nothing is written, until none fails.
fn check_reads(rt: &impl Abort, alloc: Global, script: &[u8], answers: &[u8]) {
    let mut failed = 0;
    for reads in 0..1000 {
        let mut reader = FailingReader {
            rest: script,
            most: 7,
            reads,
        };
        let mut output: Vec<u8> = Vec::new(alloc);
        let ended = run_script(alloc, &mut reader, &mut output);
        if ended.is_ok() {
            assert!(rt; output.as_slice() == answers);
            break;
        }
        assert_eq!(rt; ended, Err(ScriptFault::Read));
        assert!(rt; output.is_empty());
        failed = reads;
    }
    assert!(rt; failed > 5 && failed < 999, "{failed} reads");
}

#[test]
fn each_read_fails(rt: HostRuntime) -> Result<(), Fail> {
    check_reads(&rt, rt.alloc(), SCRIPT, ANSWERS);
    for row in rows() {
        let script = script_of(rt.alloc(), row)?;
        let answers = answers_of(rt.alloc(), row)?;
        check_reads(&rt, rt.alloc(), script.as_bytes(), answers.as_bytes());
    }
    Ok(())
}

// Each write of a script's answers fails in turn, and a beginning of them was written, until none fails.
fn check_writes(rt: &impl Abort, alloc: Global, failure: Failure, script: &[u8], answers: &[u8]) {
    let mut failed = 0;
    for writes in 0..1000 {
        let mut reader = script;
        let mut writer = FailingWriter {
            taken: Vec::new(alloc),
            most: 5,
            writes,
            failure,
            has_failed: false,
            was_asked_again: false,
        };
        let ended = run_script(alloc, &mut reader, &mut writer);
        if ended.is_ok() {
            assert!(rt; writer.taken.as_slice() == answers);
            break;
        }
        assert_eq!(rt; ended, Err(ScriptFault::Write));
        assert!(rt; answers.starts_with(writer.taken.as_slice()));
        assert_eq!(rt; writer.taken.len(), 5 * writes);
        assert!(rt; !writer.was_asked_again);
        failed = writes;
    }
    assert!(rt; failed > 5 && failed < 999, "{failed} writes");
}

#[test]
fn each_write_fails(rt: HostRuntime) -> Result<(), Fail> {
    for failure in [Failure::Interrupted, Failure::TakesNothing] {
        check_writes(&rt, rt.alloc(), failure, SCRIPT, ANSWERS);
        for row in rows() {
            let script = script_of(rt.alloc(), row)?;
            let answers = answers_of(rt.alloc(), row)?;
            check_writes(
                &rt,
                rt.alloc(),
                failure,
                script.as_bytes(),
                answers.as_bytes(),
            );
        }
    }
    Ok(())
}

/// Output that is longer than what is collected is written in pieces.
#[test]
fn long_output(rt: HostRuntime) -> Result<(), Fail> {
    let mut script: Vec<u8> = Vec::from_slice(rt.alloc(), b"event reset\n")?;
    let mut wanted: Vec<u8> = Vec::new(rt.alloc());
    for _ in 0..150000 {
        script.extend_from_slice(b"is-set\n")?;
        wanted.extend_from_slice(b"false\n")?;
    }
    let (output, ended) = answer(rt.alloc(), script.as_slice());
    assert_eq!(rt; ended, Ok(()));
    assert!(rt; output.as_slice() == wanted.as_slice());
    for writes in 0..4 {
        let mut reader = script.as_slice();
        let mut writer = FailingWriter {
            taken: Vec::new(rt.alloc()),
            most: usize::MAX,
            writes,
            failure: Failure::Interrupted,
            has_failed: false,
            was_asked_again: false,
        };
        let ended = run_script(rt.alloc(), &mut reader, &mut writer);
        assert_eq!(rt; ended, Err(ScriptFault::Write));
        assert!(rt; wanted.as_slice().starts_with(writer.taken.as_slice()));
        assert!(rt; !writer.was_asked_again);
    }
    Ok(())
}

#[test]
fn reports(rt: HostRuntime) -> Result<(), Fail> {
    let faults: [(ScriptFault, &str, u8); 5] = [
        (ScriptFault::Read, "schedule: read failed\n", 1),
        (ScriptFault::Write, "schedule: write failed\n", 1),
        (ScriptFault::BadLine(1), "schedule: line 1 is bad\n", 2),
        (
            ScriptFault::BadLine(usize::MAX),
            "schedule: line 18446744073709551615 is bad\n",
            2,
        ),
        (ScriptFault::NoMemory, "schedule: no memory\n", 3),
    ];
    for (fault, text, status) in faults {
        let mut errors: Vec<u8> = Vec::new(rt.alloc());
        assert_eq!(rt; report(&fault, &mut errors), status);
        assert!(rt; errors.as_slice() == text.as_bytes());
        let mut broken = FailingWriter {
            taken: Vec::new(rt.alloc()),
            most: 3,
            writes: 2,
            failure: Failure::Interrupted,
            has_failed: false,
            was_asked_again: false,
        };
        assert_eq!(rt; report(&fault, &mut broken), status);
        assert!(rt; broken.taken.as_slice() == b"schedu".as_slice());
    }
    Ok(())
}
