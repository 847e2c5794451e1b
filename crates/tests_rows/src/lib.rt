//! The worked rows: scripts with their answers, each written once. `tests_scripts` has the program's library answer them, and a recorded
//! history of each; `tests_flavours` and `tests_ends_lists` make their calls on what threads share.
//!
//! A line of a row may go on with ` -> ` and its answer. A line without it is answered `made`.
//!
//! `calls` reads the lines by which other tests list calls.
#![tactic(auto)]

use fi_scripts::Scripted;
use std::alloc::{AllocError, Global};

pub mod calls;
pub mod channel;
pub mod event;
pub mod histories;
pub mod mutex;
pub mod one_value;
pub mod pool;
pub mod semaphore;
pub mod state;
pub mod timer;

/// What stands between a row's line and its answer.
const ANSWERED: &str = " -> ";

/// A script with its answers.
#[derive(Clone, Copy)]
pub struct Row {
    pub name: &'static str,
    pub text: &'static str,
}

/// The text of the row of this name; none, if there is no such row.
pub fn text_of(rows: &[Row], name: &str) -> &'static str {
    for row in rows {
        if row.name == name {
            return row.text;
        }
    }
    ""
}

/// What the first line of a row opens, by the words behind the primitive's name.
pub fn opening_of<P: Scripted>(row: &str) -> Option<P::Opening> {
    let (first, _) = row.split_once('\n')?;
    match first.split_once(' ') {
        Some((_, words)) => P::opening(Some(words.as_bytes())),
        None => P::opening(None),
    }
}

/// What a line of a row says of its script: all but the answer.
pub fn call_of(line: &str) -> &str {
    match line.split_once(ANSWERED) {
        Some((call, _)) => call,
        None => line,
    }
}

/// The script of a row.
pub fn script_of(alloc: Global, row: &str) -> Result<String, AllocError> {
    let mut script = String::new(alloc);
    for line in row.split('\n') {
        script.push_str(call_of(line))?;
        script.push_str("\n")?;
    }
    Ok(script)
}

/// The output of a row.
pub fn answers_of(alloc: Global, row: &str) -> Result<String, AllocError> {
    let mut answers = String::new(alloc);
    let mut lines = row.split('\n');
    // The first line has no answer.
    let _ = lines.next();
    for line in lines {
        answers.push_str(answer_of(line))?;
        answers.push_str("\n")?;
    }
    Ok(answers)
}

/// The output of a row's recorded history. It leaves out what is answered `no-slot`, which changed nothing, and takes wakers out with the
/// call before.
pub fn recorded_answers_of(alloc: Global, row: &str) -> Result<String, AllocError> {
    let mut answers = String::new(alloc);
    let mut lines = row.split('\n');
    // The first line has no answer.
    let _ = lines.next();
    for line in lines {
        let answer = answer_of(line);
        if call_of(line) == "wakes" {
            answers.push_str(answer.strip_prefix("ok").unwrap_or(answer))?;
        } else if answer != "no-slot" {
            if !answers.is_empty() {
                answers.push_str("\n")?;
            }
            answers.push_str(answer)?;
        }
    }
    answers.push_str("\n")?;
    Ok(answers)
}

/// The script of a row without the lines that are answered `no-slot`.
pub fn recorded_script_of(alloc: Global, row: &str) -> Result<String, AllocError> {
    let mut script = String::new(alloc);
    for line in row.split('\n') {
        if answer_of(line) != "no-slot" {
            script.push_str(call_of(line))?;
            script.push_str("\n")?;
        }
    }
    Ok(script)
}

fn answer_of(line: &str) -> &str {
    match line.split_once(ANSWERED) {
        Some((_, answer)) => answer,
        None => "made",
    }
}

/// A row of a channel over an array, as one over a buffer of this kind.
pub fn over_buffer(alloc: Global, kind: &str, row: &str) -> Result<String, AllocError> {
    let mut text = String::from_str(alloc, "channel ")?;
    text.push_str(kind)?;
    if let Some((_, rest)) = row.split_once(" array") {
        text.push_str(rest)?;
    }
    Ok(text)
}
