//! Each worked row is explained to its end, drawn as text and as a picture, and its answers are those of the row.

use fi_explain::{explain_script, write_picture};
use fi_run::Table;
use std::alloc::{AllocError, Global};
use tests_rows::{
    Row, answers_of, channel, event, histories, mutex, one_value, over_buffer, pool, script_of,
    semaphore, state, timer,
};

/// The table of a row. None if memory is missing, or the row is not explained to its end.
pub(crate) fn table_of(alloc: Global, row: &str) -> Option<Table> {
    let script = script_of(alloc, row).ok()?;
    let mut table = Table::new(alloc);
    explain_script(alloc, script.as_str().as_bytes(), &mut table).ok()?;
    Some(table)
}

// The answers of a table's rows, as the program `schedule` writes them.
fn answers_in(alloc: Global, table: &Table) -> Result<String, AllocError> {
    let mut answers = String::new(alloc);
    for row in &table.rows {
        answers.push_str(row.answer.as_str())?;
        if !row.wakers.is_empty() {
            answers.push_str(" wakes ")?;
            answers.push_str(row.wakers.as_str())?;
        }
        answers.push_str("\n")?;
    }
    Ok(answers)
}

// Whether a table has the answers of a row.
fn is_answered(alloc: Global, row: &str, table: &Table) -> bool {
    match (answers_of(alloc, row), answers_in(alloc, table)) {
        (Ok(wanted), Ok(answers)) => answers.as_str() == wanted.as_str(),
        _ => false,
    }
}

// Whether a table is drawn as text and as a picture.
fn is_drawn(alloc: Global, table: &Table) -> bool {
    let (mut text, mut picture) = (String::new(alloc), String::new(alloc));
    let is_drawn = table.write(&mut text).is_ok()
        && write_picture(alloc, table, &mut picture).is_ok();
    is_drawn && !text.is_empty() && picture.as_str().ends_with("</svg>\n")
}

fn is_explained(alloc: Global, row: &str) -> bool {
    match table_of(alloc, row) {
        Some(table) => is_answered(alloc, row, &table) && is_drawn(alloc, &table),
        None => false,
    }
}

// The first of these rows that is not explained.
fn first_wrong(alloc: Global, rows: &[Row]) -> Option<&'static str> {
    for row in rows {
        if !is_explained(alloc, row.text) {
            return Some(row.name);
        }
    }
    None
}

#[test]
fn event_rows(rt: HostRuntime) {
    let wrong = first_wrong(rt.alloc(), &event::ROWS).or(first_wrong(rt.alloc(), &event::TEXTS));
    assert!(rt; wrong.is_none(), "{wrong:?}");
}

#[test]
fn one_value_rows(rt: HostRuntime) {
    let oneshot = first_wrong(rt.alloc(), &one_value::ONESHOT);
    let wrong = oneshot.or(first_wrong(rt.alloc(), &one_value::BROADCAST));
    assert!(rt; wrong.is_none(), "{wrong:?}");
}

#[test]
fn state_broadcast_rows(rt: HostRuntime) {
    let wrong = first_wrong(rt.alloc(), &state::ROWS);
    assert!(rt; wrong.is_none(), "{wrong:?}");
}

#[test]
fn mutex_rows(rt: HostRuntime) {
    let wrong = first_wrong(rt.alloc(), &mutex::ROWS).or(first_wrong(rt.alloc(), &mutex::TEXTS));
    assert!(rt; wrong.is_none(), "{wrong:?}");
}

#[test]
fn semaphore_rows(rt: HostRuntime) {
    let rows = first_wrong(rt.alloc(), &semaphore::ROWS);
    let wrong = rows.or(first_wrong(rt.alloc(), &semaphore::TEXTS));
    assert!(rt; wrong.is_none(), "{wrong:?}");
}

#[test]
fn timer_rows(rt: HostRuntime) {
    let wrong = first_wrong(rt.alloc(), &timer::ROWS).or(first_wrong(rt.alloc(), &timer::TEXTS));
    assert!(rt; wrong.is_none(), "{wrong:?}");
}

#[test]
fn pool_rows(rt: HostRuntime) {
    let wrong = first_wrong(rt.alloc(), &pool::ROWS);
    assert!(rt; wrong.is_none(), "{wrong:?}");
}

#[test]
fn channel_rows(rt: HostRuntime) {
    let rows = first_wrong(rt.alloc(), &channel::ROWS);
    let wrong = rows.or(first_wrong(rt.alloc(), &channel::TEXTS));
    assert!(rt; wrong.is_none(), "{wrong:?}");
}

// The first of the channel's rows that is not explained over a heap buffer of this kind.
fn first_wrong_over(alloc: Global, kind: &str) -> Option<&'static str> {
    for row in &channel::ROWS {
        let Ok(text) = over_buffer(alloc, kind, row.text) else {
            return Some(row.name);
        };
        if !is_explained(alloc, text.as_str()) {
            return Some(row.name);
        }
    }
    None
}

#[test]
fn channel_rows_over_heap_buffers(rt: HostRuntime) {
    let fixed = first_wrong_over(rt.alloc(), "fixed");
    let wrong = fixed.or(first_wrong_over(rt.alloc(), "growing"));
    assert!(rt; wrong.is_none(), "{wrong:?}");
}

const HISTORIES: [Row; 9] = [
    histories::EVENT_HISTORY,
    histories::ONESHOT_HISTORY,
    histories::BROADCAST_HISTORY,
    histories::STATE_BROADCAST_HISTORY,
    histories::CHANNEL_HISTORY,
    histories::MUTEX_HISTORY,
    histories::SEMAPHORE_HISTORY,
    histories::TIMER_HISTORY,
    histories::POOL_HISTORY,
];

#[test]
fn written_histories(rt: HostRuntime) {
    let wrong = first_wrong(rt.alloc(), &HISTORIES);
    assert!(rt; wrong.is_none(), "{wrong:?}");
}
