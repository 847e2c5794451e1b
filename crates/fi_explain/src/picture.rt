//! Tables as pages of SVG: a line for each row, and a lane for each future.

use fi_parts::Stage;
use fi_run::{Table, TableRow};
use std::alloc::{AllocError, Global};

/// The columns that stand left of the lanes: all but those of futures.
const COLUMNS: usize = 5;

/// How wide a character and a lane are, and how high a row, in pixels.
const CHARACTER: usize = 8;

const LANE: usize = 72;

const ROW: usize = 24;

/// The words of the key, and how wide it is.
const KEY: [&str; 5] = ["made", "waits", "notified", "ready", "cancelled"];

const KEY_WIDTH: usize = 520;

/// Where the first row, the first column and the first lane begin.
const TOP: usize = 60;

const LEFT: usize = 12;

/// What each class of lines and marks looks like.
const STYLE: &str = "<style>\
text{font:13px monospace;fill:#1f2328}\
line{stroke-width:2;stroke:#8c959f}\
.waits{stroke-width:8;stroke:#54aeff}\
.notified{stroke-width:8;stroke:#fb8f44}\
.ended{stroke-dasharray:2 4}\
circle{stroke-width:2;stroke:#1f2328;fill:#fff}\
circle.notified{stroke:#1f2328;stroke-width:2;fill:#fb8f44}\
circle.ready{fill:#2da44e}\
</style>\n";

/// Appends a table as a page of SVG: time runs downwards, and each future has a lane, which begins where it was made, is thick while it
/// waits or is notified, and ends where it was cancelled. It takes time for each row and each future.
pub fn write_picture(alloc: Global, table: &Table, svg: &mut String) -> Result<(), AllocError> {
    let heads = TableRow::heads(alloc)?;
    let widths = table.widths(&heads, COLUMNS)?;
    let mut left = LEFT;
    for width in &widths {
        if *width > 0 {
            left = left.saturating_add(width.saturating_add(2).saturating_mul(CHARACTER));
        }
    }
    write_head(table, left, svg)?;
    write_words(
        &heads,
        alloc,
        widths.as_slice(),
        TOP.saturating_sub(ROW),
        svg,
    )?;
    let mut before = Vec::new(alloc);
    for (number, lane) in table.lanes.iter().enumerate() {
        before.push(None)?;
        let label = lane.label.as_str();
        let (x, y) = (x_of(left, number), TOP.saturating_sub(ROW));
        write!(
            svg,
            "<text x=\"{x}\" y=\"{y}\" text-anchor=\"middle\">{label}</text>\n"
        )?;
    }
    for (number, row) in table.rows.iter().enumerate() {
        write_words(row, alloc, widths.as_slice(), y_of(number), svg)?;
        write_row(alloc, row, &mut before, left, y_of(number), svg)?;
    }
    write_key(y_of(table.rows.len().saturating_add(1)), svg)?;
    svg.push_str("</svg>\n")
}

fn x_of(left: usize, lane: usize) -> usize {
    lane.saturating_mul(LANE)
        .saturating_add(LANE / 2)
        .saturating_add(left)
}

fn y_of(row: usize) -> usize {
    row.saturating_mul(ROW).saturating_add(TOP)
}

// The head of the page, its style, and the opening as its title.
fn write_head(table: &Table, left: usize, svg: &mut String) -> Result<(), AllocError> {
    let width = x_of(left, table.lanes.len()).max(KEY_WIDTH);
    let height = y_of(table.rows.len().saturating_add(2));
    let opening = table.opening.as_str();
    write!(
        svg,
        "<svg xmlns=\"http://www.w3.org/2000/svg\" width=\"{width}\" height=\"{height}\">\n"
    )?;
    svg.push_str(STYLE)?;
    svg.push_str("<rect width=\"100%\" height=\"100%\" fill=\"#fff\"/>\n")?;
    write!(
        svg,
        "<title>{opening}</title>\n<text x=\"{LEFT}\" y=\"18\">{opening}</text>\n"
    )
}

// The words of a row.
fn write_words(
    row: &TableRow,
    alloc: Global,
    widths: &[usize],
    y: usize,
    svg: &mut String,
) -> Result<(), AllocError> {
    write!(svg, "<text x=\"{LEFT}\" y=\"{y}\" xml:space=\"preserve\">")?;
    row.write(alloc, widths, svg)?;
    svg.push_str("</text>\n")
}

// A piece of each lane, from this row to the next, and a mark where the row made, notified, ended or cancelled its future.
fn write_row(
    alloc: Global,
    row: &TableRow,
    before: &mut Vec<Option<Stage>>,
    left: usize,
    y: usize,
    svg: &mut String,
) -> Result<(), AllocError> {
    let mut now: Vec<Option<Stage>> = vec![in alloc; None; before.len()]?;
    for (number, stage) in &row.futures {
        if let Some(place) = now.get_mut(*number) {
            *place = Some(*stage);
        }
    }
    for (number, (was, is)) in before.iter().zip(now.iter()).enumerate() {
        write_piece(x_of(left, number), y.saturating_sub(4), *was, *is, svg)?;
    }
    *before = now;
    Ok(())
}

fn write_piece(
    x: usize,
    y: usize,
    was: Option<Stage>,
    is: Option<Stage>,
    svg: &mut String,
) -> Result<(), AllocError> {
    if let Some(stage) = is {
        let class = class_of(stage);
        let end = y.saturating_add(ROW);
        write!(
            svg,
            "<line class=\"{class}\" x1=\"{x}\" y1=\"{y}\" x2=\"{x}\" y2=\"{end}\"/>\n"
        )?;
    }
    match (was, is) {
        (None, Some(_)) => write_mark("made", x, y, svg),
        (Some(_), None) => {
            let y = y.saturating_add(4);
            write!(
                svg,
                "<text x=\"{x}\" y=\"{y}\" text-anchor=\"middle\">×</text>\n"
            )
        }
        (Some(before), Some(stage)) if before != stage => match stage {
            Stage::Notified => write_mark("notified", x, y, svg),
            Stage::Ended => write_mark("ready", x, y, svg),
            _ => Ok(()),
        },
        _ => Ok(()),
    }
}

fn write_mark(class: &str, x: usize, y: usize, svg: &mut String) -> Result<(), AllocError> {
    write!(
        svg,
        "<circle class=\"{class}\" cx=\"{x}\" cy=\"{y}\" r=\"5\"/>\n"
    )
}

fn class_of(stage: Stage) -> &'static str {
    match stage {
        Stage::Fresh => "fresh",
        Stage::Registered => "waits",
        Stage::Notified | Stage::Complete => "notified",
        Stage::Ended => "ended",
    }
}

// What the marks and the thick pieces mean.
fn write_key(y: usize, svg: &mut String) -> Result<(), AllocError> {
    let (line, text) = (y.saturating_add(4), y.saturating_add(8));
    for (place, word) in KEY.iter().enumerate() {
        let x = place.saturating_mul(96).saturating_add(24);
        let begin = x.saturating_add(12);
        match *word {
            "waits" => {
                let (from, to) = (x.saturating_sub(8), x.saturating_add(8));
                write!(
                    svg,
                    "<line class=\"waits\" x1=\"{from}\" y1=\"{line}\" x2=\"{to}\" y2=\"{line}\"/>\n"
                )?;
            }
            "cancelled" => {
                write!(
                    svg,
                    "<text x=\"{x}\" y=\"{text}\" text-anchor=\"middle\">×</text>\n"
                )?;
            }
            class => write_mark(class, x, line, svg)?,
        }
        write!(svg, "<text x=\"{begin}\" y=\"{text}\">{word}</text>\n")?;
    }
    Ok(())
}
