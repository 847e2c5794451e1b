//! Why lines are bad.

use fi_explain::{Reason, Stop, explain_script};
use fi_run::Table;
use std::alloc::Global;

/// Lines, apart by `|`, each of which is bad for this reason where it stands next after those before it.
#[derive(Clone, Copy)]
struct Lines {
    reason: Reason,
    before: &'static str,
    lines: &'static str,
}

const EVENT: &str = "event reset\nwait w\n";

const CHANNEL: &str = "channel array 1\nreceive w\n";

const LINES: [Lines; 16] = [
    Lines {
        reason: Reason::UnknownPrimitive,
        before: "",
        lines: "|latch|set|Event reset",
    },
    Lines {
        reason: Reason::UnknownOpening,
        before: "",
        lines: "event|event now|mutex fair|channel|channel array 3|pool 1",
    },
    Lines {
        reason: Reason::EmptyLine,
        before: EVENT,
        lines: "",
    },
    Lines {
        reason: Reason::Spaces,
        before: EVENT,
        lines: " set|set |poll  w 1|hold  set|hold ",
    },
    Lines {
        reason: Reason::UnknownVerb,
        before: EVENT,
        lines: "sett|SET|hold hold set|hold wakes|wakes now|event reset",
    },
    Lines {
        reason: Reason::OtherPrimitive,
        before: EVENT,
        lines: "receive a|send 5|try-lock|lock w",
    },
    Lines {
        reason: Reason::LabelMissing,
        before: EVENT,
        lines: "wait|poll|poll 1|cancel|wait 1",
    },
    Lines {
        reason: Reason::NotALabel,
        before: EVENT,
        lines: "wait A|wait a-b|poll W 1|poll w x|set now!",
    },
    Lines {
        reason: Reason::LabelTooMany,
        before: EVENT,
        lines: "set now|set w|reset a 1|is-set w",
    },
    Lines {
        reason: Reason::LabelInUse,
        before: EVENT,
        lines: "wait w|hold wait w",
    },
    Lines {
        reason: Reason::LabelInUse,
        before: CHANNEL,
        lines: "receive w|stream w|send w 5",
    },
    Lines {
        reason: Reason::LabelNotInUse,
        before: EVENT,
        lines: "poll v 1|cancel v|poll v|hold cancel v",
    },
    Lines {
        reason: Reason::NumberMissing,
        before: EVENT,
        lines: "poll w",
    },
    Lines {
        reason: Reason::NumberMissing,
        before: CHANNEL,
        lines: "try-send|send s",
    },
    Lines {
        reason: Reason::TooManyNumbers,
        before: EVENT,
        lines: "poll w 1 2|poll w 1 2 3|set 1|wait a 1|cancel w 1",
    },
    Lines {
        reason: Reason::NotANumber,
        before: EVENT,
        lines: "poll w 01|poll w 1x|poll w 18446744073709551616|set 1 2x|poll 00",
    },
];

// How the last of these lines ends the script.
fn stop_of(alloc: Global, before: &str, line: &str) -> Option<Stop> {
    let mut script = String::from_str(alloc, before).ok()?;
    script.push_str(line).ok()?;
    script.push_str("\nset\n").ok()?;
    let mut table = Table::new(alloc);
    explain_script(alloc, script.as_str().as_bytes(), &mut table).err()
}

// The first of these lines that is not bad for its reason.
fn first_wrong(alloc: Global, rows: &[Lines]) -> Option<(Reason, &'static str)> {
    for row in rows {
        // Each of the lines before ends, so this is the number of the next.
        let number = row.before.split('\n').count();
        for line in row.lines.split('|') {
            if stop_of(alloc, row.before, line) != Some(Stop::BadLine(number, row.reason)) {
                return Some((row.reason, line));
            }
        }
    }
    None
}

#[test]
fn each_bad_line_has_its_reason(rt: HostRuntime) {
    let wrong = first_wrong(rt.alloc(), &LINES);
    assert!(rt; wrong.is_none(), "{wrong:?}");
}
