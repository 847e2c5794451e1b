//! Lines that are no lines of the language, or not where they stand.

use crate::rows::answer;
use fi_scripts::ScriptFault;
use std::alloc::{AllocError, Global};

/// Lines, apart by `|`, each of which is bad where it stands next after those before it. One of them may be empty.
#[derive(Clone, Copy)]
struct BadLines {
    before: &'static str,
    lines: &'static str,
}

const BAD_LINES: [BadLines; 10] = [
    BadLines {
        before: "",
        lines: "|event|event | event reset|event  reset|event reset |event reset\r|event\treset|Event reset\
            |event RESET|event set set|event 0|events set|hold event set|timer 0|timer |timers|Timer\
            |hold timer|mutex|mutex |mutex 7|mutex fair|mutex fair |mutex fair x|mutex fair 07|mutex fair -7\
            |mutex fair  7|mutex fair 7 |mutex fair 7 7|mutex fair 18446744073709551616|mutex fairly 1\
            |mutex Fair 1|mutex fa 1|mutex unfair|mutex unfair 18446744073709551616|mutexes fair 1\
            |hold mutex fair 7|semaphore|semaphore 3|semaphore fair|semaphore fair -3\
            |semaphore fair 18446744073709551616|semaphore unfair 3 3|semaphore unfairly 3|semaphores fair 3\
            |pool|pool |pool 1|pool 1 |pool 1 2 3|pool 1 2 |pool 1  2|pool 1 65537|pool 18446744073709551616 2\
            |pool 01 2|pool 1 02|pool -1 2|pool w 2|pool 1 w|pool fair 2|pool 1\t2|pool 1 2\r|pools 1 2|Pool 1 2\
            |hold pool 1 2|channel|channel 1|channel array|channel array |channel array 3|channel array 4\
            |channel array 6|channel array 00|channel array 01|channel array 1 1|channel array  1\
            |channel array 1 |channel array 65536|channel arrays 1|channel Array 1|channel a 1|channel fixed\
            |channel fixed 65537|channel fixed -1|channel fixed 01|channel fixed x|channel fixed 1 1\
            |channel fixed 18446744073709551616|channel fixedly 1|channel growing|channel growing 65537\
            |channel growing 01|channel growing 1 |channel growing growing|channel grow 1|channels array 1\
            |hold channel array 1|latch|set|wakes",
    },
    BadLines {
        before: "event reset\n",
        lines: "| set|set |set\r|set\t|set now|SET|sett|reset 1|is-set is-set|is_set\
            |hold|hold |hold  set|hold hold set|hold wakes|hold nothing|wakes |wakes wakes\
            |event reset|receive a|send 5|close|lock a|release 1|check 1|next\
            |deadline a 1|delay a 1 1|timer|try-lock|unlock 5|is-locked|mutex fair 7\
            |acquire a 1|try-acquire 1|release 1|give-back 1|disarm 1|permits\
            |held|semaphore fair 3|submit 5|start|finish|shutdown|pool 1 2|stream a\
            |send a 1|try-send 1|try-receive|channel array 1",
    },
    BadLines {
        before: "event reset\nwait w\n",
        lines: "wait|wait |wait  a|wait a |wait a b|wait a 1|wait a 1 1|wait A|wait aB|wait 1|wait 1a|wait a-b\
            |wait a_b|wait a`|wait a{|wait a/|wait a:|wait @|wait a\u{7f}|wait a\u{0}|wait \u{e9}|wait a\u{e9}\
            |wait abcdefghijklmnopq|wait w|hold wait w|poll v 1|cancel v|cancel|cancel |cancel w |cancel w w\
            |cancel W|poll w|poll w |poll  w 1|poll w  1|poll w 1 |poll w 1 1|poll w 1 1 1|poll w 00|poll w 01\
            |poll w -1|poll w +1|poll w 1x|poll w x1|poll w 0x1|poll w 1_000|poll w 1.0|poll w /|poll w :\
            |poll w \u{661}|poll w 18446744073709551616|poll w 18446744073709551620|poll w 28446744073709551615\
            |poll w 99999999999999999999999999",
    },
    BadLines {
        before: "channel array 1\nreceive w\nsend s 5\n",
        lines: "send|send 5|send v|send V 5|send v 5 5|send v 05|send w 5|send s 5\
            |receive 5|receive v 5|receive|receive w|stream|stream v 5|stream 5|stream w|streams v\
            |poll w|poll s|poll w 5 5|poll v 5|poll 5|cancel|cancel v|cancel w 5|cancel 5\
            |try-send|try-send v|try-send v 5|try-send 5 5|try-send 05|try-send 18446744073709551616|try-sends 5\
            |try_send 5|trysend 5|try-receive v|try-receive 5|close v|close 5\
            |hold|hold hold close|hold wakes|wait v|set|lock v|release 1|check 1\
            |channel array 1",
    },
    BadLines {
        before: "mutex fair 7\nlock w\n",
        lines: "lock|lock w|lock v 5|lock 5|lock v |lock  v|lock v\r|poll w|poll w 5 5|poll w 05|poll w x\
            |poll w 18446744073709551616|poll v 5|poll 5|cancel w 5|cancel v\
            |try-lock 5|try-lock w|try-lock v|trylock|unlock|unlock w|unlock w 5|unlock v 5|unlock 5 5|unlock 05\
            |unlock -5|unlock 18446744073709551616|is-locked 5|is-locked w|is-locked v\
            |is_locked|hold|hold hold is-locked|wait v|check 5|send 5|mutex|mutex fair 7",
    },
    BadLines {
        before: "semaphore fair 5\nacquire w 5\n",
        lines: "acquire|acquire v|acquire 5|acquire w 5|acquire v 5 5|acquire v 05|acquire v -5|acquire v x\
            |acquire v 18446744073709551616|acquire V 5|poll w|poll w 5 5|poll v 5\
            |cancel w 5|cancel v|try-acquire|try-acquire w|try-acquire v 5|try-acquire 5 5\
            |try-acquire 18446744073709551616|release|release w|release w 5|release 05|release -5\
            |give-back|give-back w 5|give-back 5 5|give_back 5|giveback 5|disarm|disarm w|disarm 5 \
            |permits 5|permits w|permit|held 5|held v|held\r|hold|hold hold held\
            |lock v|unlock 5|semaphore|semaphore fair 5",
    },
    BadLines {
        before: "timer\ndeadline w 5\n",
        lines: "deadline|deadline 5|deadline w 5|deadline v|deadline v |deadline v 5 |deadline v  5|deadline v 5 5\
            |deadline v 05|deadline v 18446744073709551616|delay v|delay v 5|delay v 5 |delay v 5  5\
            |delay v 5 5 |delay v 5 5 5|delay v 5 05|delay v 05 5|delay v 5 x|delay v x 5\
            |delay v 5 18446744073709551616|delay v 18446744073709551616 5|delay 5 5\
            |poll w|poll w 5|poll w 5 5 5|poll w 5 18446744073709551616|poll w 18446744073709551616 5\
            |poll w 5 5\r|poll v 5 5|poll 5 5|cancel w 5|cancel w 5 5|cancel v\
            |check|check w|check w 5|check 5 5|check 18446744073709551616|next 5|next w|next 5 5\
            |hold|hold hold next|wait v|set|timer",
    },
    BadLines {
        before: "pool 1 2\nwait w\n",
        lines: "submit|submit v|submit w 5|submit v 5|submit 5 5|submit 05|submit -5|submit 18446744073709551616\
            |submit 5 |submits 5|start 5|start v|start w|star|started|finish 5|finish v|finish w|finished\
            |shutdown 5|shutdown v|shutdown w|shut-down|shutdown\r|wait|wait w|wait 5|wait v 5|wait V\
            |poll|poll w|poll w 5 5|poll w 05|poll v 5|cancel|cancel w 5|cancel v\
            |set|is-set|close|permits|send 5|try-send 5|release 5|receive v\
            |hold|hold hold start|hold wakes|pool|pool 1 2",
    },
    BadLines {
        before: "event set\nwait w\npoll w 1\n",
        lines: "wait w",
    },
    BadLines {
        before: "event set\nwait w\ncancel w\n",
        lines: "poll w 1|cancel w",
    },
];

// Answers a script whose last line but one is this. Whether that line is bad, and those before it were answered.
fn is_bad(alloc: Global, before: &str, line: &str, number: usize) -> Result<bool, AllocError> {
    let mut script = String::from_str(alloc, before)?;
    script.push_str(line)?;
    script.push_str("\nset\n")?;
    let (output, ended) = answer(alloc, script.as_bytes());
    let answered = output.as_slice().split(|byte| *byte == b'\n').count();
    Ok(ended == Err(ScriptFault::BadLine(number)) && answered == number.saturating_sub(1).max(1))
}

// The first of these rows' lines that is not bad, and the lines before it.
fn first_good(alloc: Global, rows: &[BadLines]) -> Option<(&'static str, &'static str)> {
    for row in rows {
        // Each of the lines before ends, so this is the number of the next.
        let number = row.before.split('\n').count();
        for line in row.lines.split('|') {
            if is_bad(alloc, row.before, line, number) != Ok(true) {
                return Some((row.before, line));
            }
        }
    }
    None
}

#[test]
fn bad_lines(rt: HostRuntime) {
    let good = first_good(rt.alloc(), &BAD_LINES);
    assert!(rt; good.is_none(), "{good:?}");
}
