//! Tables of rows, word for word.

use crate::rows::table_of;
use std::alloc::Global;
use tests_rows::{event, mutex, text_of};

/// A fair mutex: a lock that was notified keeps its place until it is polled, and one that is notified last is never polled again.
const MUTEX_FAIR: &str = "\
mutex fair 7
no  call       answer   wakes  queue                       others
2   try-lock   some 7
3   lock a     made                                        a fresh
4   lock b     made                                        a fresh, b fresh
5   poll a 1   pending         a registered                b fresh
6   poll b 2   pending         a registered, b registered
7   unlock 8   ok       1      a notified, b registered
8   try-lock   none            a notified, b registered
9   poll b 2   pending         a notified, b registered
10  poll a 1   some 8          b registered                a ended
11  is-locked  true            b registered                a ended
12  unlock 9   ok       2      b notified                  a ended
b was notified at 12, and neither polled nor cancelled since
";

/// A line that holds its wakers back notifies, and the wait is polled before anybody wakes it.
const EVENT_HELD_WAKE: &str = "\
event reset
no  call      answer   queue         others
2   wait w    made                   w fresh
3   poll w 1  pending  w registered
4   hold set  ok                     w notified
5   poll w 2  ready                  w ended
6   wakes     ok                     w ended
";

const TIMER_SCRIPT: &str = "timer
deadline a 30
deadline b 10
poll a 0 1
poll b 0 2
check 30
poll a 30 1";

/// Of a timer those stand first that expire first.
const TIMER: &str = "\
timer
no  call           answer   wakes  others
2   deadline a 30  made            a fresh
3   deadline b 10  made            b fresh, a fresh
4   poll a 0 1     pending         b fresh, a registered
5   poll b 0 2     pending         b registered, a registered
6   check 30       ok       2 1    b notified, a notified
7   poll a 30 1    ready           b notified, a ended
b was notified at 6, and neither polled nor cancelled since
";

// Whether this is the text of a row's table.
fn is_table(alloc: Global, row: &str, wanted: &str) -> bool {
    let Some(table) = table_of(alloc, row) else {
        return false;
    };
    let mut text = String::new(alloc);
    table.write(&mut text).is_ok() && text.as_str() == wanted
}

#[test]
fn mutex_fair(rt: HostRuntime) {
    assert!(rt; is_table(rt.alloc(), text_of(&mutex::ROWS, "mutex_fair"), MUTEX_FAIR));
}

#[test]
fn event_held_wake(rt: HostRuntime) {
    assert!(rt;
        is_table(
            rt.alloc(),
            text_of(&event::ROWS, "event_held_wake"),
            EVENT_HELD_WAKE
        )
    );
}

#[test]
fn timer_by_expiry(rt: HostRuntime) {
    assert!(rt; is_table(rt.alloc(), TIMER_SCRIPT, TIMER));
}
