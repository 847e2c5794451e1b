//! Histories as tables.
use fi_channels::{ChannelState, EventState};
use fi_desk::Journal;
use fi_parts::Slot;
use fi_parts::buffer::ArrayBuf;
use fi_run::{ChannelCall, EventCall, ScriptFutures};
use std::alloc::Global;

/// Whether this is the table of a history with these calls, each by its seat.
fn is_table<P: ScriptFutures + Drop>(
    alloc: Global,
    opening: P::Opening,
    calls: &[(u64, P::Call)],
    wanted: &str,
) -> Option<bool>
where
    P::Opening: Copy,
    P::Call: Copy,
{
    let mut journal = Journal::<P>::new(alloc, opening).ok()?;
    for (seat, call) in calls {
        journal.record(*seat, *call).ok()?;
    }
    let mut table = String::new(alloc);
    journal.settle().write_table(&mut table).ok()?;
    Some(table.as_str() == wanted)
}

const EVENT_CALLS: [(u64, EventCall<u64>); 10] = [
    (0, EventCall::Wait),
    (1, EventCall::Wait),
    (0, EventCall::Poll(Slot(0), 1)),
    (1, EventCall::Poll(Slot(1), 2)),
    (2, EventCall::Set),
    (2, EventCall::NextWake),
    (1, EventCall::Poll(Slot(1), 3)),
    (2, EventCall::NextWake),
    (1, EventCall::Cancel(Slot(1))),
    (3, EventCall::Cancel(Slot(7))),
];

/// The wait of seat 0 is notified, and its task never comes back. The waker of the other, which was polled in time, is named no more.
const EVENT_TABLE: &str = "\
event reset
no  seat  call       answer   wakes  queue                         others
0   0     wait w0    made                                          w0 fresh
1   1     wait w1    made                                          w0 fresh, w1 fresh
2   0     poll w0 1  pending         w0 registered                 w1 fresh
3   1     poll w1 2  pending         w0 registered, w1 registered
4   2     set        ok       1 2                                  w0 notified, w1 notified
5   2     next-wake  some 1                                        w0 notified, w1 notified
6   1     poll w1 3  ready                                         w0 notified, w1 ended
7   2     next-wake  none                                          w0 notified, w1 ended
8   1     cancel w1  ok                                            w0 notified
9   3     cancel w7  no-slot                                       w0 notified
w0 was notified at 4, and neither polled nor cancelled since
";

#[test]
fn a_lost_wakeup_is_told(rt: HostRuntime) {
    let is_table = is_table::<EventState<u64>>(
        rt.alloc(),
        false,
        EVENT_CALLS.as_slice(),
        EVENT_TABLE,
    );
    assert!(rt; is_table == Some(true));
}

const CHANNEL_CALLS: [(u64, ChannelCall<u64, u64>); 8] = [
    (0, ChannelCall::Send(5)),
    (0, ChannelCall::PollSend(Slot(0), 1)),
    (1, ChannelCall::Stream),
    (1, ChannelCall::PollNext(Slot(0), 2)),
    (1, ChannelCall::PollNext(Slot(0), 2)),
    (0, ChannelCall::PollSend(Slot(0), 1)),
    (2, ChannelCall::Close),
    (1, ChannelCall::PollNext(Slot(0), 3)),
];

/// A send whose value was taken was notified, and so was a stream that a closing sent back. One that was given a value is fresh.
const CHANNEL_TABLE: &str = "\
channel array 0
no  seat  call       answer        wakes  queue          others
0   0     send s0 5  made                                s0 fresh
1   0     poll s0 1  pending              s0 registered
2   1     stream r0  made                 s0 registered  r0 fresh
3   1     poll r0 2  some 5        1                     s0 notified, r0 fresh
4   1     poll r0 2  pending              r0 registered  s0 notified
5   0     poll s0 1  ok                   r0 registered  s0 ended
6   2     close      newly-closed  2                     s0 ended, r0 notified
7   1     poll r0 3  end                                 s0 ended, r0 ended
";

#[test]
fn both_sides_of_a_channel_have_their_queues(rt: HostRuntime) {
    let is_table = is_table::<ChannelState<u64, ArrayBuf<u64, 0>, u64>>(
        rt.alloc(),
        0,
        CHANNEL_CALLS.as_slice(),
        CHANNEL_TABLE,
    );
    assert!(rt; is_table == Some(true));
}
