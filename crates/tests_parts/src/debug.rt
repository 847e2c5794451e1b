//! The texts of `Debug` and `Display`.
use fi_parts::{
    ChannelSendError, Deadlines, Fault, Leftover, LinkedList, LiveFuture, MockClock, Outbox,
    PairingHeap, Phase, StdClock, Ticket, Ticketed, WaitQueue, Waits,
};
use std::alloc::Global;
use std::io::{self, ErrorKind};
use tests_help::refusals::{no_memory, no_room};
use tests_help::texts::{reads, shows};

#[test]
fn a_list_shows_its_name(rt: HostRuntime) {
    let list = LinkedList::<u32>::new(rt.alloc());
    assert!(rt; shows(rt.alloc(), &list, "LinkedList"));
}

#[test]
fn a_drain_shows_its_name(rt: HostRuntime) {
    let mut list = LinkedList::<u32>::new(rt.alloc());
    assert!(rt; shows(rt.alloc(), &list.drain(), "Drain"));
}

#[test]
fn a_reverse_drain_shows_its_name(rt: HostRuntime) {
    let mut list = LinkedList::<u32>::new(rt.alloc());
    assert!(rt; shows(rt.alloc(), &list.reverse_drain(), "ReverseDrain"));
}

#[test]
fn a_heap_shows_its_name(rt: HostRuntime) {
    let heap = PairingHeap::<u32>::new(rt.alloc());
    assert!(rt; shows(rt.alloc(), &heap, "PairingHeap"));
}

#[test]
fn an_outbox_shows_its_name(rt: HostRuntime) {
    let outbox = Outbox::<u32>::new(rt.alloc());
    assert!(rt; shows(rt.alloc(), &outbox, "Outbox"));
}

#[test]
fn a_wait_queue_shows_its_name(rt: HostRuntime) {
    let queue = WaitQueue::<u32, u64>::new(rt.alloc());
    assert!(rt; shows(rt.alloc(), &queue, "WaitQueue"));
}

#[test]
fn waits_show_their_name(rt: HostRuntime) {
    let waits = Waits::<u32, u64>::new(rt.alloc());
    assert!(rt; shows(rt.alloc(), &waits, "Waits"));
}

#[test]
fn deadlines_show_their_name(rt: HostRuntime) {
    let deadlines = Deadlines::<u64>::new(rt.alloc());
    assert!(rt; shows(rt.alloc(), &deadlines, "Deadlines"));
}

#[test]
fn what_has_a_ticket_shows_its_fields(rt: HostRuntime) {
    let future = LiveFuture {
        asks: 5,
        phase: Phase::Registered(7),
    };
    let ticketed = Ticketed {
        ticket: Ticket(3),
        future,
    };
    let wanted =
        "Ticketed { ticket: Ticket(3), future: LiveFuture { asks: 5, phase: Registered(7) } }";
    assert!(rt; shows(rt.alloc(), &ticketed, wanted));
}

#[test]
fn values_show_their_fields(rt: HostRuntime) {
    let leftover = Leftover::of(Some(1), None);
    let wanted = "Leftover { displaced: Some(1), unused: None }";
    let is_shown = shows(rt.alloc(), &Phase::<u64>::Told, "Told");
    assert!(rt; is_shown && shows(rt.alloc(), &leftover, wanted));
}

#[test]
fn clocks_as_in_the_rust_crate(rt: HostRuntime) {
    let clock = MockClock::new();
    clock.set_time(50);
    assert!(rt; shows(rt.alloc(), &clock, "MockClock { now: 50 }"));
    let clock = StdClock::new(rt).expect(&rt, "memory");
    assert!(rt; shows(rt.alloc(), &clock, "StdClock"));
}

// Whether these faults have these texts.
fn read_so(alloc: Global, rows: &[(Fault, &str)]) -> bool {
    for (fault, wanted) in rows {
        if !reads(alloc, fault, wanted) {
            return false;
        }
    }
    true
}

#[test]
fn faults_say_what_is_wrong(rt: HostRuntime) {
    let fault = no_memory(rt.alloc()).expect(&rt, "refused");
    let rows = [
        (fault, "out of memory"),
        (Fault::Closed, "the channel or semaphore is closed"),
        (Fault::Full, "the channel is full"),
        (Fault::Empty, "the channel is empty"),
        (
            Fault::NoSlot,
            "the future was cancelled, has ended, or is of another kind",
        ),
        (
            Fault::Overflow,
            "there would be more permits than can be counted",
        ),
        (Fault::NotHeld, "more was given back than is held"),
        (Fault::TooManyEnds, "no further end or seat can be made"),
    ];
    assert!(rt; read_so(rt.alloc(), rows.as_slice()));
}

#[test]
fn errors_say_what_is_wrong(rt: HostRuntime) {
    let failed = no_room(rt.alloc(), 3).expect(&rt, "refused");
    let is_read = reads(rt.alloc(), &failed, "out of memory");
    assert!(rt; is_read && reads(rt.alloc(), &ChannelSendError(3), "the channel is closed"));
}

// Answers the fault as an `io::Error`, by `?`.
fn refused(fault: Fault) -> io::Result<()> {
    Err(fault)?;
    Ok(())
}

// Whether these faults become errors of this kind.
fn are_of(faults: &[Fault], wanted: ErrorKind) -> bool {
    for fault in faults {
        if refused(*fault).err().map(|error| error.kind()) != Some(wanted) {
            return false;
        }
    }
    true
}

#[test]
fn faults_become_io_errors(rt: HostRuntime) {
    let kind = |fault| refused(fault).err().map(|error| error.kind());
    let fault = no_memory(rt.alloc()).expect(&rt, "refused");
    assert_eq!(rt; kind(Fault::Closed), Some(ErrorKind::BrokenPipe));
    assert_eq!(rt; kind(Fault::Empty), Some(ErrorKind::WouldBlock));
    let others = [
        Fault::NoSlot,
        Fault::Overflow,
        Fault::NotHeld,
        Fault::TooManyEnds,
    ];
    let are_kinds = are_of(&[fault], ErrorKind::OutOfMemory)
        && are_of(&[Fault::Full], ErrorKind::WouldBlock)
        && are_of(others.as_slice(), ErrorKind::Other);
    assert!(rt; are_kinds);
}
