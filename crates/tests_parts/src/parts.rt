//! What the primitives share besides lists, heaps and buffers: each public call once, at a concrete type.
use fi_parts::memory::items_for;
use fi_parts::{CloseStatus, Fault, LinkedList, Outbox, Refused, Slot, StateId};
use tests_help::refusals::no_room;
use tests_help::texts::shows;

#[test]
fn outbox_names(rt: HostRuntime) {
    let mut outbox = Outbox::<u64>::new(rt.alloc());
    let first = outbox.claim().expect(&rt, "room");
    outbox.name(first, 11);
    let second = outbox.claim().expect(&rt, "room");
    assert_eq!(rt; outbox.len(), 1);
    assert_eq!(rt; outbox.take_out(second), None);
    assert_eq!(rt; outbox.take_out(first), Some(11));
    assert_eq!(rt; outbox.pop(), None);
}

#[test]
fn outbox_frees(rt: HostRuntime) {
    let mut outbox = Outbox::<u64>::new(rt.alloc());
    let ticket = outbox.claim().expect(&rt, "room");
    outbox.free(ticket);
    assert_eq!(rt; outbox.len(), 0);
}

#[test]
fn codes_and_closes(rt: HostRuntime) {
    let newly = CloseStatus::NewlyClosed;
    assert!(rt; newly.is_newly_closed() && !newly.is_already_closed() && Fault::Closed.code() == 3);
}

#[test]
fn a_refusal_is_a_fault(rt: HostRuntime) {
    let made = items_for::<u64>(rt.alloc(), usize::MAX);
    let refused = made.err().expect(&rt, "refused");
    assert!(rt; Refused::of(Fault::from(refused)).is_some() && Refused::of(Fault::Full).is_none());
}

#[test]
fn state_ids(rt: HostRuntime) {
    assert_eq!(rt; StateId::new(), StateId::default());
    assert_eq!(rt; StateId::new().value(), 0);
    assert_eq!(rt; StateId::from_value(7).value(), 7);
    assert!(rt; StateId::new() < StateId::from_value(1));
    let are_shown = shows(rt.alloc(), &StateId::from_value(7), "StateId(7)")
        && shows(rt.alloc(), &Slot(3), "Slot(3)")
        && shows(
            rt.alloc(),
            &no_room(rt.alloc(), 3).expect(&rt, "refused"),
            "NoRoom(3)",
        )
        && shows(rt.alloc(), &Fault::Closed, "Closed");
    assert!(rt; are_shown);
}

fn is_shared<T: Send + Sync>(_value: &T) {}

#[test]
fn parts_cross_threads(rt: HostRuntime) {
    let list = LinkedList::<u32>::new(rt.alloc());
    is_shared(&list);
    let outbox = Outbox::<u32>::new(rt.alloc());
    is_shared(&outbox);
}
