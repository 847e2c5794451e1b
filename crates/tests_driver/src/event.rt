//! The event.

use crate::owned::Futures;
use crate::tasks::Tasks;
use crate::{Flavour, Opened, Play, Played, Seen};
use fi_parts::Slot;
use fi_run::{Answer, EventCall};
use fi_sync::{ManualResetEvent, WaitForEventFuture};
use std::alloc::AllocGlobal;
use std::sync::Wait;

#[derive(Drop)]
pub struct OpenedEvent<'a, E, F: Drop> {
    event: &'a E,
    waits: Futures<F>,
}

impl<'a, E, F: Drop> OpenedEvent<'a, E, F> {
    /// None if memory is missing.
    pub fn new<R: AllocGlobal>(rt: &R, event: &'a E) -> Option<Self> {
        Some(OpenedEvent {
            event,
            waits: Futures::new(rt)?,
        })
    }
}

impl<'a, R: Wait> Opened<R, EventCall<u64>>
    for OpenedEvent<'a, ManualResetEvent<R>, WaitForEventFuture<'a, R>> {
    fn apply(&mut self, rt: &R, tasks: &mut Tasks, call: EventCall<u64>) -> Seen {
        match call {
            EventCall::Wait => self.waits.keep(self.event.wait()),
            EventCall::Poll(Slot(number), waker) => { self.waits.poll(rt, tasks, number, waker) }
            EventCall::Cancel(Slot(number)) => self.waits.let_go(number),
            EventCall::Set => {
                self.event.set();
                Seen::answered(Answer::Done)
            }
            EventCall::Reset => {
                self.event.reset();
                Seen::answered(Answer::Done)
            }
            EventCall::IsSet => Seen::answered(Answer::Flag(self.event.is_set())),
            EventCall::NextWake => Seen::answered(Answer::Woken(None)),
        }
    }
}

#[derive(Drop)]
pub struct Event {
    pub is_set: bool,
}

impl From<bool> for Event {
    fn from(is_set: bool) -> Self {
        Event { is_set }
    }
}

impl<R: Wait + Copy + AllocGlobal> Flavour<R> for Event {
    type Call = EventCall<u64>;

    fn play<P: Play<R, EventCall<u64>>>(&self, rt: &R, tasks: &mut Tasks, list: &mut P) -> Played {
        let event = &ManualResetEvent::new(rt.alloc(), *rt, self.is_set);
        match OpenedEvent::new(rt, event) {
            Some(mut opened) => list.play(rt, tasks, &mut opened),
            None => Played::NoMemory,
        }
    }
}
