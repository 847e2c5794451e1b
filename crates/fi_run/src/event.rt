//! The event as a primitive.
ghost use Rattle.std.specs.Prelude.{◌≡◌, Bool, IsOk, IfOk, IfErr};
ghost use Rattle.fi_channels.specs.Event.{EventMachine, IsSound, OwesNoWake};
ghost use Rattle.fi_run.specs.Event.{Opens, Step, InEveryRun};
ghost use Rattle.fi_run.specs.EventHistory.{PollsAreRight, WakersAreKept};
ghost use Rattle.fi_run.specs.declared.answer.Answer.{Answer};
ghost use Rattle.fi_run.specs.declared.event.EventCall.{EventCall};

use crate::answer::Answer;
use crate::runs::{Primitive, every_run};
use fi_channels::EventState;
use fi_parts::{Fault, NotPolled, Slot};
use futures::task::Poll;
use std::alloc::Global;

/// A call on an event.
///
/// Making a wait may answer `Refused(NoMemory)`. A poll or a cancel where none lives, or a poll of one that has ended, answers
/// `Refused(NoSlot)`.
///
/// # Examples
///
/// ```
/// use futures_intrusive::run::{Answer, EventCall, Primitive, run};
/// use futures_intrusive::sync::EventState;
///
/// let mut event: EventState<u64> = EventState::open(rt.alloc(), false)?;
/// let calls = vec![in rt.alloc(); EventCall::Set, EventCall::IsSet]?;
/// let mut answers = Vec::new(rt.alloc());
/// run(&mut event, calls, &mut answers)?;
/// assert!(rt; answers.as_slice() == [Answer::Done, Answer::Flag(true)].as_slice());
/// ```
#[derive(Clone, Copy, Debug, PartialEq, Eq, Drop)]
pub enum EventCall<W> {
    /// Makes a wait. Answers `Made`.
    Wait,
    /// Polls a wait. Answers `Pending`, `Ready`.
    Poll(Slot, W),
    /// Cancels a wait. Answers `Done`.
    Cancel(Slot),
    /// Sets the event. Answers `Done`.
    Set,
    /// Resets the event. Answers `Done`.
    Reset,
    /// Asks whether the event is set. Answers `Flag`.
    IsSet,
    /// Takes out the oldest waker. Answers `Woken`.
    NextWake,
}

impl<W: Drop> Primitive for EventState<W> {
    ghost use Rattle.fi_channels.specs.Event.{IsSound, OwesNoWake};
    ghost use Rattle.fi_run.specs.Event.{Opens, Step};
    ghost use Rattle.fi_run.specs.EventHistory.{HistoryHolds};
    ghost use Rattle.fi_run.specs.declared.answer.Answer.TheVariants.{Woken};
    ghost use Rattle.fi_run.specs.declared.event.EventCall.TheVariants.{NextWake};
    ghost use Rattle.fi_run.specs.Outgoing.{machine_outgoing};
    ghost use Rattle.fi_run.specs.EventLaws.{event_starts, event_keeps, event_takes_oldest};
    ghost use Rattle.fi_run.specs.EventLaws.{event_history_initial, event_history_preserved};

    type Opening = bool;

    type Call = EventCall<W>;

    type Answer = Answer<u64, W>;

    type Waker = W;

    ghost step = { Step };

    ghost opens = { Opens };

    ghost is_sound = { IsSound };

    ghost owes_no_wake = { OwesNoWake };

    ghost history_invariant = { HistoryHolds };

    ghost outgoing = { machine_outgoing };

    ghost take_waker = { NextWake };

    ghost hands_out = { λ waker. Woken waker };

    ghost starts = { event_starts };

    ghost keeps = { event_keeps };

    ghost history_initial = { event_history_initial };

    ghost takes_oldest = { event_takes_oldest };

    ghost history_preserved = { event_history_preserved };

    fn open(alloc: Global, opening: bool) -> Result<Self, Fault>
        ensures opened { IfOk result (λ state. Opens opening state) }
        ensures fault { IfErr result (λ fault. fault ≡ Fault.NoMemory) }
        // It takes no memory.
        ensures succeeds { IsOk result }
    {
        Ok(EventState::new(alloc, opening))
    }

    #[inline(always)]
    fn apply(&mut self, call: EventCall<W>) -> Answer<u64, W> {
        match call {
            EventCall::Wait => match self.claim() {
                Ok(slot) => Answer::Made(slot),
                Err(fault) => Answer::Refused(fault),
            },
            EventCall::Poll(slot, waker) => match self.poll(slot, waker, true) {
                Ok((Poll::Ready(_), _)) => Answer::Ready,
                Ok((Poll::Pending, _)) => Answer::Pending,
                Err(NotPolled::NoFuture(_)) => Answer::Refused(Fault::NoSlot),
                // It may wait.
                Err(NotPolled::WouldWait(_)) => unreachable!(),
            },
            EventCall::Cancel(slot) => {
                if self.stage(slot).is_none() {
                    return Answer::Refused(Fault::NoSlot);
                }
                self.leave(slot);
                Answer::Done
            }
            EventCall::Set => {
                self.set();
                Answer::Done
            }
            EventCall::Reset => {
                self.reset();
                Answer::Done
            }
            EventCall::IsSet => Answer::Flag(self.is_set()),
            EventCall::NextWake => Answer::Woken(self.next_wake()),
        }
    }

    fn next_wake_call() -> EventCall<W> {
        EventCall::NextWake
    }

    fn show(&self) {
        let _ = self.wake_count();
    }
}

/// Every event follows its promises, in every run from a sound state that owes no wake, so from an opening: a poll that is not
/// refused is ready exactly if the event was set at some moment from the wait's first poll to then; a pending wait's last waker
/// is registered, stands in the outbox, or was handed out since; and no wake is owed.
pub fn every_run_of_an_event<W: Drop>()
    ensures opened { (opening : Bool) (first : EventMachine W) → Opens opening first → IsSound first × OwesNoWake first }
    ensures polls { InEveryRun {W = W} (λ first history now. PollsAreRight first history) }
    ensures wakers { InEveryRun {W = W} (λ first history now. WakersAreKept first history now) }
    ensures no_wake { InEveryRun {W = W} (λ first history now. IsSound now × OwesNoWake now) }
{
    every_run::<EventState<W>>();
}
