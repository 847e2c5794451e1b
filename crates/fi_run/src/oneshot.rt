//! The two channels of one value as primitives.
ghost use Rattle.std.specs.Prelude.{◌≡◌, true, IsOk, IfOk, IfErr};
ghost use Rattle.fi_parts.specs.Machine.{phase_at};
ghost use Rattle.fi_parts.specs.declared.errors.Slot.{Slot};
ghost use Rattle.fi_channels.specs.Oneshot.{OneshotMachine, taking, cloning, can_receive, IsSound, OwesNoWake};
ghost use Rattle.fi_run.specs.Oneshot.{Opens, Step, InEveryRun};
ghost use Rattle.fi_run.specs.OneshotHistory.{ContentFits, NeverEmptyAgain, KeepsContent, GivesOnce, IsSettledOnce};
ghost use Rattle.fi_run.specs.OneshotHistory.{Delivers, WasPutIn, GivesOf, WakersAreKept};
ghost use Rattle.fi_run.specs.declared.answer.Answer.{Answer};
ghost use Rattle.fi_run.specs.declared.answer.Answer.TheVariants as answers;
ghost use Rattle.fi_run.specs.declared.oneshot.OneshotCall.{OneshotCall};
ghost use Rattle.fi_run.specs.declared.oneshot.OneshotCall.TheVariants as calls;

use crate::answer::Answer;
use crate::runs::{Primitive, every_run};
use fi_channels::{
    ChannelReceiveAccess, GivesValue, OneValueState, OneshotBroadcastState, OneshotState,
};
use fi_parts::{ChannelSendError, CloseStatus, Fault, NotPolled, Slot};
use futures::task::Poll;
use std::alloc::Global;

/// A call on a oneshot channel or a oneshot broadcast channel.
///
/// Making a receive may answer `Refused(NoMemory)`. A poll or a cancel where none lives, or a poll of one that has ended, answers
/// `Refused(NoSlot)`.
///
/// # Examples
///
/// ```
/// use futures_intrusive::Fault;
/// use futures_intrusive::channel::OneshotState;
/// use futures_intrusive::run::{Answer, OneshotCall, Primitive};
///
/// let mut channel: OneshotState<u64, u64> = OneshotState::open(rt.alloc(), ())?;
/// assert!(rt; channel.apply(OneshotCall::Send(5)) == Answer::Done);
/// assert!(rt; channel.apply(OneshotCall::Send(6)) == Answer::Back(6, Fault::Closed));
/// ```
#[derive(Clone, Copy, Debug, PartialEq, Eq, Drop)]
pub enum OneshotCall<T, W> {
    /// Makes a receive. Answers `Made`.
    Receive,
    /// Polls a receive. Answers `Pending`, `Item`, `Nothing`; of a broadcast also `Refused(NoMemory)`.
    Poll(Slot, W),
    /// Cancels a receive. Answers `Done`.
    Cancel(Slot),
    /// Receives at once. Answers `Item`, `Nothing`, `Refused(Empty)`; of a broadcast also `Refused(NoMemory)`.
    TryReceive,
    /// Sends the value. Answers `Done`, `Back(value, Closed)`.
    Send(T),
    /// Closes the channel. Answers `Newly`, `Already`.
    Close,
    /// Takes out the oldest waker. Answers `Woken`.
    NextWake,
}

impl<T: Drop, W: Drop, G: GivesValue<T>> Primitive for OneValueState<T, W, G> {
    ghost use Rattle.fi_channels.specs.Oneshot.{IsSound, OwesNoWake};
    ghost use Rattle.fi_run.specs.Oneshot.{Opens, Step};
    ghost use Rattle.fi_run.specs.OneshotHistory.{HistoryHolds};
    ghost use Rattle.fi_run.specs.declared.answer.Answer.TheVariants.{Woken};
    ghost use Rattle.fi_run.specs.declared.oneshot.OneshotCall.TheVariants.{NextWake};
    ghost use Rattle.fi_run.specs.Outgoing.{machine_outgoing};
    ghost use Rattle.fi_run.specs.OneshotLaws.{oneshot_starts, oneshot_keeps, oneshot_takes_oldest};
    ghost use Rattle.fi_run.specs.OneshotLaws.{oneshot_history_initial, oneshot_history_preserved};

    type Opening = ();

    type Call = OneshotCall<T, W>;

    type Answer = Answer<T, W>;

    type Waker = W;

    ghost step = { Step G.giving };

    ghost opens = { Opens };

    ghost is_sound = { IsSound };

    ghost owes_no_wake = { OwesNoWake };

    ghost history_invariant = { HistoryHolds G.giving };

    ghost outgoing = { machine_outgoing };

    ghost take_waker = { NextWake };

    ghost hands_out = { λ waker. Woken waker };

    ghost starts = { oneshot_starts };

    ghost keeps = { oneshot_keeps G.giving };

    ghost history_initial = { oneshot_history_initial G.giving };

    ghost takes_oldest = { oneshot_takes_oldest G.giving };

    ghost history_preserved = { oneshot_history_preserved G.giving };

    fn open(alloc: Global, _opening: ()) -> Result<Self, Fault>
        ensures opened { IfOk result (λ state. Opens tt state) }
        ensures fault { IfErr result (λ fault. fault ≡ Fault.NoMemory) }
        // It takes no memory.
        ensures succeeds { IsOk result }
    {
        Ok(OneValueState::new(alloc))
    }

    #[inline(always)]
    fn apply(&mut self, call: OneshotCall<T, W>) -> Answer<T, W> {
        match call {
            OneshotCall::Receive => match self.claim_receive() {
                Ok(slot) => Answer::Made(slot),
                Err(fault) => Answer::Refused(fault),
            },
            OneshotCall::Poll(slot, waker) => match self.poll_receive(slot, waker, true) {
                Ok((answer, _)) => match answer {
                    Poll::Ready(Ok(Some(value))) => Answer::Item(value),
                    Poll::Ready(Ok(None)) => Answer::Nothing,
                    Poll::Ready(Err(fault)) => Answer::Refused(fault),
                    Poll::Pending => Answer::Pending,
                },
                Err(NotPolled::NoFuture(_)) => Answer::Refused(Fault::NoSlot),
                // It may wait.
                Err(NotPolled::WouldWait(_)) => unreachable!(),
            },
            OneshotCall::Cancel(slot) => {
                if self.stage(slot).is_none() {
                    return Answer::Refused(Fault::NoSlot);
                }
                self.remove_receive_waiter(slot);
                Answer::Done
            }
            OneshotCall::TryReceive => match self.try_receive() {
                Ok(Some(value)) => Answer::Item(value),
                Ok(None) => Answer::Nothing,
                Err(fault) => Answer::Refused(fault),
            },
            OneshotCall::Send(value) => match self.send(value) {
                Ok(()) => Answer::Done,
                Err(ChannelSendError(value)) => Answer::Back(value, Fault::Closed),
            },
            OneshotCall::Close => match self.close() {
                CloseStatus::NewlyClosed => Answer::Newly,
                CloseStatus::AlreadyClosed => Answer::Already,
            },
            OneshotCall::NextWake => Answer::Woken(self.next_wake()),
        }
    }

    fn next_wake_call() -> OneshotCall<T, W> {
        OneshotCall::NextWake
    }

    fn show(&self) {
        let _ = self.wake_count();
    }
}

/// Every oneshot channel follows its promises, in every run from a sound state that owes no wake, so from its opening: at
/// most one receive gets the value that was put in, and of all calls only the making of a receive is refused `NoMemory`; at
/// most one value is put in or close answered `Newly`; what left empty never returns; a pending receive's last waker is
/// registered, stands in the outbox, or was handed out since; and no wake is owed. A value that the channel held at first
/// counts as put in, and a channel that was spent at first as closed.
pub fn every_run_of_a_oneshot<T: Drop, W: Drop>()
    ensures opened { (first : OneshotMachine T W) → Opens tt first → IsSound first × OwesNoWake first }
    ensures once { InEveryRun {T = T} {W = W} taking (λ first history now. GivesOnce first history) }
    ensures memory { (old new : OneshotMachine T W) (call : OneshotCall T W)
        → Step taking old call (answers.Refused Fault.NoMemory) new → call ≡ calls.Receive }
    ensures settled { InEveryRun {T = T} {W = W} taking (λ first history now. IsSettledOnce first history) }
    ensures content { InEveryRun {T = T} {W = W} taking (λ first history now. ContentFits taking first history now.own) }
    ensures left { InEveryRun {T = T} {W = W} taking (λ first history now. NeverEmptyAgain first now) }
    ensures wakers { InEveryRun {T = T} {W = W} taking (λ first history now. WakersAreKept first history now) }
    ensures no_wake { InEveryRun {T = T} {W = W} taking (λ first history now. IsSound now × OwesNoWake now) }
{
    every_run::<OneshotState<T, W>>();
}

/// Every oneshot broadcast channel follows its promises, in every run from a sound state that owes no wake, so from its
/// opening: once a value was put in every poll of a receive that may be polled, and every receive at once, gives a clone of
/// it, whatever is closed later, or is refused for want of the clone's memory (never, if the clone can't fail); at most one
/// value is put in or close answered `Newly`; a channel that is not empty keeps what it holds; a pending receive's last waker
/// is registered, stands in the outbox, or was handed out since; and no wake is owed. A value that the channel held at first
/// counts as put in.
pub fn every_run_of_a_oneshot_broadcast<T: Clone, W: Drop>()
    ensures opened { (first : OneshotMachine T W) → Opens tt first → IsSound first × OwesNoWake first }
    ensures deliveries { InEveryRun {T = T} {W = W} (cloning T.is_clone T.is_infallible)
        (λ first history now. Delivers (cloning T.is_clone T.is_infallible) first history) }
    ensures copies { InEveryRun {T = T} {W = W} (cloning T.is_clone T.is_infallible) (λ first history now.
        (value : T) (slot : Slot) (waker : W) (answer : Answer T W) (new : OneshotMachine T W) →
        WasPutIn first history value → can_receive (phase_at now slot.0) ≡ true →
        Step (cloning T.is_clone T.is_infallible) now (calls.Poll slot waker) answer new →
        GivesOf (cloning T.is_clone T.is_infallible) value answer) }
    ensures settled { InEveryRun {T = T} {W = W} (cloning T.is_clone T.is_infallible)
        (λ first history now. IsSettledOnce first history) }
    ensures content { InEveryRun {T = T} {W = W} (cloning T.is_clone T.is_infallible)
        (λ first history now. ContentFits (cloning T.is_clone T.is_infallible) first history now.own) }
    ensures kept { InEveryRun {T = T} {W = W} (cloning T.is_clone T.is_infallible)
        (λ first history now. KeepsContent first now) }
    ensures wakers { InEveryRun {T = T} {W = W} (cloning T.is_clone T.is_infallible)
        (λ first history now. WakersAreKept first history now) }
    ensures no_wake { InEveryRun {T = T} {W = W} (cloning T.is_clone T.is_infallible)
        (λ first history now. IsSound now × OwesNoWake now) }
{
    every_run::<OneshotBroadcastState<T, W>>();
}
