//! The state broadcast as a primitive.
ghost use Rattle.std.specs.Prelude.{◌≡◌, ◌<◌, ◌^◌, IsOk, IfOk, IfErr};
ghost use Rattle.fi_channels.specs.StateBroadcast.{StateMachine, IsSound, OwesNoWake};
ghost use Rattle.fi_run.specs.State.{Opens, Step, InEveryRun};
ghost use Rattle.fi_run.specs.StateHistory.{sends, asked_by, new_closes, Counts, AsksAs, OpenFits, StatesAreNewest, WakersAreKept};
ghost use Rattle.fi_run.specs.StateAnswer.{answer_of};
ghost use Rattle.fi_run.specs.declared.answer.Answer.{Answer};
ghost use Rattle.fi_run.specs.declared.state.StateCall.{StateCall};

use crate::answer::Answer;
use crate::runs::{Primitive, every_run};
use fi_channels::{ChannelReceiveAccess, StateBroadcastState};
use fi_parts::{ChannelSendError, CloseStatus, Fault, NotPolled, Slot, StateId};
use futures::task::Poll;
use std::alloc::Global;

/// A call on a state broadcast.
///
/// Making a receive may answer `Refused(NoMemory)`. A poll or a cancel where none lives, or a poll of one that has ended, answers
/// `Refused(NoSlot)`.
///
/// # Examples
///
/// ```
/// use futures_intrusive::channel::{StateBroadcastState, StateId};
/// use futures_intrusive::run::{Answer, Primitive, StateCall};
///
/// let mut channel: StateBroadcastState<u64, u64> = StateBroadcastState::open(rt.alloc(), ())?;
/// let newest = Answer::State(StateId::from_value(1), 5);
/// assert!(rt; channel.apply(StateCall::Send(5)) == Answer::Done);
/// assert!(rt; channel.apply(StateCall::TryReceive(StateId::new())) == newest);
/// ```
#[derive(Clone, Copy, Debug, PartialEq, Eq, Drop)]
pub enum StateCall<T, W> {
    /// Makes a receive that has seen this state. Answers `Made`.
    Receive(StateId),
    /// Polls a receive. Answers `Pending`, `State`, `Nothing`, `Refused(NoMemory)`.
    Poll(Slot, W),
    /// Cancels a receive. Answers `Done`.
    Cancel(Slot),
    /// Receives at once, having seen this state. Answers `State`, `Nothing`, `Refused(NoMemory)`.
    TryReceive(StateId),
    /// Sends the next state. Answers `Done`, `Back(value, Closed)`.
    Send(T),
    /// Closes the channel. Answers `Newly`, `Already`.
    Close,
    /// Takes out the oldest waker. Answers `Woken`.
    NextWake,
}

impl<T: Clone, W: Drop> Primitive for StateBroadcastState<T, W> {
    ghost use Rattle.fi_channels.specs.StateBroadcast.{IsSound, OwesNoWake};
    ghost use Rattle.fi_run.specs.State.{Opens, Step};
    ghost use Rattle.fi_run.specs.StateHistory.{HistoryHolds};
    ghost use Rattle.fi_run.specs.declared.answer.Answer.TheVariants.{Woken};
    ghost use Rattle.fi_run.specs.declared.state.StateCall.TheVariants.{NextWake};
    ghost use Rattle.fi_run.specs.Outgoing.{machine_outgoing};
    ghost use Rattle.fi_run.specs.StateLaws.{state_starts, state_keeps, state_takes_oldest};
    ghost use Rattle.fi_run.specs.StateLaws.{state_history_initial, state_history_preserved};

    type Opening = ();

    type Call = StateCall<T, W>;

    type Answer = Answer<T, W>;

    type Waker = W;

    ghost step = { Step T.is_clone T.is_infallible };

    ghost opens = { Opens };

    ghost is_sound = { IsSound };

    ghost owes_no_wake = { OwesNoWake };

    ghost history_invariant = { HistoryHolds T.is_clone };

    ghost outgoing = { machine_outgoing };

    ghost take_waker = { NextWake };

    ghost hands_out = { λ waker. Woken waker };

    ghost starts = { state_starts T.is_clone T.is_infallible };

    ghost keeps = { state_keeps T.is_clone T.is_infallible };

    ghost history_initial = { state_history_initial T.is_clone T.is_infallible };

    ghost takes_oldest = { state_takes_oldest T.is_clone T.is_infallible };

    ghost history_preserved = { state_history_preserved T.is_clone T.is_infallible };

    fn open(alloc: Global, _opening: ()) -> Result<Self, Fault>
        ensures opened { IfOk result (λ state. Opens tt state) }
        ensures fault { IfErr result (λ fault. fault ≡ Fault.NoMemory) }
        // It takes no memory.
        ensures succeeds { IsOk result }
    {
        Ok(StateBroadcastState::new(alloc))
    }

    #[inline(always)]
    fn apply(&mut self, call: StateCall<T, W>) -> Answer<T, W> {
        match call {
            StateCall::Receive(seen) => match self.claim_receive(seen) {
                Ok(slot) => Answer::Made(slot),
                Err(fault) => Answer::Refused(fault),
            },
            StateCall::Poll(slot, waker) => match self.poll_receive(slot, waker, true) {
                Ok((answer, _)) => match answer {
                    Poll::Ready(answer) => received(answer),
                    Poll::Pending => Answer::Pending,
                },
                Err(NotPolled::NoFuture(_)) => Answer::Refused(Fault::NoSlot),
                // It may wait.
                Err(NotPolled::WouldWait(_)) => unreachable!(),
            },
            StateCall::Cancel(slot) => {
                if self.stage(slot).is_none() {
                    return Answer::Refused(Fault::NoSlot);
                }
                self.remove_receive_waiter(slot);
                Answer::Done
            }
            StateCall::TryReceive(seen) => received(self.try_receive(seen)),
            StateCall::Send(value) => match self.send(value) {
                Ok(()) => Answer::Done,
                Err(ChannelSendError(value)) => Answer::Back(value, Fault::Closed),
            },
            StateCall::Close => match self.close() {
                CloseStatus::NewlyClosed => Answer::Newly,
                CloseStatus::AlreadyClosed => Answer::Already,
            },
            StateCall::NextWake => Answer::Woken(self.next_wake()),
        }
    }

    fn next_wake_call() -> StateCall<T, W> {
        StateCall::NextWake
    }

    fn show(&self) {
        let _ = self.wake_count();
    }
}

// What a receive was given, as an answer.
fn received<T, W>(state: Result<Option<(StateId, T)>, Fault>) -> Answer<T, W>
    ensures { result ≡ answer_of state }
{
    match state {
        Ok(Some((id, value))) => Answer::State(id, value),
        Ok(None) => Answer::Nothing,
        Err(fault) => Answer::Refused(fault),
    }
}

/// Every state broadcast follows its promises, in every run from a sound state that owes no wake, so from its opening: every
/// delivered state is a clone of the newest, with its number, and newer than the one asked for; a live receive keeps the number
/// that it was made with; the number is the first state's and one more for each send, and fits; the first close is the one that
/// is answered `Newly`, and a closed channel stays closed; a pending receive's last waker is registered, stands in the outbox, or
/// was handed out since; and no wake is owed.
pub fn every_run_of_a_state_broadcast<T: Clone, W: Drop>()
    ensures opened { (first : StateMachine T W) → Opens tt first → IsSound first × OwesNoWake first }
    ensures states { InEveryRun {T = T} {W = W} T.is_clone T.is_infallible
        (λ first history now. StatesAreNewest T.is_clone first history) }
    ensures asked { InEveryRun {T = T} {W = W} T.is_clone T.is_infallible
        (λ first history now. AsksAs (λ name. asked_by first name history) now) }
    ensures number { InEveryRun {T = T} {W = W} T.is_clone T.is_infallible
        (λ first history now. Counts first (sends history) now) }
    ensures fits { InEveryRun {T = T} {W = W} T.is_clone T.is_infallible
        (λ first history now. now.own.number < 2 ^ 64) }
    ensures closed { InEveryRun {T = T} {W = W} T.is_clone T.is_infallible
        (λ first history now. OpenFits first.own.is_open now.own.is_open (new_closes history)) }
    ensures wakers { InEveryRun {T = T} {W = W} T.is_clone T.is_infallible
        (λ first history now. WakersAreKept first history now) }
    ensures no_wake { InEveryRun {T = T} {W = W} T.is_clone T.is_infallible
        (λ first history now. IsSound now × OwesNoWake now) }
{
    every_run::<StateBroadcastState<T, W>>();
}
