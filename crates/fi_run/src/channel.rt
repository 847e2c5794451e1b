//! The channel of many values as a primitive.
ghost use Rattle.std.specs.Prelude.{◌≡◌, ℕ, IfOk, IfErr};
ghost use Rattle.fi_channels.specs.Channel.{IsSound, OwesNoWake};
ghost use Rattle.fi_channels.specs.ChannelWords.{ChannelMachine};
ghost use Rattle.fi_run.specs.Channel.{Opens, Step, InEveryRun};
ghost use Rattle.fi_run.specs.ChannelValues.{ComeInOrder};
ghost use Rattle.fi_run.specs.ChannelHistory.{ClosesOnce, StreamsStayEnded, StreamsStand};
ghost use Rattle.fi_run.specs.ChannelHistory.{SendWakersAreKept, ReceiveWakersAreKept};
ghost use Rattle.fi_run.specs.declared.answer.Answer.{Answer};
ghost use Rattle.fi_run.specs.declared.channel.ChannelCall.{ChannelCall};
ghost use Rattle.fi_run.specs.declared.channel.ChannelCall.TheVariants as calls;

use crate::answer::Answer;
use crate::runs::{Primitive, every_run};
use fi_channels::{
    ChannelReceiveAccess, ChannelSendAccess, ChannelState, SendFault, TryReceiveError, TrySendError,
};
use fi_parts::buffer::RingBuf;
use fi_parts::{CloseStatus, Fault, NotPolled, Slot};
use futures::task::Poll;
use std::alloc::Global;

/// A call on a channel.
///
/// Sends have their own slots; receives and streams share theirs, and each is polled by its own call. Making one may answer
/// `Refused(NoMemory)`, of a send `Back(value, NoMemory)`. A poll or a cancel where none of the kind lives, or a poll of a send
/// or a receive that has ended, answers `Refused(NoSlot)`.
///
/// # Examples
///
/// ```
/// use futures_intrusive::Fault;
/// use futures_intrusive::channel::LocalChannel;
/// use futures_intrusive::run::{Answer, ChannelCall, Primitive};
///
/// let mut channel: LocalChannel<u64, 1, u64> = LocalChannel::open(rt.alloc(), 1)?; // room for one
/// assert!(rt; channel.apply(ChannelCall::TrySend(5)) == Answer::Done);
/// assert!(rt; channel.apply(ChannelCall::TrySend(6)) == Answer::Back(6, Fault::Full));
/// assert!(rt; channel.apply(ChannelCall::TryReceive) == Answer::Item(5));
/// ```
#[derive(Clone, Copy, Debug, PartialEq, Eq, Drop)]
pub enum ChannelCall<T, W> {
    /// Makes a future that sends this value. Answers `Made`, `Back(value, NoMemory)`.
    Send(T),
    /// Makes a future that receives one value. Answers `Made`.
    Receive,
    /// Makes a stream of the values. Answers `Made`.
    Stream,
    /// Polls a send. Answers `Pending`, `Done`; `Back(value, Closed)`, which ends the send; `Refused(NoMemory)` if the buffer could
    /// not grow.
    PollSend(Slot, W),
    /// Polls a receive. Answers `Pending`, `Item`; `Nothing` once the channel is closed and empty.
    PollReceive(Slot, W),
    /// Polls a stream. Answers `Pending`, `Item`; `End` once the channel is closed and empty, and ever after.
    PollNext(Slot, W),
    /// Cancels a send. Answers `Item` with the value if the send still had it: it was not polled, or waits; else `Nothing`.
    CancelSend(Slot),
    /// Cancels a receive or a stream. Answers `Done`.
    CancelReceive(Slot),
    /// Sends a value at once. Answers `Done`, or `Back` with `Closed`, `Full` or `NoMemory`.
    TrySend(T),
    /// Receives a value at once. Answers `Item`, `Refused(Closed)` or `Refused(Empty)`.
    TryReceive,
    /// Closes the channel. Answers `Newly`, `Already`.
    Close,
    /// Takes out the oldest waker. Answers `Woken`.
    NextWake,
}

impl<T: Drop, B: RingBuf<Item = T>, W: Drop> Primitive for ChannelState<T, B, W> {
    ghost use Rattle.fi_channels.specs.Channel.{IsSound, OwesNoWake};
    ghost use Rattle.fi_run.specs.Channel.{Opens, Step};
    ghost use Rattle.fi_run.specs.ChannelHistory.{HistoryHolds};
    ghost use Rattle.fi_run.specs.declared.answer.Answer.TheVariants.{Woken};
    ghost use Rattle.fi_run.specs.declared.channel.ChannelCall.TheVariants.{NextWake};
    ghost use Rattle.fi_run.specs.Outgoing.{two_sided_outgoing};
    ghost use Rattle.fi_run.specs.ChannelLaws.{channel_starts, channel_keeps, channel_takes_oldest};
    ghost use Rattle.fi_run.specs.ChannelLaws.{channel_history_initial, channel_history_preserved};

    /// The capacity.
    type Opening = usize;

    type Call = ChannelCall<T, W>;

    type Answer = Answer<T, W>;

    type Waker = W;

    ghost step = { Step };

    ghost opens = { Opens B.capacity_for };

    ghost is_sound = { IsSound };

    ghost owes_no_wake = { OwesNoWake };

    ghost history_invariant = { HistoryHolds };

    ghost outgoing = { two_sided_outgoing };

    ghost take_waker = { NextWake };

    ghost hands_out = { λ waker. Woken waker };

    ghost starts = { channel_starts B.capacity_for };

    ghost keeps = { channel_keeps };

    ghost history_initial = { channel_history_initial };

    ghost takes_oldest = { channel_takes_oldest };

    ghost history_preserved = { channel_history_preserved };

    fn open(alloc: Global, capacity: usize) -> Result<Self, Fault>
        ensures opened { IfOk result (λ state. Opens B.capacity_for capacity state) }
        ensures fault { IfErr result (λ fault. fault ≡ Fault.NoMemory) }
    {
        let state = ChannelState::with_capacity(alloc, capacity)?;
        // What holds of every channel holds of this one.
        let _ = state.wake_count();
        Ok(state)
    }

    #[inline(always)]
    fn apply(&mut self, call: ChannelCall<T, W>) -> Answer<T, W> {
        match call {
            ChannelCall::Send(value) => match self.claim_send(value) {
                Ok(slot) => Answer::Made(slot),
                Err(failed) => Answer::without_room(failed),
            },
            ChannelCall::Receive => match self.claim_receive() {
                Ok(slot) => Answer::Made(slot),
                Err(fault) => Answer::Refused(fault),
            },
            ChannelCall::Stream => match self.claim_stream() {
                Ok(slot) => Answer::Made(slot),
                Err(fault) => Answer::Refused(fault),
            },
            ChannelCall::PollSend(slot, waker) => poll_send(self, slot, waker),
            ChannelCall::PollReceive(slot, waker) => poll_receive(self, slot, waker),
            ChannelCall::PollNext(slot, waker) => poll_next(self, slot, waker),
            ChannelCall::CancelSend(slot) => cancel_send(self, slot),
            ChannelCall::CancelReceive(slot) => cancel_receive(self, slot),
            ChannelCall::TrySend(value) => match self.try_send(value) {
                Ok(()) => Answer::Done,
                Err(TrySendError::Closed(value)) => Answer::Back(value, Fault::Closed),
                Err(TrySendError::Full(value)) => Answer::Back(value, Fault::Full),
                Err(TrySendError::NoMemory(failed)) => Answer::without_room(failed),
            },
            ChannelCall::TryReceive => match self.try_receive() {
                Ok(value) => Answer::Item(value),
                Err(TryReceiveError::Empty) => Answer::Refused(Fault::Empty),
                Err(TryReceiveError::Closed) => Answer::Refused(Fault::Closed),
            },
            ChannelCall::Close => match self.close() {
                CloseStatus::NewlyClosed => Answer::Newly,
                CloseStatus::AlreadyClosed => Answer::Already,
            },
            ChannelCall::NextWake => Answer::Woken(self.next_wake()),
        }
    }

    fn next_wake_call() -> ChannelCall<T, W> {
        ChannelCall::NextWake
    }

    fn show(&self) {
        let _ = self.wake_count();
    }
}

fn poll_send<T: Drop, B: RingBuf<Item = T>, W: Drop>(
    channel: &mut ChannelState<T, B, W>,
    slot: Slot,
    waker: W,
) -> Answer<T, W>
    ensures { Step channel.old (calls.PollSend slot waker) result channel.new }
{
    match channel.poll_send(slot, waker, true) {
        Ok((answer, _)) => match answer {
            Poll::Pending => Answer::Pending,
            Poll::Ready(Ok(())) => Answer::Done,
            Poll::Ready(Err(SendFault::Closed(value))) => Answer::Back(value, Fault::Closed),
            Poll::Ready(Err(SendFault::Fault(fault))) => Answer::Refused(fault),
        },
        Err(NotPolled::NoFuture(_)) => Answer::Refused(Fault::NoSlot),
        // It may wait.
        Err(NotPolled::WouldWait(_)) => unreachable!(),
    }
}

fn poll_receive<T: Drop, B: RingBuf<Item = T>, W: Drop>(
    channel: &mut ChannelState<T, B, W>,
    slot: Slot,
    waker: W,
) -> Answer<T, W>
    ensures { Step channel.old (calls.PollReceive slot waker) result channel.new }
{
    match channel.poll_receive(slot, waker, true) {
        Ok((answer, _)) => match answer {
            Poll::Pending => Answer::Pending,
            Poll::Ready(Ok(Some(value))) => Answer::Item(value),
            Poll::Ready(Ok(None)) => Answer::Nothing,
            // A poll is never refused.
            Poll::Ready(Err(fault)) => Answer::Refused(fault),
        },
        Err(NotPolled::NoFuture(_)) => Answer::Refused(Fault::NoSlot),
        // It may wait.
        Err(NotPolled::WouldWait(_)) => unreachable!(),
    }
}

fn poll_next<T: Drop, B: RingBuf<Item = T>, W: Drop>(
    channel: &mut ChannelState<T, B, W>,
    slot: Slot,
    waker: W,
) -> Answer<T, W>
    ensures { Step channel.old (calls.PollNext slot waker) result channel.new }
{
    match channel.poll_next(slot, waker, true) {
        Ok((answer, _)) => match answer {
            Poll::Pending => Answer::Pending,
            Poll::Ready(Some(value)) => Answer::Item(value),
            Poll::Ready(None) => Answer::End,
        },
        Err(NotPolled::NoFuture(_)) => Answer::Refused(Fault::NoSlot),
        // It may wait.
        Err(NotPolled::WouldWait(_)) => unreachable!(),
    }
}

fn cancel_send<T: Drop, B: RingBuf<Item = T>, W: Drop>(
    channel: &mut ChannelState<T, B, W>,
    slot: Slot,
) -> Answer<T, W>
    ensures { Step channel.old (calls.CancelSend slot) result channel.new }
{
    if channel.send_stage(slot).is_none() {
        return Answer::Refused(Fault::NoSlot);
    }
    let (value, _waker) = channel.remove_send_waiter(slot);
    match value {
        Some(value) => Answer::Item(value),
        None => Answer::Nothing,
    }
}

fn cancel_receive<T: Drop, B: RingBuf<Item = T>, W: Drop>(
    channel: &mut ChannelState<T, B, W>,
    slot: Slot,
) -> Answer<T, W>
    ensures { Step channel.old (calls.CancelReceive slot) result channel.new }
{
    if channel.receive_stage(slot).is_none() {
        return Answer::Refused(Fault::NoSlot);
    }
    channel.remove_receive_waiter(slot);
    Answer::Done
}

/// Every channel follows its promises, over any buffer and in every run from a sound state that owes no wake, so from an opening.
///
/// Values come out in the order in which they were accepted: those that were held at first and those accepted since, without the
/// withdrawn, are those received and then those held now. At most one close is new, and what is closed stays closed. A stream that
/// gave an item is fresh again; one that gave its end gives it ever after. The last waker of a pending send, or receive, is
/// registered, stands in the outbox, or was handed out since; and no wake is owed.
pub fn every_run_of_a_channel<T: Drop, B: RingBuf<Item = T>, W: Drop>()
    ensures opened { (capacity : ℕ) (first : ChannelMachine T W) → Opens B.capacity_for capacity first
        → IsSound first × OwesNoWake first }
    ensures order { InEveryRun {T = T} {W = W} (λ first history now. ComeInOrder first history now) }
    ensures closes { InEveryRun {T = T} {W = W} (λ first history now. ClosesOnce first history now) }
    ensures ended { InEveryRun {T = T} {W = W} (λ first history now. StreamsStayEnded first history) }
    ensures streams { InEveryRun {T = T} {W = W} (λ first history now. StreamsStand first history now) }
    ensures sends { InEveryRun {T = T} {W = W} (λ first history now. SendWakersAreKept first history now) }
    ensures receives { InEveryRun {T = T} {W = W} (λ first history now. ReceiveWakersAreKept first history now) }
    ensures no_wake { InEveryRun {T = T} {W = W} (λ first history now. IsSound now × OwesNoWake now) }
{
    every_run::<ChannelState<T, B, W>>();
}
