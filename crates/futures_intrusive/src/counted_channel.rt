//! The channel of many values behind the lock of its shared ends.
ghost use Rattle.std.specs.Prelude.{◌≡◌, ◌==◌, not, length, IfOk, IfErr, OnErr, false};
ghost use Rattle.fi_channels.specs.Channel.{MakesSend, MakesReceive, TriesSend, TriesReceive, Closes};
ghost use Rattle.fi_channels.specs.ChannelWords.{has_room};
ghost use Rattle.fi_channels.specs.declared.channel.fields.ReceiveKind.TheVariants.{Single, Stream};
ghost use Rattle.fi_parts.specs.declared.errors.Fault.{Fault};
ghost use Rattle.futures_intrusive.specs.Ends.{OnState, ClosesBy};

use crate::counted_ends::{
    ClosesByEnds, CountedEnds, ManyReceivers, ManySenders, ReceivesClosed, SendsClosed,
};
use crate::ends::EndNames;
use fi_channels::{ChannelReceiveAccess, ChannelState, TryReceiveError, TrySendError};
use fi_parts::buffer::RingBuf;
use fi_parts::{CloseStatus, Fault, NoRoom, Slot};
use fi_sync::{ChannelStreaming, PollSlot, PollWaker, SlotPolled};

impl<T: Drop, B: RingBuf<Item = T>> EndNames for ChannelState<T, B, PollWaker> {
    fn sender() -> &'static str {
        "Sender"
    }

    fn receiver() -> &'static str {
        "Receiver"
    }
}

impl<T: Drop, B: RingBuf<Item = T>> ClosesByEnds for ChannelState<T, B, PollWaker> {
    ghost use Rattle.fi_channels.specs.Channel.{Closes};
    ghost use Rattle.fi_channels.specs.Cleared.{ClosesAndClears};
    ghost use Rattle.fi_parts.specs.declared.errors.CloseStatus.{CloseStatus};
    ghost use Rattle.futures_intrusive.specs.KindLaws.{wakes};
    ghost use Rattle.futures_intrusive.specs.Kinds.{closing_channel};

    type Cleared = B;

    ghost closing = { closing_channel };

    ghost closes = { λ old new. (status : CloseStatus) × Closes old status new };

    ghost clears = { ClosesAndClears B.bounded };

    ghost wakes_stay_closed = { wakes };

    fn is_closed(&self) -> bool {
        ChannelState::is_closed(self)
    }

    fn own_wake_count(&self) -> usize {
        ChannelState::wake_count(self)
    }

    fn close_after_senders(&mut self) {
        self.close();
    }

    fn close_after_receivers(&mut self) -> B {
        self.close_and_clear()
    }
}

impl<T: Drop, B: RingBuf<Item = T>> ManySenders for ChannelState<T, B, PollWaker> {}

impl<T: Drop, B: RingBuf<Item = T>> ManyReceivers for ChannelState<T, B, PollWaker> {}

impl<T: Drop, B: RingBuf<Item = T>> SendsClosed for ChannelState<T, B, PollWaker> {
    ghost use Rattle.futures_intrusive.specs.KindLaws.{sends, send_cancels};

    ghost sends_stay_closed = { sends };

    ghost withdraws_stay_closed = { send_cancels };
}

impl<T: Drop, B: RingBuf<Item = T>> ReceivesClosed for ChannelState<T, B, PollWaker> {
    ghost use Rattle.futures_intrusive.specs.KindLaws.{receives, receive_cancels};

    ghost receives_stay_closed = { receives };

    ghost cancels_stay_closed = { receive_cancels };
}

impl<T: Drop, B: RingBuf<Item = T>> PollSlot<ChannelStreaming>
    for CountedEnds<ChannelState<T, B, PollWaker>> {
    ghost use Rattle.std.specs.Prelude.{is_some};
    ghost use Rattle.fi_channels.specs.Channel.{CancelsReceive};
    ghost use Rattle.fi_channels.specs.ChannelWords.{receive_phase, displaced_receive};
    ghost use Rattle.fi_parts.specs.Polled.{LeavesWhere};
    ghost use Rattle.fi_sync.specs.Streams.{leftover_of_next};
    ghost use Rattle.fi_sync.specs.Waiting.{WouldWait};
    ghost use Rattle.futures_intrusive.specs.Ends.{OnState};
    ghost use Rattle.futures_intrusive.specs.SharedStreams.{PollsSharedStream};

    type Output = Option<Result<T, Fault>>;

    type Left = Option<PollWaker>;

    ghost polls = { PollsSharedStream };

    ghost would_wait = { WouldWait PollsSharedStream };

    ghost leaves = { λ old name waker answer. leftover_of_next answer (displaced_receive old.state name) waker };

    ghost cancels = { λ old name left new. LeavesWhere (is_some (receive_phase old.state name))
        (OnState (λ before after. CancelsReceive before name after) old new) (displaced_receive old.state name) old left new };

    ghost takes_out = { false };

    fn poll_slot(&mut self, slot: Slot, waker: PollWaker) -> SlotPolled<Self::Output> {
        PollSlot::<ChannelStreaming>::poll_slot(&mut self.state, slot, waker)
    }

    fn cancel(&mut self, slot: Slot) -> Option<PollWaker> {
        self.state.leave_receive(slot)
    }
}

/// What a channel of many values has buffered. (The ends of both sides ask by it: of a side of a channel over any buffer the prover
/// can't state a bound.)
pub trait Buffered {
    /// How many values are buffered.
    fn len(&self) -> usize;

    /// Returns `true` if no value is buffered.
    fn is_empty(&self) -> bool;

    /// Returns `true` if the buffer has no room for one more value.
    fn is_full(&self) -> bool;

    /// The most values that the buffer can hold.
    fn capacity(&self) -> usize;
}

impl<T: Drop, B: RingBuf<Item = T>> Buffered for CountedEnds<ChannelState<T, B, PollWaker>> {
    fn len(&self) -> usize
        ensures { result ≡ length self.now.state.own.buffer.items }
    {
        self.state.len()
    }

    fn is_empty(&self) -> bool
        ensures { result ≡ (length self.now.state.own.buffer.items == 0) }
    {
        self.state.is_empty()
    }

    fn is_full(&self) -> bool
        ensures { result ≡ not (has_room self.now.state.own) }
    {
        self.state.is_full()
    }

    fn capacity(&self) -> usize
        ensures { result ≡ self.now.state.own.buffer.capacity }
    {
        self.state.capacity()
    }
}

/// The calls of `ChannelState`, which leave the counts as they are.
impl<T: Drop, B: RingBuf<Item = T>> CountedEnds<ChannelState<T, B, PollWaker>> {
    /// Sends a value at once. Refused, with the value, if the channel is closed or full, or could not grow; then nothing has
    /// changed.
    pub fn try_send(&mut self, value: T) -> Result<(), TrySendError<T>>
        ensures { OnState (λ old new. TriesSend old value result new) self.old self.new }
    {
        self.state.try_send(value)
    }

    /// Receives the oldest value at once. Refused if there is none; then nothing has changed.
    pub fn try_receive(&mut self) -> Result<T, TryReceiveError>
        ensures { OnState (λ old new. TriesReceive old result new) self.old self.new }
    {
        self.state.try_receive()
    }

    /// Closes the channel, and names all who wait. `AlreadyClosed` if it was closed; then nothing has changed.
    pub fn close(&mut self) -> CloseStatus
        ensures { ClosesBy (λ old new. Closes old result new) self.old self.new }
    {
        let status = self.state.close();
        self.closed.set();
        status
    }

    /// Makes a send of this value. Refused, with the value, only for want of memory; then nothing has changed.
    pub fn claim_send(&mut self, value: T) -> Result<Slot, NoRoom<T>>
        ensures made { IfOk result (λ slot. OnState (λ old new. MakesSend old value slot.0 new) self.old self.new) }
        ensures refused { OnErr result (self.new ≡ self.old) }
        ensures handed_back { IfErr result (λ failed. failed.0 ≡ value) }
    {
        self.state.claim_send(value)
    }

    /// Makes a receive. Refused only with `NoMemory`; then nothing has changed.
    pub fn claim_receive(&mut self) -> Result<Slot, Fault>
        ensures made { IfOk result (λ slot. OnState (λ old new. MakesReceive old Single slot.0 new) self.old self.new) }
        ensures refused { OnErr result (self.new ≡ self.old) }
        ensures fault { IfErr result (λ fault. fault ≡ Fault.NoMemory) }
    {
        self.state.claim_receive()
    }

    /// Makes a stream's receive. Refused only with `NoMemory`; then nothing has changed.
    pub fn claim_stream(&mut self) -> Result<Slot, Fault>
        ensures made { IfOk result (λ slot. OnState (λ old new. MakesReceive old Stream slot.0 new) self.old self.new) }
        ensures refused { OnErr result (self.new ≡ self.old) }
        ensures fault { IfErr result (λ fault. fault ≡ Fault.NoMemory) }
    {
        self.state.claim_stream()
    }
}
