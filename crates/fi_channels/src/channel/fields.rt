//! The fields of a channel of many values, over any bounded buffer, and the calls on them.
ghost use Rattle.std.specs.Prelude.{◌≡◌, ◌&&◌, not, true, false, Option, Some, None, IfOk, IfErr, OnOk, OnErr, is_some};
ghost use Rattle.futures.specs.Poll.{OnPending};
ghost use Rattle.fi_parts.specs.Buffer.{Fits, empty};
ghost use Rattle.fi_parts.specs.Waiting.{phase_of, asks_of, is_registered};
ghost use Rattle.fi_parts.specs.declared.phase.Phase.TheVariants.{Fresh, Complete};
ghost use Rattle.fi_channels.specs.Polled.{unused_after, IsRefused, WouldBeReady, LeavesWhere};
ghost use Rattle.fi_channels.specs.Channel.{MakesSend, MakesReceive, PollsSend, CancelsSend, PollsReceive};
ghost use Rattle.fi_channels.specs.Channel.{CancelsReceive, TriesSend, TriesReceive, Closes, IsSound};
ghost use Rattle.fi_channels.specs.ChannelWords.{opened, can_send, can_take, displaced_by_send, displaced_send, displaced_receive, next_of};
ghost use Rattle.fi_channels.specs.ChannelFields.{machine_of, phase_given, Takes, PollsAs, can_poll_as};
ghost use Rattle.fi_channels.specs.Cleared.{ClosesAndClears};

use crate::access::Sent;
use crate::channel::errors::{SendFault, TryReceiveError, TrySendError};
use crate::channel::two_sides::{Receives, Sends, TwoSides};
use fi_parts::buffer::RingBuf;
use fi_parts::{
    CloseStatus, Fault, Leftover, LiveFuture, NoRoom, NotPolled, Notice, Phase, Slot, last_waker,
};
use futures::task::Poll;
use std::alloc::Global;

/// What a receive is for.
#[derive(Clone, Copy, Debug, PartialEq, Eq)]
pub enum ReceiveKind {
    /// One item; then it has ended.
    Single,
    /// One item after another, until the channel is closed and empty.
    Stream,
}

/// The fields of a channel. Between two calls on them the channel's law may be broken.
#[derive(Drop)]
pub struct ChannelFields<T, B, W> {
    pub is_open: bool,
    pub buffer: B,
    pub waiters: TwoSides<Option<T>, ReceiveKind, W>,
}

// How a receive that was given an item stands: a single one has ended, and a stream is fresh again.
fn phase_given<W>(kind: ReceiveKind) -> Phase<W>
    ensures { result ≡ phase_given (Some kind) }
{
    match kind {
        ReceiveKind::Stream => Phase::Fresh,
        ReceiveKind::Single => Phase::Ended,
    }
}

impl<T: Drop, B: RingBuf<Item = T>, W: Drop> ChannelFields<T, B, W> {
    /// An open channel over an empty buffer, which has taken no memory.
    pub fn new(alloc: Global) -> Self
        ensures { machine_of B.bounded result ≡ opened (empty (B.capacity_for 0) 0) }
    {
        ChannelFields {
            is_open: true,
            buffer: B::new(alloc),
            waiters: TwoSides::new(alloc),
        }
    }

    /// An open channel over an empty buffer for so many values. Refused only with `NoMemory`.
    pub fn with_capacity(alloc: Global, capacity: usize) -> Result<Self, Fault>
        ensures opened { IfOk result (λ made. machine_of B.bounded made ≡ opened
            (empty (B.capacity_for capacity) (B.bounded made.buffer).reserved)) }
        ensures reserved { IfOk result (λ made. (B.bounded made.buffer).reserved ≡ B.reserved_for capacity) }
        ensures fits { IfOk result (λ made. Fits (B.bounded made.buffer)) }
        ensures fault { IfErr result (λ fault. fault ≡ Fault.NoMemory) }
    {
        let buffer = B::with_capacity(alloc, capacity)?;
        Ok(ChannelFields {
            is_open: true,
            buffer,
            waiters: TwoSides::new(alloc),
        })
    }

    /// A fresh send of this value. Refused only for want of memory; then the value comes back and nothing has changed.
    #[inline(always)]
    pub fn claim_send(&mut self, value: T) -> Result<Slot, NoRoom<T>>
        ensures made { IfOk result (λ slot. MakesSend (machine_of B.bounded self.old) value slot.0 (machine_of B.bounded self.new)) }
        ensures refused { OnErr result (machine_of B.bounded self.new ≡ machine_of B.bounded self.old) }
        ensures handed_back { IfErr result (λ failed. failed.0 ≡ value) }
    {
        let failed = match self.waiters.insert::<Sends>(Some(value)) {
            Ok(slot) => return Ok(slot),
            Err(failed) => failed,
        };
        let (back, refused) = failed.into_parts();
        Err(NoRoom::of(back.unwrap(), refused))
    }

    /// A fresh receive, or stream. Refused only with `NoMemory`; then nothing has changed.
    #[inline(always)]
    pub fn claim_receive(&mut self, kind: ReceiveKind) -> Result<Slot, Fault>
        ensures made { IfOk result (λ slot. MakesReceive (machine_of B.bounded self.old) kind slot.0 (machine_of B.bounded self.new)) }
        ensures refused { OnErr result (machine_of B.bounded self.new ≡ machine_of B.bounded self.old) }
        ensures fault { IfErr result (λ fault. fault ≡ Fault.NoMemory) }
    {
        match self.waiters.insert::<Receives>(kind) {
            Ok(slot) => Ok(slot),
            Err(failed) => Err(Fault::from(failed)),
        }
    }

    // Whether there is a value to be received: one that is buffered, or of a send that waits.
    fn has_next(&self) -> bool
        ensures { result ≡ is_some (next_of (machine_of B.bounded self.now)) }
    {
        if !self.buffer.is_empty() {
            return true;
        }
        match self.waiters.oldest_asks::<Sends>() {
            Some(value) => value.is_some(),
            None => false,
        }
    }

    // Whether a poll of a fresh or a told receive, or stream, has to wait: no value can be received, and the channel is open.
    fn has_to_wait(&self) -> bool
        ensures { result ≡ (self.now.is_open && not (is_some (next_of (machine_of B.bounded self.now)))) }
    {
        self.is_open && !self.has_next()
    }

    // Takes the oldest value, and lets the oldest send that waits hand its value on; None if there is no value.
    #[inline(always)]
    fn take_next(&mut self) -> Option<T>
        requires { IsSound (machine_of B.bounded self.old) }
        ensures taken { Takes (B.bounded self.old.buffer) self.old.waiters result (B.bounded self.new.buffer) self.new.waiters }
        ensures flag { self.new.is_open ≡ self.old.is_open }
    {
        if self.buffer.is_empty() {
            return self.waiters.complete_oldest::<Sends>(None).flatten();
        }
        let value = self.buffer.pop();
        let next = match self.waiters.complete_oldest::<Sends>(None).flatten() {
            Some(next) => next,
            None => return Some(value),
        };
        // Never refused: the value that came out left its place.
        let _ = self.buffer.push(next);
        Some(value)
    }

    /// Takes the oldest value at once, if there is one.
    #[inline(always)]
    pub fn try_receive(&mut self) -> Result<T, TryReceiveError>
        requires { IsSound (machine_of B.bounded self.old) }
        ensures { TriesReceive (machine_of B.bounded self.old) result (machine_of B.bounded self.new) }
    {
        if let Some(value) = self.take_next() {
            return Ok(value);
        }
        if self.is_open {
            return Err(TryReceiveError::Empty);
        }
        Err(TryReceiveError::Closed)
    }

    /// Polls a receive or a stream: it takes the oldest value, or is registered, or ends where none will come. A stream that has ended ends
    /// again, ever after. It is refused where none of this kind that may be polled lives under this slot, and where it would have to wait
    /// and may not; then nothing has changed. One look-up decides which it is.
    #[inline(always)]
    pub fn poll_as(
        &mut self,
        kind: ReceiveKind,
        slot: Slot,
        waker: W,
        may_wait: bool,
    ) -> Result<(Poll<Option<T>>, Leftover<W>), NotPolled<W>>
        requires { IsSound (machine_of B.bounded self.old) }
        ensures polled { IfOk result
            (λ polled. PollsAs kind (machine_of B.bounded self.old) slot.0 waker polled.0 (machine_of B.bounded self.new)) }
        ensures displaced { IfOk result (λ polled. polled.1.displaced ≡ displaced_receive (machine_of B.bounded self.old) slot.0) }
        ensures unused { IfOk result (λ polled. polled.1.unused ≡ unused_after polled.0 waker) }
        ensures live { OnOk result
            (can_poll_as kind (asks_of self.old.waiters.receives slot.0) (phase_of self.old.waiters.receives slot.0) ≡ true) }
        ensures waits { IfOk result (λ polled. OnPending polled.0 (may_wait ≡ true)) }
        ensures unchanged { OnErr result (machine_of B.bounded self.new ≡ machine_of B.bounded self.old) }
        ensures refused { IfErr result (λ why. IsRefused why waker
            (can_poll_as kind (asks_of self.old.waiters.receives slot.0) (phase_of self.old.waiters.receives slot.0)) may_wait
            (WouldBeReady (PollsAs kind (machine_of B.bounded self.old) slot.0) false)) }
    {
        let future = match self.waiters.future::<Receives>(slot) {
            Some(future) => future,
            None => return Err(NotPolled::NoFuture(waker)),
        };
        match (kind, &future.asks, &future.phase) {
            (ReceiveKind::Single, ReceiveKind::Single, Phase::Registered(_))
            | (ReceiveKind::Stream, ReceiveKind::Stream, Phase::Registered(_)) => {
                if !may_wait {
                    return Err(NotPolled::WouldWait(waker));
                }
                Ok(self.receive_registered(slot, waker))
            }
            (ReceiveKind::Single, ReceiveKind::Single, Phase::Fresh | Phase::Told)
            | (ReceiveKind::Stream, ReceiveKind::Stream, Phase::Fresh | Phase::Told) => {
                if !may_wait && self.has_to_wait() {
                    return Err(NotPolled::WouldWait(waker));
                }
                Ok(self.receive_apart(slot, kind, waker))
            }
            (ReceiveKind::Stream, ReceiveKind::Stream, Phase::Ended) => {
                let named = self.waiters.take_out::<Receives>(slot);
                Ok((Poll::Ready(None), Leftover::of(named, Some(waker))))
            }
            // No receive is complete.
            (ReceiveKind::Stream, ReceiveKind::Stream, Phase::Complete) => unreachable!(),
            _ => Err(NotPolled::NoFuture(waker)),
        }
    }

    // Polls a receive or a stream that waits: it keeps its place with this newer waker.
    #[inline(always)]
    fn receive_registered(&mut self, slot: Slot, waker: W) -> (Poll<Option<T>>, Leftover<W>)
        requires sound { IsSound (machine_of B.bounded self.old) }
        requires registered { is_registered (phase_of self.old.waiters.receives slot.0) ≡ true }
        ensures polled { PollsReceive (machine_of B.bounded self.old) slot.0 waker result.0 (machine_of B.bounded self.new) }
        ensures displaced { result.1.displaced ≡ displaced_receive (machine_of B.bounded self.old) slot.0 }
        ensures unused { result.1.unused ≡ unused_after result.0 waker }
    {
        self.waiters.take_out::<Receives>(slot);
        let before = self
            .waiters
            .set_phase::<Receives>(slot, Phase::Registered(waker));
        (Poll::Pending, Leftover::of(before, None))
    }

    // Polls a fresh or a told receive, or stream: it takes the oldest value, or is registered, or ends where none will come.
    #[inline(always)]
    fn receive_apart(
        &mut self,
        slot: Slot,
        kind: ReceiveKind,
        waker: W,
    ) -> (Poll<Option<T>>, Leftover<W>)
        requires sound { IsSound (machine_of B.bounded self.old) }
        requires kind { asks_of self.old.waiters.receives slot.0 ≡ Some kind }
        requires live { can_take (phase_of self.old.waiters.receives slot.0) ≡ true }
        requires apart { is_registered (phase_of self.old.waiters.receives slot.0) ≡ false }
        ensures polled { PollsReceive (machine_of B.bounded self.old) slot.0 waker result.0 (machine_of B.bounded self.new) }
        ensures displaced { result.1.displaced ≡ displaced_receive (machine_of B.bounded self.old) slot.0 }
        ensures unused { result.1.unused ≡ unused_after result.0 waker }
    {
        let named = self.waiters.take_out::<Receives>(slot);
        if let Some(value) = self.take_next() {
            self.waiters.set_phase::<Receives>(slot, phase_given(kind));
            return (Poll::Ready(Some(value)), Leftover::of(named, Some(waker)));
        }
        if self.is_open {
            self.waiters.register::<Receives>(slot, waker);
            return (Poll::Pending, Leftover::of(named, None));
        }
        self.waiters.set_phase::<Receives>(slot, Phase::Ended);
        (Poll::Ready(None), Leftover::of(named, Some(waker)))
    }

    /// Removes a receive or a stream, and returns the waker that it had. A told one passes its notice on to the oldest. None where none
    /// lives under this slot; then nothing has changed.
    #[inline(always)]
    pub fn leave_receive(&mut self, slot: Slot) -> Option<W>
        requires { IsSound (machine_of B.bounded self.old) }
        ensures { LeavesWhere (is_some (phase_of self.old.waiters.receives slot.0))
            (CancelsReceive (machine_of B.bounded self.old) slot.0 (machine_of B.bounded self.new))
            (displaced_receive (machine_of B.bounded self.old) slot.0) (machine_of B.bounded self.old) result
            (machine_of B.bounded self.new) }
    {
        let (future, named) = match self.waiters.remove::<Receives>(slot) {
            Some(left) => left,
            None => return None,
        };
        let was_told = future.phase.is_told();
        let waker = last_waker(future.phase, named);
        if was_told {
            self.waiters.tell_oldest::<Receives>();
        }
        waker
    }

    /// Sends a value at once, if the channel is open and its buffer has room; tells the oldest receive. Else the value comes
    /// back and nothing has changed.
    #[inline(always)]
    pub fn try_send(&mut self, value: T) -> Result<(), TrySendError<T>>
        requires { IsSound (machine_of B.bounded self.old) }
        ensures { TriesSend (machine_of B.bounded self.old) value result (machine_of B.bounded self.new) }
    {
        if !self.is_open {
            return Err(TrySendError::Closed(value));
        }
        if !self.buffer.can_push() {
            return Err(TrySendError::Full(value));
        }
        if let Err(failed) = self.buffer.push(value) {
            return Err(TrySendError::NoMemory(failed));
        }
        self.waiters.tell_oldest::<Receives>();
        Ok(())
    }

    /// Polls a send: its value is stored or waits with it, and the oldest receive is told; a closed channel hands it back.
    /// It fails if there is no memory to store it; then nothing has changed, and the send still owns its value. It is refused where no send
    /// lives under this slot that has not ended, and where it would have to wait and may not; then nothing has changed. One look-up decides
    /// which it is.
    #[inline(always)]
    pub fn poll_send(
        &mut self,
        slot: Slot,
        waker: W,
        may_wait: bool,
    ) -> Result<Sent<T, W>, NotPolled<W>>
        requires { IsSound (machine_of B.bounded self.old) }
        ensures polled { IfOk result
            (λ polled. PollsSend (machine_of B.bounded self.old) slot.0 waker polled.0 (machine_of B.bounded self.new)) }
        ensures displaced { IfOk result
            (λ polled. polled.1.displaced ≡ displaced_by_send polled.0 (displaced_send (machine_of B.bounded self.old) slot.0)) }
        ensures unused { IfOk result (λ polled. polled.1.unused ≡ unused_after polled.0 waker) }
        ensures live { OnOk result (can_send (phase_of self.old.waiters.sends slot.0) ≡ true) }
        ensures waits { IfOk result (λ polled. OnPending polled.0 (may_wait ≡ true)) }
        ensures unchanged { OnErr result (machine_of B.bounded self.new ≡ machine_of B.bounded self.old) }
        ensures refused { IfErr result (λ why. IsRefused why waker (can_send (phase_of self.old.waiters.sends slot.0)) may_wait
            (WouldBeReady (PollsSend (machine_of B.bounded self.old) slot.0) false)) }
    {
        match self.waiters.phase::<Sends>(slot) {
            Some(Phase::Fresh) => self.send_fresh(slot, waker, may_wait),
            Some(Phase::Registered(_)) => {
                if !may_wait {
                    return Err(NotPolled::WouldWait(waker));
                }
                Ok(self.send_registered(slot, waker))
            }
            Some(Phase::Complete) => Ok(self.send_complete(slot, waker)),
            None | Some(Phase::Told | Phase::Ended) => Err(NotPolled::NoFuture(waker)),
        }
    }

    // Polls a send whose value was taken: it ends.
    #[inline(always)]
    fn send_complete(&mut self, slot: Slot, waker: W) -> Sent<T, W>
        requires sound { IsSound (machine_of B.bounded self.old) }
        requires complete { phase_of self.old.waiters.sends slot.0 ≡ Some Complete }
        ensures polled { PollsSend (machine_of B.bounded self.old) slot.0 waker result.0 (machine_of B.bounded self.new) }
        ensures displaced { result.1.displaced ≡ displaced_by_send result.0 (displaced_send (machine_of B.bounded self.old) slot.0) }
        ensures unused { result.1.unused ≡ unused_after result.0 waker }
    {
        let named = self.waiters.take_out::<Sends>(slot);
        self.waiters.set_phase::<Sends>(slot, Phase::Ended);
        (Poll::Ready(Ok(())), Leftover::of(named, Some(waker)))
    }

    // Polls a send that waits: it keeps its place with this newer waker.
    #[inline(always)]
    fn send_registered(&mut self, slot: Slot, waker: W) -> Sent<T, W>
        requires sound { IsSound (machine_of B.bounded self.old) }
        requires registered { is_registered (phase_of self.old.waiters.sends slot.0) ≡ true }
        ensures polled { PollsSend (machine_of B.bounded self.old) slot.0 waker result.0 (machine_of B.bounded self.new) }
        ensures displaced { result.1.displaced ≡ displaced_by_send result.0 (displaced_send (machine_of B.bounded self.old) slot.0) }
        ensures unused { result.1.unused ≡ unused_after result.0 waker }
    {
        self.waiters.take_out::<Sends>(slot);
        let before = self
            .waiters
            .set_phase::<Sends>(slot, Phase::Registered(waker));
        (Poll::Pending, Leftover::of(before, None))
    }

    // Polls a fresh send. It is refused where it would have to wait and may not; then nothing has changed.
    #[inline(always)]
    fn send_fresh(
        &mut self,
        slot: Slot,
        waker: W,
        may_wait: bool,
    ) -> Result<Sent<T, W>, NotPolled<W>>
        requires sound { IsSound (machine_of B.bounded self.old) }
        requires fresh { phase_of self.old.waiters.sends slot.0 ≡ Some Fresh }
        ensures polled { IfOk result
            (λ polled. PollsSend (machine_of B.bounded self.old) slot.0 waker polled.0 (machine_of B.bounded self.new)) }
        ensures displaced { IfOk result
            (λ polled. polled.1.displaced ≡ displaced_by_send polled.0 (displaced_send (machine_of B.bounded self.old) slot.0)) }
        ensures unused { IfOk result (λ polled. polled.1.unused ≡ unused_after polled.0 waker) }
        ensures waits { IfOk result (λ polled. OnPending polled.0 (may_wait ≡ true)) }
        ensures unchanged { OnErr result (machine_of B.bounded self.new ≡ machine_of B.bounded self.old) }
        ensures refused { IfErr result (λ why. IsRefused why waker true may_wait
            (WouldBeReady (PollsSend (machine_of B.bounded self.old) slot.0) false)) }
    {
        if !self.is_open {
            let named = self.waiters.take_out::<Sends>(slot);
            self.waiters.set_phase::<Sends>(slot, Phase::Ended);
            let value = self.waiters.exchange::<Sends>(slot, None).unwrap();
            return Ok((
                Poll::Ready(Err(SendFault::Closed(value))),
                Leftover::of(named, Some(waker)),
            ));
        }
        if !self.buffer.can_push() {
            if !may_wait {
                return Err(NotPolled::WouldWait(waker));
            }
            let named = self.waiters.take_out::<Sends>(slot);
            self.waiters.register::<Sends>(slot, waker);
            self.waiters.tell_oldest::<Receives>();
            return Ok((Poll::Pending, Leftover::of(named, None)));
        }
        let value = self.waiters.exchange::<Sends>(slot, None).unwrap();
        if let Err(failed) = self.buffer.push(value) {
            let (value, refused) = failed.into_parts();
            self.waiters.exchange::<Sends>(slot, Some(value));
            return Ok((
                Poll::Ready(Err(SendFault::Fault(Fault::from(refused)))),
                Leftover::of(None, Some(waker)),
            ));
        }
        let named = self.waiters.take_out::<Sends>(slot);
        self.waiters.set_phase::<Sends>(slot, Phase::Ended);
        self.waiters.tell_oldest::<Receives>();
        Ok((Poll::Ready(Ok(())), Leftover::of(named, Some(waker))))
    }

    /// Removes a send. Returns the value that it still owned, and the waker that it had; nothing where none lives under this slot, and
    /// then nothing has changed.
    #[inline(always)]
    pub fn leave_send(&mut self, slot: Slot) -> (Option<T>, Option<W>)
        ensures cancelled { is_some (phase_of self.old.waiters.sends slot.0) ≡ true →
            CancelsSend (machine_of B.bounded self.old) slot.0 result.0 (machine_of B.bounded self.new) }
        ensures displaced { is_some (phase_of self.old.waiters.sends slot.0) ≡ true →
            result.1 ≡ displaced_send (machine_of B.bounded self.old) slot.0 }
        ensures unchanged { is_some (phase_of self.old.waiters.sends slot.0) ≡ false →
            (machine_of B.bounded self.new ≡ machine_of B.bounded self.old) × (result ≡ (None, None)) }
    {
        let (future, named) = match self.waiters.remove::<Sends>(slot) {
            Some(left) => left,
            None => return (None, None),
        };
        let LiveFuture { asks, phase } = future;
        (asks, last_waker(phase, named))
    }

    /// Closes the channel, if it is open: names all receives and then all sends that wait.
    pub fn close(&mut self) -> CloseStatus
        requires { IsSound (machine_of B.bounded self.old) }
        ensures { Closes (machine_of B.bounded self.old) result (machine_of B.bounded self.new) }
    {
        if !self.is_open {
            return CloseStatus::AlreadyClosed;
        }
        self.is_open = false;
        self.waiters.notice_all::<Receives>(Notice::Renew);
        self.waiters.notice_all::<Sends>(Notice::Renew);
        CloseStatus::NewlyClosed
    }

    /// Closes the channel, if it is open, and takes its buffer out with the values in it.
    pub fn close_and_clear(&mut self) -> B
        requires { IsSound (machine_of B.bounded self.old) }
        ensures { ClosesAndClears B.bounded (machine_of B.bounded self.old) result (machine_of B.bounded self.new) }
    {
        self.close();
        self.buffer.take()
    }
}
