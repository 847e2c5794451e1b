//! The ends of a channel: what its senders and its receivers have in common.
ghost use Rattle.std.specs.Prelude.{◌≡◌, ◌⊎◌, ℕ, Some, Ok, Err, OnOk, OnErr, IfOk, IfErr, Option, Result};
ghost use Rattle.std.specs.Arc.{arc_value};
ghost use Rattle.std.specs.Borrow.{MutBor};
ghost use Rattle.fi_parts.specs.declared.errors.Fault.{Fault};
ghost use Rattle.fi_parts.specs.declared.errors.Slot.{Slot};
ghost use Rattle.fi_sync.specs.Waiting.{IsNew};
ghost use Rattle.futures_intrusive.specs.Ends.{Counted, KeepsEnds, AddsSender, AddsReceiver, LeavesSender, DropsReceiver};

use crate::counted_ends::{ClosesByEnds, CountedEnds, ManyReceivers, ManySenders};
use fi_parts::memory::{share, shared};
use fi_parts::{Fault, Refused, Slot};
use fi_sync::{HasOutbox, Monitor, PollSlot, SlotFuture};
use std::alloc::Global;
use std::fmt;
use std::marker::{Model, PhantomData};
use std::sync::{Arc, Wait};

/// What the ends of a channel share: its state with their counts, behind a lock.
pub type SharedChannel<S, R> = Arc<Monitor<CountedEnds<S>, R>, Global>;

/// A future of the kind `K` that owns a share of its channel, so that it can outlive the end that made it.
pub type SharedFutureOf<S, R, K> = SlotFuture<SharedChannel<S, R>, K>;

/// The sending side of a channel.
pub struct Senders;

/// The receiving side of a channel.
pub struct Receivers;

/// A kind of channel, by the names that `Debug` shows of its ends.
pub trait EndNames {
    /// The name of a sending end.
    fn sender() -> &'static str;

    /// The name of a receiving end.
    fn receiver() -> &'static str;
}

/// One side of a channel, whose ends are counted.
pub trait Side<S: ClosesByEnds> {
    /// One end less on this side lets this go and leads from old to new.
    ghost drops: { Counted S → Option S.Cleared → Counted S → Type 0 };

    /// One end less. What the channel lets go comes back.
    fn drop_end(ends: &mut CountedEnds<S>) -> Option<S::Cleared>
        ensures { drops ends.old result ends.new };
}

/// A side whose ends can be cloned.
pub trait CloneSide<S: ClosesByEnds>: Side<S> {
    /// One end more on this side answers this and leads from old to new.
    ghost adds: { Counted S → Result (Unit {0}) Fault → Counted S → Type 0 };

    /// One end more. Refused with `TooManyEnds` exactly if there are `isize::MAX`; then nothing changes.
    fn add_end(ends: &mut CountedEnds<S>) -> Result<(), Fault>
        ensures added { adds ends.old result ends.new }
        ensures refused { OnErr result (ends.new ≡ ends.old) }
        ensures fault { IfErr result (λ fault. fault ≡ Fault.TooManyEnds) };
}

impl<S: ClosesByEnds> Side<S> for Senders {
    ghost drops = { LeavesSender S.closes };

    fn drop_end(ends: &mut CountedEnds<S>) -> Option<S::Cleared> {
        ends.drop_sender();
        None
    }
}

impl<S: ClosesByEnds> Side<S> for Receivers {
    ghost drops = { DropsReceiver S.clears };

    fn drop_end(ends: &mut CountedEnds<S>) -> Option<S::Cleared> {
        ends.drop_receiver()
    }
}

impl<S: ManySenders> CloneSide<S> for Senders {
    ghost adds = { AddsSender };

    fn add_end(ends: &mut CountedEnds<S>) -> Result<(), Fault> {
        ends.add_sender()
    }
}

impl<S: ManyReceivers> CloneSide<S> for Receivers {
    ghost adds = { AddsReceiver };

    fn add_end(ends: &mut CountedEnds<S>) -> Result<(), Fault> {
        ends.add_receiver()
    }
}

/// That an end is counted. It has no `Drop`: only `leave` takes it, so an end whose drop is not counted does not compile.
struct Membership<K> {
    side: PhantomData<K>,
}

impl<K> Membership<K> {
    /// Counts one end more. Refused with `TooManyEnds` if there are `isize::MAX`; then nothing changes.
    fn join<S: ClosesByEnds>(ends: &mut CountedEnds<S>) -> Result<Self, Fault>
    where
        K: CloneSide<S>,
        ensures counted { OnOk result (K.adds ends.old (Ok tt) ends.new) }
        ensures refused { IfErr result (λ fault. K.adds ends.old (Err fault) ends.new × (ends.new ≡ ends.old)) }
        ensures fault { IfErr result (λ fault. fault ≡ Fault.TooManyEnds) }
    {
        K::add_end(ends)?;
        Ok(Membership { side: PhantomData })
    }

    /// Counts one end less. What the channel lets go comes back.
    fn leave<S: ClosesByEnds>(self, ends: &mut CountedEnds<S>) -> Option<S::Cleared>
    where
        K: Side<S>,
        ensures { K.drops ends.old result ends.new }
    {
        let Membership { side: _ } = self;
        K::drop_end(ends)
    }
}

/// One end of a channel, on the side `K`. It owns a share of the channel, and is counted there.
///
/// The drop of the last end of a side closes the channel and wakes all who wait; the last receiver's also drops the values that a
/// channel of many has buffered. A future that an end made keeps the channel alive, but is not counted.
pub struct End<S: ClosesByEnds + Drop, R: Wait + Drop, K: Side<S>> {
    channel: SharedChannel<S, R>,
    membership: Membership<K>,
}

impl<S: ClosesByEnds + EndNames + Drop, R: Wait + Drop> fmt::Debug for End<S, R, Senders> {
    fn fmt<F: fmt::Write>(&self, f: &mut fmt::Formatter<F>) -> fmt::Result {
        f.debug_struct(S::sender()).finish()
    }
}

impl<S: ClosesByEnds + EndNames + Drop, R: Wait + Drop> fmt::Debug for End<S, R, Receivers> {
    fn fmt<F: fmt::Write>(&self, f: &mut fmt::Formatter<F>) -> fmt::Result {
        f.debug_struct(S::receiver()).finish()
    }
}

impl<S: ClosesByEnds + Drop, R: Wait + Drop, K: Side<S>> Model for End<S, R, K> {
    ghost use Rattle.std.specs.Prelude.{ℕ};

    ghost Value = { ℕ };

    // The source that the channel's futures register at.
    ghost view = { λ end. end.channel.value };
}

impl<S: ClosesByEnds + Drop, R: Wait + Drop, K: Side<S>> End<S, R, K> {
    /// The channel, whose calls are made behind its lock.
    pub(crate) fn channel(&self) -> &Monitor<CountedEnds<S>, R>
        ensures { result.now ≡ self.now }
    {
        &*self.channel
    }

    /// One more owner of the channel. Refused only if there are 2^63 - 1.
    pub(crate) fn share(&self) -> Result<SharedChannel<S, R>, Refused>
        ensures { IfOk result (λ shared. arc_value shared ≡ self.now) }
    {
        share(&self.channel)
    }
}

impl<S: ClosesByEnds + Drop, R: Wait + Drop, K: Side<S>> End<S, R, K> {
    /// Returns `true` if the channel was closed when it was looked at.
    pub fn is_closed(&self) -> bool {
        self.channel().call((), |ends, ()| ends.is_closed())
    }

    /// Returns how many senders there were when it was looked at. Takes constant time, no memory, and one hold of the lock.
    pub fn sender_count(&self) -> usize
        ensures shown { (held : Counted S) × KeepsEnds S.closing held × (result ≡ held.senders) }
    {
        self.channel().call((), |ends, ()| ends.senders())
    }

    /// Returns how many receivers there were when it was looked at. A stream counts as the receiver that it keeps. Takes constant
    /// time, no memory, and one hold of the lock.
    pub fn receiver_count(&self) -> usize
        ensures shown { (held : Counted S) × KeepsEnds S.closing held × (result ≡ held.receivers) }
    {
        self.channel().call((), |ends, ()| ends.receivers())
    }
}

impl<S: ClosesByEnds + Drop, R: Wait + Drop, K: CloneSide<S>> End<S, R, K> {
    /// One more end of the same channel on this side. Takes no memory, and one hold of the lock.
    ///
    /// Refused with `TooManyEnds` if there are `isize::MAX` ends of this side, or with `NoMemory` if the channel has 2^63 - 1
    /// owners; then nothing has changed.
    pub fn clone(&self) -> Result<Self, Fault>
        ensures same { IfOk result (λ clone. clone ≡ self.now) }
        // The channel counted one end more, in some hold of its lock.
        ensures counted { OnOk result ((old : Counted S) × (new : Counted S) × K.adds old (Ok tt) new) }
        ensures fault { IfErr result (λ fault. (fault ≡ Fault.NoMemory) ⊎ (fault ≡ Fault.TooManyEnds)) }
        // Where the channel refused one end more, it was left as it was.
        ensures refused { IfErr result (λ fault. fault ≡ Fault.TooManyEnds → (old : Counted S) × K.adds old (Err fault) old) }
    {
        let channel = self.share()?;
        let join = |ends: &mut CountedEnds<S>, ()| -> Result<Membership<K>, Fault>
            ensures counted { OnOk result (K.adds ends.old (Ok tt) ends.new) }
            ensures refused { IfErr result (λ fault. K.adds ends.old (Err fault) ends.new × (ends.new ≡ ends.old)) }
            ensures fault { IfErr result (λ fault. fault ≡ Fault.TooManyEnds) }
        { Membership::join(ends) };
        let membership = channel.call((), join)?;
        Ok(End {
            channel,
            membership,
        })
    }
}

impl<S: ClosesByEnds + Drop, R: Wait + Drop, K: Side<S>> Drop for End<S, R, K> {
    fn drop(self) {
        let End {
            channel,
            membership,
        } = self;
        let leave = |ends: &mut CountedEnds<S>, membership: Membership<K>| -> Option<S::Cleared>
            ensures { K.drops ends.old result ends.new }
        { membership.leave(ends) };
        let cleared = channel.call(membership, leave);
        // With no lock held: the drop of a value may run any code, that of an end of this channel too.
        drop(cleared);
        drop(channel);
    }
}

/// The first two ends of a channel with this state. Refused only with `NoMemory`.
pub(crate) fn two_ends<S: ClosesByEnds + Drop, R: Wait + Drop>(
    alloc: Global,
    rt: R,
    state: S,
) -> Result<(End<S, R, Senders>, End<S, R, Receivers>), Fault>
    ensures same { IfOk result (λ ends. ends.0 ≡ ends.1) }
    ensures fault { IfErr result (λ fault. fault ≡ Fault.NoMemory) }
{
    let first = shared(alloc, Monitor::new(rt, CountedEnds::new(alloc, state)))?;
    let second = share(&first)?;
    let sender = End {
        channel: first,
        membership: Membership { side: PhantomData },
    };
    let receiver = End {
        channel: second,
        membership: Membership { side: PhantomData },
    };
    Ok((sender, receiver))
}

/// A future of the kind `K` that owns this share of its channel. The call gives its slot, or refuses.
#[inline(always)]
pub(crate) fn future_of<S, R, K, I, E, C>(
    shared: Arc<Monitor<S, R>, Global>,
    input: I,
    call: C,
) -> Result<SlotFuture<Arc<Monitor<S, R>, Global>, K>, E>
where
    S: HasOutbox + PollSlot<K> + Drop,
    R: Wait + Drop,
    C: FnOnce(&mut S, I) -> Result<Slot, E>,
    requires { C.IsAlwaysCallable call }
    ensures made { IfOk result (λ future. IsNew (arc_value shared) future) }
    ensures claimed { IfOk result (λ future. (shown : MutBor S) × (left : MutBor S) × (slot : Slot) × (future.name ≡ Some slot.0)
        × C.post call shown input (Ok slot) left) }
    ensures refused { IfErr result (λ error. (shown : MutBor S) × (left : MutBor S) × C.post call shown input (Err error) left) }
{
    let claim = shared.claim(input, call)?;
    Ok(SlotFuture::new(shared, claim))
}
