//! Futures that wait for a moment, and those that are registered in a heap by expiry.
ghost use Rattle.fi_parts.specs.Polled.{LeavesWhere};
ghost use Rattle.std.specs.Prelude.{◌≡◌, ◌≢◌, ℕ, [], Some, None, true, false, IfOk, OnErr, length, drop};
ghost use Rattle.std.specs.Prelude.{option_copied, MatchOption, MatchBool, ◌<◌, is_some};
ghost use Rattle.std.specs.Option.{option_map};
ghost use Rattle.std.specs.FinMap as map;
ghost use Rattle.std.specs.FinSet as set;
ghost use Rattle.fi_parts.specs.HeapModel.{IsLiveIn, with_values};
ghost use Rattle.fi_parts.specs.Pairs.{waker_of, without_pair, oldest};
ghost use Rattle.fi_parts.specs.Waiting.{phase_of, is_registered, waker_in, with_phase, no_futures};
ghost use Rattle.fi_parts.specs.Waiting.{insert_fresh, stays, without_future, displaced, IsLive};
ghost use Rattle.fi_parts.specs.Deadlines.{told_due, IsLeastDue, NoneDue, TellsExpired, NoneHasPair, IsNextExpiry, is_fresh};
ghost use Rattle.fi_parts.specs.Stages.{stage_of};
ghost use Rattle.fi_parts.specs.Seats.{unseated, deadlines_of, AreSeated, IsFirst};

use crate::errors::Slot;
use crate::heap::PairingHeap;
use crate::memory::Refused;
use crate::phase::{LiveFuture, Phase, Stage};
use crate::waits::Waits;
use std::alloc::Global;
use std::fmt;
use std::marker::Model;

/// What a future of a timer asks for: its expiry, and its seat in the heap, which was claimed when it was made.
#[derive(Clone, Copy, Drop)]
pub struct Deadline {
    pub expiry: u64,
    pub seat: Slot,
}

/// What is stored under a seat of the heap: the expiry of a future, and its name.
#[derive(Clone, Copy, PartialEq, Eq, PartialOrd, Ord)]
pub struct Due {
    pub expiry: u64,
    pub name: usize,
}

/// Futures by name, each with an expiry that is fixed when it is made, and the wakers to be woken.
///
/// Each live future has a seat in a heap, which it takes while it is registered. Only `insert` takes memory. A removal finds the
/// future's node in the heap without a search.
#[derive(Drop)]
pub struct Deadlines<W> {
    waits: Waits<Deadline, W>,
    heap: PairingHeap<Due>,
}

impl<W> fmt::Debug for Deadlines<W> {
    fn fmt<F: fmt::Write>(&self, f: &mut fmt::Formatter<F>) -> fmt::Result {
        f.debug_struct("Deadlines").finish()
    }
}

impl<W> Model for Deadlines<W> {
    ghost use Rattle.fi_parts.specs.Waiting.{Waiting};
    ghost use Rattle.fi_parts.specs.Codes.{waiting_code};
    ghost use Rattle.std.specs.Prelude.{ℕ};
    ghost use Rattle.std.specs.Coded.{coded_ℕ};
    ghost use Rattle.fi_parts.specs.Seats.{deadlines_of, AreSeated};

    ghost Value = { Waiting ℕ W };

    ghost coded = { waiting_code coded_ℕ W.code };

    ghost view = { λ d. deadlines_of d.waits };

    ghost invariant = { λ d. AreSeated d.waits.side.live d.heap };
}

// Writes what is stored under a seat that is not taken.
fn name_seat(heap: &mut PairingHeap<Due>, seat: Slot, due: Due)
    requires live { IsLiveIn heap.old seat.0 }
    requires apart { set.contains heap.old.members seat.0 ≡ false }
    ensures { heap.new ≡ with_values heap.old (map.insert heap.old.live seat.0 due) }
{
    *heap.get_mut(seat).unwrap() = due;
}

// Frees a seat, taken or not.
#[inline(always)]
fn give_up(heap: &mut PairingHeap<Due>, seat: Slot)
    requires { IsLiveIn heap.old seat.0 }
    ensures live { heap.new.live ≡ map.remove heap.old.live seat.0 }
    ensures elsewhere { (other : ℕ) → other ≢ seat.0 → set.contains heap.new.members other ≡ set.contains heap.old.members other }
{
    if heap.contains(seat) {
        heap.remove(seat);
    }
    heap.free(seat);
}

// The seat with the least expiry of all that are taken, and what is stored there.
fn first(heap: &PairingHeap<Due>) -> Option<(Slot, Due)>
    ensures { MatchOption result (heap.now.members ≡ set.empty) (λ found. IsFirst heap.now found.0.0 found.1) }
{
    let seat = match heap.peek_min() {
        Some(seat) => seat,
        None => return None,
    };
    Some((seat, *heap.get(seat).unwrap()))
}

// Tells the future with the least expiry, if that has come. False if no future was due.
fn tell_first<W: Drop>(
    waits: &mut Waits<Deadline, W>,
    heap: &mut PairingHeap<Due>,
    now: u64,
) -> bool
    requires seated { AreSeated waits.old.side.live heap.old }
    requires no_pair { NoneHasPair (deadlines_of waits.old) }
    ensures seated { AreSeated waits.new.side.live heap.new }
    ensures no_pair { NoneHasPair (deadlines_of waits.new) }
    ensures fewer { result ≡ true → set.len heap.new.members < set.len heap.old.members }
    ensures told { MatchBool result
        ((name : ℕ) × IsLeastDue now (deadlines_of waits.old).side name × (deadlines_of waits.new ≡ told_due (deadlines_of waits.old) name))
        ((deadlines_of waits.new ≡ deadlines_of waits.old) × NoneDue now (deadlines_of waits.old).side) }
{
    let (seat, due) = match first(heap) {
        Some(found) => found,
        None => return false,
    };
    if due.expiry > now {
        return false;
    }
    heap.remove(seat);
    waits.notice(Slot(due.name), Phase::Told);
    true
}

impl<W: Drop> Deadlines<W> {
    /// No future, and nobody to wake. It takes no memory yet.
    pub fn new(alloc: Global) -> Self
        ensures { result ≡ record { side = no_futures; out = [] } }
    {
        Deadlines {
            waits: Waits::new(alloc),
            heap: PairingHeap::new(alloc),
        }
    }

    /// A future, with its seat: it asks for its expiry, and has this phase. None where none lives under this name.
    pub fn future(&self, slot: Slot) -> Option<&LiveFuture<Deadline, W>>
        ensures { option_map unseated (option_copied result) ≡ map.get self.now.side.live slot.0 }
    {
        self.waits.future(slot)
    }

    /// The phase of a name; None where no future lives under it.
    pub fn phase(&self, slot: Slot) -> Option<&Phase<W>>
        ensures { option_copied result ≡ phase_of self.now.side slot.0 }
    {
        self.waits.phase(slot)
    }

    /// How far a name is; None where no future lives under it.
    pub fn stage(&self, slot: Slot) -> Option<Stage>
        ensures { result ≡ option_map stage_of (phase_of self.now.side slot.0) }
    {
        match self.phase(slot) {
            Some(phase) => Some(phase.stage()),
            None => None,
        }
    }

    /// Returns `true` if a live future has this name and is fresh.
    pub fn is_fresh(&self, slot: Slot) -> bool
        ensures { result ≡ is_fresh (phase_of self.now.side slot.0) }
    {
        matches!(self.phase(slot), Some(Phase::Fresh))
    }

    /// Makes a fresh future with this expiry under a name that was not live.
    ///
    /// Refused if there is no memory for it, its seat or its ticket; then nothing has changed.
    #[inline(always)]
    pub fn insert(&mut self, expiry: u64) -> Result<Slot, Refused>
        ensures was_free { IfOk result (λ slot. phase_of self.old.side slot.0 ≡ None) }
        ensures made { IfOk result (λ slot. self.new ≡ record self.old { side = insert_fresh self.old.side slot.0 expiry }) }
        ensures refused { OnErr result (self.new ≡ self.old) }
    {
        let seat = match self.heap.claim(Due { expiry, name: 0 }) {
            Ok(seat) => seat,
            Err(failed) => return Err(failed.into_parts().1),
        };
        match self.waits.insert(Deadline { expiry, seat }) {
            Ok(slot) => {
                let name = slot.0;
                name_seat(&mut self.heap, seat, Due { expiry, name });
                Ok(slot)
            }
            Err(failed) => {
                self.heap.free(seat);
                Err(failed.into_parts().1)
            }
        }
    }

    /// Takes out a live future's own pair, and returns its waker; None where it has no pair.
    #[inline(always)]
    pub fn take_out(&mut self, slot: Slot) -> Option<W>
        requires { IsLive self.old.side slot.0 }
        ensures waker { result ≡ waker_of slot.0 self.old.out }
        ensures rest { self.new ≡ record self.old { out = without_pair slot.0 self.old.out } }
    {
        self.waits.take_out(slot)
    }

    /// Registers a live future that is not registered; it takes its seat in the heap.
    #[inline(always)]
    pub fn register(&mut self, slot: Slot, waker: W)
        requires live { IsLive self.old.side slot.0 }
        requires apart { is_registered (phase_of self.old.side slot.0) ≡ false }
        ensures { self.new ≡ record self.old { side = stays self.old.side slot.0 waker } }
    {
        let seat = self.waits.asks(slot).unwrap().seat;
        self.heap.insert(seat);
        self.waits.set_phase(slot, Phase::Registered(waker));
    }

    /// Sets the phase of a live future, which is registered afterwards exactly if it was. Returns the waker that it was
    /// registered with.
    pub fn set_phase(&mut self, slot: Slot, phase: Phase<W>) -> Option<W>
        requires live { IsLive self.old.side slot.0 }
        requires seat { is_registered (Some phase) ≡ is_registered (phase_of self.old.side slot.0) }
        ensures waker { MatchOption (phase_of self.old.side slot.0) ⊥ (λ before. result ≡ waker_in before) }
        ensures rest { self.new ≡ record self.old { side = record self.old.side { live = with_phase self.old.side.live slot.0 phase } } }
    {
        self.waits.set_phase(slot, phase)
    }

    /// Removes a future from everything, and returns the waker that it had; None where none lives under this slot.
    #[inline(always)]
    pub fn remove(&mut self, slot: Slot) -> Option<W>
        ensures { LeavesWhere (is_some (phase_of self.old.side slot.0))
            (self.new ≡ record { side = without_future self.old.side slot.0; out = without_pair slot.0 self.old.out })
            (displaced self.old.side self.old.out slot.0) self.old result self.new }
    {
        let (asks, waker) = match self.waits.remove(slot) {
            Some(left) => left,
            None => return None,
        };
        give_up(&mut self.heap, asks.seat);
        waker
    }

    /// Tells exactly the registered futures whose expiry has come, and names them in rising order of expiry (equal ones in any).
    pub fn tell_expired(&mut self, now: u64)
        requires { NoneHasPair self.old }
        ensures { TellsExpired now self.old self.new }
    {
        while tell_first(&mut self.waits, &mut self.heap, now) {}
    }

    /// The least expiry of the registered futures; None where none is registered.
    pub fn next_expiry(&self) -> Option<u64>
        ensures { IsNextExpiry self.now.side result }
    {
        match first(&self.heap) {
            Some((_, due)) => Some(due.expiry),
            None => None,
        }
    }

    /// Takes out the oldest waker to be woken; None where none is left.
    pub fn next_wake(&mut self) -> Option<W>
        ensures value { result ≡ oldest self.old.out }
        ensures rest { self.new ≡ record self.old { out = drop 1 self.old.out } }
    {
        self.waits.next_wake()
    }

    /// How many wakers are to be woken.
    pub fn wake_count(&self) -> usize
        ensures { result ≡ length self.now.out }
    {
        self.waits.wake_count()
    }
}
