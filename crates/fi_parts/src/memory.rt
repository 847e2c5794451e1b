//! Requests for memory, and what shows that one was refused: the only file that asks std or the kit for memory and sees a refusal.
ghost use Rattle.std.specs.Prelude.{◌≡◌, ◌≢◌, ◌<◌, ◌+◌, ◌-◌, ◌≤◌, ◌++◌, ◌∷◌, [], Some, None, true, length, take, replicate};
ghost use Rattle.std.specs.Prelude.{IfOk, IfErr, IfNone, OnOk, OnErr, OnSome};
ghost use Rattle.std.specs.Arc.{arc_value};
ghost use Rattle.std.specs.BTreeMap as tree;
ghost use Rattle.std.specs.Vec.{vec_len, vec_capacity};
ghost use Rattle.std.specs.Vec.Ownership.{FitsInBlock};
ghost use Rattle.slab.specs.Slab.{HasRoomFor, Updates, get};
ghost use Rattle.circular_buffer.specs.Buffer.{buffer};
ghost use Rattle.fi_parts.specs.declared.errors.Fault.TheVariants.{NoMemory};
ghost use Rattle.futures.specs.Task.{Hears, IsArmed, Keeps};

use crate::blocks::Chunk;
use crate::errors::Fault;
use circular_buffer::HeapCircularBuffer;
use futures::Future;
use futures::executor::block_on;
use futures::task::{Context, Poll, Source, Waker};
use slab::Slab;
use std::alloc::{AllocFailed, AllocGlobal, Global};
use std::collections::BTreeMap;
use std::random::RandomSource;
use std::sync::{Arc, Wait};
use std::thread::Scope;
use std_alloc::room::may_hold;

/// A request for memory was refused. Only this file makes one, where a request has just failed.
///
/// # Examples
///
/// ```
/// use fi_parts::memory::items_for;
/// use fi_parts::{Fault, Refused};
///
/// let made = items_for::<u64>(rt.alloc(), usize::MAX);
/// let refused = made.err().expect(&rt, "refused");
/// assert!(rt; Refused::of(Fault::from(refused)).is_some() && Refused::of(Fault::Full).is_none());
/// ```
#[derive(Debug, PartialEq, Drop)]
pub struct Refused {
    request: (),
}

impl Refused {
    /// What this fault was made of; None if it is another than `NoMemory`.
    pub fn of(fault: Fault) -> Option<Self>
        ensures some { OnSome result (fault ≡ NoMemory) }
        ensures none { IfNone result (fault ≢ NoMemory) }
    {
        match fault {
            Fault::NoMemory => Some(Refused { request: () }),
            Fault::NoSlot
            | Fault::Closed
            | Fault::Full
            | Fault::Empty
            | Fault::Overflow
            | Fault::NotHeld
            | Fault::TooManyEnds => None,
        }
    }
}

/// Room for so many more items, as `Vec::reserve`.
#[inline(always)]
pub fn reserve<T>(items: &mut Vec<T>, more: usize) -> Result<(), Refused>
    ensures items { items.new.items ≡ items.old.items }
    ensures len { vec_len items.new ≡ vec_len items.old }
    ensures capacity { vec_capacity items.old ≤ vec_capacity items.new }
    ensures ok { OnOk result (vec_len items.new + more ≤ vec_capacity items.new) }
    ensures full { OnErr result (vec_capacity items.new < vec_len items.new + more) }
{
    match items.reserve(more) {
        Ok(()) => Ok(()),
        Err(_) => Err(Refused { request: () }),
    }
}

/// Room for so many more values in a slab.
#[inline(always)]
pub(crate) fn reserve_places<T>(slab: &mut Slab<T>, more: usize) -> Result<(), Refused>
    ensures room { OnOk result (HasRoomFor slab.new more) }
    ensures rest_kept { slab.new ≡ record slab.old { capacity = slab.new.capacity } }
{
    match slab.reserve(more) {
        Ok(()) => Ok(()),
        Err(_) => Err(Refused { request: () }),
    }
}

/// A chunk for so many values, as `Chunk::take`.
pub(crate) fn take_chunk<T>(alloc: &Global, len: usize) -> Result<Chunk<T, Global>, Refused>
    ensures taken { IfOk result (λ c. (c.len ≡ len) × (c.alloc ≡ alloc.now)) }
    ensures fits { OnOk result (FitsInBlock T.row len) }
{
    if !may_hold::<T>(len) {
        // No address space has room for so many.
        return Err(Refused { request: () });
    }
    match Chunk::take(alloc, len) {
        Ok(chunk) => Ok(chunk),
        Err(_) => Err(Refused { request: () }),
    }
}

/// A new value in a slab, as `Slab::insert`.
#[inline(always)]
pub(crate) fn insert_in<T>(slab: &mut Slab<T>, value: T) -> Result<usize, (T, Refused)>
    ensures was_vacant { IfOk result (λ key. get slab.old key ≡ None) }
    ensures updates { IfOk result (λ key. Updates slab.old slab.new key (Some value)) }
    ensures err { OnErr result (slab.new.slots ≡ slab.old.slots) }
    ensures value_returned { IfErr result (λ failed. failed.0 ≡ value) }
{
    match slab.insert(value) {
        Ok(key) => Ok(key),
        Err(failed) => {
            let AllocFailed { value } = failed;
            Err((value, Refused { request: () }))
        }
    }
}

/// An empty `Vec` for so many items, as `Vec::with_capacity`.
pub fn items_for<T>(alloc: Global, count: usize) -> Result<Vec<T>, Refused>
    ensures items { IfOk result (λ v. v.items ≡ []) }
    ensures len { IfOk result (λ v. vec_len v ≡ 0) }
    ensures exact { IfOk result (λ v. vec_capacity v ≡ count) }
{
    match Vec::with_capacity(alloc, count) {
        Ok(items) => Ok(items),
        Err(_) => Err(Refused { request: () }),
    }
}

/// An empty ring for so many items.
pub(crate) fn ring_for<T>(alloc: Global, count: usize) -> Result<HeapCircularBuffer<T>, Refused>
    ensures { IfOk result (λ b. b ≡ buffer [] count) }
{
    match HeapCircularBuffer::with_capacity(alloc, count) {
        Ok(ring) => Ok(ring),
        Err(_) => Err(Refused { request: () }),
    }
}

/// Gives a ring room for so many items.
pub(crate) fn resize<T>(ring: &mut HeapCircularBuffer<T>, count: usize) -> Result<(), Refused>
    requires { length ring.old.items ≤ count }
    ensures ok { OnOk result (ring.new ≡ buffer ring.old.items count) }
    ensures err { OnErr result (ring.new ≡ ring.old) }
{
    match ring.resize(count) {
        Ok(()) => Ok(()),
        Err(_) => Err(Refused { request: () }),
    }
}

/// A clone of a value, as its `clone`.
pub fn clone_of<T: Clone>(value: &T) -> Result<T, Refused>
    ensures cloned { IfOk result (λ copy. T.is_clone value.now copy) }
    ensures may_fail { OnErr result (¬ (T.is_infallible value.now)) }
{
    match value.clone() {
        Ok(copy) => Ok(copy),
        Err(_) => Err(Refused { request: () }),
    }
}

/// Puts an item behind the others, as `Vec::push`. A refused one is dropped.
pub fn push<T: Drop>(items: &mut Vec<T>, item: T) -> Result<(), Refused>
    ensures ok { OnOk result (items.new.items ≡ items.old.items ++ item ∷ []) }
    ensures err { OnErr result (items.new.items ≡ items.old.items) }
{
    match items.push(item) {
        Ok(()) => Ok(()),
        Err(_) => Err(Refused { request: () }),
    }
}

/// Puts copies of these items behind the others, as `Vec::extend_from_slice`.
#[inline(always)]
pub fn extend<T: Copy>(items: &mut Vec<T>, more: &[T]) -> Result<(), Refused>
    ensures ok { OnOk result (items.new.items ≡ items.old.items ++ more.now) }
    ensures err { OnErr result (items.new.items ≡ items.old.items) }
{
    match items.extend_from_slice(more) {
        Ok(()) => Ok(()),
        Err(_) => Err(Refused { request: () }),
    }
}

/// Cuts the items to this number, or fills them up with this one, as `Vec::resize`.
pub fn fill_up<T: Copy>(items: &mut Vec<T>, count: usize, item: T) -> Result<(), Refused>
    ensures ok { OnOk result (items.new.items ≡ take count items.old.items ++ replicate (count - vec_len items.old) item) }
    ensures len { OnOk result (vec_len items.new ≡ count) }
    ensures err { OnErr result (items.new.items ≡ items.old.items) }
{
    match items.resize(count, item) {
        Ok(()) => Ok(()),
        Err(_) => Err(Refused { request: () }),
    }
}

/// Puts a value under a key, in the place of what stood there, as `BTreeMap::insert`. A refused one is dropped.
pub fn insert_under<K: Ord + Drop, V: Drop>(
    map: &mut BTreeMap<K, V>,
    key: K,
    value: V,
) -> Result<(), Refused>
    ensures updates { OnOk result (tree.Updates K.cmp map.old map.new key (Some value)) }
    ensures err { OnErr result (tree.IsUnchanged map.old map.new) }
{
    match map.insert(key, value) {
        Ok(_) => Ok(()),
        Err(_) => Err(Refused { request: () }),
    }
}

/// A value that several own, as `Arc::new`. A refused one is dropped.
pub fn shared<T: Drop>(alloc: Global, value: T) -> Result<Arc<T>, Refused>
    ensures { IfOk result (λ owner. arc_value owner ≡ value) }
{
    match Arc::new(alloc, value) {
        Ok(owner) => Ok(owner),
        Err(_) => Err(Refused { request: () }),
    }
}

/// One more owner, as `Arc::try_clone`. Refused only where 2^63 - 1 are counted.
pub fn share<T>(owner: &Arc<T>) -> Result<Arc<T>, Refused>
    ensures { IfOk result (λ other. arc_value other ≡ arc_value owner.now) }
{
    match Arc::try_clone(owner) {
        Ok(other) => Ok(other),
        Err(_) => Err(Refused { request: () }),
    }
}

/// A waker of the task that is polled, for a future that waits at this source. Where none can be made the task is polled again.
#[inline(always)]
pub fn waker_for(cx: &mut Context<'_>, source: &Source) -> Result<Waker, Refused>
    ensures lacks { OnErr result (cx.new.lacks_waker ≡ true) }
    ensures armed { IsArmed cx.new }
    ensures heard { Hears cx.new source.now.id }
    ensures kept { Keeps cx.old cx.new }
{
    let mut made = None;
    let _pending: Poll<()> = cx.register(source, &mut made);
    match made {
        Some(waker) => Ok(waker),
        None => Err(Refused { request: () }),
    }
}

/// Blocks this thread until the future is ready, as the kit's `block_on`. Refused where its executor can't be made; then the
/// future is dropped.
pub fn block_until<R, F>(rt: &R, future: F) -> Result<F::Output, Refused>
where
    R: Wait + RandomSource + AllocGlobal,
    F: Future,
    requires { F.can_poll future }
    ensures { IfOk result (F.gives future) }
{
    match block_on(rt, future) {
        Ok(output) => Ok(output),
        Err(_) => Err(Refused { request: () }),
    }
}

/// Starts a thread for this work, as `Scope::spawn`; the scope waits for it. Where none can be started the work is dropped.
pub fn start_thread<'s, E, F>(scope: &Scope<'s, E>, work: F) -> Result<(), Refused>
where
    F: FnOnce() + Send + Drop + 's,
    requires { F.pre work }
{
    match scope.spawn(work) {
        Ok(_thread) => Ok(()),
        Err(_) => Err(Refused { request: () }),
    }
}
