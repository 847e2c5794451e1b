//! The semaphore, by reference and shared by its owners, fair and unfair. A give-back is the drop of the oldest releaser.
ghost use Rattle.std.specs.Prelude.{◌≡◌};

use crate::owned::{Futures, ROOM};
use crate::pollable::Pollable;
use crate::tasks::Tasks;
use crate::{Flavour, Opened, Play, Played, Seen};
use fi_parts::{Fault, Slot};
use fi_run::{Answer, SemaphoreCall};
use fi_sync::{
    CountedSemaphore, HasMonitor, Semaphore, SemaphoreAcquireFuture, SemaphoreReleaser,
    SemaphoreReleaserOf, SharedSemaphore, SharedSemaphoreAcquireFuture, SharedSemaphoreReleaser,
};
use futures::Future;
use futures::task::Poll;
use std::alloc::AllocGlobal;
use std::marker::Brand;
use std::sync::Wait;
use std::sync::ledger::{Blank, Ledger};

/// A semaphore that threads share, and the calls of it that make what refers to it or owns a share.
pub trait Permits {
    type Runtime: Wait;

    type Ledger: Ledger;

    type Acquire;

    type Releaser: Disarm;

    fn acquire(&self, permits: usize) -> Result<Self::Acquire, Fault>;

    /// None where they can't be acquired at once.
    fn try_acquire(&self, permits: usize) -> Result<Option<Self::Releaser>, Fault>;

    /// The semaphore, for its other calls.
    fn as_semaphore(&self) -> &Semaphore<Self::Runtime, Self::Ledger>;
}

/// The call of a releaser.
pub trait Disarm {
    fn disarm(&mut self) -> usize;
}

impl<'a, R: Wait, L: Ledger> Permits for &'a Semaphore<R, L> {
    type Runtime = R;

    type Ledger = L;

    type Acquire = SemaphoreAcquireFuture<'a, R, L>;

    type Releaser = SemaphoreReleaser<'a, R, L>;

    fn acquire(&self, permits: usize) -> Result<SemaphoreAcquireFuture<'a, R, L>, Fault> {
        let semaphore = *self;
        semaphore.acquire(permits)
    }

    fn try_acquire(&self, permits: usize) -> Result<Option<SemaphoreReleaser<'a, R, L>>, Fault> {
        let semaphore = *self;
        Ok(semaphore.try_acquire(permits))
    }

    fn as_semaphore(&self) -> &Semaphore<R, L> {
        *self
    }
}

impl<M: HasMonitor<State = CountedSemaphore<L>>, L: Ledger> Disarm for SemaphoreReleaserOf<M, L> {
    fn disarm(&mut self) -> usize {
        SemaphoreReleaserOf::disarm(self)
    }
}

impl<R: Wait + Drop, L: Ledger> Permits for SharedSemaphore<R, L> {
    type Runtime = R;

    type Ledger = L;

    type Acquire = SharedSemaphoreAcquireFuture<R, L>;

    type Releaser = SharedSemaphoreReleaser<R, L>;

    fn acquire(&self, permits: usize) -> Result<SharedSemaphoreAcquireFuture<R, L>, Fault> {
        SharedSemaphore::acquire(self, permits)
    }

    fn try_acquire(&self, permits: usize) -> Result<Option<SharedSemaphoreReleaser<R, L>>, Fault> {
        SharedSemaphore::try_acquire(self, permits)
    }

    fn as_semaphore(&self) -> &Semaphore<R, L> {
        self
    }
}

/// Permits that are held.
#[derive(Drop)]
struct Held<H> {
    permits: usize,
    releaser: H,
}

#[derive(Drop)]
pub struct OpenedSemaphore<S, F: Drop, H: Drop> {
    semaphore: S,
    acquires: Futures<F>,
    // How many permits each future needs.
    needs: Vec<usize>,
    // Those that are held, the oldest first.
    held: Vec<Held<H>>,
}

impl<S: Drop, F: Drop, H: Drop> OpenedSemaphore<S, F, H> {
    /// None if memory is missing.
    pub fn new<R: AllocGlobal>(rt: &R, semaphore: S) -> Option<Self> {
        Some(OpenedSemaphore {
            semaphore,
            acquires: Futures::new(rt)?,
            needs: Vec::with_capacity(rt.alloc(), ROOM).ok()?,
            held: Vec::with_capacity(rt.alloc(), ROOM).ok()?,
        })
    }
}

impl<S, F: Drop, H: Drop> OpenedSemaphore<S, F, H> {
    // Keeps a future for so many permits, if it was made.
    fn keep(&mut self, made: Result<F, Fault>, permits: usize) -> Seen {
        if made.is_ok() && self.needs.push(permits).is_err() {
            return Seen::Lost;
        }
        self.acquires.keep(made)
    }

    // Keeps a releaser that was granted; then this is what is answered.
    fn hold(
        &mut self,
        releaser: H,
        permits: usize,
        answer: Answer<u64, u64>,
    ) -> Option<Answer<u64, u64>> {
        match self.held.push(Held { permits, releaser }) {
            Ok(()) => Some(answer),
            Err(_) => None,
        }
    }

    // Keeps what a poll of the future with this number was granted.
    fn granted(
        &mut self,
        number: usize,
        polled: Poll<Result<H, Fault>>,
    ) -> Option<Answer<u64, u64>> {
        let permits = self.needs.get(number).copied()?;
        match polled {
            Poll::Ready(Ok(releaser)) => self.hold(releaser, permits, Answer::Ready),
            Poll::Ready(Err(fault)) => Some(Answer::Refused(fault)),
            Poll::Pending => Some(Answer::Pending),
        }
    }

    // Keeps what was acquired at once.
    fn acquired(&mut self, permits: usize, made: Result<Option<H>, Fault>) -> Seen {
        let answer = match made {
            Ok(Some(releaser)) => self.hold(releaser, permits, Answer::Done),
            Ok(None) => Some(Answer::Nothing),
            Err(_) => None,
        };
        match answer {
            Some(answer) => Seen::answered(answer),
            None => Seen::Lost,
        }
    }

    // Takes what was granted first.
    fn take_oldest(&mut self) -> Option<H> {
        if self.held.is_empty() {
            return None;
        }
        let Held {
            permits: _,
            releaser,
        } = self.held.remove(0);
        Some(releaser)
    }

    // Gives back what was granted first.
    fn give_back(&mut self) -> Seen {
        drop(self.take_oldest());
        Seen::answered(Answer::Done)
    }

    // A give-back is of what was granted first, if anything is held.
    fn meant(&self, call: SemaphoreCall<u64>) -> SemaphoreCall<u64> {
        match (call, self.held.first()) {
            (SemaphoreCall::GiveBack(_), Some(held)) => SemaphoreCall::GiveBack(held.permits),
            (call, _) => call,
        }
    }
}

impl<S, F: Pollable + Future<Output = Result<H, Fault>>, H: Drop> OpenedSemaphore<S, F, H> {
    fn poll<R: Wait>(&mut self, rt: &R, tasks: &mut Tasks, number: usize, waker: u64) -> Seen {
        let Some(polled) = self.acquires.try_poll(rt, tasks, number, waker) else {
            return Seen::Lost;
        };
        match self.granted(number, polled) {
            Some(answer) => self.acquires.seen(number, answer),
            None => Seen::Lost,
        }
    }
}

impl<S, F: Drop, H: Disarm + Drop> OpenedSemaphore<S, F, H> {
    // Disarms what was granted first, which has so many permits.
    fn disarm(&mut self, permits: usize) -> Seen {
        match self.take_oldest() {
            Some(mut releaser) => Seen::answered(of_disarm(releaser.disarm(), permits)),
            None => Seen::Lost,
        }
    }
}

fn of_release(released: Result<(), Fault>) -> Answer<u64, u64> {
    match released {
        Ok(()) => Answer::Done,
        Err(fault) => Answer::Refused(fault),
    }
}

// Of a disarm that answered so many of these permits.
fn of_disarm(disarmed: usize, permits: usize) -> Answer<u64, u64> {
    if disarmed == permits {
        Answer::Done
    } else {
        Answer::Refused(Fault::NotHeld)
    }
}

impl<R, S, F, H> Opened<R, SemaphoreCall<u64>> for OpenedSemaphore<S, F, H>
where
    R: Wait,
    S: Permits<Acquire = F, Releaser = H>,
    F: Pollable + Future<Output = Result<H, Fault>>,
    H: Disarm + Drop,
{
    fn meant(&self, call: SemaphoreCall<u64>) -> SemaphoreCall<u64> {
        OpenedSemaphore::meant(self, call)
    }

    fn apply(&mut self, rt: &R, tasks: &mut Tasks, call: SemaphoreCall<u64>) -> Seen {
        match call {
            SemaphoreCall::Acquire(permits) => {
                let made = self.semaphore.acquire(permits);
                self.keep(made, permits)
            }
            SemaphoreCall::Poll(Slot(number), waker) => self.poll(rt, tasks, number, waker),
            SemaphoreCall::Cancel(Slot(number)) => self.acquires.let_go(number),
            SemaphoreCall::TryAcquire(permits) => {
                let made = self.semaphore.try_acquire(permits);
                self.acquired(permits, made)
            }
            SemaphoreCall::Release(permits) => {
                Seen::answered(of_release(self.semaphore.as_semaphore().release(permits)))
            }
            SemaphoreCall::GiveBack(_) => self.give_back(),
            SemaphoreCall::Disarm(permits) => self.disarm(permits),
            SemaphoreCall::Permits => Seen::answered(Answer::Number(
                self.semaphore.as_semaphore().permits(),
            )),
            SemaphoreCall::Held => Seen::answered(Answer::Number(
                self.semaphore.as_semaphore().held(),
            )),
            SemaphoreCall::NextWake => Seen::answered(Answer::Woken(None)),
        }
    }
}

// Plays a list on a semaphore that was made.
fn play_on<R, S, F, H, P>(rt: &R, tasks: &mut Tasks, list: &mut P, semaphore: S) -> Played
where
    R: Wait + AllocGlobal,
    S: Permits<Acquire = F, Releaser = H> + Drop,
    F: Pollable + Future<Output = Result<H, Fault>>,
    H: Disarm + Drop,
    P: Play<R, SemaphoreCall<u64>>,
{
    match OpenedSemaphore::new(rt, semaphore) {
        Some(mut opened) => list.play(rt, tasks, &mut opened),
        None => Played::NoMemory,
    }
}

fn play_borrowed<R, P, L>(
    rt: &R,
    tasks: &mut Tasks,
    list: &mut P,
    blank: Blank,
    opening: Opening,
) -> Played
where
    R: Wait + Copy + AllocGlobal,
    P: Play<R, SemaphoreCall<u64>>,
    L: Ledger,
    requires name { blank.name ≡ L.name }
    requires parts { blank.parts ≡ L.parts }
    requires all { blank.parts ≡ 18446744073709551615 }
{
    let Opening { is_fair, permits } = opening;
    let semaphore = &Semaphore::<R, L>::new(rt.alloc(), *rt, blank, is_fair, permits);
    play_on(rt, tasks, list, semaphore)
}

fn play_shared<R, P, L>(
    rt: &R,
    tasks: &mut Tasks,
    list: &mut P,
    blank: Blank,
    opening: Opening,
) -> Played
where
    R: Wait + Copy + Drop + AllocGlobal,
    P: Play<R, SemaphoreCall<u64>>,
    L: Ledger,
    requires name { blank.name ≡ L.name }
    requires parts { blank.parts ≡ L.parts }
    requires all { blank.parts ≡ 18446744073709551615 }
{
    let Opening { is_fair, permits } = opening;
    match SharedSemaphore::<R, L>::new(rt.alloc(), *rt, blank, is_fair, permits) {
        Ok(semaphore) => play_on(rt, tasks, list, semaphore),
        Err(_) => Played::NoMemory,
    }
}

/// What a semaphore is opened with.
#[derive(Clone, Copy)]
pub struct Opening {
    pub is_fair: bool,
    pub permits: usize,
}

/// A semaphore that is shared by reference.
#[derive(Drop)]
pub struct ByReference(pub Opening);

impl From<(usize, bool)> for ByReference {
    fn from((permits, is_fair): (usize, bool)) -> Self {
        ByReference(Opening { is_fair, permits })
    }
}

impl<R: Wait + Copy + AllocGlobal> Flavour<R> for ByReference {
    type Call = SemaphoreCall<u64>;

    fn play<P: Play<R, SemaphoreCall<u64>>>(
        &self,
        rt: &R,
        tasks: &mut Tasks,
        list: &mut P,
    ) -> Played {
        play_borrowed::<R, P, Brand>(rt, tasks, list, Blank::new(u64::MAX), self.0)
    }
}

/// A semaphore that its owners share.
#[derive(Drop)]
pub struct ByOwners(pub Opening);

impl From<(usize, bool)> for ByOwners {
    fn from((permits, is_fair): (usize, bool)) -> Self {
        ByOwners(Opening { is_fair, permits })
    }
}

impl<R: Wait + Copy + Drop + AllocGlobal> Flavour<R> for ByOwners {
    type Call = SemaphoreCall<u64>;

    fn play<P: Play<R, SemaphoreCall<u64>>>(
        &self,
        rt: &R,
        tasks: &mut Tasks,
        list: &mut P,
    ) -> Played {
        play_shared::<R, P, Brand>(rt, tasks, list, Blank::new(u64::MAX), self.0)
    }
}
