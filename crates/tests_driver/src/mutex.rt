//! The mutex, fair and unfair. An unlock is a write through the guard, and the guard's drop.
ghost use Rattle.std.specs.Prelude.{◌≡◌};

use crate::owned::Futures;
use crate::tasks::Tasks;
use crate::{Flavour, Opened, Play, Played, Seen};
use fi_parts::{Fault, Slot};
use fi_run::{Answer, MutexCall};
use fi_sync::{Mutex, MutexGuard, MutexLockFuture};
use futures::task::Poll;
use std::alloc::AllocGlobal;
use std::marker::Brand;
use std::sync::Wait;
use std::sync::ledger::{Blank, Ledger};

#[derive(Drop)]
pub struct OpenedMutex<'a, M, F: Drop, G> {
    mutex: &'a M,
    locks: Futures<F>,
    guard: Option<G>,
}

impl<'a, M, F: Drop, G> OpenedMutex<'a, M, F, G> {
    /// None if memory is missing.
    pub fn new<R: AllocGlobal>(rt: &R, mutex: &'a M) -> Option<Self> {
        Some(OpenedMutex {
            mutex,
            locks: Futures::new(rt)?,
            guard: None,
        })
    }
}

impl<'a, M, F: Drop, R: Wait, L: Ledger> OpenedMutex<'a, M, F, MutexGuard<'a, u64, R, L>> {
    // Keeps a guard that was granted.
    fn hold(&mut self, guard: MutexGuard<'a, u64, R, L>) -> Answer<u64, u64> {
        let value = *guard;
        self.guard = Some(guard);
        Answer::Item(value)
    }

    fn locked(
        &mut self,
        polled: Poll<Result<MutexGuard<'a, u64, R, L>, Fault>>,
    ) -> Answer<u64, u64> {
        match polled {
            Poll::Ready(Ok(guard)) => self.hold(guard),
            Poll::Ready(Err(fault)) => Answer::Refused(fault),
            Poll::Pending => Answer::Pending,
        }
    }

    // Leaves this value in the mutex.
    fn unlock(&mut self, value: u64) -> Answer<u64, u64> {
        let Some(mut guard) = self.guard.take() else {
            return Answer::Nothing;
        };
        *guard = value;
        drop(guard);
        Answer::Done
    }
}

impl<'a, R: Wait, L: Ledger> Opened<R, MutexCall<u64, u64>>
    for OpenedMutex<
        'a,
        Mutex<u64, R, L>,
        MutexLockFuture<'a, u64, R, L>,
        MutexGuard<'a, u64, R, L>,
    > {
    fn apply(&mut self, rt: &R, tasks: &mut Tasks, call: MutexCall<u64, u64>) -> Seen {
        match call {
            MutexCall::Lock => self.locks.keep(self.mutex.lock()),
            MutexCall::Poll(Slot(number), waker) => {
                let Some(polled) = self.locks.try_poll(rt, tasks, number, waker) else {
                    return Seen::Lost;
                };
                let answer = self.locked(polled);
                self.locks.seen(number, answer)
            }
            MutexCall::Cancel(Slot(number)) => self.locks.let_go(number),
            MutexCall::TryLock => match self.mutex.try_lock() {
                Some(guard) => Seen::answered(self.hold(guard)),
                None => Seen::answered(Answer::Nothing),
            },
            MutexCall::Unlock(value) => Seen::answered(self.unlock(value)),
            MutexCall::IsLocked => Seen::answered(Answer::Flag(self.mutex.is_locked())),
            MutexCall::NextWake => Seen::answered(Answer::Woken(None)),
        }
    }
}

fn play_locking<R, P, L>(
    rt: &R,
    tasks: &mut Tasks,
    list: &mut P,
    blank: Blank,
    opening: MutexOf,
) -> Played
where
    R: Wait + Copy + AllocGlobal,
    P: Play<R, MutexCall<u64, u64>>,
    L: Ledger,
    requires name { blank.name ≡ L.name }
    requires parts { blank.parts ≡ L.parts }
    requires one { blank.parts ≡ 1 }
{
    let mutex = &Mutex::<u64, R, L>::new(rt.alloc(), *rt, blank, opening.value, opening.is_fair);
    match OpenedMutex::new(rt, mutex) {
        Some(mut opened) => list.play(rt, tasks, &mut opened),
        None => Played::NoMemory,
    }
}

/// A mutex of this value.
#[derive(Clone, Copy, Drop)]
pub struct MutexOf {
    pub value: u64,
    pub is_fair: bool,
}

impl From<(u64, bool)> for MutexOf {
    fn from((value, is_fair): (u64, bool)) -> Self {
        MutexOf { value, is_fair }
    }
}

impl<R: Wait + Copy + AllocGlobal> Flavour<R> for MutexOf {
    type Call = MutexCall<u64, u64>;

    fn play<P: Play<R, MutexCall<u64, u64>>>(
        &self,
        rt: &R,
        tasks: &mut Tasks,
        list: &mut P,
    ) -> Played {
        play_locking::<R, P, Brand>(rt, tasks, list, Blank::new(1), *self)
    }
}
