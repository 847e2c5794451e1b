//! The worker pool as a primitive.
ghost use Rattle.std.specs.Prelude.{ℕ};
ghost use Rattle.fi_desk.specs.Pool.{PoolMachine, IsSound, OwesNoWake, Opens, InEveryRun};
ghost use Rattle.fi_desk.specs.PoolHistory.{StartsInOrder, RunningAddsUp, WakersAreKept};

mod script;
pub mod state;

use crate::pool::state::PoolState;
use fi_parts::{Fault, Slot};
use fi_run::{Answer, ExactEq, Primitive, every_run};
use std::alloc::Global;

/// A call on a pool.
///
/// Making a wait may answer `Refused(NoMemory)`. A poll or a cancel where none lives, or a poll of one that has ended, answers
/// `Refused(NoSlot)`.
///
/// # Examples
///
/// ```
/// use futures_intrusive::Fault;
/// use futures_intrusive::run::{Answer, PoolCall, PoolState, Primitive};
///
/// let mut pool: PoolState<u64> = PoolState::open(rt.alloc(), (1, 1))?; // one job at a time, one in the queue
/// assert!(rt; pool.apply(PoolCall::Submit(5)) == Answer::Done);
/// assert!(rt; pool.apply(PoolCall::Submit(6)) == Answer::Back(6, Fault::Full));
/// assert!(rt; pool.apply(PoolCall::Start) == Answer::Item(5));
/// ```
#[derive(Clone, Copy, Debug, PartialEq, Eq, Drop)]
pub enum PoolCall<W> {
    /// Hands in a job. Answers `Done`; `Back` with the job and `Closed`, `Full` or `NoMemory` if it was not accepted.
    Submit(u64),
    /// Starts the job that has waited longest. Answers `Item`; `Nothing` if as many run as may; else `Refused(Empty)`, or
    /// `Refused(Closed)` once the pool is shut down, if none waits.
    Start,
    /// Says that a job has finished. Answers `Done`; `Refused(NotHeld)` if none runs.
    Finish,
    /// Takes no more jobs. Answers `Newly`, `Already`.
    Shutdown,
    /// Makes a wait until the pool is drained. Answers `Made`.
    Wait,
    /// Polls a wait. Answers `Pending`, `Ready`.
    Poll(Slot, W),
    /// Cancels a wait. Answers `Done`.
    Cancel(Slot),
    /// Takes out the oldest waker. Answers `Woken`.
    NextWake,
}

impl<W: ExactEq> ExactEq for PoolCall<W> {
    ghost use Rattle.std.specs.Prelude.{◌≡◌, true};
    ghost use Rattle.std.proofs.Common.{rules};

    ghost exact = { Prim.search rules };
}

impl<W: Drop> Primitive for PoolState<W> {
    ghost use Rattle.fi_desk.specs.Pool.{IsSound, OwesNoWake, Opens, Step, pool_outgoing};
    ghost use Rattle.fi_desk.specs.PoolHistory.{HistoryHolds};
    ghost use Rattle.fi_run.specs.declared.answer.Answer.TheVariants.{Woken};
    ghost use Rattle.fi_desk.specs.declared.pool.PoolCall.TheVariants.{NextWake};
    ghost use Rattle.fi_desk.specs.PoolLaws.{pool_starts, pool_keeps, pool_takes_oldest};
    ghost use Rattle.fi_desk.specs.PoolLaws.{pool_history_initial, pool_history_preserved};

    type Opening = (usize, usize);

    type Call = PoolCall<W>;

    type Answer = Answer<u64, W>;

    type Waker = W;

    ghost step = { Step };

    ghost opens = { Opens };

    ghost is_sound = { IsSound };

    ghost owes_no_wake = { OwesNoWake };

    ghost history_invariant = { HistoryHolds };

    ghost outgoing = { pool_outgoing };

    ghost take_waker = { NextWake };

    ghost hands_out = { λ waker. Woken waker };

    ghost starts = { pool_starts };

    ghost keeps = { pool_keeps };

    ghost history_initial = { pool_history_initial };

    ghost takes_oldest = { pool_takes_oldest };

    ghost history_preserved = { pool_history_preserved };

    fn open(alloc: Global, opening: (usize, usize)) -> Result<Self, Fault> {
        let (limit, capacity) = opening;
        PoolState::new(alloc, limit, capacity)
    }

    #[inline(always)]
    fn apply(&mut self, call: PoolCall<W>) -> Answer<u64, W> {
        match call {
            PoolCall::Submit(job) => self.submit(job),
            PoolCall::Start => self.start(),
            PoolCall::Finish => self.finish(),
            PoolCall::Shutdown => self.shutdown(),
            PoolCall::Wait => self.wait(),
            PoolCall::Poll(slot, waker) => self.poll(slot, waker),
            PoolCall::Cancel(slot) => self.cancel(slot),
            PoolCall::NextWake => self.next_wake(),
        }
    }

    fn next_wake_call() -> PoolCall<W> {
        PoolCall::NextWake
    }

    fn show(&self) {
        let _ = self.wake_count();
    }
}

/// Every pool follows its promises, in every run from a sound state that owes no wake, so from an opening: the jobs accepted, in their
/// order, are those started, in theirs, followed by those that wait; the jobs started and not finished are those that run, and no more
/// run than may; the event is set exactly if the pool is shut down and no job waits or runs; a pending wait's last waker is
/// registered, stands in the outbox, or was handed out since; and no wake is owed.
pub fn every_run_of_a_pool<W: Drop>()
    ensures opened { (limit capacity : ℕ) (first : PoolMachine W) → Opens (limit, capacity) first → IsSound first × OwesNoWake first }
    ensures order { InEveryRun {W = W} (λ first history now. StartsInOrder first history now) }
    ensures count { InEveryRun {W = W} (λ first history now. RunningAddsUp first history now) }
    ensures wakers { InEveryRun {W = W} (λ first history now. WakersAreKept first history now) }
    ensures no_wake { InEveryRun {W = W} (λ first history now. IsSound now × OwesNoWake now) }
{
    every_run::<PoolState<W>>();
}
