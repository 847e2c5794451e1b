//! Primitives, and runs of them.
ghost use Rattle.std.specs.Prelude.{◌≡◌, ◌≤◌, List, [], ◌∷◌, Option, IfOk, IfErr, OnOk, OnErr, vec_len, vec_capacity};
ghost use Rattle.fi_run.specs.Outgoing.{Outgoing, TakesOldest};
ghost use Rattle.fi_run.specs.Run.{AfterEveryRun, Answers, AnswersFront};

use fi_parts::Fault;
use fi_parts::memory::reserve;
use std::alloc::Global;

/// A machine that answers calls, whatever they are.
///
/// Its ghost members say what it means: which answers a call may have and what it leaves (`step`), which states an opening
/// makes (`opens`), what holds of every state (`is_sound`, `owes_no_wake`), and what holds of a first state, the calls and
/// answers since, and the state now (`history_invariant`); which wakers a state has to hand out (`outgoing`), and which call takes
/// out the oldest (`take_waker`). Its laws: initial states satisfy the invariants, steps preserve them, and that call takes out the
/// oldest waker and changes nothing else.
///
/// # Examples
///
/// ```
/// use futures_intrusive::run::{Answer, Primitive, SemaphoreCall};
/// use futures_intrusive::sync::SemaphoreState;
///
/// let mut permits: SemaphoreState<u64> = SemaphoreState::open(rt.alloc(), (1, true))?; // one permit, fair
/// assert!(rt; permits.apply(SemaphoreCall::TryAcquire(1)) == Answer::Done);
/// assert!(rt; permits.apply(SemaphoreCall::TryAcquire(1)) == Answer::Nothing);
/// assert!(rt; permits.apply(SemaphoreCall::GiveBack(1)) == Answer::Done);
/// ```
pub trait Primitive {
    /// What a machine is opened with, such as an event's flag.
    type Opening: Drop;

    /// What is called.
    type Call: Drop;

    /// What a call is answered.
    type Answer: Drop;

    /// Who is to be woken.
    type Waker: Drop;

    /// The machine may give this answer to the call and go on from old to new.
    ghost step: { Self → Self.Call → Self.Answer → Self → Type 0 };

    /// The states that an opening may make.
    ghost opens: { Self.Opening → Self → Type 0 };

    /// The parts of the state fit together.
    ghost is_sound: { Self → Type 0 };

    /// No wake is owed.
    ghost owes_no_wake: { Self → Type 0 };

    /// What holds of a first state, the history since (its newest entry first), and the state now.
    ghost history_invariant: { Self → List (Self.Call × Self.Answer) → Self → Type 0 };

    /// The wakers that a state has to hand out.
    ghost outgoing: { Outgoing Self Self.Waker };

    /// The call that takes out the oldest waker.
    ghost take_waker: { Self.Call };

    /// The answer that hands out a waker, or says that there is none.
    ghost hands_out: { Option Self.Waker → Self.Answer };

    /// Makes the opening's state. Refused only with `NoMemory`.
    fn open(alloc: Global, opening: Self::Opening) -> Result<Self, Fault>
        ensures opened { IfOk result (λ state. opens opening state) }
        ensures fault { IfErr result (λ fault. fault ≡ Fault.NoMemory) };

    /// Makes one call. It is total: what may not be called is answered by a refusal that changes nothing.
    fn apply(&mut self, call: Self::Call) -> Self::Answer
        ensures { step self.old call result self.new };

    /// The call that takes out the oldest waker.
    fn next_wake_call() -> Self::Call
        ensures { result ≡ take_waker };

    /// For proofs: every value has these.
    fn show(&self)
        ensures sound { is_sound self.now }
        ensures no_wake { owes_no_wake self.now };

    /// Initial states satisfy the invariants.
    ghost starts: { (opening : Self.Opening) (state : Self) → opens opening state → is_sound state × owes_no_wake state };

    /// A history may begin at any state.
    ghost history_initial: { (state : Self) → history_invariant state [] state };

    /// Steps preserve the invariants.
    ghost keeps: { (old : Self) (call : Self.Call) (answer : Self.Answer) (new : Self) →
        is_sound old → owes_no_wake old → step old call answer new → is_sound new × owes_no_wake new };

    /// The call for the oldest waker hands it out, and changes nothing else.
    ghost takes_oldest: { (old : Self) (answer : Self.Answer) (new : Self) → step old take_waker answer new →
        TakesOldest outgoing hands_out old answer new };

    /// Steps preserve the history's invariant.
    ghost history_preserved: { (first : Self) (history : List (Self.Call × Self.Answer))
        (old : Self) (call : Self.Call) (answer : Self.Answer) (new : Self) →
        is_sound old → owes_no_wake old → history_invariant first history old → step old call answer new →
        history_invariant first ((call, answer) ∷ history) new };
}

/// Makes the calls in order, and appends each one's answer to `out`.
///
/// Refused with `NoMemory` where there was no room for the next answer: then `out` has the answers so far, that call was
/// not made, nor those after it, and they are dropped.
///
/// # Examples
///
/// ```
/// use futures_intrusive::run::{Answer, EventCall, Primitive, run};
/// use futures_intrusive::sync::EventState;
///
/// let mut event: EventState<u64> = EventState::open(rt.alloc(), false)?;
/// let calls = vec![in rt.alloc(); EventCall::Set, EventCall::IsSet]?;
/// let mut answers = Vec::new(rt.alloc());
/// run(&mut event, calls, &mut answers)?;
/// assert!(rt; answers.as_slice() == [Answer::Done, Answer::Flag(true)].as_slice());
/// ```
pub fn run<P: Primitive>(
    primitive: &mut P,
    calls: Vec<P::Call>,
    out: &mut Vec<P::Answer>,
) -> Result<(), Fault>
    // The answers are those of a run of the machine.
    ensures ok { OnOk result (Answers P.step P.history_invariant primitive.old calls.items out.old.items out.new.items primitive.new) }
    // The same of the calls that were made.
    ensures err { OnErr result
        (AnswersFront P.step P.history_invariant primitive.old calls.items out.old.items out.new.items primitive.new) }
    ensures fault { IfErr result (λ fault. fault ≡ Fault.NoMemory) }
    ensures full { OnErr result (vec_capacity out.new ≤ vec_len out.new) }
    ensures no_wake { P.owes_no_wake primitive.new }
{
    primitive.show();
    for call in calls {
        if let Err(refused) = reserve(out, 1) {
            return Err(Fault::from(refused));
        }
        let answer = primitive.apply(call);
        let _ = out.push(answer);
    }
    Ok(())
}

/// The theorem over all runs: an opening's state is sound and owes no wake; and after each run from any state that is sound and
/// owes none, the state is sound, no wake is owed, and the history's invariant holds. Each primitive says its own promises in
/// words of its own, as `every_run_of_an_event` does.
pub fn every_run<P: Primitive>()
    ensures opened { (opening : P.Opening) (first : P) → P.opens opening first → P.is_sound first × P.owes_no_wake first }
    ensures runs { AfterEveryRun P.is_sound P.owes_no_wake P.step
        (λ first history now. P.is_sound now × P.owes_no_wake now × P.history_invariant first history now) }
{}
