//! A state with the history of its calls.
ghost use Rattle.std.specs.Prelude.{◌≡◌, ◌≢◌, [], true, false, IfOk, OnErr, IfErr};
ghost use Rattle.fi_desk.specs.Journal.{next_receipt, receipt_of, Records, Replays};

use fi_parts::Fault;
use fi_parts::memory::reserve;
use fi_run::{ExactEq, Primitive};
use std::alloc::Global;
use std::marker::Model;

/// A call that was made, the seat that made it, and its answer.
///
/// # Examples
///
/// ```
/// use futures_intrusive::run::{Answer, EventCall, Journal};
/// use futures_intrusive::sync::EventState;
///
/// let mut journal = Journal::<EventState<u64>>::new(rt.alloc(), false)?;
/// let receipt = journal.record(3, EventCall::Set)?; // by whoever has the seat 3
/// assert!(rt; receipt.number() == 0 && receipt.answer() == Answer::Done);
/// let settled = journal.settle();
/// let Some(entry) = settled.history.first() else {
///     return Err("no entry".into());
/// };
/// assert!(rt; entry.seat == 3 && entry.call == EventCall::Set && entry.answer == Answer::Done);
/// ```
#[derive(Clone, Copy, Debug, PartialEq, Eq, Drop)]
pub struct Entry<C, A> {
    pub seat: u64,
    pub call: C,
    pub answer: A,
}

/// What a caller is given of its call: the opening of the journal, how many entries were before, the call and its answer.
///
/// # Examples
///
/// ```
/// use futures_intrusive::run::{Answer, EventCall, Journal};
/// use futures_intrusive::sync::EventState;
///
/// let mut journal = Journal::<EventState<u64>>::new(rt.alloc(), false)?;
/// let receipt = journal.record(3, EventCall::Set)?; // by whoever has the seat 3
/// assert!(rt; receipt.number() == 0 && receipt.answer() == Answer::Done);
/// ```
#[derive(Drop)]
pub struct Receipt<P: Primitive> {
    opening: P::Opening,
    number: usize,
    call: P::Call,
    answer: P::Answer,
}

impl<P: Primitive> Model for Receipt<P> {
    ghost use Rattle.fi_desk.specs.Journal.{ReceiptModel, ReceiptReplays};

    ghost Value = { ReceiptModel P.Opening P.Call P.Answer };

    ghost view = { λ r. record { opening = r.opening; number = r.number; call = r.call; answer = r.answer } };

    // A run of that many entries and this one leads from the opening's state to some state.
    ghost invariant = { λ r. ∥ (ReceiptReplays P.opens P.step
        (record { opening = r.opening; number = r.number; call = r.call; answer = r.answer })) ∥₁ };
}

impl<P: Primitive> Receipt<P>
where
    P::Opening: Copy,
    P::Call: Copy,
    P::Answer: Copy,
{
    /// The opening of the journal.
    pub fn opening(&self) -> P::Opening
        ensures { result ≡ self.now.opening }
    {
        self.opening
    }

    /// How many entries were before this one.
    pub fn number(&self) -> usize
        ensures { result ≡ self.now.number }
    {
        self.number
    }

    /// The call.
    pub fn call(&self) -> P::Call
        ensures { result ≡ self.now.call }
    {
        self.call
    }

    /// Its answer.
    pub fn answer(&self) -> P::Answer
        ensures { result ≡ self.now.answer }
    {
        self.answer
    }

    /// Whether it is the receipt of this entry, of a journal with this opening.
    pub(crate) fn is_of(
        &self,
        opening: P::Opening,
        number: usize,
        entry: &Entry<P::Call, P::Answer>,
    ) -> bool
    where
        P::Opening: ExactEq,
        P::Call: ExactEq,
        P::Answer: ExactEq,
        ensures same { result ≡ true → self.now ≡ receipt_of opening number entry.now }
        ensures different { result ≡ false → self.now ≢ receipt_of opening number entry.now }
    {
        self.number == number
            && self.opening == opening
            && self.call == entry.call
            && self.answer == entry.answer
    }

    /// The same receipt once more.
    pub(crate) fn copied(&self) -> Receipt<P>
        ensures { result ≡ self.now }
    {
        Receipt {
            opening: self.opening,
            number: self.number,
            call: self.call,
            answer: self.answer,
        }
    }
}

/// A primitive with the history of its calls, which replays.
///
/// # Examples
///
/// ```
/// use futures_intrusive::run::{Answer, EventCall, Journal};
/// use futures_intrusive::sync::EventState;
///
/// let mut journal = Journal::<EventState<u64>>::new(rt.alloc(), false)?; // an event that is not set
/// let receipt = journal.record(0, EventCall::Set)?; // by whoever has the seat 0
/// assert!(rt; receipt.answer() == Answer::Done);
/// let settled = journal.settle();
/// assert!(rt; settled.history.len() == 1 && settled.state.is_set());
/// ```
#[derive(Drop)]
pub struct Journal<P: Primitive> {
    opening: P::Opening,
    state: P,
    history: Vec<Entry<P::Call, P::Answer>>,
}

impl<P: Primitive> Model for Journal<P> {
    ghost use Rattle.fi_desk.specs.Journal.{JournalModel, Replays};

    ghost Value = { JournalModel P.Opening P.Call P.Answer P };

    ghost view = { λ j. record { opening = j.opening; history = j.history.items; state = j.state } };

    // The history is a run from the opening's state to the state now.
    ghost invariant = { λ j. Replays P.opens P.step j.opening j.history.items j.state };
}

/// What a journal leaves: its opening, its history and the state.
///
/// # Examples
///
/// ```
/// use futures_intrusive::run::{Answer, EventCall, Journal};
/// use futures_intrusive::sync::EventState;
///
/// let mut journal = Journal::<EventState<u64>>::new(rt.alloc(), false)?; // an event that is not set
/// let receipt = journal.record(0, EventCall::Set)?; // by whoever has the seat 0
/// assert!(rt; receipt.answer() == Answer::Done);
/// let settled = journal.settle();
/// assert!(rt; settled.history.len() == 1 && settled.state.is_set());
/// ```
#[derive(Drop)]
pub struct Settled<P: Primitive> {
    pub opening: P::Opening,
    pub history: Vec<Entry<P::Call, P::Answer>>,
    pub state: P,
    /// The history is a run from the opening's state to the state.
    pub ghost replays: { ∥ (Replays P.opens P.step opening history.items state) ∥₁ },
}

impl<P: Primitive> Journal<P>
where
    P::Opening: Copy,
    P::Call: Copy,
    P::Answer: Copy,
{
    /// Makes the opening's state, with an empty history. Refused with `NoMemory` as `Primitive::open`.
    pub fn new(alloc: Global, opening: P::Opening) -> Result<Self, Fault>
        ensures opening { IfOk result (λ journal. journal.opening ≡ opening) }
        ensures empty { IfOk result (λ journal. journal.history ≡ []) }
        ensures fault { IfErr result (λ fault. fault ≡ Fault.NoMemory) }
    {
        let state = P::open(alloc, opening)?;
        Ok(Journal {
            opening,
            state,
            history: Vec::new(alloc),
        })
    }

    /// Makes a call for a seat, and keeps it with its answer as the next entry of the history.
    ///
    /// The entry's place comes first: refused with `NoMemory`, the call was not made and nothing has changed.
    pub fn record(&mut self, seat: u64, call: P::Call) -> Result<Receipt<P>, Fault>
        ensures recorded { IfOk result (λ receipt. Records P.step self.old seat call receipt.answer self.new) }
        ensures receipt { IfOk result (λ receipt. receipt ≡ next_receipt self.old call receipt.answer) }
        ensures unchanged { OnErr result (self.new ≡ self.old) }
        ensures fault { IfErr result (λ fault. fault ≡ Fault.NoMemory) }
    {
        reserve(&mut self.history, 1)?;
        let number = self.history.len();
        let answer = self.state.apply(call);
        let _ = self.history.push(Entry { seat, call, answer });
        Ok(Receipt {
            opening: self.opening,
            number,
            call,
            answer,
        })
    }

    /// Gives out the opening, the history and the state.
    pub fn settle(self) -> Settled<P>
        ensures opening { result.opening ≡ self.opening }
        ensures history { result.history.items ≡ self.history }
        ensures state { result.state ≡ self.state }
    {
        let Journal {
            opening,
            state,
            history,
        } = self;
        Settled {
            opening,
            history,
            state,
        }
    }
}
