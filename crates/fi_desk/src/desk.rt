//! A journal that threads share, and the settling of its history with their receipts.
ghost use Rattle.std.specs.Prelude.{◌≡◌, ◌≤◌, ◌+◌, [], true, false, All, IsPermutation};
ghost use Rattle.std.specs.Prelude.{length, vec_len, IfOk, IfErr, IfSome, IfNone, OnErr};
ghost use Rattle.std.specs.List.Sorted.{IsNonDecreasingBy};
ghost use Rattle.fi_desk.specs.Journal.{next_receipt, receipt_of, Records, Replays};
ghost use Rattle.fi_desk.specs.Desk.{AreNumbered, AreOf, IsDue, IsMissing, LacksLast, Matches, Settles, Unsettled};
ghost use Rattle.fi_desk.specs.Desk.{receipt_count, with_receipt};

use crate::journal::{Entry, Journal, Receipt, Settled};
use fi_parts::Fault;
use fi_parts::memory::reserve;
use fi_run::{ExactEq, Primitive};
use std::alloc::Global;
use std::error::Error;
use std::fmt;
use std::io::{self, ErrorKind};
use std::marker::Model;
use std::sync::ledger::{Blank, Book, Ledger, Share};
use std::sync::{Mutex, Wait};

/// Why a desk could not be settled.
///
/// # Examples
///
/// ```
/// ghost use Rattle.std.specs.Prelude.{◌≡◌};
///
/// use futures_intrusive::run::{Desk, EventCall, Mismatch};
/// use futures_intrusive::sync::EventState;
/// use std::alloc::AllocGlobal;
/// use std::marker::Brand;
/// use std::sync::Wait;
/// use std::sync::ledger::{Blank, Ledger};
/// use std::test::Fail;
///
/// // Settles a desk of one seat without it. `blank` begins the ledger `L`, which counts the seats.
/// fn loses<R: Wait + Copy + AllocGlobal, L: Ledger>(
///     rt: R,
///     blank: Blank,
/// ) -> Result<Option<Mismatch>, Fail>
///     requires name { blank.name ≡ L.name }
///     requires parts { blank.parts ≡ L.parts }
///     requires count { blank.parts ≡ 1 }
/// {
///     let desk: Desk<EventState<u64>, R, L> = Desk::new(rt.alloc(), rt, blank, false, 1)?;
///     let mut seat = desk.seat()?;
///     desk.call(&mut seat, EventCall::Set)?;
///     drop(seat);
///     Ok(desk.settle(Vec::new(rt.alloc())).err()) // Some(Mismatch::Seats)
/// }
/// // ..
/// assert!(rt; loses::<HostRuntime, Brand>(rt, Blank::new(1))? == Some(Mismatch::Seats));
/// ```
#[derive(Clone, Copy, Debug, PartialEq, Eq, Drop)]
pub enum Mismatch {
    /// Fewer seats were given than were made, or their numbers are not those from 0 on.
    Seats,
    /// The receipts of all later entries were found; that of the entry with this number is not the next one at its seat.
    Entry(usize),
}

impl fmt::Display for Mismatch {
    fn fmt<W: fmt::Write>(&self, f: &mut fmt::Formatter<W>) -> fmt::Result {
        match self {
            Mismatch::Seats => f.pad("seats of the desk are missing"),
            Mismatch::Entry(number) => write!(f, "entry {number} has no receipt at its seat"),
        }
    }
}

impl Error for Mismatch {}

/// So that `?` serves where an `io::Error` is answered: `InvalidData`.
impl From<Mismatch> for io::Error {
    fn from(_mismatch: Mismatch) -> io::Error {
        io::Error::from(ErrorKind::InvalidData)
    }
}

/// A seat at a desk: its number, and the receipts of its calls in the order of the calls.
///
/// # Examples
///
/// ```
/// ghost use Rattle.std.specs.Prelude.{◌≡◌};
///
/// use futures_intrusive::run::{Desk, EventCall};
/// use futures_intrusive::sync::EventState;
/// use std::alloc::AllocGlobal;
/// use std::marker::Brand;
/// use std::sync::Wait;
/// use std::sync::ledger::{Blank, Ledger};
/// use std::test::Fail;
///
/// // Two seats share an event. Answers how many calls they made. `R` is the runtime, which waits for the lock; `L` is the ledger that
/// // counts the seats, and `blank` begins it.
/// fn share<R: Wait + Copy + AllocGlobal, L: Ledger>(rt: R, blank: Blank) -> Result<usize, Fail>
///     requires name { blank.name ≡ L.name }
///     requires parts { blank.parts ≡ L.parts }
///     requires count { blank.parts ≡ 2 }
/// {
///     let desk: Desk<EventState<u64>, R, L> = Desk::new(rt.alloc(), rt, blank, false, 2)?;
///     let (mut first, mut second) = (desk.seat()?, desk.seat()?);
///     desk.call(&mut first, EventCall::Set)?;
///     desk.call(&mut second, EventCall::IsSet)?;
///     let settled = desk.settle(vec![in rt.alloc(); first, second]?)?;
///     Ok(settled.history.len())
/// }
/// // ..
/// assert!(rt; share::<HostRuntime, Brand>(rt, Blank::new(2))? == 2);
/// ```
#[derive(Drop)]
pub struct Seat<P: Primitive, L: Ledger> {
    number: u64,
    receipts: Vec<Receipt<P>>,
    share: Share<L>,
}

impl<P: Primitive, L: Ledger> Model for Seat<P, L> {
    ghost use Rattle.std.specs.Prelude.{◌≡◌, vec_len};
    ghost use Rattle.fi_desk.specs.Desk.{SeatModel};

    ghost Value = { SeatModel P.Opening P.Call P.Answer };

    ghost view = { λ seat. record { number = seat.number; receipts = seat.receipts.items } };

    // The ledger counts the receipts.
    ghost invariant = { λ seat. (seat.share.parts ≡ 1) × (seat.share.amount ≡ vec_len seat.receipts) };
}

impl<P: Primitive, L: Ledger> Seat<P, L>
where
    P::Opening: ExactEq,
    P::Call: ExactEq,
    P::Answer: ExactEq,
{
    /// Returns the seat's number: the `seat` of the entries of its calls.
    pub fn number(&self) -> u64
        ensures { result ≡ self.now.number }
    {
        self.number
    }

    /// Takes out the seat's last receipt, if it is that of this entry.
    fn take_last(
        &mut self,
        book: &mut Book<L>,
        opening: P::Opening,
        number: usize,
        entry: &Entry<P::Call, P::Answer>,
    ) -> bool
        ensures taken { result ≡ true → self.old ≡ with_receipt self.new (receipt_of opening number entry.now) }
        ensures counted { result ≡ true → book.old.total ≡ book.new.total + 1 }
        ensures missing { result ≡ false → LacksLast self.old (receipt_of opening number entry.now) }
    {
        let Some(receipt) = self.receipts.last() else {
            return false;
        };
        if !receipt.is_of(opening, number, entry) {
            return false;
        }
        let _ = self.receipts.pop();
        book.sub(&mut self.share, 1);
        true
    }

    /// For proofs: where the book has counted no receipts, the seat has none.
    fn show_empty(&mut self, book: &mut Book<L>)
        requires { book.old.total ≡ 0 }
        ensures empty { self.old.receipts ≡ [] }
        ensures same { self.new ≡ self.old }
        ensures total { book.new.total ≡ 0 }
    {
        book.audit(&mut self.share);
    }
}

/// Takes out the receipt of each entry, from the last entry on, at its seat. The seats stand in the order of their numbers.
fn take_receipts<P: Primitive, L: Ledger>(
    book: &mut Book<L>,
    opening: P::Opening,
    history: &[Entry<P::Call, P::Answer>],
    seats: &mut [Seat<P, L>],
) -> Result<(), Mismatch>
where
    P::Opening: ExactEq,
    P::Call: ExactEq,
    P::Answer: ExactEq,
    requires { book.old.total ≡ length history.now }
    ensures matched { IfOk result (λ _. Matches opening 0 history.now 0 seats.old seats.new × AreOf (length seats.old) history.now) }
    ensures counted { IfOk result (λ _. book.new.total ≡ 0) }
    ensures taken { IfOk result (λ _. receipt_count seats.old ≡ receipt_count seats.new + length history.now) }
    ensures missing { IfErr result (λ mismatch. IsMissing opening history.now seats.old mismatch) }
{
    let mut left = history.len();
    while left > 0 {
        let number = left - 1;
        let entry = &history[number];
        if entry.seat >= seats.len() as u64 {
            return Err(Mismatch::Entry(number));
        }
        if !seats[entry.seat as usize].take_last(book, opening, number, entry) {
            return Err(Mismatch::Entry(number));
        }
        left = number;
    }
    Ok(())
}

/// Whether the seats are numbered from 0 in their order.
fn are_numbered<P: Primitive, L: Ledger>(seats: &[Seat<P, L>]) -> bool
where
    P::Opening: ExactEq,
    P::Call: ExactEq,
    P::Answer: ExactEq,
    ensures numbered { result ≡ true → AreNumbered seats.now }
    ensures others { result ≡ false → AreNumbered seats.now → ⊥ }
{
    for place in 0..seats.len() {
        if seats[place].number() != place as u64 {
            return false;
        }
    }
    true
}

/// Puts the seats into the order of their numbers, and answers whether they are numbered from 0.
fn put_in_order<P: Primitive, L: Ledger>(seats: &mut Vec<Seat<P, L>>) -> bool
where
    P::Opening: ExactEq,
    P::Call: ExactEq,
    P::Answer: ExactEq,
    ensures same { IsPermutation seats.old.items seats.new.items }
    ensures len { vec_len seats.new ≡ vec_len seats.old }
    ensures ordered { IsNonDecreasingBy (λ seat. seat.number) seats.new.items }
    ensures numbered { result ≡ true → AreNumbered seats.new.items }
    ensures others { result ≡ false → AreNumbered seats.new.items → ⊥ }
{
    seats.sort_unstable_by_key(
        |seat: &Seat<P, L>| -> u64
            ensures { result ≡ seat.now.number }
        { seat.number() },
    );
    are_numbered(seats.as_slice())
}

/// For proofs: where the book has counted no receipts, no seat has any.
fn show_all_empty<P: Primitive, L: Ledger>(book: &mut Book<L>, seats: &mut [Seat<P, L>])
where
    P::Opening: ExactEq,
    P::Call: ExactEq,
    P::Answer: ExactEq,
    requires { book.old.total ≡ 0 }
    ensures empty { All (λ seat. seat.receipts ≡ []) seats.old }
{
    for place in 0..seats.len() {
        seats[place].show_empty(book);
    }
}

/// How many seats were made, and the ledger's parts for the others.
#[derive(Drop)]
struct Places<L: Ledger> {
    made: u64,
    rest: Share<L>,
    seats: u64,
}

impl<L: Ledger> Model for Places<L> {
    ghost use Rattle.std.specs.Prelude.{◌≡◌, ◌+◌, ℕ};

    ghost Value = { ℕ };

    ghost view = { λ places. places.made };

    ghost invariant = { λ places. (places.rest.parts + places.made ≡ places.seats) × (places.seats ≡ L.parts) × (places.rest.amount ≡ 0) };
}

impl<L: Ledger> Places<L> {
    /// No seat was made yet, and there is a part for each.
    fn new(rest: Share<L>, seats: u64) -> Self
        requires parts { rest.parts ≡ seats }
        requires all { seats ≡ L.parts }
        requires amount { rest.amount ≡ 0 }
        ensures { result ≡ 0 }
    {
        Places {
            made: 0,
            rest,
            seats,
        }
    }

    /// How many seats were made: at most as many as the ledger has parts.
    fn made(&self) -> u64
        ensures made { result ≡ self.now }
        ensures bounded { result ≤ L.parts }
    {
        self.made
    }

    /// The number and the part of one more seat, which has counted no receipts; None if there is no part left.
    fn take(&mut self) -> Option<(u64, Share<L>)>
        ensures number { IfSome result (λ taken. taken.0 ≡ self.old) }
        ensures part { IfSome result (λ taken. taken.1.parts ≡ 1) }
        ensures amount { IfSome result (λ taken. taken.1.amount ≡ 0) }
        ensures taken { IfSome result (λ _. self.new ≡ self.old + 1) }
        ensures none { IfNone result ((self.old ≡ L.parts) × (self.new ≡ self.old)) }
    {
        if self.made == self.seats {
            return None;
        }
        let number = self.made;
        let share = self.rest.split_off(1, 0);
        self.made += 1;
        Some((number, share))
    }
}

/// What stands behind a desk's lock: the journal, and the book of the receipts that were given out.
#[derive(Drop)]
struct Ruled<P: Primitive, L: Ledger> {
    journal: Journal<P>,
    book: Book<L>,
    places: Places<L>,
    ghost counted: { length journal.history ≡ book.total },
}

impl<P: Primitive, L: Ledger> Ruled<P, L>
where
    P::Opening: ExactEq,
    P::Call: ExactEq,
    P::Answer: ExactEq,
{
    fn seat(&mut self, alloc: Global) -> Result<Seat<P, L>, Fault>
        ensures empty { IfOk result (λ seat. seat.receipts ≡ []) }
        ensures number { IfOk result (λ seat. seat.number ≡ self.old.places) }
        ensures made { IfOk result (λ _. self.new.places ≡ self.old.places + 1) }
        ensures refused { OnErr result ((self.old.places ≡ L.parts) × (self.new.places ≡ self.old.places)) }
        ensures journal { self.new.journal ≡ self.old.journal }
        ensures fault { IfErr result (λ fault. fault ≡ Fault.TooManyEnds) }
    {
        match self.places.take() {
            Some((number, share)) => Ok(Seat {
                number,
                receipts: Vec::new(alloc),
                share,
            }),
            None => Err(Fault::TooManyEnds),
        }
    }

    /// Makes a call for a seat, and counts it in the seat's share.
    fn call(
        &mut self,
        number: u64,
        share: &mut Share<L>,
        call: P::Call,
    ) -> Result<Receipt<P>, Fault>
        requires { share.old.parts ≡ 1 }
        ensures recorded { IfOk result (λ receipt. Records P.step self.old.journal number call receipt.answer self.new.journal) }
        ensures receipt { IfOk result (λ receipt. receipt ≡ next_receipt self.old.journal call receipt.answer) }
        ensures counted { IfOk result (λ receipt. share.new.amount ≡ share.old.amount + 1) }
        ensures unchanged { OnErr result (self.new.journal ≡ self.old.journal) }
        ensures uncounted { OnErr result (share.new.amount ≡ share.old.amount) }
        ensures parts { share.new.parts ≡ share.old.parts }
        ensures fault { IfErr result (λ fault. fault ≡ Fault.NoMemory) }
    {
        let Ruled { journal, book, .. } = self;
        let receipt = journal.record(number, call)?;
        book.add(share, 1);
        Ok(receipt)
    }

    /// Compares the history with the receipts of all seats.
    fn settle(self, seats: Vec<Seat<P, L>>) -> Result<Settled<P>, Mismatch>
    where
        P: Drop,
        ensures replays { ∥ (Replays P.opens P.step self.journal.opening self.journal.history self.journal.state) ∥₁ }
        ensures opening { IfOk result (λ settled. settled.opening ≡ self.journal.opening) }
        ensures history { IfOk result (λ settled. settled.history.items ≡ self.journal.history) }
        ensures state { IfOk result (λ settled. settled.state ≡ self.journal.state) }
        ensures bounded { self.places ≤ L.parts }
        ensures all { IfOk result (λ settled. self.places ≤ length seats.items) }
        ensures settled { IfOk result (λ settled. Settles self.journal.opening self.journal.history seats.items) }
        ensures counted { IfOk result (λ settled. receipt_count seats.items ≡ length self.journal.history) }
        ensures mismatch { IfErr result (λ mismatch. IsDue self.places self.journal.opening self.journal.history seats.items mismatch) }
    {
        let Ruled {
            journal,
            mut book,
            places,
        } = self;
        let made = places.made();
        let settled = journal.settle();
        let mut seats = seats;
        if (seats.len() as u64) < made {
            return Err(Mismatch::Seats);
        }
        if !put_in_order(&mut seats) {
            return Err(Mismatch::Seats);
        }
        take_receipts(
            &mut book,
            settled.opening,
            settled.history.as_slice(),
            seats.as_mut_slice(),
        )?;
        show_all_empty(&mut book, seats.as_mut_slice());
        Ok(settled)
    }
}

/// A journal among threads: each has a seat, makes its calls with it, and is given receipts. Each call is one entry of the journal,
/// made in one hold of the lock.
///
/// # Examples
///
/// ```
/// ghost use Rattle.std.specs.Prelude.{◌≡◌};
///
/// use futures_intrusive::run::{Desk, EventCall};
/// use futures_intrusive::sync::EventState;
/// use std::alloc::AllocGlobal;
/// use std::marker::Brand;
/// use std::sync::Wait;
/// use std::sync::ledger::{Blank, Ledger};
/// use std::test::Fail;
///
/// // Two seats share an event. Answers how many calls they made. `R` is the runtime, which waits for the lock; `L` is the ledger that
/// // counts the seats, and `blank` begins it.
/// fn share<R: Wait + Copy + AllocGlobal, L: Ledger>(rt: R, blank: Blank) -> Result<usize, Fail>
///     requires name { blank.name ≡ L.name }
///     requires parts { blank.parts ≡ L.parts }
///     requires count { blank.parts ≡ 2 }
/// {
///     let desk: Desk<EventState<u64>, R, L> = Desk::new(rt.alloc(), rt, blank, false, 2)?;
///     let (mut first, mut second) = (desk.seat()?, desk.seat()?);
///     desk.call(&mut first, EventCall::Set)?;
///     desk.call(&mut second, EventCall::IsSet)?;
///     let settled = desk.settle(vec![in rt.alloc(); first, second]?)?;
///     Ok(settled.history.len())
/// }
/// // ..
/// assert!(rt; share::<HostRuntime, Brand>(rt, Blank::new(2))? == 2);
/// ```
#[derive(Drop)]
pub struct Desk<P: Primitive, R, L: Ledger> {
    rt: R,
    alloc: Global,
    ruled: Mutex<Ruled<P, L>>,
}

impl<P: Primitive, R: Drop, L: Ledger> Desk<P, R, L>
where
    P::Opening: ExactEq,
    P::Call: ExactEq,
    P::Answer: ExactEq,
{
    /// Makes the opening's state, for at most this many seats. Refused with `NoMemory` as `Journal::new`.
    ///
    /// The runtime `rt` waits for the lock. The blank is of the desk's own ledger `L`, and has one part for each seat.
    pub fn new(
        alloc: Global,
        rt: R,
        blank: Blank,
        opening: P::Opening,
        seats: u64,
    ) -> Result<Self, Fault>
        requires name { blank.name ≡ L.name }
        requires parts { blank.parts ≡ L.parts }
        requires a_part_each { blank.parts ≡ seats }
        ensures fault { IfErr result (λ fault. fault ≡ Fault.NoMemory) }
    {
        let journal = Journal::new(alloc, opening)?;
        let (book, rest) = blank.open::<L>();
        let places = Places::new(rest, seats);
        let ruled = Ruled {
            journal,
            book,
            places,
        };
        Ok(Desk {
            rt,
            alloc,
            ruled: Mutex::new(ruled),
        })
    }

    /// Compares the history with the receipts of all seats that were made, and gives out the opening, the history and the state.
    ///
    /// Refused with `Seats` where fewer seats were given than were made or their numbers are not those from 0 on, and with
    /// `Entry` where an entry and the receipts of its seat do not fit. It takes time linear in the history and, but for sorting
    /// them, in the seats, and no memory.
    pub fn settle(self, seats: Vec<Seat<P, L>>) -> Result<Settled<P>, Mismatch>
    where
        P: Drop,
        ensures settled { IfOk result (λ settled. Settles settled.opening settled.history.items seats.items) }
        // There are as many receipts as entries.
        ensures counted { IfOk result (λ settled. receipt_count seats.items ≡ vec_len settled.history) }
        // With all seats that the desk could make, in order, it is never `Seats`.
        ensures mismatch { IfErr result (λ mismatch. Unsettled P.opens P.step L.parts seats.items mismatch) }
    {
        let Desk { ruled, .. } = self;
        ruled.into_inner().settle(seats)
    }
}

impl<P: Primitive, R: Wait, L: Ledger> Desk<P, R, L>
where
    P::Opening: ExactEq,
    P::Call: ExactEq,
    P::Answer: ExactEq,
{
    /// Makes a seat. Refused with `TooManyEnds` past the number that the desk was made for.
    pub fn seat(&self) -> Result<Seat<P, L>, Fault>
        ensures empty { IfOk result (λ seat. seat.receipts ≡ []) }
        ensures fault { IfErr result (λ fault. fault ≡ Fault.TooManyEnds) }
    {
        self.ruled.lock(&self.rt).seat(self.alloc)
    }

    /// Makes a call for one of this desk's seats, which keeps the receipt. Refused with `NoMemory` where there is no room for the
    /// receipt or for the entry: then the call was not made, and the seat is as it was.
    pub fn call(&self, seat: &mut Seat<P, L>, call: P::Call) -> Result<Receipt<P>, Fault>
        ensures kept { IfOk result (λ receipt. seat.new ≡ with_receipt seat.old receipt) }
        ensures call { IfOk result (λ receipt. receipt.call ≡ call) }
        ensures unchanged { OnErr result (seat.new ≡ seat.old) }
        ensures fault { IfErr result (λ fault. fault ≡ Fault.NoMemory) }
    {
        reserve(&mut seat.receipts, 1)?;
        let receipt = self
            .ruled
            .lock(&self.rt)
            .call(seat.number, &mut seat.share, call)?;
        let _ = seat.receipts.push(receipt.copied());
        Ok(receipt)
    }
}
