//! A book with what is pending for its seats.
ghost use Rattle.std.specs.Prelude.{◌<◌};

use crate::pending::Pending;
use lj_book::{Book, Event, Refusal, Reply};
use lj_clause::{Clause, Formula, NoMemory};
use lj_hint::{Propagator, Receipt};
use lj_text::{Addition, Numbers};
use std::alloc::Global;

/// A book, what is pending for each of its seats, and the room of its tests.
#[derive(Drop)]
pub struct Table {
    pub book: Book,
    pending: Vec<Pending>,
    propagator: Propagator,
}

impl Table {
    /// A new book on the formula.
    pub fn open(alloc: Global, formula: Formula, seats: u32, limit: u32) -> Result<Table, NoMemory>
        requires { 0 < seats }
    {
        let book = Book::open(alloc, formula, seats, limit)?;
        Table::new(alloc, book, seats)
    }

    /// A book for whose seats nothing is pending.
    pub fn new(alloc: Global, book: Book, seats: u32) -> Result<Table, NoMemory> {
        let mut pending = Vec::new(alloc);
        for _ in 0..seats {
            pending.push(Pending::Nothing)?;
        }
        Ok(Table {
            book,
            pending,
            propagator: Propagator::new(alloc),
        })
    }

    /// The book, by value.
    pub fn into_book(self) -> Book {
        self.book
    }

    /// The reply to an event, asked for once more where a growth was refused.
    pub fn reply(&mut self, event: &Event) -> Reply {
        match self.answer(event) {
            Reply::Refused(Refusal::NoMemory(_)) => self.answer(event),
            reply => reply,
        }
    }

    fn answer(&mut self, event: &Event) -> Reply {
        match event {
            Event::Take(seat, addition) => self.take(*seat, addition),
            Event::Test(seat) => self.test(*seat),
            Event::Commit(seat) => self.commit(*seat),
            Event::Inside(seat, addition) => self.inside(*seat, addition),
            Event::Drop(seat, numbers) => self.drop_numbers(*seat, numbers),
            Event::Adopt(seat, own, joint) => self.adopt(*seat, *own, *joint),
            Event::Import(seat, own, clause) => self.import(*seat, *own, clause),
            Event::Leave(seat) => self.leave(*seat),
        }
    }

    fn set_pending(&mut self, seat: u32, value: Pending) {
        if let Some(pending) = self.pending.get_mut(seat as usize) {
            *pending = value;
        }
    }

    fn take(&mut self, seat: u32, addition: &Addition) -> Reply {
        match self.book.take(seat, addition) {
            Ok(case) => {
                self.set_pending(seat, Pending::Case(case));
                Reply::Taken
            }
            Err(refusal) => {
                self.set_pending(seat, Pending::Nothing);
                Reply::Refused(refusal)
            }
        }
    }

    fn test(&mut self, seat: u32) -> Reply {
        match self.pending.get_mut(seat as usize) {
            Some(pending) => pending.test(&mut self.propagator),
            None => Reply::Nothing,
        }
    }

    fn commit(&mut self, seat: u32) -> Reply {
        let Some(pending) = self.pending.get_mut(seat as usize) else {
            return Reply::Nothing;
        };
        match pending.take_receipt() {
            Some(receipt) => self.commit_receipt(seat, receipt),
            None => Reply::Nothing,
        }
    }

    /// A receipt that isn't committed for want of memory stays pending.
    fn commit_receipt(&mut self, seat: u32, receipt: Receipt) -> Reply {
        match self.book.commit(receipt) {
            Ok(added) => Reply::Added(added),
            Err((Refusal::NoMemory(refused), receipt)) => {
                self.set_pending(seat, Pending::Receipt(receipt));
                Reply::Refused(Refusal::NoMemory(refused))
            }
            Err((refusal, _)) => Reply::Refused(refusal),
        }
    }

    fn inside(&mut self, seat: u32, addition: &Addition) -> Reply {
        match self.book.add_inside(seat, addition, &mut self.propagator) {
            Ok(added) => Reply::Added(added),
            Err(refusal) => Reply::Refused(refusal),
        }
    }

    fn drop_numbers(&mut self, seat: u32, numbers: &Numbers) -> Reply {
        match self.book.drop_numbers(seat, numbers) {
            Ok(dropped) => Reply::Dropped(dropped),
            Err(refusal) => Reply::Refused(refusal),
        }
    }

    fn adopt(&mut self, seat: u32, own: u64, joint: u64) -> Reply {
        match self.book.adopt(seat, own, joint) {
            Ok(place) => Reply::Adopted(place),
            Err(refusal) => Reply::Refused(refusal),
        }
    }

    fn import(&mut self, seat: u32, own: u64, clause: &Clause) -> Reply {
        match self.book.import(seat, own, clause) {
            Ok(imported) => Reply::Imported(imported),
            Err(refusal) => Reply::Refused(refusal),
        }
    }

    fn leave(&mut self, seat: u32) -> Reply {
        match self.book.leave(seat) {
            Ok(place) => Reply::Left(place),
            Err(refusal) => Reply::Refused(refusal),
        }
    }
}
