//! Two copies of what a seat is, which clauses read alone: they agree, and change together.
ghost use Rattle.std.specs.Prelude.{◌≡◌, ℕ};
ghost use Rattle.lj_share.specs.Seats.{SeatValue, seat_of_book};
ghost use Rattle.lj_share.specs.inner.Codes.{seat_code};
ghost use Rattle.lj_share.specs.inner.Copies.{book_copy_owns, seat_copy_owns};

use lj_book::Book;
use std::marker::Model;

/// The copy that lies under the lock. It takes no memory.
#[derive(Debug, Drop)]
pub(crate) struct BookCopy {
    pub ghost name: { ℕ },
    pub ghost seat: { SeatValue } by { seat_code },
}

impl Model for BookCopy {
    ghost also_owns = { λ c. book_copy_owns c.name c.seat };
}

/// The copy that the seat has. It takes no memory.
#[derive(Debug, Drop)]
pub(crate) struct SeatCopy {
    pub ghost name: { ℕ },
    pub ghost seat: { SeatValue } by { seat_code },
}

impl Model for SeatCopy {
    ghost also_owns = { λ c. seat_copy_owns c.name c.seat };
}

/// Two copies of some seat.
pub(crate) fn new_copies() -> (BookCopy, SeatCopy)
    ensures { result.1.name ≡ result.0.name }
{
    (BookCopy {}, SeatCopy {})
}

impl BookCopy {
    /// Both copies become this seat of the book.
    #[inline(always)]
    pub(crate) fn follow(&mut self, other: &mut SeatCopy, book: &Book, seat: u32)
        requires { other.old.name ≡ self.old.name }
        ensures agree { other.old.seat ≡ self.old.seat }
        ensures locked_book { self.new.seat ≡ seat_of_book book.now seat }
        ensures seat { other.new.seat ≡ seat_of_book book.now seat }
        ensures names { (self.new.name ≡ self.old.name) × (other.new.name ≡ other.old.name) }
    {}
}

unsafe impl Send for BookCopy {}

unsafe impl Send for SeatCopy {}
