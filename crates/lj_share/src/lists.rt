//! The locked book's copies of its seats.
ghost use Rattle.std.specs.Prelude.{◌≡◌, [], map, All, Some, slice_get, slice_set};
ghost use Rattle.lj_share.specs.Seats.{seat_of_book};

use crate::book_id::BookId;
use crate::copies::{BookCopy, SeatCopy};
use lj_book::Book;
use std::marker::{Model, PhantomData};

/// The locked book's copy of each seat, by seat. They take no memory.
#[derive(Drop)]
pub(crate) struct Lists<L: BookId> {
    copies: Vec<BookCopy>,
    opening: PhantomData<L>,
}

impl<L: BookId> Model for Lists<L> {
    ghost use Rattle.std.specs.Prelude.{◌≡◌, List, map};
    ghost use Rattle.std.specs.Coded.{coded_list};
    ghost use Rattle.lj_share.specs.Seats.{SeatValue};
    ghost use Rattle.lj_share.specs.inner.Codes.{seat_code};

    ghost Value = { List SeatValue };

    ghost coded = { coded_list seat_code };

    ghost view = { λ l. map (λ c. c.seat) l.copies.items };

    ghost invariant = { λ l. map (λ c. c.name) l.copies.items ≡ L.lists };
}

impl<L: BookId> Lists<L> {
    /// These copies, which are those of the opening.
    pub(crate) fn new(copies: Vec<BookCopy>) -> Lists<L>
        requires { map (λ c. c.name) copies.items ≡ L.lists }
        ensures { result ≡ map (λ c. c.seat) copies.items }
    {
        Lists {
            copies,
            opening: PhantomData,
        }
    }

    /// Both copies of a seat become that seat of the book.
    pub(crate) fn follow(&mut self, copy: &mut SeatCopy, book: &Book, seat: u32)
        requires { slice_get L.lists seat ≡ Some copy.old.name }
        ensures agree { slice_get self.old seat ≡ Some copy.old.seat }
        ensures locked_book { self.new ≡ slice_set self.old seat (seat_of_book book.now seat) }
        ensures seat { copy.new.seat ≡ seat_of_book book.now seat }
        ensures name { copy.new.name ≡ copy.old.name }
    {
        self.copies[seat as usize].follow(copy, book, seat)
    }
}
