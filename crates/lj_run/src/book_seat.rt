//! Seats of a book that one thread has.
ghost use Rattle.std.specs.Prelude.{◌≡◌, Some, OnOk, OnErr, IfErr};
ghost use Rattle.lj_share.specs.Refusals.{IsRefusedLine};
ghost use Rattle.lj_run.specs.Run.{state_after_line};

use crate::entering::Entering;
use lj_book::{Book, Refusal};
use lj_hint::Propagator;
use lj_share::Numbered;
use lj_text::Line;
use std::alloc::Global;
use std::sync::Wait;

/// A book, and the seat of it whose lines are entered.
#[derive(Drop)]
pub(crate) struct BookSeat {
    pub book: Book,
    pub number: u32,
    propagator: Propagator,
}

impl BookSeat {
    /// The first seat of a book.
    pub fn new(alloc: Global, book: Book) -> BookSeat
        ensures { result.book ≡ book }
    {
        BookSeat {
            book,
            number: 0,
            propagator: Propagator::new(alloc),
        }
    }

    /// Gives a line to the book.
    fn enter(&mut self, line: &Line) -> Result<(), Refusal>
        ensures ok { OnOk result
            (state_after_line self.old.number self.old.book line.now ≡ Some self.new.book) }
        ensures refused { IfErr result
            (λ e. IsRefusedLine self.old.number line.now e self.old.book) }
        ensures kept { OnErr result (self.new.book ≡ self.old.book) }
        ensures number { self.new.number ≡ self.old.number }
    {
        match line {
            Line::Add(addition) => {
                match self
                    .book
                    .add_inside(self.number, addition, &mut self.propagator)
                {
                    Ok(_) => Ok(()),
                    Err(refusal) => Err(refusal),
                }
            }
            Line::Delete(numbers) => match self.book.drop_numbers(self.number, numbers) {
                Ok(_) => Ok(()),
                Err(refusal) => Err(refusal),
            },
            Line::Import { number, clause } => {
                match self.book.import(self.number, *number, clause) {
                    Ok(_) => Ok(()),
                    Err(refusal) => Err(refusal),
                }
            }
        }
    }
}

impl Entering for BookSeat {
    ghost use Rattle.std.specs.Prelude.{length, true, false};
    ghost use Rattle.lj_run.specs.Run.{has_verdict};
    ghost use Rattle.lj_run.specs.inner.BookSeat.{LeadsOn, no_lead, leads_further};

    /// Few, so that the memory of their lines, which is used again for the next ones, stays near.
    const BLOCK: usize = 16;

    ghost entered = { λ from lines to. LeadsOn from.number from.book lines to.number to.book };

    ghost refused = { λ s line e. IsRefusedLine s.number line e s.book };

    ghost stopped = { λ s. has_verdict s.book ≡ true };

    ghost goes_on = { λ s. has_verdict s.book ≡ false };

    ghost known = { λ s. length s.book.history };

    fn is_stopped(&self) -> bool {
        self.book.verdict().is_some()
    }

    fn entries(&self) -> u64 {
        self.book.history_len()
    }

    fn enter_lines<R: Wait>(&mut self, _rt: &R, lines: &[Numbered]) -> (usize, Option<Refusal>) {
        for done in 0..lines.len() {
            if self.is_stopped() {
                return (done, None);
            }
            match self.enter(&lines[done].line) {
                Ok(()) => {}
                Err(refusal) => return (done, Some(refusal)),
            }
        }
        (lines.len(), None)
    }

    ghost none = { λ s. no_lead s.number s.book };

    ghost further = { λ a b c xs ys. leads_further a.number b.number c.number a.book b.book c.book xs ys };
}
