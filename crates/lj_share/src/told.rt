//! Tokens of entries.
ghost use Rattle.std.specs.Prelude.{◌≡◌};

use crate::book_id::BookId;
use boxcar::Pushed;
use lj_book::Entry;
use std::marker::{Model, PhantomData};

/// The token of an entry that a call made. It stands for this one entry for good, whose call speaks the seat's variables. It has
/// three words, and shows where the entry is in the log of its opening.
#[derive(Drop)]
pub struct Told<L: BookId> {
    pub(crate) pushed: Pushed<Entry>,
    pub(crate) opening: PhantomData<L>,
}

impl<L: BookId> Model for Told<L> {
    ghost use Rattle.boxcar.specs.Table.{Shows};
    ghost use Rattle.lj_book.specs.declared.entry.Entry.{Entry};
    ghost use Rattle.lj_book.specs.inner.Codes.{entry_code};

    ghost Value = { Entry };

    ghost coded = { entry_code };

    ghost view = { λ t. t.pushed.value };

    ghost invariant = { λ t. Shows L.log t.pushed };
}

impl<L: BookId> Told<L> {
    /// One more token of the same entry. Takes constant time, and no memory.
    pub fn again(&self) -> Told<L>
        ensures { result ≡ self.now }
    {
        Told {
            pushed: self.pushed.again(),
            opening: PhantomData,
        }
    }
}
