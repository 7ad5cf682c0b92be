//! The verdict, which is seen without the lock.
ghost use Rattle.std.specs.Prelude.{◌≡◌, None};
ghost use Rattle.lj_clause.specs.Truth.{IsUnsatisfiable};

use crate::book_id::BookId;
use lj_book::Verified;
use once_cell::race;
use std::marker::{Model, PhantomData};

/// The verdict of an opening: that no assignment satisfies its formula, and the place of the entry that shows it.
#[derive(Drop)]
pub(crate) struct Verdict<L: BookId> {
    position: u64,
    verified: Verified,
    opening: PhantomData<L>,
}

impl<L: BookId> Model for Verdict<L> {
    ghost use Rattle.std.specs.Prelude.{◌≡◌, ℕ};

    ghost Value = { ℕ };

    ghost view = { λ v. v.position };

    ghost invariant = { λ v. v.verified ≡ L.formula };
}

impl<L: BookId> Verdict<L> {
    /// The verdict of an opening's formula by the entry at a place.
    pub(crate) fn new(position: u64, verified: Verified) -> Verdict<L>
        requires { verified ≡ L.formula }
        ensures { result ≡ position }
    {
        Verdict {
            position,
            verified,
            opening: PhantomData,
        }
    }

    /// The place of the entry.
    pub(crate) fn position(&self) -> u64
        ensures { result ≡ self.now }
    {
        self.position
    }

    /// The formula, which no assignment satisfies.
    pub(crate) fn verified(&self) -> &Verified
        ensures formula { result.now ≡ L.formula }
        ensures unsatisfiable { IsUnsatisfiable L.formula }
    {
        let _formula = self.verified.formula();
        &self.verified
    }
}

/// What a reader has seen of the verdict of one shared book. It takes no memory, and a reader on another thread has one of its
/// own. Once it gave a verdict, it gives the same one for good.
#[derive(Drop)]
pub struct Note<L: BookId> {
    pub(crate) seen: race::Note<Verdict<L>>,
}

impl<L: BookId> Model for Note<L> {
    ghost use Rattle.lj_share.specs.Seats.{NoteValue};
    ghost use Rattle.lj_share.specs.inner.Codes.{note_code};

    ghost Value = { NoteValue };

    ghost coded = { note_code };

    ghost view = { λ n. record { cell = n.seen.cell; position = n.seen.known } };
}

impl<L: BookId> Note<L> {
    /// The note of this one.
    pub(crate) fn new(seen: race::Note<Verdict<L>>) -> Note<L>
        ensures { (result.cell ≡ seen.cell) × (result.position ≡ seen.known) }
    {
        Note { seen }
    }
}
