//! The log of the entries that tokens show.
ghost use Rattle.std.specs.Prelude.{◌≡◌, None, IfOk, IfErr, OnOk, OnErr};
ghost use Rattle.lj_share.specs.Entries.{call_of};
ghost use Rattle.lj_share.specs.Refusals.{IsLineRefused, line_refusal};
ghost use Rattle.lj_share.specs.Seats.{IsMaking};
ghost use Rattle.lj_share.specs.inner.Seats.{IsTestedAs, view_behind};
ghost use Rattle.lj_share.specs.inner.WithEntry.{IsTokenOf};

use crate::account::Account;
use crate::book_id::BookId;
use crate::locked_book::LockedBook;
use crate::seat::Unlocked;
use crate::told::Told;
use lj_book::{Entry, Refusal};
use lj_clause::NoMemory;
use lj_text::Line;
use std::marker::PhantomData;
use std::sync::Wait;

/// The entries of an opening's tokens. It only grows, and all threads read it without the lock.
#[derive(Drop)]
pub(crate) struct EntryLog<L: BookId> {
    entries: boxcar::Vec<Entry>,
    opening: PhantomData<L>,
    ghost is_of: { entries ≡ L.log },
}

impl<L: BookId> EntryLog<L> {
    /// The log of the opening, made of what was made for it.
    pub(crate) fn new(entries: boxcar::Vec<Entry>) -> EntryLog<L>
        requires { entries ≡ L.log }
    {
        EntryLog {
            entries,
            opening: PhantomData,
        }
    }

    /// Reserves a place for the next entry. The caller holds the lock until the entry is kept, so no other takes the place.
    ///
    /// # Errors
    /// [`NoMemory`] where a growth was refused.
    pub(crate) fn reserve(&self) -> Result<(), NoMemory> {
        self.entries.reserve(1)?;
        Ok(())
    }

    /// Keeps an entry, and gives its token. It tries until the log takes the entry. That is at the first turn, since the place was
    /// reserved; but this isn't proved, as `Wait` says.
    pub(crate) fn keep<R: Wait>(&self, rt: &R, mut entry: Entry) -> Told<L>
        ensures { result ≡ entry }
    {
        for _ in rt.forever() {
            match self.entries.push_shown(rt, entry) {
                Ok(pushed) => {
                    return Told {
                        pushed,
                        opening: PhantomData,
                    };
                }
                Err(back) => entry = back,
            }
        }
        unreachable!()
    }

    /// Enters a line of the seat; gives the token of its entry where one is asked for, and the joint number that a number of the line
    /// is bound to. A place for the entry is reserved before.
    ///
    /// # Errors
    /// As [`LockedBook::enter`], and [`Refusal::NoMemory`] where a growth was refused.
    pub(crate) fn enter<R: Wait>(
        &self,
        rt: &R,
        locked_book: &mut LockedBook<L>,
        account: &mut Account<L>,
        line: &Line,
        unlocked: Unlocked,
        with_entry: bool,
    ) -> Result<(Option<Told<L>>, u64), Refusal>
        requires { IsTestedAs account.old.view account.old.number line.now unlocked }
        ensures told { IfOk result
            (λ done. IsTokenOf with_entry account.old.number (call_of line.now) done.0) }
        ensures view { IfOk result
            (λ done. account.new.view ≡ view_behind line.now done.1 account.old.view) }
        ensures made { OnOk result (IsMaking (call_of line.now) account.old account.new) }
        ensures free { OnOk result (line_refusal account.old line.now ≡ None) }
        ensures kept { OnErr result (account.new ≡ account.old) }
        ensures refusal { IfErr result (IsLineRefused L.formula L.seats L.max_steps account.old
            line.now) }
    {
        if with_entry {
            self.reserve()?;
        }
        let (entry, joint) = locked_book.enter(account, line, unlocked, with_entry)?;
        match entry {
            Some(entry) => Ok((Some(self.keep(rt, entry)), joint)),
            None => Ok((None, joint)),
        }
    }

    /// The entry that a token shows. Takes constant time.
    pub(crate) fn entry(&self, told: &Told<L>) -> &Entry
        ensures { result.now ≡ told.now }
    {
        self.entries.value(&told.pushed)
    }
}
