//! What lies under the lock.
ghost use Rattle.std.specs.Prelude.{◌≡◌, ◌≤◌, None, Some, IfOk, IfErr, IfSome, IsSome, OnOk, OnErr, length, slice_get, take};
ghost use Rattle.lj_book.specs.declared.entry.Call.TheVariants as calls;
ghost use Rattle.lj_share.specs.Entries.{IsEntryOf, call_of};
ghost use Rattle.lj_book.specs.Solo.{solo_refusal};
ghost use Rattle.lj_book.specs.NamedReplies.{named_commit, named_adopt, named_leave};
ghost use Rattle.lj_share.specs.Refusals.{HoldsInAState, IsBindingRefused, IsRefusedAt, IsRefusedLine, gone_refusal, line_refusal};
ghost use Rattle.lj_share.specs.Seats.{IsMaking, with_bound};
ghost use Rattle.lj_share.specs.declared.numbered.Numbered.{Numbered};
ghost use Rattle.lj_share.specs.Entered.{AreEntered};
ghost use Rattle.lj_share.specs.inner.Ahead.{AreTested};
ghost use Rattle.lj_share.specs.inner.Runs.{views_behind};
ghost use Rattle.lj_share.specs.inner.Seats.{clauses_seen, IsLockedBook, IsOwnOf, IsTestedAs, view_behind};
ghost use Rattle.lj_share.specs.inner.WithEntry.{IsTokenOf};

use crate::account::Account;
use crate::book_id::BookId;
use crate::kept::{bind_ahead, settle, unbind};
use crate::lists::Lists;
use crate::numbered::Numbered;
use crate::own_clauses::OwnClauses;
use crate::seat::Unlocked;
use crate::verdict::Verdict;
use crate::with_entry;
use lj_book::{Book, Entry, Refusal};
use lj_clause::Formula;
use lj_hint::{Propagator, Receipt};
use lj_text::Line;
use std::alloc::Global;
use std::marker::Model;
use std::sync::ledger::{Book as Tally, Share};

/// The book; the ledger of its opening, whose total is the number of entries; the copies of its seats; and working memory.
#[derive(Drop)]
pub(crate) struct LockedBook<L: BookId> {
    book: Book,
    entries: Tally<L>,
    lists: Lists<L>,
    /// What no seat has of the ledger: nothing.
    rest: Share<L>,
    /// The working memory of the additions that are tested here, one after the other.
    propagator: Propagator,
}

impl<L: BookId> Model for LockedBook<L> {
    ghost use Rattle.lj_share.specs.inner.Seats.{IsLockedBook};

    ghost Value = { Unit {0} };

    ghost view = { λ d. tt };

    ghost invariant = { λ d. IsLockedBook L.formula L.seats L.max_steps d.book d.lists
        d.entries.total
        d.rest.parts d.rest.amount };
}

impl<L: BookId> LockedBook<L> {
    /// A new book under a ledger all of whose parts the seats have, with the copies of these.
    pub(crate) fn new(
        alloc: Global,
        book: Book,
        entries: Tally<L>,
        lists: Lists<L>,
        rest: Share<L>,
    ) -> LockedBook<L>
        requires { IsLockedBook L.formula L.seats L.max_steps book lists entries.total rest.parts
            rest.amount }
    {
        LockedBook {
            book,
            entries,
            lists,
            rest,
            propagator: Propagator::new(alloc),
        }
    }

    /// The verdict, if the history adds the empty clause; none where a growth was refused to it.
    pub(crate) fn verdict(&self, alloc: Global) -> Option<Box<Verdict<L>>> {
        let position = self.book.verdict()?;
        match self.book.verified() {
            Ok(Some(verified)) => Box::new(alloc, Verdict::new(position, verified)).ok(),
            Ok(None) | Err(_) => None,
        }
    }

    /// The book, the ledger, the copies, and what no seat has of the ledger.
    pub(crate) fn into_parts(self) -> (Book, Tally<L>, Lists<L>, Share<L>)
        ensures { IsLockedBook L.formula L.seats L.max_steps result.0 result.2 result.1.total
            result.3.parts result.3.amount }
    {
        let LockedBook {
            book,
            entries,
            lists,
            rest,
            propagator: _,
        } = self;
        (book, entries, lists, rest)
    }

    /// Commits a receipt of the seat; gives its entry, and the joint number of its lemma.
    pub(crate) fn commit(
        &mut self,
        account: &mut Account<L>,
        receipt: Receipt,
    ) -> Result<(Entry, u64), (Refusal, Receipt)>
        requires { receipt.seat ≡ account.old.number }
        ensures told { IfOk result
            (λ done. IsEntryOf account.old.number (calls.Add receipt.own receipt.lemma) done.0) }
        ensures view { IfOk result (λ done. account.new.view
            ≡ with_bound receipt.own done.1 receipt.lemma.clause account.old.view) }
        ensures made { OnOk result
            (IsMaking (calls.Add receipt.own receipt.lemma) account.old account.new) }
        ensures free { OnOk result (solo_refusal account.old.view receipt.own ≡ None) }
        ensures kept { OnErr result (account.new ≡ account.old) }
        ensures back { IfErr result (λ e. e.1 ≡ receipt) }
        ensures refusal { IfErr result (λ e. IsRefusedAt L.formula L.seats L.max_steps account.old
            (λ s. named_commit s receipt) e.0) }
    {
        let LockedBook {
            book,
            entries,
            lists,
            ..
        } = self;
        account.agree(lists, book);
        match book.commit_with_entry(receipt) {
            Ok((added, entry)) => {
                account.count_one(entries, lists, book);
                Ok((entry.into_inner(), added.joint))
            }
            Err(refused) => Err(refused),
        }
    }

    /// Enters a line of the seat; gives its entry where it is asked for, and the joint number that a number of the line is bound to.
    /// An addition is tested here, unless what the seat sees decided it.
    pub(crate) fn enter(
        &mut self,
        account: &mut Account<L>,
        line: &Line,
        unlocked: Unlocked,
        with_entry: bool,
    ) -> Result<(Option<Entry>, u64), Refusal>
        requires { IsTestedAs account.old.view account.old.number line.now unlocked }
        ensures told { IfOk result
            (λ done. IsTokenOf with_entry account.old.number (call_of line.now) done.0) }
        ensures view { IfOk result
            (λ done. account.new.view ≡ view_behind line.now done.1 account.old.view) }
        ensures made { OnOk result (IsMaking (call_of line.now) account.old account.new) }
        ensures free { OnOk result (line_refusal account.old line.now ≡ None) }
        ensures kept { OnErr result (account.new ≡ account.old) }
        ensures refusal { IfErr result (λ e. HoldsInAState L.formula L.seats L.max_steps account.old
            (IsRefusedLine account.old.number line.now e)) }
    {
        let LockedBook {
            book,
            entries,
            lists,
            rest: _,
            propagator,
        } = self;
        account.agree(lists, book);
        match with_entry::enter(
            book,
            account.number(),
            line,
            unlocked,
            propagator,
            with_entry,
        ) {
            Ok((entry, joint)) => {
                account.count_one(entries, lists, book);
                Ok((entry, joint))
            }
            Err(refusal) => Err(refusal),
        }
    }

    /// Enters the first so many of these lines, which were tested, in order up to the first that is refused; gives how many were
    /// entered, and the refusal. Their joint numbers are put into the list.
    pub(crate) fn enter_run(
        &mut self,
        account: &mut Account<L>,
        lines: &[Numbered],
        reads: &[usize],
        joints: &mut [u64],
        count: usize,
    ) -> (usize, Option<Refusal>)
        requires tested { AreTested (clauses_seen account.old.view) lines.now reads.now count }
        requires here { IsSome account.old.view }
        requires lines { count ≤ length lines.now }
        requires reads { count ≤ length reads.now }
        requires joints { count ≤ length joints.old }
        ensures entered { AreEntered account.old (take result.0 lines.now) account.new }
        ensures view { account.new.view
            ≡ views_behind account.old.view lines.now joints.new result.0 }
        ensures joints { length joints.new ≡ length joints.old }
        ensures within { result.0 ≤ count }
        ensures all { result.1 ≡ None → result.0 ≡ count }
        ensures refused { IfSome result.1 (λ e. (l : Numbered)
            × (slice_get lines.now result.0 ≡ Some l)
            × HoldsInAState L.formula L.seats L.max_steps account.new
            (IsRefusedLine account.new.number l.line e)) }
    {
        for k in 0..count {
            let unlocked = Unlocked::Closed(reads[k]);
            match self.enter(account, &lines[k].line, unlocked, false) {
                Ok((_, joint)) => joints[k] = joint,
                Err(refusal) => return (k, Some(refusal)),
            }
        }
        (count, None)
    }

    /// Binds the seat's own number, which is free, to a joint number that lives. What the seat keeps follows, with the clause in the
    /// seat's variables.
    pub(crate) fn adopt(
        &mut self,
        formula: &Formula,
        account: &mut Account<L>,
        kept: &mut Option<OwnClauses>,
        own: u64,
        joint: u64,
    ) -> Result<Entry, Refusal>
        requires formula { formula.now ≡ L.formula }
        requires own { IsOwnOf L.formula kept.old account.old.view }
        requires free { solo_refusal account.old.view own ≡ None }
        ensures told { IfOk result (IsEntryOf account.old.number (calls.Adopt own joint)) }
        ensures made { OnOk result (IsMaking (calls.Adopt own joint) account.old account.new) }
        ensures kept { OnErr result (account.new ≡ account.old) }
        ensures own { IsOwnOf L.formula kept.new account.new.view }
        ensures refusal { IfErr result (IsBindingRefused L.formula L.seats L.max_steps account.old
            own
            (λ s. named_adopt s account.old.number own joint)) }
    {
        let LockedBook {
            book,
            entries,
            lists,
            ..
        } = self;
        account.agree(lists, book);
        let seat = account.number();
        let clause = match book.clause_for(seat, joint) {
            Ok(clause) => clause,
            Err(refusal) => return Err(refusal),
        };
        if let Err(refusal) = bind_ahead(kept, formula, own, &clause) {
            return Err(refusal);
        }
        match book.adopt_with_entry(seat, own, joint) {
            Ok((_, entry)) => {
                account.count_one(entries, lists, book);
                settle(kept, own, joint);
                Ok(entry)
            }
            Err(refusal) => {
                unbind(kept, own);
                Err(refusal)
            }
        }
    }

    /// Ends the seat's bindings in the book.
    pub(crate) fn leave(&mut self, account: &mut Account<L>) -> Result<Entry, Refusal>
        ensures told { IfOk result (IsEntryOf account.old.number calls.Leave) }
        ensures made { OnOk result (IsMaking calls.Leave account.old account.new) }
        ensures free { OnOk result (gone_refusal account.old.view ≡ None) }
        ensures kept { OnErr result (account.new ≡ account.old) }
        ensures refusal { IfErr result (IsRefusedAt L.formula L.seats L.max_steps account.old
            (λ s. named_leave s account.old.number)) }
    {
        let LockedBook {
            book,
            entries,
            lists,
            ..
        } = self;
        account.agree(lists, book);
        match book.leave_with_entry(account.number()) {
            Ok((_, entry)) => {
                account.count_one(entries, lists, book);
                Ok(entry)
            }
            Err(refusal) => Err(refusal),
        }
    }
}
