//! Receipts in a seat's own variables.
ghost use Rattle.std.specs.Prelude.{◌≡◌, true, if◌then◌else◌, Some, None, OnOk, OnErr, IfOk, IfErr, IfSome, Err};
ghost use Rattle.lj_clause.specs.Renaming.{is_named};
ghost use Rattle.lj_book.specs.Variables.{renaming_of};
ghost use Rattle.lj_book.specs.State.{live, next};
ghost use Rattle.lj_book.specs.History.{after_entry, IsLegal};
ghost use Rattle.lj_book.specs.Calls.{IsReply, IsReplyBy, answer_alone, commit_told};
ghost use Rattle.lj_book.specs.Named.{after_named};
ghost use Rattle.lj_book.specs.NamedReplies.{named_first_stale, named_commit_refusal, named_commit};
ghost use Rattle.lj_book.specs.NamedEntries.{receipt_step, receipt_entry, named_commit_entry};
ghost use Rattle.lj_book.specs.inner.ReceiptForms.{lives_in_form};
ghost use Rattle.lj_book.specs.inner.JointLines.{line_entry};

use super::Book;
use crate::committing::numbers_of;
use crate::entry::{Added, Entry};
use crate::joint_book::JointBook;
use crate::joint_book::laws::history_is_legal;
use crate::lent_addition::LentAddition;
use crate::refusal::Refusal;
use crate::variable_table::VariableTable;
use lj_clause::NoMemory;
use lj_hint::{Pair, Receipt};
use lj_text::{Boxed, Groups};

impl Book {
    /// Enters the lemma of a receipt, while the clauses that it lists still live in joint variables. The lemma's variables above
    /// the formula's that have no joint ones yet get the next ones. Takes O(log n) time for each listed clause, the time of
    /// [`Book::variable`] and O(log n) time for each literal of the lemma, and for each listed literal linear time, or that
    /// of a lemma's where the clause has a variable above the formula's.
    ///
    /// # Errors
    /// With the receipt: [`Refusal::SeatGone`], [`Refusal::NumberTaken`], [`Refusal::Stale`] where a listed clause has no
    /// joint form or doesn't live in it, [`Refusal::Full`], [`Refusal::NoVariableLeft`], and [`Refusal::NoMemory`] where a
    /// growth was refused.
    pub fn commit(&mut self, receipt: Receipt) -> Result<Added, (Refusal, Receipt)>
        ensures reply { IsReply (answer_alone result) (named_commit self.old receipt) }
        ensures refused { IfSome (named_commit_refusal self.old receipt)
            (λ e. result ≡ Err (e, receipt)) }
        ensures ok { OnOk result
            (self.new ≡ after_named self.old (named_commit_entry self.old receipt)) }
        ensures err { OnErr result (self.new ≡ self.old) }
        ensures back { IfErr result (λ e. e.1 ≡ receipt) }
    {
        match self.enter_receipt(&receipt, false) {
            Ok((added, _entry)) => Ok(added),
            Err(refusal) => Err((refusal, receipt)),
        }
    }

    /// As [`Book::commit`], by a receipt that is lent, with a copy of the entry where it is wanted.
    ///
    /// # Errors
    /// As [`Book::commit`], without the receipt.
    pub(super) fn enter_receipt(
        &mut self,
        receipt: &Receipt,
        wanted: bool,
    ) -> Result<(Added, Option<Boxed<Entry>>), Refusal>
        ensures reply { IsReplyBy (λ told. told.0) result (named_commit self.old receipt.now) }
        ensures refused { IfSome (named_commit_refusal self.old receipt.now)
            (λ e. result ≡ Err e) }
        ensures told { IfOk result (λ told. told.1
            ≡ (if wanted then Some (named_commit_entry self.old receipt.now) else None)) }
        ensures ok { OnOk result
            (self.new ≡ after_named self.old (named_commit_entry self.old receipt.now)) }
        ensures err { OnErr result (self.new ≡ self.old) }
    {
        if let Some(refusal) = self.commit_refusal(receipt) {
            return Err(refusal);
        }
        let before = self.variables.next();
        let left = self
            .variables
            .give(receipt.seat(), receipt.lemma().clause())?;
        if !left {
            return Err(Refusal::NoVariableLeft);
        }
        match enter_joint(&mut self.joint, &self.variables, receipt, wanted) {
            Ok(told) => {
                history_is_legal(&self.joint);
                Ok(told)
            }
            Err(refused) => {
                self.variables.take_back(before);
                Err(Refusal::NoMemory(refused))
            }
        }
    }

    /// The first refusal of a commit that holds, but for [`Refusal::NoVariableLeft`].
    fn commit_refusal(&self, receipt: &Receipt) -> Option<Refusal>
        ensures { result ≡ named_commit_refusal self.now receipt.now }
    {
        let seat = receipt.seat();
        if let Some(refusal) = self.joint.free_refusal(seat, receipt.own()) {
            return Some(refusal);
        }
        if let Some(joint) = first_stale(&self.joint, &self.variables, seat, receipt.listed()) {
            return Some(Refusal::Stale(joint));
        }
        if self.joint.is_full() {
            return Some(Refusal::Full);
        }
        None
    }
}

/// The number of the first pair whose clause has no joint form, or doesn't live in it.
fn first_stale(
    book: &JointBook,
    variables: &VariableTable,
    seat: u32,
    listed: &[Pair],
) -> Option<u64>
    ensures { result ≡ named_first_stale variables.now.top
        (renaming_of variables.now.variables seat) (live book.now) listed.now }
{
    for pair in listed {
        if !lives_in_form(book, variables, seat, pair) {
            return Some(pair.joint);
        }
    }
    None
}

/// Whether the pair's clause has a joint form, which lives under its number.
fn lives_in_form(book: &JointBook, variables: &VariableTable, seat: u32, pair: &Pair) -> bool
    ensures { result ≡ lives_in_form variables.now.top
        (renaming_of variables.now.variables seat) (live book.now) pair.now }
{
    match book.clause(pair.joint) {
        Some(clause) => variables.is_joint_form(seat, &pair.clause, &clause),
        None => false,
    }
}

/// Enters the lemma of a receipt in joint variables, which it has, with a copy of the entry where it is wanted.
///
/// # Errors
/// [`NoMemory`] where a growth was refused.
fn enter_joint(
    book: &mut JointBook,
    variables: &VariableTable,
    receipt: &Receipt,
    wanted: bool,
) -> Result<(Added, Option<Boxed<Entry>>), NoMemory>
    requires named { is_named variables.now.top
        (renaming_of variables.now.variables receipt.now.seat) receipt.now.lemma.clause ≡ true }
    requires legal { IsLegal book.old (line_entry receipt.now.seat receipt.now.own
        (receipt_step (renaming_of variables.now.variables receipt.now.seat) (next book.old)
        receipt.now)) }
    ensures added { IfOk result (λ told. told.0 ≡ commit_told book.old) }
    ensures told { IfOk result (λ told. told.1 ≡ (if wanted
        then Some (receipt_entry (renaming_of variables.now.variables receipt.now.seat)
        (next book.old) receipt.now)
        else None)) }
    ensures ok { OnOk result (book.new ≡ after_entry book.old
        (line_entry receipt.now.seat receipt.now.own
        (receipt_step (renaming_of variables.now.variables receipt.now.seat) (next book.old)
        receipt.now))) }
    ensures err { OnErr result (book.new ≡ book.old) }
{
    let alloc = book.allocator();
    let seat = receipt.seat();
    let own = receipt.own();
    let named = receipt.lemma();
    let hints = numbers_of(alloc, receipt.listed())?;
    let groups = Groups::new(alloc);
    match variables.joint_lemma(alloc, seat, named)? {
        Some(lemma) => {
            let step = LentAddition::new(book.next(), &lemma, &hints, &groups);
            let entry = step.entry_if(alloc, wanted, seat, own, named)?;
            let added = book.enter_legal(seat, own, &step, false)?;
            Ok((added, entry))
        }
        None => unreachable!(),
    }
}
