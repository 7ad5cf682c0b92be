//! Own numbers that are bound to clauses which live already, or by clauses which do.
ghost use Rattle.std.specs.Prelude.{◌≡◌, if◌then◌else◌, option_copied, Option, None, Some, OnOk, OnErr, IfOk, IfErr, IfSome, IsOk, Err, true, false, length};
ghost use Rattle.std.specs.FinMap as fin;
ghost use Rattle.lj_book.specs.Tables.{is_here, is_bound, with_binding};
ghost use Rattle.lj_text.specs.declared.step.Step.TheVariants.{Add};
ghost use Rattle.lj_book.specs.declared.found.Found.TheVariants.{Part};
ghost use Rattle.lj_book.specs.State.{live};
ghost use Rattle.lj_book.specs.Imports.{part_hints, found};
ghost use Rattle.lj_book.specs.History.{after_entry, tables_after, IsLegalCall};
ghost use Rattle.lj_book.specs.declared.entry.Call.TheVariants as calls;
ghost use Rattle.lj_book.specs.inner.JointForms.{with_call};
ghost use Rattle.lj_book.specs.inner.Records.{binding_call, entry_of};
ghost use Rattle.lj_book.specs.Calls.{IsReply, IsReplyBy, free_refusal, binding_entry, adopt_entry, imported};
ghost use Rattle.lj_book.specs.inner.Bindings.{adopt_reply, import_reply, import_entry};

use crate::entry::{Call, Entry, Imported};
use crate::found::Found;
use crate::joint_book::JointBook;
use crate::lent_addition::LentAddition;
use crate::part::is_contradictory;
use crate::refusal::Refusal;
use lj_clause::{Clause, Lemma, NoMemory};
use lj_text::{Groups, Numbers, Step};
use std::alloc::Global;

impl JointBook {
    /// Binds the seat's own number to a joint number that lives. Answers the entry's place in the history. Takes
    /// O(log n) time.
    ///
    /// # Errors
    /// [`Refusal::SeatGone`], [`Refusal::NumberTaken`], [`Refusal::NoSuchClause`] where the joint number doesn't live,
    /// and [`Refusal::NoMemory`] where a growth was refused.
    pub fn adopt(&mut self, seat: u32, own: u64, joint: u64) -> Result<u64, Refusal>
        ensures reply { IsReply result (adopt_reply self.old seat own joint) }
        ensures refused { IfErr (adopt_reply self.old seat own joint) (λ e. result ≡ Err e) }
        ensures ok { OnOk result (self.new ≡ after_entry self.old (adopt_entry seat own joint)) }
        ensures err { OnErr result (self.new ≡ self.old) }
    {
        if let Some(refusal) = self.free_refusal(seat, own) {
            return Err(refusal);
        }
        if !self.clause_log.is_live(joint) {
            return Err(Refusal::NoSuchClause);
        }
        Ok(self.bind_live(seat, own, joint, None)?)
    }

    /// Binds the seat's own number to the least live number with exactly this clause, without a step. Where none lives, but a part
    /// of the clause does, the clause enters under the next number, by the least such part. Where the entry is wanted, gives a
    /// copy, with the named clause in its call.
    ///
    /// # Errors
    /// [`Refusal::SeatGone`], [`Refusal::NumberTaken`], [`Refusal::NoSuchClause`] where no part of the clause lives,
    /// [`Refusal::Full`], and [`Refusal::NoMemory`] where a growth was refused.
    pub fn import(
        &mut self,
        seat: u32,
        own: u64,
        clause: &Clause,
        wanted: bool,
        named: &Clause,
    ) -> Result<(Imported, Option<Entry>), Refusal>
        ensures reply { IsReplyBy (λ told. told.0) result
            (import_reply self.old seat own clause.now) }
        ensures refused { IfErr (import_reply self.old seat own clause.now) (λ e. result ≡ Err e) }
        ensures told { IfOk result (λ told. told.1 ≡ (if wanted
            then Some (with_call (calls.Import own named.now)
            (import_entry self.old seat own clause.now))
            else None)) }
        ensures ok { OnOk result
            (self.new ≡ after_entry self.old (import_entry self.old seat own clause.now)) }
        ensures err { OnErr result (self.new ≡ self.old) }
    {
        if let Some(refusal) = self.free_refusal(seat, own) {
            return Err(refusal);
        }
        match self.found(clause) {
            Found::Equal(joint) => {
                let entry = entry_of_import(wanted, seat, own, named, None)?;
                let place = self.bind_live(seat, own, joint, Some(clause))?;
                Ok((Imported { place, joint }, entry))
            }
            Found::Part(part) => self.import_by_part(seat, own, clause, part, wanted, named),
            Found::Neither => Err(Refusal::NoSuchClause),
        }
    }

    /// Enters a clause by a part of it, and binds the seat's own number to it.
    ///
    /// # Errors
    /// [`Refusal::Full`], and [`Refusal::NoMemory`] where a growth was refused.
    fn import_by_part(
        &mut self,
        seat: u32,
        own: u64,
        clause: &Clause,
        part: u64,
        wanted: bool,
        named: &Clause,
    ) -> Result<(Imported, Option<Entry>), Refusal>
        requires free { free_refusal self.old seat own ≡ None }
        requires found { found self.old clause.now ≡ Part part }
        ensures reply { IsReplyBy (λ told. told.0) result (imported self.old (Part part)) }
        ensures refused { IfErr (imported self.old (Part part)) (λ e. result ≡ Err e) }
        ensures told { IfOk result (λ told. told.1 ≡ (if wanted
            then Some (with_call (calls.Import own named.now)
            (import_entry self.old seat own clause.now))
            else None)) }
        ensures ok { OnOk result
            (self.new ≡ after_entry self.old (import_entry self.old seat own clause.now)) }
        ensures err { OnErr result (self.new ≡ self.old) }
    {
        if self.is_full() {
            return Err(Refusal::Full);
        }
        let alloc = self.allocator();
        let lemma = Lemma::from_lits(alloc, clause.lits())?;
        let hints = part_hints(alloc, clause, part)?;
        let groups = Groups::new(alloc);
        let step = LentAddition::new(self.next(), &lemma, &hints, &groups);
        let copied = step_if(wanted, &step)?;
        let entry = entry_of_import(wanted, seat, own, named, copied)?;
        let added = self.enter_legal(seat, own, &step, true)?;
        let (place, joint) = (added.place, added.joint);
        Ok((Imported { place, joint }, entry))
    }

    /// What an import of this clause finds, for which the lists of the clauses are made. The book stays as it is.
    fn found(&mut self, clause: &Clause) -> Found
        ensures found { result ≡ found self.old clause.now }
        ensures same { self.new ≡ self.old }
    {
        self.clause_log.make_lists();
        if let Some(joint) = self.clause_log.least_number(clause) {
            return Found::Equal(joint);
        }
        match self.clause_log.least_part(clause) {
            Some(part) => Found::Part(part),
            None => Found::Neither,
        }
    }

    /// The refusal of a binding of this own number, whatever it is to be bound to.
    pub(crate) fn free_refusal(&self, seat: u32, own: u64) -> Option<Refusal>
        ensures { result ≡ free_refusal self.now seat own }
    {
        if !self.tables.is_here(seat) {
            return Some(Refusal::SeatGone);
        }
        if self.tables.is_bound(seat, own) {
            return Some(Refusal::NumberTaken);
        }
        None
    }

    /// Enters a call that binds an own number to a joint number that lives, without a step: an import where there is a
    /// clause, and an adoption otherwise.
    fn bind_live(
        &mut self,
        seat: u32,
        own: u64,
        joint: u64,
        imported: Option<&Clause>,
    ) -> Result<u64, NoMemory>
        requires free { free_refusal self.old seat own ≡ None }
        requires lives { fin.contains_key (live self.old) joint ≡ true }
        requires legal { IsLegalCall self.old seat
            (binding_call own joint (option_copied imported)) None }
        requires binds { tables_after self.old seat
            (binding_call own joint (option_copied imported))
            ≡ with_binding self.old.tables seat own joint }
        ensures place { IfOk result (λ place. place ≡ length self.old.history) }
        ensures ok { OnOk result
            (self.new ≡ after_entry self.old
            (binding_entry seat (binding_call own joint (option_copied imported.entry)))) }
        ensures err { OnErr result (self.new ≡ self.old) }
    {
        self.clause_log.reserve_binding(imported)?;
        let place = self.clause_log.history().len();
        self.tables.bind(seat, own, joint)?;
        self.clause_log.push_binding(seat, own, joint, imported);
        Ok(place)
    }
}

/// The hints that prove a clause by a part of it: none where it holds a literal and its negation.
///
/// # Errors
/// [`NoMemory`] where a growth was refused.
fn part_hints(alloc: Global, clause: &Clause, part: u64) -> Result<Numbers, NoMemory>
    ensures { IfOk result (λ hints. hints ≡ part_hints clause.now part) }
{
    let mut hints = Numbers::with_capacity(alloc, 1)?;
    if !is_contradictory(clause) {
        hints.push(part)?;
    }
    Ok(hints)
}

/// A copy of the step, where it is wanted.
///
/// # Errors
/// [`NoMemory`] where a growth was refused.
fn step_if(wanted: bool, step: &LentAddition<'_>) -> Result<Option<Step>, NoMemory>
    ensures { IfOk result (λ copied. copied ≡ (if wanted then Some (Add step.now) else None)) }
{
    if !wanted {
        return Ok(None);
    }
    Ok(Some(Step::Add(step.try_clone()?)))
}

/// The entry of a seat's import of this clause, by this step, where it is wanted.
///
/// # Errors
/// [`NoMemory`] where a growth was refused.
fn entry_of_import(
    wanted: bool,
    seat: u32,
    own: u64,
    clause: &Clause,
    step: Option<Step>,
) -> Result<Option<Entry>, NoMemory>
    ensures { IfOk result (λ entry. entry
        ≡ (if wanted then Some (entry_of seat (calls.Import own clause.now) step) else None)) }
{
    if !wanted {
        return Ok(None);
    }
    let call = Call::Import {
        own,
        clause: clause.try_clone()?,
    };
    Ok(Some(Entry { seat, call, step }))
}
