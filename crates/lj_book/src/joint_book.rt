//! The book.
ghost use Rattle.std.specs.Prelude.{◌≡◌, ◌<◌, length, ◌↔◌, IsTrue, OnOk, OnErr, IfOk, IfErr, Err, option_map, slice_get, is_some, IfSome, None, Some, if◌then◌else◌};
ghost use Rattle.std.specs.FinMap as fin;
ghost use Rattle.lj_text.specs.Steps.{refutes};
ghost use Rattle.lj_text.specs.Needed.{if_some};
ghost use Rattle.lj_book.specs.Lookup.{numbers_holding};
ghost use Rattle.lj_book.specs.State.{State, opening, live, steps_of, verdict};
ghost use Rattle.lj_book.specs.Tables.{joint_of};
ghost use Rattle.lj_book.specs.History.{after_entry};
ghost use Rattle.lj_book.specs.declared.entry.Call.TheVariants as calls;
ghost use Rattle.lj_book.specs.Calls.{IsReply, IsReplyBy, drop_reply, drop_entry, take_reply, free_refusal};
ghost use Rattle.lj_book.specs.inner.Records.{entry_of};

mod adopting;
mod closed;
mod entering;
mod inside;
pub(crate) mod laws;
mod leaving;

use crate::clause_log::ClauseLog;
use crate::dying::{rising, without_holder};
use crate::entry::{Call, Dropped, Entry};
use crate::history::History;
use crate::refusal::Refusal;
use crate::seat_tables::SeatTables;
use crate::steps::Steps;
use crate::taking::case_of;
use crate::verified::Verified;
use lj_clause::{ClauseView, Formula, Lit, NoMemory};
use lj_hint::Case;
use lj_text::{Addition, Groups, Numbers, Step};
use std::alloc::Global;
use std::marker::Model;

/// A book of live clauses: a formula, the tables of its seats, and the history of the calls that were accepted.
///
/// A legal history leads to each state that it takes, and the live clauses are the replay of its steps.
#[derive(Drop)]
pub(crate) struct JointBook {
    formula: Formula,
    max_steps: u32,
    tables: SeatTables,
    /// The history, and the clause of each number that some seat holds.
    clause_log: ClauseLog,
    /// The number of additions in the history.
    added: u32,
    /// The place of the first entry that adds the empty clause.
    refuted: Option<u64>,
    /// Room for the joint hints of a line. What it holds between calls means nothing.
    joints: Numbers,
    /// Room for the joint groups of a line, likewise.
    joint_groups: Groups,
}

impl Model for JointBook {
    ghost use Rattle.lj_book.specs.State.{State};
    ghost use Rattle.lj_book.specs.inner.Codes.{state_code};
    ghost use Rattle.lj_book.specs.inner.Kept.{IsKept};

    ghost Value = { State };

    ghost coded = { state_code };

    ghost view = { λ b. record {
      formula = b.formula;
      max_steps = b.max_steps;
      tables = b.tables;
      history = b.clause_log.history.entries;
    } };

    ghost invariant = { λ b. IsKept (record {
      formula = b.formula;
      max_steps = b.max_steps;
      tables = b.tables;
      history = b.clause_log.history.entries;
    }) b.clause_log.live b.added b.refuted };
}

impl JointBook {
    /// A new book for so many seats, each of which holds the clauses of the formula under their numbers. Its history takes at
    /// most `max_steps` additions.
    ///
    /// # Errors
    /// [`NoMemory`] where a growth was refused.
    pub fn open(
        alloc: Global,
        formula: Formula,
        seats: u32,
        max_steps: u32,
    ) -> Result<JointBook, NoMemory>
        requires { 0 < seats }
        ensures { IfOk result (λ book. book ≡ opening formula seats max_steps) }
    {
        let clause_log = ClauseLog::open(alloc, &formula)?;
        let tables = SeatTables::open(alloc, seats, formula.len() as u64)?;
        Ok(JointBook {
            formula,
            max_steps,
            tables,
            clause_log,
            added: 0,
            refuted: None,
            joints: Numbers::from_u32s(Vec::new(alloc)),
            joint_groups: Groups::new(alloc),
        })
    }

    /// The formula that the book was opened with. Takes constant time.
    pub fn formula(&self) -> &Formula
        ensures { result.now ≡ self.now.formula }
    {
        &self.formula
    }

    /// The numbers of the live clauses that hold a literal, rising.
    ///
    /// # Errors
    /// [`NoMemory`] where a growth was refused.
    pub fn candidates(&self, lit: Lit) -> Result<Vec<u64>, NoMemory>
        ensures { IfOk result (λ numbers. numbers.items ≡ numbers_holding (live self.now) lit) }
    {
        let alloc = self.clause_log.allocator();
        self.clause_log.numbers_holding(alloc, lit)
    }

    /// The live clause of a joint number. Takes O(log n) time.
    pub fn clause(&self, joint: u64) -> Option<ClauseView<'_>>
        ensures { result ≡ fin.get (live self.now) joint }
    {
        self.clause_log.clause(joint)
    }

    /// The joint number that an own number of a seat is bound to, and none for a seat that isn't there.
    pub fn joint(&self, seat: u32, own: u64) -> Option<u64>
        ensures { result ≡ joint_of self.now.tables seat own }
    {
        self.tables.joint(seat, own)
    }

    /// Where its memory comes from.
    pub(crate) fn allocator(&self) -> Global {
        self.clause_log.allocator()
    }

    /// The number of entries in the history. Takes constant time.
    pub fn history_len(&self) -> u64
        ensures { result ≡ length self.now.history }
    {
        self.clause_log.history().len()
    }

    /// A copy of the entry at a place of the history, counted from 0. Takes time linear in its contents, but O(n log n) for
    /// the n literals of a lemma, which are put in order again.
    ///
    /// # Errors
    /// [`NoMemory`] where a growth was refused.
    pub fn entry(&self, place: u64) -> Result<Option<Entry>, NoMemory>
        ensures { IfOk result (λ entry. entry ≡ slice_get self.now.history place) }
    {
        self.clause_log.history().entry(place)
    }

    /// The seat of the entry at a place of the history, counted from 0. Takes constant time.
    pub fn seat_at(&self, place: u64) -> Option<u32>
        ensures { result ≡ option_map (λ e. e.seat) (slice_get self.now.history place) }
    {
        self.clause_log.history().seat(place)
    }

    /// Whether the entry at a place of the history, counted from 0, is this one. Takes time linear in its contents, and
    /// no memory.
    pub fn is_entry(&self, place: u64, entry: &Entry) -> bool
        ensures { IsTrue result ↔ (slice_get self.now.history place ≡ Some entry.now) }
    {
        self.clause_log.history().is_entry(place, entry)
    }

    /// The history.
    pub(crate) fn history(&self) -> &History
        ensures { result.now.entries ≡ self.now.history }
    {
        self.clause_log.history()
    }

    /// The place of the first entry that adds the empty clause. Takes constant time.
    pub fn verdict(&self) -> Option<u64>
        ensures { result ≡ verdict self.now.history }
    {
        self.refuted
    }

    /// The formula, where the history has an empty clause: no assignment satisfies it. Takes time linear in its
    /// clauses, whose literals are shared.
    ///
    /// # Errors
    /// [`NoMemory`] where a growth was refused.
    pub fn verified(&self) -> Result<Option<Verified>, NoMemory>
        ensures some { IfOk result
            (λ verified. is_some verified ≡ is_some (verdict self.now.history)) }
        ensures formula { IfOk result (λ verified. IfSome verified (λ f. f ≡ self.now.formula)) }
        ensures refuted { IfOk result
            (λ verified. is_some verified ≡ refutes self.now.formula (steps_of self.now.history)) }
    {
        if self.refuted.is_none() {
            return Ok(None);
        }
        Ok(Some(Verified::new(self.formula.try_clone()?)))
    }

    /// The steps of the history, in order, by value. Takes no memory: the tables and the live clauses are let go of. Takes time
    /// linear in what is let go of.
    pub fn into_steps(self) -> Steps
        ensures { result ≡ steps_of self.history }
    {
        Steps::new(self.clause_log.into_history())
    }

    /// An addition under the seat's numbers as a case in joint numbers, with copies of the clauses that they name. It can be
    /// tested without the book. Takes time linear in the literals of these clauses.
    ///
    /// # Errors
    /// [`Refusal::SeatGone`], [`Refusal::NumberTaken`], [`Refusal::UnknownNumber`], [`Refusal::GroupRepeated`], and
    /// [`Refusal::NoMemory`] where a growth was refused.
    pub fn take(&self, seat: u32, addition: &Addition) -> Result<Case, Refusal>
        ensures reply { IsReply result (take_reply self.now seat addition.now) }
        ensures refused { IfSome (free_refusal self.now seat addition.now.number)
            (λ e. result ≡ Err e) }
    {
        if !self.tables.is_here(seat) {
            return Err(Refusal::SeatGone);
        }
        if self.tables.is_bound(seat, addition.number) {
            return Err(Refusal::NumberTaken);
        }
        let alloc = self.clause_log.allocator();
        case_of(alloc, &self.tables, &self.clause_log, seat, addition)
    }

    /// Gives own numbers of the seat up. Numbers that it doesn't hold are ignored, and one that stands twice counts
    /// once. The clauses that no seat holds any more die in the same entry. Gives a copy of it where it is wanted.
    ///
    /// # Errors
    /// [`Refusal::SeatGone`], and [`Refusal::NoMemory`] where a growth was refused.
    pub fn drop_numbers(
        &mut self,
        seat: u32,
        numbers: &Numbers,
        wanted: bool,
    ) -> Result<(Dropped, Option<Entry>), Refusal>
        ensures reply { IsReplyBy (λ told. told.0) result (drop_reply self.old seat numbers.now) }
        ensures refused { IfErr (drop_reply self.old seat numbers.now) (λ e. result ≡ Err e) }
        ensures told { IfOk result (λ told. told.1
            ≡ (if wanted then Some (drop_entry self.old seat numbers.now) else None)) }
        ensures ok { OnOk result
            (self.new ≡ after_entry self.old (drop_entry self.old seat numbers.now)) }
        ensures err { OnErr result (self.new ≡ self.old) }
    {
        if !self.tables.is_here(seat) {
            return Err(Refusal::SeatGone);
        }
        let alloc = self.clause_log.allocator();
        let copied = clone_if(wanted, numbers)?;
        let joints = rising(self.tables.joints(alloc, seat, numbers)?);
        self.clause_log.reserve_deaths(numbers.len(), joints.len())?;
        let place = self.clause_log.history().len();
        let count = self.tables.unbind_all(seat, numbers);
        let died = without_holder(&self.tables, joints);
        self.clause_log.push_drop(seat, numbers, &died);
        Ok((Dropped { place, count }, entry_of_drop(seat, copied, died)))
    }
}

/// A copy of the numbers, where it is wanted.
///
/// # Errors
/// [`NoMemory`] where a growth was refused.
fn clone_if(wanted: bool, numbers: &Numbers) -> Result<Option<Numbers>, NoMemory>
    ensures { IfOk result (λ copied. copied ≡ (if wanted then Some numbers.now else None)) }
{
    if !wanted {
        return Ok(None);
    }
    Ok(Some(numbers.try_clone()?))
}

/// The entry of a drop of these numbers, if there are any, by which those died.
fn entry_of_drop(seat: u32, numbers: Option<Numbers>, died: Vec<u64>) -> Option<Entry>
    ensures { result ≡ option_map
        (λ ns. entry_of seat (calls.Drop ns) (if_some died.items)) numbers }
{
    let call = Call::Drop { numbers: numbers? };
    let step = deletion_of(died);
    Some(Entry { seat, call, step })
}

/// The deletion of these numbers, if there are any.
fn deletion_of(numbers: Vec<u64>) -> Option<Step>
    ensures { result ≡ if_some numbers.items }
{
    if numbers.is_empty() {
        return None;
    }
    Some(Step::Delete {
        numbers: Numbers::new(numbers),
    })
}
