//! The book of seats that name their variables above the formula's as they like.
ghost use Rattle.std.specs.Prelude.{◌≡◌, ◌<◌, length, OnOk, OnErr, IfOk, IfErr, IfSome, Err, is_some, option_map, slice_get};
ghost use Rattle.std.specs.FinMap as fin;
ghost use Rattle.lj_text.specs.Steps.{refutes};
ghost use Rattle.lj_book.specs.Lookup.{numbers_holding};
ghost use Rattle.lj_book.specs.Tables.{joint_of};
ghost use Rattle.lj_book.specs.State.{live, steps_of, verdict};
ghost use Rattle.lj_book.specs.Calls.{IsReply, free_refusal, drop_entry, leave_entry};
ghost use Rattle.lj_book.specs.Named.{beneath, names_of, named_opening, after_named};
ghost use Rattle.lj_book.specs.NamedViews.{named_take};
ghost use Rattle.lj_book.specs.NamedReplies.{named_drop, named_leave};

mod binding;
mod closed;
mod committing;
mod entries;
mod inside;
pub mod laws;
mod playing;
mod with_entry;

use crate::entry::Dropped;
use crate::joint_book::JointBook;
use crate::joint_book::laws::history_is_legal;
use crate::refusal::Refusal;
use crate::steps::Steps;
use crate::variable_table::VariableTable;
use crate::verified::Verified;
use lj_clause::{ClauseView, Formula, Lit, NoMemory};
use lj_hint::Case;
use lj_text::{Addition, Numbers};
use std::alloc::Global;
use std::marker::Model;

/// A book of live clauses, whose seats name their variables above the formula's as they like.
///
/// A seat's additions and imports, and the calls in entries, speak the seat's variables. Steps and live clauses speak joint
/// ones: a lemma that enters gives a joint variable to each of its own that has none yet.
#[derive(Drop)]
pub struct Book {
    /// The book in joint variables.
    joint: JointBook,
    variables: VariableTable,
}

impl Model for Book {
    ghost use Rattle.lj_book.specs.Named.{NamedState, named_over};
    ghost use Rattle.lj_book.specs.inner.Codes.{named_state_code};
    ghost use Rattle.lj_book.specs.inner.Over.{IsOver};

    ghost Value = { NamedState };

    ghost coded = { named_state_code };

    ghost view = { λ b. named_over b.joint b.variables.variables };

    ghost invariant = { λ b. IsOver b.joint b.variables };
}

impl Book {
    /// A new book for so many seats, each of which holds the clauses of the formula under their numbers, and has no variable
    /// above the formula's. Its history takes at most `max_steps` additions. Takes time linear in the clauses of the formula
    /// with their literals, and constant time for each seat; but O(M log M) time for M clauses from 255 seats on, and for
    /// those of them that begin behind 4,294,967,295 literals.
    ///
    /// # Errors
    /// [`NoMemory`] where a growth was refused.
    pub fn open(
        alloc: Global,
        formula: Formula,
        seats: u32,
        max_steps: u32,
    ) -> Result<Book, NoMemory>
        requires { 0 < seats }
        ensures { IfOk result (λ book. book ≡ named_opening formula seats max_steps) }
    {
        let variables = VariableTable::new(alloc, formula.variables(), seats)?;
        let joint = JointBook::open(alloc, formula, seats, max_steps)?;
        Ok(Book { joint, variables })
    }

    /// The formula that the book was opened with. Takes constant time.
    pub fn formula(&self) -> &Formula
        ensures { result.now ≡ self.now.formula }
    {
        self.joint.formula()
    }

    /// The numbers of the live clauses that hold a literal in joint variables, rising. Once an import has asked for clauses by
    /// their literals, or [`Book::add_inside`] has tested an addition behind one that had asked, takes time linear in them and
    /// in those that died since one asked for this literal; before, in all joint numbers that were given, and O(log n) for
    /// each live clause.
    ///
    /// # Errors
    /// [`NoMemory`] where a growth was refused.
    pub fn candidates(&self, lit: Lit) -> Result<Vec<u64>, NoMemory>
        ensures { IfOk result
            (λ numbers. numbers.items ≡ numbers_holding (live (beneath self.now)) lit) }
    {
        self.joint.candidates(lit)
    }

    /// The live clause of a joint number, in joint variables. Takes O(log n) time.
    pub fn clause(&self, joint: u64) -> Option<ClauseView<'_>>
        ensures { result ≡ fin.get (live (beneath self.now)) joint }
    {
        self.joint.clause(joint)
    }

    /// The joint number that an own number of a seat is bound to, and none for a seat that isn't there. Takes constant
    /// time for a number up to a bound that follows how many are bound, and O(log n) time for others.
    pub fn joint(&self, seat: u32, own: u64) -> Option<u64>
        ensures { result ≡ joint_of self.now.tables seat own }
    {
        self.joint.joint(seat, own)
    }

    /// The joint variable of a seat's own one above the formula's; none for one of the formula's, one that the seat was not
    /// given, and for no seat. Takes constant time for a variable up to a bound that follows how many the seat was given, and
    /// O(log n) time for others.
    pub fn variable(&self, seat: u32, own: u32) -> Option<u32>
        ensures { result ≡ fin.get (names_of self.now seat) own }
    {
        self.variables.joint(seat, own)
    }

    /// The number of entries in the history. Takes constant time.
    pub fn history_len(&self) -> u64
        ensures { result ≡ length self.now.history }
    {
        self.joint.history_len()
    }

    /// The seat of the entry at a place of the history, counted from 0. Takes constant time.
    pub fn seat_at(&self, place: u64) -> Option<u32>
        ensures { result ≡ option_map (λ e. e.seat) (slice_get self.now.history place) }
    {
        self.joint.seat_at(place)
    }

    /// The place of the first entry that adds the empty clause. Takes constant time.
    pub fn verdict(&self) -> Option<u64>
        ensures { result ≡ verdict self.now.history }
    {
        self.joint.verdict()
    }

    /// The formula, where the history has an empty clause: no assignment satisfies it. Takes time linear in its
    /// clauses, whose literals are shared.
    ///
    /// # Errors
    /// [`NoMemory`] where a growth was refused.
    pub fn verified(&self) -> Result<Option<Verified>, NoMemory>
        ensures some { IfOk result
            (λ verified. is_some verified ≡ is_some (verdict self.now.history)) }
        ensures formula { IfOk result (λ verified. IfSome verified (λ f. f ≡ self.now.formula)) }
        ensures refuted { IfOk result
            (λ verified. is_some verified ≡ refutes self.now.formula (steps_of self.now.history)) }
    {
        self.joint.verified()
    }

    /// The steps of the history, in order, by value. Takes no memory: the tables and the live clauses are let go of. Takes time
    /// linear in what is let go of.
    pub fn into_steps(self) -> Steps
        ensures { result ≡ steps_of self.history }
    {
        let Book {
            joint,
            variables: _,
        } = self;
        joint.into_steps()
    }

    /// An addition under the seat's numbers and in its variables as a case in joint numbers, with copies of the clauses that
    /// they name, in the seat's variables. It can be tested without the book. Takes time linear in the
    /// literals of these clauses, and where the seat was given variables, O(n log n) time for n of them.
    ///
    /// # Errors
    /// [`Refusal::SeatGone`], [`Refusal::NumberTaken`], [`Refusal::UnknownNumber`], [`Refusal::GroupRepeated`], and
    /// [`Refusal::NoMemory`] where a growth was refused.
    pub fn take(&self, seat: u32, addition: &Addition) -> Result<Case, Refusal>
        ensures reply { IsReply result (named_take self.now seat addition.now) }
        ensures refused { IfSome (free_refusal (beneath self.now) seat addition.now.number)
            (λ e. result ≡ Err e) }
    {
        if !self.variables.is_any_given() {
            return self.joint.take(seat, addition);
        }
        let mut case = self.joint.take(seat, addition)?;
        case.rename_hints(&self.variables.to_own(seat))?;
        Ok(case)
    }

    /// Gives own numbers of the seat up. Numbers that it doesn't hold are ignored, and one that stands twice counts
    /// once. The clauses that no seat holds any more die in the same entry. The seat's variables stay given. Takes
    /// O(log n) time for each number, amortized, and in all drops of a seat together constant time for each 64 clauses of
    /// the formula.
    ///
    /// # Errors
    /// [`Refusal::SeatGone`], and [`Refusal::NoMemory`] where a growth was refused.
    pub fn drop_numbers(&mut self, seat: u32, numbers: &Numbers) -> Result<Dropped, Refusal>
        ensures reply { IsReply result (named_drop self.old seat numbers.now) }
        ensures refused { IfErr (named_drop self.old seat numbers.now) (λ e. result ≡ Err e) }
        ensures ok { OnOk result (self.new
            ≡ after_named self.old (drop_entry (beneath self.old) seat numbers.now)) }
        ensures err { OnErr result (self.new ≡ self.old) }
    {
        match self.drop_with_entry(seat, numbers, false) {
            Ok((dropped, _entry)) => Ok(dropped),
            Err(refusal) => Err(refusal),
        }
    }

    /// Ends the bindings of a seat, which is then gone. The clauses that no seat holds any more die in the same entry,
    /// whose place in the history is the answer. The seat's variables stay given. Takes O(log n) time for each
    /// binding, and time linear in the clauses of the formula and in how often the seat has bound a number.
    ///
    /// # Errors
    /// [`Refusal::SeatGone`], and [`Refusal::NoMemory`] where a growth was refused.
    pub fn leave(&mut self, seat: u32) -> Result<u64, Refusal>
        ensures reply { IsReply result (named_leave self.old seat) }
        ensures refused { IfErr (named_leave self.old seat) (λ e. result ≡ Err e) }
        ensures ok { OnOk result
            (self.new ≡ after_named self.old (leave_entry (beneath self.old) seat)) }
        ensures err { OnErr result (self.new ≡ self.old) }
    {
        match self.leave_with_entry(seat) {
            Ok((place, _entry)) => Ok(place),
            Err(refusal) => Err(refusal),
        }
    }
}
