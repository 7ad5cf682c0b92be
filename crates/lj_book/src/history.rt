//! The history of a book.
ghost use Rattle.std.specs.Prelude.{◌≡◌, ◌≢◌, ◌↔◌, ◌+◌, ◌*◌, ◌<◌, ◌≤◌, ◌++◌, ◌∷◌, [], ◌^◌, length, IfOk, OnOk, OnErr, IsTrue, IfSome, IfNone, Some, None, option_copied, slice_get, option_map};
ghost use Rattle.lj_clause.specs.LiteralSet.{LiteralSet, literals};
ghost use Rattle.lj_text.specs.declared.step.Step.TheVariants.{Add};
ghost use Rattle.lj_text.specs.Needed.{if_some, up_to_empty};
ghost use Rattle.lj_text.specs.StepText.{proof_text};
ghost use Rattle.lj_text.specs.Writing.{IsBeginning, IsCutShort};
ghost use Rattle.lj_book.specs.State.{steps_of};
ghost use Rattle.lj_book.specs.declared.entry.Call.TheVariants as calls;
ghost use Rattle.lj_book.specs.Calls.{binding_entry};
ghost use Rattle.lj_book.specs.inner.Records.{lemma_lits, addition_numbers, binding_call, binding_lits, entry_of, entering_kind, entering_call, entering_entry};

mod lines;
mod matching;
mod reading;
mod writing;

use crate::entry::Entry;
use crate::lent_addition::LentAddition;
use lines::write_entries;
use lj_clause::{Clause, ClauseView, Lit, NoMemory};
use lj_text::{Addition, Numbers, Sink, SinkFault, Step, TokenWriter};
use reading::{encoding_at, encoding_from};
use std::alloc::Global;
use std::marker::Model;
use writing::{put_addition, put_adopt, put_drop, put_import, put_leave};

/// How many kinds of entries the first number of one tells apart. The seat is multiplied by it there.
const KINDS: u64 = 8;

const ADDITION: u64 = 0;

const DROP: u64 = 1;

const ADOPT: u64 = 2;

const IMPORT: u64 = 3;

const LEAVE: u64 = 4;

/// An import by a part of its clause, which it adds.
const PART: u64 = 5;

/// How many words and literals have room from the opening on: in so much memory, each list stands apart from others.
const FIRST_ENCODING: usize = 33_000;

/// The entries of a history, the oldest first, as words of four bytes and literals.
#[derive(Debug, Drop)]
pub(crate) struct History {
    encoding: Vec<u32>,
    lits: Vec<Lit>,
    /// Where the words of each entry begin.
    starts: Vec<u64>,
}

impl Model for History {
    ghost use Rattle.std.specs.Prelude.{◌-◌, vec_len, vec_capacity};
    ghost use Rattle.lj_book.specs.inner.Codes.{entries_code};
    ghost use Rattle.lj_book.specs.inner.Records.{Entries, AreWritten, entries_in};

    ghost Value = { Entries };

    ghost coded = { entries_code };

    ghost view = { λ h. record {
      entries = entries_in h.lits.items h.encoding.items h.starts.items;
      lits = h.lits.items;
      encoding_capacity = vec_capacity h.encoding - vec_len h.encoding;
      lit_capacity = vec_capacity h.lits - vec_len h.lits;
      entry_capacity = vec_capacity h.starts - vec_len h.starts;
    } };

    ghost invariant = { λ h. AreWritten h.lits.items h.encoding.items h.starts.items };
}

impl History {
    /// A history of no entries, behind whose literals those of its entries will stand. Takes no memory.
    pub(crate) fn over(alloc: Global, lits: Vec<Lit>) -> History
        ensures entries { result.entries ≡ [] }
        ensures lits { result.lits ≡ lits.items }
    {
        History {
            encoding: Vec::new(alloc),
            lits,
            starts: Vec::new(alloc),
        }
    }

    /// The literals of its entries, behind those that stood there before them.
    #[inline]
    pub(crate) fn lits(&self) -> &[Lit]
        ensures { result.now ≡ self.now.lits }
    {
        &self.lits
    }

    /// What its memory comes from.
    pub(crate) fn allocator(&self) -> Global {
        *self.encoding.allocator()
    }

    /// The number of entries.
    pub(crate) fn len(&self) -> u64
        ensures len { result ≡ length self.now.entries }
        ensures few { result < 2 ^ 63 }
    {
        self.starts.len() as u64
    }

    /// Makes room for one more entry, of so many numbers and literals.
    ///
    /// # Errors
    /// [`NoMemory`] where a growth was refused.
    #[inline(always)]
    fn reserve(&mut self, numbers: usize, lits: usize) -> Result<(), NoMemory>
        ensures same { self.new.entries ≡ self.old.entries }
        ensures kept { self.new.lits ≡ self.old.lits }
        ensures encoding { OnOk result (3 * numbers ≤ self.new.encoding_capacity) }
        ensures few { self.new.encoding_capacity < 2 ^ 63 }
        ensures lits { OnOk result (lits ≤ self.new.lit_capacity) }
        ensures capacity { OnOk result (0 < self.new.entry_capacity) }
    {
        self.encoding.reserve(numbers.saturating_mul(3))?;
        self.lits.reserve(lits)?;
        self.starts.reserve(1)?;
        Ok(())
    }

    /// Makes room for the first entries, in memory that the system makes page by page as it is written: so the lists don't leave
    /// shorter ones behind while they grow.
    ///
    /// # Errors
    /// [`NoMemory`] where a growth was refused.
    pub(crate) fn reserve_first(&mut self) -> Result<(), NoMemory>
        ensures same { self.new.entries ≡ self.old.entries }
        ensures kept { self.new.lits ≡ self.old.lits }
    {
        self.reserve(FIRST_ENCODING / 3, FIRST_ENCODING)
    }

    /// Makes room for an addition.
    ///
    /// # Errors
    /// [`NoMemory`] where a growth was refused.
    pub(crate) fn reserve_addition(&mut self, step: &LentAddition<'_>) -> Result<(), NoMemory>
        ensures same { self.new.entries ≡ self.old.entries }
        ensures kept { self.new.lits ≡ self.old.lits }
        ensures encoding { OnOk result (3 * addition_numbers step.now ≤
            self.new.encoding_capacity) }
        ensures lits { OnOk result (length (lemma_lits step.now.lemma) ≤ self.new.lit_capacity) }
        ensures capacity { OnOk result (0 < self.new.entry_capacity) }
    {
        let numbers = numbers_of(step);
        self.reserve(
            numbers,
            step.clause.lits().len() + usize::from(step.lemma.pivot().is_some()),
        )
    }

    /// Makes room for a drop of so many own numbers, or a leave, by which at most so many joint numbers die.
    ///
    /// # Errors
    /// [`NoMemory`] where a growth was refused.
    pub(crate) fn reserve_deaths(&mut self, given: usize, died: usize) -> Result<(), NoMemory>
        ensures same { self.new.entries ≡ self.old.entries }
        ensures kept { self.new.lits ≡ self.old.lits }
        ensures encoding { OnOk result (3 * (3 + given + died) ≤ self.new.encoding_capacity) }
        ensures capacity { OnOk result (0 < self.new.entry_capacity) }
    {
        self.reserve(given.saturating_add(died).saturating_add(3), 0)
    }

    /// Makes room for an adoption, or for an import of this clause.
    ///
    /// # Errors
    /// [`NoMemory`] where a growth was refused.
    pub(crate) fn reserve_binding(&mut self, imported: Option<&Clause>) -> Result<(), NoMemory>
        ensures same { self.new.entries ≡ self.old.entries }
        ensures kept { self.new.lits ≡ self.old.lits }
        ensures encoding { OnOk result (12 ≤ self.new.encoding_capacity) }
        ensures lits { OnOk result (IfSome (option_copied imported.entry)
            (λ clause. length (literals clause) ≤ self.new.lit_capacity)) }
        ensures capacity { OnOk result (0 < self.new.entry_capacity) }
    {
        let lits = match imported {
            Some(clause) => clause.lits().len(),
            None => 0,
        };
        self.reserve(4, lits)
    }

    /// Takes a seat's addition, or an import that adds its clause, behind the others.
    pub(crate) fn push_addition(
        &mut self,
        seat: u32,
        own: u64,
        step: &LentAddition<'_>,
        is_import: bool,
    )
        requires encoding { 3 * addition_numbers step.now ≤ self.old.encoding_capacity }
        requires lits { length (lemma_lits step.now.lemma) ≤ self.old.lit_capacity }
        requires capacity { 0 < self.old.entry_capacity }
        ensures entries { self.new.entries ≡ self.old.entries
            ++ entering_entry is_import seat own step.now ∷ [] }
        ensures lits { self.new.lits ≡ self.old.lits ++ lemma_lits step.now.lemma }
    {
        let _ = step.lemma.pivot();
        let start = self.encoding.len() as u64;
        put_addition(
            &mut self.encoding,
            &mut self.lits,
            seat,
            own,
            step,
            is_import,
        );
        self.starts.push_reserved(start);
    }

    /// Takes a seat's drop of these numbers behind the others, by which these joint numbers died. Takes time linear in
    /// the numbers of both.
    pub(crate) fn push_drop(&mut self, seat: u32, given: &Numbers, died: &[u64])
        requires encoding { 3 * (3 + length given.now + length died.now) ≤
            self.old.encoding_capacity }
        requires capacity { 0 < self.old.entry_capacity }
        ensures entries { self.new.entries ≡ self.old.entries
            ++ entry_of seat (calls.Drop given.now) (if_some died.now) ∷ [] }
        ensures lits { self.new.lits ≡ self.old.lits }
    {
        let start = self.encoding.len() as u64;
        put_drop(&mut self.encoding, seat, given, died);
        self.starts.push_reserved(start);
    }

    /// Takes a seat's adoption behind the others.
    fn push_adopt(&mut self, seat: u32, own: u64, joint: u64)
        requires encoding { 9 ≤ self.old.encoding_capacity }
        requires capacity { 0 < self.old.entry_capacity }
        ensures entries { self.new.entries ≡ self.old.entries
            ++ entry_of seat (calls.Adopt own joint) None ∷ [] }
        ensures lits { self.new.lits ≡ self.old.lits }
    {
        let start = self.encoding.len() as u64;
        put_adopt(&mut self.encoding, seat, own, joint);
        self.starts.push_reserved(start);
    }

    /// Takes a seat's import behind the others.
    fn push_import(&mut self, seat: u32, own: u64, clause: &Clause)
        requires encoding { 12 ≤ self.old.encoding_capacity }
        requires lits { length (literals clause.now) ≤ self.old.lit_capacity }
        requires capacity { 0 < self.old.entry_capacity }
        ensures entries { self.new.entries ≡ self.old.entries
            ++ entry_of seat (calls.Import own clause.now) None ∷ [] }
        ensures lits { self.new.lits ≡ self.old.lits ++ literals clause.now }
    {
        let start = self.encoding.len() as u64;
        put_import(&mut self.encoding, &mut self.lits, seat, own, clause);
        self.starts.push_reserved(start);
    }

    /// Takes a seat's import behind the others where there is a clause, and an adoption otherwise. Takes time linear in
    /// the clause's literals, and constant time for an adoption.
    pub(crate) fn push_binding(
        &mut self,
        seat: u32,
        own: u64,
        joint: u64,
        imported: Option<&Clause>,
    )
        requires encoding { 12 ≤ self.old.encoding_capacity }
        requires lits { IfSome (option_copied imported)
            (λ clause. length (literals clause) ≤ self.old.lit_capacity) }
        requires capacity { 0 < self.old.entry_capacity }
        ensures entries { self.new.entries ≡ self.old.entries
            ++ entry_of seat (binding_call own joint (option_copied imported.entry)) None ∷ [] }
        ensures lits { self.new.lits
            ≡ self.old.lits ++ binding_lits (option_copied imported.entry) }
    {
        match imported {
            Some(clause) => self.push_import(seat, own, clause),
            None => self.push_adopt(seat, own, joint),
        }
    }

    /// Takes a seat's leave behind the others, by which these joint numbers died. Takes time linear in these numbers.
    pub(crate) fn push_leave(&mut self, seat: u32, died: &[u64])
        requires encoding { 3 * (2 + length died.now) ≤ self.old.encoding_capacity }
        requires capacity { 0 < self.old.entry_capacity }
        ensures entries { self.new.entries ≡ self.old.entries
            ++ entry_of seat calls.Leave (if_some died.now) ∷ [] }
        ensures lits { self.new.lits ≡ self.old.lits }
    {
        let start = self.encoding.len() as u64;
        put_leave(&mut self.encoding, seat, died);
        self.starts.push_reserved(start);
    }

    /// A copy of the entry at a place, counted from 0. Takes time linear in its contents, but O(n log n) for the n literals
    /// of a lemma, which are put in order again.
    ///
    /// # Errors
    /// [`NoMemory`] where a growth was refused.
    pub(crate) fn entry(&self, place: u64) -> Result<Option<Entry>, NoMemory>
        ensures { IfOk result (λ entry. entry ≡ slice_get self.now.entries place) }
    {
        match encoding_at(&self.starts, &self.encoding, place) {
            Some(encoding) => Ok(Some(reading::entry(self.allocator(), &self.lits, encoding)?)),
            None => Ok(None),
        }
    }

    /// Copies of the steps of the entries, in order. Takes time linear in the contents of the entries, but O(n log n) for
    /// the n literals of a lemma, which are put in order again, and no memory where there is no step.
    ///
    /// # Errors
    /// [`NoMemory`] where a growth was refused.
    pub(crate) fn steps(&self) -> Result<Vec<Step>, NoMemory>
        ensures same { IfOk result (λ v. v.items ≡ steps_of self.now.entries) }
        ensures some { OnErr result (steps_of self.now.entries ≢ []) }
    {
        let alloc = self.allocator();
        let mut steps = Vec::new(alloc);
        for start in &self.starts {
            let encoding = encoding_from(&self.encoding, *start);
            if let Some(step) = reading::entry_step(alloc, &self.lits, encoding)? {
                steps.push(step)?;
            }
        }
        Ok(steps)
    }

    /// Writes the lines of the steps, up to and including the first addition of the empty clause, and gives the sink all of
    /// them. The formula has so many clauses. Takes time linear in the literals and numbers of the entries, and no memory.
    ///
    /// # Errors
    /// [`SinkFault`] where a write of the sink failed: it has taken a beginning of the text.
    pub(crate) fn write_up_to_empty<W: Sink>(
        &self,
        sink: &mut W,
        clauses: u64,
    ) -> Result<(), SinkFault>
        requires { W.failures sink.old ≡ 0 }

        ensures taken { OnOk result (W.taken sink.new ≡ W.taken sink.old
            ++ proof_text clauses (up_to_empty (steps_of self.now.entries))) }
        ensures ok { OnOk result (W.failures sink.new ≡ W.failures sink.old) }

        ensures cut_short { OnErr result (IsCutShort (W.taken sink.new) (W.taken sink.old
            ++ proof_text clauses (up_to_empty (steps_of self.now.entries)))) }
        ensures onward { OnErr result (IsBeginning (W.taken sink.old) (W.taken sink.new)) }
        ensures err { OnErr result (W.failures sink.new ≡ W.failures sink.old + 1) }
    {
        let mut writer = TokenWriter::new();
        write_entries(
            &mut writer,
            sink,
            clauses,
            &self.lits,
            &self.encoding,
            &self.starts,
        );
        writer.finish(sink)
    }

    /// The seat of the entry at a place, counted from 0.
    pub(crate) fn seat(&self, place: u64) -> Option<u32>
        ensures { result ≡ option_map (λ e. e.seat) (slice_get self.now.entries place) }
    {
        match encoding_at(&self.starts, &self.encoding, place) {
            Some(encoding) => Some(reading::seat(encoding)),
            None => None,
        }
    }

    /// Whether the entry at a place, counted from 0, is this one. Takes time linear in its contents, and no memory.
    pub(crate) fn is_entry(&self, place: u64, entry: &Entry) -> bool
        ensures { IsTrue result ↔ (slice_get self.now.entries place ≡ Some entry.now) }
    {
        match encoding_at(&self.starts, &self.encoding, place) {
            Some(encoding) => matching::is_entry(&self.lits, encoding, entry),
            None => false,
        }
    }

    /// Whether the entry at a place, counted from 0, is that of the seat's addition under its own number by this step, or of its
    /// import that adds its clause so. Takes time linear in its contents, and no memory.
    pub(crate) fn is_line(
        &self,
        place: u64,
        seat: u32,
        own: u64,
        addition: &Addition,
        is_import: bool,
    ) -> bool
        ensures { IsTrue result ↔ (slice_get self.now.entries place
            ≡ Some (entering_entry is_import seat own addition.now)) }
    {
        match encoding_at(&self.starts, &self.encoding, place) {
            Some(encoding) => {
                matching::is_line(&self.lits, encoding, seat, own, addition, is_import)
            }
            None => false,
        }
    }

    /// The clause of the seat's import under its own number, if the entry at a place, counted from 0, is one without a step.
    pub(crate) fn imported(&self, place: u64, seat: u32, own: u64) -> Option<ClauseView<'_>>
        ensures some { IfSome result
            (λ c. slice_get self.now.entries place
            ≡ Some (binding_entry seat (calls.Import own c))) }
        ensures none { IfNone result ((c : LiteralSet)
            → slice_get self.now.entries place ≡ Some (binding_entry seat (calls.Import own c))
            → ⊥) }
    {
        match encoding_at(&self.starts, &self.encoding, place) {
            Some(encoding) => matching::imported(&self.lits, encoding, seat, own),
            None => None,
        }
    }
}

/// The kind of the entry by which a lemma enters.
#[inline(always)]
fn entering_kind(is_import: bool) -> u64
    ensures { result ≡ entering_kind is_import }
{
    if is_import { PART } else { ADDITION }
}

/// How many numbers an addition is written as, or the greatest number where they are more.
#[inline]
fn numbers_of(step: &LentAddition<'_>) -> usize
    ensures { result < 2 ^ 63 → addition_numbers step.now ≤ result }
{
    let mut count = step.hints.len().saturating_add(7);
    for group in step.groups.iter() {
        count = count.saturating_add(group.hints.len()).saturating_add(2);
    }
    count
}
