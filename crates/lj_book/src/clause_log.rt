//! A history with the clauses that live.
ghost use Rattle.std.specs.Prelude.{◌≡◌, ℕ, ◌+◌, ◌*◌, ◌<◌, ◌≤◌, ◌++◌, ◌∷◌, [], ◌^◌, true, length, OnOk, OnErr, IfOk, IsTrue, ◌↔◌, IfSome, Some, None, option_copied, slice_get, option_map};
ghost use Rattle.std.specs.FinMap as fin;
ghost use Rattle.lj_clause.specs.LiteralSet.{literals};
ghost use Rattle.lj_clause.specs.ClauseMap.{ClauseMap, formula_map};
ghost use Rattle.lj_text.specs.Needed.{if_some};
ghost use Rattle.lj_text.specs.Steps.{without};
ghost use Rattle.lj_book.specs.declared.entry.Call.TheVariants as calls;
ghost use Rattle.lj_book.specs.Lookup.{numbers_holding, least_number, least_part};
ghost use Rattle.lj_book.specs.inner.Records.{binding_call, entry_of, entering_entry};
ghost use Rattle.lj_book.specs.inner.Occurrences.{AreOccurrences, AreListed};
ghost use Rattle.lj_book.specs.inner.FirstUses.{IsSince};
ghost use Rattle.lj_book.specs.inner.Ranges.{pivots};

use crate::entry::Entry;
use crate::first_uses::FirstUses;
use crate::history::History;
use crate::lent_addition::LentAddition;
use crate::lent_clauses::LentClauses;
use crate::lit_range::{LitRange, U32Range, clause_at};
use crate::occurrence_lists::{EMPTY_KEY, OccurrenceLists};
use crate::slot_map::SlotMap;
use crate::stored_clauses::clauses_of;
use lj_clause::{Clause, ClauseView, Formula, Lemma, Lit, NoMemory};
use lj_text::Numbers;
use std::alloc::Global;
use std::marker::Model;

/// So many numbers are looked through for clauses that hold a literal, without its list.
const MOST_ONE_BY_ONE: u64 = 64;

/// A history, and the clauses that live, whose literals stand in it once: those of the formula before all entries, those
/// of an addition with its entry.
#[derive(Drop)]
pub(crate) struct ClauseLog {
    history: History,
    /// Where the literals of each live clause stand.
    ranges: SlotMap<U32Range>,
    /// `None` where they aren't made yet, or a growth was refused: then all clauses are looked through.
    lists: Option<OccurrenceLists>,
    /// The literal whose candidates were looked up, where its list wasn't tended since.
    asked: Option<Lit>,
    uses: FirstUses,
    /// The greatest number that a clause was ever given.
    last: u64,
}

impl Model for ClauseLog {
    ghost use Rattle.lj_book.specs.inner.Codes.{recorded_code};
    ghost use Rattle.lj_book.specs.inner.Ranges.{Recorded, AreRecorded, stored};

    ghost Value = { Recorded };

    ghost coded = { recorded_code };

    ghost view = { λ l. record { history = l.history; live = stored l.history.lits l.ranges } };

    ghost invariant = { λ l. AreRecorded l.history.lits l.ranges l.lists l.uses l.last };
}

impl ClauseLog {
    /// A history of no entries, and the clauses of the formula under their numbers. Takes time linear in the clauses with
    /// their literals.
    ///
    /// # Errors
    /// [`NoMemory`] where a growth was refused.
    pub(crate) fn open(alloc: Global, formula: &Formula) -> Result<ClauseLog, NoMemory>
        ensures entries { IfOk result (λ clause_log. clause_log.history.entries ≡ []) }
        ensures live { IfOk result (λ clause_log. clause_log.live ≡ formula_map formula.now) }
    {
        let (lits, ranges) = clauses_of(alloc, formula)?;
        let mut history = History::over(alloc, lits);
        history.reserve_first()?;
        Ok(ClauseLog {
            history,
            ranges,
            lists: None,
            asked: None,
            uses: FirstUses::new(alloc, formula.variables()),
            last: formula.len() as u64,
        })
    }

    /// What its memory comes from.
    pub(crate) fn allocator(&self) -> Global {
        self.history.allocator()
    }

    /// The history.
    pub(crate) fn history(&self) -> &History
        ensures { result.now ≡ self.now.history }
    {
        &self.history
    }

    /// The history, by value.
    pub(crate) fn into_history(self) -> History
        ensures { result ≡ self.history }
    {
        self.history
    }

    /// The live clauses.
    #[inline]
    fn lent(&self) -> LentClauses<'_>
        ensures { result ≡ self.now.live }
    {
        LentClauses::new(self.history.lits(), &self.ranges)
    }

    /// The live clause of a number.
    #[inline]
    pub(crate) fn clause(&self, number: u64) -> Option<ClauseView<'_>>
        ensures { result ≡ fin.get self.now.live number }
    {
        match self.ranges.get(number) {
            Some(range) => Some(clause_at(self.history.lits(), range)),
            None => None,
        }
    }

    /// Whether a number has a live clause.
    pub(crate) fn is_live(&self, number: u64) -> bool
        ensures { result ≡ fin.contains_key self.now.live number }
    {
        self.ranges.contains_key(number)
    }

    /// Makes the lists of the clauses by their literals, where they aren't made yet and no growth is refused. Takes O(log n)
    /// time for each joint number that was given and each literal of the live clauses, amortized.
    pub(crate) fn make_lists(&mut self)
        ensures { self.new ≡ self.old }
    {
        if self.lists.is_some() {
            return;
        }
        if let Ok(end) = u32::try_from(self.last.saturating_add(1)) {
            let clauses = LentClauses::new(self.history.lits(), &self.ranges);
            self.lists = lists_of(self.history.allocator(), &clauses, end);
        }
    }

    /// Keeps in mind that the candidates of the lemma's pivot were looked up, unless they are found without its list.
    pub(crate) fn keep_in_mind(&mut self, lemma: &Lemma)
        ensures { self.new ≡ self.old }
    {
        if let Some(pivot) = lemma.pivot() {
            let lit = pivot.negated();
            if self.recent(lit).is_none() {
                self.asked = Some(lit);
            }
        }
    }

    /// A number from which on alone clauses hold the literal, where so few numbers follow it that they are soon looked through.
    fn recent(&self, lit: Lit) -> Option<u64>
        ensures { IfSome result (IsSince self.now.live lit) }
    {
        let from = self.uses.since(lit, self.last)?;
        if self.last.saturating_sub(from) > MOST_ONE_BY_ONE {
            return None;
        }
        Some(from)
    }

    /// Makes the lists as [`ClauseLog::make_lists`] does, where candidates were looked up since it was last called, and sweeps the one
    /// in which they were. So who asks passes by no more dead numbers than sixteen or as many as live, beside those that died
    /// since then. That waits for the next test, since what the line at hand takes is let go of by then.
    #[inline]
    pub(crate) fn tend_lists(&mut self)
        ensures { self.new ≡ self.old }
    {
        if let Some(lit) = self.asked {
            self.tend_list(lit);
        }
    }

    /// The same for the literal that was asked for.
    #[inline(never)]
    fn tend_list(&mut self, lit: Lit)
        ensures { self.new ≡ self.old }
    {
        self.asked = None;
        self.make_lists();
        self.sweep_list(lit.index() as u64);
    }

    /// Sweeps the list under a place, if the lists are made. They are given up where a growth was refused.
    fn sweep_list(&mut self, key: u64)
        ensures { self.new ≡ self.old }
    {
        let clauses = LentClauses::new(self.history.lits(), &self.ranges);
        sweep_one(&mut self.lists, key, &clauses);
    }

    /// The numbers of the live clauses that hold the literal, rising. Where its variable is one of the last that came in, takes
    /// time linear in the numbers since then, at most 64; else in the numbers of its list, dead ones among them, where the lists are
    /// made, and otherwise in all clauses.
    ///
    /// # Errors
    /// [`NoMemory`] where a growth was refused.
    pub(crate) fn numbers_holding(&self, alloc: Global, lit: Lit) -> Result<Vec<u64>, NoMemory>
        ensures { IfOk result (λ numbers. numbers.items ≡ numbers_holding self.now.live lit) }
    {
        match self.recent(lit) {
            Some(from) => self.lent().numbers_holding(alloc, lit, from, self.last),
            None => self.listed_holding(alloc, lit),
        }
    }

    /// The same, where the literal's variable may have come in at any time.
    fn listed_holding(&self, alloc: Global, lit: Lit) -> Result<Vec<u64>, NoMemory>
        ensures { IfOk result (λ numbers. numbers.items ≡ numbers_holding self.now.live lit) }
    {
        match &self.lists {
            Some(lists) => lists.living(alloc, lit.index() as u64, &self.lent()),
            None => self.lent().numbers_holding(alloc, lit, 0, self.last),
        }
    }

    /// The least number whose live clause is exactly this one. Takes time linear in the list of that literal of it which has the
    /// shortest, for each of its literals, where the lists are made, and otherwise in all clauses; and sweeps that list.
    pub(crate) fn least_number(&mut self, wanted: &Clause) -> Option<u64>
        ensures least { result ≡ least_number self.old.live wanted.now }
        ensures same { self.new ≡ self.old }
    {
        let Some(lists) = &self.lists else {
            return self.lent().least_number(wanted, self.last);
        };
        let key = lists.shortest_key(wanted);
        let least = lists.first_same(key, &self.lent(), wanted);
        self.sweep_list(key);
        least
    }

    /// The least number whose live clause is a part of this one. Takes time linear in the lists of its literals, where they
    /// are made, O(log n) for each of its n literals there; otherwise in all clauses, with their literals likewise. Sweeps
    /// these lists, and that of the empty clauses, in which it looks too.
    pub(crate) fn least_part(&mut self, wanted: &Clause) -> Option<u64>
        ensures least { result ≡ least_part self.old.live wanted.now }
        ensures same { self.new ≡ self.old }
    {
        let Some(lists) = &self.lists else {
            return self.lent().least_part(wanted, self.last);
        };
        let least = lists.least_part(&self.lent(), wanted);
        self.sweep_lists(wanted);
        least
    }

    /// Sweeps the lists of a clause's literals, and that of the empty clauses.
    fn sweep_lists(&mut self, clause: &Clause)
        ensures { self.new ≡ self.old }
    {
        for lit in clause.lits() {
            self.sweep_list(lit.index() as u64);
        }
        self.sweep_list(EMPTY_KEY);
    }

    /// Takes a seat's addition, or an import that adds its clause, behind the others, and gives the clause the step's number. Takes constant time for each
    /// number, and O(log n) time for the clause and each of its literals, amortized.
    ///
    /// # Errors
    /// [`NoMemory`] where a growth was refused.
    pub(crate) fn add(
        &mut self,
        seat: u32,
        own: u64,
        step: &LentAddition<'_>,
        is_import: bool,
    ) -> Result<(), NoMemory>
        ensures entries { OnOk result (self.new.history.entries ≡ self.old.history.entries
            ++ entering_entry is_import seat own step.now ∷ []) }
        ensures live { OnOk result
            (self.new.live ≡ fin.insert self.old.live step.now.number step.now.lemma.clause) }
        ensures same { OnErr result (self.new.history.entries ≡ self.old.history.entries) }
        ensures lives { OnErr result (self.new.live ≡ self.old.live) }
    {
        self.history.reserve_addition(step)?;
        let range = range_behind(self.history.lits(), step);
        list_clause(&mut self.lists, self.last, step.number, &step.clause);
        if let Err(refused) = self.ranges.insert(step.number, range) {
            self.lists = None;
            return Err(refused);
        }
        self.history.push_addition(seat, own, step, is_import);
        self.uses.add_clause(step.number, self.last, &step.clause);
        if step.number > self.last {
            self.last = step.number;
        }
        Ok(())
    }

    /// Makes room for a drop of so many own numbers, or a leave, by which at most so many joint numbers die.
    ///
    /// # Errors
    /// [`NoMemory`] where a growth was refused.
    pub(crate) fn reserve_deaths(&mut self, given: usize, died: usize) -> Result<(), NoMemory>
        ensures same { self.new.history.entries ≡ self.old.history.entries }
        ensures lives { self.new.live ≡ self.old.live }
        ensures encoding { OnOk result (3 * (3 + given + died) ≤
            self.new.history.encoding_capacity) }
        ensures capacity { OnOk result (0 < self.new.history.entry_capacity) }
    {
        self.history.reserve_deaths(given, died)
    }

    /// Takes a seat's drop of these numbers behind the others, by which the clauses of these joint numbers die. Takes O(log n)
    /// time for each number.
    pub(crate) fn push_drop(&mut self, seat: u32, given: &Numbers, died: &[u64])
        requires encoding { 3 * (3 + length given.now + length died.now)
            ≤ self.old.history.encoding_capacity }
        requires capacity { 0 < self.old.history.entry_capacity }
        ensures entries { self.new.history.entries ≡ self.old.history.entries
            ++ entry_of seat (calls.Drop given.now) (if_some died.now) ∷ [] }
        ensures lives { self.new.live ≡ without self.old.live died.now }
    {
        self.bury(died);
        self.history.push_drop(seat, given, died);
    }

    /// Takes a seat's leave behind the others, by which the clauses of these joint numbers die. Takes O(log n) time for each
    /// number.
    pub(crate) fn push_leave(&mut self, seat: u32, died: &[u64])
        requires encoding { 3 * (2 + length died.now) ≤ self.old.history.encoding_capacity }
        requires capacity { 0 < self.old.history.entry_capacity }
        ensures entries { self.new.history.entries ≡ self.old.history.entries
            ++ entry_of seat calls.Leave (if_some died.now) ∷ [] }
        ensures lives { self.new.live ≡ without self.old.live died.now }
    {
        self.bury(died);
        self.history.push_leave(seat, died);
    }

    /// Makes room for an adoption, or for an import of this clause.
    ///
    /// # Errors
    /// [`NoMemory`] where a growth was refused.
    pub(crate) fn reserve_binding(&mut self, imported: Option<&Clause>) -> Result<(), NoMemory>
        ensures same { self.new.history.entries ≡ self.old.history.entries }
        ensures lives { self.new.live ≡ self.old.live }
        ensures encoding { OnOk result (12 ≤ self.new.history.encoding_capacity) }
        ensures lits { OnOk result (IfSome (option_copied imported.entry)
            (λ clause. length (literals clause) ≤ self.new.history.lit_capacity)) }
        ensures capacity { OnOk result (0 < self.new.history.entry_capacity) }
    {
        self.history.reserve_binding(imported)
    }

    /// Takes a seat's import behind the others where there is a clause, and an adoption otherwise.
    pub(crate) fn push_binding(
        &mut self,
        seat: u32,
        own: u64,
        joint: u64,
        imported: Option<&Clause>,
    )
        requires encoding { 12 ≤ self.old.history.encoding_capacity }
        requires lits { IfSome (option_copied imported)
            (λ clause. length (literals clause) ≤ self.old.history.lit_capacity) }
        requires capacity { 0 < self.old.history.entry_capacity }
        ensures entries { self.new.history.entries ≡ self.old.history.entries
            ++ entry_of seat (binding_call own joint (option_copied imported.entry)) None ∷ [] }
        ensures lives { self.new.live ≡ self.old.live }
    {
        self.history.push_binding(seat, own, joint, imported);
    }

    /// Takes the clauses of these numbers out.
    fn bury(&mut self, numbers: &[u64])
        ensures history { self.new.history ≡ self.old.history }
        ensures lives { self.new.live ≡ without self.old.live numbers.now }
    {
        for &n in numbers {
            self.remove(n);
        }
    }

    /// Takes the clause of a number out. Takes constant time.
    fn remove(&mut self, number: u64)
        ensures history { self.new.history ≡ self.old.history }
        ensures removed { self.new.live ≡ fin.remove self.old.live number }
    {
        let _ = self.ranges.remove(number);
    }
}

/// Where the literals of an addition's clause stand, once it is taken behind these.
#[inline]
fn range_behind(lits: &[Lit], step: &LentAddition<'_>) -> LitRange
    ensures start { result.start ≡ length lits.now + pivots step.now.lemma.pivot }
    ensures count { result.count ≡ length (literals step.now.lemma.clause) }
    ensures few { result.count < 9223372036854775808 }
{
    LitRange {
        start: lits.len() as u64 + u64::from(step.lemma.pivot().is_some()),
        count: step.clause.lits().len() as u64,
    }
}

/// Lists a clause more, whose number isn't listed. The lists are given up where the number isn't beyond all others or
/// takes more than four bytes, and where a growth was refused.
fn list_clause(lists: &mut Option<OccurrenceLists>, last: u64, number: u64, clause: &ClauseView<'_>)
    ensures { (p : ClauseMap) → AreListed lists.old p (last + 1)
        → AreListed lists.new (fin.insert p number clause.now) (number + 1) }
{
    let is_kept = match lists {
        Some(kept) => is_listed(kept, last, number, clause),
        None => return,
    };
    if !is_kept {
        *lists = None;
    }
}

/// Puts the number of a clause into its lists. Answers whether it could be put there; where it couldn't, the lists are
/// of no use.
fn is_listed(lists: &mut OccurrenceLists, last: u64, number: u64, clause: &ClauseView<'_>) -> bool
    ensures { (p : ClauseMap) → AreOccurrences lists.old (fin.get p) (last + 1) → result ≡ true
        → AreOccurrences lists.new (fin.get (fin.insert p number clause.now)) (number + 1) }
{
    if number <= last {
        return false;
    }
    let Ok(narrow) = u32::try_from(number) else {
        return false;
    };
    lists.add_clause(narrow, clause)
}

/// Sweeps the list under a place, if there are lists, which are given up where a growth was refused.
fn sweep_one(lists: &mut Option<OccurrenceLists>, key: u64, clauses: &LentClauses<'_>)
    ensures { (bound : ℕ) → AreListed lists.old clauses.now bound
        → AreListed lists.new clauses.now bound }
{
    let is_kept = match lists {
        Some(kept) => kept.sweep(key, clauses),
        None => return,
    };
    if !is_kept {
        *lists = None;
    }
}

/// The lists of these clauses, each of whose numbers is before the end, if no growth was refused and there aren't too many
/// literals.
fn lists_of(alloc: Global, clauses: &LentClauses<'_>, end: u32) -> Option<OccurrenceLists>
    requires { (n : ℕ) → fin.contains_key clauses.now n ≡ true → n < end }
    ensures { IfSome result (λ lists. AreOccurrences lists (fin.get clauses.now) end) }
{
    let Ok(mut lists) = OccurrenceLists::reserved(alloc) else {
        return None;
    };
    for number in 0..end {
        if let Some(clause) = clauses.get(u64::from(number)) {
            if !lists.add_clause(number, &clause) {
                return None;
            }
        }
    }
    Some(lists)
}
