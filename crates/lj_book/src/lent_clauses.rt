//! Live clauses, lent with the list of their literals.
ghost use Rattle.std.specs.Prelude.{◌≡◌, ◌≤◌, ℕ, IfOk, true};
ghost use Rattle.std.specs.FinMap as fin;
ghost use Rattle.lj_book.specs.Lookup.{numbers_holding, least_number, least_part};
ghost use Rattle.lj_book.specs.inner.FirstUses.{IsSince};
ghost use Rattle.lj_book.specs.inner.Ranges.{stored, AreRanges};

use crate::lit_range::{U32Range, clause_at};
use crate::part::is_part;
use crate::slot_map::SlotMap;
use lj_clause::{Clause, ClauseView, Lit, NoMemory};
use std::alloc::Global;
use std::marker::Model;

/// Clauses under their numbers, lent: the list of their literals, and where in it each clause stands.
#[derive(Drop)]
pub(crate) struct LentClauses<'a> {
    lits: &'a [Lit],
    ranges: &'a SlotMap<U32Range>,
}

impl<'a> Model for LentClauses<'a> {
    ghost use Rattle.lj_clause.specs.ClauseMap.{ClauseMap};
    ghost use Rattle.lj_clause.specs.inner.Codes.{clause_map_code};
    ghost use Rattle.lj_book.specs.inner.Ranges.{stored, AreRanges};

    ghost Value = { ClauseMap };

    ghost coded = { clause_map_code };

    ghost view = { λ l. stored l.lits.now l.ranges.now };

    ghost invariant = { λ l. AreRanges l.lits.now l.ranges.now };
}

impl<'a> LentClauses<'a> {
    /// The clauses at these places.
    #[inline]
    pub(crate) fn new(lits: &'a [Lit], ranges: &'a SlotMap<U32Range>) -> LentClauses<'a>
        requires { AreRanges lits.now ranges.now }
        ensures { result ≡ stored lits.now ranges.now }
    {
        LentClauses { lits, ranges }
    }

    /// The clause of a number.
    #[inline]
    pub(crate) fn get(&self, number: u64) -> Option<ClauseView<'_>>
        ensures { result ≡ fin.get self.now number }
    {
        match self.ranges.get(number) {
            Some(range) => Some(clause_at(self.lits, range)),
            None => None,
        }
    }

    /// Whether a number has a clause.
    #[inline]
    pub(crate) fn contains_key(&self, number: u64) -> bool
        ensures { result ≡ fin.contains_key self.now number }
    {
        self.ranges.contains_key(number)
    }

    /// The numbers whose clause holds the literal, rising, where none does before a number, and no clause is behind the last
    /// one. Takes time linear in the numbers between.
    ///
    /// # Errors
    /// [`NoMemory`] where a growth was refused.
    pub(crate) fn numbers_holding(
        &self,
        alloc: Global,
        lit: Lit,
        from: u64,
        last: u64,
    ) -> Result<Vec<u64>, NoMemory>
        requires since { IsSince self.now lit from }
        requires given { (n : ℕ) → fin.contains_key self.now n ≡ true → n ≤ last }
        ensures { IfOk result (λ numbers. numbers.items ≡ numbers_holding self.now lit) }
    {
        let mut numbers = Vec::new(alloc);
        for number in from..=last {
            if let Some(clause) = self.get(number) {
                if clause.holds(lit) {
                    numbers.push(number)?;
                }
            }
        }
        Ok(numbers)
    }

    /// The least number whose clause is exactly this one, where no clause is behind the last one. Takes time linear in the
    /// numbers.
    pub(crate) fn least_number(&self, wanted: &Clause, last: u64) -> Option<u64>
        requires { (n : ℕ) → fin.contains_key self.now n ≡ true → n ≤ last }
        ensures { result ≡ least_number self.now wanted.now }
    {
        for number in 0..=last {
            if let Some(clause) = self.get(number) {
                if clause.same(wanted) {
                    return Some(number);
                }
            }
        }
        None
    }

    /// The least number whose clause is a part of this one, where no clause is behind the last one. Takes time linear in the
    /// numbers.
    pub(crate) fn least_part(&self, wanted: &Clause, last: u64) -> Option<u64>
        requires { (n : ℕ) → fin.contains_key self.now n ≡ true → n ≤ last }
        ensures { result ≡ least_part self.now wanted.now }
    {
        for number in 0..=last {
            if let Some(clause) = self.get(number) {
                if is_part(wanted, &clause) {
                    return Some(number);
                }
            }
        }
        None
    }
}
