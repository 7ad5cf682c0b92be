//! What a seat's own numbers are bound to.
ghost use Rattle.std.specs.Prelude.{◌≡◌, ℕ, Some, None, IfOk, OnOk, OnErr, option_copied};
ghost use Rattle.lj_hint.specs.declared.pair.Pair.{Pair};
ghost use Rattle.lj_share.specs.inner.Seats.{first_pair, own_clause, own_pair, AreGivenUp, AreSamePairs, IsJointSet, IsUpdated};

use crate::bindings::Bindings;
use lj_clause::{Clause, ClauseView, Formula, NoMemory};
use lj_hint::Pair;
use lj_text::Numbers;
use std::alloc::Global;
use std::marker::Model;

/// The clauses that a seat's own numbers are bound to, with their joint numbers. Those of the formula are read there, and literals
/// are shared with the lines that brought them.
///
/// A call takes constant time for a number up to a bound that follows how many there are, and O(log n) time for others.
#[derive(Drop)]
pub(crate) struct OwnClauses {
    /// Whether each number of the opening was given up or bound anew.
    given_up: Vec<bool>,
    /// Those of them that are bound anew.
    rebound: Bindings,
    /// The numbers behind those of the opening, counted from there.
    late: Bindings,
}

impl Model for OwnClauses {
    ghost use Rattle.lj_share.specs.inner.Seats.{OwnValue};
    ghost use Rattle.lj_share.specs.inner.OwnCode.{own_code};

    ghost Value = { OwnValue };

    ghost coded = { own_code };

    ghost view = { λ o. record
        { given_up = o.given_up.items; rebound = o.rebound; late = o.late } };
}

impl OwnClauses {
    /// Those of the formula, under their numbers, which are their joint numbers too. Takes a byte for each of them, and time
    /// linear in these.
    ///
    /// # Errors
    /// [`NoMemory`] where a growth was refused.
    pub(crate) fn new(alloc: Global, formula: &Formula) -> Result<OwnClauses, NoMemory>
        ensures { IfOk result (λ own. (number : ℕ) → own_pair formula.now own number
            ≡ first_pair formula.now number) }
    {
        Ok(OwnClauses {
            given_up: Vec::from_elem(alloc, false, formula.len() + 1)?,
            rebound: Bindings::new(alloc),
            late: Bindings::new(alloc),
        })
    }

    /// The clause of an own number, where the opening's formula is this one.
    #[inline(always)]
    pub(crate) fn clause<'a>(&'a self, formula: &'a Formula, own: u64) -> Option<&'a Clause>
        ensures { option_copied result ≡ own_clause formula.now self.now own }
    {
        let end = self.given_up.len() as u64;
        if own >= end {
            return self.late.clause(own - end);
        }
        if self.given_up[own as usize] {
            return self.rebound.clause(own);
        }
        formula.clause(own)
    }

    /// The same, as a view.
    #[inline(always)]
    pub(crate) fn get<'a>(&'a self, formula: &'a Formula, own: u64) -> Option<ClauseView<'a>>
        ensures { result ≡ own_clause formula.now self.now own }
    {
        match self.clause(formula, own) {
            Some(clause) => Some(clause.view()),
            None => None,
        }
    }

    /// What an own number is bound to, where the opening's formula is this one.
    ///
    /// # Errors
    /// [`NoMemory`] where a growth was refused.
    pub(crate) fn pair(&self, formula: &Formula, own: u64) -> Result<Option<Pair>, NoMemory>
        ensures { IfOk result (λ pair. pair ≡ own_pair formula.now self.now own) }
    {
        let end = self.given_up.len() as u64;
        if own >= end {
            return self.late.pair(own - end);
        }
        if self.given_up[own as usize] {
            return self.rebound.pair(own);
        }
        first_pair(formula, own)
    }

    /// Binds an own number to a clause, whose literals are shared, under the joint number 0 so far.
    ///
    /// # Errors
    /// [`NoMemory`] where a growth was refused.
    pub(crate) fn insert(&mut self, own: u64, clause: &Clause) -> Result<(), NoMemory>
        ensures ok { OnOk result (IsUpdated self.old own
            (Some (record { joint = 0; clause = clause.now })) self.new) }
        ensures err { OnErr result (AreSamePairs self.old self.new) }
    {
        let clause = clause.try_clone()?;
        let end = self.given_up.len() as u64;
        if own >= end {
            return self.late.insert(own - end, clause);
        }
        self.rebound.insert(own, clause)?;
        self.given_up[own as usize] = true;
        Ok(())
    }

    /// Sets the joint number of an own number that was bound under the joint number 0.
    pub(crate) fn set_joint(&mut self, own: u64, joint: u64)
        ensures { IsJointSet self.old own joint self.new }
    {
        let end = self.given_up.len() as u64;
        if own >= end {
            self.late.set_joint(own - end, joint);
            return;
        }
        self.rebound.set_joint(own, joint)
    }

    /// Gives an own number up.
    pub(crate) fn remove(&mut self, own: u64)
        ensures { IsUpdated self.old own None self.new }
    {
        let end = self.given_up.len() as u64;
        if own >= end {
            self.late.remove(own - end);
            return;
        }
        self.rebound.remove(own);
        self.given_up[own as usize] = true;
    }

    /// Gives these own numbers up.
    pub(crate) fn remove_all(&mut self, numbers: &Numbers)
        ensures { AreGivenUp numbers.now self.old self.new }
    {
        for own in numbers.iter() {
            self.remove(own);
        }
    }
}

/// What an own number of the opening is bound to there: the clause of the formula, which has that joint number.
///
/// # Errors
/// [`NoMemory`] where a growth was refused.
fn first_pair(formula: &Formula, own: u64) -> Result<Option<Pair>, NoMemory>
    ensures { IfOk result (λ pair. pair ≡ first_pair formula.now own) }
{
    match formula.clause(own) {
        Some(clause) => Ok(Some(Pair {
            joint: own,
            clause: clause.try_clone()?,
        })),
        None => Ok(None),
    }
}
