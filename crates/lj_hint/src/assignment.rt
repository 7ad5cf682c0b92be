//! The literals that a propagation holds true.
ghost use Rattle.std.specs.Prelude.{◌≡◌, ◌<◌, [], filter, not, neg_ℤ, length, take, true, false, OnOk, OnErr, IsOk};
ghost use Rattle.std.specs.Ordering.{eq_by_cmp};
ghost use Rattle.lj_clause.specs.Literal.{lit_cmp};
ghost use Rattle.lj_clause.specs.LiteralSet.{from_literals, holds, with_negations};
ghost use Rattle.lj_clause.specs.Propagation.{is_contradictory};
ghost use Rattle.lj_hint.specs.inner.Trail.{with_assigned, Extends};

use crate::trail::{LentTrail, Trail};
use lj_clause::{Lit, NoMemory};
use std::alloc::Global;
use std::marker::Model;

/// A set of literals, which knows whether it holds a literal and its negation, and can be taken back to what it was.
#[derive(Drop)]
pub(crate) struct Assignment {
    trail: Trail,
    contradictory: bool,
}

impl Model for Assignment {
    ghost use Rattle.std.specs.Prelude.{◌≡◌, List, ℤ};
    ghost use Rattle.lj_clause.specs.LiteralSet.{from_literals};
    ghost use Rattle.lj_clause.specs.Propagation.{is_contradictory};

    ghost Value = { List ℤ };

    ghost view = { λ s. s.trail };

    ghost invariant = { λ s. s.contradictory ≡ is_contradictory (from_literals s.trail) };
}

impl Assignment {
    /// The set without a literal, where the first that come in take this stamp. Takes no memory.
    pub(crate) fn starting_at(alloc: Global, stamp: u32) -> Assignment
        requires { 0 < stamp }
        ensures { result ≡ [] }
    {
        Assignment {
            trail: Trail::starting_at(alloc, stamp),
            contradictory: false,
        }
    }

    /// Takes every literal out.
    pub(crate) fn clear(&mut self)
        ensures { self.new ≡ [] }
    {
        self.trail.clear();
        self.contradictory = false;
    }

    /// The number of literals.
    pub(crate) fn len(&self) -> usize
        ensures { result ≡ length self.now }
    {
        self.trail.len()
    }

    /// Whether the literal is in the set. Takes the time of [`Trail::holds`].
    #[inline]
    pub(crate) fn holds(&self, lit: Lit) -> bool
        ensures { result ≡ holds (from_literals self.now) lit }
    {
        self.trail.holds(lit)
    }

    /// The set, lent to who asks for many literals.
    #[inline(always)]
    pub(crate) fn lent(&self) -> LentTrail<'_>
        ensures { result ≡ self.now }
    {
        self.trail.lent()
    }

    /// Whether a literal and its negation are in the set.
    #[inline]
    pub(crate) fn is_contradictory(&self) -> bool
        ensures { result ≡ is_contradictory (from_literals self.now) }
    {
        self.contradictory
    }

    /// Puts the literal into the set. Takes the time of [`Trail::push`], and no memory where the literal is there already.
    ///
    /// # Errors
    /// [`NoMemory`] where a growth was refused.
    #[inline(always)]
    pub(crate) fn insert(&mut self, lit: Lit) -> Result<(), NoMemory>
        ensures ok { OnOk result (self.new ≡ with_assigned self.old lit) }
        ensures err { OnErr result (self.new ≡ self.old) }
        ensures there { holds (from_literals self.old) lit ≡ true → IsOk result }
    {
        if self.trail.holds(lit) {
            return Ok(());
        }
        let _ = lit.variable();
        if self.trail.holds(lit.negated()) {
            return self.insert_opposed(lit);
        }
        self.trail.push(lit)?;
        Ok(())
    }

    /// Puts a literal into the set that isn't there, but whose negation is, as [`Assignment::insert`] does.
    ///
    /// # Errors
    /// [`NoMemory`] where a growth was refused.
    #[cold]
    #[inline(never)]
    fn insert_opposed(&mut self, lit: Lit) -> Result<(), NoMemory>
        requires absent { holds (from_literals self.old) lit ≡ false }
        requires opposed { holds (from_literals self.old) (neg_ℤ lit) ≡ true }
        ensures ok { OnOk result (self.new ≡ with_assigned self.old lit) }
        ensures err { OnErr result (self.new ≡ self.old) }
    {
        let _ = lit.variable();
        self.trail.push(lit)?;
        self.contradictory = true;
        Ok(())
    }

    /// Puts a literal into the set whose negation isn't there, as [`Assignment::insert`] does.
    ///
    /// # Errors
    /// [`NoMemory`] where a growth was refused.
    #[inline(always)]
    pub(crate) fn insert_unopposed(&mut self, lit: Lit) -> Result<(), NoMemory>
        requires { holds (from_literals self.old) (neg_ℤ lit) ≡ false }
        ensures ok { OnOk result (self.new ≡ with_assigned self.old lit) }
        ensures err { OnErr result (self.new ≡ self.old) }
        ensures contradictory { is_contradictory (from_literals self.new)
            ≡ is_contradictory (from_literals self.old) }
    {
        if self.trail.holds(lit) {
            return Ok(());
        }
        let _ = lit.variable();
        self.trail.push(lit)?;
        Ok(())
    }

    /// Puts the negation of each of these literals into the set. Takes the time of [`Assignment::insert`] for each of them.
    ///
    /// # Errors
    /// [`NoMemory`] where a growth was refused.
    #[inline(always)]
    pub(crate) fn insert_negations(&mut self, lits: &[Lit]) -> Result<(), NoMemory>
        ensures ok { OnOk result
            (from_literals self.new ≡ with_negations (from_literals self.old) lits.now) }
        ensures extends { Extends self.old self.new }
    {
        for lit in lits {
            self.insert(lit.negated())?;
        }
        Ok(())
    }

    /// Puts the negation of each of these literals but one into the set. Takes the time of [`Assignment::insert`] for each
    /// of them.
    ///
    /// # Errors
    /// [`NoMemory`] where a growth was refused.
    pub(crate) fn insert_negations_but(&mut self, lits: &[Lit], but: Lit) -> Result<(), NoMemory>
        ensures ok { OnOk result (from_literals self.new ≡ with_negations (from_literals self.old)
            (filter (λ m. not (eq_by_cmp lit_cmp m but)) lits.now)) }
        ensures extends { Extends self.old self.new }
    {
        for other in lits {
            if *other != but {
                self.insert(other.negated())?;
            }
        }
        Ok(())
    }

    /// Takes the set back to what it was with so many literals, where it held no literal and its negation. Takes the time
    /// of [`Trail::pop`] for each literal that came in since.
    pub(crate) fn take_back(&mut self, len: usize)
        requires { is_contradictory (from_literals (take len self.old)) ≡ false }
        ensures { self.new ≡ take len self.old }
    {
        while self.trail.len() > len {
            self.trail.pop();
        }
        self.contradictory = false;
    }
}
