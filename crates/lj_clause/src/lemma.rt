//! Lemmas.
ghost use Rattle.std.specs.Prelude.{◌≡◌, IfOk, OnOk, OnErr};
ghost use Rattle.lj_clause.specs.Lemma.{lemma_of, IsLemma};
ghost use Rattle.lj_clause.specs.Renaming.{lemma_image};

use crate::clause::Clause;
use crate::lit::Lit;
use crate::memory::NoMemory;
use crate::renames::Renames;
use std::alloc::Global;
use std::marker::Model;

/// A lemma: a clause and its pivot, the first literal as it was written; none if the clause is empty.
#[derive(Debug, Drop)]
pub struct Lemma {
    clause: Clause,
    pivot: Option<Lit>,
}

impl Model for Lemma {
    ghost use Rattle.lj_clause.specs.Lemma.{LemmaValue, IsLemma};
    ghost use Rattle.lj_clause.specs.inner.Codes.{lemma_code};

    ghost Value = { LemmaValue };

    ghost coded = { lemma_code };

    ghost view = { λ l. record { clause = l.clause; pivot = l.pivot } };

    ghost invariant = { λ l. IsLemma (record { clause = l.clause; pivot = l.pivot }) };
}

impl Lemma {
    /// The lemma of these literals, whose pivot is the first of them. Takes O(n log n) time.
    ///
    /// # Errors
    /// [`NoMemory`] where a growth was refused.
    #[inline(always)]
    pub fn from_lits(alloc: Global, lits: &[Lit]) -> Result<Lemma, NoMemory>
        ensures { IfOk result (λ lemma. lemma ≡ lemma_of lits.now) }
    {
        Ok(Lemma {
            clause: Clause::from_lits(alloc, lits)?,
            pivot: lits.first().copied(),
        })
    }

    /// Becomes the lemma of these literals, in the memory that it has, where it can. The list may lose its order. Takes linear
    /// time where more than eight literals stand in order, O(n log n) time where they don't, and constant time for others.
    ///
    /// # Errors
    /// [`NoMemory`] where a growth was refused, and then nothing has changed.
    #[inline(always)]
    pub fn put(&mut self, alloc: Global, lits: &mut Vec<Lit>) -> Result<(), NoMemory>
        ensures ok { OnOk result (self.new ≡ lemma_of lits.old.items) }
        ensures err { OnErr result (self.new ≡ self.old) }
    {
        let pivot = lits.first().copied();
        self.clause.put(alloc, lits)?;
        self.pivot = pivot;
        Ok(())
    }

    /// The set of its literals. Takes constant time.
    pub fn clause(&self) -> &Clause
        ensures clause { result.now ≡ self.now.clause }
        ensures lemma { IsLemma self.now }
    {
        &self.clause
    }

    /// The literal that was written first. Takes constant time.
    pub fn pivot(&self) -> Option<Lit>
        ensures pivot { result ≡ self.now.pivot }
        ensures lemma { IsLemma self.now }
    {
        self.pivot
    }

    /// A lemma of its own with the same literals and pivot. Takes constant time, since it shares the literals.
    ///
    /// # Errors
    /// [`NoMemory`] where a growth was refused.
    pub fn try_clone(&self) -> Result<Lemma, NoMemory>
        ensures { IfOk result (λ lemma. lemma ≡ self.now) }
    {
        Ok(Lemma {
            clause: self.clause.try_clone()?,
            pivot: self.pivot,
        })
    }

    /// The lemma with its variables renamed. Takes the time of [`Clause::renamed`].
    ///
    /// # Errors
    /// [`NoMemory`] where a growth was refused.
    pub fn renamed<R: Renames>(&self, alloc: Global, renaming: &R) -> Result<Lemma, NoMemory>
        ensures { IfOk result (λ lemma. lemma ≡ lemma_image (R.renaming renaming.now) self.now) }
    {
        let pivot = match self.pivot {
            Some(pivot) => Some(pivot.renamed(renaming)),
            None => None,
        };
        Ok(Lemma {
            clause: self.clause.renamed(alloc, renaming)?,
            pivot,
        })
    }
}
