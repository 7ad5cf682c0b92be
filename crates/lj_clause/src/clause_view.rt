//! Clauses that are lent.
ghost use Rattle.std.specs.Prelude.{◌≡◌, ◌↔◌, IsTrue, IfOk};
ghost use Rattle.std.specs.List.Sorted.{IsStrictlySortedBy};
ghost use Rattle.lj_clause.specs.Literal.{lit_cmp};
ghost use Rattle.lj_clause.specs.LiteralSet.{holds, literals, from_literals};

use crate::clause::{Clause, are_same, found};
use crate::lit::Lit;
use crate::memory::NoMemory;
use std::alloc::Global;
use std::marker::Model;

/// A clause that is lent: the finite set of its literals.
#[derive(Drop)]
pub struct ClauseView<'a> {
    /// Each literal once, in strict order.
    lits: &'a [Lit],
}

impl<'a> Model for ClauseView<'a> {
    ghost use Rattle.std.specs.List.Sorted.{IsStrictlySortedBy};
    ghost use Rattle.lj_clause.specs.Literal.{lit_cmp};
    ghost use Rattle.lj_clause.specs.LiteralSet.{LiteralSet, from_literals};
    ghost use Rattle.lj_clause.specs.inner.Codes.{literal_set_code};

    ghost Value = { LiteralSet };

    ghost coded = { literal_set_code };

    ghost view = { λ v. from_literals v.lits.now };

    ghost invariant = { λ v. IsStrictlySortedBy lit_cmp v.lits.now };
}

impl<'a> ClauseView<'a> {
    /// The set of these literals, which are in strict order. Takes constant time.
    #[inline]
    pub fn new(lits: &'a [Lit]) -> ClauseView<'a>
        requires { IsStrictlySortedBy lit_cmp lits.now }
        ensures { result ≡ from_literals lits.now }
    {
        ClauseView { lits }
    }

    /// The literals, each once, in their order. Takes constant time.
    #[inline]
    pub fn lits(&self) -> &[Lit]
        ensures { result.now ≡ literals self.now }
    {
        self.lits
    }

    /// Whether the literal is in the clause. Takes O(log n) time.
    pub fn holds(&self, lit: Lit) -> bool
        ensures { result ≡ holds self.now lit }
    {
        found(self.lits, lit)
    }

    /// Whether this is the same set as a clause. Takes O(n) time.
    pub fn same(&self, other: &Clause) -> bool
        ensures { IsTrue result ↔ (self.now ≡ other.now) }
    {
        are_same(self.lits(), other.lits())
    }

    /// A clause of its own with the same literals. Takes O(n) time.
    ///
    /// # Errors
    /// [`NoMemory`] where a growth was refused.
    pub fn to_clause(&self, alloc: Global) -> Result<Clause, NoMemory>
        ensures { IfOk result (λ clause. clause ≡ self.now) }
    {
        Clause::from_rising(alloc, self.lits)
    }
}
