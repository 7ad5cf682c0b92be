//! Formulas that are verified to be unsatisfiable.
ghost use Rattle.std.specs.Prelude.{◌≡◌};
ghost use Rattle.lj_clause.specs.Truth.{IsUnsatisfiable};

use lj_clause::Formula;
use std::marker::Model;

/// A formula that no assignment satisfies. Only [`Book::verified`](crate::Book::verified) makes one.
#[derive(Debug, Drop)]
pub struct Verified {
    formula: Formula,
}

impl Model for Verified {
    ghost use Rattle.lj_clause.specs.ClauseMap.{FormulaValue};
    ghost use Rattle.lj_clause.specs.inner.Codes.{formula_code};
    ghost use Rattle.lj_clause.specs.Truth.{IsUnsatisfiable};

    ghost Value = { FormulaValue };

    ghost coded = { formula_code };

    ghost view = { λ v. v.formula };

    ghost invariant = { λ v. IsUnsatisfiable v.formula };
}

impl Verified {
    /// The formula. Takes constant time.
    pub fn formula(&self) -> &Formula
        ensures formula { result.now ≡ self.now }
        ensures unsatisfiable { IsUnsatisfiable self.now }
    {
        &self.formula
    }

    /// A formula that no assignment satisfies.
    pub(crate) fn new(formula: Formula) -> Verified
        requires { IsUnsatisfiable formula }
        ensures { result ≡ formula }
    {
        Verified { formula }
    }
}
