//! Clauses and formulas of literals.
ghost use Rattle.std.specs.Prelude.{◌≡◌, [], ◌∷◌, neg_ℤ, IfOk, IfSome};
ghost use Rattle.std.specs.List.{list_any};
ghost use Rattle.lj_clause.specs.LiteralSet.{holds, literals, from_literals};
ghost use Rattle.lj_clause.specs.ClauseMap.{formula_of};

use lj_clause::{Clause, Formula, Lit, NoMemory};
use std::alloc::Global;

/// Whether a clause holds a literal and its negation.
pub fn is_tautology(clause: &Clause) -> bool
    ensures { result ≡ list_any (λ l. holds clause.now (neg_ℤ l)) (literals clause.now) }
{
    clause.lits().iter().any(|lit| clause.holds(lit.negated()))
}

/// The formula of one clause, where its literals name no variable beyond this one.
pub fn of_one_clause(
    alloc: Global,
    variables: u32,
    lits: &[Lit],
) -> Result<Option<Formula>, NoMemory>
    ensures { IfOk result (λ found. IfSome found
        (λ formula. formula ≡ formula_of variables (from_literals lits.now ∷ []))) }
{
    let mut clauses = Vec::new(alloc);
    clauses.push(Clause::from_lits(alloc, lits)?)?;
    Ok(Formula::new(variables, clauses))
}
