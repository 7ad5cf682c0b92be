//! Lemmas that hints show to follow from the clauses of a formula.
ghost use Rattle.std.specs.Prelude.{◌≡◌, IfOk};
ghost use Rattle.lj_clause.specs.ClauseMap.{formula_map};
ghost use Rattle.lj_clause.specs.Propagation.{is_rup};

use lj_clause::{ClauseView, Formula, Lemma, NoMemory};
use lj_hint::{Clauses, Ending, Propagator, propagate_first};
use lj_text::Numbers;
use std::alloc::Global;

/// The clauses of a formula under their numbers.
#[derive(Drop)]
pub struct FormulaClauses<'a> {
    pub formula: &'a Formula,
}

impl<'a> Clauses for FormulaClauses<'a> {
    ghost use Rattle.lj_clause.specs.ClauseMap.{formula_map};

    ghost clauses = { λ c. formula_map c.formula.now };

    fn clause(&self, number: u64) -> Option<ClauseView<'_>> {
        match self.formula.clause(number) {
            Some(clause) => Some(clause.view()),
            None => None,
        }
    }
}

/// Whether the hints show by unit propagation that the formula implies the lemma (RUP).
pub fn is_implied(
    alloc: Global,
    formula: &Formula,
    lemma: &Lemma,
    hints: &Numbers,
) -> Result<bool, NoMemory>
    ensures { IfOk result
        (λ yes. yes ≡ is_rup (formula_map formula.now) lemma.now.clause hints.now) }
{
    let clauses = FormulaClauses { formula };
    match propagate_first(&clauses, lemma, hints, &mut Propagator::new(alloc))? {
        Ending::ClosedAfter(_) => Ok(true),
        _ => Ok(false),
    }
}
