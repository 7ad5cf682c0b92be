//! A proof of one prover, checked over a formula.
ghost use Rattle.std.specs.Prelude.{◌≡◌, true, IfOk};
ghost use Rattle.lj_clause.specs.Truth.{IsUnsatisfiable};

use lj_book::{Book, Refusal, laws};
use lj_clause::Formula;
use lj_hint::Propagator;
use lj_text::Addition;
use std::alloc::Global;

/// Tests additions in order, each over the clauses so far, and tells whether one of them adds the empty clause. The first
/// that doesn't pass is refused.
pub fn is_refuted_by(
    alloc: Global,
    formula: Formula,
    additions: &[Addition],
) -> Result<bool, Refusal>
    ensures { IfOk result (λ yes. yes ≡ true → IsUnsatisfiable formula) }
{
    let mut book = Book::open(alloc, formula, 1, u32::MAX)?;
    let mut propagator = Propagator::new(alloc);
    for addition in additions {
        book.add_inside(0, addition, &mut propagator)?;
    }
    laws::refuted_is_unsatisfiable(&book);
    Ok(book.verdict().is_some())
}
