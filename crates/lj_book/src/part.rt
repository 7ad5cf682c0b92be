//! Clauses that are parts of others.
ghost use Rattle.std.specs.Prelude.{◌≡◌};
ghost use Rattle.lj_clause.specs.Propagation.{is_contradictory};
ghost use Rattle.lj_book.specs.Lookup.{is_part};

use lj_clause::{Clause, ClauseView};

/// Whether each literal of the part is one of the whole. Takes O(log n) time for each literal of it up to the first that
/// isn't one of the n of the whole.
pub(crate) fn is_part(whole: &Clause, part: &ClauseView<'_>) -> bool
    ensures { result ≡ is_part whole.now part.now }
{
    for lit in part.lits() {
        if !whole.holds(*lit) {
            return false;
        }
    }
    true
}

/// Whether the clause holds a literal and its negation. Takes O(log n) time for each of its n literals.
pub(crate) fn is_contradictory(clause: &Clause) -> bool
    ensures { result ≡ is_contradictory clause.now }
{
    for lit in clause.lits() {
        if lit.get() > 0 && clause.holds(lit.negated()) {
            return true;
        }
    }
    false
}
