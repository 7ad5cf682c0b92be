//! Whether two lemmas have the same contents.
ghost use Rattle.std.specs.Prelude.{◌≡◌, ◌↔◌, IsTrue};

use lj_clause::{Lemma, Lit};

/// Whether the two lemmas are equal.
pub(crate) fn same_lemma(lemma: &Lemma, other: &Lemma) -> bool
    ensures { IsTrue result ↔ (lemma.now ≡ other.now) }
{
    lemma.pivot() == other.pivot() && lemma.clause().same(other.clause())
}

/// Whether the two pivots are equal.
pub(crate) fn same_pivot(pivot: Option<Lit>, other: Option<Lit>) -> bool
    ensures { IsTrue result ↔ (pivot ≡ other) }
{
    pivot == other
}
