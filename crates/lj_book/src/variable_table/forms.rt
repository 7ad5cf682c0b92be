//! Whether a seat's clause is a joint one.
ghost use Rattle.std.specs.Prelude.{◌≡◌};
ghost use Rattle.std.specs.List.{list_all};
ghost use Rattle.lj_clause.specs.LiteralSet.{holds};
ghost use Rattle.lj_clause.specs.Renaming.{literal_image};
ghost use Rattle.lj_book.specs.inner.ReceiptForms.{is_joint_form};

use super::VariableTable;
use lj_clause::{Clause, ClauseView, Lit, Renames};

impl VariableTable {
    /// Whether the clause has a joint form, and it is this one. Takes no memory, and time linear in the literals where the
    /// clause has no variable above the formula's. Otherwise takes O(log n) time for each of the n literals, and the time of
    /// [`VariableTable::joint`].
    pub(crate) fn is_joint_form(&self, seat: u32, clause: &Clause, joint: &ClauseView<'_>) -> bool
        ensures { result
            ≡ is_joint_form self.now.top self.now.variables seat clause.now joint.now }
    {
        if self.is_within(clause) {
            return joint.same(clause);
        }
        if !self.is_named(seat, clause) {
            return false;
        }
        if !self.is_own(seat, joint) {
            return false;
        }
        let forth = all_held(joint, clause.lits(), &self.to_joint(seat));
        let back = all_held(&clause.view(), joint.lits(), &self.to_own(seat));
        forth && back
    }
}

/// Whether the clause holds what each of these literals becomes.
fn all_held<R: Renames>(clause: &ClauseView<'_>, lits: &[Lit], renaming: &R) -> bool
    ensures { result
        ≡ list_all (λ l. holds clause.now (literal_image (R.renaming renaming.now) l)) lits.now }
{
    for lit in lits {
        if !clause.holds(lit.renamed(renaming)) {
            return false;
        }
    }
    true
}
