//! The test of a case whose propagation stayed open.
ghost use Rattle.std.specs.Prelude.{◌≡◌, IfOk, OnOk, Err, None, false};
ghost use Rattle.lj_clause.specs.LiteralSet.{LiteralSet, from_literals};
ghost use Rattle.lj_clause.specs.Propagation.{Open, is_contradictory};
ghost use Rattle.lj_hint.specs.Hints.{named_hints};
ghost use Rattle.lj_hint.specs.Case.{propagation_of, groups_of};
ghost use Rattle.lj_hint.specs.RatTest.{named_groups, rat_reply, IsRatReply};
ghost use Rattle.lj_hint.specs.declared.rat_refusal.RatRefusal.TheVariants.{EmptyOpen};

use crate::assignment::Assignment;
use crate::case::Case;
use crate::covering::first_groups;
use crate::group_list::PairGroups;
use crate::hint_list::PairHints;
use crate::live::Live;
use crate::propagate::{Ending, propagate_negation};
use crate::propagator::Propagator;
use crate::rat::cover;
use crate::rat_refusal::RatRefusal;
use lj_clause::NoMemory;
use lj_text::Groups;

/// The test of a case whose propagation stays open, by resolution asymmetric tautology: the
/// candidates are the live clauses that hold the negation of the lemma's pivot, their hints those of the case. The
/// groups come back by rising candidate, one for each, cut after its closing hint. The propagator may have served any
/// propagation before.
///
/// Takes the time of the first propagation again, O(log c) for each group, with c candidates, and for each candidate constant
/// time for each literal that its propagation reads, or O(log n) where its variable is beyond 2,047 and propagations have
/// held less than half so many literals.
///
/// # Errors
/// [`RatRefusal::EmptyOpen`] for a lemma without a pivot, else that of the first candidate that isn't covered, and
/// [`RatRefusal::NoMemory`] where a growth was refused.
pub fn rat_test<L: Live>(
    live: &L,
    case: &Case,
    propagator: &mut Propagator,
) -> Result<Groups, RatRefusal>
    requires { (a : LiteralSet) × (propagation_of case.now ≡ Open a) }
    ensures reply { (a : LiteralSet) → propagation_of case.now ≡ Open a → IsRatReply result
        (rat_reply (L.clauses live.now) a case.now.lemma.pivot (named_groups case.now.groups)) }
    ensures no_pivot { case.now.lemma.pivot ≡ None → result ≡ Err EmptyOpen }
{
    let Some(pivot) = case.lemma().pivot() else {
        return Err(RatRefusal::EmptyOpen);
    };
    let alloc = case.allocator();
    propagate_again(&mut propagator.lits, case)?;
    let groups = PairGroups {
        groups: case.groups(),
    };
    match cover(alloc, live, &mut propagator.lits, pivot, &groups) {
        Ok(Some(covered)) => Ok(covered),
        Ok(None) => Ok(first_groups(alloc, &groups, case.groups().len())?),
        Err(refusal) => Err(refusal),
    }
}

/// The propagation of a case that stays open, once more.
///
/// # Errors
/// [`NoMemory`] where a growth was refused.
fn propagate_again(assigned: &mut Assignment, case: &Case) -> Result<(), NoMemory>
    requires { (a : LiteralSet) × (propagation_of case.now ≡ Open a) }
    ensures propagated { OnOk result (propagation_of case.now ≡ Open (from_literals assigned.new)) }
    ensures consistent { OnOk result (is_contradictory (from_literals assigned.new) ≡ false) }
{
    let hints = PairHints {
        pairs: case.hints(),
    };
    match propagate_negation(assigned, case.lemma().clause(), &hints)? {
        Ending::StaysOpen => Ok(()),
        _ => unreachable!(),
    }
}
