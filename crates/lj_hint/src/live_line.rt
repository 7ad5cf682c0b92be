//! The test of a line in joint numbers, over the live clauses.
ghost use Rattle.std.specs.Prelude.{◌≡◌, false};
ghost use Rattle.lj_clause.specs.LiteralSet.{from_literals, negations};
ghost use Rattle.lj_clause.specs.Propagation.{propagate, is_contradictory};
ghost use Rattle.lj_clause.specs.Rat.{groups_in};
ghost use Rattle.lj_hint.specs.RatTest.{rat_reply};
ghost use Rattle.lj_hint.specs.inner.Coverings.{IsCovering};
ghost use Rattle.lj_hint.specs.LineTest.{line_reply, IsLineReply};

use crate::assignment::Assignment;
use crate::first_propagation::propagate_numbers;
use crate::live::{Live, LiveGroups};
use crate::propagate::Ending;
use crate::propagator::Propagator;
use crate::rat::cover;
use crate::rat_refusal::RatRefusal;
use lj_clause::{Lemma, Lit, NoMemory};
use lj_text::{Groups, IndexedGroups, Numbers};
use std::alloc::Global;

/// How the test of a line passed.
#[derive(Debug, Drop)]
pub enum Passed {
    /// Its first list closed the propagation of the lemma's negation, after so many hints.
    Closed(usize),
    /// The propagation stayed open, and its groups cover the candidates of the pivot as they are given: one for each candidate, by
    /// rising candidate, each of which closes with its last hint.
    AsGiven,
    /// The propagation stayed open, and these groups cover the candidates of the pivot, by rising candidate, each cut after
    /// its closing hint.
    Covered(Groups),
}

/// Why a line isn't accepted.
#[derive(Clone, Copy, Debug, PartialEq, Eq)]
pub enum LineRefusal {
    /// The propagation over the first list is stuck at the hint of this place, counted from 1.
    Stuck(u64),
    /// The propagation stays open, and the lemma isn't accepted by its pivot; or a growth was refused.
    Rat(RatRefusal),
}

/// The test of a lemma over live clauses, whose hints and groups are joint numbers: hinted unit propagation over the
/// first list and, where that stays open, the test of the pivot's candidates. The propagator may have served any propagation
/// before.
///
/// Each hint is looked up once. Takes constant time for each literal that a propagation reads, or O(log n) where its variable
/// is beyond 2,047 and propagations have held less than half so many literals. Where the first propagation stays open, takes
/// the candidates' look-up, constant time for each of them and O(log c) for each group, with c candidates. Memory for the
/// groups of a line and of its candidates, eight bytes a candidate, or sixteen with more than eight groups, and four a group,
/// is freed at its end.
///
/// # Errors
/// The first of [`LineRefusal::Stuck`], [`RatRefusal::EmptyOpen`] for a lemma without a pivot and the refusal of the
/// first candidate that isn't covered; and [`RatRefusal::NoMemory`] where a growth was refused.
pub fn test_line<L: Live>(
    alloc: Global,
    live: &L,
    lemma: &Lemma,
    hints: &Numbers,
    groups: &Groups,
    propagator: &mut Propagator,
) -> Result<Passed, LineRefusal>
    ensures { IsLineReply groups.now result
        (line_reply (L.clauses live.now) lemma.now.pivot groups.now
        (propagate (L.clauses live.now) (negations lemma.now.clause) hints.now)) }
{
    let assigned = &mut propagator.lits;
    match propagate_numbers(assigned, live, lemma.clause(), hints) {
        Ok(Ending::ClosedAfter(read)) => Ok(Passed::Closed(read)),
        Ok(Ending::StuckAt(position)) => Err(LineRefusal::Stuck(position)),
        Ok(Ending::StaysOpen) => {
            match test_open(alloc, live, lemma.pivot(), groups, assigned) {
                Ok(Some(groups)) => Ok(Passed::Covered(groups)),
                Ok(None) => Ok(Passed::AsGiven),
                Err(refusal) => Err(LineRefusal::Rat(refusal)),
            }
        }
        Err(refused) => Err(LineRefusal::Rat(RatRefusal::NoMemory(refused))),
    }
}

/// The test of the candidates of a pivot, if there is one, for a propagation that ended open with what is held. None stands for the
/// groups as they are given.
///
/// # Errors
/// As [`cover`], and [`RatRefusal::EmptyOpen`] without a pivot.
fn test_open<L: Live>(
    alloc: Global,
    live: &L,
    pivot: Option<Lit>,
    groups: &Groups,
    assigned: &mut Assignment,
) -> Result<Option<Groups>, RatRefusal>
    requires { is_contradictory (from_literals assigned.old) ≡ false }
    ensures { IsCovering groups.now result
        (rat_reply (L.clauses live.now) (from_literals assigned.old) pivot
        (groups_in (L.clauses live.now) groups.now)) }
{
    let Some(pivot) = pivot else {
        return Err(RatRefusal::EmptyOpen);
    };
    let groups = match IndexedGroups::new(alloc, groups) {
        Ok(groups) => LiveGroups { live, groups },
        Err(refused) => return Err(RatRefusal::NoMemory(NoMemory::from(refused))),
    };
    cover(alloc, live, assigned, pivot, &groups)
}
