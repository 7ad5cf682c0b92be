//! The test of a pivot's candidates: resolution asymmetric tautologies.
ghost use Rattle.std.specs.Prelude.{◌≡◌, ◌<◌, ◌≤◌, length, get_or, IfOk, IfSome, OnOk, is_some, option_map, false, [], ◌∷◌, ◌++◌};
ghost use Rattle.std.specs.List.Sorted.{IsStrictlySortedBy};
ghost use Rattle.std.specs.Ordering.{nat_cmp};
ghost use Rattle.lj_clause.specs.LiteralSet.{from_literals};
ghost use Rattle.lj_clause.specs.Propagation.{is_contradictory};
ghost use Rattle.lj_clause.specs.Rat.{candidates, candidate_propagation, rat_over, group_of};
ghost use Rattle.lj_hint.specs.inner.Trail.{Extends};
ghost use Rattle.lj_hint.specs.Ending.{ending_of};
ghost use Rattle.lj_hint.specs.RatTest.{rat_told};
ghost use Rattle.lj_hint.specs.inner.Coverings.{plain_groups, IsCovering};
ghost use Rattle.lj_hint.specs.inner.Groups.{group_at, before, AreGroupPositions, lent_hints, read_group, candidate_told, IsCandidateReply};

use crate::assignment::Assignment;
use crate::covering::{cover_one, covering};
use crate::group_list::{GroupList, hints_at};
use crate::hint_list::HintList;
use crate::live::Live;
use crate::propagate::{Ending, propagate};
use crate::rat_refusal::RatRefusal;
use lj_clause::{ClauseView, Lit, NoMemory};
use lj_text::Groups;
use std::alloc::Global;

/// Among so many groups that of a candidate is looked for one by one.
const MOST_ONE_BY_ONE: usize = 8;

/// The test of all candidates of a pivot among the live clauses, for a propagation that ended open with what is held: the
/// groups with the hints that were read, by rising candidate. None stands for the groups as they are given. Takes the
/// time of [`Live::candidates`] and, for each candidate, of [`Clauses::clause`], [`Assignment::insert_negations_but`] and
/// [`propagate`]; O(log c) time for each group, with c candidates; and memory for each candidate.
///
/// # Errors
/// The first candidate that isn't covered, and [`RatRefusal::NoMemory`] where a growth was refused.
pub(crate) fn cover<L: Live, G: GroupList>(
    alloc: Global,
    live: &L,
    assigned: &mut Assignment,
    pivot: Lit,
    groups: &G,
) -> Result<Option<Groups>, RatRefusal>
    requires { is_contradictory (from_literals assigned.old) ≡ false }
    ensures { IsCovering (plain_groups (G.groups groups.now)) result
        (rat_told (rat_over (from_literals assigned.old) pivot (G.groups groups.now)
        (candidates (L.clauses live.now) pivot))) }
{
    let numbers = live.candidates(pivot.negated())?;
    let positions = positions_among(alloc, groups, &numbers)?;
    let mut covered = None;
    for index in 0..numbers.len() {
        let number = numbers[index];
        let Some(clause) = live.clause(number) else {
            continue;
        };
        let position = position_for(groups, &numbers, &positions, index);
        match test_candidate(
            assigned,
            pivot,
            number,
            &clause,
            &hints_at(groups, position),
        ) {
            Ok(read) => cover_one(alloc, groups, index, position, number, read, &mut covered)?,
            Err(refusal) => return Err(refusal),
        }
    }
    Ok(covering(alloc, groups, numbers.len(), covered)?)
}

/// The test of one candidate: how many of its hints were read. What is held comes back as it was.
///
/// # Errors
/// Why the candidate isn't covered, and [`RatRefusal::NoMemory`] where a growth was refused.
fn test_candidate<H: HintList>(
    assigned: &mut Assignment,
    pivot: Lit,
    number: u64,
    clause: &ClauseView<'_>,
    hints: &Option<H>,
) -> Result<usize, RatRefusal>
    requires { is_contradictory (from_literals assigned.old) ≡ false }
    ensures reply { IsCandidateReply
        (read_group number (lent_hints (option_map H.hints hints.now))) result
        (candidate_told number (is_some hints.now)
        (candidate_propagation (from_literals assigned.old) pivot
        clause.now (option_map H.hints hints.now))) }
    ensures within { IfOk result
        (λ read. read ≤ length (lent_hints (option_map H.hints hints.now))) }
    ensures back { OnOk result (assigned.new ≡ assigned.old) }
{
    let len = assigned.len();
    let ending = propagate_candidate(assigned, pivot, clause, hints)?;
    assigned.take_back(len);
    match ending {
        Ending::ClosedAfter(read) => Ok(read),
        Ending::StaysOpen => match hints {
            Some(_) => Err(RatRefusal::GroupOpen(number)),
            None => Err(RatRefusal::MissingGroup(number)),
        },
        Ending::StuckAt(position) => match hints {
            Some(_) => Err(RatRefusal::GroupStuck(number, position)),
            None => Err(RatRefusal::MissingGroup(number)),
        },
    }
}

/// The propagation of what is held and the negations of a candidate's literals other than the pivot's negation, over its
/// hints, if it has any.
///
/// # Errors
/// [`NoMemory`] where a growth was refused.
fn propagate_candidate<H: HintList>(
    assigned: &mut Assignment,
    pivot: Lit,
    clause: &ClauseView<'_>,
    hints: &Option<H>,
) -> Result<Ending, NoMemory>
    ensures ending { IfOk result
        (λ ending. ending ≡ ending_of (candidate_propagation (from_literals assigned.old) pivot
        clause.now
        (option_map H.hints hints.now))) }
    ensures extends { Extends assigned.old assigned.new }
{
    assigned.insert_negations_but(clause.lits(), pivot.negated())?;
    match hints {
        Some(hints) => propagate(assigned, hints),
        None => Ok(if assigned.is_contradictory() {
            Ending::ClosedAfter(0)
        } else {
            Ending::StaysOpen
        }),
    }
}

/// For each of these candidates, which rise, one more than the index of its first group, and 0 where it has none; unless
/// there are few groups.
///
/// # Errors
/// [`NoMemory`] where a growth was refused.
fn positions_among<G: GroupList>(
    alloc: Global,
    groups: &G,
    candidates: &[u64],
) -> Result<Option<Vec<usize>>, NoMemory>
    requires { IsStrictlySortedBy nat_cmp candidates.now }
    ensures { IfOk result (λ found. IfSome found
        (λ positions. AreGroupPositions (G.groups groups.now) candidates.now positions.items)) }
{
    if groups.count() <= MOST_ONE_BY_ONE {
        return Ok(None);
    }
    Ok(Some(positions_of(alloc, groups, candidates)?))
}

/// For each of these candidates, which rise, one more than the index of its first group, and 0 where it has none. Takes
/// O(log c) time for each group, with c candidates.
///
/// # Errors
/// [`NoMemory`] where a growth was refused.
fn positions_of<G: GroupList>(
    alloc: Global,
    groups: &G,
    candidates: &[u64],
) -> Result<Vec<usize>, NoMemory>
    requires { IsStrictlySortedBy nat_cmp candidates.now }
    ensures { IfOk result
        (λ positions. AreGroupPositions (G.groups groups.now) candidates.now positions.items) }
{
    let mut positions = Vec::from_elem(alloc, 0, candidates.len())?;
    let mut at = groups.count();
    while at > 0 {
        at -= 1;
        if let Ok(index) = candidates.binary_search(&groups.candidate(at)) {
            positions[index] = at + 1;
        }
    }
    Ok(positions)
}

/// One more than the index of the first group of the candidate at an index, and 0 where it has none.
fn position_for<G: GroupList>(
    groups: &G,
    candidates: &[u64],
    positions: &Option<Vec<usize>>,
    index: usize,
) -> usize
    requires within { index < length candidates.now }
    requires positioned { IfSome positions.now
        (λ positions. AreGroupPositions (G.groups groups.now) candidates.now positions.items) }
    ensures { group_at (G.groups groups.now) (before result)
        ≡ group_of (get_or candidates.now index 0) (G.groups groups.now) }
{
    match positions {
        Some(positions) => positions[index],
        None => first_position(groups, candidates[index]),
    }
}

/// One more than the index of the first group of a candidate, and 0 where it has none.
fn first_position<G: GroupList>(groups: &G, number: u64) -> usize
    ensures { group_at (G.groups groups.now) (before result)
        ≡ group_of number (G.groups groups.now) }
{
    for index in 0..groups.count() {
        if groups.candidate(index) == number {
            return index + 1;
        }
    }
    0
}
