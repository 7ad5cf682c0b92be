//! An addition of a seat in joint numbers, by what the seat keeps.
ghost use Rattle.std.specs.Prelude.{◌≡◌, IfOk, [], option_map};
ghost use Rattle.lj_hint.specs.Case.{groups_of};
ghost use Rattle.lj_book.specs.Calls.{IsReply, IsReplyBy, pairs_of, group_pairs_of, repeated_after};
ghost use Rattle.lj_share.specs.inner.Seats.{case_by, joint_by, own_pair};

use crate::own_clauses::OwnClauses;
use lj_book::{OwnMap, Refusal};
use lj_clause::{Formula, NoMemory};
use lj_hint::{Case, Pair};
use lj_text::{Addition, Groups, NumbersIter};
use std::alloc::Global;

/// The case of an addition whose own number is free, where the opening's formula is this one.
///
/// # Errors
/// [`Refusal::UnknownNumber`], [`Refusal::GroupRepeated`], and [`Refusal::NoMemory`] where a growth was refused.
pub(crate) fn case_of(
    alloc: Global,
    own: &OwnClauses,
    formula: &Formula,
    seat: u32,
    addition: &Addition,
) -> Result<Case, Refusal>
    ensures { IsReply result (case_by (own_pair formula.now own.now) seat addition.now) }
{
    let hints = match pairs_of(alloc, own, formula, addition.hints.iter()) {
        Ok(hints) => hints,
        Err(refusal) => return Err(refusal),
    };
    let groups = match group_pairs_of(alloc, own, formula, &addition.groups) {
        Ok(groups) => groups,
        Err(refusal) => return Err(refusal),
    };
    if let Some(repeated) = repeated_group(alloc, own, formula, &addition.groups)? {
        return Err(Refusal::GroupRepeated(repeated));
    }
    let lemma = addition.lemma.try_clone()?;
    Ok(Case::new(seat, addition.number, lemma, hints, groups))
}

/// The pairs of these own numbers.
///
/// # Errors
/// [`Refusal::UnknownNumber`] of the first that is bound to nothing, and [`Refusal::NoMemory`] where a growth was refused.
fn pairs_of(
    alloc: Global,
    own: &OwnClauses,
    formula: &Formula,
    numbers: NumbersIter<'_>,
) -> Result<Vec<Pair>, Refusal>
    ensures { IsReplyBy (λ v. v.items) result
        (pairs_of (own_pair formula.now own.now) numbers.entry) }
{
    let mut pairs = Vec::new(alloc);
    for number in numbers {
        let Some(pair) = own.pair(formula, number)? else {
            return Err(Refusal::UnknownNumber(number));
        };
        pairs.push(pair)?;
    }
    Ok(pairs)
}

/// The pairs of the candidates and of their hints.
///
/// # Errors
/// As [`pairs_of`], each candidate before its hints.
fn group_pairs_of(
    alloc: Global,
    own: &OwnClauses,
    formula: &Formula,
    groups: &Groups,
) -> Result<Vec<(Pair, Vec<Pair>)>, Refusal>
    ensures { IsReplyBy (λ v. groups_of v.items) result
        (group_pairs_of (own_pair formula.now own.now) groups.now) }
{
    let mut pairs = Vec::new(alloc);
    for group in groups.iter() {
        let Some(candidate) = own.pair(formula, group.candidate)? else {
            return Err(Refusal::UnknownNumber(group.candidate));
        };
        match pairs_of(alloc, own, formula, group.hints) {
            Ok(hints) => pairs.push((candidate, hints))?,
            Err(refusal) => return Err(refusal),
        }
    }
    Ok(pairs)
}

/// The own number of the first group whose candidate has the joint number of an earlier one's. Takes O(log n) time for each group,
/// and memory for each.
///
/// # Errors
/// [`NoMemory`] where a growth was refused.
fn repeated_group(
    alloc: Global,
    own: &OwnClauses,
    formula: &Formula,
    groups: &Groups,
) -> Result<Option<u64>, NoMemory>
    ensures { IfOk result (λ number. number
        ≡ repeated_after (joint_by (own_pair formula.now own.now)) [] groups.now) }
{
    let mut seen: OwnMap<()> = OwnMap::new(alloc);
    for group in groups.iter() {
        if let Some(joint) = joint_of(own, formula, group.candidate)? {
            if seen.contains_key(joint) {
                return Ok(Some(group.candidate));
            }
            seen.insert(joint, ())?;
        }
    }
    Ok(None)
}

/// The joint number that an own number is bound to.
///
/// # Errors
/// [`NoMemory`] where a growth was refused.
fn joint_of(own: &OwnClauses, formula: &Formula, number: u64) -> Result<Option<u64>, NoMemory>
    ensures { IfOk result (λ joint. joint ≡ joint_by (own_pair formula.now own.now) number) }
{
    match own.pair(formula, number)? {
        Some(pair) => Ok(Some(pair.joint)),
        None => Ok(None),
    }
}
