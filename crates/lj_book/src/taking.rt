//! An addition in joint numbers.
ghost use Rattle.std.specs.Prelude.{◌≡◌, IfOk, []};
ghost use Rattle.lj_hint.specs.Case.{groups_of};
ghost use Rattle.lj_book.specs.Tables.{joint_of};
ghost use Rattle.lj_book.specs.Calls.{IsReply, IsReplyBy, case_with, pair_in, pairs_of, group_pairs_of, repeated_after};

use crate::clause_log::ClauseLog;
use crate::refusal::Refusal;
use crate::seat_tables::SeatTables;
use crate::tree_map::TreeMap;
use lj_clause::{Clause, NoMemory};
use lj_hint::{Case, Pair};
use lj_text::{Addition, Groups, NumbersIter};
use std::alloc::Global;

/// The case of an addition, whose seat is there and whose own number is free.
///
/// # Errors
/// [`Refusal::UnknownNumber`], [`Refusal::GroupRepeated`], and [`Refusal::NoMemory`] where a growth was refused.
pub(crate) fn case_of(
    alloc: Global,
    tables: &SeatTables,
    clause_log: &ClauseLog,
    seat: u32,
    addition: &Addition,
) -> Result<Case, Refusal>
    ensures { IsReply result (case_with seat addition.now
        (repeated_after (joint_of tables.now seat) [] addition.now.groups)
        (pairs_of (pair_in tables.now clause_log.now.live seat) addition.now.hints)
        (group_pairs_of (pair_in tables.now clause_log.now.live seat) addition.now.groups)) }
{
    let hints = match pairs_of(alloc, tables, clause_log, seat, addition.hints.iter()) {
        Ok(hints) => hints,
        Err(refusal) => return Err(refusal),
    };
    let groups = match group_pairs_of(alloc, tables, clause_log, seat, &addition.groups) {
        Ok(groups) => groups,
        Err(refusal) => return Err(refusal),
    };
    if let Some(own) = repeated_group(alloc, tables, seat, &addition.groups)? {
        return Err(Refusal::GroupRepeated(own));
    }
    let lemma = addition.lemma.try_clone()?;
    Ok(Case::new(seat, addition.number, lemma, hints, groups))
}

/// The joint number that the seat's own number is bound to, with its clause.
///
/// # Errors
/// [`NoMemory`] where a growth was refused.
fn pair_in(
    tables: &SeatTables,
    clause_log: &ClauseLog,
    seat: u32,
    own: u64,
) -> Result<Option<Pair>, NoMemory>
    ensures { IfOk result (λ pair. pair ≡ pair_in tables.now clause_log.now.live seat own) }
{
    let Some(joint) = tables.joint(seat, own) else {
        return Ok(None);
    };
    let Some(clause) = clause_log.clause(joint) else {
        return Ok(None);
    };
    let clause = clause.to_clause(clause_log.allocator())?;
    Ok(Some(Pair { joint, clause }))
}

/// The pairs of these own numbers.
///
/// # Errors
/// [`Refusal::UnknownNumber`] of the first that the seat doesn't hold, and [`Refusal::NoMemory`] where a growth was
/// refused.
fn pairs_of(
    alloc: Global,
    tables: &SeatTables,
    clause_log: &ClauseLog,
    seat: u32,
    numbers: NumbersIter<'_>,
) -> Result<Vec<Pair>, Refusal>
    ensures { IsReplyBy (λ v. v.items) result
        (pairs_of (pair_in tables.now clause_log.now.live seat) numbers.entry) }
{
    let mut pairs = Vec::new(alloc);
    for own in numbers {
        let Some(pair) = pair_in(tables, clause_log, seat, own)? else {
            return Err(Refusal::UnknownNumber(own));
        };
        pairs.push(pair)?;
    }
    Ok(pairs)
}

/// The pairs of the candidates and of their hints.
///
/// # Errors
/// As [`pairs_of`], each candidate before its hints.
fn group_pairs_of(
    alloc: Global,
    tables: &SeatTables,
    clause_log: &ClauseLog,
    seat: u32,
    groups: &Groups,
) -> Result<Vec<(Pair, Vec<Pair>)>, Refusal>
    ensures { IsReplyBy (λ v. groups_of v.items) result
        (group_pairs_of (pair_in tables.now clause_log.now.live seat) groups.now) }
{
    let mut pairs = Vec::new(alloc);
    for group in groups.iter() {
        let Some(candidate) = pair_in(tables, clause_log, seat, group.candidate)? else {
            return Err(Refusal::UnknownNumber(group.candidate));
        };
        match pairs_of(alloc, tables, clause_log, seat, group.hints) {
            Ok(hints) => pairs.push((candidate, hints))?,
            Err(refusal) => return Err(refusal),
        }
    }
    Ok(pairs)
}

/// The own number of the first group whose joint clause has an earlier group. Takes O(log n) time for each group, and memory
/// for each.
///
/// # Errors
/// [`NoMemory`] where a growth was refused.
pub(crate) fn repeated_group(
    alloc: Global,
    tables: &SeatTables,
    seat: u32,
    groups: &Groups,
) -> Result<Option<u64>, NoMemory>
    ensures { IfOk result (λ own. own ≡ repeated_after (joint_of tables.now seat) [] groups.now) }
{
    let mut seen: TreeMap<()> = TreeMap::new(alloc);
    for group in groups.iter() {
        if let Some(joint) = tables.joint(seat, group.candidate) {
            if seen.contains_key(joint) {
                return Ok(Some(group.candidate));
            }
            seen.insert(joint, ())?;
        }
    }
    Ok(None)
}
