//! The groups that cover candidates, which stay where they are as long as they are given in recorded form.
ghost use Rattle.std.specs.Prelude.{◌≡◌, ◌<◌, ◌≤◌, ◌+◌, ◌∷◌, ◌++◌, [], length, take, true, unwrap_or, option_map, IfOk, OnOk};
ghost use Rattle.lj_hint.specs.inner.Groups.{group_in, group_at, before, lent_hints, read_group};
ghost use Rattle.lj_hint.specs.inner.Coverings.{plain_groups, covered_before};

use crate::group_list::{GroupList, hints_at};
use crate::hint_list::{GroupHints, HintList};
use lj_clause::NoMemory;
use lj_text::{Groups, NumbersIter};
use std::alloc::Global;

/// Takes the candidate at an index, with the first hints, so many, of the group before a place, behind the groups that cover
/// those before it. None stands for the groups that were given, as far as there were candidates.
///
/// # Errors
/// [`NoMemory`] where a growth was refused.
pub(crate) fn cover_one<G: GroupList>(
    alloc: Global,
    groups: &G,
    index: usize,
    position: usize,
    candidate: u64,
    read: usize,
    covered: &mut Option<Groups>,
) -> Result<(), NoMemory>
    requires { read ≤ length (lent_hints (group_at (G.groups groups.now) (before position))) }
    ensures { OnOk result (covered_before (G.groups groups.now) (index + 1) covered.new
        ≡ covered_before (G.groups groups.now) index covered.old ++ read_group candidate
        (lent_hints (group_at (G.groups groups.now) (before position))) read ∷ []) }
{
    if covered.is_none() {
        if is_as_given(groups, index, position, candidate, read) {
            return Ok(());
        }
        *covered = Some(first_groups(alloc, groups, index)?);
    }
    if let Some(covered) = covered {
        put_read(alloc, &hints_at(groups, position), candidate, read, covered)?;
    }
    Ok(())
}

/// Whether the group at an index is that of this candidate, with just so many hints, and stands before this place.
fn is_as_given<G: GroupList>(
    groups: &G,
    index: usize,
    position: usize,
    candidate: u64,
    read: usize,
) -> bool
    ensures within { result ≡ true → index < length (G.groups groups.now) }
    ensures position { result ≡ true → position ≡ index + 1 }
    ensures candidate { result ≡ true
        → candidate ≡ (group_in (G.groups groups.now) index).candidate }
    ensures read { result ≡ true
        → read ≡ length (group_in (G.groups groups.now) index).hints }
{
    if index >= groups.count() || position != index + 1 {
        return false;
    }
    groups.candidate(index) == candidate && groups.hints(index).count() == read
}

/// The groups that cover so many candidates: none where they are those that were given.
///
/// # Errors
/// [`NoMemory`] where a growth was refused.
pub(crate) fn covering<G: GroupList>(
    alloc: Global,
    groups: &G,
    count: usize,
    covered: Option<Groups>,
) -> Result<Option<Groups>, NoMemory>
    ensures { IfOk result (λ all. unwrap_or all (plain_groups (G.groups groups.now))
        ≡ covered_before (G.groups groups.now) count covered) }
{
    if covered.is_none() && groups.count() != count {
        return Ok(Some(first_groups(alloc, groups, count)?));
    }
    Ok(covered)
}

/// The first groups, so many, or all where there are no more. Takes time linear in these groups and their hints.
///
/// # Errors
/// [`NoMemory`] where a growth was refused.
pub(crate) fn first_groups<G: GroupList>(
    alloc: Global,
    groups: &G,
    count: usize,
) -> Result<Groups, NoMemory>
    ensures { IfOk result (λ first. first ≡ take count (plain_groups (G.groups groups.now))) }
{
    let mut first = Groups::new(alloc);
    for index in 0..count.min(groups.count()) {
        let hints = groups.hints(index);
        hints.put_first(alloc, groups.candidate(index), hints.count(), &mut first)?;
    }
    Ok(first)
}

/// Puts a candidate with the first of its hints, so many, behind the groups.
///
/// # Errors
/// [`NoMemory`] where a growth was refused.
fn put_read<H: GroupHints>(
    alloc: Global,
    hints: &Option<H>,
    candidate: u64,
    count: usize,
    groups: &mut Groups,
) -> Result<(), NoMemory>
    requires { count ≤ length (lent_hints (option_map H.hints hints.now)) }
    ensures { OnOk result (groups.new ≡ groups.old
        ++ read_group candidate (lent_hints (option_map H.hints hints.now)) count ∷ []) }
{
    match hints {
        Some(hints) => hints.put_first(alloc, candidate, count, groups),
        None => {
            groups.push(candidate, NumbersIter::empty())?;
            Ok(())
        }
    }
}
