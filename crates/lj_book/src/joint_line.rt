//! An addition's hints and groups in joint numbers.
ghost use Rattle.std.specs.Prelude.{◌≡◌, [], take, true, is_ok};
ghost use Rattle.std.specs.FinMap as fin;
ghost use Rattle.lj_book.specs.Tables.{joint_of};
ghost use Rattle.lj_book.specs.Calls.{IsReplyBy};
ghost use Rattle.lj_book.specs.inner.JointLines.{joints_in, joint_groups_in, joint_parts, rising_from};

use crate::refusal::Refusal;
use crate::seat_table::SeatTable;
use crate::seat_tables::SeatTables;
use crate::taking::repeated_group;
use lj_text::{Addition, Groups, Numbers, NumbersIter};
use std::alloc::Global;

/// Where a line has more groups, they are looked through before room is made for their joint numbers.
const MANY_GROUPS: usize = 1024;

/// The hints of a seat's addition in joint numbers, and its groups, in lists that were used before. Looks each own number up
/// once, but for those of groups whose candidates don't rise: many of these are looked up first to see that all are held, and
/// their candidates once more, since they may repeat.
///
/// # Errors
/// [`Refusal::UnknownNumber`], [`Refusal::GroupRepeated`], and [`Refusal::NoMemory`] where a growth was refused.
#[inline(always)]
pub(crate) fn joint_line(
    alloc: Global,
    tables: &SeatTables,
    seat: u32,
    addition: &Addition,
    hints: &mut Numbers,
    joints: &mut Groups,
) -> Result<(), Refusal>
    ensures { IsReplyBy (λ _. (hints.new, joints.new)) result
        (joint_parts (joint_of tables.now seat) addition.now) }
{
    hints.clear();
    if let Err(refusal) = put_hints(tables, seat, &addition.hints, hints) {
        return Err(refusal);
    }
    clear(joints);
    let groups = &addition.groups;
    if groups.is_empty() {
        return Ok(());
    }
    if groups.len() > MANY_GROUPS && !are_rising(groups) && are_held(tables, seat, groups) {
        if let Some(own) = repeated_group(alloc, tables, seat, groups)? {
            return Err(Refusal::GroupRepeated(own));
        }
    }
    if let Err(refusal) = put_joint_groups(alloc, tables, seat, groups, joints) {
        return Err(refusal);
    }
    if are_rising(joints) {
        return Ok(());
    }
    if let Some(own) = repeated_group(alloc, tables, seat, groups)? {
        return Err(Refusal::GroupRepeated(own));
    }
    Ok(())
}

/// Whether the seat holds all numbers of these groups.
#[cold]
fn are_held(tables: &SeatTables, seat: u32, groups: &Groups) -> bool
    ensures { result ≡ true
        → is_ok (joint_groups_in (joint_of tables.now seat) groups.now) ≡ true }
{
    for group in groups.iter() {
        if !tables.is_bound(seat, group.candidate) || !holds_all(tables, seat, group.hints) {
            return false;
        }
    }
    true
}

/// Whether the seat holds all of these numbers.
fn holds_all(tables: &SeatTables, seat: u32, numbers: NumbersIter<'_>) -> bool
    ensures { result ≡ true
        → is_ok (joints_in (joint_of tables.now seat) numbers.entry) ≡ true }
{
    for own in numbers {
        if !tables.is_bound(seat, own) {
            return false;
        }
    }
    true
}

/// Lets go of the groups, and of their room where it is for more than a few numbers.
#[inline(always)]
pub(crate) fn clear(groups: &mut Groups)
    ensures { groups.new ≡ [] }
{
    if !groups.is_empty() {
        groups.let_go();
    }
}

/// Whether the candidates of these groups rise, so that none stands twice.
fn are_rising(groups: &Groups) -> bool
    ensures { result ≡ rising_from 0 groups.now }
{
    let mut last = 0;
    for group in groups.iter() {
        if group.candidate <= last {
            return false;
        }
        last = group.candidate;
    }
    true
}

/// Puts the joint numbers of a line's hints into a list that has none, by a loop over numbers of four bytes where they are.
///
/// # Errors
/// As [`put_joints`].
#[inline(always)]
fn put_hints(
    tables: &SeatTables,
    seat: u32,
    numbers: &Numbers,
    joints: &mut Numbers,
) -> Result<(), Refusal>
    requires { joints.old ≡ [] }
    ensures { IsReplyBy (λ _. joints.new) result
        (joints_in (joint_of tables.now seat) numbers.now) }
{
    match (tables.table(seat), numbers.as_u32s()) {
        (Some(table), Some(owns)) => put_u32s(table, owns, joints),
        _ => put_joints(tables, seat, numbers.iter(), joints),
    }
}

/// The same by the table of their seat.
///
/// # Errors
/// As [`put_joints`].
#[inline(never)]
fn put_u32s(table: &SeatTable, owns: &[u32], joints: &mut Numbers) -> Result<(), Refusal>
    requires { joints.old ≡ [] }
    ensures { IsReplyBy (λ _. joints.new) result (joints_in (fin.get table.now) owns.now) }
{
    for own in owns {
        let own = u64::from(*own);
        match table.get(own) {
            Some(joint) => joints.push(joint)?,
            None => return Err(Refusal::UnknownNumber(own)),
        }
    }
    Ok(())
}

/// Puts the joint numbers of these own numbers into a list that has none.
///
/// # Errors
/// [`Refusal::UnknownNumber`] of the first that the seat doesn't hold, and [`Refusal::NoMemory`] where a growth was
/// refused.
#[inline(always)]
fn put_joints(
    tables: &SeatTables,
    seat: u32,
    numbers: NumbersIter<'_>,
    joints: &mut Numbers,
) -> Result<(), Refusal>
    requires { joints.old ≡ [] }
    ensures { IsReplyBy (λ _. joints.new) result
        (joints_in (joint_of tables.now seat) numbers.entry) }
{
    match tables.table(seat) {
        Some(table) => put_each(table, numbers, joints),
        None => match numbers.get(0) {
            Some(own) => Err(Refusal::UnknownNumber(own)),
            None => Ok(()),
        },
    }
}

/// The same by the table of their seat.
///
/// # Errors
/// As [`put_joints`].
#[inline(never)]
fn put_each(
    table: &SeatTable,
    numbers: NumbersIter<'_>,
    joints: &mut Numbers,
) -> Result<(), Refusal>
    requires { joints.old ≡ [] }
    ensures { IsReplyBy (λ _. joints.new) result (joints_in (fin.get table.now) numbers.entry) }
{
    for own in numbers {
        let Some(joint) = table.get(own) else {
            return Err(Refusal::UnknownNumber(own));
        };
        joints.push(joint)?;
    }
    Ok(())
}

/// The same of so many first numbers alone, in place of what the list has. Takes constant time for each of these, amortized,
/// or O(log n) for numbers beyond the slots.
///
/// # Errors
/// As [`put_joints`].
pub(crate) fn put_first(
    table: &SeatTable,
    numbers: &Numbers,
    count: usize,
    joints: &mut Numbers,
) -> Result<(), Refusal>
    ensures { IsReplyBy (λ _. joints.new) result
        (joints_in (fin.get table.now) (take count numbers.now)) }
{
    joints.clear();
    put_each(table, numbers.iter().first(count), joints)
}

/// Puts the groups in joint numbers into a list.
///
/// # Errors
/// As [`put_joints`], each candidate before its hints.
fn put_joint_groups(
    alloc: Global,
    tables: &SeatTables,
    seat: u32,
    groups: &Groups,
    joints: &mut Groups,
) -> Result<(), Refusal>
    requires { joints.old ≡ [] }
    ensures { IsReplyBy (λ _. joints.new) result
        (joint_groups_in (joint_of tables.now seat) groups.now) }
{
    let mut hints = Numbers::with_capacity(alloc, 0)?;
    for group in groups.iter() {
        let Some(candidate) = tables.joint(seat, group.candidate) else {
            return Err(Refusal::UnknownNumber(group.candidate));
        };
        hints.clear();
        match put_joints(tables, seat, group.hints, &mut hints) {
            Ok(()) => joints.push(candidate, hints.iter())?,
            Err(refusal) => return Err(refusal),
        }
    }
    Ok(())
}
