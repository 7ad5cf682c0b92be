//! Numbers that are read from words.
ghost use Rattle.std.specs.Prelude.{◌≡◌, ◌≢◌, [], IfOk, OnErr};
ghost use Rattle.lj_book.specs.inner.Encoding.{long_in, number_in, list_in, hint_group_in, hint_groups_in};

use super::LONG_MARK;
use lj_clause::NoMemory;
use lj_text::{Group, Groups, Numbers};
use std::alloc::Global;

/// The number at the front of the words, and what stands behind it.
#[inline]
pub(crate) fn number(encoding: &[u32]) -> (u64, &[u32])
    ensures number { result.0 ≡ (number_in encoding.now).0 }
    ensures rest { result.1.now ≡ (number_in encoding.now).1 }
{
    match encoding {
        [] => (0, &[]),
        [LONG_MARK, rest @ ..] => long_number(rest),
        [token, rest @ ..] => (u64::from(*token), rest),
    }
}

/// The number of two words at the front, and what stands behind it.
#[cold]
fn long_number(encoding: &[u32]) -> (u64, &[u32])
    ensures number { result.0 ≡ (long_in encoding.now).0 }
    ensures rest { result.1.now ≡ (long_in encoding.now).1 }
{
    match encoding {
        [low, high, rest @ ..] => (u64::from(*low) + 4_294_967_296 * u64::from(*high), rest),
        _ => (0, &[]),
    }
}

/// What stands behind the list of numbers at the front of the words.
pub(crate) fn behind_list(encoding: &[u32]) -> &[u32]
    ensures { result.now ≡ (list_in encoding.now).1 }
{
    let (count, mut rest) = number(encoding);
    for _ in 0..count {
        let (_, after) = number(rest);
        rest = after;
    }
    rest
}

/// The list of numbers at the front of the words, and what stands behind it. Takes time linear in how many they are.
///
/// # Errors
/// [`NoMemory`] where a growth was refused, and only where there is a number.
pub(crate) fn list(alloc: Global, encoding: &[u32]) -> Result<(Numbers, &[u32]), NoMemory>
    ensures list { IfOk result (λ read. read.0 ≡ (list_in encoding.now).0) }
    ensures rest { IfOk result (λ read. read.1.now ≡ (list_in encoding.now).1) }
    ensures some { OnErr result ((list_in encoding.now).0 ≢ []) }
{
    let (count, behind) = number(encoding);
    if count == 0 {
        return Ok((Numbers::new(Vec::new(alloc)), behind));
    }
    let mut list = Numbers::with_capacity(alloc, count as usize)?;
    let mut rest = behind;
    for _ in 0..count {
        let (next, after) = number(rest);
        list.push(next)?;
        rest = after;
    }
    Ok((list, rest))
}

/// The group at the front of the words, and what stands behind it.
///
/// # Errors
/// [`NoMemory`] where a growth was refused.
fn group(alloc: Global, encoding: &[u32]) -> Result<(Group, &[u32]), NoMemory>
    ensures group { IfOk result (λ read. read.0 ≡ (hint_group_in encoding.now).0) }
    ensures rest { IfOk result (λ read. read.1.now ≡ (hint_group_in encoding.now).1) }
{
    let (candidate, behind) = number(encoding);
    let (hints, rest) = list(alloc, behind)?;
    Ok((Group { candidate, hints }, rest))
}

/// The list of groups at the front of the words. Takes time linear in the groups and their hints.
///
/// # Errors
/// [`NoMemory`] where a growth was refused.
pub(crate) fn groups(alloc: Global, encoding: &[u32]) -> Result<Groups, NoMemory>
    ensures { IfOk result (λ groups. groups ≡ (hint_groups_in encoding.now).0) }
{
    let mut groups = Groups::new(alloc);
    let (count, mut rest) = number(encoding);
    for _ in 0..count {
        let (next, after) = group(alloc, rest)?;
        groups.push(next.candidate, next.hints.iter())?;
        rest = after;
    }
    Ok(groups)
}
