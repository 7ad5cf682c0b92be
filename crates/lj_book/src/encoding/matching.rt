//! Words that are compared with numbers.
ghost use Rattle.std.specs.Prelude.{◌≡◌, IfSome, IfNone};
ghost use Rattle.lj_book.specs.inner.Encoding.{list_in, hint_group_in, hint_groups_in};

use super::reading::number;
use lj_text::{Groups, LentGroup, Numbers, NumbersIter};

/// What stands behind the list at the front of the words, if it has these numbers.
pub(crate) fn list_matches<'a>(encoding: &'a [u32], numbers: &Numbers) -> Option<&'a [u32]>
    ensures same { IfSome result (λ rest. list_in encoding.now ≡ (numbers.now, rest.now)) }
    ensures other { IfNone result ((list_in encoding.now).0 ≡ numbers.now → ⊥) }
{
    left_match(encoding, numbers.iter())
}

/// What stands behind the list at the front of the words, if it has the numbers that are still to come. Takes time linear
/// in the numbers.
fn left_match<'a>(encoding: &'a [u32], numbers: NumbersIter<'_>) -> Option<&'a [u32]>
    ensures same { IfSome result (λ rest. list_in encoding.now ≡ (numbers.entry, rest.now)) }
    ensures other { IfNone result ((list_in encoding.now).0 ≡ numbers.entry → ⊥) }
{
    let (count, mut rest) = number(encoding);
    if count != numbers.len() as u64 {
        return None;
    }
    for wanted in numbers {
        let (next, after) = number(rest);
        if next != wanted {
            return None;
        }
        rest = after;
    }
    Some(rest)
}

/// What stands behind the list at the front of the words, if it has these numbers. Takes time linear in the numbers.
pub(crate) fn numbers_match<'a>(encoding: &'a [u32], numbers: &[u64]) -> Option<&'a [u32]>
    ensures same { IfSome result (λ rest. list_in encoding.now ≡ (numbers.now, rest.now)) }
    ensures other { IfNone result ((list_in encoding.now).0 ≡ numbers.now → ⊥) }
{
    let (count, mut rest) = number(encoding);
    if count != numbers.len() as u64 {
        return None;
    }
    for wanted in numbers {
        let (next, after) = number(rest);
        if next != *wanted {
            return None;
        }
        rest = after;
    }
    Some(rest)
}

/// What stands behind the group at the front of the words, if it is this one.
fn group_matches<'a>(encoding: &'a [u32], group: LentGroup<'_>) -> Option<&'a [u32]>
    ensures same { IfSome result (λ rest. hint_group_in encoding.now ≡ (group.entry, rest.now)) }
    ensures other { IfNone result ((hint_group_in encoding.now).0 ≡ group.entry → ⊥) }
{
    let (candidate, rest) = number(encoding);
    if candidate != group.candidate {
        return None;
    }
    left_match(rest, group.hints)
}

/// What stands behind the list at the front of the words, if it has these groups. Takes time linear in the groups and
/// their hints.
pub(crate) fn groups_match<'a>(encoding: &'a [u32], groups: &Groups) -> Option<&'a [u32]>
    ensures same { IfSome result (λ rest. hint_groups_in encoding.now ≡ (groups.now, rest.now)) }
    ensures other { IfNone result ((hint_groups_in encoding.now).0 ≡ groups.now → ⊥) }
{
    let (count, mut rest) = number(encoding);
    if count != groups.len() as u64 {
        return None;
    }
    for group in groups.iter() {
        match group_matches(rest, group) {
            Some(after) => rest = after,
            None => return None,
        }
    }
    Some(rest)
}
