//! Numbers that are written as words.
ghost use Rattle.std.specs.Prelude.{◌≡◌, ◌+◌, ◌*◌, ◌/◌, ◌%◌, ◌≤◌, ◌++◌, ◌∷◌, [], length, flat_map, vec_len, vec_capacity};
ghost use Rattle.lj_book.specs.inner.Encoding.{long_mark, number_encoding, list_encoding, hint_group_encoding, hint_groups_encoding, group_numbers, groups_numbers};

use super::LONG_MARK;
use lj_text::{Groups, LentGroup, Numbers, NumbersIter};

/// So many numbers are copied one by one, and more as they stand.
const MOST_ONE_BY_ONE: usize = 8;

/// Puts a number behind the words, which have room for it.
#[inline]
pub(crate) fn put_number(encoding: &mut Vec<u32>, number: u64)
    requires { vec_len encoding.old + 3 ≤ vec_capacity encoding.old }
    ensures encoding { encoding.new.items ≡ encoding.old.items ++ number_encoding number }
    ensures len { vec_len encoding.new ≤ vec_len encoding.old + 3 }
    ensures capacity { vec_capacity encoding.old ≤ vec_capacity encoding.new }
{
    if number < u64::from(LONG_MARK) {
        encoding.push_reserved(number as u32);
    } else {
        put_long(encoding, number);
    }
}

/// Puts a number that takes two words, and the mark before it, behind the words, which have room for it.
#[cold]
fn put_long(encoding: &mut Vec<u32>, number: u64)
    requires { vec_len encoding.old + 3 ≤ vec_capacity encoding.old }
    ensures encoding { encoding.new.items
        ≡ encoding.old.items ++ long_mark ∷ number % 4294967296 ∷ number / 4294967296 ∷ [] }
    ensures len { vec_len encoding.new ≤ vec_len encoding.old + 3 }
    ensures capacity { vec_capacity encoding.old ≤ vec_capacity encoding.new }
{
    encoding.push_reserved(LONG_MARK);
    encoding.push_reserved((number % 4_294_967_296) as u32);
    encoding.push_reserved((number / 4_294_967_296) as u32);
}

/// Puts numbers of four bytes each behind the words, which have room for them.
#[inline(always)]
fn put_u32s(encoding: &mut Vec<u32>, numbers: &[u32])
    requires { vec_len encoding.old + 3 * length numbers.now ≤ vec_capacity encoding.old }
    ensures encoding { encoding.new.items
        ≡ encoding.old.items ++ flat_map number_encoding numbers.now }
    ensures len { vec_len encoding.new ≤ vec_len encoding.old + 3 * length numbers.now }
    ensures capacity { vec_capacity encoding.old ≤ vec_capacity encoding.new }
{
    if numbers.len() <= MOST_ONE_BY_ONE {
        put_each(encoding, numbers);
        return;
    }
    if numbers.contains(&LONG_MARK) {
        put_each(encoding, numbers);
    } else {
        encoding.extend_from_slice(numbers).unwrap();
    }
}

/// The same, one by one.
#[inline(always)]
fn put_each(encoding: &mut Vec<u32>, numbers: &[u32])
    requires { vec_len encoding.old + 3 * length numbers.now ≤ vec_capacity encoding.old }
    ensures encoding { encoding.new.items
        ≡ encoding.old.items ++ flat_map number_encoding numbers.now }
    ensures len { vec_len encoding.new ≤ vec_len encoding.old + 3 * length numbers.now }
    ensures capacity { vec_capacity encoding.old ≤ vec_capacity encoding.new }
{
    for number in numbers {
        put_number(encoding, u64::from(*number));
    }
}

/// Puts a list of numbers behind the words, which have room for it.
#[inline(always)]
pub(crate) fn put_list(encoding: &mut Vec<u32>, numbers: &Numbers)
    requires { vec_len encoding.old + 3 * (1 + length numbers.now) ≤ vec_capacity encoding.old }
    ensures encoding { encoding.new.items ≡ encoding.old.items ++ list_encoding numbers.now }
    ensures len { vec_len encoding.new ≤ vec_len encoding.old + 3 * (1 + length numbers.now) }
    ensures capacity { vec_capacity encoding.old ≤ vec_capacity encoding.new }
{
    put_number(encoding, numbers.len() as u64);
    if let Some(narrow) = numbers.as_u32s() {
        put_u32s(encoding, narrow);
        return;
    }
    put_left(encoding, numbers.iter());
}

/// Puts the numbers that are still to come behind the words, which have room for them.
#[inline]
fn put_left(encoding: &mut Vec<u32>, numbers: NumbersIter<'_>)
    requires { vec_len encoding.old + 3 * length numbers ≤ vec_capacity encoding.old }
    ensures encoding { encoding.new.items
        ≡ encoding.old.items ++ flat_map number_encoding numbers.entry }
    ensures len { vec_len encoding.new ≤ vec_len encoding.old + 3 * length numbers.entry }
    ensures capacity { vec_capacity encoding.old ≤ vec_capacity encoding.new }
{
    for number in numbers {
        put_number(encoding, number);
    }
}

/// Puts a list of these numbers behind the words, which have room for it. Takes time linear in the numbers.
pub(crate) fn put_numbers(encoding: &mut Vec<u32>, numbers: &[u64])
    requires { vec_len encoding.old + 3 * (1 + length numbers.now) ≤ vec_capacity encoding.old }
    ensures encoding { encoding.new.items ≡ encoding.old.items ++ list_encoding numbers.now }
    ensures len { vec_len encoding.new ≤ vec_len encoding.old + 3 * (1 + length numbers.now) }
    ensures capacity { vec_capacity encoding.old ≤ vec_capacity encoding.new }
{
    put_number(encoding, numbers.len() as u64);
    for number in numbers {
        put_number(encoding, *number);
    }
}

/// Puts a group behind the words, which have room for it.
fn put_group(encoding: &mut Vec<u32>, group: LentGroup<'_>)
    requires { vec_len encoding.old + 3 * group_numbers group ≤ vec_capacity encoding.old }
    ensures encoding { encoding.new.items ≡ encoding.old.items ++ hint_group_encoding group.entry }
    ensures len { vec_len encoding.new ≤ vec_len encoding.old + 3 * group_numbers group.entry }
    ensures capacity { vec_capacity encoding.old ≤ vec_capacity encoding.new }
{
    put_number(encoding, group.candidate);
    put_number(encoding, group.hints.len() as u64);
    put_left(encoding, group.hints);
}

/// Puts a list of groups behind the words, which have room for it. Takes time linear in the groups and their hints.
pub(crate) fn put_groups(encoding: &mut Vec<u32>, groups: &Groups)
    requires { vec_len encoding.old + 3 * (1 + groups_numbers groups.now) ≤ vec_capacity
        encoding.old }
    ensures encoding { encoding.new.items ≡ encoding.old.items ++ hint_groups_encoding groups.now }
    ensures len { vec_len encoding.new ≤ vec_len encoding.old + 3 *
        (1 + groups_numbers groups.now) }
    ensures capacity { vec_capacity encoding.old ≤ vec_capacity encoding.new }
{
    put_number(encoding, groups.len() as u64);
    for group in groups.iter() {
        put_group(encoding, group);
    }
}
