//! The usual line, in one pass over its bytes: its end is found where its numbers end.
ghost use Rattle.std.specs.Prelude.{◌≡◌, ◌<◌, ◌≤◌, Ok, Some, length, true, IfSome};
ghost use Rattle.lj_text.specs.Bytes.{tokens_of};
ghost use Rattle.lj_text.specs.Lines.{addition_of, deletion_of, hints_of, numbers_of};
ghost use Rattle.lj_clause.specs.Lemma.{lemma_of};
ghost use Rattle.lj_text.specs.inner.LineReading.{line_said, token_numbers};
ghost use Rattle.lj_text.specs.inner.ShortNumbers.{BeginsByLine, BeginsNumber};
ghost use Rattle.lj_clause.specs.declared.lit.TheConstants.{MAX_VARIABLE};

use super::cut::first_line;
use super::literals::short_literals;
use super::scratch::Scratch;
use super::{deletion, hints};
use crate::boxed::Boxed;
use crate::bytes::short_number;
use crate::groups::Groups;
use crate::line::{Addition, Line};
use crate::numbers::Numbers;

/// Reads the hints and groups at the front up to their line's end, and answers what follows it: none where they are at
/// fault, or no line feed follows, or memory was refused.
#[inline(always)]
fn proof_at_front<'a>(
    hints: &mut Numbers,
    groups: &mut Groups,
    scratch: &mut Numbers,
    bytes: &'a [u8],
) -> Option<&'a [u8]>
    ensures read { IfSome result (λ after. BeginsByLine
        (λ line. hints_of true (token_numbers line) ≡ Ok (hints.new, groups.new))
        bytes.now after.now) }
    ensures shorter { IfSome result (λ after. length after.now < length bytes.now) }
{
    scratch.clear();
    groups.clear();
    let rest = scratch.read_short(bytes);
    if let [b'0', b'\n', after @ ..] = rest {
        return match hints.take_over(scratch) {
            Ok(()) => Some(after),
            Err(_) => None,
        };
    }
    let (line, after) = first_line(rest, 0)?;
    match hints::read_rest(hints, groups, scratch, true, line) {
        Ok(()) => Some(after),
        Err(_) => None,
    }
}

/// Reads the numbers of a deletion at the front up to their line's end, and answers what follows it: none as above.
#[inline(always)]
fn numbers_at_front<'a>(numbers: &mut Numbers, bytes: &'a [u8]) -> Option<&'a [u8]>
    ensures read { IfSome result (λ after. BeginsByLine
        (λ line. numbers_of true (token_numbers line) ≡ Ok numbers.new) bytes.now after.now) }
    ensures shorter { IfSome result (λ after. length after.now < length bytes.now) }
{
    numbers.clear();
    let rest = numbers.read_short(bytes);
    if let [b'0', b'\n', after @ ..] = rest {
        return Some(after);
    }
    let (line, after) = first_line(rest, 0)?;
    match deletion::read_rest(numbers, true, line) {
        Ok(()) => Some(after),
        Err(_) => None,
    }
}

/// Writes an addition into a place: the literals that were read, and the hints and groups at the front, up to their line's
/// end. Answers what follows that: none as above.
#[inline(always)]
fn write_at_front<'a>(
    target: &mut Addition,
    scratch: &mut Scratch,
    number: u64,
    bytes: &'a [u8],
) -> Option<&'a [u8]>
    ensures number { IfSome result (λ _. target.new.number ≡ number) }
    ensures lemma { IfSome result (λ _. target.new.lemma ≡ lemma_of scratch.old.literals.items) }
    ensures read { IfSome result (λ after. BeginsByLine
        (λ line. hints_of true (token_numbers line) ≡ Ok (target.new.hints, target.new.groups))
        bytes.now after.now) }
    ensures shorter { IfSome result (λ after. length after.now < length bytes.now) }
{
    let after = proof_at_front(
        &mut target.hints,
        &mut target.groups,
        &mut scratch.numbers,
        bytes,
    )?;
    if target
        .lemma
        .put(scratch.alloc, &mut scratch.literals)
        .is_err()
    {
        return None;
    }
    target.number = number;
    Some(after)
}

/// The addition at the front, behind its number, and what follows its line: none as above.
#[inline(always)]
fn addition_at_front<'a>(
    scratch: &mut Scratch,
    max: u32,
    number: u64,
    bytes: &'a [u8],
) -> Option<(Line, &'a [u8])>
    requires { max ≤ MAX_VARIABLE }
    ensures read { IfSome result (λ found. BeginsByLine
        (λ line. addition_of max true number (token_numbers line) ≡ Ok found.0)
        bytes.now found.1.now) }
    ensures shorter { IfSome result (λ found. length found.1.now < length bytes.now) }
{
    scratch.literals.clear();
    let rest = short_literals(&mut scratch.literals, max, bytes);
    let [b'0', b' ', proof @ ..] = rest else {
        return None;
    };
    let Ok(mut target) = scratch.addition() else {
        return None;
    };
    match write_at_front(&mut target, scratch, number, proof) {
        Some(after) => Some((Line::Add(Boxed::from_box(target)), after)),
        None => {
            let _ = scratch.take_back(target);
            None
        }
    }
}

/// The deletion at the front, behind its `d`, and what follows its line: none as above.
#[inline(always)]
fn deletion_at_front<'a>(scratch: &mut Scratch, bytes: &'a [u8]) -> Option<(Line, &'a [u8])>
    ensures read { IfSome result (λ found. BeginsByLine
        (λ line. deletion_of true (token_numbers line) ≡ Ok found.0) bytes.now found.1.now) }
    ensures shorter { IfSome result (λ found. length found.1.now < length bytes.now) }
{
    let after = numbers_at_front(&mut scratch.numbers, bytes)?;
    match scratch.deletion() {
        Ok(line) => Some((line, after)),
        Err(_) => None,
    }
}

/// Whether a byte is the first of a number.
#[inline(always)]
fn begins_number(byte: u8) -> bool
    ensures { result ≡ true → BeginsNumber byte }
{
    byte == b'-' || byte.is_ascii_digit()
}

/// The line at the front, where it is an addition or a deletion in the usual form, which a line feed ends, and what
/// follows it: none for any other line, for one at fault, and where memory was refused. Takes time linear in the line,
/// and O(n log n) time for literals that stand in no order.
#[inline(always)]
pub(super) fn line_at_front<'a>(
    scratch: &mut Scratch,
    max: u32,
    bytes: &'a [u8],
) -> Option<(Line, &'a [u8])>
    requires { max ≤ MAX_VARIABLE }
    ensures read { IfSome result (λ found. BeginsByLine
        (λ line. line_said max true (tokens_of line) ≡ Ok (Some found.0))
        bytes.now found.1.now) }
    ensures shorter { IfSome result (λ found. length found.1.now < length bytes.now) }
{
    let (number, rest) = short_number(bytes)?;
    match rest {
        [b'd', b' ', numbers @ ..] => deletion_at_front(scratch, numbers),
        [first, ..] if number != 0 && begins_number(*first) => {
            addition_at_front(scratch, max, u64::from(number), rest)
        }
        _ => None,
    }
}
