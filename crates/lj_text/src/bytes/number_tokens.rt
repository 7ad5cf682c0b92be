//! The tokens of a line as numbers, each in one pass.
ghost use Rattle.std.specs.Prelude.{◌≡◌, ◌-◌, ◌<◌, ◌≤◌, ℕ, true, [], ◌∷◌, length, IfNone, IfSome, negsuc, suc};
ghost use Rattle.std.specs.Char.{is_ascii_digit};
ghost use Rattle.std.specs.Str.{byte};
ghost use Rattle.lj_text.specs.inner.LineReading.{token_numbers};
ghost use Rattle.lj_text.specs.Bytes.{tokens_of};
ghost use Rattle.lj_text.specs.inner.TokenNumbers.{BeginsToken, BeginsTokenNumber, IsNumberAhead};

use super::digits::{GREATEST, TokenNumber, number_in_token};
use super::tokens::{after_blanks, is_blank, next_token};

/// Up to this, a digit more leaves a number within `GREATEST`.
const MOST: u64 = GREATEST / 10 - 1;

/// The number that stands behind its first digit, and what follows its token: none where a byte stands in the token
/// that is no digit, or the number is among the greatest.
#[inline(always)]
fn digits_behind(first: u8, bytes: &[u8]) -> Option<(u64, &[u8])>
    requires { first < 10 }
    ensures number { IfSome result (λ found. IsNumberAhead first bytes.now found.0 found.1.now) }
    ensures shorter { IfSome result (λ found. length found.1.now ≤ length bytes.now) }
{
    let mut value = u64::from(first);
    let mut rest = bytes;
    while let [byte, after @ ..] = rest {
        if !byte.is_ascii_digit() {
            if *byte == b' ' {
                return Some((value, after));
            }
            return if is_blank(*byte) {
                Some((value, after))
            } else {
                None
            };
        }
        if value > MOST {
            return None;
        }
        value = 10 * value + u64::from(*byte - b'0');
        rest = after;
    }
    Some((value, rest))
}

/// The number at the front that begins with this digit.
#[inline(always)]
fn unsigned(digit: u8, bytes: &[u8]) -> Option<(TokenNumber, &[u8])>
    requires { is_ascii_digit digit ≡ true }
    ensures token_number { IfSome result (λ found. BeginsToken (digit ∷ bytes.now) found.0
        found.1.now) }
    ensures shorter { IfSome result (λ found. length found.1.now ≤ length bytes.now) }
{
    let (value, after) = digits_behind(digit - b'0', bytes)?;
    if value == 0 {
        Some((TokenNumber::Zero, after))
    } else {
        Some((TokenNumber::Positive(value), after))
    }
}

/// The number at the front that begins with `-` and this digit, where it isn't 0.
#[inline(always)]
fn negative(digit: u8, bytes: &[u8]) -> Option<(TokenNumber, &[u8])>
    requires { is_ascii_digit digit ≡ true }
    ensures token_number { IfSome result
        (λ found. BeginsToken (byte "-" ∷ digit ∷ bytes.now) found.0 found.1.now) }
    ensures shorter { IfSome result (λ found. length found.1.now ≤ length bytes.now) }
{
    let (value, after) = digits_behind(digit - b'0', bytes)?;
    if value == 0 {
        None
    } else {
        Some((TokenNumber::Negative(value), after))
    }
}

/// What the first token says, and what follows it, whatever the token is.
#[cold]
fn any_token_number(bytes: &[u8]) -> Option<(TokenNumber, &[u8])>
    ensures none { IfNone result (tokens_of bytes.now ≡ []) }
    ensures some { IfSome result (λ found. BeginsToken bytes.now found.0 found.1.now) }
    ensures shorter { IfSome result (λ found. length found.1.now < length bytes.now) }
{
    let (token, after) = next_token(bytes)?;
    Some((number_in_token(token), after))
}

/// What a token at the front says that is a number, and not among the greatest, and what follows it.
#[inline(always)]
fn number_ahead(bytes: &[u8]) -> Option<(TokenNumber, &[u8])>
    ensures token_number { IfSome result (λ found. BeginsToken bytes.now found.0 found.1.now) }
    ensures shorter { IfSome result (λ found. length found.1.now < length bytes.now) }
{
    match bytes {
        [digit, after @ ..] if digit.is_ascii_digit() => unsigned(*digit, after),
        [b'-', digit, after @ ..] if digit.is_ascii_digit() => negative(*digit, after),
        _ => None,
    }
}

/// What the first token says, and what follows it. Takes time linear in the bytes that it passes.
#[inline(always)]
pub(crate) fn first_token_number(bytes: &[u8]) -> Option<(TokenNumber, &[u8])>
    ensures none { IfNone result (tokens_of bytes.now ≡ []) }
    ensures some { IfSome result (λ found. BeginsToken bytes.now found.0 found.1.now) }
    ensures shorter { IfSome result (λ found. length found.1.now < length bytes.now) }
{
    let rest = after_blanks(bytes);
    if rest.is_empty() {
        return None;
    }
    match number_ahead(rest) {
        Some(found) => Some(found),
        None => any_token_number(rest),
    }
}

/// The same, of the tokens as numbers.
#[inline(always)]
pub(crate) fn next_token_number(bytes: &[u8]) -> Option<(TokenNumber, &[u8])>
    ensures none { IfNone result (token_numbers bytes.now ≡ []) }
    ensures some { IfSome result (λ found. BeginsTokenNumber bytes.now found.0 found.1.now) }
    ensures shorter { IfSome result (λ found. length found.1.now < length bytes.now) }
{
    first_token_number(bytes)
}
