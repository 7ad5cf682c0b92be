//! Numbers of few digits, without a test of the bytes' end for each.
ghost use Rattle.std.specs.Prelude.{◌≡◌, ◌-◌, ◌<◌, ◌≤◌, ◌^◌, length, true, IfSome, pos};
ghost use Rattle.std.specs.Char.{is_ascii_digit};
ghost use Rattle.lj_text.specs.inner.ShortNumbers.{IsShortNumber, IsTokenAhead};
ghost use Rattle.lj_clause.specs.Literal.{literal_on};

use super::windows::{WINDOW, first_space, number_within};

/// How many bytes a short number takes at most, with the space that ends it.
const SHORT: usize = 9;

/// How far a byte is behind `0`, which is at most 9 of a digit alone.
#[inline(always)]
fn digit_of(byte: u8) -> u32
    ensures digit { result ≤ 9 → is_ascii_digit byte ≡ true }
    ensures value { result ≤ 9 → result ≡ byte - 48 }
{
    u32::from(byte).wrapping_sub(48)
}

/// The number at the front that has at most eight digits and ends at a space, and what follows that: none where
/// anything else stands there, or fewer bytes than such a number can take.
///
/// So many bytes are there that no digit is asked whether the bytes end or the number is too great.
#[inline(always)]
fn short_digits(bytes: &[u8]) -> Option<(u32, &[u8])>
    ensures number { IfSome result (λ found. IsShortNumber bytes.now found.0 found.1.now) }
    ensures shorter { IfSome result (λ found. length found.1.now < length bytes.now) }
{
    let (front, _) = bytes.split_at_checked(SHORT)?;
    let mut value = 0u32;
    for (i, byte) in front.iter().enumerate() {
        let digit = digit_of(*byte);
        if digit > 9 {
            if *byte != b' ' || i == 0 {
                return None;
            }
            let (_, after) = bytes.split_at(i + 1);
            return Some((value, after));
        }
        value = 10 * value + digit;
    }
    None
}

/// The number of few digits at the front, and what follows it. Takes constant time.
#[inline(always)]
pub(crate) fn short_number(bytes: &[u8]) -> Option<(u32, &[u8])>
    ensures number { IfSome result (λ found. IsTokenAhead bytes.now (pos found.0) found.1.now) }
    ensures small { IfSome result (λ found. found.0 < 10 ^ 9) }
    ensures shorter { IfSome result (λ found. length found.1.now < length bytes.now) }
{
    let Some(window) = bytes.first_chunk::<WINDOW>() else {
        let (value, after) = short_digits(bytes)?;
        return Some((value, after));
    };
    let end = first_space(window);
    let value = number_within(window, 0, end)?;
    let (_, after) = bytes.split_at(end + 1);
    Some((value, after))
}

/// The number of few digits at the front without its sign, whether a `-` stands before it, and what follows it. Takes
/// constant time, and reads the sign without a branch.
#[inline(always)]
pub(crate) fn short_integer(bytes: &[u8]) -> Option<(u32, bool, &[u8])>
    ensures number { IfSome result (λ found. 0 < found.0
        → IsTokenAhead bytes.now (literal_on found.0 found.1) found.2.now) }
    ensures shorter { IfSome result (λ found. length found.2.now < length bytes.now) }
{
    let negative = *bytes.first()? == b'-';
    let (_, digits) = bytes.split_at(usize::from(negative));
    let (value, after) = short_digits(digits)?;
    Some((value, negative, after))
}
