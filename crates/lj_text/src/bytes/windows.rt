//! Numbers of few digits in a window of a line's bytes: where they end is looked for once for all of them, so that none waits
//! for the one before, and no branch asks how many digits a number has.
ghost use Rattle.std.specs.Prelude.{◌≡◌, ◌+◌, ◌-◌, ◌<◌, ◌≤◌, ℕ, List, length, take, drop, slice_index, true, IfSome};
ghost use Rattle.std.specs.List.{list_all};
ghost use Rattle.std.specs.Char.{is_ascii_digit};
ghost use Rattle.lj_text.specs.inner.ShortNumbers.{IsShortNumber};
ghost use Rattle.lj_text.specs.inner.Windows.{AreBytes, AreCounts, moved_up, number_of_counts, others_of, number_in_token};

use std::simd::prelude::*;

/// How many bytes a window has: those where numbers end, and behind them the bytes that a word takes with the last one.
pub(crate) const WINDOW: usize = 80;

/// A 0 in each of a word's eight bytes.
const ZEROS: u64 = 0x3030_3030_3030_3030;

/// What takes a byte to its upper half where it is above 9.
const ABOVE: u64 = 0x7676_7676_7676_7676;

/// The bytes' upper halves.
const UPPER: u64 = 0x8080_8080_8080_8080;

/// The first and every other byte of a word.
const PAIRS: u64 = 0x00ff_00ff_00ff_00ff;

/// The first and every other two bytes of a word.
const FOURS: u64 = 0x0000_ffff_0000_ffff;

/// What a word is multiplied by for ten times each byte together with the byte behind it, one byte farther up.
const TENS: u64 = (10 << 8) + 1;

/// The same for a hundred times each two bytes, two bytes farther up.
const HUNDREDS: u64 = (100 << 16) + 1;

/// The same for ten thousand times the lower four bytes, four bytes farther up.
const TEN_THOUSANDS: u64 = (10_000 << 32) + 1;

/// A space in each of a word's eight bytes.
const SPACES: u64 = 0x2020_2020_2020_2020;

/// A 1 in each of a word's eight bytes.
const ONES: u64 = 0x0101_0101_0101_0101;

/// Which of the window's first 64 bytes are spaces, as the bits of a word from the lowest on. Whoever reads a number that ends
/// there asks the window again, so nothing is promised.
#[inline(always)]
pub(crate) fn spaces_in(window: &[u8; WINDOW]) -> u64 {
    u8x64::from_slice(window)
        .simd_eq(u8x64::splat(b' '))
        .to_bitmask()
}

/// Which of these bytes are no digits, as the bits of a word from the lowest on.
#[inline(always)]
fn others_among(bytes: u8x64) -> u64
    ensures { result ≡ others_of bytes }
{
    (bytes - u8x64::splat(b'0'))
        .simd_ge(u8x64::splat(10))
        .to_bitmask()
}

/// The same of the window's first 64 bytes.
#[inline(always)]
pub(crate) fn others_in(window: &[u8; WINDOW]) -> u64
    ensures { result ≡ others_of (take 64 window.now) }
{
    others_among(u8x64::from_slice(window))
}

/// The eight bytes from a place on, the first of them the lowest of the word.
#[inline(always)]
fn word_at(window: &[u8], start: usize) -> u64
    requires { start + 8 ≤ length window.now }
    ensures token_number { result ≡ number_in_token (take 8 (drop start window.now)) }
    ensures bytes { AreBytes (take 8 (drop start window.now)) }
{
    u64::from_le_bytes([
        window[start],
        window[start + 1],
        window[start + 2],
        window[start + 3],
        window[start + 4],
        window[start + 5],
        window[start + 6],
        window[start + 7],
    ])
}

/// Where the first space among the window's first eight bytes stands, or 8 where none does. Whoever reads a number that ends
/// there asks the window again, so no more than the bound is promised.
#[inline(always)]
pub(crate) fn first_space(window: &[u8; WINDOW]) -> usize
    ensures { result ≤ 8 }
{
    let others = word_at(window, 0) ^ SPACES;
    let found = others.wrapping_sub(ONES) & !others & UPPER;
    (found.trailing_zeros() / 8) as usize
}

/// Whether each byte of a word is at most 9.
#[inline(always)]
fn are_digits(token_number: u64) -> bool
    ensures { result ≡ true → (bytes : List ℕ) → length bytes ≡ 8 → AreBytes bytes
        → token_number ≡ number_in_token bytes → AreCounts bytes }
{
    (token_number.wrapping_add(ABOVE) | token_number) & UPPER == 0
}

/// The number with these eight digits, the first of them the lowest byte.
#[inline(always)]
fn value_of(digits: u64) -> u32
    ensures { (counts : List ℕ) → length counts ≡ 8 → AreCounts counts
        → digits ≡ number_in_token counts → result ≡ number_of_counts counts }
{
    let pairs = (digits.wrapping_mul(TENS) >> 8) & PAIRS;
    let fours = (pairs.wrapping_mul(HUNDREDS) >> 16) & FOURS;
    (fours.wrapping_mul(TEN_THOUSANDS) >> 32) as u32
}

/// What stands from one place to the next, at most eight bytes, as the upper bytes of a word, each as far as it is behind `0`:
/// none where nothing stands there or more, or anything but a space stands behind it.
#[inline(always)]
fn word_within(window: &[u8; WINDOW], start: usize, end: usize) -> Option<u64>
    requires { (start + 8 ≤ length window.now) × (end < length window.now) }
    ensures token_number { IfSome result (λ token_number. token_number
        ≡ moved_up (drop start window.now) (end - start)) }
    ensures bytes { IfSome result (λ _. AreBytes (take 8 (drop start window.now))) }
    ensures some { IfSome result (λ _. start < end) }
    ensures few { IfSome result (λ _. end ≤ start + 8) }
    ensures space { IfSome result (λ _. slice_index window.now end ≡ 32) }
{
    let count = end.wrapping_sub(start);
    if count.wrapping_sub(1) > 7 || window[end] != b' ' {
        return None;
    }
    Some((word_at(window, start) ^ ZEROS) << (64 - 8 * count))
}

/// The number from one place to the next, which has at most eight digits and ends there at a space: none where anything
/// else stands there. Takes constant time.
#[inline(always)]
pub(crate) fn number_within(window: &[u8; WINDOW], start: usize, end: usize) -> Option<u32>
    requires { (start + 8 ≤ length window.now) × (end < length window.now) }
    ensures number { IfSome result
        (λ value. IsShortNumber (drop start window.now) value (drop (end + 1) window.now)) }
{
    let digits = word_within(window, start, end)?;
    if are_digits(digits) {
        Some(value_of(digits))
    } else {
        None
    }
}

/// The same where nothing but digits stands from the one place to the next, so that none is asked whether it is one.
#[inline(always)]
pub(crate) fn number_of_digits(window: &[u8; WINDOW], start: usize, end: usize) -> Option<u32>
    requires within { (start + 8 ≤ length window.now) × (end < length window.now) }
    requires digits { list_all is_ascii_digit (take (end - start) (drop start window.now)) ≡ true }
    ensures number { IfSome result
        (λ value. IsShortNumber (drop start window.now) value (drop (end + 1) window.now)) }
{
    let digits = word_within(window, start, end)?;
    Some(value_of(digits))
}
