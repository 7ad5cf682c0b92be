//! What a token says as a number.

ghost use Rattle.std.specs.Prelude.{◌≡◌, ◌<◌, ◌+◌, ◌*◌, ℕ, Some, None, IfSome, IfNone, option_map, option_and_then, pos};
ghost use Rattle.lj_text.specs.Bytes.{digits_value, negative, number_of};
ghost use Rattle.lj_text.specs.inner.TokenNumbers.{IsTokenNumber, Counts};

/// The greatest number of a clause.
pub(super) const GREATEST: u64 = 9_223_372_036_854_775_807;

/// What a token says.
#[derive(Clone, Copy, Debug, PartialEq, Eq)]
pub(crate) enum TokenNumber {
    /// The token is no number.
    NoNumber,
    Zero,
    /// A number from 1 to `GREATEST`.
    Positive(u64),
    /// A negative number, without its sign: from 1 to `GREATEST`.
    Negative(u64),
    /// A number whose absolute value is above `GREATEST`.
    Beyond,
}

/// One digit more; beyond `GREATEST` it only stays there.
fn appended(number: u64, digit: u64) -> u64
    requires digit { digit < 10 }
    ensures { Counts result (10 * number + digit) }
{
    if number > GREATEST / 10 {
        GREATEST + 1
    } else {
        10 * number + digit
    }
}

/// The value of one or more digits, or a number above `GREATEST` for any such value. Takes time linear in the digits.
pub(crate) fn digits_value(digits: &[u8]) -> Option<u64>
    ensures none { IfNone result (digits_value digits.now ≡ None) }
    ensures some { IfSome result (λ m. (n : ℕ) × (digits_value digits.now ≡ Some n) × Counts m n) }
{
    if digits.is_empty() {
        return None;
    }
    let mut value = 0;
    let mut rest = digits;
    while let [digit, after @ ..] = rest {
        if !digit.is_ascii_digit() {
            return None;
        }
        value = appended(value, u64::from(*digit - b'0'));
        rest = after;
    }
    Some(value)
}

/// What digits without a sign say.
fn unsigned(digits: &[u8]) -> TokenNumber
    ensures { IsTokenNumber result (option_map pos (digits_value digits.now)) }
{
    match digits_value(digits) {
        None => TokenNumber::NoNumber,
        Some(0) => TokenNumber::Zero,
        Some(value) => if value > GREATEST {
            TokenNumber::Beyond
        } else {
            TokenNumber::Positive(value)
        },
    }
}

/// What digits after a `-` say.
fn negative(digits: &[u8]) -> TokenNumber
    ensures { IsTokenNumber result (option_and_then negative (digits_value digits.now)) }
{
    match digits_value(digits) {
        None | Some(0) => TokenNumber::NoNumber,
        Some(value) => if value > GREATEST {
            TokenNumber::Beyond
        } else {
            TokenNumber::Negative(value)
        },
    }
}

/// What a token says.
pub(crate) fn number_in_token(token: &[u8]) -> TokenNumber
    ensures { IsTokenNumber result (number_of token.now) }
{
    match token {
        [b'-', digits @ ..] => negative(digits),
        _ => unsigned(token),
    }
}
