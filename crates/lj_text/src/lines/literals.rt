//! Lists of literals.
ghost use Rattle.std.specs.Prelude.{◌≡◌, ◌<◌, ◌≤◌, Bool, true, length, drop};
ghost use Rattle.lj_text.specs.Lines.{literals_then};
ghost use Rattle.lj_text.specs.inner.LineReading.{Gives, behind_literals, token_numbers};
ghost use Rattle.lj_text.specs.inner.ShortNumbers.{AreLiteralsAhead};
ghost use Rattle.lj_clause.specs.declared.lit.TheConstants.{MAX_VARIABLE};

use super::closing::cut_short;
use super::fault::LineFaultKind;
use crate::bytes::{
    TokenNumber, WINDOW, next_token_number, number_within, short_integer, spaces_in,
};
use lj_clause::Lit;

/// Takes the short literals at the front behind the others, and answers what follows them. Takes time linear in the bytes
/// that it passes.
#[inline(never)]
pub(super) fn short_literals<'a>(literals: &mut Vec<Lit>, max: u32, bytes: &'a [u8]) -> &'a [u8]
    requires { max ≤ MAX_VARIABLE }
    ensures ahead { AreLiteralsAhead max literals.old.items bytes.now
        literals.new.items result.now }
    ensures read { (ended : Bool)
        → behind_literals literals.new.items (literals_then max ended (token_numbers result.now))
        ≡ behind_literals literals.old.items (literals_then max ended (token_numbers bytes.now)) }
    ensures within { length result.now ≤ length bytes.now }
{
    let mut rest = bytes;
    while let Some(window) = rest.first_chunk::<WINDOW>() {
        let (count, goes_on) = literals_within(literals, max, window);
        let (_, after) = rest.split_at(count);
        if !goes_on {
            return after;
        }
        rest = after;
    }
    last_literals(literals, max, rest)
}

/// The same of those that end within a window: how many bytes they take, and whether there are any and nothing else stops
/// them.
#[inline(always)]
fn literals_within(literals: &mut Vec<Lit>, max: u32, window: &[u8; WINDOW]) -> (usize, bool)
    requires { max ≤ MAX_VARIABLE }
    ensures ahead { AreLiteralsAhead max literals.old.items window.now
        literals.new.items (drop result.0 window.now) }
    ensures within { result.0 ≤ 65 }
    ensures goes_on { result.1 ≡ true → 0 < result.0 }
{
    let mut spaces = spaces_in(window);
    let mut start = 0;
    while spaces != 0 {
        let end = spaces.trailing_zeros() as usize;
        let negative = window[start] == b'-';
        let digits = start + usize::from(negative);
        let Some(variable) = number_within(window, digits, end) else {
            return (start, false);
        };
        if variable == 0 || variable > max {
            return (start, false);
        }
        if literals.push(Lit::of(variable, negative)).is_err() {
            return (start, false);
        }
        start = end + 1;
        spaces &= spaces - 1;
    }
    (start, start != 0)
}

/// The same where fewer bytes follow than a window has.
#[inline(never)]
fn last_literals<'a>(literals: &mut Vec<Lit>, max: u32, bytes: &'a [u8]) -> &'a [u8]
    requires { max ≤ MAX_VARIABLE }
    ensures ahead { AreLiteralsAhead max literals.old.items bytes.now
        literals.new.items result.now }
    ensures within { length result.now ≤ length bytes.now }
{
    let mut rest = bytes;
    while let Some((variable, negative, after)) = short_integer(rest) {
        if variable == 0 || variable > max {
            return rest;
        }
        if literals.push(Lit::of(variable, negative)).is_err() {
            return rest;
        }
        rest = after;
    }
    rest
}

/// The literals up to a 0, and what follows it.
pub(super) fn read_literals<'a>(
    literals: &mut Vec<Lit>,
    max: u32,
    ended: bool,
    bytes: &'a [u8],
) -> Result<&'a [u8], LineFaultKind>
    requires { max ≤ MAX_VARIABLE }
    ensures { Gives (λ rest. (literals.new.items, token_numbers rest.now)) result
        (literals_then max ended (token_numbers bytes.now)) }
{
    literals.clear();
    let rest = short_literals(literals, max, bytes);
    if let [b'0', b' ', after @ ..] = rest {
        return Ok(after);
    }
    read_rest(literals, max, ended, rest)
}

/// The same, behind the literals that were read.
fn read_rest<'a>(
    literals: &mut Vec<Lit>,
    max: u32,
    ended: bool,
    bytes: &'a [u8],
) -> Result<&'a [u8], LineFaultKind>
    requires { max ≤ MAX_VARIABLE }
    ensures { Gives (λ rest. (literals.new.items, token_numbers rest.now)) result
        (behind_literals literals.old.items (literals_then max ended (token_numbers bytes.now))) }
{
    let mut rest = bytes;
    loop {
        let (number, after) = match next_token_number(rest) {
            Some((TokenNumber::Positive(variable), after)) if variable <= u64::from(max) => {
                (variable as i32, after)
            }
            Some((TokenNumber::Negative(variable), after)) if variable <= u64::from(max) => {
                (-(variable as i32), after)
            }
            Some((TokenNumber::Zero, after)) => return Ok(after),
            Some((TokenNumber::NoNumber, _)) => return Err(LineFaultKind::BadNumber),
            Some(_) => return Err(LineFaultKind::NumberRange),
            None => return Err(cut_short(ended)),
        };
        let literal = Lit::new(number).ok_or(LineFaultKind::NumberRange)?;
        literals.push(literal)?;
        rest = short_literals(literals, max, after);
    }
}
