//! What is wrong with a line, found without room for what it says.
ghost use Rattle.std.specs.Prelude.{◌≡◌, ◌<◌, ◌≤◌, ℤ, List, length, MatchResult, Ok, Err, false};
ghost use Rattle.lj_text.specs.Bytes.{tokens_of};
ghost use Rattle.lj_text.specs.Lines.{literals_then, numbers_of, hints_of, after_number, line_of};
ghost use Rattle.lj_text.specs.inner.LineReading.{Judges, token_numbers};
ghost use Rattle.lj_text.specs.LinesRead.{is_line_no_memory};
ghost use Rattle.lj_clause.specs.declared.lit.TheConstants.{MAX_VARIABLE};

use super::closing::{check_closed, cut_short};
use super::fault::LineFaultKind;
use super::parse::after_zero;
use crate::bytes::{TokenNumber, first_token_number, next_token, next_token_number};

/// Passes the literals up to a 0, and answers what follows it.
fn pass_literals(max: u32, ended: bool, bytes: &[u8]) -> Result<&[u8], LineFaultKind>
    ensures { MatchResult result (λ rest. (ls : List ℤ)
        × (literals_then max ended (token_numbers bytes.now) ≡ Ok (ls, token_numbers rest.now)))
        (λ kind. (literals_then max ended (token_numbers bytes.now) ≡ Err kind)
        × (is_line_no_memory kind ≡ false)) }
{
    let mut rest = bytes;
    while let Some((token_number, after)) = next_token_number(rest) {
        match token_number {
            TokenNumber::Positive(n) | TokenNumber::Negative(n) if n <= u64::from(max) => rest =
                after,
            TokenNumber::Zero => return Ok(after),
            TokenNumber::NoNumber => return Err(LineFaultKind::BadNumber),
            _ => return Err(LineFaultKind::NumberRange),
        }
    }
    Err(cut_short(ended))
}

/// Passes the numbers up to the closing 0.
fn pass_numbers(ended: bool, bytes: &[u8]) -> Result<(), LineFaultKind>
    ensures { Judges result (numbers_of ended (token_numbers bytes.now)) }
{
    let mut rest = bytes;
    while let Some((token_number, after)) = next_token_number(rest) {
        match token_number {
            TokenNumber::Positive(_) => rest = after,
            TokenNumber::Zero => return check_closed(after),
            TokenNumber::NoNumber => return Err(LineFaultKind::BadNumber),
            TokenNumber::Negative(_) => return Err(LineFaultKind::Syntax),
            TokenNumber::Beyond => return Err(LineFaultKind::NumberRange),
        }
    }
    Err(cut_short(ended))
}

/// Passes the hints and the groups up to the closing 0.
fn pass_hints(ended: bool, bytes: &[u8]) -> Result<(), LineFaultKind>
    ensures { Judges result (hints_of ended (token_numbers bytes.now)) }
{
    let mut rest = bytes;
    while let Some((token_number, after)) = next_token_number(rest) {
        match token_number {
            TokenNumber::Positive(_) | TokenNumber::Negative(_) => rest = after,
            TokenNumber::Zero => return check_closed(after),
            TokenNumber::NoNumber => return Err(LineFaultKind::BadNumber),
            TokenNumber::Beyond => return Err(LineFaultKind::NumberRange),
        }
    }
    Err(cut_short(ended))
}

/// Passes what follows a line's first number.
fn pass_after_number(max: u32, ended: bool, number: u64, bytes: &[u8]) -> Result<(), LineFaultKind>
    requires { max ≤ MAX_VARIABLE }
    ensures { Judges result (after_number max ended number (tokens_of bytes.now)) }
{
    match next_token(bytes) {
        None => Err(cut_short(ended)),
        Some(([b'd'], after)) => pass_numbers(ended, after),
        Some((token, _)) if number == 0 => Err(after_zero(max, token)),
        Some(([b'i'], after)) => check_closed(pass_literals(max, ended, after)?),
        Some(_) => pass_hints(ended, pass_literals(max, ended, bytes)?),
    }
}

/// Whether a line that isn't silent is right, or its fault. Takes time linear in the bytes.
#[cold]
pub(super) fn judge(max: u32, ended: bool, bytes: &[u8]) -> Result<(), LineFaultKind>
    requires { max ≤ MAX_VARIABLE }
    ensures { Judges result (line_of max ended (tokens_of bytes.now)) }
{
    match first_token_number(bytes) {
        None => Err(cut_short(ended)),
        Some((TokenNumber::NoNumber, _)) => Err(LineFaultKind::BadNumber),
        Some((TokenNumber::Zero, after)) => pass_after_number(max, ended, 0, after),
        Some((TokenNumber::Positive(number), after)) => pass_after_number(
            max, ended, number, after,
        ),
        Some((TokenNumber::Negative(_), _)) => Err(LineFaultKind::Syntax),
        Some((TokenNumber::Beyond, _)) => Err(LineFaultKind::NumberRange),
    }
}
