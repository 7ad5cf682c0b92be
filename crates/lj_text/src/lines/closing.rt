//! The tokens of a line as numbers, and its end.
ghost use Rattle.std.specs.Prelude.{◌≡◌, true, false};
ghost use Rattle.lj_text.specs.Lines.{if_closed, cut_short};
ghost use Rattle.lj_text.specs.inner.LineReading.{Gives, Judges, token_numbers};
ghost use Rattle.lj_text.specs.LinesRead.{is_line_no_memory};

use super::fault::LineFaultKind;
use crate::bytes::{TokenNumber, next_token_number};

/// The fault of a line that ends before its closing 0.
pub(super) fn cut_short(ended: bool) -> LineFaultKind
    ensures value { result ≡ cut_short ended }
    ensures no_memory { is_line_no_memory result ≡ false }
{
    if ended {
        LineFaultKind::Syntax
    } else {
        LineFaultKind::Truncated
    }
}

/// Asks that nothing follows the closing 0.
#[inline]
pub(super) fn check_closed(bytes: &[u8]) -> Result<(), LineFaultKind>
    ensures gives { Gives (λ _. true) result (if_closed true (token_numbers bytes.now)) }
    ensures judges { Judges result (if_closed true (token_numbers bytes.now)) }
{
    if bytes.is_empty() {
        return Ok(());
    }
    check_blank(bytes)
}

/// The same of any bytes.
#[cold]
fn check_blank(bytes: &[u8]) -> Result<(), LineFaultKind>
    ensures gives { Gives (λ _. true) result (if_closed true (token_numbers bytes.now)) }
    ensures judges { Judges result (if_closed true (token_numbers bytes.now)) }
{
    match next_token_number(bytes) {
        None => Ok(()),
        Some((TokenNumber::NoNumber, _)) => Err(LineFaultKind::BadNumber),
        Some(_) => Err(LineFaultKind::Syntax),
    }
}
