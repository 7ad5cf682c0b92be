//! Lists of numbers.
ghost use Rattle.lj_text.specs.Lines.{numbers_of};
ghost use Rattle.lj_text.specs.inner.LineReading.{Gives, behind_numbers, token_numbers};

use super::closing::{check_closed, cut_short};
use super::fault::LineFaultKind;
use crate::bytes::{TokenNumber, next_token_number};
use crate::numbers::Numbers;

/// The numbers up to the closing 0.
pub(super) fn read_numbers(
    numbers: &mut Numbers,
    ended: bool,
    bytes: &[u8],
) -> Result<(), LineFaultKind>
    ensures { Gives (λ _. numbers.new) result (numbers_of ended (token_numbers bytes.now)) }
{
    numbers.clear();
    read_rest(numbers, ended, bytes)
}

/// The same, behind the numbers that were read. Takes time linear in the bytes and in the numbers that were read.
pub(super) fn read_rest(
    numbers: &mut Numbers,
    ended: bool,
    bytes: &[u8],
) -> Result<(), LineFaultKind>
    ensures { Gives (λ _. numbers.new) result
        (behind_numbers numbers.old (numbers_of ended (token_numbers bytes.now))) }
{
    let mut rest = numbers.read_short(bytes);
    loop {
        let Some((token_number, after)) = next_token_number(rest) else {
            return Err(cut_short(ended));
        };
        match token_number {
            TokenNumber::Positive(number) => numbers.push(number)?,
            TokenNumber::Zero => {
                check_closed(after)?;
                return Ok(());
            }
            TokenNumber::NoNumber => return Err(LineFaultKind::BadNumber),
            TokenNumber::Negative(_) => return Err(LineFaultKind::Syntax),
            TokenNumber::Beyond => return Err(LineFaultKind::NumberRange),
        }
        rest = numbers.read_short(after);
    }
}
