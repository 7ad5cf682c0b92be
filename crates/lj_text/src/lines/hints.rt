//! Hints and groups of hints.
ghost use Rattle.std.specs.Prelude.{◌≡◌, ◌<◌, [], length, IfSome, IfOk};
ghost use Rattle.lj_text.specs.Lines.{hints_of, with_read};
ghost use Rattle.lj_text.specs.inner.LineReading.{Gives, HintsGive, token_numbers, group_before, behind_hints};

use super::closing::{check_closed, cut_short};
use super::fault::LineFaultKind;
use crate::bytes::{TokenNumber, next_token_number};
use crate::groups::Groups;
use crate::numbers::Numbers;

/// The hints up to the closing 0 or a candidate, behind those that were read, and that candidate with what follows it.
fn read_hints<'a>(
    hints: &mut Numbers,
    ended: bool,
    bytes: &'a [u8],
) -> Result<Option<(u64, &'a [u8])>, LineFaultKind>
    ensures hints { HintsGive ended hints.new result
        (behind_hints hints.old (hints_of ended (token_numbers bytes.now))) }
    ensures shorter { IfOk result
        (λ next. IfSome next (λ next. length next.1.now < length bytes.now)) }
{
    let mut rest = hints.read_short(bytes);
    loop {
        let Some((token_number, after)) = next_token_number(rest) else {
            return Err(cut_short(ended));
        };
        match token_number {
            TokenNumber::Positive(number) => hints.push(number)?,
            TokenNumber::Negative(candidate) => return Ok(Some((candidate, after))),
            TokenNumber::Zero => {
                check_closed(after)?;
                return Ok(None);
            }
            TokenNumber::NoNumber => return Err(LineFaultKind::BadNumber),
            TokenNumber::Beyond => return Err(LineFaultKind::NumberRange),
        }
        rest = hints.read_short(after);
    }
}

/// The groups up to the closing 0, where the first one's candidate was read.
fn read_groups(
    groups: &mut Groups,
    scratch: &mut Numbers,
    ended: bool,
    first: u64,
    bytes: &[u8],
) -> Result<(), LineFaultKind>
    requires { groups.old ≡ [] }
    ensures { Gives (λ _. groups.new) result
        (with_read (group_before first) (hints_of ended (token_numbers bytes.now))) }
{
    let mut candidate = first;
    let mut rest = bytes;
    loop {
        scratch.clear();
        let next = read_hints(scratch, ended, rest)?;
        groups.push(candidate, scratch.iter())?;
        match next {
            None => {
                scratch.let_go_of_many();
                return Ok(());
            }
            Some((number, after)) => {
                candidate = number;
                rest = after;
            }
        }
    }
}

/// The hints behind those that were read into the room, and the groups, up to the closing 0.
pub(super) fn read_rest(
    hints: &mut Numbers,
    groups: &mut Groups,
    scratch: &mut Numbers,
    ended: bool,
    bytes: &[u8],
) -> Result<(), LineFaultKind>
    requires { groups.old ≡ [] }
    ensures { Gives (λ _. (hints.new, groups.new)) result
        (behind_hints scratch.old (hints_of ended (token_numbers bytes.now))) }
{
    let next = read_hints(scratch, ended, bytes)?;
    hints.take_over(scratch)?;
    scratch.let_go_of_many();
    if let Some((candidate, after)) = next {
        read_groups(groups, scratch, ended, candidate, after)?;
    }
    Ok(())
}

/// Reads the hints and the groups up to the closing 0.
pub(super) fn read_proof(
    hints: &mut Numbers,
    groups: &mut Groups,
    scratch: &mut Numbers,
    ended: bool,
    bytes: &[u8],
) -> Result<(), LineFaultKind>
    ensures { Gives (λ _. (hints.new, groups.new)) result
        (hints_of ended (token_numbers bytes.now)) }
{
    scratch.clear();
    groups.clear();
    read_rest(hints, groups, scratch, ended, bytes)
}
