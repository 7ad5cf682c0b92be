//! One whole line.
ghost use Rattle.std.specs.Prelude.{◌≡◌, ◌≤◌, ◌∷◌, IfErr, IfOk, IsOk, List, OnErr, Some, pos, true, false, ℕ};
ghost use Rattle.lj_text.specs.Bytes.{number_of, tokens_of, is_silent};
ghost use Rattle.lj_clause.specs.Lemma.{lemma_of};
ghost use Rattle.lj_text.specs.Lines.{addition_of, hints_of, with_read, deletion_of, import_of, after_zero, after_number, greatest, line_of};
ghost use Rattle.lj_text.specs.inner.LineReading.{Gives, IsLineTold, token_numbers, line_said};
ghost use Rattle.lj_text.specs.LinesRead.{is_line_no_memory};
ghost use Rattle.lj_text.specs.declared.line.Line.TheVariants.{Add};
ghost use Rattle.lj_clause.specs.declared.lit.TheConstants.{MAX_VARIABLE};

use super::closing::{check_closed, cut_short};
use super::deletion::read_numbers;
use super::fault::LineFaultKind;
use super::hints::read_proof;
use super::judge::judge;
use super::literals::read_literals;
use super::scratch::Scratch;
use crate::boxed::Boxed;
use crate::bytes::{
    TokenNumber, after_blanks, first_token_number, next_token, number_in_token, short_number,
};
use crate::line::{Addition, Line};
use lj_clause::Clause;

/// The literals, hints and groups of an addition.
fn addition(
    scratch: &mut Scratch,
    max: u32,
    ended: bool,
    number: u64,
    bytes: &[u8],
) -> Result<Line, LineFaultKind>
    requires { max ≤ MAX_VARIABLE }
    ensures { Gives (λ line. line) result (addition_of max ended number (token_numbers bytes.now)) }
{
    let rest = read_literals(&mut scratch.literals, max, ended, bytes)?;
    let mut target = scratch.addition()?;
    write_addition(&mut target, scratch, ended, number, rest)?;
    Ok(Line::Add(Boxed::from_box(target)))
}

/// Writes an addition into a place: the literals that were read, and its hints and groups.
fn write_addition(
    target: &mut Addition,
    scratch: &mut Scratch,
    ended: bool,
    number: u64,
    bytes: &[u8],
) -> Result<(), LineFaultKind>
    ensures { Gives (λ _. Add target.new) result (with_read
        (λ read. Add (record {
          number = number;
          lemma = lemma_of scratch.old.literals.items;
          hints = read.0;
          groups = read.1;
        }))
        (hints_of ended (token_numbers bytes.now))) }
{
    read_proof(
        &mut target.hints,
        &mut target.groups,
        &mut scratch.numbers,
        ended,
        bytes,
    )?;
    target.lemma.put(scratch.alloc, &mut scratch.literals)?;
    target.number = number;
    Ok(())
}

/// The numbers of a deletion.
fn deletion(scratch: &mut Scratch, ended: bool, bytes: &[u8]) -> Result<Line, LineFaultKind>
    ensures { Gives (λ line. line) result (deletion_of ended (token_numbers bytes.now)) }
{
    read_numbers(&mut scratch.numbers, ended, bytes)?;
    Ok(scratch.deletion()?)
}

/// The literals of an import.
fn import(
    scratch: &mut Scratch,
    max: u32,
    ended: bool,
    number: u64,
    bytes: &[u8],
) -> Result<Line, LineFaultKind>
    requires { max ≤ MAX_VARIABLE }
    ensures { Gives (λ line. line) result (import_of max ended number (token_numbers bytes.now)) }
{
    let rest = read_literals(&mut scratch.literals, max, ended, bytes)?;
    check_closed(rest)?;
    Ok(Line::Import {
        number,
        clause: Boxed::new(
            scratch.alloc,
            Clause::from_scratch(scratch.alloc, &mut scratch.literals)?,
        )?,
    })
}

/// The fault of a second token that isn't `d`, where the first number is 0.
pub(super) fn after_zero(max: u32, token: &[u8]) -> LineFaultKind
    requires { max ≤ MAX_VARIABLE }
    ensures value { result ≡ after_zero max token.now }
    ensures no_memory { is_line_no_memory result ≡ false }
{
    match token {
        [b'i'] => LineFaultKind::Syntax,
        _ => match number_in_token(token) {
            TokenNumber::NoNumber => LineFaultKind::BadNumber,
            TokenNumber::Zero => LineFaultKind::Syntax,
            TokenNumber::Positive(n) | TokenNumber::Negative(n) if n <= u64::from(max) =>
                LineFaultKind::Syntax,
            _ => LineFaultKind::NumberRange,
        },
    }
}

/// What follows a line's first number.
fn after_number(
    scratch: &mut Scratch,
    max: u32,
    ended: bool,
    number: u64,
    bytes: &[u8],
) -> Result<Line, LineFaultKind>
    requires { max ≤ MAX_VARIABLE }
    ensures { Gives (λ line. line) result (after_number max ended number (tokens_of bytes.now)) }
{
    let rest = after_blanks(bytes);
    match rest {
        [b'd', ..] | [b'i', ..] | [] => after_any_number(scratch, max, ended, number, rest),
        _ => if number == 0 {
            after_any_number(scratch, max, ended, number, rest)
        } else {
            addition(scratch, max, ended, number, rest)
        },
    }
}

/// The same, whatever it is.
fn after_any_number(
    scratch: &mut Scratch,
    max: u32,
    ended: bool,
    number: u64,
    bytes: &[u8],
) -> Result<Line, LineFaultKind>
    requires { max ≤ MAX_VARIABLE }
    ensures { Gives (λ line. line) result (after_number max ended number (tokens_of bytes.now)) }
{
    match next_token(bytes) {
        None => Err(cut_short(ended)),
        Some(([b'd'], after)) => deletion(scratch, ended, after),
        Some((token, _)) if number == 0 => Err(after_zero(max, token)),
        Some(([b'i'], after)) => import(scratch, max, ended, number, after),
        Some(_) => addition(scratch, max, ended, number, bytes),
    }
}

/// The line's first number, and what follows it.
fn first_number(ended: bool, bytes: &[u8]) -> Result<(u64, &[u8]), LineFaultKind>
    ensures ok { IfOk result (λ found. (token : List ℕ)
        × (tokens_of bytes.now ≡ token ∷ tokens_of found.1.now)
        × (number_of token ≡ Some (pos found.0)) × (found.0 ≤ greatest)) }
    ensures err { IfErr result
        (λ kind. (max : ℕ) → IsLineTold kind (line_of max ended (tokens_of bytes.now))) }
{
    if let Some((number, after)) = short_number(bytes) {
        return Ok((u64::from(number), after));
    }
    match first_token_number(bytes) {
        None => Err(cut_short(ended)),
        Some((TokenNumber::NoNumber, _)) => Err(LineFaultKind::BadNumber),
        Some((TokenNumber::Zero, after)) => Ok((0, after)),
        Some((TokenNumber::Positive(number), after)) => Ok((number, after)),
        Some((TokenNumber::Negative(_), _)) => Err(LineFaultKind::Syntax),
        Some((TokenNumber::Beyond, _)) => Err(LineFaultKind::NumberRange),
    }
}

/// The line that isn't silent.
fn line(scratch: &mut Scratch, max: u32, ended: bool, bytes: &[u8]) -> Result<Line, LineFaultKind>
    requires { max ≤ MAX_VARIABLE }
    ensures { Gives (λ line. line) result (line_of max ended (tokens_of bytes.now)) }
{
    let (number, after) = first_number(ended, bytes)?;
    after_number(scratch, max, ended, number, after)
}

/// The same, where want of memory is told only of a line that is right: another line's fault comes before it.
fn line_or_fault(
    scratch: &mut Scratch,
    max: u32,
    ended: bool,
    bytes: &[u8],
) -> Result<Line, LineFaultKind>
    requires { max ≤ MAX_VARIABLE }
    ensures gives { Gives (λ line. line) result (line_of max ended (tokens_of bytes.now)) }
    ensures right { IfErr result
        (λ kind. is_line_no_memory kind ≡ true → IsOk (line_of max ended (tokens_of bytes.now))) }
{
    match line(scratch, max, ended, bytes) {
        Err(LineFaultKind::NoMemory(e)) => {
            judge(max, ended, bytes)?;
            Err(LineFaultKind::NoMemory(e))
        }
        read => read,
    }
}

/// What the bytes of a line say: nothing where it is silent. Takes time linear in the bytes, but for a lemma's sorting.
pub(super) fn parse(
    scratch: &mut Scratch,
    max: u32,
    ended: bool,
    bytes: &[u8],
) -> Result<Option<Line>, LineFaultKind>
    requires { max ≤ MAX_VARIABLE }
    ensures says { Gives (λ line. line) result (line_said max ended (tokens_of bytes.now)) }
    ensures speaks { OnErr result (is_silent (tokens_of bytes.now) ≡ false) }
    ensures right { IfErr result
        (λ kind. is_line_no_memory kind ≡ true → IsOk (line_of max ended (tokens_of bytes.now))) }
{
    let rest = after_blanks(bytes);
    match rest {
        [] => Ok(None),
        [b'c', ..] => Ok(None),
        _ => Ok(Some(line_or_fault(scratch, max, ended, rest)?)),
    }
}
