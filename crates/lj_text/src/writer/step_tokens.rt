//! The words of a step on their way to a sink.
ghost use Rattle.std.specs.Prelude.{◌≡◌, ◌≤◌, ℕ, [], ◌∷◌, ◌++◌, not, map, filter, flat_map, length, OnOk, OnErr};
ghost use Rattle.std.specs.Fmt.{decimal, signed_decimal};
ghost use Rattle.std.specs.Ordering.{eq_by_cmp};
ghost use Rattle.std.specs.Str.{byte};
ghost use Rattle.lj_clause.specs.Literal.{lit_cmp};
ghost use Rattle.lj_text.specs.StepText.{written_literals, group_tokens, addition_text, deletion_text};
ghost use Rattle.lj_text.specs.Writing.{spaced_token};
ghost use Rattle.lj_text.specs.inner.Writing.{Wrote, Broke, spaced_tokens};

use super::buffer::OutputBuffer;
use crate::groups::{Groups, LentGroup};
use crate::line::Addition;
use crate::numbers::{Numbers, NumbersIter};
use crate::sink::{Sink, SinkFault};
use itoa::Buffer;
use lj_clause::{Lemma, Lit};

/// Writes a word and what stands before it.
fn write_token<W: Sink>(
    sink: &mut W,
    buffer: &mut OutputBuffer,
    before: &[u8],
    token: &[u8],
) -> Result<(), SinkFault>
    requires unfailed { W.failures sink.old ≡ 0 }
    requires short { (length before.now ≤ 64) × (length token.now ≤ 64) }

    ensures wrote { OnOk result (Wrote (W.taken sink.old) buffer.old (W.taken sink.new) buffer.new
        (before.now ++ token.now)) }
    ensures unfailed { OnOk result (W.failures sink.new ≡ 0) }
    ensures broke { OnErr result (Broke (W.taken sink.old) buffer.old (W.taken sink.new)
        (before.now ++ token.now)) }
    ensures failed { OnErr result (W.failures sink.new ≡ 1) }
    ensures none { OnErr result (buffer.new ≡ []) }
{
    buffer.append(sink, before)?;
    buffer.append(sink, token)
}

/// Writes a number at the beginning of a line.
pub(super) fn write_first<W: Sink>(
    sink: &mut W,
    buffer: &mut OutputBuffer,
    number: u64,
) -> Result<(), SinkFault>
    requires { W.failures sink.old ≡ 0 }

    ensures wrote { OnOk result (Wrote (W.taken sink.old) buffer.old (W.taken sink.new) buffer.new
        (decimal number)) }
    ensures unfailed { OnOk result (W.failures sink.new ≡ 0) }
    ensures broke { OnErr result (Broke (W.taken sink.old) buffer.old (W.taken sink.new)
        (decimal number)) }
    ensures failed { OnErr result (W.failures sink.new ≡ 1) }
    ensures none { OnErr result (buffer.new ≡ []) }
{
    let mut digits = Buffer::new();
    buffer.append(sink, digits.format(number).as_bytes())
}

/// Writes a space and a number.
pub(super) fn write_number<W: Sink>(
    sink: &mut W,
    buffer: &mut OutputBuffer,
    number: u64,
) -> Result<(), SinkFault>
    requires { W.failures sink.old ≡ 0 }

    ensures wrote { OnOk result (Wrote (W.taken sink.old) buffer.old (W.taken sink.new) buffer.new
        (spaced_token (decimal number))) }
    ensures unfailed { OnOk result (W.failures sink.new ≡ 0) }
    ensures broke { OnErr result (Broke (W.taken sink.old) buffer.old (W.taken sink.new)
        (spaced_token (decimal number))) }
    ensures failed { OnErr result (W.failures sink.new ≡ 1) }
    ensures none { OnErr result (buffer.new ≡ []) }
{
    let mut digits = Buffer::new();
    write_token(sink, buffer, b" ", digits.format(number).as_bytes())
}

/// Writes a space and a literal.
pub(super) fn write_literal<W: Sink>(
    sink: &mut W,
    buffer: &mut OutputBuffer,
    literal: Lit,
) -> Result<(), SinkFault>
    requires { W.failures sink.old ≡ 0 }

    ensures wrote { OnOk result (Wrote (W.taken sink.old) buffer.old (W.taken sink.new) buffer.new
        (spaced_token (signed_decimal literal))) }
    ensures unfailed { OnOk result (W.failures sink.new ≡ 0) }
    ensures broke { OnErr result (Broke (W.taken sink.old) buffer.old (W.taken sink.new)
        (spaced_token (signed_decimal literal))) }
    ensures failed { OnErr result (W.failures sink.new ≡ 1) }
    ensures none { OnErr result (buffer.new ≡ []) }
{
    let mut digits = Buffer::new();
    write_token(sink, buffer, b" ", digits.format(literal.get()).as_bytes())
}

/// Writes a space and a candidate, with its `-`.
pub(super) fn write_candidate<W: Sink>(
    sink: &mut W,
    buffer: &mut OutputBuffer,
    number: u64,
) -> Result<(), SinkFault>
    requires { W.failures sink.old ≡ 0 }

    ensures wrote { OnOk result (Wrote (W.taken sink.old) buffer.old (W.taken sink.new) buffer.new
        (spaced_token (byte "-" ∷ decimal number))) }
    ensures unfailed { OnOk result (W.failures sink.new ≡ 0) }
    ensures broke { OnErr result (Broke (W.taken sink.old) buffer.old (W.taken sink.new)
        (spaced_token (byte "-" ∷ decimal number))) }
    ensures failed { OnErr result (W.failures sink.new ≡ 1) }
    ensures none { OnErr result (buffer.new ≡ []) }
{
    let mut digits = Buffer::new();
    write_token(sink, buffer, b" -", digits.format(number).as_bytes())
}

/// Writes numbers, each behind a space.
fn write_numbers<W: Sink>(
    sink: &mut W,
    buffer: &mut OutputBuffer,
    numbers: &Numbers,
) -> Result<(), SinkFault>
    requires { W.failures sink.old ≡ 0 }

    ensures wrote { OnOk result (Wrote (W.taken sink.old) buffer.old (W.taken sink.new) buffer.new
        (spaced_tokens (map decimal numbers.now))) }
    ensures unfailed { OnOk result (W.failures sink.new ≡ 0) }
    ensures broke { OnErr result (Broke (W.taken sink.old) buffer.old (W.taken sink.new)
        (spaced_tokens (map decimal numbers.now))) }
    ensures failed { OnErr result (W.failures sink.new ≡ 1) }
    ensures none { OnErr result (buffer.new ≡ []) }
{
    write_each(sink, buffer, numbers.iter())
}

/// Writes the numbers that are still to come, each behind a space.
fn write_each<W: Sink>(
    sink: &mut W,
    buffer: &mut OutputBuffer,
    numbers: NumbersIter<'_>,
) -> Result<(), SinkFault>
    requires { W.failures sink.old ≡ 0 }

    ensures wrote { OnOk result (Wrote (W.taken sink.old) buffer.old (W.taken sink.new) buffer.new
        (spaced_tokens (map decimal numbers.entry))) }
    ensures unfailed { OnOk result (W.failures sink.new ≡ 0) }
    ensures broke { OnErr result (Broke (W.taken sink.old) buffer.old (W.taken sink.new)
        (spaced_tokens (map decimal numbers.entry))) }
    ensures failed { OnErr result (W.failures sink.new ≡ 1) }
    ensures none { OnErr result (buffer.new ≡ []) }
{
    for number in numbers {
        write_number(sink, buffer, number)?;
    }
    Ok(())
}

/// Writes the literals other than the pivot, each behind a space.
fn write_others<W: Sink>(
    sink: &mut W,
    buffer: &mut OutputBuffer,
    literals: &[Lit],
    pivot: Lit,
) -> Result<(), SinkFault>
    requires { W.failures sink.old ≡ 0 }

    ensures wrote { OnOk result
        (Wrote (W.taken sink.old) buffer.old (W.taken sink.new) buffer.new (spaced_tokens
        (map signed_decimal (filter (λ l. not (eq_by_cmp lit_cmp l pivot)) literals.now)))) }
    ensures unfailed { OnOk result (W.failures sink.new ≡ 0) }
    ensures broke { OnErr result (Broke (W.taken sink.old) buffer.old (W.taken sink.new)
        (spaced_tokens
        (map signed_decimal (filter (λ l. not (eq_by_cmp lit_cmp l pivot)) literals.now)))) }
    ensures failed { OnErr result (W.failures sink.new ≡ 1) }
    ensures none { OnErr result (buffer.new ≡ []) }
{
    for literal in literals {
        if *literal != pivot {
            write_literal(sink, buffer, *literal)?;
        }
    }
    Ok(())
}

/// Writes the literals of a lemma, the pivot first, each behind a space.
fn write_literals<W: Sink>(
    sink: &mut W,
    buffer: &mut OutputBuffer,
    lemma: &Lemma,
) -> Result<(), SinkFault>
    requires { W.failures sink.old ≡ 0 }

    ensures wrote { OnOk result (Wrote (W.taken sink.old) buffer.old (W.taken sink.new) buffer.new
        (spaced_tokens (map signed_decimal (written_literals lemma.now)))) }
    ensures unfailed { OnOk result (W.failures sink.new ≡ 0) }
    ensures broke { OnErr result (Broke (W.taken sink.old) buffer.old (W.taken sink.new)
        (spaced_tokens (map signed_decimal (written_literals lemma.now)))) }
    ensures failed { OnErr result (W.failures sink.new ≡ 1) }
    ensures none { OnErr result (buffer.new ≡ []) }
{
    match lemma.pivot() {
        None => Ok(()),
        Some(pivot) => {
            write_literal(sink, buffer, pivot)?;
            write_others(sink, buffer, lemma.clause().lits(), pivot)
        }
    }
}

/// Writes a candidate and its hints, each behind a space.
fn write_group<W: Sink>(
    sink: &mut W,
    buffer: &mut OutputBuffer,
    group: LentGroup<'_>,
) -> Result<(), SinkFault>
    requires { W.failures sink.old ≡ 0 }

    ensures wrote { OnOk result (Wrote (W.taken sink.old) buffer.old (W.taken sink.new) buffer.new
        (spaced_tokens (group_tokens group.entry))) }
    ensures unfailed { OnOk result (W.failures sink.new ≡ 0) }
    ensures broke { OnErr result (Broke (W.taken sink.old) buffer.old (W.taken sink.new)
        (spaced_tokens (group_tokens group.entry))) }
    ensures failed { OnErr result (W.failures sink.new ≡ 1) }
    ensures none { OnErr result (buffer.new ≡ []) }
{
    write_candidate(sink, buffer, group.candidate)?;
    write_each(sink, buffer, group.hints)
}

/// Writes groups, one after the other.
fn write_groups<W: Sink>(
    sink: &mut W,
    buffer: &mut OutputBuffer,
    groups: &Groups,
) -> Result<(), SinkFault>
    requires { W.failures sink.old ≡ 0 }

    ensures wrote { OnOk result (Wrote (W.taken sink.old) buffer.old (W.taken sink.new) buffer.new
        (spaced_tokens (flat_map group_tokens groups.now))) }
    ensures unfailed { OnOk result (W.failures sink.new ≡ 0) }
    ensures broke { OnErr result (Broke (W.taken sink.old) buffer.old (W.taken sink.new)
        (spaced_tokens (flat_map group_tokens groups.now))) }
    ensures failed { OnErr result (W.failures sink.new ≡ 1) }
    ensures none { OnErr result (buffer.new ≡ []) }
{
    for group in groups.iter() {
        write_group(sink, buffer, group)?;
    }
    Ok(())
}

/// Writes the line of an addition.
pub(super) fn write_addition<W: Sink>(
    sink: &mut W,
    buffer: &mut OutputBuffer,
    addition: &Addition,
) -> Result<(), SinkFault>
    requires { W.failures sink.old ≡ 0 }

    ensures wrote { OnOk result (Wrote (W.taken sink.old) buffer.old (W.taken sink.new) buffer.new
        (addition_text addition.now)) }
    ensures unfailed { OnOk result (W.failures sink.new ≡ 0) }
    ensures broke { OnErr result (Broke (W.taken sink.old) buffer.old (W.taken sink.new)
        (addition_text addition.now)) }
    ensures failed { OnErr result (W.failures sink.new ≡ 1) }
    ensures none { OnErr result (buffer.new ≡ []) }
{
    write_first(sink, buffer, addition.number)?;
    write_literals(sink, buffer, &addition.lemma)?;
    buffer.append(sink, b" 0")?;
    write_numbers(sink, buffer, &addition.hints)?;
    write_groups(sink, buffer, &addition.groups)?;
    buffer.append(sink, b" 0\n")
}

/// Writes the line of a deletion.
pub(super) fn write_deletion<W: Sink>(
    sink: &mut W,
    buffer: &mut OutputBuffer,
    leading: u64,
    numbers: &Numbers,
) -> Result<(), SinkFault>
    requires { W.failures sink.old ≡ 0 }

    ensures wrote { OnOk result (Wrote (W.taken sink.old) buffer.old (W.taken sink.new) buffer.new
        (deletion_text leading numbers.now)) }
    ensures unfailed { OnOk result (W.failures sink.new ≡ 0) }
    ensures broke { OnErr result (Broke (W.taken sink.old) buffer.old (W.taken sink.new)
        (deletion_text leading numbers.now)) }
    ensures failed { OnErr result (W.failures sink.new ≡ 1) }
    ensures none { OnErr result (buffer.new ≡ []) }
{
    write_first(sink, buffer, leading)?;
    buffer.append(sink, b" d")?;
    write_numbers(sink, buffer, numbers)?;
    buffer.append(sink, b" 0\n")
}
