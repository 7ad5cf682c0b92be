//! The lines of the steps of entries, written from words and literals. Nothing here takes memory.
ghost use Rattle.std.specs.Prelude.{◌≡◌, ◌∷◌, ◌≤◌, Some, map, filter, filter_map, not, length, flat_map};
ghost use Rattle.std.specs.Fmt.{decimal, signed_decimal};
ghost use Rattle.std.specs.List.{AllByRecursion};
ghost use Rattle.std.specs.Ordering.{eq_by_cmp};
ghost use Rattle.lj_clause.specs.Literal.{lit_cmp};
ghost use Rattle.lj_text.specs.declared.step.Step.TheVariants.{Add};
ghost use Rattle.lj_text.specs.Needed.{if_some, up_to_empty};
ghost use Rattle.lj_text.specs.StepText.{group_tokens, addition_text, text_after};
ghost use Rattle.lj_text.specs.inner.Writing.{spaced_tokens};
ghost use Rattle.lj_text.specs.TokenWriting.{token_state, MayBeGiven, WasGiven};
ghost use Rattle.lj_book.specs.inner.Encoding.{number_in, list_in, hint_group_in, hint_groups_in};
ghost use Rattle.lj_book.specs.inner.Records.{lemma_lits, addition_in, call_in, step_in, named_in, call_lits, lits_in, entries_in, AreWritten};
ghost use Rattle.lj_book.specs.inner.StepLines.{kept_as_written, entry_text, entry_greatest, ends_proof};

use super::reading::{encoding_from, named};
use super::{ADDITION, ADOPT, DROP, IMPORT, KINDS, PART};
use crate::encoding::{behind_list, number};
use lj_clause::Lit;
use lj_text::{LineToken, Sink, TokenWriter};

/// Writes the numbers of the list at the front of the words, and answers what stands behind it.
fn write_list<'a, W: Sink>(writer: &mut TokenWriter, sink: &mut W, encoding: &'a [u32]) -> &'a [u32]
    requires { MayBeGiven (token_state (W.taken sink.old) (W.failures sink.old) writer.old) }

    ensures given { WasGiven (token_state (W.taken sink.old) (W.failures sink.old) writer.old)
        (spaced_tokens (map decimal (list_in encoding.now).0))
        (token_state (W.taken sink.new) (W.failures sink.new) writer.new) }
    ensures rest { result.now ≡ (list_in encoding.now).1 }
{
    let (count, mut rest) = number(encoding);
    for _ in 0..count {
        let (next, after) = number(rest);
        writer.token(sink, LineToken::Number(next));
        rest = after;
    }
    rest
}

/// Writes the group at the front of the words, and answers what stands behind it.
fn write_group<'a, W: Sink>(
    writer: &mut TokenWriter,
    sink: &mut W,
    encoding: &'a [u32],
) -> &'a [u32]
    requires { MayBeGiven (token_state (W.taken sink.old) (W.failures sink.old) writer.old) }

    ensures given { WasGiven (token_state (W.taken sink.old) (W.failures sink.old) writer.old)
        (spaced_tokens (group_tokens (hint_group_in encoding.now).0))
        (token_state (W.taken sink.new) (W.failures sink.new) writer.new) }
    ensures rest { result.now ≡ (hint_group_in encoding.now).1 }
{
    let (candidate, rest) = number(encoding);
    writer.token(sink, LineToken::Candidate(candidate));
    write_list(writer, sink, rest)
}

/// Writes the list of groups at the front of the words.
fn write_groups<W: Sink>(writer: &mut TokenWriter, sink: &mut W, encoding: &[u32])
    requires { MayBeGiven (token_state (W.taken sink.old) (W.failures sink.old) writer.old) }

    ensures given { WasGiven (token_state (W.taken sink.old) (W.failures sink.old) writer.old)
        (spaced_tokens (flat_map group_tokens (hint_groups_in encoding.now).0))
        (token_state (W.taken sink.new) (W.failures sink.new) writer.new) }
{
    let (count, mut rest) = number(encoding);
    for _ in 0..count {
        rest = write_group(writer, sink, rest);
    }
}

/// Writes the literals other than the pivot.
fn write_others<W: Sink>(writer: &mut TokenWriter, sink: &mut W, literals: &[Lit], pivot: Lit)
    requires { MayBeGiven (token_state (W.taken sink.old) (W.failures sink.old) writer.old) }

    ensures given { WasGiven (token_state (W.taken sink.old) (W.failures sink.old) writer.old)
        (spaced_tokens (map signed_decimal
        (filter (λ l. not (eq_by_cmp lit_cmp l pivot)) literals.now)))
        (token_state (W.taken sink.new) (W.failures sink.new) writer.new) }
{
    for literal in literals {
        if *literal != pivot {
            writer.token(sink, LineToken::Literal(*literal));
        }
    }
}

/// Writes the literals that a lemma is kept by: its pivot, and those that are others.
fn write_literals<W: Sink>(writer: &mut TokenWriter, sink: &mut W, literals: &[Lit])
    requires { MayBeGiven (token_state (W.taken sink.old) (W.failures sink.old) writer.old) }

    ensures given { WasGiven (token_state (W.taken sink.old) (W.failures sink.old) writer.old)
        (spaced_tokens (map signed_decimal (kept_as_written literals.now)))
        (token_state (W.taken sink.new) (W.failures sink.new) writer.new) }
{
    if let [pivot, others @ ..] = literals {
        writer.token(sink, LineToken::Literal(*pivot));
        write_others(writer, sink, others, *pivot);
    }
}

/// Writes the line of the addition behind its own number, and answers its number.
fn write_addition<W: Sink>(
    writer: &mut TokenWriter,
    sink: &mut W,
    lits: &[Lit],
    encoding: &[u32],
) -> u64
    requires may { MayBeGiven (token_state (W.taken sink.old) (W.failures sink.old) writer.old) }
    requires named { lits_in lits.now (number_in encoding.now).1
        ≡ lemma_lits (addition_in lits.now encoding.now).lemma }

    ensures given { WasGiven (token_state (W.taken sink.old) (W.failures sink.old) writer.old)
        (addition_text (addition_in lits.now encoding.now))
        (token_state (W.taken sink.new) (W.failures sink.new) writer.new) }
    ensures number { result ≡ (addition_in lits.now encoding.now).number }
{
    let (joint, rest) = number(encoding);
    let (literals, rest) = named(lits, rest);
    writer.begin_line(sink, joint);
    write_literals(writer, sink, literals);
    writer.token(sink, LineToken::End);
    let rest = write_list(writer, sink, rest);
    write_groups(writer, sink, rest);
    writer.token(sink, LineToken::End);
    writer.end_line(sink);
    joint
}

/// Writes the line of the deletion of the numbers in a list, if there are any. It begins with the number `greatest`.
fn write_deletion<W: Sink>(writer: &mut TokenWriter, sink: &mut W, greatest: u64, encoding: &[u32])
    requires { MayBeGiven (token_state (W.taken sink.old) (W.failures sink.old) writer.old) }

    ensures given { WasGiven (token_state (W.taken sink.old) (W.failures sink.old) writer.old)
        (entry_text greatest (if_some (list_in encoding.now).0))
        (token_state (W.taken sink.new) (W.failures sink.new) writer.new) }
{
    let (count, _) = number(encoding);
    if count == 0 {
        return;
    }
    writer.begin_line(sink, greatest);
    writer.token(sink, LineToken::Deletion);
    write_list(writer, sink, encoding);
    writer.token(sink, LineToken::End);
    writer.end_line(sink);
}

/// Writes the line of the step of a kind, behind the first number of its entry, if there is a step. A deletion begins with
/// the number `greatest`. Answers the greater of that and the number of an addition.
fn write_step<W: Sink>(
    writer: &mut TokenWriter,
    sink: &mut W,
    greatest: u64,
    lits: &[Lit],
    kind: u64,
    encoding: &[u32],
) -> u64
    requires may { MayBeGiven (token_state (W.taken sink.old) (W.failures sink.old) writer.old) }
    requires named { named_in lits.now kind encoding.now
        ≡ call_lits (call_in lits.now kind encoding.now) (step_in lits.now kind encoding.now) }

    ensures given { WasGiven (token_state (W.taken sink.old) (W.failures sink.old) writer.old)
        (entry_text greatest (step_in lits.now kind encoding.now))
        (token_state (W.taken sink.new) (W.failures sink.new) writer.new) }
    ensures greatest { result ≡ entry_greatest greatest (step_in lits.now kind encoding.now) }
{
    match kind {
        ADDITION | PART => {
            let (_, rest) = number(encoding);
            greatest.max(write_addition(writer, sink, lits, rest))
        }
        DROP => {
            write_deletion(writer, sink, greatest, behind_list(encoding));
            greatest
        }
        ADOPT | IMPORT => greatest,
        _ => {
            write_deletion(writer, sink, greatest, encoding);
            greatest
        }
    }
}

/// Whether the step of a kind, behind the first number of its entry, adds the empty clause.
fn ends_proof(lits: &[Lit], kind: u64, encoding: &[u32]) -> bool
    requires { named_in lits.now kind encoding.now
        ≡ call_lits (call_in lits.now kind encoding.now) (step_in lits.now kind encoding.now) }
    ensures { result ≡ ends_proof (step_in lits.now kind encoding.now) }
{
    match kind {
        ADDITION | PART => adds_empty(lits, encoding),
        _ => false,
    }
}

/// Whether the addition behind an own number has the empty clause.
fn adds_empty(lits: &[Lit], encoding: &[u32]) -> bool
    ensures { result ≡ ends_proof (Some (Add (addition_in lits.now (number_in encoding.now).1))) }
{
    let (_, rest) = number(encoding);
    let (_, rest) = number(rest);
    let (literals, _) = named(lits, rest);
    literals.is_empty()
}

/// Writes the lines of the steps of the entries that begin at these places, up to and including the first addition of the
/// empty clause. The formula has so many clauses. Takes time linear in the literals and numbers of these entries.
pub(super) fn write_entries<W: Sink>(
    writer: &mut TokenWriter,
    sink: &mut W,
    clauses: u64,
    lits: &[Lit],
    encoding: &[u32],
    starts: &[u64],
)
    requires may { MayBeGiven (token_state (W.taken sink.old) (W.failures sink.old) writer.old) }
    requires written { AreWritten lits.now encoding.now starts.now }

    ensures given { WasGiven (token_state (W.taken sink.old) (W.failures sink.old) writer.old)
        (text_after clauses (up_to_empty
        (filter_map (λ e. e.step) (entries_in lits.now encoding.now starts.now))))
        (token_state (W.taken sink.new) (W.failures sink.new) writer.new) }
{
    let mut greatest = clauses;
    for start in starts {
        let (head, rest) = number(encoding_from(encoding, *start));
        let kind = head % KINDS;
        greatest = write_step(writer, sink, greatest, lits, kind, rest);
        if ends_proof(lits, kind, rest) {
            return;
        }
    }
}
