//! What a seat keeps, while a call of it is on its way to the book. A number that the call binds is bound ahead, under the joint
//! number 0; once the book has answered, it gets its joint number, or is taken back.
ghost use Rattle.std.specs.Prelude.{◌≡◌, None, Some, OnOk, OnErr, IfErr};
ghost use Rattle.lj_clause.specs.LiteralSet.{LiteralSet};
ghost use Rattle.lj_text.specs.declared.line.Line.TheVariants as lines;
ghost use Rattle.lj_share.specs.Refusals.{IsDecided};
ghost use Rattle.lj_share.specs.inner.Seats.{IsLineBegun, IsFinished, IsKeptAs, IsTakenBack, kept_refusal, number_refusal, pairs_kept};

use crate::own_clauses::OwnClauses;
use lj_book::Refusal;
use lj_clause::{Clause, Formula};
use lj_text::{Line, Numbers};
use std::marker::Model;

/// Begins a line.
///
/// # Errors
/// As [`bind_ahead`].
pub(crate) fn begin(
    kept: &mut Option<OwnClauses>,
    formula: &Formula,
    line: &Line,
) -> Result<(), Refusal>
    ensures begun { OnOk result (IsLineBegun formula.now line.now kept.old kept.new) }
    ensures err { OnErr result
        (IsKeptAs formula.now kept.old (pairs_kept formula.now kept.old) kept.new) }
    ensures refusal { IfErr result
        (IsDecided (number_refusal formula.now kept.old line.now)) }
{
    match line {
        Line::Add(addition) => {
            bind_ahead(kept, formula, addition.number, addition.lemma.clause())
        }
        Line::Delete(_) if kept.is_none() => Err(Refusal::SeatGone),
        Line::Delete(_) => Ok(()),
        Line::Import { number, clause } => bind_ahead(kept, formula, *number, clause),
    }
}

/// Binds an own number ahead of the call that is to bind it to this clause, whose literals are shared.
///
/// # Errors
/// [`Refusal::SeatGone`], [`Refusal::NumberTaken`], and [`Refusal::NoMemory`] where a growth was refused.
pub(crate) fn bind_ahead(
    kept: &mut Option<OwnClauses>,
    formula: &Formula,
    own: u64,
    clause: &Clause,
) -> Result<(), Refusal>
    ensures begun { OnOk result
        (IsLineBegun formula.now (lines.Import own clause.now) kept.old kept.new) }
    ensures err { OnErr result
        (IsKeptAs formula.now kept.old (pairs_kept formula.now kept.old) kept.new) }
    ensures refusal { IfErr result (IsDecided (kept_refusal formula.now kept.old own)) }
{
    let Some(clauses) = kept else {
        return Err(Refusal::SeatGone);
    };
    if clauses.clause(formula, own).is_some() {
        return Err(Refusal::NumberTaken);
    }
    match clauses.insert(own, clause) {
        Ok(()) => Ok(()),
        Err(refused) => Err(Refusal::NoMemory(refused)),
    }
}

/// Whether the seat is there, and an own number free.
///
/// # Errors
/// [`Refusal::SeatGone`] and [`Refusal::NumberTaken`].
pub(crate) fn free(kept: &Option<OwnClauses>, formula: &Formula, own: u64) -> Result<(), Refusal>
    ensures free { OnOk result (kept_refusal formula.now kept.now own ≡ None) }
    ensures refusal { IfErr result (λ e. kept_refusal formula.now kept.now own ≡ Some e) }
{
    match kept {
        Some(clauses) if clauses.clause(formula, own).is_some() => Err(Refusal::NumberTaken),
        Some(_) => Ok(()),
        None => Err(Refusal::SeatGone),
    }
}

/// Finishes a line that was begun, and entered: a number that it binds has this joint number.
pub(crate) fn finish(kept: &mut Option<OwnClauses>, line: &Line, joint: u64)
    ensures { IsFinished line.now joint kept.old kept.new }
{
    match line {
        Line::Add(addition) => settle(kept, addition.number, joint),
        Line::Delete(numbers) => give_up(kept, numbers),
        Line::Import { number, .. } => settle(kept, *number, joint),
    }
}

/// Takes a line back that was begun, and refused.
pub(crate) fn take_back(kept: &mut Option<OwnClauses>, line: &Line)
    ensures { IsTakenBack line.now kept.old kept.new }
{
    match line {
        Line::Add(addition) => unbind(kept, addition.number),
        Line::Delete(_) => {}
        Line::Import { number, .. } => unbind(kept, *number),
    }
}

/// Gives an own number that was bound ahead its joint number.
pub(crate) fn settle(kept: &mut Option<OwnClauses>, own: u64, joint: u64)
    ensures { (clause : LiteralSet) → IsFinished (lines.Import own clause) joint kept.old kept.new }
{
    if let Some(clauses) = kept {
        clauses.set_joint(own, joint);
    }
}

/// Takes an own number back that was bound ahead.
pub(crate) fn unbind(kept: &mut Option<OwnClauses>, own: u64)
    ensures { (clause : LiteralSet) → IsTakenBack (lines.Import own clause) kept.old kept.new }
{
    if let Some(clauses) = kept {
        clauses.remove(own);
    }
}

/// Gives these own numbers up.
fn give_up(kept: &mut Option<OwnClauses>, numbers: &Numbers)
    ensures { IsFinished (lines.Delete numbers.now) 0 kept.old kept.new }
{
    if let Some(clauses) = kept {
        clauses.remove_all(numbers);
    }
}
