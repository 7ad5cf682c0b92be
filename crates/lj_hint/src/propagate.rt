//! The propagation over hints: hinted unit propagation.
ghost use Rattle.std.specs.Prelude.{◌≡◌, ◌∷◌, IfOk, false, filter, not, neg_ℤ};
ghost use Rattle.lj_clause.specs.LiteralSet.{from_literals, holds, negations};
ghost use Rattle.lj_clause.specs.Propagation.{rest, propagate_over, is_contradictory, Open};
ghost use Rattle.lj_hint.specs.inner.Trail.{Extends};
ghost use Rattle.lj_hint.specs.inner.Rest.{rest_seen};
ghost use Rattle.lj_hint.specs.Ending.{ending_of};

use crate::assignment::Assignment;
use crate::hint_list::HintList;
use crate::trail::LentTrail;
use lj_clause::{Clause, ClauseView, Lit, NoMemory};

/// The literals of a clause that a propagation leaves open, seen up to two.
#[derive(Clone, Copy)]
pub(crate) enum Rest {
    /// The clause is false.
    Nothing,
    /// The clause is unit: this literal has to be true.
    One(Lit),
    /// Two or more.
    More,
}

/// How a propagation over hints ended.
#[derive(Clone, Copy, Debug, PartialEq, Eq)]
pub enum Ending {
    /// Closed, after it read so many hints.
    ClosedAfter(usize),
    /// Open after the last hint.
    StaysOpen,
    /// Stuck at the hint of this place, counted from 1.
    StuckAt(u64),
}

/// The propagation of a clause's negation over the hints.
///
/// # Errors
/// [`NoMemory`] where a growth was refused.
pub(crate) fn propagate_negation<H: HintList>(
    assigned: &mut Assignment,
    clause: &Clause,
    hints: &H,
) -> Result<Ending, NoMemory>
    ensures ending { IfOk result
        (λ ending. ending ≡ ending_of (propagate_over (negations clause.now) (H.hints hints.now))) }
    ensures assigned { result ≡ Ok Ending.StaysOpen
        → propagate_over (negations clause.now) (H.hints hints.now)
        ≡ Open (from_literals assigned.new) }
    ensures consistent { result ≡ Ok Ending.StaysOpen
        → is_contradictory (from_literals assigned.new) ≡ false }
{
    assigned.clear();
    assigned.insert_negations(clause.lits())?;
    propagate(assigned, hints)
}

/// The propagation of the literals that are held over the hints. Each clause is read once. No hint makes what is held
/// contradictory: the one literal that it leaves is one whose negation isn't held. Takes the time of [`HintList::clause`]
/// for each hint that it reads, and that of [`Trail::push`] for each literal of these clauses.
///
/// # Errors
/// [`NoMemory`] where a growth was refused.
#[inline(always)]
pub(crate) fn propagate<H: HintList>(
    assigned: &mut Assignment,
    hints: &H,
) -> Result<Ending, NoMemory>
    ensures ending { IfOk result
        (λ ending. ending ≡ ending_of (propagate_over (from_literals assigned.old)
        (H.hints hints.now))) }
    ensures assigned { result ≡ Ok Ending.StaysOpen
        → propagate_over (from_literals assigned.old) (H.hints hints.now)
        ≡ Open (from_literals assigned.new) }
    ensures consistent { result ≡ Ok Ending.StaysOpen
        → is_contradictory (from_literals assigned.new) ≡ false }
    ensures extends { Extends assigned.old assigned.new }
{
    if assigned.is_contradictory() {
        return Ok(Ending::ClosedAfter(0));
    }
    for index in 0..hints.count() {
        let Some(clause) = hints.clause(index) else {
            return Ok(Ending::StuckAt(index as u64 + 1));
        };
        match rest_of(assigned, &clause) {
            Rest::Nothing => return Ok(Ending::ClosedAfter(index + 1)),
            Rest::One(lit) => assigned.insert_unopposed(lit)?,
            Rest::More => return Ok(Ending::StuckAt(index as u64 + 1)),
        }
    }
    Ok(Ending::StaysOpen)
}

/// The literals of the clause whose negation isn't held. Takes the time of [`LentTrail::holds`] for each literal of the
/// clause.
#[inline(always)]
pub(crate) fn rest_of(assigned: &Assignment, clause: &ClauseView<'_>) -> Rest
    ensures { result ≡ rest_seen (rest clause.now (from_literals assigned.now)) }
{
    let lent = assigned.lent();
    let mut lits = clause.lits();
    while let [lit, others @ ..] = lits {
        if !lent.holds(lit.negated()) {
            return one_or_more(&lent, *lit, others);
        }
        lits = others;
    }
    Rest::Nothing
}

/// This literal, and those of the others whose negation isn't held.
#[inline(always)]
fn one_or_more(assigned: &LentTrail<'_>, lit: Lit, others: &[Lit]) -> Rest
    ensures { result ≡ rest_seen (lit ∷ filter
        (λ m. not (holds (from_literals assigned.now) (neg_ℤ m))) others.now) }
{
    let mut lits = others;
    while let [other, more @ ..] = lits {
        if !assigned.holds(other.negated()) {
            return Rest::More;
        }
        lits = more;
    }
    Rest::One(lit)
}
