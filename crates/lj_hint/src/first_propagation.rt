//! The propagation over a first list of hints, whose clauses are looked up by number.
ghost use Rattle.std.specs.Prelude.{◌≡◌, IfOk, Ok, false};
ghost use Rattle.lj_clause.specs.LiteralSet.{from_literals, negations};
ghost use Rattle.lj_clause.specs.Propagation.{propagate, is_contradictory, Open};
ghost use Rattle.lj_hint.specs.Ending.{ending_of};

use crate::assignment::Assignment;
use crate::live::{Clauses, NumberHints, U32Hints};
use crate::propagate::{Ending, propagate_negation};
use crate::propagator::Propagator;
use lj_clause::{Clause, Lemma, NoMemory};
use lj_text::Numbers;

/// The propagation of a lemma's negation over hints that are looked up by number. The propagator may have served any
/// propagation before, and may serve any after.
///
/// Each hint is looked up once at most. Takes constant time for each literal that the propagation reads, or O(log n) where its
/// variable is beyond 2,047 and propagations have held less than half so many literals.
///
/// # Errors
/// [`NoMemory`] where a growth was refused.
pub fn propagate_first<C: Clauses>(
    clauses: &C,
    lemma: &Lemma,
    hints: &Numbers,
    propagator: &mut Propagator,
) -> Result<Ending, NoMemory>
    ensures { IfOk result (λ ending. ending ≡ ending_of
        (propagate (C.clauses clauses.now) (negations lemma.now.clause) hints.now)) }
{
    propagate_numbers(&mut propagator.lits, clauses, lemma.clause(), hints)
}

/// The propagation of a clause's negation over hints that are looked up by number. What is held at its end stays.
///
/// # Errors
/// [`NoMemory`] where a growth was refused.
#[inline]
pub(crate) fn propagate_numbers<C: Clauses>(
    assigned: &mut Assignment,
    clauses: &C,
    clause: &Clause,
    numbers: &Numbers,
) -> Result<Ending, NoMemory>
    ensures ending { IfOk result (λ ending. ending
        ≡ ending_of (propagate (C.clauses clauses.now) (negations clause.now) numbers.now)) }
    ensures assigned { result ≡ Ok Ending.StaysOpen
        → propagate (C.clauses clauses.now) (negations clause.now) numbers.now
        ≡ Open (from_literals assigned.new) }
    ensures consistent { result ≡ Ok Ending.StaysOpen
        → is_contradictory (from_literals assigned.new) ≡ false }
{
    match numbers.as_u32s() {
        Some(numbers) => propagate_negation(assigned, clause, &U32Hints { clauses, numbers }),
        None => {
            let numbers = numbers.iter();
            propagate_negation(assigned, clause, &NumberHints { clauses, numbers })
        }
    }
}
