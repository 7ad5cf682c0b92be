//! The test of a line over the live clauses.
ghost use Rattle.std.specs.Prelude.{◌≡◌, ℕ};
ghost use Rattle.lj_clause.specs.LiteralSet.{negations};
ghost use Rattle.lj_clause.specs.Propagation.{propagate};
ghost use Rattle.lj_hint.specs.declared.live_line.LineRefusal.TheVariants.{Rat};
ghost use Rattle.lj_hint.specs.LineTest.{line_reply, IsLineReply};
ghost use Rattle.lj_book.specs.Calls.{IsReplyBy};
ghost use Rattle.lj_book.specs.inner.JointLines.{addition_of_parts, tested_line, refusal_of};

use crate::clause_log::ClauseLog;
use crate::joint_line::clear;
use crate::refusal::Refusal;
use lj_clause::{ClauseView, Lemma, Lit, NoMemory};
use lj_hint::{Clauses, LineRefusal, Live, Passed, Propagator, RatRefusal, test_line};
use lj_text::{Groups, Numbers};
use std::alloc::Global;

/// The live clauses of a book, lent.
#[derive(Drop)]
pub(crate) struct LiveClauses<'a> {
    alloc: Global,
    clause_log: &'a ClauseLog,
}

impl Clauses for LiveClauses<'_> {
    ghost clauses = { λ l. l.clause_log.now.live };

    #[inline]
    fn clause(&self, number: u64) -> Option<ClauseView<'_>> {
        self.clause_log.clause(number)
    }
}

impl Live for LiveClauses<'_> {
    fn candidates(&self, lit: Lit) -> Result<Vec<u64>, NoMemory> {
        self.clause_log.numbers_holding(self.alloc, lit)
    }
}

/// Puts the hints and the groups of an addition in joint numbers that the live clauses accept into their recorded form. Where the
/// candidates of a pivot were asked for, that is kept in mind, so that the lists of the clauses are tended before the next test.
///
/// # Errors
/// The refusal of its test, and [`Refusal::NoMemory`] where a growth was refused.
#[inline]
pub(crate) fn tested_line(
    alloc: Global,
    clause_log: &mut ClauseLog,
    lemma: &Lemma,
    hints: &mut Numbers,
    groups: &mut Groups,
    propagator: &mut Propagator,
) -> Result<(), Refusal>
    ensures reply { (number : ℕ) → IsReplyBy
        (λ _. addition_of_parts number lemma.now (hints.new, groups.new)) result
        (tested_line clause_log.old.live
        (addition_of_parts number lemma.now (hints.old, groups.old))) }
    ensures same { clause_log.new ≡ clause_log.old }
{
    clause_log.tend_lists();
    match test_over(alloc, clause_log, lemma, hints, groups, propagator) {
        Ok(Passed::Closed(read)) => {
            hints.truncate(read);
            clear(groups);
            Ok(())
        }
        Ok(Passed::AsGiven) => {
            clause_log.keep_in_mind(lemma);
            Ok(())
        }
        Ok(Passed::Covered(covered)) => {
            clause_log.keep_in_mind(lemma);
            *groups = covered;
            Ok(())
        }
        Err(LineRefusal::Stuck(place)) => Err(Refusal::HintNotUnit(place)),
        Err(LineRefusal::Rat(refusal)) => {
            clause_log.keep_in_mind(lemma);
            Err(refused(refusal))
        }
    }
}

/// The test of a line over these clauses.
///
/// # Errors
/// As [`test_line`].
#[inline]
fn test_over(
    alloc: Global,
    clause_log: &ClauseLog,
    lemma: &Lemma,
    hints: &Numbers,
    groups: &Groups,
    propagator: &mut Propagator,
) -> Result<Passed, LineRefusal>
    ensures { IsLineReply groups.now result
        (line_reply clause_log.now.live lemma.now.pivot groups.now
        (propagate clause_log.now.live (negations lemma.now.clause) hints.now)) }
{
    let live = LiveClauses { alloc, clause_log };
    test_line(alloc, &live, lemma, hints, groups, propagator)
}

/// The book's word for a refusal by the pivot.
fn refused(refusal: RatRefusal) -> Refusal
    ensures { result ≡ refusal_of (Rat refusal) }
{
    match refusal {
        RatRefusal::EmptyOpen => Refusal::EmptyOpen,
        RatRefusal::MissingGroup(n) => Refusal::MissingGroup(n),
        RatRefusal::GroupStuck(n, place) => Refusal::GroupStuck(n, place),
        RatRefusal::GroupOpen(n) => Refusal::GroupOpen(n),
        RatRefusal::NoMemory(e) => Refusal::NoMemory(e),
    }
}
