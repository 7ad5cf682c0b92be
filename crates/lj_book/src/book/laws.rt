//! What is true of every book whose seats name variables as they like, whatever was called on it.
ghost use Rattle.std.specs.Prelude.{◌≡◌, Some, IsSome};
ghost use Rattle.lj_clause.specs.ClauseMap.{formula_map};
ghost use Rattle.lj_clause.specs.Truth.{IsSatisfiable, IsUnsatisfiable};
ghost use Rattle.lj_text.specs.Steps.{replay};
ghost use Rattle.lj_book.specs.State.{live, steps_of, verdict};
ghost use Rattle.lj_book.specs.Named.{beneath, IsNamedReached};
ghost use Rattle.lj_book.specs.NamedSolo.{IsProper, IsProperEvent, AreProper, NamedTidySeatsAreAlone, NamedFreshReceiptsAreNotStale};

use super::Book;
use crate::event::Event;
use crate::joint_book::laws as joint_laws;
use lj_clause::Lemma;

/// The history is legal: its entries, each of them legal where it stands, lead from a new book to this one. Takes constant
/// time.
pub fn history_is_legal(book: &Book)
    ensures { IsNamedReached book.now }
{
    let _ = &book.joint;
}

/// The live clauses, in joint variables, are what the steps of the history make of the formula. Takes constant time.
pub fn live_is_the_replay(book: &Book)
    ensures { replay (formula_map book.now.formula) (steps_of book.now.history)
        ≡ Some (live (beneath book.now)) }
{
    joint_laws::live_is_the_replay(&book.joint);
}

/// Some assignment satisfies the live clauses, in joint variables, if one satisfies the formula. Takes constant time.
pub fn live_is_satisfiable(book: &Book)
    ensures { IsSatisfiable (formula_map book.now.formula)
        → IsSatisfiable (live (beneath book.now)) }
{
    joint_laws::live_is_satisfiable(&book.joint);
}

/// No assignment satisfies the formula, if the history has an empty clause. Takes constant time.
pub fn refuted_is_unsatisfiable(book: &Book)
    ensures { IsSome (verdict book.now.history) → IsUnsatisfiable book.now.formula }
{
    joint_laws::refuted_is_unsatisfiable(&book.joint);
}

/// A seat whose commits each come after a take of its own with only its tests between is undisturbed: it is answered
/// as if it were alone, in its own variables, by what its own numbers are bound to. Takes constant time.
pub fn tidy_seats_are_alone()
    ensures { NamedTidySeatsAreAlone }
{}

/// A receipt that a seat commits right after its own test is never refused as stale. Takes constant time.
pub fn fresh_receipts_are_not_stale()
    ensures { NamedFreshReceiptsAreNotStale }
{}

/// The lemmas of the events can be written, as the law of tidy seats asks. Takes time linear in the events.
pub fn events_are_proper(events: &[Event])
    ensures { AreProper events.now }
{
    for event in events {
        event_is_proper(event);
    }
}

/// The event's lemma can be written, if it has one.
fn event_is_proper(event: &Event)
    ensures { IsProperEvent event.now }
{
    match event {
        Event::Take(_, addition) => lemma_is_proper(&addition.lemma),
        Event::Inside(_, addition) => lemma_is_proper(&addition.lemma),
        _ => {}
    }
}

/// The lemma can be written.
fn lemma_is_proper(lemma: &Lemma)
    ensures { IsProper lemma.now }
{
    if let Some(pivot) = lemma.pivot() {
        let _ = pivot.variable();
    }
}
