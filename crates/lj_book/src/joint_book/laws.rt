//! What is true of every book, whatever was called on it.
ghost use Rattle.std.specs.Prelude.{◌≡◌, Some, IsSome};
ghost use Rattle.lj_clause.specs.ClauseMap.{formula_map};
ghost use Rattle.lj_clause.specs.Truth.{IsSatisfiable, IsUnsatisfiable};
ghost use Rattle.lj_text.specs.Steps.{replay};
ghost use Rattle.lj_book.specs.State.{live, steps_of, verdict};
ghost use Rattle.lj_book.specs.History.{IsReached};

use super::JointBook;

/// The history is legal: its entries, each of them legal where it stands, lead from a new book to this one. Takes constant
/// time.
pub fn history_is_legal(book: &JointBook)
    ensures { IsReached book.now }
{
    let _ = &book.formula;
}

/// The live clauses are what the steps of the history make of the formula. Takes constant time.
pub fn live_is_the_replay(book: &JointBook)
    ensures { replay (formula_map book.now.formula) (steps_of book.now.history)
        ≡ Some (live book.now) }
{
    let _ = &book.formula;
}

/// Some assignment satisfies the live clauses, if one satisfies the formula. Takes constant time.
pub fn live_is_satisfiable(book: &JointBook)
    ensures { IsSatisfiable (formula_map book.now.formula) → IsSatisfiable (live book.now) }
{
    let _ = &book.formula;
}

/// No assignment satisfies the formula, if the history has an empty clause. Takes constant time.
pub fn refuted_is_unsatisfiable(book: &JointBook)
    ensures { IsSome (verdict book.now.history) → IsUnsatisfiable book.now.formula }
{
    let _ = &book.formula;
}
