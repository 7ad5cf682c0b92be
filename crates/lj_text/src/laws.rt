//! Laws of steps, for all clause maps, formulas and lists of steps: what a checker of steps may conclude. The functions
//! do nothing. They are never run, and so take no time.
ghost use Rattle.lj_text.specs.Laws.{AcceptedKeepsSatisfiable, ReplayKeepsSatisfiable, RefutedIsUnsatisfiable, RecordedLosesNothing, NeededIsLeast};
ghost use Rattle.lj_text.specs.ReadAgain.{WrittenIsReadAgain};

/// A satisfiable clause map stays satisfiable after an accepted step.
pub fn accepted_keeps_satisfiable()
    ensures { AcceptedKeepsSatisfiable }
{}

/// A satisfiable clause map stays satisfiable after any list of steps that are accepted in turn.
pub fn replay_keeps_satisfiable()
    ensures { ReplayKeepsSatisfiable }
{}

/// No assignment satisfies a formula that a list of steps refutes.
pub fn refuted_is_unsatisfiable()
    ensures { RefutedIsUnsatisfiable }
{}

/// An accepted addition is accepted in its recorded form too, with the same clause map after it.
pub fn recorded_loses_nothing()
    ensures { RecordedLosesNothing }
{}

/// The text of steps within the limits of a line is read by the line grammar as these steps, each in a line of its own.
pub fn written_is_read_again()
    ensures { WrittenIsReadAgain }
{}

/// The needed set is the least set that holds the number of the first addition of the empty clause and, with each
/// lemma in it, all the hints of that lemma.
pub fn needed_is_least()
    ensures { NeededIsLeast }
{}
