//! The steps of a history.
ghost use Rattle.std.specs.Prelude.{◌≡◌, ◌≢◌, ◌+◌, ◌++◌, [], IfOk, OnOk, OnErr};
ghost use Rattle.lj_text.specs.Needed.{up_to_empty};
ghost use Rattle.lj_text.specs.StepText.{proof_text};
ghost use Rattle.lj_text.specs.Writing.{IsBeginning, IsCutShort};
ghost use Rattle.lj_book.specs.State.{steps_of};

use crate::history::History;
use lj_clause::NoMemory;
use lj_text::{Sink, SinkFault, Step};
use std::marker::Model;

/// The steps of a history, in order, seen as a list. How they are held isn't told: [`Steps::to_vec`] gives
/// copies, and [`Steps::write_up_to_empty`] writes their lines.
#[derive(Debug, Drop)]
pub struct Steps {
    history: History,
}

impl Model for Steps {
    ghost use Rattle.std.specs.Prelude.{List};
    ghost use Rattle.std.specs.Coded.{coded_list};
    ghost use Rattle.lj_text.specs.declared.step.Step.{Step};
    ghost use Rattle.lj_book.specs.State.{steps_of};
    ghost use Rattle.lj_book.specs.inner.Codes.{step_code};

    ghost Value = { List Step };

    ghost coded = { coded_list step_code };

    ghost view = { λ s. steps_of s.history.entries };
}

impl Steps {
    /// Copies of the steps, in order. Takes time linear in the contents of the history, but O(n log n) for the n literals of
    /// a lemma, which are put in order again, and no memory where there is no step.
    ///
    /// # Errors
    /// [`NoMemory`] where a growth was refused.
    pub fn to_vec(&self) -> Result<Vec<Step>, NoMemory>
        ensures same { IfOk result (λ v. v.items ≡ self.now) }
        ensures some { OnErr result (self.now ≢ []) }
    {
        self.history.steps()
    }

    /// Writes the lines of the steps, up to and including the first addition of the empty clause, and gives the sink all of
    /// them. The formula has so many clauses. Takes time linear in the literals and numbers of the entries, and no memory: the
    /// sink is given many lines at a time.
    ///
    /// # Errors
    /// [`SinkFault`] where a write of the sink failed: it has taken a beginning of the text.
    pub fn write_up_to_empty<W: Sink>(&self, sink: &mut W, clauses: u64) -> Result<(), SinkFault>
        requires { W.failures sink.old ≡ 0 }

        ensures taken { OnOk result (W.taken sink.new
            ≡ W.taken sink.old ++ proof_text clauses (up_to_empty self.now)) }
        ensures ok { OnOk result (W.failures sink.new ≡ W.failures sink.old) }

        ensures cut_short { OnErr result (IsCutShort (W.taken sink.new)
            (W.taken sink.old ++ proof_text clauses (up_to_empty self.now))) }
        ensures onward { OnErr result (IsBeginning (W.taken sink.old) (W.taken sink.new)) }
        ensures err { OnErr result (W.failures sink.new ≡ W.failures sink.old + 1) }
    {
        self.history.write_up_to_empty(sink, clauses)
    }

    /// The steps of this history.
    pub(crate) fn new(history: History) -> Steps
        ensures { result ≡ steps_of history.entries }
    {
        Steps { history }
    }
}
