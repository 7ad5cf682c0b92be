//! The part of a proof that its refutation needs.
ghost use Rattle.std.specs.Prelude.{◌≡◌, ◌≢◌, ◌++◌, true, length, map, Err, IfOk, OnOk};
ghost use Rattle.std.specs.List.{list_any};
ghost use Rattle.lj_text.specs.Steps.{adds_empty, refutes};
ghost use Rattle.lj_text.specs.StepText.{proof_text};
ghost use Rattle.lj_trim.specs.Laws.{AreAbove};
ghost use Rattle.lj_trim.specs.Trimmed.{step_of};
ghost use Rattle.lj_trim.specs.declared.trimming.TrimRefusal.TheVariants as TrimRefusal;

use lj_clause::Formula;
use lj_text::{Sink, SinkFault, Step, write_proof};
use lj_trim::{Kept, TrimRefusal, laws, trim};
use std::alloc::Global;

/// The steps that a refutation needs: they refute the formula too.
pub fn needed<'a>(
    alloc: Global,
    formula: &Formula,
    steps: &'a [Step],
) -> Result<Vec<Kept<'a>>, TrimRefusal>
    requires refuted { refutes formula.now steps.now ≡ true }
    requires above { AreAbove (length formula.now.clauses) steps.now }
    ensures refutes { IfOk result (λ kept. refutes formula.now (map step_of kept.items) ≡ true) }
    ensures found { list_any adds_empty steps.now ≡ true → result ≢ Err TrimRefusal.NoRefutation }
{
    laws::trimmed_refutes();
    trim(alloc, formula, steps)
}

/// Writes the lines of these steps.
pub fn write_needed<W: Sink>(
    sink: &mut W,
    formula: &Formula,
    kept: &[Kept<'_>],
) -> Result<(), SinkFault>
    requires { W.failures sink.old ≡ 0 }
    ensures { OnOk result (W.taken sink.new
        ≡ W.taken sink.old ++ proof_text (length formula.now.clauses) (map step_of kept.now)) }
{
    write_proof(sink, formula.len() as u64, kept)
}
