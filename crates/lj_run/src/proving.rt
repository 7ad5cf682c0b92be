//! The proof of a run.
ghost use Rattle.std.specs.Prelude.{◌≡◌, ℕ, true, length, map, is_some, IfSome};
ghost use Rattle.std.specs.List.{list_any};
ghost use Rattle.lj_clause.specs.ClauseMap.{FormulaValue};
ghost use Rattle.lj_text.specs.Steps.{adds_empty};
ghost use Rattle.lj_text.specs.Needed.{up_to_empty};
ghost use Rattle.lj_text.specs.StepText.{proof_text};
ghost use Rattle.lj_run.specs.Proof.{IsProof, IsProofEnd, IsTextEnd, sink_state};

use crate::outcome::{ProofEnd, ProofFault};
use lj_book::{Steps, Verified};
use lj_clause::Formula;
use lj_text::{AsStep, Sink, Step, write_proof};
use lj_trim::{TrimRefusal, trim};
use std::alloc::Global;

/// Writes the proof of a run's steps, if it is asked for. The formula has so many clauses, and is verified where some step
/// adds the empty clause.
pub(crate) fn prove<W: Sink>(
    alloc: Global,
    clauses: u64,
    verified: &Option<Verified>,
    trims: bool,
    steps: &Steps,
    out: &mut Option<W>,
) -> ProofEnd
    requires unfailed { IfSome out.old (λ sink. W.failures sink ≡ 0) }
    requires verified { is_some verified.now ≡ list_any adds_empty steps.now }
    ensures { (f : FormulaValue) → clauses ≡ length f.clauses → IfSome verified.now (λ g. g ≡ f)
        → IsProof (sink_state W.taken W.failures) f trims steps.now out.old out.new result }
{
    let Some(sink) = out else {
        return ProofEnd::NotAsked;
    };
    match verified {
        Some(verified) if trims => write_trimmed(alloc, verified.formula(), steps, sink),
        _ => write_untrimmed(sink, clauses, steps),
    }
}

/// Writes the steps up to and including the first addition of the empty clause. Takes no memory.
fn write_untrimmed<W: Sink>(sink: &mut W, clauses: u64, steps: &Steps) -> ProofEnd
    requires { W.failures sink.old ≡ 0 }
    ensures { IsTextEnd (proof_text clauses (up_to_empty steps.now))
        (sink_state W.taken W.failures sink.old) (sink_state W.taken W.failures sink.new) result }
{
    if steps.write_up_to_empty(sink, clauses).is_err() {
        return ProofEnd::Failed(ProofFault::Device);
    }
    ProofEnd::Written
}

/// Writes the trimmed proof of steps that add the empty clause. Copies them to trim them.
fn write_trimmed<W: Sink>(alloc: Global, formula: &Formula, steps: &Steps, sink: &mut W) -> ProofEnd
    requires unfailed { W.failures sink.old ≡ 0 }
    requires some { list_any adds_empty steps.now ≡ true }
    ensures { IsProofEnd formula.now true steps.now (sink_state W.taken W.failures sink.old)
        (sink_state W.taken W.failures sink.new) result }
{
    match steps.to_vec() {
        Ok(steps) => trim_and_write(alloc, formula, &steps, sink),
        Err(e) => ProofEnd::Failed(ProofFault::NoMemory(e)),
    }
}

/// Trims steps that add the empty clause, and writes what is left of them.
fn trim_and_write<W: Sink>(
    alloc: Global,
    formula: &Formula,
    steps: &[Step],
    sink: &mut W,
) -> ProofEnd
    requires unfailed { W.failures sink.old ≡ 0 }
    requires some { list_any adds_empty steps.now ≡ true }
    ensures { IsProofEnd formula.now true steps.now (sink_state W.taken W.failures sink.old)
        (sink_state W.taken W.failures sink.new) result }
{
    match trim(alloc, formula, steps) {
        Ok(kept) => written(sink, formula.len() as u64, &kept),
        Err(TrimRefusal::NoRefutation) => written(sink, formula.len() as u64, steps),
        Err(TrimRefusal::NoMemory(e)) => ProofEnd::Failed(ProofFault::NoMemory(e)),
    }
}

/// Writes steps, and answers what became of them.
fn written<W: Sink, S: AsStep>(sink: &mut W, clauses: u64, steps: &[S]) -> ProofEnd
    requires { W.failures sink.old ≡ 0 }
    ensures { IsTextEnd (proof_text clauses (map S.step steps.now))
        (sink_state W.taken W.failures sink.old) (sink_state W.taken W.failures sink.new) result }
{
    match write_proof(sink, clauses, steps) {
        Ok(()) => ProofEnd::Written,
        Err(_) => ProofEnd::Failed(ProofFault::Device),
    }
}
