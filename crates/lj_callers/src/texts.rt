//! Formulas and proofs as texts.
ghost use Rattle.std.specs.Prelude.{◌≡◌, IfOk};
ghost use Rattle.lj_clause.specs.declared.lit.TheConstants.{MAX_VARIABLE};
ghost use Rattle.lj_text.specs.Cnf.{Spells};
ghost use Rattle.lj_text.specs.StepText.{proof_text};

use lj_clause::{Formula, MAX_VARIABLE};
use lj_text::{CnfFault, CnfReader, MemorySink, SinkFault, Step, write_proof};
use std::alloc::Global;

/// Reads a formula in DIMACS CNF.
pub fn read_formula(alloc: Global, text: &[u8]) -> Result<Formula, CnfFault>
    ensures { IfOk result (λ formula. Spells MAX_VARIABLE text.now formula) }
{
    let mut reader = CnfReader::new(alloc, MAX_VARIABLE);
    reader.feed(text)?;
    reader.finish()
}

/// Writes the steps of a proof of a formula with so many clauses.
pub fn text_of(alloc: Global, clauses: u64, steps: &[Step]) -> Result<Vec<u8>, SinkFault>
    ensures { IfOk result (λ text. text.items ≡ proof_text clauses steps.now) }
{
    let mut sink = MemorySink::new(alloc);
    write_proof(&mut sink, clauses, steps)?;
    Ok(sink.into_bytes())
}
