//! The text of an outcome.
ghost use Rattle.std.specs.Prelude.{◌≡◌, IfOk, is_some, string_bytes};
ghost use Rattle.lj_run.specs.OutcomeText.{outcome_text, verdict_line};

use crate::outcome::Outcome;
use std::alloc::{AllocError, Global};

/// The text of an outcome: a line for each stream, and that of the verdict. Takes time linear in how many streams there
/// are.
pub(crate) fn text_of<S>(alloc: Global, outcome: &Outcome<S>) -> Result<String, AllocError>
    ensures { IfOk result (λ text. string_bytes text ≡ outcome_text outcome.now) }
{
    let mut text = String::new(alloc);
    for (seat, report) in outcome.reports.iter().enumerate() {
        writeln!(text, "c stream {seat}: {report}")?;
    }
    text.push_str(line_of(outcome.verified.is_some()))?;
    Ok(text)
}

/// The line of a verdict.
fn line_of(verified: bool) -> &'static str
    ensures { result.now ≡ verdict_line verified }
{
    if verified {
        "s VERIFIED UNSAT\n"
    } else {
        "s NOT VERIFIED\n"
    }
}
