//! The steps that trimming keeps.
use lj_text::{AsStep, Step};

/// A step that trimming keeps.
#[derive(Debug, Drop)]
pub enum Kept<'a> {
    /// The step as it was.
    Whole(&'a Step),
    /// What is left of the step.
    Part(Step),
}

impl<'a> AsStep for Kept<'a> {
    ghost use Rattle.lj_trim.specs.Trimmed.{step_of};

    ghost step = { step_of };

    fn as_step(&self) -> &Step {
        match self {
            Kept::Whole(step) => step,
            Kept::Part(step) => step,
        }
    }
}
