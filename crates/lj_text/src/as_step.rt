//! What lends a step.
ghost use Rattle.std.specs.Prelude.{◌≡◌};

use crate::step::Step;

/// What lends a step: the step itself, or what holds one.
pub trait AsStep {
    ghost use Rattle.lj_text.specs.declared.step.Step.{Step};

    /// The step.
    ghost step: { Self → Step };

    /// Lends the step. Takes constant time.
    fn as_step(&self) -> &Step
        ensures { result.now ≡ step self.now };
}

impl AsStep for Step {
    ghost step = { λ s. s };

    fn as_step(&self) -> &Step {
        self
    }
}
