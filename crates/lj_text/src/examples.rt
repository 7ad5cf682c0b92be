//! The definitions at worked examples. The functions are never run, and so take no time.
ghost use Rattle.lj_text.specs.Examples.{StepExamples, TrimExamples};

/// Accepted steps and refutations, at examples computed by hand.
pub fn steps()
    ensures { StepExamples }
{}

/// Trimmed lists of steps, at examples computed by hand.
pub fn trimmed_lists()
    ensures { TrimExamples }
{}
