//! The definitions at worked examples.
ghost use Rattle.lj_clause.specs.Examples.{PropagationExamples, RatExamples};

/// The propagation, at examples computed by hand. Takes constant time.
pub fn propagations()
    ensures { PropagationExamples }
{}

/// The test of candidates, at examples computed by hand. Takes constant time.
pub fn candidate_tests()
    ensures { RatExamples }
{}
