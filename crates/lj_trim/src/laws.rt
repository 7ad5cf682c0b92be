//! Laws of trimming, for all formulas and lists of steps. The functions do nothing.
ghost use Rattle.lj_trim.specs.Laws.{FrontRefutes, TrimmedRefutes};

/// Steps that refute a formula refute it up to the first addition of the empty clause. Takes constant time.
pub fn front_refutes()
    ensures { FrontRefutes }
{}

/// The trimmed list of steps that refute a formula refutes it, where no addition has the number of a clause of the
/// formula. So whoever accepts the steps accepts the trimmed list. Takes constant time.
pub fn trimmed_refutes()
    ensures { TrimmedRefutes }
{}
