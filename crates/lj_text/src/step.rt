//! Steps of a joint proof, under joint numbers.
use crate::line::Addition;
use crate::numbers::Numbers;

/// One step of a joint proof.
#[derive(Debug, Drop)]
pub enum Step {
    /// Adds a lemma under the next joint number.
    Add(Addition),
    /// Ends the life of these clauses.
    Delete { numbers: Numbers },
}
