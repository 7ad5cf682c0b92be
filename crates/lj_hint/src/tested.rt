//! The answers of a test.
use crate::case::Case;
use crate::receipt::Receipt;
use lj_clause::NoMemory;

/// How the test of a case ended.
#[derive(Debug, Drop)]
pub enum Tested {
    /// The propagation closed: the receipt of the hints that it read.
    Closed(Receipt),
    /// The propagation is open after the last hint: the case as it was.
    Open(Case),
    /// The propagation is stuck at the hint of this place, counted from 1: its clause has two or more literals left.
    Stuck(u64),
    /// A growth was refused: the case as it was.
    NoMemory(Case, NoMemory),
}
