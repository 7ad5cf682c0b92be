//! Lines of an LRAT proof, under the numbers of whoever wrote them.
use crate::boxed::Boxed;
use crate::groups::Groups;
use crate::numbers::Numbers;
use lj_clause::{Clause, Lemma};

/// An addition: a lemma under a number, the hints of its unit propagation, and a group of hints for each candidate.
#[derive(Debug, Drop)]
pub struct Addition {
    pub number: u64,
    pub lemma: Lemma,
    pub hints: Numbers,
    pub groups: Groups,
}

/// One line of an LRAT proof. What it says stands in memory of its own, which a reader takes back for lines to come.
#[derive(Debug, Drop)]
pub enum Line {
    /// Adds a lemma.
    Add(Boxed<Addition>),
    /// Gives numbers up, in the order in which they are written.
    Delete(Boxed<Numbers>),
    /// Binds a number to a live clause with exactly these literals.
    Import { number: u64, clause: Boxed<Clause> },
}
