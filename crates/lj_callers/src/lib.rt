//! Short callers of the libraries, which their pages show.
#![tactic(auto)]

pub mod books;
pub mod clauses;
pub mod hints;
pub mod sharing;
pub mod texts;
pub mod trims;
