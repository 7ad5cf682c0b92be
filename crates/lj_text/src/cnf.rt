//! Formulas in DIMACS CNF.

mod body;
mod fault;
mod header;
mod laws;
mod reader;
mod state;

pub use fault::{CnfFault, CnfFaultKind};
pub use laws::spells_or_has_a_fault;
pub use reader::CnfReader;
