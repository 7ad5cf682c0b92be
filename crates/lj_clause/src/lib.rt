//! Literals, clauses, lemmas and formulas: a clause is the finite set of its literals.
//!
//! A call takes constant time where neither it nor its type tells a cost.
#![tactic(auto)]

mod clause;
mod clause_view;
pub mod examples;
mod formula;
mod in_order;
pub mod laws;
mod lemma;
mod lit;
mod literal_list;
mod memory;
mod renames;

pub use clause::Clause;
pub use clause_view::ClauseView;
pub use formula::{Formula, MAX_CLAUSES};
pub use lemma::Lemma;
pub use lit::{Lit, MAX_VARIABLE};
pub use memory::NoMemory;
pub use renames::Renames;
