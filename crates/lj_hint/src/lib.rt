//! Hinted unit propagation: the propagation of a case's lemma over its hints, and the receipt of a propagation that closed.
//!
//! A call takes constant time where neither it nor its type tells a cost.
#![tactic(auto)]

mod assignment;
mod case;
mod covering;
mod first_propagation;
mod group_list;
mod hint_list;
mod laws;
mod live;
mod live_line;
mod open_case;
mod pair;
mod propagate;
mod propagator;
mod rat;
mod rat_refusal;
mod receipt;
mod stamps;
mod tested;
mod trail;

pub use case::Case;
pub use first_propagation::propagate_first;
pub use laws::{propagations_commute_with_renamings, propagations_go_by_clauses, receipt_implies};
pub use live::{Clauses, Live};
pub use live_line::{LineRefusal, Passed, test_line};
pub use open_case::rat_test;
pub use pair::Pair;
pub use propagate::Ending;
pub use propagator::Propagator;
pub use rat_refusal::RatRefusal;
pub use receipt::Receipt;
pub use tested::Tested;
