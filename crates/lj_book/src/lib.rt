//! The book: the tables of several seats, the clauses that live, and the history of the calls that were accepted.
//!
//! A call takes constant time where neither it nor its type tells a cost.
#![tactic(auto)]

mod book;
mod clause_log;
mod committing;
mod counts;
mod dying;
mod early_table;
mod encoding;
mod entry;
mod event;
mod first_uses;
mod found;
mod history;
mod inside_laws;
mod joint_book;
mod joint_forms;
mod joint_line;
mod lent_addition;
mod lent_clauses;
mod line_tests;
mod lit_range;
mod number_map;
mod occurrence_lists;
mod opened;
mod own_map;
mod part;
mod pending;
mod private_laws;
mod refusal;
mod same;
mod seat_table;
mod seat_tables;
mod slot_map;
mod steps;
mod stored_clauses;
mod taking;
mod tree_map;
mod variable_laws;
mod variable_table;
mod verified;

pub use book::{Book, laws};
pub use entry::{Added, Call, Dropped, Entry, Imported};
pub use event::{Event, Reply};
pub use inside_laws::additions_are_beneath;
pub use own_map::OwnMap;
pub use private_laws::private_replies_are_alone;
pub use refusal::Refusal;
pub use steps::Steps;
pub use variable_laws::{
    beneath_is_reached, clauses_give_variables, decided_alone, decided_beneath, free_alone,
    images_are_own, legal_entries_enter, named_clauses_give_none, no_variables_at_first,
    private_candidates_are_seen, private_clauses_are_held, private_tests_are_alone,
    seats_hold_the_formula, seats_hold_their_own, takes_are_alone, views_follow_entries,
};
pub use verified::Verified;
