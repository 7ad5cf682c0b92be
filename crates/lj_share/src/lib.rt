//! The shared book: seats on many threads call one book, and each call is told the entry that it made.
//!
//! A call takes constant time where neither it nor its type tells a cost.
#![tactic(auto)]

mod account;
mod bindings;
mod book_id;
mod closed;
mod copies;
mod dead;
mod entry_log;
mod gate;
mod kept;
pub mod laws;
mod lists;
mod locked_book;
mod numbered;
mod opening_parts;
mod own_clauses;
mod runs;
mod seat;
mod shared;
mod taking;
mod told;
mod verdict;
mod with_entry;

pub use book_id::BookId;
pub use closed::Closed;
pub use gate::{Gate, NoGate};
pub use numbered::Numbered;
pub use opening_parts::OpeningParts;
pub use seat::Seat;
pub use shared::{SeatsOut, Shared};
pub use told::Told;
pub use verdict::Note;
