//! Numbers as words of four bytes.

mod matching;
mod reading;
mod writing;

pub(crate) use matching::{groups_match, list_matches, numbers_match};
pub(crate) use reading::{behind_list, groups, list, number};
pub(crate) use writing::{put_groups, put_list, put_number, put_numbers};

/// The word that stands before a number which takes two words.
const LONG_MARK: u32 = u32::MAX;
