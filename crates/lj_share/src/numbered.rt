//! Lines with their numbers.
use lj_text::Line;

/// A line, and its number in its stream.
#[derive(Debug, Drop)]
pub struct Numbered {
    pub at: u64,
    pub line: Line,
}
