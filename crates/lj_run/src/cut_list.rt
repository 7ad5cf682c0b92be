//! Words in a row, cut where they take too much room.
use std::alloc::{AllocError, Global};

/// The most bytes of a row.
const MOST: usize = 200;

/// Words in a row. Those that don't fit into 200 bytes are left out, and two dots tell of them.
#[derive(Debug, Drop)]
pub(crate) struct CutList {
    text: String,
    between: &'static str,
    is_cut: bool,
}

impl CutList {
    /// No words, to be parted so.
    pub(crate) fn new(alloc: Global, between: &'static str) -> CutList {
        CutList {
            text: String::new(alloc),
            between,
            is_cut: false,
        }
    }

    /// Puts a word behind the others, where it fits.
    pub(crate) fn push(&mut self, word: &str) -> Result<(), AllocError> {
        if self.is_cut {
            return Ok(());
        }
        let between = if self.text.is_empty() {
            ""
        } else {
            self.between
        };
        let scratch = MOST.saturating_sub(self.text.len());
        if word.len() > scratch.saturating_sub(between.len()) {
            self.is_cut = true;
            return self.text.push_str(" ..");
        }
        self.text.push_str(between)?;
        self.text.push_str(word)
    }

    /// The row.
    pub(crate) fn into_text(self) -> String {
        self.text
    }
}
