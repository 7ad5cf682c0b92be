//! The lines of a script.
use std::str::Lines;

/// The lines of a script that aren't read yet.
#[derive(Drop)]
pub struct Script<'a> {
    lines: Lines<'a>,
    at: u64,
}

impl<'a> Script<'a> {
    /// The lines of the text.
    pub fn new(text: &'a str) -> Script<'a> {
        Script {
            lines: text.lines(),
            at: 0,
        }
    }

    /// The next line that is neither blank nor a comment.
    pub fn next_line(&mut self) -> Option<&'a str> {
        for _ in 0..u64::MAX {
            let line = self.lines.next()?;
            self.at = self.at.saturating_add(1);
            if !line.trim().is_empty() && !line.starts_with('#') {
                return Some(line);
            }
        }
        None
    }

    /// The number of the line that was read last, from 1.
    pub fn at(&self) -> u64 {
        self.at
    }
}
