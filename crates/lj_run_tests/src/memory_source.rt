//! A source over memory.
ghost use Rattle.std.specs.Prelude.{◌≡◌, [], false, min, length, take, Some};

use lj_text::{Source, SourceFault};
use std::marker::Model;

/// Bytes in memory, seen as those given so far, those still to come, and whether the end was told. It never fails.
#[derive(Debug, Drop)]
pub struct MemorySource {
    bytes: Vec<u8>,
    given: usize,
    ended: bool,
}

impl Model for MemorySource {
    ghost use Rattle.std.specs.Prelude.{◌≡◌, ◌≤◌, ℕ, Bool, true, List, take, drop, vec_len};

    ghost Value = { List ℕ × List ℕ × Bool };

    ghost view = { λ source. (
      take source.given source.bytes.items,
      drop source.given source.bytes.items,
      source.ended,
    ) };

    ghost invariant = { λ source. (source.given ≤ vec_len source.bytes)
        × (source.ended ≡ true → source.given ≡ vec_len source.bytes) };
}

impl MemorySource {
    /// All of these bytes are still to come.
    pub fn new(bytes: Vec<u8>) -> Self
        ensures { result ≡ ([], bytes.items, false) }
    {
        MemorySource {
            bytes,
            given: 0,
            ended: false,
        }
    }
}

// Copies as many bytes as both have, from front to front, and answers how many.
fn copy_front(from: &[u8], to: &mut [u8]) -> usize
    ensures count { result ≡ min (length from.now) (length to.old) }
    ensures front { take result to.new ≡ take result from.now }
{
    let count = from.len().min(to.len());
    to[..count].copy_from_slice(&from[..count]);
    count
}

impl Source for MemorySource {
    ghost given = { λ source. source.0 };

    ghost ended = { λ source. source.2 };

    ghost rest = { λ source. Some source.1 };

    ghost failures = { λ _. 0 };

    fn pull(&mut self, buffer: &mut [u8]) -> Result<usize, SourceFault> {
        let count = copy_front(&self.bytes[self.given..], buffer);
        self.given += count;
        self.ended = count == 0;
        Ok(count)
    }
}
