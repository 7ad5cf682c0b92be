//! A list of bytes that only clauses read.
ghost use Rattle.std.specs.Prelude.{◌≡◌, ℕ, List, [], ◌++◌};
ghost use Rattle.std.specs.Borrow.{ftrue};

use std::marker::Model;

/// It takes no memory, and its functions do nothing when the program runs.
#[derive(Debug, Drop)]
pub(crate) struct BytesSoFar {
    pub ghost bytes: { List ℕ },
}

impl Model for BytesSoFar {
    ghost also_owns = { λ _. ftrue };
}

impl BytesSoFar {
    /// No bytes.
    pub(crate) fn new() -> BytesSoFar
        ensures { result.bytes ≡ [] }
    {
        BytesSoFar {}
    }

    /// The bytes, and then those of a piece.
    #[inline(always)]
    pub(crate) fn and(&self, _piece: &[u8]) -> BytesSoFar
        ensures { result.bytes ≡ self.now.bytes ++ _piece.now }
    {
        BytesSoFar {}
    }
}
