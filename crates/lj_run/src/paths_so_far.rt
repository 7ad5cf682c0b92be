//! A list of paths that only clauses read.
ghost use Rattle.std.specs.Prelude.{◌≡◌, ℕ, List, [], ◌∷◌};
ghost use Rattle.std.specs.Borrow.{ftrue};

use std::marker::Model;

/// It takes no memory, and its functions do nothing when the program runs.
#[derive(Drop)]
pub(crate) struct PathsSoFar {
    pub ghost paths: { List (List ℕ) },
}

impl Model for PathsSoFar {
    ghost also_owns = { λ _. ftrue };
}

impl PathsSoFar {
    /// No paths.
    pub(crate) fn new() -> PathsSoFar
        ensures { result.paths ≡ [] }
    {
        PathsSoFar {}
    }

    /// A path, and then those before it.
    #[inline(always)]
    pub(crate) fn and(&self, _path: &[u8]) -> PathsSoFar
        ensures { result.paths ≡ _path.now ∷ self.now.paths }
    {
        PathsSoFar {}
    }
}
