//! The working memory of propagations.
ghost use Rattle.std.specs.Prelude.{◌≡◌};

use crate::assignment::Assignment;
use std::alloc::Global;
use std::marker::Model;

/// The working memory of a propagation. What it holds between propagations means nothing: each propagation begins anew.
#[derive(Drop)]
pub struct Propagator {
    pub(crate) lits: Assignment,
}

impl Model for Propagator {
    ghost Value = { Unit {0} };

    ghost view = { λ m. tt };
}

impl Propagator {
    /// A propagator without a literal. Takes no memory, and constant time.
    pub fn new(alloc: Global) -> Propagator
        ensures { result ≡ tt }
    {
        Propagator::after(alloc, 0)
    }

    /// A propagator that has served so many propagations, so that a test reaches the last propagation that is counted. Takes
    /// no memory, and constant time.
    pub fn after(alloc: Global, propagations: u32) -> Propagator
        ensures { result ≡ tt }
    {
        Propagator {
            lits: Assignment::starting_at(alloc, propagations % u32::MAX + 1),
        }
    }
}
