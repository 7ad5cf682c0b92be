//! Why the candidates of a pivot aren't covered.
ghost use Rattle.std.specs.Prelude.{◌≡◌};
ghost use Rattle.lj_hint.specs.declared.rat_refusal.RatRefusal.TheVariants.{NoMemory as OutOfMemory};

use lj_clause::NoMemory;

/// Why a lemma whose propagation stays open isn't accepted.
#[derive(Clone, Copy, Debug, PartialEq, Eq)]
pub enum RatRefusal {
    /// The lemma is empty, so that it has no pivot.
    EmptyOpen,
    /// The first candidate whose propagation isn't closed has no group.
    MissingGroup(u64),
    /// The propagation over the group of the first candidate whose propagation isn't closed is stuck at the hint of this place,
    /// counted from 1.
    GroupStuck(u64, u64),
    /// The propagation over the group of the first candidate whose propagation isn't closed is open.
    GroupOpen(u64),
    /// A growth was refused.
    NoMemory(NoMemory),
}

impl From<NoMemory> for RatRefusal {
    ghost from_gives = { λ n e. e ≡ OutOfMemory n };

    fn from(refused: NoMemory) -> RatRefusal {
        RatRefusal::NoMemory(refused)
    }
}
