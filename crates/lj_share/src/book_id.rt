//! Which opening of a shared book a value is of.
use std::marker::Brand;
use std::sync::ledger::Ledger;

/// One opening of a shared book: its formula, how many seats it has, and how many additions it takes. The shared book, its
/// seats and the closed book name it by their type, so what belongs to different openings doesn't mix. Whoever opens is
/// generic over it, and is called with [`Brand`].
pub trait BookId: Ledger {
    ghost use Rattle.std.specs.Prelude.{ℕ, List};
    ghost use Rattle.boxcar.specs.Table.{Shelves};
    ghost use Rattle.lj_clause.specs.ClauseMap.{FormulaValue};

    ghost formula: { FormulaValue };

    ghost seats: { ℕ };

    ghost max_steps: { ℕ };

    // The names of the lists of its seats' calls, by seat.
    ghost lists: { List ℕ };

    // The names of the shelves of its log.
    ghost log: { Shelves };
}

impl BookId for Brand {
    ghost use Rattle.std.specs.Prelude.{[]};

    ghost formula = { record { variables = 0; clauses = [] } };

    ghost seats = { 0 };

    ghost max_steps = { 0 };

    ghost lists = { [] };

    ghost log = { record { tag = []; buckets = [] } };
}
