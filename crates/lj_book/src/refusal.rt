//! Why a call was refused.
ghost use Rattle.std.specs.Prelude.{◌≡◌};
ghost use Rattle.lj_clause.specs.Memory.{no_memory};
ghost use Rattle.lj_book.specs.declared.refusal.Refusal.TheVariants.{NoMemory as OutOfMemory};

use lj_clause::NoMemory;
use std::alloc::{AllocError, AllocFailed};
use std::error::Error;
use std::fmt;

/// Why a call was refused. The book is then as it was. A call tells the first refusal, in this order, that holds.
#[derive(Clone, Copy, Debug, PartialEq, Eq)]
pub enum Refusal {
    /// No such seat, or it has left.
    SeatGone,
    /// The own number is bound.
    NumberTaken,
    /// The first own number, in the order written, that the seat doesn't hold.
    UnknownNumber(u64),
    /// The own number of the first group whose joint clause has an earlier group.
    GroupRepeated(u64),
    /// The place of the hint, counted from 1, at which propagation over the first list is stuck.
    HintNotUnit(u64),
    /// The propagation of an empty lemma is open.
    EmptyOpen,
    /// The first candidate whose test isn't closed has no group.
    MissingGroup(u64),
    /// The first candidate whose test isn't closed, and the place in its group, counted from 1, at which the propagation is
    /// stuck.
    GroupStuck(u64, u64),
    /// The first candidate whose test isn't closed has a group, and its propagation is open.
    GroupOpen(u64),
    /// The first joint number that the receipt lists and that doesn't live with that very clause.
    Stale(u64),
    /// The clause names a variable above the formula's that the seat was not given.
    PrivateVariable,
    /// No such live clause, and of an import no part of it.
    NoSuchClause,
    /// The history holds as many additions as it may.
    Full,
    /// A new variable was needed, and all joint ones are given out.
    NoVariableLeft,
    /// A growth of memory was refused.
    NoMemory(NoMemory),
}

impl fmt::Display for Refusal {
    ghost use Rattle.std.specs.Prelude.{Some};
    ghost use Rattle.lj_book.specs.RefusalText.{refusal_text};

    ghost output = { λ refusal. Some (refusal_text refusal) };

    fn fmt<W: fmt::Write>(&self, f: &mut fmt::Formatter<W>) -> fmt::Result {
        match self {
            Refusal::SeatGone => f.write_str("SeatGone"),
            Refusal::NumberTaken => f.write_str("NumberTaken"),
            Refusal::UnknownNumber(number) => write!(f, "UnknownNumber({number})"),
            Refusal::GroupRepeated(number) => write!(f, "GroupRepeated({number})"),
            Refusal::HintNotUnit(place) => write!(f, "HintNotUnit({place})"),
            Refusal::EmptyOpen => f.write_str("EmptyOpen"),
            Refusal::MissingGroup(joint) => write!(f, "MissingGroup({joint})"),
            Refusal::GroupStuck(joint, place) => write!(f, "GroupStuck({joint}, {place})"),
            Refusal::GroupOpen(joint) => write!(f, "GroupOpen({joint})"),
            Refusal::Stale(joint) => write!(f, "Stale({joint})"),
            Refusal::PrivateVariable => f.write_str("PrivateVariable"),
            Refusal::NoSuchClause => f.write_str("NoSuchClause"),
            Refusal::Full => f.write_str("Full"),
            Refusal::NoVariableLeft => f.write_str("NoVariableLeft"),
            Refusal::NoMemory(_) => f.write_str("NoMemory"),
        }
    }
}

impl Error for Refusal {}

impl From<AllocError> for Refusal {
    ghost from_gives = { λ _ refusal. refusal ≡ OutOfMemory no_memory };

    fn from(e: AllocError) -> Refusal {
        Refusal::NoMemory(e.into())
    }
}

impl<T: Drop> From<AllocFailed<T>> for Refusal {
    ghost from_gives = { λ _ refusal. refusal ≡ OutOfMemory no_memory };

    fn from(e: AllocFailed<T>) -> Refusal {
        Refusal::NoMemory(e.into())
    }
}

impl From<NoMemory> for Refusal {
    ghost from_gives = { λ e refusal. refusal ≡ OutOfMemory e };

    fn from(e: NoMemory) -> Refusal {
        Refusal::NoMemory(e)
    }
}
