//! What can be wrong with a line.
ghost use Rattle.std.specs.Prelude.{◌≡◌};
ghost use Rattle.lj_clause.specs.Memory.{no_memory};
ghost use Rattle.lj_text.specs.FaultNames.{line_fault_name};
ghost use Rattle.lj_text.specs.declared.lines.fault.LineFaultKind.TheVariants as kinds;

use lj_clause::NoMemory;
use std::alloc::{AllocError, AllocFailed};
use std::error::Error;
use std::fmt;

/// What is wrong with a line, told of the first token such that the tokens up to it begin no line.
#[derive(Clone, Copy, Debug, PartialEq, Eq)]
pub enum LineFaultKind {
    /// The token is no number where one must stand.
    BadNumber,
    /// The token is a number above the limit of its place.
    NumberRange,
    /// The token may not stand there, or the line ends before its closing 0.
    Syntax,
    /// The input ends before the line's closing 0.
    Truncated,
    /// A growth of memory was refused.
    NoMemory(NoMemory),
}

impl LineFaultKind {
    /// The name under which it is told. Takes constant time.
    pub fn name(self) -> &'static str
        ensures { result.now ≡ line_fault_name self }
    {
        match self {
            LineFaultKind::BadNumber => "BadNumber",
            LineFaultKind::NumberRange => "NumberRange",
            LineFaultKind::Syntax => "Syntax",
            LineFaultKind::Truncated => "Truncated",
            LineFaultKind::NoMemory(_) => "NoMemory",
        }
    }
}

impl fmt::Display for LineFaultKind {
    ghost use Rattle.std.specs.Prelude.{Some};

    ghost output = { λ kind. Some (line_fault_name kind) };

    fn fmt<W: fmt::Write>(&self, f: &mut fmt::Formatter<W>) -> fmt::Result {
        f.write_str(self.name())
    }
}

impl Error for LineFaultKind {}

/// The fault of a line.
#[derive(Clone, Copy, Debug, PartialEq, Eq, thiserror::Error)]
#[error("{kind}")]
pub struct LineFault {
    /// What is wrong.
    pub kind: LineFaultKind,
    /// The line's number, from 1 on.
    pub line: u64,
}

impl From<AllocError> for LineFaultKind {
    ghost from_gives = { λ _ kind. kind ≡ kinds.NoMemory no_memory };

    fn from(e: AllocError) -> LineFaultKind {
        LineFaultKind::NoMemory(e.into())
    }
}

impl<T: Drop> From<AllocFailed<T>> for LineFaultKind {
    ghost from_gives = { λ _ kind. kind ≡ kinds.NoMemory no_memory };

    fn from(e: AllocFailed<T>) -> LineFaultKind {
        LineFaultKind::NoMemory(e.into())
    }
}

impl From<NoMemory> for LineFaultKind {
    ghost from_gives = { λ e kind. kind ≡ kinds.NoMemory e };

    fn from(e: NoMemory) -> LineFaultKind {
        LineFaultKind::NoMemory(e)
    }
}
