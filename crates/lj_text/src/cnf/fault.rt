//! What can be wrong with the text of a formula.
ghost use Rattle.std.specs.Prelude.{◌≡◌};
ghost use Rattle.lj_clause.specs.Memory.{no_memory};
ghost use Rattle.lj_text.specs.FaultNames.{cnf_fault_name};
ghost use Rattle.lj_text.specs.declared.cnf.fault.CnfFaultKind.TheVariants as kinds;

use lj_clause::NoMemory;
use std::alloc::{AllocError, AllocFailed};
use std::error::Error;
use std::fmt;

/// What is wrong with the text of a formula, from its front.
#[derive(Clone, Copy, Debug, PartialEq, Eq)]
pub enum CnfFaultKind {
    /// The first line that isn't skipped doesn't begin with `p`, or there is none.
    NoHeader,
    /// It begins with `p` and isn't a header, or the number of clauses is too large.
    BadHeader,
    /// A token of a clause is no number.
    BadNumber,
    /// The number of variables is above the reader's limit, or a literal's variable is above that number.
    VariableRange,
    /// There are more clauses than the header says, or fewer.
    ClauseCount,
    /// The input ends inside a clause.
    Truncated,
    /// A growth of memory was refused.
    NoMemory(NoMemory),
}

impl CnfFaultKind {
    /// The name under which it is told. Takes constant time.
    pub fn name(self) -> &'static str
        ensures { result.now ≡ cnf_fault_name self }
    {
        match self {
            CnfFaultKind::NoHeader => "NoHeader",
            CnfFaultKind::BadHeader => "BadHeader",
            CnfFaultKind::BadNumber => "BadNumber",
            CnfFaultKind::VariableRange => "VariableRange",
            CnfFaultKind::ClauseCount => "ClauseCount",
            CnfFaultKind::Truncated => "Truncated",
            CnfFaultKind::NoMemory(_) => "NoMemory",
        }
    }
}

impl fmt::Display for CnfFaultKind {
    ghost use Rattle.std.specs.Prelude.{Some};

    ghost output = { λ kind. Some (cnf_fault_name kind) };

    fn fmt<W: fmt::Write>(&self, f: &mut fmt::Formatter<W>) -> fmt::Result {
        f.write_str(self.name())
    }
}

impl Error for CnfFaultKind {}

/// The fault of a formula's text.
#[derive(Clone, Copy, Debug, PartialEq, Eq, thiserror::Error)]
#[error("{kind}")]
pub struct CnfFault {
    /// What is wrong.
    pub kind: CnfFaultKind,
    /// The number of the line, from 1 on.
    pub line: u64,
}

impl From<AllocError> for CnfFaultKind {
    ghost from_gives = { λ _ kind. kind ≡ kinds.NoMemory no_memory };

    fn from(e: AllocError) -> CnfFaultKind {
        CnfFaultKind::NoMemory(e.into())
    }
}

impl<T: Drop> From<AllocFailed<T>> for CnfFaultKind {
    ghost from_gives = { λ _ kind. kind ≡ kinds.NoMemory no_memory };

    fn from(e: AllocFailed<T>) -> CnfFaultKind {
        CnfFaultKind::NoMemory(e.into())
    }
}

impl From<NoMemory> for CnfFaultKind {
    ghost from_gives = { λ e kind. kind ≡ kinds.NoMemory e };

    fn from(e: NoMemory) -> CnfFaultKind {
        CnfFaultKind::NoMemory(e)
    }
}
