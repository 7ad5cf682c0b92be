//! Why a script ends before its end.
use lj_clause::NoMemory;
use lj_text::{CnfFaultKind, LineFault};
use std::alloc::{AllocError, AllocFailed};

/// Why a script ends before its end.
#[derive(Clone, Copy, Debug)]
pub enum Stop {
    /// The line isn't a command where it stands.
    NotACommand,
    /// The LRAT line has this fault.
    Line(&'static str),
    /// The formula has this fault, at this line of the script.
    Formula(CnfFaultKind, u64),
    /// A growth was refused.
    NoMemory(NoMemory),
}

impl Stop {
    /// What is printed of it.
    pub fn name(self) -> &'static str {
        match self {
            Stop::NotACommand => "not a command",
            Stop::Line(name) => name,
            Stop::Formula(kind, _) => kind.name(),
            Stop::NoMemory(_) => "NoMemory",
        }
    }

    /// The line of the script, where it isn't the one that was read last.
    pub fn line(self) -> Option<u64> {
        match self {
            Stop::Formula(_, line) => Some(line),
            _ => None,
        }
    }
}

impl From<NoMemory> for Stop {
    fn from(refused: NoMemory) -> Stop {
        Stop::NoMemory(refused)
    }
}

impl From<AllocError> for Stop {
    fn from(refused: AllocError) -> Stop {
        Stop::NoMemory(refused.into())
    }
}

impl<T: Drop> From<AllocFailed<T>> for Stop {
    fn from(refused: AllocFailed<T>) -> Stop {
        Stop::NoMemory(refused.into())
    }
}

impl From<LineFault> for Stop {
    fn from(fault: LineFault) -> Stop {
        Stop::Line(fault.kind.name())
    }
}
