//! What is told on standard error.
ghost use Rattle.std.specs.Prelude.{◌≡◌, ◌++◌, OnOk, OnErr, codes};
ghost use Rattle.lj_run.specs.inner.Program.{fault_at, IsNoMemory};
ghost use Rattle.lj_run.specs.Program.{fault_text, formula_fault_text, lost_text, status_of_fault, usage_text};
ghost use Rattle.lj_run.specs.declared.fault.Fault.TheVariants as faults;

use crate::args::ArgsFault;
use crate::checking::CheckFault;
use crate::misuse::Misuse;
use crate::outcome::{ProofFault, RunFault};
use crate::status::Status;
use itoa::Buffer;
use lj_clause::NoMemory;
use lj_text::{CnfFault, Sink, SinkFault, write_all};
use std::alloc::{AllocError, AllocFailed};

/// What is told on standard error in place of an answer.
#[derive(Debug, Drop)]
pub(crate) enum Fault<'a> {
    /// The text of the formula at this path is at fault.
    Formula { path: &'a str, fault: CnfFault },
    /// The file at this path can't be opened, or a read of the formula failed.
    CannotRead { path: &'a str },
    /// Standard output failed.
    CannotWrite,
    /// The file that the proof is to be written into can't be created.
    CannotCreate { path: &'a str },
    /// The proof couldn't be written. What came of the run was printed.
    ProofLost { path: &'a str, fault: ProofFault },
    /// A growth of memory was refused.
    NoMemory(NoMemory),
    /// A growth of memory was refused to `clap`.
    OutOfMemory,
    /// The closed book didn't confirm what its seats were told.
    Unconfirmed,
    /// The words ask for no run, for a reason of the program's own.
    Usage(Misuse),
    /// `clap` doesn't read the words. The text says why, and how the program is used.
    Misread(String),
}

impl Fault<'_> {
    /// The status that the program ends with after it.
    pub(crate) fn status(&self) -> Status
        ensures { result ≡ status_of_fault self.now }
    {
        match self {
            Fault::Usage(_) | Fault::Misread(_) => Status::Usage,
            _ => Status::Fault,
        }
    }

    /// Tells it. That takes no memory.
    pub(crate) fn tell<E: Sink>(&self, err: &mut E) -> Result<(), SinkFault>
        requires { E.failures err.old ≡ 0 }
        ensures text { OnOk result (E.taken err.new ≡ E.taken err.old ++ fault_text self.now) }
        ensures ok { OnOk result (E.failures err.new ≡ 0) }
        ensures err { OnErr result (E.failures err.new ≡ 1) }
    {
        match self {
            Fault::Formula { path, fault } => tell_formula(path, fault, err),
            Fault::CannotRead { path } => tell_path(path, ": cannot read\n", err),
            Fault::CannotWrite => write_all(err, b"lratjoin: cannot write\n"),
            Fault::CannotCreate { path } => tell_path(path, ": cannot write\n", err),
            Fault::ProofLost { path, fault } => tell_lost(path, fault, err),
            Fault::NoMemory(_) => write_all(err, b"lratjoin: NoMemory\n"),
            Fault::OutOfMemory => write_all(err, b"lratjoin: NoMemory\n"),
            Fault::Unconfirmed => write_all(err, b"lratjoin: Unconfirmed\n"),
            Fault::Usage(misuse) => tell_usage(*misuse, err),
            Fault::Misread(text) => write_all(err, text.as_bytes()),
        }
    }
}

/// Tells something of a path.
fn tell_path<E: Sink>(path: &str, what: &str, err: &mut E) -> Result<(), SinkFault>
    requires { E.failures err.old ≡ 0 }
    ensures text { OnOk result (E.taken err.new
        ≡ E.taken err.old ++ (codes "lratjoin: " ++ (path.now ++ what.now))) }
    ensures ok { OnOk result (E.failures err.new ≡ 0) }
    ensures err { OnErr result (E.failures err.new ≡ 1) }
{
    write_all(err, b"lratjoin: ")?;
    write_all(err, path.as_bytes())?;
    write_all(err, what.as_bytes())
}

/// Tells why the proof couldn't be written into the file at a path.
fn tell_lost<E: Sink>(path: &str, fault: &ProofFault, err: &mut E) -> Result<(), SinkFault>
    requires { E.failures err.old ≡ 0 }
    ensures text { OnOk result (E.taken err.new ≡ E.taken err.old ++ lost_text path.now fault.now) }
    ensures ok { OnOk result (E.failures err.new ≡ 0) }
    ensures err { OnErr result (E.failures err.new ≡ 1) }
{
    match fault {
        ProofFault::Device => tell_path(path, ": cannot write\n", err),
        ProofFault::NoMemory(_) => write_all(err, b"lratjoin: NoMemory\n"),
    }
}

/// Tells the fault of the formula at a path.
fn tell_formula<E: Sink>(path: &str, fault: &CnfFault, err: &mut E) -> Result<(), SinkFault>
    requires { E.failures err.old ≡ 0 }
    ensures text { OnOk result (E.taken err.new
        ≡ E.taken err.old ++ formula_fault_text path.now fault.now) }
    ensures ok { OnOk result (E.failures err.new ≡ 0) }
    ensures err { OnErr result (E.failures err.new ≡ 1) }
{
    tell_path(path, ": line ", err)?;
    let mut digits = Buffer::new();
    write_all(err, digits.format(fault.line).as_bytes())?;
    write_all(err, b": ")?;
    write_all(err, fault.kind.name().as_bytes())?;
    write_all(err, b"\n")
}

/// Tells what is wrong with the words.
fn tell_usage<E: Sink>(misuse: Misuse, err: &mut E) -> Result<(), SinkFault>
    requires { E.failures err.old ≡ 0 }
    ensures text { OnOk result (E.taken err.new ≡ E.taken err.old ++ usage_text misuse) }
    ensures ok { OnOk result (E.failures err.new ≡ 0) }
    ensures err { OnErr result (E.failures err.new ≡ 1) }
{
    write_all(err, b"error: ")?;
    write_all(err, misuse.text().as_bytes())?;
    write_all(err, b"\n\nFor more information, try '--help'.\n")
}

impl From<AllocError> for Fault<'_> {
    ghost from_gives = { λ _ fault. IsNoMemory fault };

    fn from(e: AllocError) -> Self {
        Fault::NoMemory(e.into())
    }
}

impl<T: Drop> From<AllocFailed<T>> for Fault<'_> {
    ghost from_gives = { λ _ fault. IsNoMemory fault };

    fn from(e: AllocFailed<T>) -> Self {
        Fault::NoMemory(e.into())
    }
}

impl From<ArgsFault> for Fault<'_> {
    ghost from_gives = { λ _ fault. IsNoMemory fault };

    fn from(fault: ArgsFault) -> Self {
        match fault {
            ArgsFault::NoMemory(e) => Fault::NoMemory(e),
            ArgsFault::OutOfMemory => Fault::OutOfMemory,
        }
    }
}

/// What is told of a check without an answer, whose formula stands at this path.
pub(crate) fn fault_of<'a>(path: &'a str, fault: CheckFault) -> Fault<'a>
    ensures { result ≡ fault_at path.entry fault }
{
    match fault {
        CheckFault::Run(RunFault::Formula(fault)) => Fault::Formula { path, fault },
        CheckFault::Run(RunFault::FormulaRead) => Fault::CannotRead { path },
        CheckFault::Run(RunFault::NoMemory(e)) => Fault::NoMemory(e),
        CheckFault::Run(RunFault::Unconfirmed) => Fault::Unconfirmed,
        CheckFault::CannotWrite => Fault::CannotWrite,
    }
}
