//! Files by their paths, and those of the machine.
ghost use Rattle.std.specs.Prelude.{◌≡◌, ◌≢◌, ℕ, Option, List, [], None, Some, Err, IsSome, IfOk, OnOk, OnErr};
ghost use Rattle.std.specs.Io.KnownBytes.{Keeps};
ghost use Rattle.lj_run.specs.Files.{AllStay, OthersStay};
ghost use Rattle.lj_run.specs.Tried.{Tried, with_created, with_uncreated, with_unopened};
ghost use Rattle.lj_run.specs.declared.files.FileFault.TheVariants as file_faults;

use crate::paths_so_far::PathsSoFar;
use lj_clause::NoMemory;
use lj_text::{ReaderSource, Sink, Source, WriterSink};
use std::alloc::AllocError;
use std::fs;
use thiserror::Error;

/// Why a file wasn't opened or created.
#[derive(Clone, Copy, Debug, PartialEq, Eq, Error)]
pub enum FileFault {
    /// It can't be.
    #[error("cannot open")]
    CannotOpen,
    /// A growth of memory was refused.
    #[error("NoMemory")]
    NoMemory(NoMemory),
}

impl From<AllocError> for FileFault {
    ghost from_gives = { λ _ fault. fault ≢ file_faults.CannotOpen };

    fn from(e: AllocError) -> FileFault {
        FileFault::NoMemory(e.into())
    }
}

/// Opens paths as sources and creates them as sinks.
pub trait Files {
    type Input: Source + Drop + Send;

    type Output: Sink + Drop;

    /// The bytes at a path, where the files tell them.
    ghost content: { Self → List ℕ → Option (List ℕ) };

    /// What was tried: the paths of refused openings and creations, and those of files that were created.
    ghost tried: { Self → Tried };

    /// The bytes of the file at a path, from their front on. A file whose bytes are told can be opened. The files stay as they are.
    /// Takes the time of the system's call.
    fn open(&mut self, path: &str) -> Result<Self::Input, FileFault>
        ensures unfailed { IfOk result (λ input. Self.Input.failures input ≡ 0) }
        ensures fresh { IfOk result (λ input. Self.Input.given input ≡ []) }
        ensures bytes { IfOk result
            (λ input. Keeps (content self.old path.now) (Self.Input.rest input)) }
        ensures there { IsSome (content self.old path.now) → result ≢ Err file_faults.CannotOpen }
        ensures same { AllStay (content self.old) (content self.new) }
        ensures refused { result ≡ Err file_faults.CannotOpen
            → tried self.new ≡ with_unopened path.now (tried self.old) }
        ensures untried { result ≢ Err file_faults.CannotOpen → tried self.new ≡ tried self.old };

    /// An empty file at a path, in place of one that stood there. The others stay as they are. Takes the time of the
    /// system's call.
    fn create(&mut self, path: &str) -> Result<Self::Output, FileFault>
        ensures unfailed { IfOk result (λ output. Self.Output.failures output ≡ 0) }
        ensures fresh { IfOk result (λ output. Self.Output.taken output ≡ []) }
        ensures others { OthersStay path.now (content self.old) (content self.new) }
        ensures created { OnOk result
            (tried self.new ≡ with_created (Some path.now) (tried self.old)) }
        ensures refused { result ≡ Err file_faults.CannotOpen
            → tried self.new ≡ with_uncreated path.now (tried self.old) }
        ensures untried { OnErr result (result ≢ Err file_faults.CannotOpen
            → tried self.new ≡ tried self.old) };
}

/// The files of the machine that the runtime reaches. It tells no bytes.
#[derive(Drop)]
pub struct MachineFiles<'a, R> {
    runtime: &'a R,
    unopened: PathsSoFar,
    uncreated: PathsSoFar,
    created: PathsSoFar,
}

impl<'a, R> MachineFiles<'a, R> {
    /// The files that a runtime reaches, of which nothing was tried yet.
    pub fn new(runtime: &'a R) -> Self
        ensures unopened { result.unopened.paths ≡ [] }
        ensures uncreated { result.uncreated.paths ≡ [] }
        ensures created { result.created.paths ≡ [] }
    {
        MachineFiles {
            runtime,
            unopened: PathsSoFar::new(),
            uncreated: PathsSoFar::new(),
            created: PathsSoFar::new(),
        }
    }
}

impl<'a, R: std::rt::Files> Files for MachineFiles<'a, R>
where
    R::File: Send,
{
    type Input = ReaderSource<R::File>;

    type Output = WriterSink<R::File>;

    ghost content = { λ _ _. None };

    ghost tried = { λ files. record {
      unopened = files.unopened.paths;
      uncreated = files.uncreated.paths;
      created = files.created.paths;
    } };

    fn open(&mut self, path: &str) -> Result<ReaderSource<R::File>, FileFault> {
        match fs::open(self.runtime, path) {
            Ok(file) => Ok(ReaderSource::new(file)),
            Err(_) => {
                self.unopened = self.unopened.and(path.as_bytes());
                Err(FileFault::CannotOpen)
            }
        }
    }

    fn create(&mut self, path: &str) -> Result<WriterSink<R::File>, FileFault> {
        match fs::create(self.runtime, path) {
            Ok(file) => {
                self.created = self.created.and(path.as_bytes());
                Ok(WriterSink::new(file))
            }
            Err(_) => {
                self.uncreated = self.uncreated.and(path.as_bytes());
                Err(FileFault::CannotOpen)
            }
        }
    }
}
