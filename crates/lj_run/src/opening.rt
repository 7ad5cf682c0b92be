//! The files that a run reads.
ghost use Rattle.std.specs.Prelude.{◌≡◌, ◌≢◌, ℕ, List, [], Some, IfOk, IfErr, OnOk, OnErr, map, option_map};
ghost use Rattle.lj_text.specs.Streams.{source_state};
ghost use Rattle.lj_run.specs.InTurn.{streams_by_seat};
ghost use Rattle.lj_run.specs.Program.{HasInputs, IsCreated, IsOpened};
ghost use Rattle.lj_run.specs.inner.Program.{IsCreateFault, IsOpenFault, IsAnOpenFault};
ghost use Rattle.lj_run.specs.Proof.{sink_state};
ghost use Rattle.lj_run.specs.Tried.{NoneCreated, with_created};

use crate::fault::Fault;
use crate::files::{FileFault, Files};
use lj_text::{Sink, Source};
use std::alloc::Global;

/// The file at a path.
pub(crate) fn open<'a, F: Files>(files: &mut F, path: &'a str) -> Result<F::Input, Fault<'a>>
    ensures opened { IfOk result (λ input. IsOpened (F.content files.old path.entry.now)
        (source_state F.Input.given F.Input.ended F.Input.rest F.Input.failures input)) }
    ensures fault { IfErr result (IsOpenFault path.entry.now (F.content files.old path.entry.now)
        (F.tried files.old) (F.tried files.new)) }
    ensures same { (other : List ℕ) → F.content files.new other ≡ F.content files.old other }
    ensures tried { OnOk result (F.tried files.new ≡ F.tried files.old) }
    ensures none_created { NoneCreated (F.tried files.old) (F.tried files.new) }
{
    match files.open(path) {
        Ok(input) => Ok(input),
        Err(FileFault::CannotOpen) => Err(Fault::CannotRead { path }),
        Err(FileFault::NoMemory(e)) => Err(Fault::NoMemory(e)),
    }
}

/// The files at these paths, in their order. Takes the time of [`Files::open`] for each of them.
pub(crate) fn open_all<'a, F: Files>(
    alloc: Global,
    files: &mut F,
    paths: &[&'a str],
) -> Result<Vec<F::Input>, Fault<'a>>
    ensures opened { IfOk result (λ inputs. HasInputs
        (source_state F.Input.given F.Input.ended F.Input.rest F.Input.failures)
        (map (λ path. F.content files.old path.now) paths.now) inputs.items) }
    ensures fault { IfErr result (IsAnOpenFault (λ path. F.content files.old path)
        (map (λ path. path.now) paths.now) (F.tried files.old) (F.tried files.new)) }
    ensures same { (other : List ℕ) → F.content files.new other ≡ F.content files.old other }
    ensures tried { OnOk result (F.tried files.new ≡ F.tried files.old) }
    ensures none_created { NoneCreated (F.tried files.old) (F.tried files.new) }
{
    let mut inputs = Vec::with_capacity(alloc, paths.len())?;
    for path in paths {
        inputs.push(open(files, path)?)?;
    }
    Ok(inputs)
}

/// The file at a path, where there is one.
pub(crate) fn open_closing<'a, F: Files>(
    files: &mut F,
    path: Option<&'a str>,
) -> Result<Option<F::Input>, Fault<'a>>
    ensures opened { IfOk result (λ closing. HasInputs
        (source_state F.Input.given F.Input.ended F.Input.rest F.Input.failures)
        (map (λ path. F.content files.old path.now) (streams_by_seat [] path.entry))
        (streams_by_seat [] closing)) }
    ensures fault { IfErr result (IsAnOpenFault (λ path. F.content files.old path)
        (map (λ path. path.now) (streams_by_seat [] path.entry)) (F.tried files.old)
        (F.tried files.new)) }
    ensures same { (other : List ℕ) → F.content files.new other ≡ F.content files.old other }
    ensures tried { OnOk result (F.tried files.new ≡ F.tried files.old) }
    ensures none_created { NoneCreated (F.tried files.old) (F.tried files.new) }
{
    match path {
        Some(path) => Ok(Some(open(files, path)?)),
        None => Ok(None),
    }
}

/// An empty file at a path for the proof, where there is one. What stood there is gone.
pub(crate) fn create<'a, F: Files>(
    files: &mut F,
    path: Option<&'a str>,
) -> Result<Option<F::Output>, Fault<'a>>
    ensures created { IfOk result (IsCreated (sink_state F.Output.taken F.Output.failures)
        (option_map (λ path. path.now) path.entry)) }
    ensures fault { IfErr result (IsCreateFault (option_map (λ path. path.now) path.entry)
        (F.tried files.old) (F.tried files.new)) }
    ensures others { (other : List ℕ) → option_map (λ path. path.now) path.entry ≢ Some other
        → F.content files.new other ≡ F.content files.old other }
    ensures tried { OnOk result (F.tried files.new
        ≡ with_created (option_map (λ path. path.now) path.entry) (F.tried files.old)) }
    ensures none_created { OnErr result (NoneCreated (F.tried files.old) (F.tried files.new)) }
{
    match path {
        Some(path) => Ok(Some(created(files, path)?)),
        None => Ok(None),
    }
}

/// An empty file at a path.
fn created<'a, F: Files>(files: &mut F, path: &'a str) -> Result<F::Output, Fault<'a>>
    ensures fresh { IfOk result (λ sink. (F.Output.taken sink ≡ [])
        × (F.Output.failures sink ≡ 0)) }
    ensures fault { IfErr result (IsCreateFault (Some path.entry.now) (F.tried files.old)
        (F.tried files.new)) }
    ensures others { (other : List ℕ) → other ≢ path.entry.now
        → F.content files.new other ≡ F.content files.old other }
    ensures tried { OnOk result
        (F.tried files.new ≡ with_created (Some path.entry.now) (F.tried files.old)) }
    ensures none_created { OnErr result (NoneCreated (F.tried files.old) (F.tried files.new)) }
{
    match files.create(path) {
        Ok(sink) => Ok(sink),
        Err(FileFault::CannotOpen) => Err(Fault::CannotCreate { path }),
        Err(FileFault::NoMemory(e)) => Err(Fault::NoMemory(e)),
    }
}
