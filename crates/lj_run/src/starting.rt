//! The program on the arguments that the system gave.
ghost use Rattle.std.specs.Prelude.{◌≡◌, ◌++◌, ℕ, List, drop, map, string_bytes, IfOk, IfErr};
ghost use Rattle.std.specs.IoError.{error_kind};
ghost use Rattle.std.specs.Process.{exit_status};
ghost use Rattle.lj_text.specs.Streams.{source_state};
ghost use Rattle.lj_run.specs.Proof.{sink_state};
ghost use Rattle.lj_run.specs.CommandLine.{asked_by};
ghost use Rattle.lj_run.specs.Starting.{ProgramEnds, unread_status, unread_text};

use crate::body::program;
use crate::files::Files;
use lj_text::{Sink, Source, write_all};
use std::alloc::Global;
use std::io::{self, ErrorKind};
use std::process::ExitCode;
use std::sync::Wait;
use std::thread::Threads;
use std::time::Clock;

/// Does what the arguments ask for that the system gave, of which the first is the program's own name, as [`program`] does, and
/// answers how the program is to end. Arguments that aren't text are told as usage. Takes the time of [`program`].
pub fn start<R: Threads + Wait + Clock + Eprint + Sync, F: Files, O: Sink, E: Sink>(
    rt: &R,
    alloc: Global,
    arguments: io::Result<Vec<String>>,
    files: &mut F,
    out: &mut O,
    err: &mut E,
) -> ExitCode
    requires out { O.failures out.old ≡ 0 }
    requires err { E.failures err.old ≡ 0 }

    ensures ends { IfOk arguments (λ all. ProgramEnds
        (source_state F.Input.given F.Input.ended F.Input.rest F.Input.failures)
        (sink_state F.Output.taken F.Output.failures)
        (λ path. F.content files.old path) (λ path. F.content files.new path)
        (F.tried files.old) (F.tried files.new)
        (asked_by (map string_bytes (drop 1 all.items)))
        (O.taken out.old) (O.taken out.new) (O.failures out.new)
        (E.taken err.old) (E.taken err.new) (E.failures err.new)
        (exit_status result)) }
    ensures unread { IfErr arguments (λ e. exit_status result ≡ unread_status (error_kind e)) }
    ensures unread_told { IfErr arguments (λ e. E.failures err.new ≡ 0
        → E.taken err.new ≡ E.taken err.old ++ unread_text (error_kind e)) }
    ensures unread_untouched { IfErr arguments (λ _. out.new ≡ out.old) }
    ensures unread_files { IfErr arguments (λ _. files.new ≡ files.old) }
{
    match arguments {
        Ok(arguments) => {
            let args = args_of(&arguments);
            ExitCode::from(program(rt, alloc, args, files, out, err))
        }
        Err(error) => {
            let (text, status) = unread(error.kind());
            let _ = write_all(err, text.as_bytes());
            ExitCode::from(status)
        }
    }
}

/// The arguments behind the program's own name.
fn args_of(arguments: &[String]) -> &[String]
    ensures { result.now ≡ drop 1 arguments.now }
{
    &arguments[arguments.len().min(1)..]
}

/// What is told of arguments that can't be read, and the status.
fn unread(kind: ErrorKind) -> (&'static str, u8)
    ensures text { result.0.now ≡ unread_text kind }
    ensures status { result.1 ≡ unread_status kind }
{
    match kind {
        ErrorKind::OutOfMemory => ("lratjoin: NoMemory\n", 2),
        _ => (
            "error: an argument isn't text\n\nFor more information, try '--help'.\n",
            3,
        ),
    }
}
