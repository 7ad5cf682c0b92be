//! Checks LRAT proofs of portfolios of SAT provers.
#![tactic(auto)]

ghost use Rattle.std.specs.Prelude.{◌≡◌};

use lj_run::{MachineFiles, start};
use lj_text::{Sink, WriterSink};
use std::alloc::Global;
use std::env::Env;
use std::process::ExitCode;
use std::rt::Files;
use std::sync::Wait;
use std::thread::Threads;
use std::time::Clock;
use std::{env, io};

fn main(rt: HostRuntime) -> ExitCode {
    let mut out = WriterSink::new(rt.stdout());
    let mut err = WriterSink::new(rt.stderr());
    start_on(&rt, rt.alloc(), arguments(&rt), &mut out, &mut err)
}

/// Does what the arguments ask for, over the files of the machine. It stands apart from `main`, so that few facts are known
/// where the prover sees that a file may go to another thread.
fn start_on<R: Files + Threads + Wait + Clock + Eprint + Sync, O: Sink, E: Sink>(
    rt: &R,
    alloc: Global,
    arguments: io::Result<Vec<String>>,
    out: &mut O,
    err: &mut E,
) -> ExitCode
where
    R::File: Send,
    requires out { O.failures out.old ≡ 0 }
    requires err { E.failures err.old ≡ 0 }
{
    let mut files = MachineFiles::new(rt);
    start(rt, alloc, arguments, &mut files, out, err)
}

/// The arguments, the program's own name first.
fn arguments<R: Env + AllocGlobal>(rt: &R) -> io::Result<Vec<String>> {
    Ok(env::args(rt)?.collect(rt.alloc())?)
}
