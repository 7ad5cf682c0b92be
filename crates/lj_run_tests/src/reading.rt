//! The program over files of which one fails once some of its bytes were read, which no file of the machine does.
ghost use Rattle.std.specs.Prelude.{None};

use crate::fakes::FailingSource;
use crate::memory_files::MemoryFiles;
use crate::steps::BINARY_TEXT;
use lj_run::{FileFault, Files, program};
use lj_text::MemorySink;
use std::alloc::Global;
use std::process::Abort;
use std::sync::Wait;
use std::test::Fail;
use std::thread::Threads;
use std::time::Clock;

/// Files of which `fails` fails once its bytes were pulled.
#[derive(Drop)]
struct FailingFiles<F> {
    files: F,
}

impl<F: Files> Files for FailingFiles<F> {
    type Input = FailingSource<F::Input>;

    type Output = F::Output;

    ghost content = { λ _ _. None };

    ghost tried = { λ failing. F.tried failing.files };

    fn open(&mut self, path: &str) -> Result<FailingSource<F::Input>, FileFault> {
        let pulls = if path == "fails" { 1 } else { 2 };
        match self.files.open(path) {
            Ok(input) => Ok(FailingSource::new(input, pulls)),
            Err(fault) => Err(fault),
        }
    }

    fn create(&mut self, path: &str) -> Result<F::Output, FileFault> {
        self.files.create(path)
    }
}

/// The portfolio of the four binary clauses, whose first stream has this text and fails behind it.
fn portfolio_of(alloc: Global, first: &str) -> Result<FailingFiles<MemoryFiles>, Fail> {
    let mut files = MemoryFiles::new(alloc);
    files.add("cnf", BINARY_TEXT.as_bytes())?;
    files.add("fails", first.as_bytes())?;
    files.add("second", b"5 -2 0 3 4 0\n")?;
    files.add("closing", b"7 i 2 0\n8 i -2 0\n9 0 7 8 0\n")?;
    Ok(FailingFiles { files })
}

/// Asserts what the words tell on standard output and on standard error, and the status.
fn assert_told<R: Abort + Threads + Wait + Clock + Eprint + Sync>(
    rt: &R,
    alloc: Global,
    args: &[&str],
    first: &str,
    (out, err): (&str, &str),
    status: u8,
) -> Result<(), Fail> {
    let mut files = portfolio_of(alloc, first)?;
    let mut told = MemorySink::new(alloc);
    let mut faults = MemorySink::new(alloc);
    assert!(rt; program(rt, alloc, args, &mut files, &mut told, &mut faults) == status);
    assert_eq!(rt; told.bytes(), out.as_bytes(), "standard output");
    assert_eq!(rt; faults.bytes(), err.as_bytes(), "standard error");
    Ok(())
}

/// What is told of the portfolio whose first stream fails between two lines.
const BETWEEN_LINES: &str = "c stream 0: 1 added, 0 deleted, 0 imported, line 2: ReadFailed
c stream 1: 1 added, 0 deleted, 0 imported, ended
c stream 2: 1 added, 0 deleted, 2 imported, stopped
s VERIFIED UNSAT
";

/// What is told of the portfolio whose first stream fails inside its first line.
const INSIDE_A_LINE: &str = "c stream 0: 0 added, 0 deleted, 0 imported, line 1: ReadFailed
c stream 1: 1 added, 0 deleted, 0 imported, ended
c stream 2: 0 added, 0 deleted, 0 imported, line 1: NoSuchClause
s NOT VERIFIED
";

#[test]
fn reads_fail(rt: HostRuntime) -> Result<(), Fail> {
    let alloc = rt.alloc();
    let args = ["--in-turn", "cnf", "fails", "second", "--close", "closing"];
    for (first, out, status) in [
        ("5 2 0 1 2 0\n", BETWEEN_LINES, 0),
        ("5 2 0 1", INSIDE_A_LINE, 1),
    ] {
        assert_told(&rt, alloc, &args, first, (out, ""), status)?;
        assert_told(&rt, alloc, &args[1..], first, (out, ""), status)?;
    }
    let out = "c stream 0: 1 added, 0 deleted, 0 imported, line 2: ReadFailed\ns NOT VERIFIED\n";
    assert_told(&rt, alloc, &args[1..3], "5 2 0 1 2 0\n6 0 5", (out, ""), 1)?;
    let err = "lratjoin: fails: cannot read\n";
    assert_told(&rt, alloc, &["fails", "cnf"], BINARY_TEXT, ("", err), 2)
}
