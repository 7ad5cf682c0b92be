//! The body of the program.
ghost use Rattle.std.specs.Prelude.{◌≡◌, ◌≢◌, ◌⊎◌, ◌<◌, ◌≤◌, ◌++◌, ℕ, List, map, true, false, option_map, IfOk, IfErr, IfSome, OnOk, OnErr};
ghost use Rattle.lj_text.specs.Streams.{source_state};
ghost use Rattle.lj_run.specs.CommandLine.{a_run, asked_by, asks_why};
ghost use Rattle.lj_run.specs.Explanation.{IsExplained};
ghost use Rattle.lj_run.specs.inner.CommandLine.{line_asked};
ghost use Rattle.lj_run.specs.Program.{CreatesAtMost, IfRun, IsFaultOf, IsFaultTold, IsOther, IsProofLost, IsReportOfAll, IsRunAnswered, IsRunCut, MayEnd, SpellsUnsatisfiable, checked_status, failed_outputs, status_code};
ghost use Rattle.lj_run.specs.inner.Program.{IsAnswerTo, IsAskedFor, IsLostAt, is_lost, is_told_late};
ghost use Rattle.lj_run.specs.Proof.{sink_state};
ghost use Rattle.lj_run.specs.declared.fault.Fault.TheVariants as faults;
ghost use Rattle.lj_run.specs.declared.status.Status.TheVariants as statuses;

use crate::args::read_args;
use crate::checking::{Checked, check_with_steps};
use crate::command_line::{CommandLine, Request};
use crate::fault::{Fault, fault_of};
use crate::files::Files;
use crate::opening::{create, open, open_all, open_closing};
use crate::outcome::{Options, ProofEnd};
use crate::progress::Progress;
use crate::status::Status;
use lj_text::{Sink, Source, write_all};
use std::alloc::Global;
use std::convert::AsStr;
use std::mem;
use std::sync::Wait;
use std::thread::Threads;
use std::time::Clock;

/// Does what the arguments ask for, and answers the status that the program is to end with. The arguments are those after the
/// program's own name. With `--progress` it tells on the standard error of the runtime how far the streams are, at most once a
/// second, and nothing of that goes to `err`. The memory of a run's steps is left to the system, which takes it back when the
/// program ends. Takes the time of the run that they ask for.
pub fn program<R: Threads + Wait + Clock + Eprint + Sync, S: AsStr, F: Files, O: Sink, E: Sink>(
    rt: &R,
    alloc: Global,
    args: &[S],
    files: &mut F,
    out: &mut O,
    err: &mut E,
) -> u8
    requires out { O.failures out.old ≡ 0 }
    requires err { E.failures err.old ≡ 0 }

    ensures status { MayEnd (asked_by (map S.text args.now)) result }
    ensures printed { result < 2 → IfRun (asked_by (map S.text args.now)) (λ run. IsRunAnswered
        (source_state F.Input.given F.Input.ended F.Input.rest F.Input.failures)
        (sink_state F.Output.taken F.Output.failures) (λ path. F.content files.old path) run
        (O.taken out.old) (O.taken out.new) result) }
    ensures same_report { result < 2 → IfRun (asked_by (map S.text args.now)) (λ run.
        IsReportOfAll (source_state F.Input.given F.Input.ended F.Input.rest F.Input.failures)
        (sink_state F.Output.taken F.Output.failures) (λ path. F.content files.old path) run
        (O.taken out.old) (O.taken out.new) result) }
    ensures refuted { result ≡ 0 → IfRun (asked_by (map S.text args.now)) (λ run.
        IfSome (F.content files.old run.formula) SpellsUnsatisfiable) }
    ensures told { result < 2 → O.failures out.new ≡ 0 }
    ensures quiet { result < 2 → asks_why (asked_by (map S.text args.now)) ≡ false
        → err.new ≡ err.old }
    ensures explained { result < 2 → E.failures err.new ≡ 0
        → IfRun (asked_by (map S.text args.now)) (λ run. IsExplained F.Input run.explains
        (O.taken out.old) (O.taken out.new) (E.taken err.old) (E.taken err.new)) }

    ensures untouched { 2 ≤ result → O.failures out.new ≡ 0 → (out.new ≡ out.old) ⊎ IsProofLost
        (source_state F.Input.given F.Input.ended F.Input.rest F.Input.failures)
        (sink_state F.Output.taken F.Output.failures) (λ path. F.content files.old path)
        (asked_by (map S.text args.now)) (O.taken out.old) (O.taken out.new) }
    ensures cut { O.failures out.new ≢ 0 → IfRun (asked_by (map S.text args.now)) (λ run. IsRunCut
        (source_state F.Input.given F.Input.ended F.Input.rest F.Input.failures)
        (λ path. F.content files.old path) run (O.taken out.old) (O.taken out.new)) }
    ensures fault { 2 ≤ result → E.failures err.new ≡ 0
        → IsFaultTold (source_state F.Input.given F.Input.ended F.Input.rest F.Input.failures)
        (sink_state F.Output.taken F.Output.failures) (asked_by (map S.text args.now))
        (λ path. F.content files.old path) (F.tried files.old) (F.tried files.new)
        (O.failures out.new) (E.taken err.old) (E.taken err.new) result }

    ensures same_files { (path : List ℕ) → IsOther (asked_by (map S.text args.now)) path
        → F.content files.new path ≡ F.content files.old path }
    ensures created { CreatesAtMost (asked_by (map S.text args.now)) (F.tried files.old)
        (F.tried files.new) }
{
    match answer(rt, alloc, args, files, out, err) {
        Ok(status) => status.code(),
        Err(fault) => {
            // That standard error fails changes nothing.
            let _ = fault.tell(err);
            fault.status().code()
        }
    }
}

/// Answers what the words ask for.
fn answer<'a, R: Threads + Wait + Clock + Eprint + Sync, S: AsStr, F: Files, O: Sink, E: Sink>(
    rt: &R,
    alloc: Global,
    args: &'a [S],
    files: &mut F,
    out: &mut O,
    err: &mut E,
) -> Result<Status, Fault<'a>>
    requires out { O.failures out.old ≡ 0 }
    requires err { E.failures err.old ≡ 0 }
    ensures quiet { asks_why (asked_by (map S.text args.entry.now)) ≡ false → err.new ≡ err.old }
    ensures explained { OnOk result (E.failures err.new ≡ 0
        → IfRun (asked_by (map S.text args.entry.now)) (λ run. IsExplained F.Input run.explains
        (O.taken out.old) (O.taken out.new) (E.taken err.old) (E.taken err.new))) }
    ensures unsaid { OnErr result (err.new ≡ err.old) }
    ensures answered { IfOk result (IsAnswerTo
        (source_state F.Input.given F.Input.ended F.Input.rest F.Input.failures)
        (sink_state F.Output.taken F.Output.failures) (λ path. F.content files.old path)
        (asked_by (map S.text args.entry.now)) (O.taken out.old) (O.taken out.new)) }
    ensures ok { OnOk result (O.failures out.new ≡ 0) }
    ensures ended { IfOk result (λ status. status_code status < 2) }
    ensures fault { IfErr result (IsFaultOf
        (source_state F.Input.given F.Input.ended F.Input.rest F.Input.failures)
        (sink_state F.Output.taken F.Output.failures) (asked_by (map S.text args.entry.now))
        (λ path. F.content files.old path) (F.tried files.old) (F.tried files.new)) }
    ensures output { IfErr result (λ fault. O.failures out.new ≡ failed_outputs fault) }
    ensures untouched { IfErr result (λ fault. is_told_late fault ≡ false → out.new ≡ out.old) }
    ensures lost { IfErr result (λ fault. is_lost fault ≡ true → IsProofLost
        (source_state F.Input.given F.Input.ended F.Input.rest F.Input.failures)
        (sink_state F.Output.taken F.Output.failures) (λ path. F.content files.old path)
        (asked_by (map S.text args.entry.now)) (O.taken out.old) (O.taken out.new)) }
    ensures cut { IfErr result (λ fault. fault ≡ faults.CannotWrite
        → IfRun (asked_by (map S.text args.entry.now)) (λ run. IsRunCut
        (source_state F.Input.given F.Input.ended F.Input.rest F.Input.failures)
        (λ path. F.content files.old path) run (O.taken out.old) (O.taken out.new))) }
    ensures same_files { (path : List ℕ) → IsOther (asked_by (map S.text args.entry.now)) path
        → F.content files.new path ≡ F.content files.old path }
    ensures created { CreatesAtMost (asked_by (map S.text args.entry.now)) (F.tried files.old)
        (F.tried files.new) }
{
    match read_args(alloc, args)? {
        Request::Run(line) => run(rt, alloc, &line, files, out, err),
        Request::Help(text) | Request::Version(text) => print(text.as_str(), out),
        Request::Usage(misuse) => Err(Fault::Usage(misuse)),
        Request::Misread(text) => Err(Fault::Misread(text)),
    }
}

/// Prints a text.
fn print<'a, O: Sink>(text: &str, out: &mut O) -> Result<Status, Fault<'a>>
    requires { O.failures out.old ≡ 0 }
    ensures done { IfOk result (λ status. status ≡ statuses.Done) }
    ensures ok { OnOk result (O.failures out.new ≡ 0) }
    ensures fault { IfErr result (λ fault. (fault ≡ faults.CannotWrite)) }
    ensures failed { IfErr result (λ _. O.failures out.new ≡ 1) }
{
    match write_all(out, text.as_bytes()) {
        Ok(()) => Ok(Status::Done),
        Err(_) => Err(Fault::CannotWrite),
    }
}

/// Runs the streams, and prints what came of them. Then tells why streams ended at a line, where that is asked for.
fn run<'a, R: Threads + Wait + Clock + Eprint + Sync, F: Files, O: Sink, E: Sink>(
    rt: &R,
    alloc: Global,
    line: &CommandLine<'a>,
    files: &mut F,
    out: &mut O,
    err: &mut E,
) -> Result<Status, Fault<'a>>
    requires out { O.failures out.old ≡ 0 }
    requires err { E.failures err.old ≡ 0 }
    ensures quiet { line.now.explain ≡ false → err.new ≡ err.old }
    ensures explained { OnOk result (E.failures err.new ≡ 0 → IsExplained F.Input line.now.explain
        (O.taken out.old) (O.taken out.new) (E.taken err.old) (E.taken err.new)) }
    ensures unsaid { OnErr result (err.new ≡ err.old) }
    ensures answered { IfOk result (IsAnswerTo
        (source_state F.Input.given F.Input.ended F.Input.rest F.Input.failures)
        (sink_state F.Output.taken F.Output.failures) (λ path. F.content files.old path)
        (a_run (line_asked line.now)) (O.taken out.old) (O.taken out.new)) }
    ensures ok { OnOk result (O.failures out.new ≡ 0) }
    ensures ended { IfOk result (λ status. status_code status < 2) }
    ensures fault { IfErr result (IsFaultOf
        (source_state F.Input.given F.Input.ended F.Input.rest F.Input.failures)
        (sink_state F.Output.taken F.Output.failures) (a_run (line_asked line.now))
        (λ path. F.content files.old path) (F.tried files.old) (F.tried files.new)) }
    ensures output { IfErr result (λ fault. O.failures out.new ≡ failed_outputs fault) }
    ensures untouched { IfErr result (λ fault. is_told_late fault ≡ false → out.new ≡ out.old) }
    ensures lost { IfErr result (λ fault. is_lost fault ≡ true → IsProofLost
        (source_state F.Input.given F.Input.ended F.Input.rest F.Input.failures)
        (sink_state F.Output.taken F.Output.failures) (λ path. F.content files.old path)
        (a_run (line_asked line.now)) (O.taken out.old) (O.taken out.new)) }
    ensures cut { IfErr result (λ fault. fault ≡ faults.CannotWrite → IsRunCut
        (source_state F.Input.given F.Input.ended F.Input.rest F.Input.failures)
        (λ path. F.content files.old path) (line_asked line.now)
        (O.taken out.old) (O.taken out.new)) }
    ensures same_files { (path : List ℕ) → IsOther (a_run (line_asked line.now)) path
        → F.content files.new path ≡ F.content files.old path }
    ensures created { CreatesAtMost (a_run (line_asked line.now)) (F.tried files.old)
        (F.tried files.new) }
{
    let mut formula = open(files, line.formula)?;
    let streams = open_all(alloc, files, &line.proofs)?;
    let closing = open_closing(files, line.closing)?;
    let mut proof = create(files, line.proof)?;
    let options = Options {
        max_steps: line.max_steps,
        trim: line.trim,
        explain: line.explain,
    };
    let progress = progress_of(rt, alloc, line);
    match check_with_steps(
        rt,
        alloc,
        &mut formula,
        streams,
        closing,
        &options,
        line.way,
        &progress,
        &mut proof,
        out,
    ) {
        Ok((checked, steps, explanation)) => {
            // Nothing is left to do: the system takes the memory as a whole, and needs no time for each step.
            mem::forget(steps);
            let answer = ended(checked, line.proof);
            tell_why(line.explain, &answer, explanation.as_str(), err);
            answer
        }
        Err(fault) => Err(fault_of(line.formula, fault)),
    }
}

/// The progress of the streams of a run, where it is asked for.
fn progress_of<'a, R: Clock + Eprint>(
    rt: &'a R,
    alloc: Global,
    line: &CommandLine<'_>,
) -> Option<Progress<'a, R>> {
    if !line.progress {
        return None;
    }
    let streams = line.proofs.len() + usize::from(line.closing.is_some());
    Progress::new(rt, alloc, streams)
}

/// Tells why streams ended at a line, where that is asked for and nothing else is told.
fn tell_why<'a, E: Sink>(
    explain: bool,
    answer: &Result<Status, Fault<'a>>,
    explanation: &str,
    err: &mut E,
)
    requires { E.failures err.old ≡ 0 }
    ensures quiet { explain ≡ false → err.new ≡ err.old }
    ensures unsaid { OnErr answer.now (err.new ≡ err.old) }
    ensures told { explain ≡ true → OnOk answer.now (E.failures err.new ≡ 0
        → E.taken err.new ≡ E.taken err.old ++ explanation.now) }
{
    if !explain || answer.is_err() {
        return;
    }
    // That standard error fails changes nothing.
    let _ = write_all(err, explanation.as_bytes());
}

/// How a run ends whose check answers this, and whose proof was asked for at this path.
fn ended<'a>(checked: Checked, path: Option<&'a str>) -> Result<Status, Fault<'a>>
    requires { IsAskedFor checked.proof path }
    ensures ok { IfOk result (λ status. (status ≡ checked_status checked)
        × (status_code status < 2)) }
    ensures fault { IfErr result (λ fault. IsLostAt (option_map (λ path. path.now) path.entry)
        checked.proof fault × (checked_status checked ≡ statuses.Fault)) }
{
    match (checked.proof, path) {
        (ProofEnd::Failed(fault), Some(path)) => Err(Fault::ProofLost { path, fault }),
        _ => Ok(checked.verdict.into()),
    }
}
