//! The words that the program is given.
ghost use Rattle.std.specs.Prelude.{◌≡◌, ◌≢◌, IfOk, Err, map, option_map};
ghost use Rattle.clap.specs.Faults.{fault_of};
ghost use Rattle.clap.specs.Kinds.{FailsBy};
ghost use Rattle.clap.specs.Simple.{app_of, matches_of};
ghost use Rattle.clap.specs.Values.{kind_of};
ghost use Rattle.clap.specs.Walk.{rows_of};
ghost use Rattle.clap.specs.Matches.{found_of};
ghost use Rattle.clap.specs.declared.error.kind.ErrorKind.TheVariants.{OutOfMemory};
ghost use Rattle.lj_run.specs.inner.CommandLine.{HasRule, line_asked, request_asked};
ghost use Rattle.lj_run.specs.CommandLine.{asked_by, asked_by_rows, bare_app, flag_rule, is_given, is_input, is_run_of, kind_asked, limit_of, option_rule, path_rule, paths_rule, program_app, run_asked, run_with_proof, run_app, steps_of_value, way_of, with_explain, with_progress, with_proof};
ghost use Rattle.lj_run.specs.declared.args.ArgsFault.TheVariants as args_faults;

use crate::command_line::{CommandLine, MAX_PROOFS, Request};
use crate::misuse::Misuse;
use crate::outcome::Way;
use clap::error::ErrorKind;
use clap::{Arg, ArgAction, ArgMatches, Command, Error};
use lj_clause::NoMemory;
use std::alloc::{AllocError, Global};
use std::convert::AsStr;

/// Why words weren't read.
#[derive(Clone, Copy, Debug)]
pub(crate) enum ArgsFault {
    /// A growth of memory was refused.
    NoMemory(NoMemory),
    /// A growth of memory was refused to `clap`, as the kind of its error says.
    OutOfMemory,
}

impl From<AllocError> for ArgsFault {
    ghost from_gives = { λ _ fault. fault ≢ args_faults.OutOfMemory };

    fn from(e: AllocError) -> Self {
        ArgsFault::NoMemory(e.into())
    }
}

/// What the words ask for.
pub(crate) fn read_args<'a, S: AsStr>(
    alloc: Global,
    args: &'a [S],
) -> Result<Request<'a>, ArgsFault>
    ensures { IfOk result (λ request.
        request_asked request ≡ asked_by (map S.text args.entry.now)) }
{
    match parsed(alloc, args) {
        Ok(matches) => Ok(run_of(alloc, &matches)?),
        Err(error) => told(alloc, &error),
    }
}

/// The words as `clap` reads them.
fn parsed<'a, S: AsStr>(alloc: Global, args: &'a [S]) -> Result<ArgMatches<'a>, Error>
    ensures matches { IfOk result (λ m.
        rows_of (found_of m) ≡ matches_of program_app (map S.text args.entry.now)) }
    ensures kinds { FailsBy (fault_of program_app (map S.text args.entry.now)) result }
{
    command(alloc)?.try_get_matches_from(args)
}

/// The command line of the program.
fn command<'a>(alloc: Global) -> Result<Command<'a>, AllocError>
    ensures { IfOk result (λ c. app_of c ≡ program_app) }
{
    let formula = path(alloc, "FORMULA", "The formula, a DIMACS CNF file");
    let proofs = paths(
        alloc,
        "PROOF",
        "A stream of LRAT lines, a file; up to 64 of them",
    );
    let close = option(
        alloc,
        "close",
        "FILE",
        "A stream that runs after all others have ended",
    );
    let in_turn = flag(alloc, "in-turn", "Run the streams one after the other");
    let proof = option(alloc, "proof", "OUT", "Write the joint proof to OUT");
    let trim = flag(
        alloc,
        "trim",
        "Write only the steps that the empty clause needs",
    );
    let max_steps = option(alloc, "max-steps", "N", "Accept at most N additions");
    let command = without_arguments(alloc).arg(formula)?.arg(proofs)?;
    let command = command.arg(close)?.arg(in_turn)?.arg(proof)?;
    let command = command.arg(trim)?.arg(max_steps)?;
    with_error_flags(alloc, command)
}

/// The command with the options that are about standard error.
fn with_error_flags<'a>(alloc: Global, command: Command<'a>) -> Result<Command<'a>, AllocError>
    requires { app_of command ≡ run_app }
    ensures { IfOk result (λ c. app_of c ≡ program_app) }
{
    let explain = flag(
        alloc,
        "explain",
        "Say on standard error why a stream ended at a line",
    );
    let progress = flag(
        alloc,
        "progress",
        "Say on standard error how far the streams are",
    );
    command.arg(explain)?.arg(progress)
}

/// The version that `--version` tells.
const VERSION: &str = "0.2.0";

/// What the help tells behind the options.
const MORE_HELP: &str = "Example: two provers, and a closing stream that imports what they derived
  lratjoin formula.cnf first.lrat second.lrat --close closing.lrat --proof joint.lrat --trim

Exit status:
  0  verified, or this help was printed
  1  not verified
  2  a fault of the formula or of a file, refused memory, or an unconfirmed verdict
  3  wrong arguments

docs/GUIDE.md makes a portfolio step by step. docs/FORMATS.md has all formats.";

/// The program without its arguments.
fn without_arguments<'a>(alloc: Global) -> Command<'a>
    ensures { app_of result ≡ bare_app }
{
    Command::new(alloc, "lratjoin")
        .about("Checks LRAT proofs that a CNF formula can't be satisfied")
        .version(VERSION)
        .after_help(MORE_HELP)
        .no_binary_name(true)
}

/// A path that has to be given.
fn path<'a>(alloc: Global, id: &'a str, help: &'a str) -> Arg<'a>
    ensures { HasRule (path_rule id.entry.now) result }
{
    Arg::new(alloc, id)
        .help(help)
        .required(true)
        .action(ArgAction::Set)
}

/// One path or more that have to be given.
fn paths<'a>(alloc: Global, id: &'a str, help: &'a str) -> Arg<'a>
    ensures { HasRule (paths_rule id.entry.now) result }
{
    Arg::new(alloc, id)
        .help(help)
        .required(true)
        .action(ArgAction::Append)
}

/// An option with a value.
fn option<'a>(alloc: Global, name: &'a str, value: &'a str, help: &'a str) -> Arg<'a>
    ensures { HasRule (option_rule name.entry.now) result }
{
    Arg::new(alloc, name)
        .long(name)
        .value_name(value)
        .help(help)
        .action(ArgAction::Set)
}

/// An option without a value.
fn flag<'a>(alloc: Global, name: &'a str, help: &'a str) -> Arg<'a>
    ensures { HasRule (flag_rule name.entry.now) result }
{
    Arg::new(alloc, name)
        .long(name)
        .help(help)
        .action(ArgAction::SetTrue)
}

/// What the matches ask for.
fn run_of<'a>(alloc: Global, matches: &ArgMatches<'a>) -> Result<Request<'a>, AllocError>
    ensures { IfOk result (λ request.
        request_asked request ≡ asked_by_rows (rows_of (found_of matches.now))) }
{
    let proofs = matches.get_raw("PROOF").unwrap_or(&[]);
    let in_turn = is_given(matches, "in-turn");
    let request = request_of(
        alloc,
        matches.get_str("FORMULA"),
        proofs,
        matches.get_str("close"),
        matches.get_str("max-steps"),
        way_of(in_turn, proofs.len()),
    )?;
    let trim = is_given(matches, "trim");
    let request = with_proof(request, matches.get_str("proof"), trim);
    let explain = is_given(matches, "explain");
    let request = with_explain(request, explain);
    let progress = is_given(matches, "progress");
    Ok(with_progress(request, progress))
}

/// Whether the flag of this name is given.
fn is_given<'a>(matches: &ArgMatches<'a>, name: &str) -> bool
    ensures { result ≡ is_given name.now (rows_of (found_of matches.now)) }
{
    matches.get_str(name) == Some("true")
}

/// The way in which the streams of so many PROOF files are run: nothing runs beside a single one.
fn way_of(in_turn: bool, proofs: usize) -> Way
    ensures { result ≡ way_of in_turn proofs }
{
    if in_turn || proofs < 2 {
        Way::InTurn
    } else {
        Way::OnThreads
    }
}

/// The run that values ask for, or usage where there are too many streams or the limit is none.
fn request_of<'a>(
    alloc: Global,
    formula: Option<&'a str>,
    proofs: &[&'a str],
    closing: Option<&'a str>,
    max_steps: Option<&str>,
    way: Way,
) -> Result<Request<'a>, AllocError>
    ensures { IfOk result (λ request. request_asked request
        ≡ run_asked (option_map (λ path. path.now) formula.entry)
        (map (λ path. path.now) proofs.now) (option_map (λ path. path.now) closing.entry)
        (option_map (λ text. text.now) max_steps.entry) way) }
{
    let Some(formula) = formula else {
        return Ok(Request::Usage(Misuse::NoFormula));
    };
    if !is_run_of(proofs) {
        return Ok(Request::Usage(Misuse::TooManyProofs));
    }
    let Some(max_steps) = steps_of(max_steps) else {
        return Ok(Request::Usage(Misuse::NoLimit));
    };
    Ok(Request::Run(CommandLine {
        formula,
        proofs: proofs.to_vec(alloc)?,
        closing,
        max_steps,
        way,
        proof: None,
        trim: false,
        explain: false,
        progress: false,
    }))
}

/// The request with the proof that is to be written at a path, where there is one.
fn with_proof<'a>(request: Request<'a>, proof: Option<&'a str>, trim: bool) -> Request<'a>
    ensures { request_asked result ≡ with_proof (request_asked request.entry)
        (option_map (λ path. path.now) proof.entry) trim }
{
    match (request, proof) {
        (Request::Run(line), Some(path)) => run_with_proof(line, path, trim),
        (request, _) => request,
    }
}

/// The run with the proof at this path, or usage where it would overwrite what the run reads.
fn run_with_proof<'a>(mut line: CommandLine<'a>, path: &'a str, trim: bool) -> Request<'a>
    ensures { request_asked result
        ≡ run_with_proof (line_asked line.entry) path.entry.now trim }
{
    if is_input(&line, path) {
        return Request::Usage(Misuse::Overwrites);
    }
    line.proof = Some(path);
    line.trim = trim;
    Request::Run(line)
}

/// The request, and whether it is told why streams end at a line.
fn with_explain<'a>(request: Request<'a>, explain: bool) -> Request<'a>
    ensures { request_asked result ≡ with_explain (request_asked request.entry) explain }
{
    match request {
        Request::Run(mut line) => {
            line.explain = explain;
            Request::Run(line)
        }
        request => request,
    }
}

/// The request, and whether it is told how far the streams are.
fn with_progress<'a>(request: Request<'a>, progress: bool) -> Request<'a>
    ensures { request_asked result ≡ with_progress (request_asked request.entry) progress }
{
    match request {
        Request::Run(mut line) => {
            line.progress = progress;
            Request::Run(line)
        }
        request => request,
    }
}

/// Whether the run reads the file at this path.
fn is_input<'a>(line: &CommandLine<'a>, path: &'a str) -> bool
    ensures { result ≡ is_input (line_asked line.now) path.now }
{
    if line.formula == path {
        return true;
    }
    line.proofs.contains(&path) || line.closing == Some(path)
}

/// Whether a run takes that many streams.
fn is_run_of(proofs: &[&str]) -> bool
    ensures { result ≡ is_run_of (map (λ path. path.now) proofs.now) }
{
    !proofs.is_empty() && proofs.len() <= MAX_PROOFS
}

/// The limit that the value of `--max-steps` writes, and the greatest where it isn't given.
fn steps_of(value: Option<&str>) -> Option<u32>
    ensures { result ≡ steps_of_value (option_map (λ text. text.now) value.entry) }
{
    match value {
        Some(text) => limit_of(text),
        None => Some(u32::MAX),
    }
}

/// The limit that a text of decimal digits writes. A sign is no digit, though `parse` takes one.
fn limit_of(text: &str) -> Option<u32>
    ensures { result ≡ limit_of text.now }
{
    if text.as_bytes().starts_with(b"+") {
        return None;
    }
    text.parse::<u32>().ok()
}

/// What words ask for that are read with this error.
fn told<'a>(alloc: Global, error: &Error) -> Result<Request<'a>, ArgsFault>
    ensures told { IfOk result (λ request. request_asked request ≡ kind_asked (kind_of error.now)) }
    ensures memory { IfOk result (λ _. kind_of error.now ≢ OutOfMemory) }
    ensures by_kind { result ≡ Err args_faults.OutOfMemory → kind_of error.now ≡ OutOfMemory }
{
    match error.kind() {
        ErrorKind::OutOfMemory => Err(ArgsFault::OutOfMemory),
        ErrorKind::DisplayHelp => Ok(Request::Help(error.to_string(alloc)?)),
        ErrorKind::DisplayVersion => Ok(Request::Version(error.to_string(alloc)?)),
        _ => Ok(Request::Misread(error.to_string(alloc)?)),
    }
}
