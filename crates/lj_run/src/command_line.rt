//! What the words ask for.
ghost use Rattle.std.specs.Prelude.{◌<◌, ◌≤◌, vec_len};

use crate::misuse::Misuse;
use crate::outcome::Way;

/// The most PROOF files of a run.
pub(crate) const MAX_PROOFS: usize = 64;

/// What the words ask for.
#[derive(Debug, Drop)]
pub(crate) enum Request<'a> {
    /// A run over these files.
    Run(CommandLine<'a>),
    /// The help, which is this text.
    Help(String),
    /// The name and the version, which are this text.
    Version(String),
    /// No run, for a reason of the program's own.
    Usage(Misuse),
    /// Words that `clap` doesn't read. The text says why, and how the program is used.
    Misread(String),
}

/// What a run is asked for.
#[derive(Debug, Drop)]
pub(crate) struct CommandLine<'a> {
    /// The path of the formula.
    pub formula: &'a str,
    /// The paths of the streams, in their order.
    pub proofs: Vec<&'a str>,
    /// The path of the closing stream.
    pub closing: Option<&'a str>,
    /// The most additions that the run accepts.
    pub max_steps: u32,
    /// The way in which the streams are run.
    pub way: Way,
    /// The path of the file that the proof is written into.
    pub proof: Option<&'a str>,
    /// Whether the proof is to hold only what the empty clause needs.
    pub trim: bool,
    /// Whether it is told why streams end at a line.
    pub explain: bool,
    /// Whether it is told how far the streams are.
    pub progress: bool,
    ghost some: { 0 < vec_len proofs },
    ghost at_most: { vec_len proofs ≤ 64 },
}
