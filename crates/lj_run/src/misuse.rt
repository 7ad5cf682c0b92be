//! What is wrong with words that `clap` reads.
ghost use Rattle.std.specs.Prelude.{◌≡◌};
ghost use Rattle.lj_run.specs.Program.{misuse_text};

/// What is wrong with words that `clap` reads.
#[derive(Clone, Copy, Debug)]
pub(crate) enum Misuse {
    /// There is no FORMULA.
    NoFormula,
    /// There are more PROOF files than a run takes.
    TooManyProofs,
    /// The value of `--max-steps` is no limit.
    NoLimit,
    /// The proof would overwrite a file that the run reads.
    Overwrites,
}

impl Misuse {
    /// The reason that is told of it.
    pub(crate) fn text(self) -> &'static str
        ensures { result.now ≡ misuse_text self }
    {
        match self {
            Misuse::NoFormula => "FORMULA wasn't provided",
            Misuse::TooManyProofs => "there are more than 64 PROOF files",
            Misuse::NoLimit => "N of '--max-steps <N>' is no number from 0 to 4294967295",
            Misuse::Overwrites => "OUT of '--proof <OUT>' is a file that the run reads",
        }
    }
}
