//! How the program ends.
ghost use Rattle.std.specs.Prelude.{◌≡◌};
ghost use Rattle.lj_run.specs.Program.{status_code, verdict_status};

use crate::checking::Verdict;

/// How the program ends.
#[derive(Clone, Copy, Debug, PartialEq, Eq)]
pub(crate) enum Status {
    /// The formula is refuted, or what was asked for was told.
    Done,
    /// The formula isn't refuted.
    NotVerified,
    /// There is no answer, or it couldn't be told.
    Fault,
    /// The words ask for nothing that the program knows.
    Usage,
}

impl Status {
    /// The number that the program ends with.
    pub(crate) fn code(self) -> u8
        ensures { result ≡ status_code self }
    {
        match self {
            Status::Done => 0,
            Status::NotVerified => 1,
            Status::Fault => 2,
            Status::Usage => 3,
        }
    }
}

impl From<Verdict> for Status {
    ghost from_gives = { λ verdict status. status ≡ verdict_status verdict };

    fn from(verdict: Verdict) -> Status {
        match verdict {
            Verdict::Verified => Status::Done,
            Verdict::NotVerified => Status::NotVerified,
        }
    }
}
