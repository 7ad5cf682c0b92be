//! Events of a book, one after another, and their replies.
use crate::entry::{Added, Dropped, Imported};
use crate::refusal::Refusal;
use lj_clause::Clause;
use lj_hint::{Case, Receipt};
use lj_text::{Addition, Numbers};

/// One thing that a seat does. The number in front is the seat's.
#[derive(Debug, Drop)]
pub enum Event {
    /// Takes an addition under the seat's numbers, which is then the seat's pending case.
    Take(u32, Addition),
    /// Tests the pending case. Its receipt is then pending.
    Test(u32),
    /// Commits the pending receipt.
    Commit(u32),
    /// Tests an addition under the seat's numbers, and enters its lemma.
    Inside(u32, Addition),
    /// Gives own numbers up.
    Drop(u32, Numbers),
    /// Binds the own number, the first, to the live clause of the joint number, the second.
    Adopt(u32, u64, u64),
    /// Binds the own number to the least live clause with exactly these literals.
    Import(u32, u64, Clause),
    /// Ends the seat's bindings, and the seat is gone.
    Leave(u32),
}

/// What an event answers.
#[derive(Clone, Copy, Debug, PartialEq, Eq)]
pub enum Reply {
    /// The case is pending.
    Taken,
    /// The test closed, and the receipt is pending.
    Closed,
    /// The test ended open, and nothing is pending.
    Open,
    /// The test was stuck at the hint of this place, counted from 1, and nothing is pending.
    Stuck(u64),
    /// A test where no case was pending, or a commit where no receipt was. What was pending still is.
    Nothing,
    /// The lemma was added.
    Added(Added),
    /// The own numbers were given up.
    Dropped(Dropped),
    /// The own number was bound. The place is that of the entry in the history, from 0.
    Adopted(u64),
    /// The own number was bound to a clause with the wanted literals.
    Imported(Imported),
    /// The seat is gone. The place is that of the entry in the history, from 0.
    Left(u64),
    /// The call was refused, or a growth of memory was.
    Refused(Refusal),
}

/// What is pending for a seat between its events.
#[derive(Debug, Drop)]
pub(crate) enum Pending {
    Nothing,
    /// A case that was taken and isn't tested yet.
    Case(Case),
    /// The receipt of a test that closed.
    Receipt(Receipt),
}
