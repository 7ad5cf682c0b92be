//! What the history keeps of a call.
ghost use Rattle.std.specs.Prelude.{◌≡◌, IfOk};

use crate::lent_addition::LentAddition;
use lj_clause::{Clause, Lemma, NoMemory};
use lj_text::{Numbers, Step};

/// A call that was accepted, as it was made.
#[derive(Debug, Drop)]
pub enum Call {
    /// A lemma was added and bound to the seat's own number.
    Add { own: u64, lemma: Lemma },
    /// Own numbers were given up.
    Drop { numbers: Numbers },
    /// The seat's own number was bound to a live joint number.
    Adopt { own: u64, joint: u64 },
    /// The seat's own number was bound to the least live number with exactly this clause, or to a new one under which the clause
    /// entered by a part of it that lives.
    Import { own: u64, clause: Clause },
    /// The seat left.
    Leave,
}

/// One entry of the history: an accepted call, who made it, and the step that it took, if it took one.
#[derive(Debug, Drop)]
pub struct Entry {
    pub seat: u32,
    pub call: Call,
    pub step: Option<Step>,
}

impl Call {
    /// A call of its own with the same contents.
    ///
    /// # Errors
    /// [`NoMemory`] where a growth was refused.
    fn try_clone(&self) -> Result<Call, NoMemory>
        ensures { IfOk result (λ clone. clone ≡ self.now) }
    {
        Ok(match self {
            Call::Add { own, lemma } => Call::Add {
                own: *own,
                lemma: lemma.try_clone()?,
            },
            Call::Drop { numbers } => Call::Drop {
                numbers: numbers.try_clone()?,
            },
            Call::Adopt { own, joint } => Call::Adopt {
                own: *own,
                joint: *joint,
            },
            Call::Import { own, clause } => Call::Import {
                own: *own,
                clause: clause.try_clone()?,
            },
            Call::Leave => Call::Leave,
        })
    }
}

impl Entry {
    /// An entry of its own with the same contents.
    ///
    /// # Errors
    /// [`NoMemory`] where a growth was refused.
    pub(crate) fn try_clone(&self) -> Result<Entry, NoMemory>
        ensures { IfOk result (λ clone. clone ≡ self.now) }
    {
        Ok(Entry {
            seat: self.seat,
            call: self.call.try_clone()?,
            step: clone_of_step(&self.step)?,
        })
    }
}

/// A step of its own with the same contents, if there is one.
///
/// # Errors
/// [`NoMemory`] where a growth was refused.
fn clone_of_step(step: &Option<Step>) -> Result<Option<Step>, NoMemory>
    ensures { IfOk result (λ clone. clone ≡ step.now) }
{
    Ok(match step {
        Some(Step::Add(addition)) => {
            let lent = LentAddition::new(
                addition.number,
                &addition.lemma,
                &addition.hints,
                &addition.groups,
            );
            Some(Step::Add(lent.try_clone()?))
        }
        Some(Step::Delete { numbers }) => Some(Step::Delete {
            numbers: numbers.try_clone()?,
        }),
        None => None,
    })
}

/// The reply to an addition.
#[derive(Clone, Copy, Debug, PartialEq, Eq)]
pub struct Added {
    /// The entry's place in the history, from 0.
    pub place: u64,
    /// The joint number of the lemma.
    pub joint: u64,
}

/// The reply to a drop.
#[derive(Clone, Copy, Debug, PartialEq, Eq)]
pub struct Dropped {
    /// The entry's place in the history, from 0.
    pub place: u64,
    /// How many own numbers were given up.
    pub count: u64,
}

/// The reply to an import.
#[derive(Clone, Copy, Debug, PartialEq, Eq)]
pub struct Imported {
    /// The entry's place in the history, from 0.
    pub place: u64,
    /// The joint number that the own number is bound to.
    pub joint: u64,
}
