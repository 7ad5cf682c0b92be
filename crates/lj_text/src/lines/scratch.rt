//! Room for what a line says.
ghost use Rattle.std.specs.Prelude.{◌≡◌, ◌<◌, ◌≤◌, ◌++◌, ◌∷◌, [], length, IfOk, OnOk};
ghost use Rattle.lj_clause.specs.LiteralSet.{literals};
ghost use Rattle.lj_text.specs.declared.line.Line.TheVariants.{Delete};

use crate::boxed::Boxed;
use crate::groups::Groups;
use crate::line::{Addition, Line};
use crate::numbers::{MANY, Numbers};
use lj_clause::{Lemma, Lit, NoMemory};
use std::alloc::Global;

/// How many literals a lemma has at most that takes no memory for them.
const INLINE: usize = 3;

/// How many additions that are done are kept for those to come, of each kind.
const MOST_SPARE: usize = 1_024;

/// Room for the literals and the numbers of a line, which is used again for the next line.
#[derive(Debug, Drop)]
pub(super) struct Scratch {
    pub alloc: Global,
    pub literals: Vec<Lit>,
    /// The numbers of a deletion, or the hints of a group.
    pub numbers: Numbers,
    /// Where additions of up to three literals are written.
    inline: Vec<Box<Addition>>,
    /// Where those of more are, whose literals stand in memory of their own.
    long: Vec<Box<Addition>>,
}

impl Scratch {
    /// Room for nothing yet. Takes constant time.
    pub fn new(alloc: Global) -> Scratch
        ensures empty { (result.literals.items ≡ []) × (result.numbers ≡ []) }
        ensures none { (result.inline.items ≡ []) × (result.long.items ≡ []) }
    {
        Scratch {
            alloc,
            literals: Vec::new(alloc),
            numbers: Numbers::from_u32s(Vec::new(alloc)),
            inline: Vec::new(alloc),
            long: Vec::new(alloc),
        }
    }

    /// A place for an addition of the literals that were read, with whatever stands there. Takes constant time.
    #[inline(always)]
    pub fn addition(&mut self) -> Result<Box<Addition>, NoMemory>
        ensures { self.new.literals ≡ self.old.literals }
    {
        let target = if self.literals.len() > INLINE {
            self.long.pop()
        } else {
            self.inline.pop()
        };
        match target {
            Some(target) => Ok(target),
            None => new_addition(self.alloc),
        }
    }

    /// Takes a place back for additions to come whose literals are few as its own are, or many as those; lets go of one of
    /// very many, and where many places are kept. Takes constant time, amortized.
    ///
    /// # Errors
    /// [`NoMemory`] where a growth was refused, and then the place is let go.
    #[inline(always)]
    pub fn take_back(&mut self, target: Box<Addition>) -> Result<(), NoMemory>
        ensures inline { OnOk result (length (literals target.value.lemma.clause) ≤ 3
            → length self.old.inline.items < 1024
            → self.new.inline.items ≡ self.old.inline.items ++ target ∷ []) }
        ensures long { OnOk result (3 < length (literals target.value.lemma.clause)
            → length (literals target.value.lemma.clause) ≤ MANY
            → length self.old.long.items < 1024
            → self.new.long.items ≡ self.old.long.items ++ target ∷ []) }
        ensures kept { (self.new.literals ≡ self.old.literals)
            × (self.new.numbers ≡ self.old.numbers) }
    {
        let count = target.lemma.clause().lits().len();
        if count <= INLINE {
            return keep(&mut self.inline, target);
        }
        if count <= MANY {
            return keep(&mut self.long, target);
        }
        Ok(())
    }

    /// A deletion of the numbers that were read, in exactly the memory that they need. Takes time linear in them.
    #[inline(always)]
    pub fn deletion(&mut self) -> Result<Line, NoMemory>
        ensures { IfOk result (λ line. line ≡ Delete self.old.numbers) }
    {
        let numbers = self.numbers.try_clone()?;
        self.numbers.let_go_of_many();
        Ok(Line::Delete(Boxed::new(self.alloc, numbers)?))
    }
}

/// Keeps a place among the others, unless there are many.
///
/// # Errors
/// [`NoMemory`] where a growth was refused.
#[inline(always)]
fn keep(spare: &mut Vec<Box<Addition>>, target: Box<Addition>) -> Result<(), NoMemory>
    ensures { OnOk result (length spare.old.items < 1024
        → spare.new.items ≡ spare.old.items ++ target ∷ []) }
{
    if spare.len() < MOST_SPARE {
        spare.push(target)?;
    }
    Ok(())
}

/// A new place for an addition.
#[cold]
fn new_addition(alloc: Global) -> Result<Box<Addition>, NoMemory> {
    let empty = Addition {
        number: 0,
        lemma: Lemma::from_lits(alloc, &[])?,
        hints: Numbers::from_u32s(Vec::new(alloc)),
        groups: Groups::new(alloc),
    };
    Ok(Box::new(alloc, empty)?)
}
