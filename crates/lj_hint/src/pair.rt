//! Hints with the clauses that they name.
ghost use Rattle.std.specs.Prelude.{◌≡◌, map, IfOk};
ghost use Rattle.lj_hint.specs.Images.{pair_image};

use lj_clause::{Clause, NoMemory, Renames};
use std::alloc::Global;

/// A hint: the joint number of a clause, and that clause.
#[derive(Debug, Drop)]
pub struct Pair {
    /// The joint number.
    pub joint: u64,
    /// The clause that has this number.
    pub clause: Clause,
}

impl Pair {
    /// The pair with the variables of its clause renamed. Takes the time of [`Clause::renamed`].
    ///
    /// # Errors
    /// [`NoMemory`] where a growth was refused.
    pub(crate) fn renamed<R: Renames>(&self, alloc: Global, renaming: &R) -> Result<Pair, NoMemory>
        ensures { IfOk result (λ pair. pair ≡ pair_image (R.renaming renaming.now) self.now) }
    {
        Ok(Pair {
            joint: self.joint,
            clause: self.clause.renamed(alloc, renaming)?,
        })
    }
}

/// The pairs with their variables renamed.
///
/// # Errors
/// [`NoMemory`] where a growth was refused.
pub(crate) fn renamed_pairs<R: Renames>(
    alloc: Global,
    renaming: &R,
    pairs: &[Pair],
) -> Result<Vec<Pair>, NoMemory>
    ensures { IfOk result
        (λ all. all.items ≡ map (pair_image (R.renaming renaming.now)) pairs.now) }
{
    let mut all = Vec::with_capacity(alloc, pairs.len())?;
    for pair in pairs {
        all.push(pair.renamed(alloc, renaming)?)?;
    }
    Ok(all)
}
