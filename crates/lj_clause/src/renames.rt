//! Renamings of variables, wherever they are kept.
ghost use Rattle.std.specs.Prelude.{◌≡◌, ◌<◌, ◌≤◌, true, map, IfOk, IfSome};
ghost use Rattle.std.specs.FinMap as fin;
ghost use Rattle.lj_clause.specs.Renaming.{Renaming, literal_image};

use crate::lit::{Lit, MAX_VARIABLE};
use crate::memory::NoMemory;
use std::alloc::Global;

/// A renaming of variables.
pub trait Renames {
    ghost renaming: { Self → Renaming };

    /// What a variable becomes, `None` if it stays. A clause that is renamed asks at most twice for each literal.
    fn variable(&self, variable: u32) -> Option<u32>
        ensures same { result ≡ fin.get (renaming self.now) variable }
        ensures in_range { IfSome result (λ other. (0 < other) × (other ≤ MAX_VARIABLE)) };
}

/// Whether each literal stays.
pub(crate) fn all_stay<R: Renames>(renaming: &R, lits: &[Lit]) -> bool
    ensures { result ≡ true → map (literal_image (R.renaming renaming.now)) lits.now ≡ lits.now }
{
    for lit in lits {
        if lit.renamed(renaming) != *lit {
            return false;
        }
    }
    true
}

/// What the literals become.
///
/// # Errors
/// [`NoMemory`] where a growth was refused.
pub(crate) fn renamed_lits<R: Renames>(
    alloc: Global,
    renaming: &R,
    lits: &[Lit],
) -> Result<Vec<Lit>, NoMemory>
    ensures { IfOk result
        (λ all. all.items ≡ map (literal_image (R.renaming renaming.now)) lits.now) }
{
    let mut all = Vec::with_capacity(alloc, lits.len())?;
    for lit in lits {
        all.push(lit.renamed(renaming))?;
    }
    Ok(all)
}
