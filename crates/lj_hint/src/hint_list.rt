//! Lists of hints, wherever their clauses are kept.
ghost use Rattle.std.specs.Prelude.{◌≡◌, ◌<◌, ◌≤◌, ◌++◌, ◌∷◌, [], List, length, take, IfOk, OnOk};
ghost use Rattle.lj_clause.specs.Propagation.{Hint};
ghost use Rattle.lj_hint.specs.Hints.{named_hints};
ghost use Rattle.lj_hint.specs.inner.Hints.{hint_numbers, clause_at};
ghost use Rattle.lj_hint.specs.inner.Groups.{read_group};

use crate::pair::Pair;
use lj_clause::{ClauseView, NoMemory};
use lj_text::{Groups, Numbers};
use std::alloc::Global;

/// A list of hints, each of which names a clause.
pub(crate) trait HintList {
    ghost hints: { Self → List Hint };

    /// The number of hints. Takes constant time.
    fn count(&self) -> usize
        ensures { result ≡ length (hints self.now) };

    /// The clause that the hint at an index names. Takes the time of [`Clauses::clause`], where a hint is but a number.
    fn clause(&self, index: usize) -> Option<ClauseView<'_>>
        requires { index < length (hints self.now) }
        ensures { result ≡ clause_at (hints self.now) index };
}

/// A list of hints of a group.
pub(crate) trait GroupHints: HintList {
    /// Puts a candidate with the first hints, so many, behind the groups. Takes time linear in these.
    ///
    /// # Errors
    /// [`NoMemory`] where a growth was refused.
    fn put_first(
        &self,
        alloc: Global,
        candidate: u64,
        count: usize,
        groups: &mut Groups,
    ) -> Result<(), NoMemory>
        requires { count ≤ length (Self.hints self.now) }
        ensures { OnOk result
            (groups.new ≡ groups.old ++ read_group candidate (Self.hints self.now) count ∷ []) };
}

/// The hints of a case, which has their clauses.
#[derive(Drop)]
pub(crate) struct PairHints<'a> {
    pub pairs: &'a [Pair],
}

impl HintList for PairHints<'_> {
    ghost hints = { λ h. named_hints h.pairs.now };

    #[inline]
    fn count(&self) -> usize {
        self.pairs.len()
    }

    #[inline]
    fn clause(&self, index: usize) -> Option<ClauseView<'_>> {
        Some(self.pairs[index].clause.view())
    }
}

impl GroupHints for PairHints<'_> {
    fn put_first(
        &self,
        alloc: Global,
        candidate: u64,
        count: usize,
        groups: &mut Groups,
    ) -> Result<(), NoMemory> {
        let numbers = joint_numbers(alloc, self.pairs, count)?;
        groups.push(candidate, numbers.iter())?;
        Ok(())
    }
}

/// The joint numbers of the first pairs, so many.
///
/// # Errors
/// [`NoMemory`] where a growth was refused.
fn joint_numbers(alloc: Global, pairs: &[Pair], count: usize) -> Result<Numbers, NoMemory>
    requires { count ≤ length pairs.now }
    ensures { IfOk result (λ joint. joint ≡ hint_numbers (take count (named_hints pairs.now))) }
{
    let mut numbers = Numbers::with_capacity(alloc, count)?;
    for index in 0..count {
        numbers.push(pairs[index].joint)?;
    }
    Ok(numbers)
}
