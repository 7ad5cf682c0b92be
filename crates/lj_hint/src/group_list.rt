//! Lists of groups, wherever their hints are kept.
ghost use Rattle.std.specs.Prelude.{◌≡◌, ◌<◌, List, length, option_map};
ghost use Rattle.lj_clause.specs.Rat.{NamedGroup};
ghost use Rattle.lj_hint.specs.Case.{groups_of};
ghost use Rattle.lj_hint.specs.RatTest.{named_groups};
ghost use Rattle.lj_hint.specs.inner.Groups.{group_in, group_at, before};

use crate::hint_list::{GroupHints, PairHints};
use crate::pair::Pair;

/// A list of groups, each of which has a candidate and hints.
pub(crate) trait GroupList {
    type Hints: GroupHints + Drop;

    ghost groups: { Self → List NamedGroup };

    /// The number of groups. Takes constant time.
    fn count(&self) -> usize
        ensures { result ≡ length (groups self.now) };

    /// The candidate of the group at an index. Takes constant time.
    fn candidate(&self, index: usize) -> u64
        requires { index < length (groups self.now) }
        ensures { result ≡ (group_in (groups self.now) index).candidate };

    /// The hints of the group at an index. Takes constant time.
    fn hints(&self, index: usize) -> Self::Hints
        requires { index < length (groups self.now) }
        ensures { Self.Hints.hints result ≡ (group_in (groups self.now) index).hints };
}

/// The groups of a case, which has their clauses.
#[derive(Drop)]
pub(crate) struct PairGroups<'a> {
    pub groups: &'a [(Pair, Vec<Pair>)],
}

impl<'a> GroupList for PairGroups<'a> {
    type Hints = PairHints<'a>;

    ghost groups = { λ g. named_groups (groups_of g.groups.now) };

    #[inline]
    fn count(&self) -> usize {
        self.groups.len()
    }

    #[inline]
    fn candidate(&self, index: usize) -> u64 {
        self.groups[index].0.joint
    }

    #[inline]
    fn hints(&self, index: usize) -> PairHints<'a> {
        PairHints {
            pairs: &self.groups[index].1,
        }
    }
}

/// The hints of the group before this index, and none before 0.
pub(crate) fn hints_at<G: GroupList>(groups: &G, position: usize) -> Option<G::Hints>
    ensures { option_map G.Hints.hints result ≡ group_at (G.groups groups.now) (before position) }
{
    if position == 0 || position > groups.count() {
        return None;
    }
    Some(groups.hints(position - 1))
}
