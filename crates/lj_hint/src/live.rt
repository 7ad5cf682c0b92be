//! Clauses under numbers, wherever they are kept.
ghost use Rattle.std.specs.Prelude.{◌≡◌, IfOk, map, filter, List, length};
ghost use Rattle.std.specs.FinMap as fin;
ghost use Rattle.lj_clause.specs.LiteralSet.{holds};
ghost use Rattle.lj_clause.specs.ClauseMap.{ClauseMap};
ghost use Rattle.lj_clause.specs.Propagation.{Hint, hints_in};
ghost use Rattle.lj_clause.specs.Rat.{groups_in};

use crate::group_list::GroupList;
use crate::hint_list::{GroupHints, HintList};
use lj_clause::{ClauseView, Lit, NoMemory};
use lj_text::{Groups, IndexedGroups, NumbersIter};
use std::alloc::Global;

/// Clauses under numbers.
pub trait Clauses {
    ghost clauses: { Self → ClauseMap };

    /// The clause of a number. A test asks for one for each hint, and takes that time too: in a book O(log n).
    fn clause(&self, number: u64) -> Option<ClauseView<'_>>
        ensures { result ≡ fin.get (clauses self.now) number };
}

/// The clauses that live, under their joint numbers.
pub trait Live: Clauses {
    /// The joint numbers of the live clauses that hold the literal, rising. A test asks for them once, where the first hints
    /// leave it open, and takes that time too: in a book that of its own call of this name.
    ///
    /// # Errors
    /// [`NoMemory`] where a growth was refused.
    fn candidates(&self, lit: Lit) -> Result<Vec<u64>, NoMemory>
        ensures { IfOk result (λ numbers. numbers.items
            ≡ map (λ e. e.0) (filter (λ e. holds e.1 lit) (fin.entries (Self.clauses self.now)))) };
}

/// Hints that name clauses by their numbers, which take four bytes each.
#[derive(Drop)]
pub(crate) struct U32Hints<'a, C> {
    pub clauses: &'a C,
    pub numbers: &'a [u32],
}

impl<C: Clauses> HintList for U32Hints<'_, C> {
    ghost hints = { λ h. hints_in (C.clauses h.clauses.now) h.numbers.now };

    #[inline]
    fn count(&self) -> usize {
        self.numbers.len()
    }

    #[inline]
    fn clause(&self, index: usize) -> Option<ClauseView<'_>> {
        self.clauses.clause(u64::from(self.numbers[index]))
    }
}

/// Hints that name clauses by their numbers.
#[derive(Drop)]
pub(crate) struct NumberHints<'a, C> {
    pub clauses: &'a C,
    pub numbers: NumbersIter<'a>,
}

impl<C: Clauses> HintList for NumberHints<'_, C> {
    ghost hints = { λ h. hints_in (C.clauses h.clauses.now) h.numbers };

    #[inline]
    fn count(&self) -> usize {
        self.numbers.len()
    }

    #[inline]
    fn clause(&self, index: usize) -> Option<ClauseView<'_>> {
        match self.numbers.get(index) {
            Some(number) => self.clauses.clause(number),
            None => None,
        }
    }
}

impl<C: Clauses> GroupHints for NumberHints<'_, C> {
    fn put_first(
        &self,
        _: Global,
        candidate: u64,
        count: usize,
        groups: &mut Groups,
    ) -> Result<(), NoMemory> {
        groups.push(candidate, self.numbers.first(count))?;
        Ok(())
    }
}

/// Groups that name live clauses by their numbers.
#[derive(Drop)]
pub(crate) struct LiveGroups<'a, L> {
    pub live: &'a L,
    pub groups: IndexedGroups<'a>,
}

impl<'a, L: Live> GroupList for LiveGroups<'a, L> {
    type Hints = NumberHints<'a, L>;

    ghost groups = { λ g. groups_in (L.clauses g.live.now) g.groups };

    #[inline]
    fn count(&self) -> usize {
        self.groups.len()
    }

    #[inline]
    fn candidate(&self, index: usize) -> u64 {
        match self.groups.get(index) {
            Some(group) => group.candidate,
            None => 0,
        }
    }

    #[inline]
    fn hints(&self, index: usize) -> NumberHints<'a, L> {
        let numbers = match self.groups.get(index) {
            Some(group) => group.hints,
            None => NumbersIter::empty(),
        };
        NumberHints {
            clauses: self.live,
            numbers,
        }
    }
}
