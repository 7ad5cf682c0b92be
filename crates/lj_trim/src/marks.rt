//! Marks of clause numbers.
ghost use Rattle.std.specs.Prelude.{◌≡◌, false, ℕ, [], ◌∷◌, IfOk, OnOk};
ghost use Rattle.lj_text.specs.Needed.{all_hints};

use lj_clause::NoMemory;
use lj_text::{Addition, NumbersIter};
use std::alloc::Global;
use std::collections::BTreeSet;

/// Numbers that are marked.
#[derive(Drop)]
pub(crate) struct Marks {
    /// A mark for each number from 0 on, as many as are given out where numbers rise by one.
    pub(crate) dense: Vec<bool>,
    /// The marked numbers beyond.
    pub(crate) sparse: BTreeSet<u64>,
}

impl Marks {
    ghost use Rattle.lj_trim.specs.inner.Marks.{is_marked, Marked};

    /// No number is marked. Numbers below `dense` take a byte each, and the others an entry of an ordered set.
    pub(crate) fn new(alloc: Global, dense: usize) -> Result<Marks, NoMemory>
        ensures { IfOk result (λ m. (n : ℕ) → is_marked m n ≡ false) }
    {
        Ok(Marks {
            dense: vec![in alloc; false; dense]?,
            sparse: BTreeSet::new(alloc),
        })
    }

    /// Whether the number is marked.
    pub(crate) fn has(&self, number: u64) -> bool
        ensures { result ≡ is_marked self.now number }
    {
        match self.dense.get(number as usize) {
            Some(mark) => *mark,
            None => self.sparse.contains(&number),
        }
    }

    /// Marks a number.
    pub(crate) fn mark(&mut self, number: u64) -> Result<(), NoMemory>
        ensures { OnOk result (Marked self.old self.new (number ∷ [])) }
    {
        let index = number as usize;
        if index < self.dense.len() {
            self.dense[index] = true;
        } else {
            self.sparse.insert(number)?;
        }
        Ok(())
    }

    /// Marks numbers. Takes constant time for each of them that is near, and O(log n) time for others.
    pub(crate) fn mark_numbers(&mut self, numbers: NumbersIter<'_>) -> Result<(), NoMemory>
        ensures { OnOk result (Marked self.old self.new numbers.entry) }
    {
        for number in numbers {
            self.mark(number)?;
        }
        Ok(())
    }

    /// Marks all the hints of an addition. Takes the time of [`Marks::mark_numbers`] for them, and constant time for each
    /// group.
    pub(crate) fn mark_hints(&mut self, addition: &Addition) -> Result<(), NoMemory>
        ensures { OnOk result (Marked self.old self.new (all_hints addition.now)) }
    {
        self.mark_numbers(addition.hints.iter())?;
        for group in addition.groups.iter() {
            self.mark_numbers(group.hints)?;
        }
        Ok(())
    }
}
