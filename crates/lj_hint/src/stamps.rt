//! Stamps of literals by their place.
ghost use Rattle.std.specs.Prelude.{◌≡◌, ◌==◌, ◌≤◌, ℕ, OnOk, OnErr, length, slice_index, if◌then◌else◌};
ghost use Rattle.lj_hint.specs.inner.Stamps.{stamp_at};

use lj_clause::NoMemory;
use std::alloc::Global;
use std::collections::BTreeMap;
use std::marker::Model;

/// How many places the list has, once it has any.
const FIRST: usize = 4096;

/// A stamp for each place of a literal, 0 where none was set. Those of the first places stand in a list, the others in a tree.
/// The list has at most 4,096 places, or eight for each literal that a propagation has held.
#[derive(Drop)]
pub(crate) struct Stamps {
    dense: Vec<u32>,
    sparse: BTreeMap<usize, u32>,
    /// How many literals the propagations have held so far. It decides how long the list gets, and no stamp.
    assigned: usize,
}

impl Model for Stamps {
    ghost use Rattle.lj_hint.specs.inner.Stamps.{Stamped};

    ghost Value = { Stamped };

    ghost view = { λ s. (s.dense.items, s.sparse.entries) };
}

impl Stamps {
    /// No stamp anywhere. Takes no memory.
    pub(crate) fn new(alloc: Global) -> Stamps
        ensures { (q : ℕ) → stamp_at result q ≡ 0 }
    {
        Stamps {
            dense: Vec::new(alloc),
            sparse: BTreeMap::new(alloc),
            assigned: 0,
        }
    }

    /// The stamps, lent to who reads many of them.
    #[inline(always)]
    pub(crate) fn lent(&self) -> LentStamps<'_>
        ensures { result ≡ self.now }
    {
        LentStamps {
            dense: &self.dense,
            stamps: self,
        }
    }

    /// Whether this is the stamp at a place beyond the list. Takes O(log n) time.
    #[cold]
    #[inline(never)]
    fn is_sparse(&self, index: usize, stamp: u32) -> bool
        requires { length self.now.0 ≤ index }
        ensures { result ≡ (stamp_at self.now index == stamp) }
    {
        match self.sparse.get(&index) {
            Some(found) => *found == stamp,
            None => stamp == 0,
        }
    }

    /// Sets the stamp at a place. Takes constant time, and O(log n) beyond the list.
    ///
    /// # Errors
    /// [`NoMemory`] where a growth was refused.
    #[inline(always)]
    pub(crate) fn set(&mut self, index: usize, stamp: u32) -> Result<(), NoMemory>
        ensures ok { OnOk result ((q : ℕ) → stamp_at self.new q
            ≡ (if q == index then stamp else stamp_at self.old q)) }
        ensures err { OnErr result ((q : ℕ) → stamp_at self.new q ≡ stamp_at self.old q) }
    {
        if index < self.dense.len() {
            self.dense[index] = stamp;
            return Ok(());
        }
        self.set_sparse(index, stamp)
    }

    /// Sets the stamp at a place beyond the list. Takes O(log n) time.
    ///
    /// # Errors
    /// [`NoMemory`] where a growth was refused.
    #[cold]
    #[inline(never)]
    fn set_sparse(&mut self, index: usize, stamp: u32) -> Result<(), NoMemory>
        requires { length self.old.0 ≤ index }
        ensures ok { OnOk result ((q : ℕ) → stamp_at self.new q
            ≡ (if q == index then stamp else stamp_at self.old q)) }
        ensures err { OnErr result ((q : ℕ) → stamp_at self.new q ≡ stamp_at self.old q) }
    {
        self.sparse.insert(index, stamp)?;
        Ok(())
    }

    /// Sets the stamp at a place to 0. Takes constant time, and O(log n) beyond the list.
    #[inline]
    pub(crate) fn erase(&mut self, index: usize)
        ensures { (q : ℕ) → stamp_at self.new q ≡ (if q == index then 0 else stamp_at self.old q) }
    {
        if index < self.dense.len() {
            self.dense[index] = 0;
        } else {
            let _ = self.sparse.remove(&index);
        }
    }

    /// Begins a propagation, for which no older stamp means anything, after one that held so many literals. No stamp becomes
    /// greater. Takes constant time, amortized, and linear time in the stamps beyond the list.
    #[inline]
    pub(crate) fn begin_propagation(&mut self, assigned: usize)
        ensures { (q : ℕ) → stamp_at self.new q ≤ stamp_at self.old q }
    {
        self.assigned = self.assigned.saturating_add(assigned);
        if !self.sparse.is_empty() {
            self.widen();
        }
    }

    /// Clears the stamps beyond the list, and makes it twice as long where so many literals were held that it may be.
    #[cold]
    #[inline(never)]
    fn widen(&mut self)
        ensures { (q : ℕ) → stamp_at self.new q ≤ stamp_at self.old q }
    {
        self.sparse.clear();
        if self.dense.len() / 4 <= self.assigned {
            lengthen(&mut self.dense);
        }
    }

    /// Clears every stamp.
    #[cold]
    pub(crate) fn clear(&mut self)
        ensures { (q : ℕ) → stamp_at self.new q ≡ 0 }
    {
        self.dense.clear();
        self.sparse.clear();
    }
}

/// Makes the list twice as long, unless the growth is refused. No stamp changes.
fn lengthen(stamps: &mut Vec<u32>)
    ensures { (q : ℕ) → slice_index stamps.new.items q ≡ slice_index stamps.old.items q }
{
    let len = stamps.len().saturating_mul(2).max(FIRST);
    if stamps.resize(len, 0).is_err() {
        return;
    }
}

/// Stamps that are lent, with their list at hand.
#[derive(Drop)]
pub(crate) struct LentStamps<'a> {
    dense: &'a [u32],
    stamps: &'a Stamps,
}

impl<'a> Model for LentStamps<'a> {
    ghost use Rattle.std.specs.Prelude.{◌≡◌};
    ghost use Rattle.lj_hint.specs.inner.Stamps.{Stamped};

    ghost Value = { Stamped };

    ghost view = { λ l. l.stamps.now };

    ghost invariant = { λ l. l.dense.now ≡ l.stamps.now.0 };
}

impl<'a> LentStamps<'a> {
    /// Whether this is the stamp at a place. Takes constant time, and O(log n) beyond the list.
    #[inline(always)]
    pub(crate) fn is(&self, index: usize, stamp: u32) -> bool
        ensures { result ≡ (stamp_at self.now index == stamp) }
    {
        match self.dense.get(index) {
            Some(found) => *found == stamp,
            None => self.stamps.is_sparse(index, stamp),
        }
    }
}
