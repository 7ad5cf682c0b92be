//! The bindings of a seat's numbers up to a bound, most of which are bound to themselves.
ghost use Rattle.std.specs.Prelude.{◌≡◌, ◌<◌, ◌^◌, OnOk, OnErr, IfOk, None};
ghost use Rattle.std.specs.FinMap as fin;
ghost use Rattle.lj_book.specs.Tables.{up_to};

use crate::dying::rising;
use crate::opened::Opened;
use crate::tree_map::TreeMap;
use lj_clause::NoMemory;
use std::alloc::Global;
use std::marker::Model;

/// Own numbers of a seat with the joint numbers that they are bound to, seen as a finite map: those that it holds from the
/// opening on, and in a tree those that were bound again after they had been given up.
///
/// A call takes constant time for a number that is held so, amortized, and O(log n) time for others.
#[derive(Drop)]
pub(crate) struct EarlyTable {
    opened: Opened,
    anew: TreeMap<u64>,
}

impl Model for EarlyTable {
    ghost use Rattle.std.specs.Prelude.{ℕ};
    ghost use Rattle.std.specs.Ordering.{nat_cmp};
    ghost use Rattle.std.specs.Coded.{coded_ℕ};
    ghost use Rattle.std.specs.FinMap as fin;
    ghost use Rattle.lj_book.specs.inner.Slots.{joined_map, AreDisjoint};

    ghost Value = { fin.FinMap nat_cmp ℕ };

    ghost coded = { fin.code coded_ℕ coded_ℕ };

    ghost view = { λ t. joined_map t.opened t.anew };

    ghost invariant = { λ t. AreDisjoint t.opened t.anew };
}

impl EarlyTable {
    /// The table that binds each number from 1 to this one to itself. Takes constant time.
    ///
    /// # Errors
    /// [`NoMemory`] where a growth was refused.
    pub(crate) fn up_to(alloc: Global, last: u64) -> Result<EarlyTable, NoMemory>
        requires { last < 2 ^ 63 }
        ensures { IfOk result (λ table. table ≡ up_to last) }
    {
        let opened = Opened::up_to(alloc, last)?;
        Ok(EarlyTable {
            opened,
            anew: TreeMap::new(alloc),
        })
    }

    /// The joint number that the own number is bound to.
    #[inline(always)]
    pub(crate) fn get(&self, own: u64) -> Option<u64>
        ensures { result ≡ fin.get self.now own }
    {
        if self.opened.holds(own) {
            return Some(own);
        }
        self.anew.number(own)
    }

    /// Binds an own number that isn't bound.
    ///
    /// # Errors
    /// [`NoMemory`] where a growth was refused.
    pub(crate) fn insert(&mut self, own: u64, joint: u64) -> Result<(), NoMemory>
        requires { fin.get self.old own ≡ None }
        ensures ok { OnOk result (self.new ≡ fin.insert self.old own joint) }
        ensures err { OnErr result (self.new ≡ self.old) }
    {
        self.anew.insert(own, joint)
    }

    /// The own numbers, rising. Takes O(n log n) time, and time linear in the numbers of the opening.
    ///
    /// # Errors
    /// [`NoMemory`] where a growth was refused.
    pub(crate) fn keys(&self, alloc: Global) -> Result<Vec<u64>, NoMemory>
        ensures { IfOk result (λ keys. keys.items ≡ fin.keys self.now) }
    {
        let mut keys = self.opened.keys(alloc)?;
        let anew = self.anew.keys(alloc)?;
        keys.extend_from_slice(&anew)?;
        Ok(rising(keys))
    }

    /// Gives the own number up. Answers the joint number that it was bound to.
    #[inline]
    pub(crate) fn remove(&mut self, own: u64) -> Option<u64>
        ensures before { result ≡ fin.get self.old own }
        ensures removed { self.new ≡ fin.remove self.old own }
    {
        if self.opened.holds(own) {
            self.opened.remove(own);
            return Some(own);
        }
        self.anew.remove(own)
    }
}
