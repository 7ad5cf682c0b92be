//! The table of a seat.
ghost use Rattle.std.specs.Prelude.{◌≡◌, ◌+◌, ◌-◌, ◌<◌, ◌^◌, ◌++◌, map, OnOk, OnErr, IfOk, None};
ghost use Rattle.std.specs.List.{All};
ghost use Rattle.std.specs.FinMap as fin;
ghost use Rattle.lj_book.specs.Tables.{up_to};

use crate::dying::rising;
use crate::early_table::EarlyTable;
use crate::slot_map::SlotMap;
use lj_clause::NoMemory;
use std::alloc::Global;
use std::marker::Model;

/// The own numbers of a seat with the joint numbers that they are bound to, seen as a finite map. Those of the opening take
/// nearly nothing while all are held. The others stand apart, by how far behind these the number is: so a seat's first number of
/// its own takes no room for the numbers before.
///
/// A call on a number takes O(log n) time, amortized, and constant time where the number is held since the opening or has a
/// slot.
#[derive(Drop)]
pub(crate) struct SeatTable {
    early: EarlyTable,
    late: SlotMap<u32>,
    /// The first number behind those of the opening.
    end: u64,
}

impl Model for SeatTable {
    ghost use Rattle.std.specs.Prelude.{ℕ, ◌-◌, ◌^◌};
    ghost use Rattle.std.specs.Ordering.{nat_cmp};
    ghost use Rattle.std.specs.Coded.{coded_ℕ};
    ghost use Rattle.std.specs.FinMap as fin;
    ghost use Rattle.lj_book.specs.inner.Slots.{joined_map, shifted, AreBefore};

    ghost Value = { fin.FinMap nat_cmp ℕ };

    ghost coded = { fin.code coded_ℕ coded_ℕ };

    ghost view = { λ t. joined_map t.early (shifted t.end t.late) };

    ghost invariant = { λ t. AreBefore t.end t.early × AreBefore (2 ^ 64 - t.end) t.late };
}

impl SeatTable {
    /// The table that binds each number from 1 to this one to itself. Takes constant time.
    ///
    /// # Errors
    /// [`NoMemory`] where a growth was refused.
    pub(crate) fn up_to(alloc: Global, last: u64) -> Result<SeatTable, NoMemory>
        requires { last < 2 ^ 63 }
        ensures { IfOk result (λ table. table ≡ up_to last) }
    {
        let early = EarlyTable::up_to(alloc, last)?;
        Ok(SeatTable {
            early,
            late: SlotMap::new(alloc),
            end: last + 1,
        })
    }

    /// The joint number that the own number is bound to.
    #[inline(always)]
    pub(crate) fn get(&self, own: u64) -> Option<u64>
        ensures { result ≡ fin.get self.now own }
    {
        if own >= self.end {
            return self.late.get(own - self.end);
        }
        self.early.get(own)
    }

    /// Binds an own number that isn't bound.
    ///
    /// # Errors
    /// [`NoMemory`] where a growth was refused.
    #[inline(always)]
    pub(crate) fn insert(&mut self, own: u64, joint: u64) -> Result<(), NoMemory>
        requires { fin.get self.old own ≡ None }
        ensures ok { OnOk result (self.new ≡ fin.insert self.old own joint) }
        ensures err { OnErr result (self.new ≡ self.old) }
    {
        if own >= self.end {
            return self.late.insert(own - self.end, joint);
        }
        self.early.insert(own, joint)
    }

    /// The own numbers, rising. Takes O(n log n) time for n of them, and time linear in the slots and in the numbers of the
    /// opening.
    ///
    /// # Errors
    /// [`NoMemory`] where a growth was refused.
    pub(crate) fn keys(&self, alloc: Global) -> Result<Vec<u64>, NoMemory>
        ensures { IfOk result (λ keys. keys.items ≡ fin.keys self.now) }
    {
        let mut keys = self.early.keys(alloc)?;
        let late = self.late.keys(alloc)?;
        put_greater(&mut keys, &late, self.end)?;
        Ok(rising(keys))
    }

    /// Gives the own number up. Answers the joint number that it was bound to.
    #[inline]
    pub(crate) fn remove(&mut self, own: u64) -> Option<u64>
        ensures before { result ≡ fin.get self.old own }
        ensures removed { self.new ≡ fin.remove self.old own }
    {
        if own >= self.end {
            return self.late.remove(own - self.end);
        }
        self.early.remove(own)
    }
}

/// Puts these numbers, each so much greater, behind the keys.
///
/// # Errors
/// [`NoMemory`] where a growth was refused.
fn put_greater(keys: &mut Vec<u64>, numbers: &[u64], by: u64) -> Result<(), NoMemory>
    requires { All (λ number. by + number < 2 ^ 64) numbers.now }
    ensures { OnOk result
        (keys.new.items ≡ keys.old.items ++ map (λ number. by + number) numbers.now) }
{
    for number in numbers {
        keys.push(by + *number)?;
    }
    Ok(())
}
