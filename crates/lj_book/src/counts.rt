//! How often numbers are counted.
ghost use Rattle.std.specs.Prelude.{◌≡◌, ◌+◌, ◌<◌, ◌^◌, ℕ, ◌∷◌, OnOk, OnErr, IfOk, Some, length, nat_lt, replicate};
ghost use Rattle.lj_book.specs.inner.Holders.{count_at, count_beyond, slot_count, one_if_at, all_up_to};

use crate::tree_map::TreeMap;
use lj_clause::NoMemory;
use std::alloc::Global;
use std::marker::Model;

/// A count for each number, of which slots are made up to the greatest that was ever counted: up to 4,294,967,295 in four
/// bytes, and in a tree what goes beyond. A call takes constant time, amortized, and O(log n) time where the tree is asked.
#[derive(Drop)]
pub(crate) struct Counts {
    slots: Vec<u32>,
    beyond: TreeMap<u64>,
}

impl Model for Counts {
    ghost use Rattle.std.specs.Coded.{coded×, coded_list, coded_ℕ};
    ghost use Rattle.std.specs.FinMap as fin;
    ghost use Rattle.lj_book.specs.inner.Holders.{Counted};

    ghost Value = { Counted };

    ghost coded = { coded× (coded_list coded_ℕ) (fin.code coded_ℕ coded_ℕ) };

    ghost view = { λ c. (c.slots.items, c.beyond) };
}

impl Counts {
    /// The same count for each number from 1 to this one.
    ///
    /// # Errors
    /// [`NoMemory`] where a growth was refused.
    pub(crate) fn up_to(alloc: Global, last: u64, count: u32) -> Result<Counts, NoMemory>
        ensures { IfOk result (λ counts. counts ≡ all_up_to last count) }
    {
        Ok(Counts {
            slots: same_counts(alloc, last, count)?,
            beyond: TreeMap::new(alloc),
        })
    }

    /// Whether a number is counted at all.
    #[inline]
    pub(crate) fn is_counted(&self, number: u64) -> bool
        ensures { result ≡ nat_lt 0 (count_at self.now number) }
    {
        count_in(&self.slots, number as usize) > 0 || self.beyond(number) > 0
    }

    /// What goes beyond the slot of a number.
    #[inline]
    fn beyond(&self, number: u64) -> u64
        ensures { result ≡ count_beyond self.now.1 number }
    {
        self.beyond.get(number).copied().unwrap_or(0)
    }

    /// Counts a number once more.
    ///
    /// # Errors
    /// [`NoMemory`] where a growth was refused.
    #[inline(always)]
    pub(crate) fn add_one(&mut self, number: u64) -> Result<(), NoMemory>
        requires { count_at self.old number + 1 < 2 ^ 64 }
        ensures ok { OnOk result ((q : ℕ) → count_at self.new q
            ≡ one_if_at (Some number) q + count_at self.old q) }
        ensures err { OnErr result ((q : ℕ) → count_at self.new q ≡ count_at self.old q) }
    {
        let at = number as usize;
        cover(&mut self.slots, at)?;
        if self.slots[at] == u32::MAX {
            return self.add_beyond(number);
        }
        self.slots[at] += 1;
        Ok(())
    }

    /// The same in the tree.
    ///
    /// # Errors
    /// [`NoMemory`] where a growth was refused.
    #[cold]
    #[inline(never)]
    fn add_beyond(&mut self, number: u64) -> Result<(), NoMemory>
        requires { count_at self.old number + 1 < 2 ^ 64 }
        ensures ok { OnOk result ((q : ℕ) → count_at self.new q
            ≡ one_if_at (Some number) q + count_at self.old q) }
        ensures err { OnErr result ((q : ℕ) → count_at self.new q ≡ count_at self.old q) }
    {
        let count = self.beyond(number) + 1;
        self.beyond.insert(number, count)
    }

    /// Takes one from a number's count.
    #[inline]
    pub(crate) fn take_one(&mut self, number: u64)
        requires { 0 < count_at self.old number }
        ensures { (q : ℕ) → count_at self.old q
            ≡ one_if_at (Some number) q + count_at self.new q }
    {
        let at = number as usize;
        if count_in(&self.slots, at) == 0 {
            self.take_beyond(number);
            return;
        }
        self.slots[at] -= 1;
    }

    /// The same in the tree.
    #[cold]
    #[inline(never)]
    fn take_beyond(&mut self, number: u64)
        requires { 0 < count_beyond self.old.1 number }
        ensures { (q : ℕ) → count_at self.old q
            ≡ one_if_at (Some number) q + count_at self.new q }
    {
        let count = self.beyond(number) - 1;
        let _ = self.beyond.insert(number, count);
    }
}

/// The slots of the same count for each number from 1 to this one.
///
/// # Errors
/// [`NoMemory`] where a growth was refused.
fn same_counts(alloc: Global, last: u64, count: u32) -> Result<Vec<u32>, NoMemory>
    ensures { IfOk result (λ counts. counts.items ≡ 0 ∷ replicate last count) }
{
    let mut counts = Vec::new(alloc);
    counts.push(0)?;
    for _number in 0..last {
        counts.push(count)?;
    }
    Ok(counts)
}

/// What stands in a slot.
#[inline(always)]
fn count_in(slots: &[u32], at: usize) -> u32
    ensures { result ≡ slot_count slots.now at }
{
    match slots.get(at) {
        Some(count) => *count,
        None => 0,
    }
}

/// Adds slots, so that there is one at this place.
///
/// # Errors
/// [`NoMemory`] where a growth was refused.
#[inline(always)]
fn cover(slots: &mut Vec<u32>, at: usize) -> Result<(), NoMemory>
    ensures there { OnOk result (at < length slots.new.items) }
    ensures same { (q : ℕ) → slot_count slots.new.items q ≡ slot_count slots.old.items q }
{
    for _ in slots.len()..=at {
        slots.push(0)?;
    }
    Ok(())
}
