//! Maps from numbers.
ghost use Rattle.std.specs.Prelude.{◌≡◌, ◌<◌, ◌≤◌, OnOk, OnErr, option_copied, length, None};
ghost use Rattle.std.specs.FinMap as fin;
ghost use Rattle.lj_book.specs.inner.Slots.{slot_map};

use lj_clause::NoMemory;
use std::alloc::Global;
use std::marker::Model;

/// A map from numbers that lie close together, as joint numbers do, seen as a finite map: one slot for each number up
/// to the greatest that was ever set. Each call takes constant time, but that setting a greater number makes the slots
/// up to it.
#[derive(Debug, Drop)]
pub(crate) struct NumberMap<V> {
    slots: Vec<Option<V>>,
}

impl<V> Model for NumberMap<V> {
    ghost use Rattle.std.specs.Ordering.{nat_cmp};
    ghost use Rattle.std.specs.Coded.{coded_ℕ};
    ghost use Rattle.std.specs.FinMap as fin;
    ghost use Rattle.lj_book.specs.inner.Slots.{slot_map};

    ghost Value = { fin.FinMap nat_cmp V };

    ghost coded = { fin.code coded_ℕ V.code };

    ghost view = { λ m. slot_map m.slots.items };
}

impl<V: Drop> NumberMap<V> {
    /// The map without an entry.
    pub(crate) fn new(alloc: Global) -> Self
        ensures { result ≡ fin.empty }
    {
        NumberMap {
            slots: Vec::new(alloc),
        }
    }

    /// The value at the key.
    #[inline]
    pub(crate) fn get(&self, key: u64) -> Option<&V>
        ensures { option_copied result ≡ fin.get self.now key }
    {
        match self.slots.get(key as usize) {
            Some(slot) => slot.as_ref(),
            None => None,
        }
    }

    /// Whether there is a value at the key.
    pub(crate) fn contains_key(&self, key: u64) -> bool
        ensures { result ≡ fin.contains_key self.now key }
    {
        self.get(key).is_some()
    }

    /// Sets the value at the key. Takes no memory where the key is there already.
    ///
    /// # Errors
    /// [`NoMemory`] where a growth was refused.
    pub(crate) fn insert(&mut self, key: u64, value: V) -> Result<(), NoMemory>
        ensures ok { OnOk result (self.new ≡ fin.insert self.old key value) }
        ensures err { OnErr result (self.new ≡ self.old) }
        ensures absent { OnErr result (fin.get self.old key ≡ None) }
    {
        let at = key as usize;
        cover(&mut self.slots, at)?;
        self.slots[at] = Some(value);
        Ok(())
    }

    /// Takes the key out, and gives back the value that was there.
    pub(crate) fn remove(&mut self, key: u64) -> Option<V>
        ensures before { result ≡ fin.get self.old key }
        ensures removed { self.new ≡ fin.remove self.old key }
    {
        let at = key as usize;
        if at < self.slots.len() {
            self.slots[at].take()
        } else {
            None
        }
    }
}

/// Adds empty slots, so that there is one at this place.
fn cover<V: Drop>(slots: &mut Vec<Option<V>>, at: usize) -> Result<(), NoMemory>
    ensures there { OnOk result (at < length slots.new.items) }
    ensures same { slot_map slots.new.items ≡ slot_map slots.old.items }
    ensures past { OnErr result (length slots.old.items ≤ at) }
{
    for _ in slots.len()..=at {
        slots.push(None)?;
    }
    Ok(())
}
