//! Maps from a seat's own numbers.
ghost use Rattle.std.specs.Prelude.{◌≡◌, OnOk, OnErr, option_copied, None, true, false};
ghost use Rattle.std.specs.FinMap as fin;
ghost use Rattle.lj_book.specs.inner.Slots.{AreDisjoint};

use crate::number_map::NumberMap;
use crate::tree_map::TreeMap;
use lj_clause::NoMemory;
use std::alloc::Global;
use std::marker::Model;

/// How many slots there may be before anything is set.
const FIRST_SLOTS: u64 = 32;

/// A map from own numbers, seen as a finite map. Numbers up to a bound that follows how many were set have slots, the
/// others a tree; so memory is linear in how many were set, whatever numbers they are.
///
/// A call takes constant time for a number that has a slot, amortized, and O(log n) time for others.
#[derive(Debug, Drop)]
pub struct OwnMap<V> {
    dense: NumberMap<V>,
    sparse: TreeMap<V>,
    /// How many times a value was set.
    set: u64,
}

impl<V> Model for OwnMap<V> {
    ghost use Rattle.std.specs.Ordering.{nat_cmp};
    ghost use Rattle.std.specs.Coded.{coded_ℕ};
    ghost use Rattle.std.specs.FinMap as fin;
    ghost use Rattle.lj_book.specs.inner.Slots.{joined_map, AreDisjoint};

    ghost Value = { fin.FinMap nat_cmp V };

    ghost coded = { fin.code coded_ℕ V.code };

    ghost view = { λ m. joined_map m.dense m.sparse };

    ghost invariant = { λ m. AreDisjoint m.dense m.sparse };
}

impl<V: Drop> OwnMap<V> {
    /// The map without an entry. Takes constant time.
    pub fn new(alloc: Global) -> Self
        ensures { result ≡ fin.empty }
    {
        OwnMap {
            dense: NumberMap::new(alloc),
            sparse: TreeMap::new(alloc),
            set: 0,
        }
    }

    /// The value at the key. Takes constant time for a number that has a slot, and O(log n) time for others.
    #[inline]
    pub fn get(&self, key: u64) -> Option<&V>
        ensures { option_copied result ≡ fin.get self.now key }
    {
        match self.dense.get(key) {
            Some(value) => Some(value),
            None => self.sparse.get(key),
        }
    }

    /// Whether there is a value at the key. Takes the time of [`OwnMap::get`].
    pub fn contains_key(&self, key: u64) -> bool
        ensures { result ≡ fin.contains_key self.now key }
    {
        self.get(key).is_some()
    }

    /// Sets the value at the key. Takes no memory where the key is there already. Takes the time of [`OwnMap::get`],
    /// amortized, and time linear in the slots where they grow.
    ///
    /// # Errors
    /// [`NoMemory`] where a growth was refused.
    pub fn insert(&mut self, key: u64, value: V) -> Result<(), NoMemory>
        ensures ok { OnOk result (self.new ≡ fin.insert self.old key value) }
        ensures err { OnErr result (self.new ≡ self.old) }
        ensures absent { OnErr result (fin.get self.old key ≡ None) }
    {
        self.set = self.set.saturating_add(1);
        if is_sparse(&self.dense, &self.sparse, self.set, key) {
            return self.sparse.insert(key, value);
        }
        self.dense.insert(key, value)
    }

    /// Takes the key out, and gives back the value that was there. Takes the time of [`OwnMap::get`].
    pub fn remove(&mut self, key: u64) -> Option<V>
        ensures before { result ≡ fin.get self.old key }
        ensures removed { self.new ≡ fin.remove self.old key }
    {
        match self.dense.remove(key) {
            Some(value) => Some(value),
            None => self.sparse.remove(key),
        }
    }
}

/// Whether a key that is set now belongs to the tree: it is there already, or it has no slot and is beyond the bound.
fn is_sparse<V: Drop>(dense: &NumberMap<V>, sparse: &TreeMap<V>, set: u64, key: u64) -> bool
    requires { AreDisjoint dense.now sparse.now }
    ensures sparse { result ≡ true → fin.get dense.now key ≡ None }
    ensures dense { result ≡ false → fin.get sparse.now key ≡ None }
{
    if dense.get(key).is_some() {
        return false;
    }
    sparse.contains_key(key) || key / 2 > set.saturating_add(FIRST_SLOTS)
}
