//! Maps from numbers that lie far apart.
ghost use Rattle.std.specs.Prelude.{◌≡◌, IsTrue, ◌↔◌, OnOk, OnErr, IfOk, IsOk, option_copied, is_some, None};
ghost use Rattle.std.specs.FinMap as fin;

use lj_clause::NoMemory;
use std::alloc::Global;
use std::collections::BTreeMap;
use std::marker::Model;

/// A map from numbers however far apart, seen as a finite map: one node of a tree for each. Each call takes O(log n)
/// time.
#[derive(Debug, Drop)]
pub(crate) struct TreeMap<V> {
    entries: BTreeMap<u64, V>,
}

impl<V> Model for TreeMap<V> {
    ghost use Rattle.std.specs.Ordering.{nat_cmp};
    ghost use Rattle.std.specs.Coded.{coded_ℕ};
    ghost use Rattle.std.specs.FinMap as fin;

    ghost Value = { fin.FinMap nat_cmp V };

    ghost coded = { fin.code coded_ℕ V.code };

    ghost view = { λ m. fin.from_entries m.entries.entries };
}

impl<V: Drop> TreeMap<V> {
    /// The map without an entry.
    pub(crate) fn new(alloc: Global) -> Self
        ensures { result ≡ fin.empty }
    {
        TreeMap {
            entries: BTreeMap::new(alloc),
        }
    }

    /// Whether there is no entry.
    #[inline]
    pub(crate) fn is_empty(&self) -> bool
        ensures { IsTrue result ↔ (self.now ≡ fin.empty) }
    {
        self.entries.is_empty()
    }

    /// The value at the key.
    #[inline]
    pub(crate) fn get(&self, key: u64) -> Option<&V>
        ensures { option_copied result ≡ fin.get self.now key }
    {
        if self.is_empty() {
            return None;
        }
        self.get_in_nodes(key)
    }

    /// The same by way of the nodes.
    #[cold]
    #[inline(never)]
    fn get_in_nodes(&self, key: u64) -> Option<&V>
        ensures { option_copied result ≡ fin.get self.now key }
    {
        self.entries.get(&key)
    }

    /// Whether there is a value at the key.
    #[inline]
    pub(crate) fn contains_key(&self, key: u64) -> bool
        ensures { result ≡ fin.contains_key self.now key }
    {
        self.get(key).is_some()
    }

    /// Sets the value at the key. Takes no memory where the key is there already.
    ///
    /// # Errors
    /// [`NoMemory`] where a growth was refused.
    #[cold]
    #[inline(never)]
    pub(crate) fn insert(&mut self, key: u64, value: V) -> Result<(), NoMemory>
        ensures ok { OnOk result (self.new ≡ fin.insert self.old key value) }
        ensures err { OnErr result (self.new ≡ self.old) }
        ensures absent { OnErr result (fin.get self.old key ≡ None) }
    {
        self.entries.insert(key, value)?;
        Ok(())
    }

    /// The keys, rising. Takes time linear in the entries.
    ///
    /// # Errors
    /// [`NoMemory`] where a growth was refused.
    pub(crate) fn keys(&self, alloc: Global) -> Result<Vec<u64>, NoMemory>
        ensures { IfOk result (λ keys. keys.items ≡ fin.keys self.now) }
    {
        let mut keys = Vec::new(alloc);
        for key in self.entries.keys() {
            keys.push(*key)?;
        }
        Ok(keys)
    }

    /// Takes the key out, and gives back the value that was there.
    #[inline]
    pub(crate) fn remove(&mut self, key: u64) -> Option<V>
        ensures before { result ≡ fin.get self.old key }
        ensures removed { self.new ≡ fin.remove self.old key }
    {
        if self.is_empty() {
            return None;
        }
        self.remove_from_nodes(key)
    }

    /// The same by way of the nodes.
    #[cold]
    #[inline(never)]
    fn remove_from_nodes(&mut self, key: u64) -> Option<V>
        ensures before { result ≡ fin.get self.old key }
        ensures removed { self.new ≡ fin.remove self.old key }
    {
        self.entries.remove(&key)
    }
}

impl TreeMap<u64> {
    /// The number at the key.
    #[inline(always)]
    pub(crate) fn number(&self, key: u64) -> Option<u64>
        ensures { result ≡ fin.get self.now key }
    {
        self.get(key).copied()
    }
}
