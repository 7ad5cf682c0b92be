//! Maps from numbers to values that take few bytes, most often.
ghost use Rattle.std.specs.Prelude.{◌≡◌, ◌<◌, OnOk, OnErr, IfOk, IfSome, Option, Some, None, length, map, true};
ghost use Rattle.std.specs.FinMap as fin;
ghost use Rattle.lj_book.specs.inner.Slots.{held_map, slot_numbers, u32_held};

use crate::dying::rising;
use crate::tree_map::TreeMap;
use lj_clause::NoMemory;
use std::alloc::Global;
use std::marker::Model;

/// How many slots there may be before anything is set.
const FIRST_SLOTS: u64 = 32;

/// A few bytes that hold a value, or none.
pub(crate) trait Slot: Copy {
    type Value: Copy;

    ghost held: { Self → Option Self.Value };

    /// The slot of no value.
    fn empty() -> Self
        ensures { held result ≡ None };

    /// The slot of a value, if it takes so few bytes.
    fn of(value: Self::Value) -> Option<Self>
        ensures { IfSome result (λ slot. held slot ≡ Some value) };

    /// The value that it holds.
    fn value(self) -> Option<Self::Value>
        ensures { result ≡ held self };
}

/// A map from numbers, seen as a finite map. Numbers up to a bound that follows how many were set have slots, for values that
/// take so few bytes; others stand in a tree. So memory is linear in how many were set, whatever numbers they are.
///
/// A call takes constant time for a number whose value has a slot, amortized, and O(log n) time for others.
#[derive(Drop)]
pub(crate) struct SlotMap<S: Slot> {
    slots: Vec<S>,
    /// What has no slot, and what had none once: a slot's value goes before it.
    sparse: TreeMap<S::Value>,
    /// How many times a value was put into a slot.
    set: u64,
}

impl<S: Slot> Model for SlotMap<S> {
    ghost use Rattle.std.specs.Ordering.{nat_cmp};
    ghost use Rattle.std.specs.Coded.{coded_ℕ};
    ghost use Rattle.std.specs.FinMap as fin;
    ghost use Rattle.lj_book.specs.inner.Slots.{joined_map, held_map};

    ghost Value = { fin.FinMap nat_cmp S.Value };

    ghost coded = { fin.code coded_ℕ S.Value.code };

    ghost view = { λ m. joined_map (held_map S.held m.slots.items) m.sparse };
}

impl<S: Slot + Drop> SlotMap<S>
where
    S::Value: Drop,
{
    /// The map without an entry. Takes constant time.
    pub(crate) fn new(alloc: Global) -> Self
        ensures { result ≡ fin.empty }
    {
        SlotMap {
            slots: Vec::new(alloc),
            sparse: TreeMap::new(alloc),
            set: 0,
        }
    }

    /// The value at the key.
    #[inline(always)]
    pub(crate) fn get(&self, key: u64) -> Option<S::Value>
        ensures { result ≡ fin.get self.now key }
    {
        match value_at(&self.slots, key as usize) {
            Some(value) => Some(value),
            None => self.sparse.get(key).copied(),
        }
    }

    /// Whether there is a value at the key.
    #[inline]
    pub(crate) fn contains_key(&self, key: u64) -> bool
        ensures { result ≡ fin.contains_key self.now key }
    {
        self.get(key).is_some()
    }

    /// Sets the value at the key.
    ///
    /// # Errors
    /// [`NoMemory`] where a growth was refused.
    #[inline(always)]
    pub(crate) fn insert(&mut self, key: u64, value: S::Value) -> Result<(), NoMemory>
        ensures ok { OnOk result (self.new ≡ fin.insert self.old key value) }
        ensures err { OnErr result (self.new ≡ self.old) }
    {
        if key / 2 <= self.set.saturating_add(FIRST_SLOTS) {
            if let Some(slot) = S::of(value) {
                self.set = self.set.saturating_add(1);
                return put(&mut self.slots, key as usize, slot);
            }
        }
        self.insert_sparse(key, value)
    }

    /// Sets the value at the key in the tree.
    ///
    /// # Errors
    /// [`NoMemory`] where a growth was refused.
    #[cold]
    #[inline(never)]
    fn insert_sparse(&mut self, key: u64, value: S::Value) -> Result<(), NoMemory>
        ensures ok { OnOk result (self.new ≡ fin.insert self.old key value) }
        ensures err { OnErr result (self.new ≡ self.old) }
    {
        self.sparse.insert(key, value)?;
        let _ = take(&mut self.slots, key as usize);
        Ok(())
    }

    /// The keys, rising. Takes O(n log n) time for n of them, and time linear in the slots.
    ///
    /// # Errors
    /// [`NoMemory`] where a growth was refused.
    pub(crate) fn keys(&self, alloc: Global) -> Result<Vec<u64>, NoMemory>
        ensures { IfOk result (λ keys. keys.items ≡ fin.keys self.now) }
    {
        let mut keys = keys_of(alloc, &self.slots)?;
        let sparse = self.sparse.keys(alloc)?;
        keys.extend_from_slice(&sparse)?;
        Ok(rising(keys))
    }

    /// Takes the key out, and gives back the value that was there.
    #[inline]
    pub(crate) fn remove(&mut self, key: u64) -> Option<S::Value>
        ensures before { result ≡ fin.get self.old key }
        ensures removed { self.new ≡ fin.remove self.old key }
    {
        let sparse = self.sparse.remove(key);
        match take(&mut self.slots, key as usize) {
            Some(value) => Some(value),
            None => sparse,
        }
    }
}

/// The value in a slot.
#[inline(always)]
fn value_at<S: Slot>(slots: &[S], at: usize) -> Option<S::Value>
    ensures { result ≡ fin.get (held_map S.held slots.now) at }
{
    match slots.get(at) {
        Some(slot) => (*slot).value(),
        None => None,
    }
}

/// Sets a slot.
///
/// # Errors
/// [`NoMemory`] where a growth was refused.
#[inline(always)]
fn put<S: Slot + Drop>(slots: &mut Vec<S>, at: usize, slot: S) -> Result<(), NoMemory>
    ensures ok { (value : S.Value) → S.held slot ≡ Some value → OnOk result
        (held_map S.held slots.new.items ≡ fin.insert (held_map S.held slots.old.items) at value) }
    ensures err { OnErr result (held_map S.held slots.new.items
        ≡ held_map S.held slots.old.items) }
{
    cover(slots, at)?;
    slots[at] = slot;
    Ok(())
}

/// Adds empty slots, so that there is one at this place.
///
/// # Errors
/// [`NoMemory`] where a growth was refused.
#[inline(always)]
fn cover<S: Slot + Drop>(slots: &mut Vec<S>, at: usize) -> Result<(), NoMemory>
    ensures there { OnOk result (at < length slots.new.items) }
    ensures same { held_map S.held slots.new.items ≡ held_map S.held slots.old.items }
{
    for _ in slots.len()..=at {
        slots.push(S::empty())?;
    }
    Ok(())
}

/// Empties a slot, and gives back the value that was there.
#[inline(always)]
fn take<S: Slot>(slots: &mut Vec<S>, at: usize) -> Option<S::Value>
    ensures before { result ≡ fin.get (held_map S.held slots.old.items) at }
    ensures removed { held_map S.held slots.new.items
        ≡ fin.remove (held_map S.held slots.old.items) at }
{
    if at >= slots.len() {
        return None;
    }
    let value = slots[at].value();
    slots[at] = S::empty();
    value
}

/// The numbers of the slots that hold a value.
///
/// # Errors
/// [`NoMemory`] where a growth was refused.
fn keys_of<S: Slot>(alloc: Global, slots: &[S]) -> Result<Vec<u64>, NoMemory>
    ensures { IfOk result
        (λ keys. keys.items ≡ slot_numbers (λ _. true) 0 (map S.held slots.now)) }
{
    let mut keys = Vec::new(alloc);
    for at in 0..slots.len() {
        if slots[at].value().is_some() {
            keys.push(at as u64)?;
        }
    }
    Ok(keys)
}

impl Slot for u32 {
    type Value = u64;

    ghost held = { u32_held };

    #[inline(always)]
    fn empty() -> u32 {
        0
    }

    #[inline(always)]
    fn of(value: u64) -> Option<u32> {
        if value == 0 || value > 4_294_967_295 {
            return None;
        }
        Some(value as u32)
    }

    #[inline(always)]
    fn value(self) -> Option<u64> {
        if self == 0 {
            None
        } else {
            Some(u64::from(self))
        }
    }
}
