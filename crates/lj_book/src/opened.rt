//! The own numbers that a seat holds from the opening on.
ghost use Rattle.std.specs.Prelude.{◌≡◌, ◌<◌, ◌≤◌, ◌^◌, ℕ, length, vec_capacity, IfOk, Some, None, if◌then◌else◌};
ghost use Rattle.std.specs.FinMap as fin;
ghost use Rattle.lj_book.specs.Tables.{up_to};
ghost use Rattle.lj_book.specs.inner.Slots.{slot_map};
ghost use Rattle.lj_book.specs.inner.Opened.{opened_slots};

use lj_clause::NoMemory;
use std::alloc::Global;
use std::marker::Model;

/// The numbers from 1 up to a bound that weren't given up, each bound to itself, seen as a finite map. What was never touched
/// is said by the bound alone; each number up to the greatest that was given up has a place in a list, in room that was made at
/// the opening, so that it is given up without memory.
#[derive(Drop)]
pub(crate) struct Opened {
    /// Whether each number was given up. Those behind the list weren't.
    given_up: Vec<bool>,
    /// All numbers are below this one.
    end: usize,
}

impl Model for Opened {
    ghost use Rattle.std.specs.Prelude.{ℕ, ◌≤◌, vec_capacity};
    ghost use Rattle.std.specs.Ordering.{nat_cmp};
    ghost use Rattle.std.specs.Coded.{coded_ℕ};
    ghost use Rattle.std.specs.FinMap as fin;
    ghost use Rattle.lj_book.specs.inner.Slots.{slot_map};
    ghost use Rattle.lj_book.specs.inner.Opened.{opened_slots};

    ghost Value = { fin.FinMap nat_cmp ℕ };

    ghost coded = { fin.code coded_ℕ coded_ℕ };

    ghost view = { λ o. slot_map (opened_slots 0 o.given_up.items o.end) };

    ghost invariant = { λ o. o.end ≤ vec_capacity o.given_up };
}

impl Opened {
    /// Each number from 1 to this one. Takes constant time.
    ///
    /// # Errors
    /// [`NoMemory`] where a growth was refused.
    pub(crate) fn up_to(alloc: Global, last: u64) -> Result<Opened, NoMemory>
        requires { last < 2 ^ 63 }
        ensures { IfOk result (λ opened. opened ≡ up_to last) }
    {
        let end = last as usize + 1;
        let mut given_up = Vec::with_capacity(alloc, end)?;
        // The number 0 is given up from the start.
        given_up.push_reserved(true);
        Ok(Opened { given_up, end })
    }

    /// Whether the number is bound, to itself then.
    #[inline(always)]
    pub(crate) fn holds(&self, number: u64) -> bool
        ensures { fin.get self.now number ≡ (if result then Some number else None) }
    {
        is_kept(&self.given_up, self.end, number)
    }

    /// Gives the number up. Takes constant time, amortized over the numbers.
    pub(crate) fn remove(&mut self, number: u64)
        ensures { self.new ≡ fin.remove self.old number }
    {
        let at = number as usize;
        if at >= self.end {
            return;
        }
        cover(&mut self.given_up, at);
        self.given_up[at] = true;
    }

    /// The numbers, rising. Takes time linear in the bound.
    ///
    /// # Errors
    /// [`NoMemory`] where a growth was refused.
    pub(crate) fn keys(&self, alloc: Global) -> Result<Vec<u64>, NoMemory>
        ensures { IfOk result (λ keys. keys.items ≡ fin.keys self.now) }
    {
        keys_of(alloc, &self.given_up, self.end)
    }
}

/// Whether the number is below the end, and the list doesn't say that it was given up.
#[inline(always)]
fn is_kept(given_up: &[bool], end: usize, number: u64) -> bool
    ensures { fin.get (slot_map (opened_slots 0 given_up.now end)) number
        ≡ (if result then Some number else None) }
{
    let at = number as usize;
    if at >= end {
        return false;
    }
    match given_up.get(at) {
        Some(gone) => !*gone,
        None => true,
    }
}

/// Lets the list go on to this place, with numbers that weren't given up. There is room for that.
fn cover(given_up: &mut Vec<bool>, at: usize)
    requires { at < vec_capacity given_up.old }
    ensures there { at < length given_up.new.items }
    ensures same { (n count : ℕ)
        → opened_slots n given_up.new.items count ≡ opened_slots n given_up.old.items count }
    ensures capacity { vec_capacity given_up.old ≤ vec_capacity given_up.new }
{
    for _ in given_up.len()..=at {
        given_up.push_reserved(false);
    }
}

/// The numbers below the end that the list doesn't give up, rising.
fn keys_of(alloc: Global, given_up: &[bool], end: usize) -> Result<Vec<u64>, NoMemory>
    ensures { IfOk result
        (λ keys. keys.items ≡ fin.keys (slot_map (opened_slots 0 given_up.now end))) }
{
    let mut keys = Vec::new(alloc);
    for at in 0..end {
        if is_kept(given_up, end, at as u64) {
            keys.push(at as u64)?;
        }
    }
    Ok(keys)
}
