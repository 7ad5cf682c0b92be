//! Own numbers that the deletions of a run name.
ghost use Rattle.std.specs.Prelude.{◌≡◌, ◌%◌, length, OnOk, OnErr};
ghost use Rattle.std.specs.FinMap as fin;
ghost use Rattle.lj_share.specs.inner.Dead.{AreDeleted, AreNone, AreWith, AreWithout, AreFlagged};

use crate::numbered::Numbered;
use lj_book::OwnMap;
use lj_clause::NoMemory;
use lj_hint::Propagator;
use lj_text::{Line, Numbers};
use std::alloc::Global;
use std::marker::Model;

/// How many flags there are.
const FLAGS: usize = 4096;

/// The own numbers that the deletions of a run name so far: the seat keeps their clauses yet, but its lines behind don't see them.
///
/// A call takes the time of [`OwnMap`]'s for each number; for most numbers that aren't there, a look at a flag tells so.
#[derive(Drop)]
pub(crate) struct Dead {
    numbers: OwnMap<()>,
    /// Whether a number with this remainder may be there; empty where none is.
    flags: Vec<bool>,
    alloc: Global,
}

impl Model for Dead {
    ghost use Rattle.std.specs.Prelude.{◌≡◌, ◌<◌, length};
    ghost use Rattle.lj_share.specs.inner.Dead.{DeadValue, AreFlagged};
    ghost use Rattle.lj_share.specs.inner.OwnCode.{dead_code};

    ghost Value = { DeadValue };

    ghost coded = { dead_code };

    ghost view = { λ d. d.numbers };

    ghost invariant = { λ d. (0 < length d.flags.items → length d.flags.items ≡ 4096)
        × AreFlagged d.flags.items d.numbers };
}

impl Dead {
    /// No number.
    pub(crate) fn new(alloc: Global) -> Dead
        ensures { AreNone result }
    {
        Dead {
            numbers: OwnMap::new(alloc),
            flags: Vec::new(alloc),
            alloc,
        }
    }

    /// Whether a number is among them.
    #[inline(always)]
    pub(crate) fn has(&self, own: u64) -> bool
        ensures { result ≡ fin.contains_key self.now own }
    {
        match self.flags.get(flag_of(own)) {
            Some(flagged) => *flagged && self.numbers.contains_key(own),
            None => false,
        }
    }

    /// Puts these numbers to them. Where a growth is refused, there are none.
    ///
    /// # Errors
    /// [`NoMemory`] where a growth was refused.
    pub(crate) fn put(&mut self, numbers: &Numbers) -> Result<(), NoMemory>
        ensures ok { OnOk result (AreWith numbers.now self.old self.new) }
        ensures err { OnErr result (AreNone self.new) }
    {
        if self.flags.is_empty() {
            self.flags.resize(FLAGS, false)?;
        }
        match put_all(&mut self.numbers, &mut self.flags, numbers) {
            Ok(()) => Ok(()),
            Err(refused) => {
                self.numbers = OwnMap::new(self.alloc);
                Err(refused)
            }
        }
    }

    /// Takes all of them out, which are named by deletions of this run.
    pub(crate) fn clear(&mut self, run: &[Numbered])
        requires { AreDeleted run.now self.old }
        ensures { AreNone self.new }
    {
        if !self.flags.is_empty() {
            take_named(&mut self.numbers, run);
            self.flags.clear();
        }
    }
}

/// The place of a number's flag.
#[inline(always)]
fn flag_of(own: u64) -> usize
    ensures { result ≡ own % 4096 }
{
    (own % FLAGS as u64) as usize
}

/// Puts these numbers into the set, and flags them.
///
/// # Errors
/// [`NoMemory`] where a growth was refused.
fn put_all(set: &mut OwnMap<()>, flags: &mut Vec<bool>, numbers: &Numbers) -> Result<(), NoMemory>
    requires flags { length flags.old.items ≡ 4096 }
    requires flagged { AreFlagged flags.old.items set.old }
    ensures put { OnOk result (AreWith numbers.now set.old set.new) }
    ensures flagged { OnOk result (AreFlagged flags.new.items set.new) }
    ensures flags { length flags.new.items ≡ 4096 }
{
    for own in numbers.iter() {
        flags[flag_of(own)] = true;
        set.insert(own, ())?;
    }
    Ok(())
}

/// Takes the numbers that deletions of this run name out of the set, which has no other.
fn take_named(set: &mut OwnMap<()>, run: &[Numbered])
    requires { AreDeleted run.now set.old }
    ensures { AreNone set.new }
{
    for k in 0..run.len() {
        if let Line::Delete(numbers) = &run[k].line {
            take_all(set, numbers);
        }
    }
}

/// Takes these numbers out of the set.
fn take_all(set: &mut OwnMap<()>, numbers: &Numbers)
    ensures { AreWithout numbers.now set.old set.new }
{
    for own in numbers.iter() {
        let _ = set.remove(own);
    }
}

/// The working memory of a seat. Between calls no number is dead.
#[derive(Drop)]
pub(crate) struct Room {
    pub(crate) propagator: Propagator,
    pub(crate) dead: Dead,
}

impl Model for Room {
    ghost use Rattle.lj_share.specs.inner.Dead.{AreNone};

    ghost Value = { Unit {0} };

    ghost view = { λ r. tt };

    ghost invariant = { λ r. AreNone r.dead };
}

impl Room {
    /// No room so far.
    pub(crate) fn new(alloc: Global) -> Room {
        Room {
            propagator: Propagator::new(alloc),
            dead: Dead::new(alloc),
        }
    }
}
