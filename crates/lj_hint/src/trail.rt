//! Sets of literals that can be taken back.
ghost use Rattle.std.specs.Prelude.{◌≡◌, ◌<◌, ◌-◌, [], ◌∷◌, ◌++◌, OnOk, OnErr, take, length, false, vec_len, vec_capacity};
ghost use Rattle.lj_clause.specs.LiteralSet.{holds, from_literals};

use crate::stamps::{LentStamps, Stamps};
use lj_clause::{Lit, NoMemory};
use std::alloc::Global;
use std::marker::Model;

/// Literals in the order in which they came in, each once, with constant time for the question whether one is there. It takes
/// O(log n) time where its variable is beyond 2,047 and the trail has held less than half so many literals.
#[derive(Drop)]
pub(crate) struct Trail {
    stamps: Stamps,
    /// The stamp of the literals on the trail: an older one means nothing any more.
    stamp: u32,
    lits: Vec<Lit>,
}

impl Model for Trail {
    ghost use Rattle.std.specs.Prelude.{List, ℤ};
    ghost use Rattle.lj_hint.specs.inner.Stamps.{AreAssigned};

    ghost Value = { List ℤ };

    ghost view = { λ t. t.lits.items };

    ghost invariant = { λ t. AreAssigned t.stamps t.stamp t.lits.items };
}

impl Trail {
    /// No literal, and this stamp for the first that comes in. Takes no memory.
    pub(crate) fn starting_at(alloc: Global, stamp: u32) -> Trail
        requires { 0 < stamp }
        ensures { result ≡ [] }
    {
        Trail {
            stamps: Stamps::new(alloc),
            stamp,
            lits: Vec::new(alloc),
        }
    }

    /// Takes every literal out, by a new stamp. Takes constant time, but for one call in 4,294,967,295, which clears
    /// all stamps.
    pub(crate) fn clear(&mut self)
        ensures { self.new ≡ [] }
    {
        self.stamps.begin_propagation(self.lits.len());
        if self.stamp == u32::MAX {
            self.stamps.clear();
            self.stamp = 1;
        } else {
            self.stamp += 1;
        }
        self.lits.clear();
    }

    /// The number of literals.
    #[inline]
    pub(crate) fn len(&self) -> usize
        ensures { result ≡ length self.now }
    {
        self.lits.len()
    }

    /// Whether the literal is there. Takes constant time, and O(log n) for one beyond the list of stamps.
    #[inline]
    pub(crate) fn holds(&self, lit: Lit) -> bool
        ensures { result ≡ holds (from_literals self.now) lit }
    {
        self.lent().holds(lit)
    }

    /// The trail, lent to who asks for many literals.
    #[inline(always)]
    pub(crate) fn lent(&self) -> LentTrail<'_>
        ensures { result ≡ self.now }
    {
        LentTrail {
            stamps: self.stamps.lent(),
            stamp: self.stamp,
            trail: self,
        }
    }

    /// Puts a literal at the end that isn't there yet. Takes constant time, amortized, and O(log n) for one
    /// beyond the list of stamps.
    ///
    /// # Errors
    /// [`NoMemory`] where a growth was refused.
    #[inline(always)]
    pub(crate) fn push(&mut self, lit: Lit) -> Result<(), NoMemory>
        requires { holds (from_literals self.old) lit ≡ false }
        ensures ok { OnOk result (self.new ≡ self.old ++ lit ∷ []) }
        ensures err { OnErr result (self.new ≡ self.old) }
    {
        reserve_one(&mut self.lits)?;
        self.stamps.set(lit.negated().index(), self.stamp)?;
        self.lits.push_reserved(lit);
        Ok(())
    }

    /// Takes the last literal out. Takes constant time, and O(log n) for one beyond the list of stamps.
    #[inline]
    pub(crate) fn pop(&mut self)
        ensures { self.new ≡ take (length self.old - 1) self.old }
    {
        if let Some(lit) = self.lits.pop() {
            self.stamps.erase(lit.negated().index());
        }
    }
}

/// Makes room for one literal more. Takes constant time, amortized.
///
/// # Errors
/// [`NoMemory`] where a growth was refused.
#[inline(always)]
fn reserve_one(lits: &mut Vec<Lit>) -> Result<(), NoMemory>
    ensures capacity { OnOk result (vec_len lits.new < vec_capacity lits.new) }
    ensures same { lits.new.items ≡ lits.old.items }
{
    if lits.len() < lits.capacity() {
        return Ok(());
    }
    grow(lits)
}

/// Makes room for one literal more, as [`reserve_one`] does: where there is none.
///
/// # Errors
/// [`NoMemory`] where a growth was refused.
#[cold]
#[inline(never)]
fn grow(lits: &mut Vec<Lit>) -> Result<(), NoMemory>
    ensures capacity { OnOk result (vec_len lits.new < vec_capacity lits.new) }
    ensures same { lits.new.items ≡ lits.old.items }
{
    lits.reserve(1)?;
    Ok(())
}

/// A trail that is lent, with its stamps at hand.
#[derive(Drop)]
pub(crate) struct LentTrail<'a> {
    stamps: LentStamps<'a>,
    stamp: u32,
    trail: &'a Trail,
}

impl<'a> Model for LentTrail<'a> {
    ghost use Rattle.std.specs.Prelude.{List, ℤ};
    ghost use Rattle.lj_hint.specs.inner.Stamps.{AreAssigned};

    ghost Value = { List ℤ };

    ghost view = { λ t. t.trail.now };

    ghost invariant = { λ t. AreAssigned t.stamps t.stamp t.trail.now };
}

impl<'a> LentTrail<'a> {
    /// Whether the literal is there. Takes constant time, and O(log n) for one beyond the list of stamps.
    #[inline(always)]
    pub(crate) fn holds(&self, lit: Lit) -> bool
        ensures { result ≡ holds (from_literals self.now) lit }
    {
        self.stamps.is(lit.negated().index(), self.stamp)
    }
}
