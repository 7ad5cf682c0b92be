//! Clauses under numbers, each with its joint number.
ghost use Rattle.std.specs.Prelude.{◌≡◌, ◌==◌, ℕ, Some, None, IfOk, OnOk, OnErr, option_copied, option_map, if◌then◌else◌};
ghost use Rattle.lj_hint.specs.declared.pair.Pair.{Pair};
ghost use Rattle.lj_share.specs.inner.Bindings.{IsSet, bound_at, under_joint};

use lj_book::OwnMap;
use lj_clause::{Clause, NoMemory};
use lj_hint::Pair;
use std::alloc::Global;
use std::marker::Model;

/// Clauses under numbers, each with its joint number. The joint numbers stand apart, so that a propagation reads the clauses alone.
///
/// A call takes the time of [`OwnMap`]'s.
#[derive(Drop)]
pub(crate) struct Bindings {
    clauses: OwnMap<Clause>,
    joints: OwnMap<u64>,
}

impl Model for Bindings {
    ghost use Rattle.lj_share.specs.inner.Bindings.{BindingsValue, AreAlike};
    ghost use Rattle.lj_share.specs.inner.OwnCode.{bindings_code};

    ghost Value = { BindingsValue };

    ghost coded = { bindings_code };

    ghost view = { λ b. record { clauses = b.clauses; joints = b.joints } };

    ghost invariant = { λ b. AreAlike b.clauses b.joints };
}

impl Bindings {
    /// No clause.
    pub(crate) fn new(alloc: Global) -> Bindings
        ensures { (n : ℕ) → bound_at result n ≡ None }
    {
        Bindings {
            clauses: OwnMap::new(alloc),
            joints: OwnMap::new(alloc),
        }
    }

    /// The clause of a number.
    #[inline]
    pub(crate) fn clause(&self, number: u64) -> Option<&Clause>
        ensures { option_copied result ≡ option_map (λ p. p.clause) (bound_at self.now number) }
    {
        self.clauses.get(number)
    }

    /// The clause of a number, with its joint number.
    ///
    /// # Errors
    /// [`NoMemory`] where a growth was refused.
    pub(crate) fn pair(&self, number: u64) -> Result<Option<Pair>, NoMemory>
        ensures { IfOk result (λ pair. pair ≡ bound_at self.now number) }
    {
        let Some(joint) = self.joints.get(number) else {
            return Ok(None);
        };
        let Some(clause) = self.clauses.get(number) else {
            return Ok(None);
        };
        Ok(Some(Pair {
            joint: *joint,
            clause: clause.try_clone()?,
        }))
    }

    /// Binds a number to a clause, under the joint number 0 so far.
    ///
    /// # Errors
    /// [`NoMemory`] where a growth was refused.
    pub(crate) fn insert(&mut self, number: u64, clause: Clause) -> Result<(), NoMemory>
        ensures ok { OnOk result
            (IsSet self.old number (Some (record { joint = 0; clause = clause })) self.new) }
        ensures err { OnErr result ((n : ℕ) → bound_at self.new n ≡ bound_at self.old n) }
    {
        self.joints.insert(number, 0)?;
        match self.clauses.insert(number, clause) {
            Ok(()) => Ok(()),
            Err(refused) => {
                let _ = self.joints.remove(number);
                Err(refused)
            }
        }
    }

    /// Sets the joint number of a number that is bound; takes no memory.
    pub(crate) fn set_joint(&mut self, number: u64, joint: u64)
        ensures { IsSet self.old number (under_joint joint (bound_at self.old number)) self.new }
    {
        if self.joints.contains_key(number) {
            let _ = self.joints.insert(number, joint);
        }
    }

    /// Gives a number up.
    pub(crate) fn remove(&mut self, number: u64)
        ensures { IsSet self.old number None self.new }
    {
        let _ = self.clauses.remove(number);
        let _ = self.joints.remove(number);
    }
}
