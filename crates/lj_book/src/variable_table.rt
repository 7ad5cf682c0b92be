//! The variables of the seats.
ghost use Rattle.std.specs.Prelude.{ℕ, ◌≡◌, ◌==◌, ◌+◌, ◌-◌, ◌<◌, ◌≤◌, ◌↔◌, IsTrue, OnOk, OnErr, IfOk, IfSome, Some, None, option_map, length, true, false, if◌then◌else◌, nat_le, replicate};
ghost use Rattle.std.specs.FinMap as fin;
ghost use Rattle.lj_clause.specs.declared.lit.TheConstants.{MAX_VARIABLE};
ghost use Rattle.lj_clause.specs.ClauseMap.{names_up_to};
ghost use Rattle.lj_clause.specs.Renaming.{is_named, inverse, renamed, literal_image};
ghost use Rattle.lj_book.specs.Variables.{renaming_of, no_variables, with_variable, given, is_own, IsVariables};
ghost use Rattle.lj_book.specs.inner.JointForms.{is_unmoved, is_settled};
ghost use Rattle.lj_book.specs.inner.VariableTables.{variables_at, variables_before, are_left, seat_names, lemma_as_joint, as_own, lemma_as_own};

mod forms;

use crate::own_map::OwnMap;
use crate::same::same_pivot;
use lj_clause::{Clause, ClauseView, Lemma, Lit, MAX_VARIABLE, NoMemory, Renames};
use std::alloc::Global;
use std::marker::Model;

/// A seat, and a variable of its own.
#[derive(Clone, Copy, Debug)]
pub struct Owner {
    seat: u32,
    variable: u32,
}

/// The variables of the seats above the formula's greatest one, and the joint variable of each.
///
/// A call on one variable takes the time of [`OwnMap`]'s call.
#[derive(Drop)]
pub(crate) struct VariableTable {
    /// The formula's greatest variable.
    top: u32,
    /// For each seat the joint variable of each of its own.
    seats: Vec<OwnMap<u32>>,
    /// For each joint variable from the one behind the formula's on, whose it is.
    owners: Vec<Owner>,
}

impl Model for VariableTable {
    ghost use Rattle.lj_book.specs.inner.VariableTables.{TopVariables, variables_code, kept_variables, AreOwners};

    ghost Value = { TopVariables };

    ghost coded = { variables_code };

    ghost view = { λ t. kept_variables t.top t.seats.items t.owners.items };

    ghost invariant = { λ t. AreOwners t.top t.seats.items t.owners.items };
}

impl VariableTable {
    /// The table of this many seats, of which none has a variable of its own. Takes constant time for each seat.
    ///
    /// # Errors
    /// [`NoMemory`] where a growth was refused.
    pub(crate) fn new(alloc: Global, top: u32, seats: u32) -> Result<VariableTable, NoMemory>
        requires { top ≤ MAX_VARIABLE }
        ensures { IfOk result (λ table. table ≡ variables_at top (no_variables top seats)) }
    {
        Ok(VariableTable {
            top,
            seats: empty_maps(alloc, seats)?,
            owners: Vec::new(alloc),
        })
    }

    /// The next joint variable that is free.
    pub(crate) fn next(&self) -> u32
        ensures next { result ≡ self.now.variables.next }
        ensures in_range { (self.now.top < result) × (result ≤ MAX_VARIABLE + 1) }
        ensures variables { IsVariables self.now.top self.now.variables }
    {
        self.top + 1 + self.owners.len() as u32
    }

    /// Whether some joint variable was given out.
    pub(crate) fn is_any_given(&self) -> bool
        ensures { result ≡ false
            → (seat : ℕ) → inverse (renaming_of self.now.variables seat) ≡ fin.empty }
    {
        !self.owners.is_empty()
    }

    /// The joint variable of the seat's own one. One that is its own joint variable is found in constant time.
    pub(crate) fn joint(&self, seat: u32, own: u32) -> Option<u32>
        ensures joint { result ≡ fin.get (renaming_of self.now.variables seat) own }
        ensures in_range { IfSome result (λ joint. (0 < joint) × (joint ≤ MAX_VARIABLE)) }
    {
        if self.keeps(seat, own) {
            return Some(own);
        }
        match self.seats.get(seat as usize) {
            Some(joints) => joints.get(u64::from(own)).copied(),
            None => None,
        }
    }

    /// Whether the seat's variable is given, and is its own joint one. Takes constant time.
    fn keeps(&self, seat: u32, own: u32) -> bool
        ensures joint { result ≡ true
            → fin.get (renaming_of self.now.variables seat) own ≡ Some own }
        ensures in_range { result ≡ true → (0 < own) × (own ≤ MAX_VARIABLE) }
    {
        match self.own(seat, own) {
            Some(variable) => variable == own,
            None => false,
        }
    }

    /// The seat's own variable that has this joint one. Takes constant time.
    pub(crate) fn own(&self, seat: u32, joint: u32) -> Option<u32>
        ensures own { result ≡ fin.get (inverse (renaming_of self.now.variables seat)) joint }
        ensures in_range { IfSome result (λ own. (0 < own) × (own ≤ MAX_VARIABLE)) }
    {
        if joint <= self.top {
            return None;
        }
        match self.owners.get((joint - self.top - 1) as usize) {
            Some(owner) => {
                if owner.seat == seat {
                    Some(owner.variable)
                } else {
                    None
                }
            }
            None => None,
        }
    }

    /// Gives each variable of the clause that is above the formula's, and that the seat has no joint one for yet, the next
    /// joint one, by rising number. Returns whether as many were left; otherwise nothing has changed. Takes constant time where
    /// the clause has no variable above the formula's, and the time of [`VariableTable::joint`] for each literal otherwise.
    ///
    /// # Errors
    /// [`NoMemory`] where a growth was refused, and then nothing has changed.
    pub(crate) fn give(&mut self, seat: u32, clause: &Clause) -> Result<bool, NoMemory>
        requires { seat < length self.old.variables.of_seats }
        ensures left { IfOk result
            (λ left. left ≡ are_left self.old.top self.old.variables seat clause.now) }
        ensures given { IfOk result (λ left. self.new ≡ (if left
            then variables_at self.old.top (given self.old.top self.old.variables seat clause.now)
            else self.old)) }
        ensures err { OnErr result (self.new ≡ self.old) }
    {
        let before = self.next();
        if self.is_within(clause) {
            return Ok(true);
        }
        for lit in clause.lits() {
            let variable = lit.variable();
            if self.has_name(seat, variable) {
                continue;
            }
            if self.next() > MAX_VARIABLE {
                self.take_back(before);
                return Ok(false);
            }
            if let Err(refused) = self.give_one(seat, variable) {
                self.take_back(before);
                return Err(refused);
            }
        }
        Ok(true)
    }

    /// Whether the variable is the formula's, or the seat has a joint one for it.
    pub(crate) fn has_name(&self, seat: u32, variable: u32) -> bool
        ensures { result ≡ seat_names self.now seat variable }
    {
        variable <= self.top || self.joint(seat, variable).is_some()
    }

    /// Gives the seat's variable the next joint one.
    ///
    /// # Errors
    /// [`NoMemory`] where a growth was refused, and then nothing has changed.
    fn give_one(&mut self, seat: u32, variable: u32) -> Result<(), NoMemory>
        requires seat { seat < length self.old.variables.of_seats }
        requires variable { variable ≤ MAX_VARIABLE }
        requires new { seat_names self.old seat variable ≡ false }
        requires left { self.old.variables.next ≤ MAX_VARIABLE }
        ensures ok { OnOk result (self.new
            ≡ variables_at self.old.top (with_variable self.old.variables seat variable)) }
        ensures err { OnErr result (self.new ≡ self.old) }
    {
        let joint = self.next();
        let at = seat as usize;
        self.owners.push(Owner { seat, variable })?;
        let put = self.seats[at].insert(u64::from(variable), joint);
        if put.is_err() {
            self.owners.pop();
        }
        put
    }

    /// Takes back the joint variables from this one on, so that the table is as it was when this one was the next. Takes the
    /// time of [`OwnMap::remove`] for each.
    pub(crate) fn take_back(&mut self, next: u32)
        requires { (self.old.top < next) × (next ≤ self.old.variables.next) }
        ensures { self.new ≡ variables_at self.old.top (variables_before next self.old.variables) }
    {
        for _joint in next..self.next() {
            self.take_last();
        }
    }

    /// Takes the last joint variable back.
    fn take_last(&mut self)
        requires { self.old.top + 1 < self.old.variables.next }
        ensures { self.new ≡ variables_at self.old.top
            (variables_before (self.old.variables.next - 1) self.old.variables) }
    {
        if let Some(owner) = self.owners.pop() {
            let at = owner.seat as usize;
            let _ = self.seats[at].remove(u64::from(owner.variable));
        }
    }

    /// The lemma in joint variables: None where one of its variables has no joint one. It shares the literals where none
    /// changes. Takes constant time where the lemma has no variable above the formula's; otherwise the time of
    /// [`VariableTable::joint`] for each literal, and O(n log n) time for n of them.
    ///
    /// # Errors
    /// [`NoMemory`] where a growth was refused.
    pub(crate) fn joint_lemma(
        &self,
        alloc: Global,
        seat: u32,
        lemma: &Lemma,
    ) -> Result<Option<Lemma>, NoMemory>
        ensures { IfOk result
            (λ joint. joint ≡ lemma_as_joint self.now.top self.now.variables seat lemma.now) }
    {
        if self.is_within(lemma.clause()) {
            return Ok(Some(lemma.try_clone()?));
        }
        if !self.is_named(seat, lemma.clause()) {
            return Ok(None);
        }
        Ok(Some(lemma.renamed(alloc, &self.to_joint(seat))?))
    }

    /// The joint clause in the seat's own variables: None where one of them isn't the seat's. Takes O(n log n) time for n
    /// literals.
    ///
    /// # Errors
    /// [`NoMemory`] where a growth was refused.
    pub(crate) fn own_clause(
        &self,
        alloc: Global,
        seat: u32,
        clause: &ClauseView<'_>,
    ) -> Result<Option<Clause>, NoMemory>
        ensures ok { IfOk result
            (λ own. own ≡ as_own self.now.top self.now.variables seat clause.now) }
        ensures err { OnErr result (is_own self.now.top self.now.variables seat clause.now ≡ true) }
    {
        if !self.is_own(seat, clause) {
            return Ok(None);
        }
        Ok(Some(clause.to_clause(alloc)?.renamed(alloc, &self.to_own(seat))?))
    }

    /// Whether this lemma is the joint one in the seat's variables. Takes the time of
    /// [`VariableTable::is_joint_form`].
    pub(crate) fn is_own_lemma(&self, seat: u32, own: &Lemma, joint: &Lemma) -> bool
        ensures { IsTrue result
            ↔ (lemma_as_own self.now.top self.now.variables seat joint.now ≡ Some own.now) }
    {
        let _ = self.next();
        if !self.is_joint_form(seat, own.clause(), &joint.clause().view()) {
            return false;
        }
        same_pivot(self.own_pivot(seat, joint.pivot()), own.pivot())
    }

    /// The joint pivot in the seat's variables.
    fn own_pivot(&self, seat: u32, pivot: Option<Lit>) -> Option<Lit>
        ensures { result ≡ option_map
            (literal_image (inverse (renaming_of self.now.variables seat))) pivot }
    {
        match pivot {
            Some(pivot) => Some(pivot.renamed(&self.to_own(seat))),
            None => None,
        }
    }

    /// The renaming of the seat's own variables to joint ones.
    pub(crate) fn to_joint(&self, seat: u32) -> ToJoint<'_>
        ensures { (result.table.now ≡ self.now) × (result.seat ≡ seat) }
    {
        ToJoint { table: self, seat }
    }

    /// The renaming of the joint variables that are the seat's to its own ones.
    pub(crate) fn to_own(&self, seat: u32) -> ToOwn<'_>
        ensures { (result.table.now ≡ self.now) × (result.seat ≡ seat) }
    {
        ToOwn { table: self, seat }
    }

    /// Whether the clause has no variable above the formula's.
    pub(crate) fn is_within(&self, clause: &Clause) -> bool
        ensures within { result ≡ names_up_to self.now.top clause.now }
        ensures variables { IsVariables self.now.top self.now.variables }
    {
        clause.max_variable() <= self.top
    }

    /// Whether each variable of the clause is the formula's, or is given and is its own joint one. Takes constant time where none
    /// is above the formula's, and for each literal otherwise.
    #[inline(always)]
    pub(crate) fn is_settled(&self, seat: u32, clause: &Clause) -> bool
        ensures settled { result ≡ true → is_settled self.now.top
            (renaming_of self.now.variables seat) clause.now ≡ true }
        ensures variables { IsVariables self.now.top self.now.variables }
    {
        if self.is_within(clause) {
            return true;
        }
        for lit in clause.lits() {
            if !self.settles(seat, lit.variable()) {
                return false;
            }
        }
        true
    }

    /// Whether the variable is the formula's, or is given and is its own joint one. Takes constant time.
    fn settles(&self, seat: u32, variable: u32) -> bool
        ensures named { result ≡ true → seat_names self.now seat variable ≡ true }
        ensures same { result ≡ true
            → (renamed (renaming_of self.now.variables seat) variable == variable) ≡ true }
    {
        variable <= self.top || self.keeps(seat, variable)
    }

    /// Whether each variable of the clause is its own joint one, or has none. Takes the time of [`VariableTable::joint`] for each
    /// literal.
    pub(crate) fn is_unmoved(&self, seat: u32, clause: &Clause) -> bool
        ensures { result ≡ is_unmoved (renaming_of self.now.variables seat) clause.now }
    {
        for lit in clause.lits() {
            if !self.stays(seat, lit.variable()) {
                return false;
            }
        }
        true
    }

    /// Whether the variable is its own joint one, or has none.
    fn stays(&self, seat: u32, variable: u32) -> bool
        ensures { result ≡ (renamed (renaming_of self.now.variables seat) variable == variable) }
    {
        if variable <= self.top {
            return true;
        }
        match self.joint(seat, variable) {
            Some(joint) => joint == variable,
            None => true,
        }
    }

    /// Whether each variable of the clause is the formula's, or the seat has a joint one for it.
    pub(crate) fn is_named(&self, seat: u32, clause: &Clause) -> bool
        ensures { result ≡ is_named self.now.top (renaming_of self.now.variables seat) clause.now }
    {
        for lit in clause.lits() {
            if !self.has_name(seat, lit.variable()) {
                return false;
            }
        }
        true
    }

    /// Whether each variable of a joint clause is the formula's, or the seat's.
    pub(crate) fn is_own(&self, seat: u32, clause: &ClauseView<'_>) -> bool
        ensures { result ≡ is_own self.now.top self.now.variables seat clause.now }
    {
        for lit in clause.lits() {
            let variable = lit.variable();
            if variable > self.top && self.own(seat, variable).is_none() {
                return false;
            }
        }
        true
    }
}

/// A seat's renaming of its own variables to joint ones.
#[derive(Drop)]
pub(crate) struct ToJoint<'a> {
    table: &'a VariableTable,
    seat: u32,
}

impl<'a> Renames for ToJoint<'a> {
    ghost renaming = { λ names. renaming_of names.table.now.variables names.seat };

    fn variable(&self, variable: u32) -> Option<u32> {
        self.table.joint(self.seat, variable)
    }
}

/// The renaming of joint variables that are a seat's to its own ones.
#[derive(Drop)]
pub(crate) struct ToOwn<'a> {
    table: &'a VariableTable,
    seat: u32,
}

impl<'a> Renames for ToOwn<'a> {
    ghost renaming = { λ names. inverse (renaming_of names.table.now.variables names.seat) };

    fn variable(&self, variable: u32) -> Option<u32> {
        self.table.own(self.seat, variable)
    }
}

/// So many maps without an entry.
///
/// # Errors
/// [`NoMemory`] where a growth was refused.
fn empty_maps(alloc: Global, count: u32) -> Result<Vec<OwnMap<u32>>, NoMemory>
    ensures { IfOk result (λ maps. maps.items ≡ replicate count fin.empty) }
{
    let mut maps = Vec::new(alloc);
    for _count in 0..count {
        maps.push(OwnMap::new(alloc))?;
    }
    Ok(maps)
}
