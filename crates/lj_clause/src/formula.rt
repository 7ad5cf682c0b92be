//! Formulas.
ghost use Rattle.std.specs.Prelude.{◌≡◌, ◌↔◌, length, IfOk, IsTrue, SomeIff, option_copied};
ghost use Rattle.std.specs.List.{list_all};
ghost use Rattle.std.specs.FinMap as map;
ghost use Rattle.lj_clause.specs.ClauseMap.{IsFormula, formula_of, formula_map, names_up_to};

use crate::clause::Clause;
use crate::lit::MAX_VARIABLE;
use crate::memory::NoMemory;
use std::marker::Model;

/// The greatest number of clauses.
pub const MAX_CLAUSES: usize = 4_294_967_295;

/// A formula: a number of variables, and clauses in the order in which they stand, numbered from 1.
#[derive(Debug, Drop)]
pub struct Formula {
    variables: u32,
    clauses: Vec<Clause>,
}

impl Model for Formula {
    ghost use Rattle.lj_clause.specs.ClauseMap.{FormulaValue, IsFormula};
    ghost use Rattle.lj_clause.specs.inner.Codes.{formula_code};

    ghost Value = { FormulaValue };

    ghost coded = { formula_code };

    ghost view = { λ f. record { variables = f.variables; clauses = f.clauses.items } };

    ghost invariant = { λ f. IsFormula (record
        { variables = f.variables; clauses = f.clauses.items }) };
}

impl Formula {
    /// The formula of these clauses over the variables from 1 to `variables`: `None` where a clause names a variable above that
    /// number, or where it is above [`MAX_VARIABLE`] or the clauses are more than [`MAX_CLAUSES`]. Takes time linear in how
    /// many clauses they are.
    pub fn new(variables: u32, clauses: Vec<Clause>) -> Option<Formula>
        ensures { SomeIff result (IsFormula (formula_of variables clauses.items))
            (formula_of variables clauses.items) }
    {
        let in_range = all_name_up_to(&clauses, variables);
        if variables <= MAX_VARIABLE && clauses.len() <= MAX_CLAUSES && in_range {
            Some(Formula { variables, clauses })
        } else {
            None
        }
    }

    /// The number of variables. Takes constant time.
    pub fn variables(&self) -> u32
        ensures variables { result ≡ self.now.variables }
        ensures formula { IsFormula self.now }
    {
        self.variables
    }

    /// The clause of a number from 1 to [`Formula::len`], and `None` for other numbers. Takes constant time.
    pub fn clause(&self, number: u64) -> Option<&Clause>
        ensures { option_copied result ≡ map.get (formula_map self.now) number }
    {
        let index = number.checked_sub(1)?;
        self.clauses.get(index as usize)
    }

    /// The number of clauses. Takes constant time.
    pub fn len(&self) -> usize
        ensures len { result ≡ length self.now.clauses }
        ensures formula { IsFormula self.now }
    {
        self.clauses.len()
    }

    /// Whether there is no clause. Takes constant time.
    pub fn is_empty(&self) -> bool
        ensures { IsTrue result ↔ (length self.now.clauses ≡ 0) }
    {
        self.clauses.is_empty()
    }

    /// A formula of its own with the same clauses. Takes time linear in how many they are, since it shares their literals.
    ///
    /// # Errors
    /// [`NoMemory`] where a growth was refused.
    pub fn try_clone(&self) -> Result<Formula, NoMemory>
        ensures { IfOk result (λ formula. formula ≡ self.now) }
    {
        Ok(Formula {
            variables: self.variables,
            clauses: try_clones(&self.clauses)?,
        })
    }
}

/// Whether no clause names a variable above this one.
fn all_name_up_to(clauses: &[Clause], variables: u32) -> bool
    ensures { result ≡ list_all (names_up_to variables) clauses.now }
{
    clauses.iter().all(|c| names_only_up_to(c, variables))
}

fn names_only_up_to(clause: &Clause, variables: u32) -> bool
    ensures { result ≡ names_up_to variables clause.now }
{
    clause.max_variable() <= variables
}

/// The clauses once more.
fn try_clones(clauses: &Vec<Clause>) -> Result<Vec<Clause>, NoMemory>
    ensures { IfOk result (λ v. v.items ≡ clauses.now.items) }
{
    let mut all = Vec::with_capacity(*clauses.allocator(), clauses.len())?;
    for clause in clauses {
        all.push(clause.try_clone()?)?;
    }
    Ok(all)
}
