//! The clauses of a formula, with their literals in one list.
ghost use Rattle.std.specs.Prelude.{◌≡◌, OnOk, IfOk};
ghost use Rattle.std.specs.FinMap as fin;
ghost use Rattle.lj_clause.specs.ClauseMap.{formula_map};
ghost use Rattle.lj_book.specs.inner.Ranges.{stored, AreRanges};

use crate::lit_range::{LitRange, U32Range};
use crate::slot_map::SlotMap;
use lj_clause::{Clause, Formula, Lit, NoMemory};
use std::alloc::Global;
use std::marker::Model;

/// Clauses under their numbers: their literals, and where in them each clause stands.
#[derive(Drop)]
struct StoredClauses {
    lits: Vec<Lit>,
    ranges: SlotMap<U32Range>,
}

impl Model for StoredClauses {
    ghost use Rattle.lj_clause.specs.ClauseMap.{ClauseMap};
    ghost use Rattle.lj_clause.specs.inner.Codes.{clause_map_code};
    ghost use Rattle.lj_book.specs.inner.Ranges.{stored, AreRanges};

    ghost Value = { ClauseMap };

    ghost coded = { clause_map_code };

    ghost view = { λ c. stored c.lits.items c.ranges };

    ghost invariant = { λ c. AreRanges c.lits.items c.ranges };
}

impl StoredClauses {
    /// No clauses.
    fn new(alloc: Global) -> StoredClauses
        ensures { result ≡ fin.empty }
    {
        StoredClauses {
            lits: Vec::new(alloc),
            ranges: SlotMap::new(alloc),
        }
    }

    /// Gives a clause this number.
    ///
    /// # Errors
    /// [`NoMemory`] where a growth was refused.
    fn insert(&mut self, number: u64, clause: &Clause) -> Result<(), NoMemory>
        ensures { OnOk result (self.new ≡ fin.insert self.old number clause.now) }
    {
        let start = self.lits.len() as u64;
        let count = clause.lits().len() as u64;
        self.lits.extend_from_slice(clause.lits())?;
        self.ranges.insert(number, LitRange { start, count })
    }

    /// The literals, and where in them each clause stands.
    fn into_parts(self) -> (Vec<Lit>, SlotMap<U32Range>)
        ensures clauses { stored result.0.items result.1 ≡ self }
        ensures ranges { AreRanges result.0.items result.1 }
    {
        (self.lits, self.ranges)
    }
}

/// The literals of the clauses of a formula, and where in them each clause stands.
///
/// # Errors
/// [`NoMemory`] where a growth was refused.
pub(crate) fn clauses_of(
    alloc: Global,
    formula: &Formula,
) -> Result<(Vec<Lit>, SlotMap<U32Range>), NoMemory>
    ensures clauses { IfOk result
        (λ parts. stored parts.0.items parts.1 ≡ formula_map formula.now) }
    ensures ranges { IfOk result (λ parts. AreRanges parts.0.items parts.1) }
{
    let clauses = all_stored(alloc, formula)?;
    Ok(clauses.into_parts())
}

/// The clauses of a formula under their numbers.
///
/// # Errors
/// [`NoMemory`] where a growth was refused.
fn all_stored(alloc: Global, formula: &Formula) -> Result<StoredClauses, NoMemory>
    ensures { IfOk result (λ clauses. clauses ≡ formula_map formula.now) }
{
    let mut clauses = StoredClauses::new(alloc);
    for number in 0..formula.len() as u64 {
        if let Some(clause) = formula.clause(number + 1) {
            clauses.insert(number + 1, clause)?;
        }
    }
    Ok(clauses)
}
