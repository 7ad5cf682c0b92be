//! Laws of the grammar of formulas. The functions are never run, and so take no time.
ghost use Rattle.std.specs.Prelude.{◌⊎◌, ◌≡◌, ℕ, List};
ghost use Rattle.lj_clause.specs.ClauseMap.{FormulaValue};
ghost use Rattle.lj_text.specs.Cnf.{HasFault, Spells};
ghost use Rattle.lj_text.specs.declared.cnf.fault.CnfFault.{CnfFault};

/// Every text spells exactly one formula or has exactly one fault, and never both.
pub fn spells_or_has_a_fault()
    ensures either { (max : ℕ) (text : List ℕ) → ((formula : FormulaValue)
        × Spells max text formula) ⊎ ((fault : CnfFault) × HasFault max text fault) }
    ensures not_both { (max : ℕ) (text : List ℕ) (formula : FormulaValue) (fault : CnfFault)
        → Spells max text formula → HasFault max text fault → ⊥ }
    ensures one_formula { (max : ℕ) (text : List ℕ) (formula other : FormulaValue)
        → Spells max text formula → Spells max text other → formula ≡ other }
    ensures one_fault { (max : ℕ) (text : List ℕ) (fault other : CnfFault) → HasFault max text fault
        → HasFault max text other → fault ≡ other }
{}
