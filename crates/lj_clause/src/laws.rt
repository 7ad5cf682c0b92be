//! Laws of the propagation and of the test of candidates, each for all clause maps: what a checker that computes them may
//! conclude. The functions do nothing.
ghost use Rattle.lj_clause.specs.Laws.{ClosedPropagationImplies, UsedPartCloses, RatKeepsSatisfiable, CoveredIsRecorded, RenamingLaws, NamingLaws, MapImageLaws};

/// An assignment that satisfies every clause of a map satisfies each clause whose negations have a closed propagation there
/// (reverse unit propagation). Takes constant time.
pub fn closed_propagation_implies()
    ensures { ClosedPropagationImplies }
{}

/// The hints that a closed propagation read are the first of those given, and they close it by themselves. Takes constant time.
pub fn used_part_closes()
    ensures { UsedPartCloses }
{}

/// A satisfiable map stays satisfiable with a clause more, under any number, where the propagation of the clause's negations
/// ends open and the candidates of a pivot from the clause are covered (resolution asymmetric tautology). Takes constant
/// time.
pub fn rat_keeps_satisfiable()
    ensures { RatKeepsSatisfiable }
{}

/// The groups that cover a pivot's candidates are one for each, by rising number, with a first part of the hints given
/// for it, and they cover the candidates by themselves. Takes constant time.
pub fn covered_is_recorded()
    ensures { CoveredIsRecorded }
{}

/// What renamings of variables make of clauses and lemmas, how a renaming grows, and what it makes of clause maps. Takes constant
/// time.
pub fn renaming_laws()
    ensures clauses { RenamingLaws }
    ensures growing { NamingLaws }
    ensures maps { MapImageLaws }
{}
