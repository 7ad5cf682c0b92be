//! Laws of propagations: what a receipt means, whenever and wherever it was made, and that numbers and variables are but names. The
//! functions do nothing.
ghost use Rattle.lj_hint.specs.Laws.{ReceiptIsRup, ReceiptImplies, PropagationsGoByClauses, OpenPropagationsGoByClauses, TestsCommuteWithRenamings, EndingOfImage};

/// In a clause map in which each number that a receipt lists has exactly the listed clause, these numbers close the
/// propagation of the lemma's negation, and every assignment that satisfies the map satisfies the lemma. Takes constant time.
pub fn receipt_implies()
    ensures rup { ReceiptIsRup }
    ensures implied { ReceiptImplies }
{}

/// Propagations over two lists of hints that name the same clauses, place by place, end alike, under whatever numbers: closed
/// after as many hints, stuck at the same place, or open with the same literals. Takes constant time.
pub fn propagations_go_by_clauses()
    ensures ending { PropagationsGoByClauses }
    ensures open { OpenPropagationsGoByClauses }
{}

/// Propagations, the test of candidates, the reply to a line and receipts commute with a renaming of variables that is one to
/// one. Takes constant time.
pub fn propagations_commute_with_renamings()
    ensures tests { TestsCommuteWithRenamings }
    ensures ending { EndingOfImage }
{}
