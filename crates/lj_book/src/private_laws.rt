//! The promise of variables of a seat's own, as laws. The functions do nothing.
ghost use Rattle.lj_book.specs.PrivateAdditions.{PrivateRepliesAreAlone, OthersLeaveViews};

/// An addition whose first propagation stays open and whose pivot has a variable above the formula's is answered as its seat decides
/// alone: by RAT among the clauses that the seat sees, in its own variables and at their numbers. What another seat does
/// leaves what the seat sees. Takes constant time.
pub fn private_replies_are_alone()
    ensures private { PrivateRepliesAreAlone }
    ensures others { OthersLeaveViews }
{}
