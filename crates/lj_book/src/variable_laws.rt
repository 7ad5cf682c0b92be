//! Laws of the variables that seats name as they like. The functions do nothing.
ghost use Rattle.lj_book.specs.Named.{BeneathIsReached, NamedKeepRules, OverBeneath, LegalEntriesEnter, TakenBeneathAreLegal};
ghost use Rattle.lj_book.specs.NamedViews.{TakesCommuteWithRenamings, NamedTakesAreAlone, SeatsHoldTheirOwn, ViewsComeBack, DecidedBeneath, ClosedBeneath, OpenBeneath, PrivateAreHeld, PrivateCandidates, GivenCandidates, NewPivotsHaveNone, PrivateRat, TakenHintsAreSeen, PrivateRefusals};
ghost use Rattle.lj_book.specs.NamedAlone.{NamedViewsFollowEntries, NamedSeatsHoldTheFormula, NamedDecidedAlone, NamedFreeAlone};
ghost use Rattle.lj_book.specs.Views.{HoldsTheFormula};
ghost use Rattle.lj_book.specs.VariableLaws.{NoneAreVariables, EachGives, NamedGivesNothing, ImagesAreOwn, OthersOwnNone};

/// At the opening no seat has a variable of its own, and no joint variable is given out. Takes constant time.
pub fn no_variables_at_first()
    ensures { NoneAreVariables }
{}

/// A clause that enters through a seat has a joint variable for each of its variables then, and whatever was given out before
/// stays. Takes constant time.
pub fn clauses_give_variables()
    ensures { EachGives }
{}

/// A clause whose variables all have joint ones gives out none. Takes constant time.
pub fn named_clauses_give_none()
    ensures { NamedGivesNothing }
{}

/// The joint clause of a seat's clause is that seat's own, and another seat's only where it has no variable above the
/// formula's. Takes constant time.
pub fn images_are_own()
    ensures own { ImagesAreOwn }
    ensures others { OthersOwnNone }
{}

/// Beneath a book whose seats name variables as they like lies one in joint variables, to which its history leads, and each
/// joint variable that was given out stands for one variable of one seat. Takes constant time.
pub fn beneath_is_reached()
    ensures reached { BeneathIsReached }
    ensures rules { NamedKeepRules }
{}

/// What a legal entry leaves, in the book beneath: it takes the entry in joint variables, and what lies over it then is the
/// whole. An entry that the book beneath takes so is legal where it names no variable that it may not. Takes constant time.
pub fn legal_entries_enter()
    ensures over { OverBeneath }
    ensures leads { LegalEntriesEnter }
    ensures legal { TakenBeneathAreLegal }
{}

/// A seat's takes are answered by what it sees in its own variables: a take by a view whose clauses are renamed is the take
/// renamed. Takes constant time.
pub fn takes_are_alone()
    ensures commute { TakesCommuteWithRenamings }
    ensures alone { NamedTakesAreAlone }
{}

/// Each clause that a seat holds is its own: its variables above the formula's are all ones that the seat was given. So what
/// it sees in its own variables names all that it sees in joint ones. Takes constant time.
pub fn seats_hold_their_own()
    ensures own { SeatsHoldTheirOwn }
    ensures back { ViewsComeBack }
{}

/// What a seat decides alone is the same in its own variables and in joint ones: the refusal at the take or at a hint that
/// isn't unit, after how many hints the propagation closes, and with which literals it ends open. Takes constant time.
pub fn decided_beneath()
    ensures decided { DecidedBeneath }
    ensures closed { ClosedBeneath }
    ensures open { OpenBeneath }
{}

/// A live clause with a variable that a seat was given is that seat's own, and the seat holds it. Takes constant time.
pub fn private_clauses_are_held()
    ensures { PrivateAreHeld }
{}

/// The candidates of a pivot with a variable of the seat's own are those among the clauses that the seat sees. A pivot whose
/// variable is new has none. Takes constant time.
pub fn private_candidates_are_seen()
    ensures private { PrivateCandidates }
    ensures given { GivenCandidates }
    ensures new { NewPivotsHaveNone }
{}

/// The test of such a pivot's candidates ends in joint variables as it does in the seat's own, among the clauses that the
/// seat sees, and refuses the same. Those are what the hints of a taken case name. Takes constant time.
pub fn private_tests_are_alone()
    ensures alike { PrivateRat }
    ensures seen { TakenHintsAreSeen }
    ensures refused { PrivateRefusals }
{}

/// Each entry of a legal history changes what its own seat sees by its call, and what no other seat sees, in the seat's own
/// variables. Takes constant time.
pub fn views_follow_entries()
    ensures { NamedViewsFollowEntries }
{}

/// At the opening each seat sees the clauses of the formula under their own numbers. Takes constant time.
pub fn seats_hold_the_formula()
    ensures formula { NamedSeatsHoldTheFormula }
    ensures clauses { HoldsTheFormula }
{}

/// Where what the seat sees refuses an addition, at its take or at a hint that isn't unit, the book refuses it so. Takes
/// constant time.
pub fn decided_alone()
    ensures { NamedDecidedAlone }
{}

/// Whether the seat is there, and its own number is free, is decided by what the seat sees. Takes constant time.
pub fn free_alone()
    ensures { NamedFreeAlone }
{}
