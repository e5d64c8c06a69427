//! Laws of the rules on operations, and of what implicit calls may do, by the definitions alone. Each is a
//! function that does nothing, and whose contract is the theorem.

ghost use Rattle.ada_operations.specs.Example.{AllAreBroken, NoneIsBroken, PartsOfPartsCount};
ghost use Rattle.ada_operations.specs.Laws.{OneIsFirst, QuietOperationsDoNothing, QuietOperationsObey};
ghost use Rattle.ada_operations.specs.Laws.{AdjustsFreeWhatPartsFree, AdjustsSpareTheirOwn, EndsFreeWhatPartsFree, EndsReachWhatPartsUse, EndsSpareNewer, EndsSpareTheirOwn};
ghost use Rattle.ada_operations.specs.Laws.{ObeyingPropagatesNothing, StartsFreeWhatPartsFree, StartsRaiseWhatPartsRaise};

/// A program has its first fault, or none: not two of these.
pub fn one_is_first()
    ensures { OneIsFirst }
{}

/// Where all operations are quiet, a well-formed program has no fault: so nothing is left to examine.
pub fn quiet_operations_obey()
    ensures { QuietOperationsObey }
{}

/// Where all operations are quiet, implicit calls raise, free and follow nothing in a well-formed program.
pub fn quiet_operations_do_nothing()
    ensures { QuietOperationsDoNothing }
{}

/// The rules are not empty: one Finalize breaks each of them, and one that frees objects breaks none.
pub fn neither_all_nor_none()
    ensures all { AllAreBroken }
    ensures none { NoneIsBroken }
{}

/// Implicit calls may do what the procedures do that override the operations of parts, at any depth, and nothing else. What is
/// no type has no objects, so for it they do nothing.
pub fn implicit_calls_are_those_of_all_parts()
    ensures start_raises { StartsRaiseWhatPartsRaise }
    ensures start_frees { StartsFreeWhatPartsFree }
    ensures adjust_frees { AdjustsFreeWhatPartsFree }
    ensures end_frees { EndsFreeWhatPartsFree }
    ensures end_reaches { EndsReachWhatPartsUse }
{}

/// Where no body breaks a rule, the end of an object of an access type neither frees an object of that type nor follows a value of it, and
/// its adjustment frees none: what they use lies in a collection that is created before its own (S8).
pub fn ends_spare_their_own()
    ensures { EndsSpareTheirOwn }
{}

/// Where no body breaks a rule, the adjustment of an object follows no value of an access type whose objects it is one of: what is followed
/// there lies in a collection that is created before its own (S8).
pub fn adjusts_spare_their_own()
    ensures { AdjustsSpareTheirOwn }
{}

/// Where no body breaks a rule, what the end of an object of an access type frees or follows is of access types whose collections are
/// created before that of its own: of none that is created later, and is gone where the object ends with its collection (S8).
pub fn ends_spare_newer()
    ensures { EndsSpareNewer }
{}

/// Where no body breaks a rule, no exception comes out where a record is adjusted or finalized: out of no Adjust and no Finalize of a part
/// of it, at any depth (S9).
pub fn obeying_propagates_nothing()
    ensures { ObeyingPropagatesNothing }
{}

/// That is not empty: the operations of a part that lies within a part count, each for itself.
pub fn parts_of_parts_count()
    ensures { PartsOfPartsCount }
{}
