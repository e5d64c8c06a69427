//! The laws of finalization. Each is a function that does nothing, and whose contract is the theorem.

ghost use Rattle.std.specs.Prelude.{All, AllPairs};
ghost use Rattle.ada_meaning.specs.Law.{FinalizedTwoValues};
ghost use Rattle.ada_meaning.specs.Finalization.{BornTwoValues, BornBeforeFinalized, IsBorn, FinalizedByBack, NothingAfterBack};
ghost use Rattle.ada_meaning.specs.Finalization.{PartsComeFirst, WholesComeFirst, EndsBeforeItAdjusts, InsideIsBegun, FinalizationLaw};
ghost use Rattle.ada_finalized.specs.Example.{ValuesAreFinalized, InitializationIsUndone, FinalizeIsCalled, FinalizeAssigns};
ghost use Rattle.ada_finalized.specs.Example.{outer_operations, outer_finalizes, OperationFrees, OperationAssigns, initialize_events, finalize_events};
ghost use Rattle.ada_finalized.specs.Nested.{AssignmentsNest};
ghost use Rattle.ada_finalized.specs.Law.{InEveryRun, NeverFinalizesTwice, OperationsEndWell, TreatedObjectsExist, AllPartsStand, StatementsTreatNothing};
ghost use Rattle.ada_finalized.specs.Law.{ListedObjectsStand, NoOperationRunsOnListed, TreatedValuesExist, OperatedObjectsExist};
ghost use Rattle.ada_finalized.specs.Law.{InnerValuesExist, InnerPartsStand, BegunInside, LeftToFinalize};

/// A controlled value comes to exist once, and is finalized once, after that and before the words of its object go back
/// (7.6, 7.6.1, 13.11.2).
pub fn values_are_finalized_once()
    ensures born_once { InEveryRun (λ shapes events. AllPairs BornTwoValues events) }
    ensures finalized_once { InEveryRun (λ shapes events. AllPairs FinalizedTwoValues events) }
    ensures born_before { InEveryRun (λ shapes events. AllPairs BornBeforeFinalized events) }
    ensures is_born { InEveryRun (λ shapes events. All (IsBorn events) events) }
    ensures finalized_by_back { InEveryRun (λ shapes events. FinalizedByBack events) }
    ensures nothing_after_back { InEveryRun (λ shapes events. AllPairs NothingAfterBack events) }
{}

/// While no operation runs, no treatment of an object comes to a value that does not exist, whether or not the program obeys
/// any rule (7.6.1). A Free may, and the body of an operation may bring one to do so. Whatever operations do, none does behind
/// the body of one, and an object exists as long as something is done to it, so it ceases to exist once.
pub fn never_finalizes_twice()
    ensures never { NeverFinalizesTwice }
    ensures behind { OperationsEndWell }
    ensures exist { TreatedObjectsExist }
{}

/// Components are initialized and adjusted before the record in which they lie, and finalized after it (7.6, 7.6.1); an
/// assignment finalizes what its target held before it adjusts anything (5.2, 7.6).
pub fn parts_go_in_order()
    ensures parts_first { InEveryRun (λ shapes events. AllPairs (PartsComeFirst shapes) events) }
    ensures wholes_first { InEveryRun (λ shapes events. AllPairs (WholesComeFirst shapes) events) }
    ensures assigned_once { InEveryRun (λ shapes events. AllPairs EndsBeforeItAdjusts events) }
{}

/// Each part of an object is initialized or adjusted: those that lie in a record before it, and all before anything else is
/// done; so an object that is in its collection has all its values (7.6). That is so at the beginning of each statement while
/// no operation runs.
pub fn all_parts_are_initialized()
    ensures inside_begun { InEveryRun InsideIsBegun }
    ensures all_stand { AllPartsStand }
    ensures nothing_treated { StatementsTreatNothing }
{}

/// While operations run, whatever they do: an object that is in its collection has all its values, but while it is itself
/// initialized or adjusted (7.6); and no treatment of an object comes to a value that does not exist, but while an operation of
/// that object runs (7.6.1). So a Free in an operation of one object finds all values of another. None runs of an object that
/// does not exist, nor of one that is in its collection, but while that one is initialized or adjusted.
pub fn other_objects_stand()
    ensures listed_stand { ListedObjectsStand }
    ensures none_runs { NoOperationRunsOnListed }
    ensures values_exist { TreatedValuesExist }
    ensures operated_exist { OperatedObjectsExist }
{}

/// While operations of an object run, what is inside of each of them has its values: it lies in the part that is initialized or
/// adjusted (7.6), or is left to be finalized behind the Finalize (7.6.1). So no treatment of that comes to a value that does
/// not exist: an operation may assign to components of its formal parameter (5.2), and so may those that run for what is
/// finalized and adjusted then.
pub fn inner_parts_stand()
    ensures values_exist { InnerValuesExist }
    ensures parts_stand { InnerPartsStand }
    ensures begun_inside { BegunInside }
    ensures left_to_finalize { LeftToFinalize }
{}

/// All laws of finalization together.
pub fn runs_keep_the_law()
    ensures { InEveryRun FinalizationLaw }
{}

/// The laws are not empty: a record object with a controlled component, and an allocated one, are initialized; the one is
/// assigned to the other; and they are finalized at the leaving of their block, and by a Free. In another run an Initialize
/// raises an exception, and the initialization of its object is undone. In a third one a type overrides Finalize: a statement
/// begins, and an object is finalized next, while no operation runs; and a statement of Finalize begins while the object is
/// still finalized. In a fourth one Finalize assigns to its object, and halts the run. So the premise is needed. In two more
/// Initialize, or Finalize, creates another object, which stands, and frees it: that one is finalized while no operation of
/// its own runs. In two more Initialize, or Finalize, assigns to a component of its object, inside of the operation: the
/// component is finalized and adjusted, and the run finishes. In the last one the Finalize of such a component does so, too.
pub fn premises_are_met()
    ensures finalized { ValuesAreFinalized }
    ensures undone { InitializationIsUndone }
    ensures called { FinalizeIsCalled }
    ensures assigns { FinalizeAssigns }
    ensures initialize_frees { OperationFrees outer_operations }
    ensures finalize_frees { OperationFrees outer_finalizes }
    ensures initialize_assigns { OperationAssigns outer_operations initialize_events }
    ensures finalize_assigns { OperationAssigns outer_finalizes finalize_events }
    ensures assignments_nest { AssignmentsNest }
{}
