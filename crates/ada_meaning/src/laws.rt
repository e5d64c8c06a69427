//! Laws of any run of any program, by the definitions alone.

ghost use Rattle.ada_meaning.specs.Beginning.{StatementsBegin};
ghost use Rattle.ada_meaning.specs.Calls.{StepsKeepCallers, CallersHold, CallsEvaluate, ActualsArrive, CallersResume};
ghost use Rattle.ada_meaning.specs.References.{RecordsAreReferredTo, ComponentsAreOpened, ParametersShareRecords, PathsGoOnThere, ComponentsAreFoundThere, RecordsBeginThere, StoresAreKept};
ghost use Rattle.ada_meaning.specs.Defaults.{MakesByDefault, MakesRecords};
ghost use Rattle.ada_meaning.specs.Life.{NamesAreUsedOnce, GoneForEver, BackOnce};
ghost use Rattle.ada_meaning.specs.Ending.{StepsMakeLighter, NothingIsCalled, StatesGoOn, StatementsEnd};
ghost use Rattle.ada_meaning.specs.Pace.{DeclarationsWithoutPartsSettle, OperationsGrowFewer, SomeDeclarationsNeverEnd, StatementsEndWithOperations, StepsMakeFullyLighter};
ghost use Rattle.ada_meaning.specs.Operations.{OperationsAreCalled, AwaitedPartsAreBorn, PlainPartsAreBorn, GoneObjectsAreNotTreated};
ghost use Rattle.ada_meaning.specs.Operations.{FinalizeIsCalled, FinalizesEnd, NoFinalizeIsCalled, EndedValuesAreNotFinalized};
ghost use Rattle.ada_meaning.specs.Operations.{FailedInitializesAreUndone, ObjectsEnd, WordsGoBack, ExceptionsGoOn, NothingEscapes};
ghost use Rattle.ada_meaning.specs.Operations.{FreesOnce, FreesToItsPool, FreesFinalize};
ghost use Rattle.ada_meaning.specs.Treated.{ObjectsBegin, ComponentsArePicked, MembersAreFinalized, TreatmentsComeFirst};
ghost use Rattle.ada_meaning.specs.OperationExamples.{AnInitializeIsUndone, OthersAreMet, APartBeginsWithAComponent};
ghost use Rattle.ada_meaning.specs.Places.{RecordsBeginThemselves, PartsBeginWithComponents, PartsAreCounted, PartsStayInPlace, NumbersAreAlone, TypesHaveTheirOperations};
ghost use Rattle.ada_meaning.specs.Records.{RecordsAreCopied, TargetsComeFirst, OntoItselfNothingIsDone, AssignmentsFinalizeCopyAdjust};

/// Each step that begins no statement and calls no operation of a controlled type makes the weight of the state smaller, so
/// a loop that runs a machine comes to the next statement, to the body of an operation, or to the end. No operation is
/// called where no type overrides one.
pub fn steps_make_lighter()
    ensures lighter { StepsMakeLighter }
    ensures nothing_called { NothingIsCalled }
{}

/// A state has a step for whatever is answered, or halts, and not for want of memory.
pub fn states_go_on()
    ensures { StatesGoOn }
{}

/// Operations are called, too, and a number says how many of them at most before the next statement begins, where what
/// the declarations of their bodies create leads through other operations only so deep. There each step that begins no
/// statement makes another number smaller, so a loop that runs a machine comes to the next statement, or to the end (7.6).
pub fn operations_grow_fewer()
    ensures fewer { OperationsGrowFewer }
    ensures lighter { StepsMakeFullyLighter }
{}

/// Some such premise is needed: in a well-formed program whose Initialize declares an object of its own type no statement
/// ever begins, and no run ends.
pub fn some_declarations_never_end()
    ensures { SomeDeclarationsNeverEnd }
{}

/// A statement ends, or another one begins, where no type overrides an operation, or where what the declarations of
/// operations create leads through other operations only so deep: there is a number of steps that no run passes before.
/// So it is where these declarations create no controlled parts.
pub fn statements_end()
    ensures inheriting { StatementsEnd }
    ensures operating { StatementsEndWithOperations }
    ensures settling { DeclarationsWithoutPartsSettle }
{}

/// A name is never used twice: each keeps its object, with the home and the trace number that it had.
pub fn names_are_used_once()
    ensures { NamesAreUsedOnce }
{}

/// An object never leaves the stage gone (13.11.2).
pub fn gone_for_ever()
    ensures { GoneForEver }
{}

/// The words of an object go back at most once (13.11.2).
pub fn back_once()
    ensures { BackOnce }
{}

/// `begins` says where a statement begins: no jump is on its way, and a statement is first of what is left to do.
pub fn statements_begin()
    ensures { StatementsBegin }
{}

/// The object of an allocator without items holds, component by component, what the declarations of its type say (4.8, 3.3.1).
pub fn makes_by_default()
    ensures { MakesByDefault }
{}

/// So does a record object where it is declared; its variable names it, and it is of no pool (3.3.1).
pub fn makes_records()
    ensures { MakesRecords }
{}

/// A record that is copied holds, component by component, what the copied one held before; nothing else of the target's
/// object changes, and no other object (4.3.1, 5.2). Copied onto itself it stays as it is.
pub fn copies_are_alike()
    ensures { RecordsAreCopied }
{}

/// A record that has controlled parts is assigned in order: the target is found, and then the source. Where both are one
/// record nothing is done; else the target is finalized, the components of the source are copied to it, and it is adjusted
/// (5.2, 7.6).
pub fn records_are_assigned()
    ensures targets_first { TargetsComeFirst }
    ensures onto_itself { OntoItselfNothingIsDone }
    ensures in_order { AssignmentsFinalizeCopyAdjust }
{}

/// Whatever step a program makes, the activations behind the running one are those before; or a
/// call begins, and all those before wait behind the new one; or so does the body of an operation of
/// a controlled type, behind which the running body keeps its operands, too (7.6); or a body ends, and those that waited
/// for it are what there is (6.4, 6.5). Of these the caller alone changes, and only where the body
/// ends normally: the variables that it gave for formal parameters of mode `in out` get what the
/// parameters hold, and no other variable changes (6.4.1). An exception gives nothing back (11.4).
pub fn callers_stay()
    ensures { StepsKeepCallers }
{}

/// As long as a call lasts, its callers' variables hold what they held (6.4), those too that get
/// something back when it ends (6.4.1).
pub fn callers_hold()
    ensures { CallersHold }
{}

/// A call evaluates its actual parameters in order, and then comes the body of the procedure that
/// it names (6.4). What is given for a formal parameter of mode `in out` is evaluated, too: its
/// value is what the variable holds (6.4.1).
pub fn calls_evaluate()
    ensures { CallsEvaluate }
{}

/// The first variables of a body that begins, its formal parameters, hold the values of the actual
/// ones, in order; the body is a master of its own, and all of it is left to do before the call
/// returns (6.4, 6.4.1, 7.6.1).
pub fn actuals_arrive()
    ensures { ActualsArrive }
{}

/// A record that is given for a formal parameter is passed by reference, and so is the place of a component (6.2,
/// 6.4.1): the formal parameter stands for the record in its object, so what is read, assigned, freed, copied and given
/// once more through it lies there.
pub fn records_are_referred_to()
    ensures records { RecordsAreReferredTo }
    ensures components { ComponentsAreOpened }
    ensures shared { ParametersShareRecords }
    ensures goes_on { PathsGoOnThere }
    ensures found { ComponentsAreFoundThere }
    ensures wholes { RecordsBeginThere }
{}

/// What is stored in a component lies there afterwards, and nothing else has changed (5.2).
pub fn stores_are_kept()
    ensures { StoresAreKept }
{}

/// Behind the body of a call, where it is done or a return has come to its end, the caller runs
/// with what it held and what it gets back: a variable that is given for a formal parameter of mode
/// `in out` holds what the last one holds for which it is given (6.4.1, 6.5). An exception that comes
/// there goes on in the caller, which holds what it held (11.4). The components that are given get what the parameters
/// hold next, in order, each at the place that was named before the call (6.4.1).
pub fn callers_resume()
    ensures { CallersResume }
{}

/// An object that is created has the controlled parts of its type, without values; they are initialized next, or adjusted,
/// where it is a copy, and of components that are open any one may come first. At the leaving of its master they are
/// finalized, before it ceases to exist (7.6, 7.6.1).
pub fn objects_are_treated()
    ensures begins { ObjectsBegin }
    ensures picks { ComponentsArePicked }
    ensures leaves { MembersAreFinalized }
    ensures first { TreatmentsComeFirst }
{}

/// The operation that begins a controlled part is called with the part where it lies, and the part has its value when the
/// body has ended; at once, where the type inherits the operation (7.6). No part of an object that is gone begins or ends.
pub fn operations_begin_parts()
    ensures called { OperationsAreCalled }
    ensures awaited { AwaitedPartsAreBorn }
    ensures plain { PlainPartsAreBorn }
    ensures gone { GoneObjectsAreNotTreated }
{}

/// Finalize is called with a part that has a value, and the part has none from then on; when the body has ended, what is
/// left of the object comes. Where the type inherits Finalize, the value just ends. To finalize a part that has no value is
/// erroneous (7.6.1).
pub fn operations_end_parts()
    ensures called { FinalizeIsCalled }
    ensures goes_on { FinalizesEnd }
    ensures plain { NoFinalizeIsCalled }
    ensures ended { EndedValuesAreNotFinalized }
{}

/// Where an exception comes out of an Initialize, the parts of the object that have begun are finalized, newest first; the
/// object ceases to exist, its words go back, and the exception goes on. None comes out of an Adjust or a Finalize: the run
/// ends there (7.6.1).
pub fn exceptions_leave_operations()
    ensures undone { FailedInitializesAreUndone }
    ensures ceases { ObjectsEnd }
    ensures back { WordsGoBack }
    ensures goes_on { ExceptionsGoOn }
    ensures escapes { NothingEscapes }
{}

/// A Free is erroneous at once where its object is gone, or is under way to that, or one of its parts has no value; and where
/// the object is not from the pool of the access type. Any other one finalizes its object, by a variable's name or by a
/// component's (13.11.2).
pub fn frees_are_of_whole_objects()
    ensures once { FreesOnce }
    ensures pool { FreesToItsPool }
    ensures finalizes { FreesFinalize }
{}

/// Controlled parts begin in a record where the declarations of its components say, in a well-formed program; and in every
/// run of any program the parts of an object are those of its type, and stay where they begin (7.6).
pub fn parts_begin_with_components()
    ensures itself { RecordsBeginThemselves }
    ensures components { PartsBeginWithComponents }
    ensures counted { PartsAreCounted }
    ensures stay { PartsStayInPlace }
{}

/// The operations that are called for a part are those of its type, which is found by its number (7.6).
pub fn operations_are_of_their_types()
    ensures alone { NumbersAreAlone }
    ensures own { TypesHaveTheirOperations }
{}

/// The premises of the laws of operations are met: by a run in which two parts of an object begin, an exception comes out of
/// the Initialize of the third, and these two are finalized, the newer one first; and by states of no run. A well-formed
/// program has a component whose parts begin where it says.
pub fn premises_of_operations_are_met()
    ensures undone { AnInitializeIsUndone }
    ensures others { OthersAreMet }
    ensures places { APartBeginsWithAComponent }
{}
