//! What types promise about runs, by the definitions alone.

ghost use Rattle.ada_typed.specs.Freeing.{ObjectsAreFreedByTheirTypes, AProgramFreesItsOwn, AProgramFreesAnother};
ghost use Rattle.ada_typed.specs.Holding.{ObjectsHaveTheirKinds, ObjectsHaveTheirParts, VariablesHaveTheirKinds};
ghost use Rattle.ada_typed.specs.Stuck.{WellFormedProgramsAreNeverStuck, NothingEscapesWellFormedPrograms, WellFormedProgramsEndByTheLanguage, AWellFormedProgramFinishes, AWellFormedProgramAssignsParts, AWellFormedProgramCallsFinalize, AnIllTypedProgramGetsStuck, AMixedPathGetsStuck, AnEmptyHandlerGetsStuck};

/// A well-formed program is never stuck: in each of its runs the next action has a meaning.
pub fn well_formed_programs_are_never_stuck()
    ensures { WellFormedProgramsAreNeverStuck }
{}

/// In no run of a well-formed program whose types override no operation does an exception leave an Adjust or a Finalize.
pub fn nothing_escapes_well_formed_programs()
    ensures { NothingEscapesWellFormedPrograms }
{}

/// So each run of a well-formed program ends in a way that the language knows: the main procedure is left, or by an
/// exception, or the next action would be erroneous, or an exception leaves an Adjust or a Finalize, a bounded error.
pub fn well_formed_programs_end_by_the_language()
    ensures { WellFormedProgramsEndByTheLanguage }
{}

/// In every run of a well-formed program, what lies in an object is what the record type has that its access type designates: a
/// value of its kind for each component, in order.
pub fn objects_have_their_kinds()
    ensures { ObjectsHaveTheirKinds }
{}

/// In every run of a well-formed program, an object has as many controlled parts as the program says of the objects of its type
/// (7.6).
pub fn objects_have_their_parts()
    ensures { ObjectsHaveTheirParts }
{}

/// In every run of a well-formed program, each variable of the running activation holds a value of its kind, whether or not its
/// declaration has been elaborated.
pub fn variables_have_their_kinds()
    ensures { VariablesHaveTheirKinds }
{}

/// Where each Free of a well-formed program is by the instance for the access type of what it frees, each object that one
/// of its runs is about to free is of the access type that the instance is for (13.11.2): what a variable names, and what
/// a component does.
pub fn objects_are_freed_by_their_types()
    ensures { ObjectsAreFreedByTheirTypes }
{}

/// The premises are met: such a program comes to a Free that finds an object.
pub fn a_program_frees_its_own()
    ensures { AProgramFreesItsOwn }
{}

/// The second premise is needed: a well-formed program frees an object by the instance for another access type to the
/// same record type.
pub fn a_program_frees_another()
    ensures { AProgramFreesAnother }
{}

/// The premise is met: a well-formed program declares, also a pool, from which it allocates with items and without,
/// follows, assigns, copies a record, repeats, counts, compares with null, chooses, reads, writes, frees, exits, raises an
/// exception in a block and handles it, calls a procedure with formal parameters, also of an access type, which returns,
/// and one with a record and a component for its formal parameters, and comes to its end.
pub fn a_well_formed_program_finishes()
    ensures { AWellFormedProgramFinishes }
{}

/// So it is for records with controlled parts: a well-formed program declares one, and another as a copy of it, assigns the
/// second to the first, and comes to its end.
pub fn a_well_formed_program_assigns_parts()
    ensures { AWellFormedProgramAssignsParts }
{}

/// So it is with operations: a well-formed program declares a record of a type that overrides Finalize, whose body runs as
/// the main procedure is left, and comes to its end.
pub fn a_well_formed_program_calls_finalize()
    ensures { AWellFormedProgramCallsFinalize }
{}

/// The premise is needed: a program that writes the image of a Boolean as that of an Integer gets stuck.
pub fn an_ill_typed_program_gets_stuck()
    ensures { AnIllTypedProgramGetsStuck }
{}

/// That a record of a path is found by walking is needed: a program gets stuck that names one by the component of one record and
/// the controlled part of another.
pub fn a_mixed_path_gets_stuck()
    ensures { AMixedPathGetsStuck }
{}

/// A handler needs a statement: a program gets stuck that comes to one without.
pub fn an_empty_handler_gets_stuck()
    ensures { AnEmptyHandlerGetsStuck }
{}
