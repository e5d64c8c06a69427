//! The laws of bodies that follow and free no value of some access types. Each is a function that does nothing, and whose contract is the
//! theorem.

ghost use Rattle.ada_reaching.specs.Deeds.{UnusedObjectsAreUntouched};
ghost use Rattle.ada_reaching.specs.Example.{CopiedDeclarationIsMet, CopyIsMet, DeclarationIsMet, FinalizationIsMet, InitializationIsMet, PremiseIsMet, PremiseIsNeeded};
ghost use Rattle.ada_reaching.specs.Law.{ShunnedObjectsAreUntouched};

/// While bodies run that follow and free no value of some access types, and the operations of what they free and allocate, and assign to
/// records with controlled parts as wholes only where nothing is called (5.2), each object of
/// these types stays as it is into which no reference of theirs to a record or a component leads, and so does a declared record object
/// (3.3.1) of which that is so, too, and that no variable or operand of theirs names; and what is left of the bodies is so still. No step
/// looks at one of these objects, nor does one that treats another object (7.6, 7.6.1).
pub fn shunned_objects_are_untouched()
    ensures { ShunnedObjectsAreUntouched }
{}

/// So it is where the procedures that such a body calls are of that shape, and follow and free no value of these access types by what
/// procedures do (`Does` of `ada_deeds`): what they do covers what their runs look at.
pub fn unused_objects_are_untouched()
    ensures { UnusedObjectsAreUntouched }
{}

/// The premises of both are met: in a run of a well-formed program a procedure that such a body calls stores the name of an object of
/// an access type that both shun, and of which the procedure does nothing.
pub fn premise_is_met()
    ensures { PremiseIsMet }
{}

/// So they are where a record is copied as a whole (4.3.1, 5.2): in a run of a well-formed program a procedure that such a body calls
/// copies a record that holds the name of such an object over one of another object, and a component of that gets the name, while a
/// record object is there that is declared and that none of the bodies names.
pub fn records_are_copied()
    ensures { CopyIsMet }
{}

/// So they are where an object is freed that has a controlled part (7.6.1, 13.11.2): in a run of a well-formed program a procedure that
/// such a body calls frees it, and the Finalize of the part begins, while an object of an access type is there that both bodies shun, and
/// so does that Finalize.
pub fn objects_are_finalized()
    ensures { FinalizationIsMet }
{}

/// So they are where an object is allocated that has a controlled part (4.8, 7.6): in a run of a well-formed program a procedure that such
/// a body calls allocates it, and the Initialize of the part begins, while an object of an access type is there that both bodies shun, and
/// so does that Initialize.
pub fn objects_are_initialized()
    ensures { InitializationIsMet }
{}

/// So they are where a record object is declared that has a controlled part (3.3.1, 7.6.1): in a run of a well-formed program a procedure
/// that such a body calls declares it by default and leaves its master, and the Finalize of the part begins, while an object of an access
/// type is there that both bodies shun, and so does that Finalize.
pub fn objects_are_declared()
    ensures { DeclarationIsMet }
{}

/// So they are where a record object is declared as a copy (3.3.1): in a run of a well-formed program a procedure that such a body calls
/// declares one without controlled parts, a component of it gets the name of an object of an access type that both bodies shun, and the
/// procedure's own master owns it.
pub fn copies_are_declared()
    ensures { CopiedDeclarationIsMet }
{}

/// And the premise is needed: in a run of a well-formed program a body follows a value of such a type, and the step looks at the object and
/// changes it.
pub fn premise_is_needed()
    ensures { PremiseIsNeeded }
{}
