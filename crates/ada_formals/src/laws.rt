//! The laws of formal parameters that are records. Each is a function that does nothing, and whose contract is the theorem.

ghost use Rattle.ada_formals.specs.Example.{PremisesAreMet, AParameterIsGivenOn, WellFormednessIsNeeded};
ghost use Rattle.ada_formals.specs.Formals.{FormalsStay, OperationsReferToTheirParts};
ghost use Rattle.ada_formals.specs.Inside.{ReferencesLieInside};

/// A formal parameter that is a record stands for the same record as long as its body runs (6.2, 6.4.1): whatever the body
/// does, and whatever runs inside of it, that variable holds what it held as the body began.
pub fn formals_stay()
    ensures { FormalsStay }
{}

/// Where an operation of a controlled type is awaited behind a body, the body is that of the operation. The formal parameter
/// of an Initialize or an Adjust refers to the part that the operation is called for, where that begins (7.6); and that of a
/// Finalize to a controlled part of the object that is finalized there: the parts that lie in it are among those that are left
/// to be finalized (7.6.1).
pub fn operations_refer_to_their_parts()
    ensures { OperationsReferToTheirParts }
{}

/// Where the path of a record that is given begins with a record parameter, and follows no access value, what is given lies
/// in the same object, inside of the record for which that parameter stands, or is that record (6.2, 6.4.1).
pub fn references_lie_inside()
    ensures { ReferencesLieInside }
{}

/// The premises are met: in a run of a well-formed program the body of an Initialize runs for a component of a record object,
/// and calls a procedure with it.
pub fn premises_are_met()
    ensures { PremisesAreMet }
{}

/// So is that of `references_lie_inside`: the body of the Initialize gives its formal parameter on.
pub fn a_parameter_is_given_on()
    ensures { AParameterIsGivenOn }
{}

/// That the program is well formed is needed: the body of a procedure that declares its formal parameter once more makes it
/// another record.
pub fn well_formedness_is_needed()
    ensures { WellFormednessIsNeeded }
{}
