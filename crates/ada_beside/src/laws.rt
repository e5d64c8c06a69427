//! The laws of what lies beside a record. Each is a function that does nothing, and whose contract is the theorem.

ghost use Rattle.ada_beside.specs.Example.{PremisesAreMet};
ghost use Rattle.ada_beside.specs.Law.{BodiesStayWithinTheirRecord};

/// While the body of an operation runs whose paths from its formal parameter begin with components of that record, a step that looks
/// at the object of that record by the formal parameter alone, though other values may name it, copies and stores nothing with a
/// record that lies beside the record, and assigns none with controlled parts, neither looks at what lies there nor writes it; the
/// object exists behind it, if it does before, and what is left of the body is such again, also where the controlled parts of another
/// object are treated first, which is new or freed (7.6, 13.11.2). Of the steps of that treatment it does not speak.
pub fn bodies_stay_within_their_record()
    ensures { BodiesStayWithinTheirRecord }
{}

/// The premises are met: a body writes a component of its formal parameter, beside another one of the same object.
pub fn premises_are_met()
    ensures { PremisesAreMet }
{}
