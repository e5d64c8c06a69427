//! The laws of declared record objects. Each is a function that does nothing, and whose contract is the theorem.

ghost use Rattle.ada_declared.specs.Declared.{DeclaredObjectsStandApart};

/// While a body runs, be it that of an Initialize, an Adjust or a Finalize, or one that is called, each of its record variables but the
/// formal parameters holds nothing, or names an object of which no operation runs behind the body (3.3.1, 7.6): it was created after the
/// body began.
pub fn declared_objects_stand_apart()
    ensures { DeclaredObjectsStandApart }
{}
