//! The laws of assignments in operations. Each is a function that does nothing, and whose contract is the theorem.

ghost use Rattle.ada_assigned.specs.Law.{AssignmentsBesideRunAlone, AssignmentsInsideStand, CalledAssignmentsRunAlone};
ghost use Rattle.ada_assigned.specs.Example.{InitializeAssignsBeside, InitializeAssignsInside, InitializeCallsBeside};

/// Where the body of an Initialize, an Adjust or a Finalize assigns to a record with controlled parts as a whole (5.2), which lies in its
/// formal parameter, or in a record object that the body declares, each value that is finalized there exists (7.6.1): so it is
/// as long as no other operation of that object runs.
pub fn assignments_inside_stand()
    ensures { AssignmentsInsideStand }
{}

/// Where it assigns so to a record of a type of which no operation assigns to one inside of its formal parameter, no operation at all runs of the
/// object in which that lies: the body has declared it (3.3.1).
pub fn assignments_beside_run_alone()
    ensures { AssignmentsBesideRunAlone }
{}

/// Nor does any where the body of a procedure assigns so that it calls, or that is called by such a one, to a record object that the
/// procedure declares itself, or to a component of one.
pub fn called_assignments_run_alone()
    ensures { CalledAssignmentsRunAlone }
{}

/// Well-formed programs meet the premises: an Initialize assigns to a component of its formal parameter that is controlled
/// itself, another one to a record object that it declares, and a third one calls what does so.
pub fn premises_are_met()
    ensures inside { InitializeAssignsInside }
    ensures beside { InitializeAssignsBeside }
    ensures called { InitializeCallsBeside }
{}
