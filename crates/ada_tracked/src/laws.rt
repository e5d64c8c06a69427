//! The laws of tracked components. Each is a function that does nothing, and whose contract is the theorem.

ghost use Rattle.ada_tracked.specs.Example.{PremisesAreMet};
ghost use Rattle.ada_tracked.specs.Law.{TrackedComponentsRunAsVariables};
ghost use Rattle.ada_tracked.specs.Staying.{SimpleBodiesStaySimple};

/// While the body of an operation runs whose formal parameter has tracked components (7.6), the state in which each of them is a
/// variable, and in whose heap they hold null, takes the same steps: the same is asked of storage and told to it, the same is
/// shown but that the object of the formal parameter is followed, and the run ends as it does. Variables and components may name
/// that object; the body looks at it by the formal parameter alone, copies and stores none of its tracked components with a record,
/// and assigns no record with controlled parts.
pub fn tracked_components_run_as_variables()
    ensures { TrackedComponentsRunAsVariables }
{}

/// What is left to do of a body is of the forms of which that law speaks, up to the end of its call, and each step leaves it so that
/// assigns no record with controlled parts; only what is done to the controlled parts of an object (7.6) may come before it then.
pub fn simple_bodies_stay_simple()
    ensures { SimpleBodiesStaySimple }
{}

/// The premises are met: a body reads a tracked component of its formal parameter that names another object, assigns to it, or
/// copies a record out of its object, or stores one there, beside such a component, and meets them again behind that step.
pub fn premises_are_met()
    ensures { PremisesAreMet }
{}
