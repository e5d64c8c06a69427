//! The laws of operations inside of each other. Each is a function that does nothing, and whose contract is the theorem.

ghost use Rattle.ada_inside.specs.Example.{PremiseIsNeeded, PremisesAreMet};
ghost use Rattle.ada_inside.specs.Law.{NestedValuesExist, OperationsNestInside, StepsNestInside};

/// Where operations assign to records with controlled parts at hand alone, and so does what they call, a step keeps each operation that
/// runs, and each treatment, inside of all operations of its object behind it.
pub fn steps_nest_inside()
    ensures { StepsNestInside }
{}

/// So it is in each state of a run, to any depth.
pub fn operations_nest_inside()
    ensures { OperationsNestInside }
{}

/// So each value that is finalized there exists, whichever operations of the object run.
pub fn nested_values_exist()
    ensures { NestedValuesExist }
{}

/// The premises are met: an Initialize assigns to a component of its formal parameter, whose Finalize assigns to a component of its own.
pub fn premises_are_met()
    ensures { PremisesAreMet }
{}

/// They are needed: where a Finalize assigns to its formal parameter as a whole, that is not inside of it.
pub fn premise_is_needed()
    ensures { PremiseIsNeeded }
{}
