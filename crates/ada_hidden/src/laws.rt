//! The laws of a body that has been called, while components of an object are hidden. Each is a function that does nothing, and
//! whose contract is the theorem.

ghost use Rattle.ada_hidden.specs.Example.{PremisesAreMet, PremisesAreNeeded};
ghost use Rattle.ada_hidden.specs.Law.{StepsAreTheSame};

/// Where a body runs that has been called, and its step neither looks at a hidden component nor writes one, the step does the same in a
/// state in which they hold null and something else waits for the end of the call: the same is asked of storage and told to it, and
/// the same is shown. Behind it both states stand in front of what waits, as they did, and differ in nothing but the hidden components.
pub fn steps_are_the_same()
    ensures { StepsAreTheSame }
{}

/// The premises are met: a body follows a component beside a hidden one, which names something in the one state, while something else
/// waits in the other.
pub fn premises_are_met()
    ensures { PremisesAreMet }
{}

/// They are needed: where a body reads a hidden component, it finds something else in it; what it writes there stays in both states; and
/// where the object is not there yet, it may be created, and nothing of it is hidden then.
pub fn premises_are_needed()
    ensures { PremisesAreNeeded }
{}
