//! Laws of fronts, by the definitions alone. Each is a function that does nothing, and whose contract is the theorem.

ghost use Rattle.ada_front.specs.Example.{IsOverBefore, LeavesWhatStandsBefore};
ghost use Rattle.ada_front.specs.Laws.{KeepsWhatIsOver, TreesAreInOrder, WholeBehind};

/// Where the fault stands behind all of a unit, its front is the unit itself, but for the name behind its `end`.
pub fn nothing_is_lost_behind()
    ensures { WholeBehind }
{}

/// Of a unit with a fault in a loop of a procedure the front is what stands before it: no operation whose body stands behind it, nothing
/// behind the fault, and not the statement with the fault.
pub fn nothing_behind_is_left()
    ensures { LeavesWhatStandsBefore }
{}

/// The simple declarations and statements of the front of a unit are those of the unit that are over by the fault: behind each of them something
/// else has begun. They stay as they were and in their order, and none that the fault lies in, or that begins behind it. With an example.
pub fn what_is_over_stays()
    ensures law { KeepsWhatIsOver }
    ensures example { IsOverBefore }
{}

/// The unit of a source is in the order of its text: what it has begins no earlier than what stands in front of it. So the law above speaks of
/// each unit that is read from a source.
pub fn trees_are_in_order()
    ensures { TreesAreInOrder }
{}
