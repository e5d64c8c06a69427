//! The laws of reaching. Each is a function that does nothing, and whose contract is the theorem.

ghost use Rattle.ada_reach.specs.Law.{IsTransitive, EdgesAreFollowed, AnEdgeComesFirst};
ghost use Rattle.ada_reach.specs.Law.{HasItsStarts, NoEdgeLeaves, IsTheLeast, MoreStartsReachMore};
ghost use Rattle.ada_reach.specs.Example.{LastIsReached, OutsideIsNotReached, IsACycle, OnlyTheFirstStarts, ASetIsClosed};

/// What is reached from what is reached is reached. An edge may be put in front as well as behind.
pub fn reaching_goes_on()
    ensures transitive { IsTransitive }
    ensures edges { EdgesAreFollowed }
    ensures first { AnEdgeComesFirst }
{}

/// What is reached is the least set that has the starts and that no edge leaves.
pub fn reached_is_least()
    ensures starts { HasItsStarts }
    ensures closed { NoEdgeLeaves }
    ensures least { IsTheLeast }
{}

/// More starts reach more.
pub fn more_starts_reach_more()
    ensures { MoreStartsReachMore }
{}

/// The laws are not empty: behind a cycle a node is reached that is no start, and another node is not reached.
pub fn neither_all_nor_starts()
    ensures cycle { IsACycle }
    ensures reached { LastIsReached }
    ensures no_start { OnlyTheFirstStarts }
    ensures not_reached { OutsideIsNotReached }
    ensures premises { ASetIsClosed }
{}
