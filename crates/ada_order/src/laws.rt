//! The laws of masters. Each is a function that does nothing, and whose contract is the theorem.

ghost use Rattle.ada_order.specs.Example.{BlocksAreLeft, BodyIsLeft, InnerIsLeft, PoolsAreLeft, PoolsAreOpen, ReturnLeavesBody};
ghost use Rattle.ada_order.specs.Masters.{LeavesInReverse, InnerFirst, LeftOnce, NothingAfterLeft};
ghost use Rattle.ada_order.specs.Masters.{ItemNumbersFall, MasterNumbersFall, EnteredBelowNext};
ghost use Rattle.ada_order.specs.Masters.{PoolsAreTaken, PoolsAreTold, PoolsDiffer, PoolsLast};
ghost use Rattle.ada_order.specs.Requests.{RequestsAreForObjects};

/// At the leaving of a master, what was created later goes earlier (7.6.1).
pub fn leaves_in_reverse()
    ensures { LeavesInReverse }
{}

/// What goes at the leaving of a master goes while that is the innermost one, and so it is left: each that was entered
/// later has been left before (7.6.1).
pub fn inner_first()
    ensures { InnerFirst }
{}

/// Numbers fall along the masters that are entered, and along their items: what was created later has a greater one. The
/// number that the next master gets is above those of all masters that are entered.
pub fn numbers_fall()
    ensures items { ItemNumbersFall }
    ensures masters { MasterNumbersFall }
    ensures next { EnteredBelowNext }
{}

/// A master is left once, and once it has been left nothing goes at its leaving any more (7.6.1).
pub fn masters_are_left_once()
    ensures once { LeftOnce }
    ensures nothing_after { NothingAfterLeft }
{}

/// A collection that is open has the pool of its access type, if it has one: that is there as long as the collection, since
/// it was created before and so goes later (13.11, 7.6.1). It has none only where none had been created for its type.
pub fn pools_last()
    ensures last { PoolsLast }
    ensures taken { PoolsAreTaken }
{}

/// Declared pools that exist have different numbers, and none has 0, which is the number of the standard pool (13.11).
pub fn pools_differ()
    ensures { PoolsDiffer }
{}

/// As long as a master is entered, a declared pool begins and is gone exactly where a request says so: the one that begins
/// is of that declaration, under one more than how many exist, and the one that is gone is the newest. So the pools that
/// were told to begin and not to be gone are those that exist (13.11).
pub fn pools_are_told()
    ensures { PoolsAreTold }
{}

/// Words go out from a pool only for the new object for which it was asked, and that pool is the one of the newest open
/// collection of the object's access type; they go back where the pool is told of just that object, and the event shows
/// it (4.8, 13.11, 13.11.2). It is so at each step from any state, whether or not a run leads there.
pub fn requests_are_for_objects()
    ensures { RequestsAreForObjects }
{}

/// The laws are not empty: a return leaves two blocks, one in the other, with the objects of three collections, after
/// another block was left; and of its steps one leaves the inner block while the outer one and the main procedure are
/// entered. And a return from a block in a procedure leaves that block and the procedure's body, and no master of the
/// caller (6.5). Two blocks, one in the other, have a pool each, and their objects go back to these, and that of a third
/// access type to the standard pool (13.11).
pub fn premises_are_met()
    ensures run { BlocksAreLeft }
    ensures step { InnerIsLeft }
    ensures call { ReturnLeavesBody }
    ensures call_step { BodyIsLeft }
    ensures pools { PoolsAreOpen }
    ensures pools_left { PoolsAreLeft }
{}
