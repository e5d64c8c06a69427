//! The laws of finalization. Each is a function that does nothing, and whose contract is the theorem.

ghost use Rattle.ada_storage.specs.Example.{AnInitializeRaises, FreeWaitsForAssignments, MastersNest};
ghost use Rattle.ada_storage.specs.Law.{AllBack, BornBefore, FinalizedByLeaving, FinalizedOnce, LeavesInReverse};
ghost use Rattle.ada_storage.specs.Law.{MastersFall, NeverErroneous, NothingAfterBack, PartsFirst, RollbacksReverse, WholesFirst};

/// A controlled value is finalized at most once, only after it came to exist, and at the latest as the master of its
/// object is left (7.6.1).
pub fn values_are_finalized_once()
    ensures once { FinalizedOnce }
    ensures born { BornBefore }
    ensures by_leaving { FinalizedByLeaving }
{}

/// Nothing that does not exist is finalized (13.11.2).
pub fn never_erroneous()
    ensures { NeverErroneous }
{}

/// The words of an object go back once, after all that is finalized of it; where nothing is under way any more, all are
/// back (7.6.1, 13.11.2).
pub fn words_go_back_last()
    ensures last { NothingAfterBack }
    ensures all { AllBack }
{}

/// Masters are left inner first, and at the leaving of one what was created later goes earlier (7.6.1).
pub fn masters_are_left_in_order()
    ensures inner_first { MastersFall }
    ensures in_reverse { LeavesInReverse }
{}

/// With an object, the parts that lie in a part come to exist before it (7.6). A whole is finalized before its parts, and where
/// an Initialize raised an exception, what was initialized is finalized in reverse order (7.6.1).
pub fn parts_go_in_order()
    ensures parts_first { PartsFirst }
    ensures wholes_first { WholesFirst }
    ensures rollbacks { RollbacksReverse }
{}

/// The laws are not empty: there is a run in which an Initialize raises an exception, and one in which two masters, with
/// parts inside parts, an assignment, a Free and an exception come to their ends.
pub fn premises_are_met()
    ensures rollback { AnInitializeRaises }
    ensures nested { MastersNest }
{}

/// One condition of Free is needed: if an object could be freed while it is assigned to, a value would be finalized that
/// does not exist.
pub fn free_waits_for_assignments()
    ensures { FreeWaitsForAssignments }
{}
