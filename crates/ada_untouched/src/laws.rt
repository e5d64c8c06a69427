//! The laws of what a step does not touch, or does not write. Each is a function that does nothing, and whose contract is the
//! theorem.

ghost use Rattle.ada_untouched.specs.Example.{PremisesAreMet, PremiseIsNeeded, WritesBeside, RecordsAreCopiedBeside, PastObjectsDiffer};
ghost use Rattle.ada_untouched.specs.Law.{UntouchedPartsDoNotMatter, HiddenPartsStay, PastObjectsDoNotMatter, PastObjectsWeighNothing, ForgettingChangesPastAlone};

/// Where a step looks neither at a hidden component nor at a ghost, a state that is alike but for these takes the same step: the
/// same is asked of storage and told to it, the same is shown, and the states behind it are alike again, or both end so. No ghost is
/// followed, and the words of none go back.
pub fn untouched_parts_do_not_matter()
    ensures { UntouchedPartsDoNotMatter }
{}

/// The premises are met: a path is followed beside a component that holds something else, and beside an object that is gone
/// in one of the two states.
pub fn premises_are_met()
    ensures { PremisesAreMet }
{}

/// The premise is needed: where a step looks at a ghost, one state may go on and the other end there; and where it looks at a
/// hidden component, the states behind it may not be alike.
pub fn premise_is_needed()
    ensures { PremiseIsNeeded }
{}

/// Where a step writes no hidden component, each hidden component of an object holds behind it what it held before, whatever is
/// answered.
pub fn hidden_parts_stay()
    ensures { HiddenPartsStay }
{}

/// This premise is met: a step writes a component beside a hidden one of the same object, and leaves something else in it. And it
/// is needed: a step that writes a hidden component leaves something else there.
pub fn writes_beside()
    ensures { WritesBeside }
{}

/// The premises of both laws are met where a record is copied over another one as a whole: two states that differ in a hidden
/// component beside it, in the same object, and in a ghost, take the same three steps. The hidden component stays in each, a
/// component of the record changes, and behind each step the states are alike again.
pub fn copies_beside()
    ensures { RecordsAreCopiedBeside }
{}

/// What lies in an object that is gone, and whose storage is back, does not matter to any step: a state in which something else
/// lies there takes the same step, and the states behind it differ in nothing else again.
pub fn past_objects_do_not_matter()
    ensures { PastObjectsDoNotMatter }
{}

/// Nor does it matter to how many steps may follow before a statement begins.
pub fn past_objects_weigh_nothing()
    ensures { PastObjectsWeighNothing }
{}

/// So a machine may forget such an object at any time.
pub fn forgetting_changes_past_objects_alone()
    ensures { ForgettingChangesPastAlone }
{}

/// Two states differ so: a path is followed to such an object, and it is found gone in both, whatever lies in it. And that its
/// storage is back is needed: of an object that is gone, but whose storage is not yet back, something else may be told as it
/// goes back.
pub fn past_objects_differ()
    ensures { PastObjectsDiffer }
{}
