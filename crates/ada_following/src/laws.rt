//! The runs of programs follow storage. Each function does nothing, and its contract is the theorem.

ghost use Rattle.ada_following.specs.Example.{AControlledObjectIsFollowed, AnAssignmentIsFollowed};
ghost use Rattle.ada_following.specs.Example.{AnUndoneObjectIsFollowed, BlocksAreFollowed};
ghost use Rattle.ada_following.specs.Law.{RunsFollowStorage, RunsAreShown};
ghost use Rattle.ada_following.specs.Law.{NothingAfterBack, LeavesInReverse, FinalizedOnce, BornBefore};
ghost use Rattle.ada_following.specs.Law.{FinalizedByBack, AllFinalized};
ghost use Rattle.ada_following.specs.Law.{AllBack, HasOnePlace, MastersFall};

/// Every run of every program is followed by storage: each of its steps is some steps of storage that show nothing, and then at
/// most one that shows the same event.
pub fn runs_follow_storage()
    ensures follow { RunsFollowStorage }
    ensures shown { RunsAreShown }
{}

/// The words of an object go back once, and nothing of it comes after that (13.11.2).
pub fn nothing_after_back()
    ensures { NothingAfterBack }
{}

/// At the leaving of one master, what was created later goes earlier (7.6.1).
pub fn leaves_in_reverse()
    ensures { LeavesInReverse }
{}

/// A controlled value is finalized at most once, and only after it came to exist (7.6.1).
pub fn values_are_finalized_once()
    ensures once { FinalizedOnce }
    ensures born { BornBefore }
{}

/// A controlled value that came to exist has been finalized where the words of its object are back, and each has been where a run
/// has come to its end (7.6.1, 13.11.2).
pub fn values_end()
    ensures back { FinalizedByBack }
    ensures all { AllFinalized }
{}

/// Where a run has come to its end, each master has been left and the words of each object are back. In each state of a run an object whose words are out has
/// one place: an item of a master that is entered, or a collection of one; or it is being ended (7.6.1, 13.11.2).
pub fn words_go_back()
    ensures all { AllBack }
    ensures place { HasOnePlace }
{}

/// Numbers fall along the masters that are entered, and only the innermost is being left (7.6.1).
pub fn masters_fall()
    ensures { MastersFall }
{}

/// The laws are not empty: a run of a program with two blocks, one in the other, and objects of three collections is followed
/// to its end.
pub fn blocks_are_followed()
    ensures { BlocksAreFollowed }
{}

/// Nor are those of values: a run of a program with a controlled object is followed, which is initialized and finalized.
pub fn a_controlled_object_is_followed()
    ensures { AControlledObjectIsFollowed }
{}

/// Nor are those of assignments: a run of a program is followed that assigns one controlled object to another.
pub fn an_assignment_is_followed()
    ensures { AnAssignmentIsFollowed }
{}

/// Nor are those of operations: a run of a program is followed in which an Initialize raises an exception, so that its object is
/// undone.
pub fn an_undone_object_is_followed()
    ensures { AnUndoneObjectIsFollowed }
{}
