//! The laws of storage. Each is a function that does nothing, and whose contract is the theorem. Those of statements speak of
//! bodies that track no components (`untracked`), as all are but those of an Adjust of a type that declares components of
//! access types.

ghost use Rattle.ada_flow.specs.Parts.{DepthsAreEnough};
ghost use Rattle.ada_program.specs.declared.program.Program.{Program};
ghost use Rattle.ada_meaning.specs.declared.event.Why.{Why};
ghost use Rattle.ada_meaning.specs.declared.event.Why.TheVariants.{FollowsGone, EndsTwice, GivesElsewhere};
ghost use Rattle.ada_meaning.specs.Law.{BackTwoObjects, FinalizedTwoValues, FollowedBeforeBack, InReverseOrder};
ghost use Rattle.ada_meaning.specs.Safe.{Safe};
ghost use Rattle.ada_sound.specs.Agreement.{OneFlow};
ghost use Rattle.ada_sound.specs.Always as always;
ghost use Rattle.ada_sound.specs.Always.{IsChecked, NeverErroneous, AgreesWithFlow, EndsClean};
ghost use Rattle.ada_sound.specs.Owners as owners;
ghost use Rattle.ada_sound.specs.Callees as callees;
ghost use Rattle.ada_sound.specs.ImplicitCalls as implicit_calls;

/// In every run of a program that is accepted, wherever a statement begins, in the main procedure's body or in that of one
/// that is called, flow comes to what is left to do in that body, and each of its variables holds what flow says of it:
/// null, or null or an object that exists; and a record object that flow does not call lost is there. So it is while an
/// operation of a controlled type runs, too, but in the body of one that touches Integers and Booleans alone, or of a
/// procedure that does, and in that of an Adjust of a type that declares components of access types. Components of
/// objects in their collections hold null, or name objects that exist. No object has two owners among variables and
/// components, but for a component that the statement sets to null. While such an operation runs for a member of a
/// collection that is being left, so it is in the state, or in one that stands for it, in which what has gone with that
/// collection, or with a newer one, exists still (7.6.1). The words of each object that exists are out, and so its
/// collection is open. A way through the statements leads to one place, and flow says one thing there.
pub fn flow_invariant()
    ensures agrees { (program : Program) → IsChecked program → AgreesWithFlow program }
    ensures one_flow { OneFlow }
{}

/// No access value is followed whose object is gone (13.11.2).
pub fn never_follows_gone()
    ensures { (program : Program) → IsChecked program → NeverErroneous FollowsGone program }
{}

/// No object ends twice, and no words go back twice (13.11.2).
pub fn never_ends_twice()
    ensures { (program : Program) → IsChecked program → NeverErroneous EndsTwice program }
{}

/// No words go back to another pool than the object's own (13.11.2): what is freed goes back to the pool of the
/// collection in which it was allocated, also where a program declares pools.
pub fn never_gives_elsewhere()
    ensures { (program : Program) → IsChecked program → NeverErroneous GivesElsewhere program }
{}

/// No run comes to an erroneous action of any kind: nothing is followed that is gone, nothing ends twice, no words go
/// back elsewhere, and no controlled value is finalized that does not exist (7.6.1, 13.11.2).
pub fn never_erroneous()
    ensures { (program : Program) → IsChecked program → (why : Why) → NeverErroneous why program }
{}

/// The words of an object go back at most once (13.11.2).
pub fn words_go_back_once()
    ensures { always.InEveryCheckedRun (always.InPairs BackTwoObjects) }
{}

/// A controlled value is finalized at most once (7.6.1). So it is in any program, whether or not it is accepted.
pub fn finalized_once()
    ensures { always.InEveryCheckedRun (always.InPairs FinalizedTwoValues) }
{}

/// Nothing is followed after its words went back (13.11.2), whatever a step itself tests.
pub fn nothing_is_followed_after_back()
    ensures { always.InEveryCheckedRun (always.InPairs FollowedBeforeBack) }
{}

/// At the leaving of a master, what was created later goes earlier (7.6.1).
pub fn leaves_in_reverse()
    ensures { always.InEveryCheckedRun (always.InPairs InReverseOrder) }
{}

/// Words go back to the pool that they came from, and at a leaving with the item that is the object's home (13.11,
/// 7.6.1).
pub fn words_go_back_home()
    ensures { always.InEveryCheckedRun always.BacksGoHome }
{}

/// The words of an object are back exactly where an event says so.
pub fn words_are_back_where_told()
    ensures { always.InEveryCheckedRun always.BacksAreTold }
{}

/// Numbers fall along the masters that are entered, and along their items: what was created later has a greater one.
pub fn numbers_fall()
    ensures items { always.InEveryCheckedRun always.ItemNumbersFall }
    ensures masters { always.InEveryCheckedRun always.MasterNumbersFall }
{}

/// As long as the words of an object are out, its home is an item of a master that is entered (7.6.1): so they are back
/// once that one has been left. And the object is from the pool of that item (13.11).
pub fn objects_are_housed()
    ensures { always.InEveryCheckedRun always.OutsAreHoused }
{}

/// As long as the words of an object are out, its pool exists (13.11): so a declared pool is gone only once the words of
/// all its objects are back.
pub fn pools_outlast_their_objects()
    ensures { always.InEveryCheckedRun always.OutsHavePools }
{}

/// No two pools that exist have one number, and none of those that are declared has that of the standard pool (13.11).
pub fn pools_differ()
    ensures { always.InEveryCheckedRun always.PoolNumbersDiffer }
{}

/// Where a run has come to its end, finished or by an exception that left the main procedure, no master is left over,
/// and the words of each object are back.
pub fn ends_clean()
    ensures { (program : Program) → IsChecked program → EndsClean program }
{}

/// A program that is accepted is safe: in every run, whatever its input and whatever is granted and picked, no action
/// is erroneous, the laws of storage and of finalization are kept, and where it ends everything is left and back.
pub fn rules_imply_safety()
    ensures { (program : Program) → IsChecked program → Safe program }
{}

/// The rules let Free through only where the variable owns what it names, or holds null (13.11.2); it owns nothing
/// after.
pub fn only_owners_are_freed()
    ensures owner { owners.OnlyOwnersAreFreed }
    ensures nothing_after { owners.FreedOwnsNothing }
{}

/// Behind a Free that the rules let through no variable of the same access type relies on the value of another
/// (13.11.2): whoever borrowed the object that is gone follows it no more. Where Free raises an exception, as little is
/// said.
pub fn free_leaves_no_alias()
    ensures behind { owners.FreeLeavesNoAlias }
    ensures where_raised { owners.RaisedFreeLeavesNoAlias }
{}

/// The rules let a component be freed only where the path to it follows no value of the component's own access type, and
/// begins with none that is lost: so what is freed is no object on the way, and the component is there to become null.
pub fn frees_lie_off_the_way()
    ensures own_type { owners.FreedLiesOffItsWay }
    ensures lost_is_refused { owners.LostIsNotFreedBehind }
{}

/// The rules let an assignment move only what its right side owns, or null (5.2); the right side owns nothing after. An
/// assignment to a borrower moves nothing.
pub fn only_owners_are_moved()
    ensures owner { owners.OnlyOwnersAreMoved }
    ensures nothing_after { owners.MovedOwnsNothing }
{}

/// The rules let an allocator move what a variable owns, or null, and what the component holds that the new object goes
/// to, each once (4.8). The variables own nothing after; where it raises an exception, they are what they were. Without
/// items it moves nothing: each other variable holds what it did, but that an alias is lost of an access type of which the
/// operations that initialize the new object may free an object (7.6); so it is where it raises an exception.
pub fn only_owners_are_items()
    ensures owner { owners.OnlyOwnersAreItems }
    ensures once { owners.ItemsMoveApart }
    ensures nothing_after { owners.ItemsOwnNothing }
    ensures unchanged_where_raised { owners.ItemsStayWhereRaised }
    ensures nothing_by_default { owners.DefaultsMoveNothing }
    ensures default_unchanged_where_raised { owners.DefaultsStayWhereRaised }
{}

/// The rules let an assignment of a component's value move it only where the next statement sets that component to null,
/// and where the target is not on the way to it (5.2).
pub fn only_pairs_take()
    ensures pair { owners.OnlyPairsTake }
    ensures is_one { owners.PairsAreTakePairs }
{}

/// Where no type that declares components of access types has an Adjust of its own (7.6), the rules let a record be
/// assigned or declared by its value, or be copied as an item of an aggregate, only where none of its elementary
/// components is of an access type, at any depth (3.3.1, 4.3.1, 4.8, 5.2). So an assignment of a record moves nothing:
/// each variable holds what it did, also where it raises an exception, but that an alias is lost of an access type of
/// which the operations that finalize and adjust the record may free an object (7.6).
pub fn records_are_copied_plain()
    ensures assigned { owners.AssignedRecordsArePlain }
    ensures assigned_items { owners.AssignedItemsArePlain }
    ensures allocated { owners.CopiedItemsArePlain }
    ensures declared { owners.DeclaredRecordsArePlain }
    ensures moves_nothing { owners.CopiesMoveNothing }
    ensures unchanged_where_raised { owners.CopiesStayWhereRaised }
{}

/// A borrower takes part in no ownership (3.10). An assignment to it, and its declaration, leave what each other
/// variable holds as it was; it owns nothing of what it gets; and the rules let it borrow nothing that is lost, or is
/// found behind what is lost.
pub fn borrowers_only_borrow()
    ensures moves_nothing { owners.BorrowersMoveNothing }
    ensures owns_nothing { owners.BorrowersOwnNothing }
    ensures moves_nothing_declared { owners.DeclaredBorrowersMoveNothing }
    ensures owns_nothing_declared { owners.DeclaredBorrowersOwnNothing }
    ensures lost_is_refused { owners.LostIsNotBorrowed }
{}

/// A call leaves what the caller's variables own and borrow as it is (6.4), but for two things. Aliases of an access type
/// of which the procedure may free an object (13.11.2) are lost behind the call, and where it raises an exception. And a
/// variable that is given for a formal parameter of mode `in out` of an access type is handed over (6.4.1): it is an
/// owner, or null, and behind the call it owns what comes back. Where the call raises an exception, nothing comes back:
/// the variable owns nothing, unless the procedure keeps the parameter, and then it holds what it did. So where a call
/// ends normally, each variable that owned something before owns something after.
pub fn calls_forget_aliases()
    ensures no_alias { callees.CallLeavesNoAlias }
    ensures no_alias_where_raised { callees.RaisedCallLeavesNoAlias }
    ensures owners_stay { callees.CallMovesNothing }
    ensures owners_stay_where_raised { callees.RaisedCallMovesNothing }
    ensures only_owners { callees.OnlyOwnersAreHandedOver }
    ensures handed_back { callees.CallHandsBack }
    ensures unkept { callees.UnkeptOwnNothing }
    ensures others_stay { callees.CallKeepsOthers }
    ensures others_stay_where_raised { callees.RaisedCallKeepsOthers }
{}

/// No actual parameter follows a value that is lost, compares it with null, lends it to a formal parameter, hands it over
/// to one, or passes what lies behind it (4.1, 4.5.2, 6.4.1): such a call breaks a rule. That is the rule of lost values,
/// where no two actual parameters begin with one variable of which one is for mode `in out`, no alias is handed over, and
/// all is passed safely.
pub fn lost_is_no_actual()
    ensures { callees.LostIsNoActual }
{}

/// Where a call breaks no rule, no two actual parameters begin with one variable of which one is for mode `in out` (6.4.1):
/// so none gets two values back, and none is lent and handed over at once.
pub fn one_variable_each()
    ensures { callees.NoneIsGivenTwice }
{}

/// Where a call breaks no rule, the records that it passes by reference, and the components that get something back behind
/// it, lie in no object of an access type of which it may free objects, nor behind one (6.2, 6.4.1); and no component that
/// owns what it names is given for mode `in out`.
pub fn calls_spare_what_they_pass()
    ensures { callees.CallsSpareWhatTheyPass }
{}

/// Effects cover what calls do, in every run of a checked program (6.4): what is freed while the body of a procedure runs,
/// or waits for one that it called, is of an access type that is known of its calls; and an exception that leaves the body is
/// one that is known of them, too.
pub fn effects_cover_calls()
    ensures frees { (program : Program) → IsChecked program → callees.FreesAreCovered program }
    ensures raises { (program : Program) → IsChecked program → callees.RaisesAreCovered program }
{}

/// Where operations of controlled types are called implicitly that may free objects of an access type (7.6), no variable of
/// that type relies on the value of another behind it, nor where an exception is raised there: behind a Free, which
/// finalizes what it frees (13.11.2); behind a block, which finalizes the record objects that it declares, and the objects
/// of its collections (7.6.1); behind the declaration of a record object, which is initialized or adjusted; and behind that
/// of a variable with a new object, which is initialized (4.8). At an exit out of such a block (5.7) a variable that relies
/// on another at the start of the loop is null. And a Free and a block are let through which lose an alias.
pub fn implicit_calls_leave_no_alias()
    ensures freed { implicit_calls.FinalizedFreeLeavesNoAlias }
    ensures block { implicit_calls.EndedBlockLeavesNoAlias }
    ensures exit { implicit_calls.ExitsLeaveNoAlias }
    ensures declared_record { implicit_calls.DeclaredRecordLeavesNoAlias }
    ensures declared_object { implicit_calls.DeclaredObjectLeavesNoAlias }
    ensures freed_example { implicit_calls.FreeLosesAnAlias }
    ensures block_example { implicit_calls.BlockLosesAnAlias }
{}

/// What is found before operations of controlled types are called implicitly (7.6), and needed behind them, lies in no
/// object of an access type of which they may free objects, nor behind one: a component that gets a new object, which is
/// initialized before (4.8); a record that gets another value, and the one that is copied, while the record is finalized
/// and adjusted (5.2, 7.6); and a component that is freed, whose object is finalized before (13.11.2) by operations that may
/// free such objects, or follow them. And one statement is let through of which this is asked, and another one is refused.
pub fn implicit_calls_spare_what_waits()
    ensures new_object { implicit_calls.StartsSpareTheTarget }
    ensures assigned { implicit_calls.AssignmentsSpareTheTarget }
    ensures copied { implicit_calls.AssignmentsSpareTheSource }
    ensures freed { implicit_calls.FreesSpareTheWay }
    ensures let_through { implicit_calls.StartSparesTheTarget }
    ensures refused { implicit_calls.StartIsRefused }
{}

/// A component of a record parameter's own is freed only where its finalization comes to no object in which the parameter may
/// lie (6.2, 7.6, 13.11.2): it frees and follows no value of an access type whose objects are of the parameter's record type,
/// or have a part of it, however deep. Where this is so, the path follows no value of the component's own access type or of one
/// that the finalization reaches, and begins with none that is lost, the Free is let through. Record parameters are known as
/// another's where their body begins, and record objects as their own where they are declared. Two such statements are
/// refused, and three are let through: where no object that is reached has such a part, where the record is an object of its
/// own, and where the path follows a value.
pub fn frees_spare_record_parameters()
    ensures freed { implicit_calls.FreesSpareTheFormal }
    ensures no_more { implicit_calls.SafeFreesAreLetThrough }
    ensures depths { DepthsAreEnough }
    ensures formals { implicit_calls.FormalsAreAnothers }
    ensures declared { implicit_calls.DeclaredRecordsAreTheirOwn }
    ensures refused { implicit_calls.FormalIsRefused }
    ensures refused_around { implicit_calls.BoxedFormalIsRefused }
    ensures let_through { implicit_calls.OtherFormalIsSpared }
    ensures object { implicit_calls.RecordObjectIsSpared }
    ensures followed { implicit_calls.FollowedPathIsSpared }
{}
