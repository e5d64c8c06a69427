//! Beside the laws, programs that show of each rule that it is needed.

ghost use Rattle.std.specs.Prelude.{◌≡◌, [], ◌∷◌};
ghost use Rattle.ada_program.specs.declared.program.Program.{Program};
ghost use Rattle.ada_program.specs.Controlled.{operations_of};
ghost use Rattle.ada_program.specs.Form.{declaration_forms, stmt_forms, handler_forms};
ghost use Rattle.ada_program.specs.ProgramForm.{body_forms};
ghost use Rattle.ada_flow.specs.declared.rule.Hold.TheVariants.{Null};
ghost use Rattle.ada_flow.specs.declared.rule.Rule.TheVariants.{LostValue, AliasMoved, TakePair, LoopState, UnsafePath, FormalNotOwned, RecordCopied};
ghost use Rattle.ada_program.specs.declared.program.Exception.TheVariants.{ConstraintError};
ghost use Rattle.ada_meaning.specs.declared.event.Halt.TheVariants.{Escaped, Erroneous};
ghost use Rattle.ada_meaning.specs.declared.event.Why.TheVariants.{FollowsGone, EndsTwice, GivesElsewhere, FinalizesTwice};
ghost use Rattle.ada_sound.specs.Always as always;
ghost use Rattle.ada_sound.specs.Always.{HaltsSomewhere};
ghost use Rattle.ada_sound.specs.Examples as examples;
ghost use Rattle.ada_sound.specs.BorrowerExamples as borrower_examples;
ghost use Rattle.ada_sound.specs.FreeExamples as free_examples;
ghost use Rattle.ada_sound.specs.OwnerExamples as owner_examples;
ghost use Rattle.ada_sound.specs.RecordExamples as record_examples;
ghost use Rattle.ada_sound.specs.CallExamples as call_examples;
ghost use Rattle.ada_sound.specs.PoolExamples as pool_examples;
ghost use Rattle.ada_sound.specs.OperationExamples as operation_examples;
ghost use Rattle.ada_sound.specs.CrossingExample as crossing_example;

/// The rules are needed. Of programs that are well formed, whose collections nest, and where each Free is by the
/// instance for the access type of what it frees, one that breaks the rules follows an access value whose object is
/// gone, and one ends an object twice. So is the rule of loops: of a program that breaks it at the end of a loop's
/// body, an object is freed in one turn and followed in the next one; of a program that breaks it at an exit, it is
/// followed behind the loop. A handler begins with what is known where the exception is raised: by what is known where
/// its statements begin, or where they end, a program's handler would be fine, yet it follows what is gone. It would
/// follow it, too, if what an operator may raise did not count: `-` raises, of the first Integer (4.5); or if what the
/// body of a procedure may raise did not count where it is called (6.4, 11.4). Behind a block its collections are gone,
/// also where an exit leaves it: of a program whose outer variable names an object of one of them, that object is
/// followed there. To assign to a component follows the value before it (4.1, 5.2): a lost one would reach into an
/// object that is gone. A value is moved out of a component by a take pair: else both name an object that only one of
/// them frees. And two items of an allocator move two paths: else two components name one object, which ends twice.
/// Behind Free a borrower of the same access type is lost: else it follows the object that is gone. And the target of a
/// take pair is not on the way to what is taken: else the statement that is to clear the component clears another one,
/// and a borrower that still names the object takes the value out of it once more. The path of a component to be freed
/// does not pass the component's own access type: else it may free the object in which that component lies, which is
/// gone where the component is to become null. And of components an item moves the one alone that the new object goes
/// to: else two of them name one object, which one gives to a variable that frees it, and the other one is followed.
/// And a record with a component of an access type that no Adjust sees to is not copied: else a component of the copy
/// names the same object, which is freed by way of one record and followed by way of the other.
///
/// So are the rules of calls. At a normal end of its body a procedure gives back only what its formal parameters own:
/// else two variables get one object back, and each of them frees it. It does not move what is only lent to it: else it
/// gives the object to a second variable, and both free it. No variable is handed over for two formal parameters: else
/// the body follows by way of the one what it has freed by way of the other. And where an exception leaves a procedure
/// that frees what was handed over to it, the variable is lost: else the handler follows the object that is gone. No record
/// is passed, and no component is given for mode `in out`, that lies in an object which the procedure may free: else the
/// body changes a record that is gone, or a component that is gone is to get its value back. And no component that owns
/// what it names is handed over: else it names what a procedure frees that an exception leaves, and the handler follows it.
///
/// So are the other premises. A variable relies
/// on values of its own access type alone: of a program that is not well formed, one of another type names what goes with a block.
/// And components name what lasts as long as their objects: of a program whose collections do not nest, an object
/// outlasts what its component names. And a Free is by the instance for the access type of what it frees (13.11.2): of
/// a program with two declared pools where it is by that for another access type, the words of an object are to go
/// back to the pool of the other one. And where an object ends, none of its own access type is used (`SparesOwn`): the
/// objects of a collection are finalized in any order (7.6.1), so a Finalize that frees what a component of its object
/// names may find it gone, and finalizes it twice; that breaks S8.
/// And what is freed or followed there is in collections that were created before its own (`SparesNewer`): a newer
/// collection goes before an older one, so a Finalize that frees what a component of its object names there frees what is
/// gone, and one that only follows it comes to an object that is gone; both break S8, and keep `SparesOwn`.
/// And where an object is adjusted, no value of its own access type is followed (`SparesAdjusted`): an Adjust
/// that follows a component to the very object that is adjusted frees there what the copy shares with the record that was
/// copied, and behind the assignment that is followed by way of this record; that breaks S8, and nothing else. And operations
/// are in use: a Finalize that assigns to its formal parameter as a whole finalizes that twice.
/// And no exception comes out where a record is finalized (`LetsNothingOut`, S9): a record object whose Finalize raises
/// `Constraint_Error`, and handles nothing, is finalized where the main procedure is left, and the exception would leave that
/// Finalize (7.6.1), which is no safe end of a run.
pub fn rules_are_needed()
    ensures follows { (program : Program) × always.Breaks LostValue program × HaltsSomewhere (Erroneous FollowsGone) program }
    ensures ends { (program : Program) × always.Breaks LostValue program × HaltsSomewhere (Erroneous EndsTwice) program }
    ensures loops { (program : Program) × (stmt_forms program ≡ examples.losing_stmts)
        × always.Breaks LoopState program × always.HaltsAfter examples.losing_events (Erroneous FollowsGone) program }
    ensures exits { (program : Program) × (stmt_forms program ≡ examples.leaving_stmts)
        × always.Breaks LoopState program × HaltsSomewhere (Erroneous FollowsGone) program }
    ensures raises { (program : Program) × (stmt_forms program ≡ examples.raising_stmts)
        × (handler_forms program ≡ examples.raising_handlers)
        × always.Breaks LostValue program × always.IsFineAtEnds (Null ∷ Null ∷ []) program
        × always.HaltsAfter examples.raising_events (Erroneous FollowsGone) program }
    ensures operators { (program : Program) × (stmt_forms program ≡ examples.overflowing_stmts)
        × (handler_forms program ≡ examples.overflowing_handlers)
        × always.Breaks LostValue program × always.HaltsAfter examples.raising_events (Erroneous FollowsGone) program }
    ensures calls { (program : Program) × (body_forms program ≡ call_examples.stopping_bodies)
        × (stmt_forms program ≡ call_examples.stopping_stmts)
        × (handler_forms program ≡ examples.raising_handlers)
        × always.Breaks LostValue program × always.IsFineAtEnds (Null ∷ Null ∷ []) program
        × always.HaltsAfter call_examples.stopping_events (Erroneous FollowsGone) program }
    ensures outlives { (program : Program) × (stmt_forms program ≡ examples.outliving_stmts)
        × always.Breaks LostValue program × always.HaltsAfter examples.outliving_events (Erroneous FollowsGone) program }
    ensures escapes { (program : Program) × (stmt_forms program ≡ examples.escaping_stmts)
        × always.Breaks LoopState program × always.HaltsAfter examples.outliving_events (Erroneous FollowsGone) program }
    ensures mistypes { (program : Program) × (stmt_forms program ≡ examples.mistyping_stmts)
        × always.IsIllFormed program × always.HaltsAfter examples.mistyping_events (Erroneous FollowsGone) program }
    ensures stores { (program : Program) × (stmt_forms program ≡ examples.storing_stmts)
        × always.Breaks LostValue program × always.HaltsAfter examples.storing_events (Erroneous FollowsGone) program }
    ensures pairs { (program : Program) × (stmt_forms program ≡ owner_examples.pairing_stmts)
        × always.Breaks TakePair program × always.HaltsAfter owner_examples.pairing_events (Erroneous FollowsGone) program }
    ensures items { (program : Program) × (stmt_forms program ≡ owner_examples.items_stmts)
        × always.Breaks LostValue program × always.HaltsAfter owner_examples.items_events (Erroneous EndsTwice) program }
    ensures dangles { (program : Program) × (stmt_forms program ≡ borrower_examples.dangling_stmts)
        × borrower_examples.HasBorrower program
        × always.Breaks LostValue program
        × always.HaltsAfter borrower_examples.dangling_events (Erroneous FollowsGone) program }
    ensures overtakes { (program : Program) × (stmt_forms program ≡ borrower_examples.overtaking_stmts)
        × borrower_examples.HasBorrower program
        × always.Breaks TakePair program
        × always.HaltsAfter borrower_examples.overtaking_events (Erroneous FollowsGone) program }
    ensures passes { (program : Program)
        × (stmt_forms program ≡ free_examples.passing_stmts) × borrower_examples.HasBorrower program
        × always.Breaks UnsafePath program
        × always.HaltsAfter free_examples.passing_events (Erroneous FollowsGone) program }
    ensures doubles { (program : Program) × (stmt_forms program ≡ free_examples.doubling_stmts)
        × always.Breaks TakePair program
        × always.HaltsAfter free_examples.doubling_events (Erroneous FollowsGone) program }
    ensures copies { (program : Program) × (stmt_forms program ≡ record_examples.duplicating_stmts)
        × always.Breaks RecordCopied program
        × always.HaltsAfter record_examples.duplicating_events (Erroneous FollowsGone) program }
    ensures shares { (program : Program) × (body_forms program ≡ call_examples.sharing_bodies)
        × (stmt_forms program ≡ call_examples.sharing_stmts)
        × always.Breaks FormalNotOwned program
        × always.HaltsAfter call_examples.sharing_events (Erroneous EndsTwice) program }
    ensures spoils { (program : Program) × (body_forms program ≡ call_examples.spoiling_bodies)
        × (stmt_forms program ≡ call_examples.spoiling_stmts)
        × (handler_forms program ≡ examples.raising_handlers)
        × always.Breaks LostValue program
        × always.HaltsAfter call_examples.spoiling_events (Erroneous FollowsGone) program }
    ensures cuts { (program : Program) × (body_forms program ≡ call_examples.cutting_bodies)
        × (stmt_forms program ≡ call_examples.cutting_stmts)
        × always.Breaks UnsafePath program
        × always.HaltsAfter call_examples.cutting_events (Erroneous FollowsGone) program }
    ensures claims { (program : Program) × (body_forms program ≡ call_examples.claiming_bodies)
        × (stmt_forms program ≡ call_examples.claiming_stmts)
        × always.Breaks AliasMoved program
        × always.HaltsAfter call_examples.claiming_events (Erroneous EndsTwice) program }
    ensures ruins { (program : Program) × (body_forms program ≡ call_examples.ruining_bodies)
        × (stmt_forms program ≡ call_examples.ruining_stmts) × borrower_examples.HasBorrower program
        × always.Breaks UnsafePath program
        × always.HaltsAfter call_examples.ruining_events (Erroneous FollowsGone) program }
    ensures drains { (program : Program) × (body_forms program ≡ call_examples.draining_bodies)
        × (stmt_forms program ≡ call_examples.draining_stmts) × borrower_examples.HasBorrower program
        × always.Breaks UnsafePath program
        × always.HaltsAfter call_examples.draining_events (Erroneous FollowsGone) program }
    ensures strips { (program : Program) × (body_forms program ≡ call_examples.spoiling_bodies)
        × (stmt_forms program ≡ call_examples.stripping_stmts)
        × (handler_forms program ≡ call_examples.stripping_handlers)
        × always.Breaks TakePair program
        × always.HaltsAfter call_examples.stripping_events (Erroneous FollowsGone) program }
    ensures nests { (program : Program) × (stmt_forms program ≡ owner_examples.outlasting_stmts)
        × always.IsIllNested program × always.HaltsAfter owner_examples.outlasting_events (Erroneous FollowsGone) program }
    ensures misplaces { (program : Program) × pool_examples.HasTwoPools program
        × (stmt_forms program ≡ pool_examples.misplacing_stmts)
        × always.FreesOthers program × always.HaltsAfter [] (Erroneous GivesElsewhere) program }
    ensures frees_gone { (program : Program)
        × (operations_of program.types.items 0 ≡ operation_examples.node_operations)
        × (body_forms program ≡ operation_examples.freeing_finalize ∷ []) × (stmt_forms program ≡ operation_examples.two_nodes)
        × always.UsesOwn program × always.HaltsAfter operation_examples.freed_events (Erroneous FinalizesTwice) program }
    ensures follows_gone { (program : Program)
        × (operations_of program.types.items 0 ≡ operation_examples.node_operations)
        × (body_forms program ≡ operation_examples.following_finalize ∷ []) × (stmt_forms program ≡ operation_examples.node_and_cell)
        × always.UsesNewer program × always.HaltsAfter operation_examples.following_events (Erroneous FollowsGone) program }
    ensures frees_newer { (program : Program)
        × (operations_of program.types.items 0 ≡ operation_examples.node_operations)
        × (body_forms program ≡ operation_examples.clearing_finalize ∷ []) × (stmt_forms program ≡ operation_examples.node_and_cell)
        × always.UsesNewer program × always.HaltsAfter operation_examples.clearing_events (Erroneous EndsTwice) program }
    ensures crosses { (program : Program)
        × (operations_of program.types.items 0 ≡ crossing_example.crossing_operations)
        × (body_forms program ≡ crossing_example.crossing_adjust ∷ []) × (stmt_forms program ≡ crossing_example.crossing_stmts)
        × always.FollowsAdjusted program × always.HaltsAfter crossing_example.crossing_events (Erroneous FollowsGone) program }
    ensures renews { (program : Program)
        × (operations_of program.types.items 0 ≡ operation_examples.escaping_operations)
        × (body_forms program ≡ operation_examples.renewing_finalize ∷ [])
        × (declaration_forms program ≡ operation_examples.escaping_declarations)
        × (stmt_forms program ≡ operation_examples.escaping_stmts)
        × always.NotInUse program × always.HaltsAfter operation_examples.renewing_events (Erroneous FinalizesTwice) program }
    ensures lets_out { (program : Program)
        × (operations_of program.types.items 0 ≡ operation_examples.escaping_operations)
        × (body_forms program ≡ operation_examples.escaping_finalize ∷ [])
        × (declaration_forms program ≡ operation_examples.escaping_declarations)
        × (stmt_forms program ≡ operation_examples.escaping_stmts)
        × always.LetsSomeOut program × always.HaltsAfter operation_examples.escaping_events (Escaped ConstraintError) program }
{}
