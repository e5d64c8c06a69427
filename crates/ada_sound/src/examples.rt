//! Beside the laws, programs that meet the premises.

ghost use Rattle.std.specs.Prelude.{◌≡◌, [], ◌∷◌};
ghost use Rattle.ada_program.specs.declared.program.Program.{Program};
ghost use Rattle.ada_program.specs.Controlled.{shapes_of};
ghost use Rattle.ada_program.specs.Form.{declaration_forms, stmt_forms, handler_forms};
ghost use Rattle.ada_program.specs.ProgramForm.{body_forms};
ghost use Rattle.ada_program.specs.declared.program.Exception.TheVariants.{ConstraintError};
ghost use Rattle.ada_meaning.specs.declared.event.Halt.TheVariants.{Unhandled};
ghost use Rattle.ada_finalized.specs.Example as controlled_example;
ghost use Rattle.ada_sound.specs.Always.{IsChecked, ReachesStatement, FinishesAfter, HaltsSomewhere};
ghost use Rattle.ada_sound.specs.Examples as examples;
ghost use Rattle.ada_sound.specs.BorrowerExamples as borrower_examples;
ghost use Rattle.ada_sound.specs.FreeExamples as free_examples;
ghost use Rattle.ada_sound.specs.OwnerExamples as owner_examples;
ghost use Rattle.ada_sound.specs.RecordExamples as record_examples;
ghost use Rattle.ada_sound.specs.CallExamples as call_examples;
ghost use Rattle.ada_sound.specs.PoolExamples as pool_examples;

/// The laws are not empty: a program is accepted and comes to a statement; it finishes after it has followed an access
/// value, written a line, freed an object, and left its main procedure, with which another object went. And one is
/// accepted whose main procedure is left by an exception. And one whose loop goes two turns: in the first one an object
/// is allocated, in the second one it is followed and freed, and an exit leaves the loop. And one with a condition of
/// its loop, one of its exit, and a return. And one with nested loops, `elsif` and a return inside a loop, whose lines
/// and objects tell each turn, each branch, and where each jump lands. And one whose loop raises an exception of its
/// own in its second turn: the handler that names it follows and frees the object of the first one. And one whose loop
/// is left by an exit out of a block: the object of the block's collection goes with the block, and an outer one stays
/// until the end. And one where an exception leaves a block before the handler behind it begins, which returns. And one
/// with a `for` loop that reads numbers until there is none. And one that reads a number into a component of an object,
/// adds to it in a loop, and writes what the component then holds. And one that makes a list, each new node of which
/// owns the one before it, takes its tail by take pairs, and frees it node by node. And one whose borrower walks such a
/// list, which keeps its owners. And one whose borrower is null where a loop begins that gives it a value. And one that
/// puts two nodes into a list behind its first one: each of them takes what the component held that it goes to, and so
/// a borrower meets the newer one before the older one. And one that frees a component, whose access type is not the
/// one on the way to it: the component is null then, and to free it once more has no effect. And one whose objects have
/// no items: it reads what a component holds at first. And one with a record object, which is an object, too: a
/// component of it gets a new object, which a take pair takes and which is freed, and the record object goes back with
/// its own item, to no pool. And one that copies records of Integers: into a record object that is declared, into a new
/// object, from an aggregate, and from the object that an access value gives access to. And one that calls procedures,
/// one of which calls the other one twice: a call returns early, the two nested ones make an object each and free it, and
/// the second of these raises an exception, which leaves both procedures; the handler in the main procedure follows and
/// frees what that one still owns. And one whose borrower has a value where it calls a procedure that frees an object of
/// the same access type, and gets its value once more behind it. And one whose variable gets a value back from a call that
/// ends normally, through a call in a call, and none from a call that an exception leaves. And one that lends an object to
/// a procedure, which changes a component of it: behind the call the variable still owns the object, and follows and frees
/// it. And one that hands an object over to a procedure, which frees it and gives another one back. And one whose
/// procedure raises an exception before it changes what was handed over to it: the handler follows and frees the object,
/// which the variable still owns. And one that passes records by reference, which lie in other records, behind access
/// values and in formal parameters: a procedure reads a component, and another one changes one and frees what a second one
/// owns, and the main procedure sees both changes. And one that gives a component for a formal parameter of mode `in out`,
/// while the procedure puts another object in the place of that in which the component lies: the value goes back to the
/// component of the object that was named before the call. And one with two declared pools and an access type for each:
/// an object is allocated in each pool; one is freed, and goes back to the older pool, and the other one goes with its
/// collection to the newer pool, which goes after that. And one whose record types are controlled, one with a component
/// of the other: a record object and a new object are initialized, and a copy of the record object is adjusted, their
/// components first. The copy is assigned to the record object, which is finalized, itself first, and adjusted, its
/// component first. The new object is finalized by a Free and the other two at the leaving of their block, each before its
/// component, and then their words go back.
pub fn premises_are_met()
    ensures begins { (program : Program) × IsChecked program × ReachesStatement program }
    ensures finishes { (program : Program) × IsChecked program × FinishesAfter examples.example_events program }
    ensures raises { (program : Program) × IsChecked program × HaltsSomewhere (Unhandled ConstraintError) program }
    ensures repeats { (program : Program) × (stmt_forms program ≡ examples.repeating_stmts)
        × IsChecked program × FinishesAfter examples.repeating_events program }
    ensures returns { (program : Program) × (stmt_forms program ≡ examples.returning_stmts)
        × IsChecked program × FinishesAfter examples.returning_events program }
    ensures nests { (program : Program) × (stmt_forms program ≡ examples.nesting_stmts)
        × IsChecked program × FinishesAfter examples.nesting_events program }
    ensures handles { (program : Program) × (stmt_forms program ≡ examples.handling_stmts)
        × (handler_forms program ≡ examples.handling_handlers)
        × IsChecked program × FinishesAfter examples.handling_events program }
    ensures encloses { (program : Program) × (stmt_forms program ≡ examples.enclosing_stmts)
        × IsChecked program × FinishesAfter examples.enclosing_events program }
    ensures unwinds { (program : Program) × (stmt_forms program ≡ examples.unwinding_stmts)
        × (handler_forms program ≡ examples.unwinding_handlers)
        × IsChecked program × FinishesAfter examples.unwinding_events program }
    ensures counts { (program : Program) × (stmt_forms program ≡ examples.counting_stmts)
        × (handler_forms program ≡ examples.counting_handlers)
        × IsChecked program × FinishesAfter examples.counting_events program }
    ensures fills { (program : Program) × (stmt_forms program ≡ examples.filling_stmts)
        × IsChecked program × FinishesAfter examples.filling_events program }
    ensures owns { (program : Program) × (stmt_forms program ≡ owner_examples.owning_stmts)
        × IsChecked program × FinishesAfter owner_examples.owning_events program }
    ensures defaults { (program : Program) × (stmt_forms program ≡ owner_examples.default_stmts)
        × IsChecked program × FinishesAfter owner_examples.default_events program }
    ensures records { (program : Program) × (stmt_forms program ≡ owner_examples.record_stmts)
        × IsChecked program × FinishesAfter owner_examples.record_events program }
    ensures copies { (program : Program) × (declaration_forms program ≡ record_examples.copying_declarations)
        × (stmt_forms program ≡ record_examples.copying_stmts)
        × IsChecked program × FinishesAfter record_examples.copying_events program }
    ensures walks { (program : Program) × (stmt_forms program ≡ borrower_examples.walking_stmts)
        × borrower_examples.HasBorrower program
        × IsChecked program × FinishesAfter borrower_examples.walking_events program }
    ensures borrows_in_loop { (program : Program)
        × (stmt_forms program ≡ borrower_examples.lending_stmts) × borrower_examples.HasBorrower program
        × IsChecked program × FinishesAfter borrower_examples.lending_events program }
    ensures inserts { (program : Program)
        × (stmt_forms program ≡ free_examples.inserting_stmts) × borrower_examples.HasBorrower program
        × IsChecked program × FinishesAfter free_examples.inserting_events program }
    ensures frees_components { (program : Program)
        × (stmt_forms program ≡ free_examples.freeing_stmts)
        × IsChecked program × FinishesAfter free_examples.freeing_events program }
    ensures calls { (program : Program) × (body_forms program ≡ call_examples.calling_bodies)
        × (stmt_forms program ≡ call_examples.calling_stmts)
        × (handler_forms program ≡ call_examples.calling_handlers)
        × IsChecked program × FinishesAfter call_examples.calling_events program }
    ensures borrows_around_calls { (program : Program) × (body_forms program ≡ call_examples.showing_body ∷ [])
        × (stmt_forms program ≡ call_examples.relending_stmts) × borrower_examples.HasBorrower program
        × IsChecked program × FinishesAfter call_examples.relending_events program }
    ensures gives_back { (program : Program) × (body_forms program ≡ call_examples.giving_bodies)
        × (stmt_forms program ≡ call_examples.giving_stmts)
        × (handler_forms program ≡ call_examples.giving_handlers)
        × IsChecked program × FinishesAfter call_examples.giving_events program }
    ensures lends { (program : Program) × (body_forms program ≡ call_examples.bumping_bodies)
        × (stmt_forms program ≡ call_examples.bumping_stmts)
        × IsChecked program × FinishesAfter call_examples.bumping_events program }
    ensures hands_over { (program : Program) × (body_forms program ≡ call_examples.renewing_bodies)
        × (stmt_forms program ≡ call_examples.renewing_stmts)
        × IsChecked program × FinishesAfter call_examples.renewing_events program }
    ensures keeps { (program : Program) × (body_forms program ≡ call_examples.dropping_bodies)
        × (stmt_forms program ≡ call_examples.dropping_stmts)
        × (handler_forms program ≡ call_examples.calling_handlers)
        × IsChecked program × FinishesAfter call_examples.dropping_events program }
    ensures refers { (program : Program) × (body_forms program ≡ call_examples.trimming_bodies)
        × (stmt_forms program ≡ call_examples.trimming_stmts)
        × IsChecked program × FinishesAfter call_examples.trimming_events program }
    ensures gives_back_there { (program : Program) × (body_forms program ≡ call_examples.replacing_bodies)
        × (stmt_forms program ≡ call_examples.replacing_stmts) × borrower_examples.HasBorrower program
        × IsChecked program × FinishesAfter call_examples.replacing_events program }
    ensures has_pools { (program : Program) × (declaration_forms program ≡ pool_examples.pool_declarations)
        × pool_examples.HasTwoPools program × (stmt_forms program ≡ pool_examples.pooling_stmts)
        × IsChecked program × FinishesAfter pool_examples.pooling_events program }
    ensures finalizes { (program : Program)
        × (shapes_of program.types.items ≡ controlled_example.controlled_shapes)
        × (stmt_forms program ≡ controlled_example.controlled_stmts)
        × IsChecked program × FinishesAfter controlled_example.controlled_events program }
{}
