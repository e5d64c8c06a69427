//! Beside the laws, programs whose operations of controlled types are called, and meet the premises.

ghost use Rattle.std.specs.Prelude.{◌≡◌, [], ◌∷◌};
ghost use Rattle.ada_deeds.specs.declared.deed.Operation.TheVariants.{Adjust, Finalize};
ghost use Rattle.ada_program.specs.declared.program.Program.{Program};
ghost use Rattle.ada_program.specs.Controlled.{operations_of};
ghost use Rattle.ada_program.specs.Form.{declaration_forms, stmt_forms, handler_forms};
ghost use Rattle.ada_program.specs.ProgramForm.{body_forms};
ghost use Rattle.ada_program.specs.declared.program.Exception.TheVariants.{StorageError};
ghost use Rattle.ada_meaning.specs.declared.event.Halt.TheVariants.{Unhandled};
ghost use Rattle.ada_sound.specs.Always as always;
ghost use Rattle.ada_sound.specs.Always.{IsChecked, FinishesAfter};
ghost use Rattle.ada_sound.specs.OperationExamples as operation_examples;
ghost use Rattle.ada_sound.specs.ReleasingExample as releasing_example;
ghost use Rattle.ada_sound.specs.UnshelvingExample as unshelving_example;
ghost use Rattle.ada_sound.specs.LeavingExample as leaving_example;
ghost use Rattle.ada_sound.specs.NestingExample as nesting_example;
ghost use Rattle.ada_sound.specs.HousingExample as housing_example;
ghost use Rattle.ada_sound.specs.StockingExample as stocking_example;
ghost use Rattle.ada_sound.specs.TaggingExample as tagging_example;
ghost use Rattle.ada_sound.specs.MeteringExample as metering_example;

/// The laws are not empty where operations run: a program is accepted whose controlled type overrides Initialize, Adjust
/// and Finalize. Initialize assigns to the Integer component of its object and writes a text, Adjust adds 1 to it and
/// handles the exception that `+` may raise, and Finalize writes it. A record object and an allocated one are initialized,
/// to 1, and a copy of the first in a block is adjusted, to 2; the copy is assigned to the first, which is finalized with
/// its 1 and adjusted, to 3; an exception leaves the block, with which the copy is finalized with its 2; the handler frees
/// the allocated object, which is finalized with its 1; and the first one is finalized with its 3 where the main procedure
/// is left. Each body that runs is a master of its own.
///
/// And one is accepted whose Finalize touches storage (7.6.1, 13.11.2): its record object, of a limited type, owns a cell.
/// Where the main procedure is left, Finalize frees the cell, whose words go back before those of the record object, so that
/// none are left to go back with the collection; and `flow_invariant` speaks of where the Free begins.
///
/// And one is accepted in which an assignment calls such a Finalize, of a type that is not limited (5.2, 7.6): the value of the
/// target is finalized before the other record is copied to it, and where the main procedure is left, the objects are finalized
/// in reverse order of their creation, though the target's value is the later one.
///
/// And one is accepted whose Finalize calls a procedure that does so (6.4.1): it passes its object on, by reference, and that
/// procedure frees the cell, in a master of its own, which is left before that of Finalize is; then the words of the object
/// go back. `flow_invariant` speaks of where that Free begins, too.
///
/// And one is accepted that allocates objects with such a Finalize (4.8, 13.11.2, 7.6.1): one is freed, which frees its cell,
/// before its own words go back; and one is there when the main procedure is left, and is finalized with its collection,
/// which goes before that of the cells.
///
/// And one is accepted that frees such an object by a component (13.11.2), whose path follows an access value (4.1) to another
/// allocated object: Finalize frees the cell, the words of the freed object go back, and then the component is null; the other
/// object is there until the main procedure is left.
///
/// And one is accepted that frees such an object by a component of a formal parameter (6.4.1, 13.11.2): a declared record object,
/// without controlled parts, is passed by reference to a procedure that frees what its component names. Finalize frees the cell,
/// in a master of its own, the words of the freed object go back, and the component of the record object is null, which is there
/// until the main procedure is left.
///
/// And one is accepted in which a list is left whose nodes have such a Finalize (7.6.1): the newer node is taken first, and its
/// Finalize frees its cell. So the older one names a node that has gone, where its own Finalize runs, which comes to null alone.
/// Three nodes may be left, of which the newest one goes first, and then the oldest one. The one between them names what has gone
/// then, while a Finalize frees: `flow_invariant` speaks of that, of a state that stands for the one that is there.
///
/// And one is accepted whose Finalize frees an object with such a Finalize (7.6.1, 13.11.2): a record object owns an allocated one,
/// which owns a cell. Where the main procedure is left, Finalize of the record object moves what it owns to a variable and
/// frees that: the Finalize of the allocated object runs inside, frees the cell, and is left; then the words of that object go
/// back, and only then is the Finalize of the record object left, and its words go back. `flow_invariant` speaks of where the
/// inner Free begins, too.
///
/// And one is accepted whose Initialize allocates an object with controlled parts (7.6, 4.8): the Initialize of that object runs
/// inside, which writes a text, and the record object owns it. It gets a cell. Where the main procedure is left, Finalize of the
/// record object frees it by a component of its formal parameter, and its own Finalize frees the cell inside. `flow_invariant`
/// speaks of where the allocating assignment begins, inside Initialize.
///
/// And one is accepted whose Initialize allocates an object whose own Initialize allocates, too (7.6, 4.8): a record object owns an
/// object, which owns a cell, and Finalize of each frees what it owns, the inner one inside the outer one. Where the cell is
/// refused, `Storage_Error` comes out of the inner Initialize, inside the outer one (7.6.1): no part of the object inside has
/// begun, so that nothing of it is finalized, and its words go back; the outer Initialize handles the exception, and the record
/// object has its value, and owns nothing. `flow_invariant` speaks of where the inner allocating assignment begins, too.
///
/// And one is accepted whose Initialize touches storage, too (7.6, 4.8): it allocates the cell that its record object owns,
/// and handles `Storage_Error`, so that the program finishes where the cell is granted, and is freed by Finalize, and where
/// it is refused, and nothing is freed.
///
/// And one is accepted whose Initialize lets `Storage_Error` out (7.6.1): of a declared object with two components of such a
/// limited type, the first one is initialized and owns a cell, and for the second one the cell is refused, so that the first
/// one is finalized, which frees its cell, and the words of the object go back before a handler outside of its block takes
/// the exception.
///
/// And one is accepted whose Initialize allocates for what an allocator makes (4.8, 7.6): each object with two components of
/// such a type gets two cells. One is freed, and one is there when the main procedure is left; each time both cells go back
/// before the words of their object. Where the second cell is refused, the first component is finalized, which frees its
/// cell, and the words of the object go back before the handler takes `Storage_Error`.
///
/// And one is accepted whose Initialize allocates an object with an Initialize and a Finalize of its own (4.8, 7.6), which touch
/// Integers alone: a box owns a tag. The Initialize of the tag runs inside that of the box, so that the tag has its value before
/// the box has one. Where the main procedure is left, the Finalize of the box frees the tag, which is finalized inside it, and
/// writes its 7. Where the tag is refused, `Storage_Error` leaves the Initialize of the box, which has no value then: nothing is
/// finalized (7.6.1), the words of the box go back, and the exception leaves the main procedure (11.4).
///
/// And one is accepted whose Initialize declares a tag, and gives a variable a new one, both in its own declarations (3.3.1, 4.8,
/// 7.6). The Initialize of each runs inside that of the box, in the order of the declarations. The declared tag gets an 8, and the
/// box gets what the variable owns. Where the Initialize of the box is left, the declared tag is finalized (7.6.1), which writes
/// the 8, and its words go back; only then the box has its value. Where the main procedure is left, the Finalize of the box frees
/// the other tag, which writes its 7. `flow_invariant` speaks of where the statements of that Initialize begin. Where the new tag
/// is refused, `Storage_Error` leaves the Initialize of the box from its declarations (11.4): the declared tag has its value, and
/// is finalized there; the box has none, its words go back, and the exception leaves the main procedure.
///
/// And one is accepted in which a component frees a tag whose Finalize declares a meter, with a Finalize of its own (3.3.1, 7.6.1):
/// the meter gets the 7 of the tag. Where the Finalize of the tag is left, the meter is finalized, which writes the 7, and its words
/// go back, before those of the tag do. `flow_invariant` speaks of where the statement of that Finalize begins.
///
/// And one is accepted whose Adjust allocates (7.6, 4.8): a record that owns a cell is assigned to another one, of the same
/// type. Right behind the copy the components of both name one cell; Adjust reads it, and gives the copy a cell of its own,
/// or null, where an exception is raised. Where both cells are granted, each of the two records is finalized at the leaving
/// of the main procedure, and frees its own cell, so that the words of each object go back once. Where the copy's cell is
/// refused (11.1), Adjust handles that, the copy owns nothing, and the program finishes all the same.
///
/// And one is accepted whose assignment adjusts two parts of a record, with the same Adjust (5.2, 7.6): while the first one that is
/// picked gets a cell of its own, the component of the other one still names the cell of the source, which is there when that
/// one is adjusted. So four cells go at the leaving of the main procedure, each once, before the words of their object; or
/// three, where the last one is refused, and the part that it was for owns nothing.
///
/// And one is accepted that declares a record by its value, with the same Adjust (3.3.1, 7.6): the record lies in a block, and
/// is adjusted where it is created. At the leaving of the block it is finalized, and frees its own cell, where that was
/// granted; the cell of the first record is there until the main procedure is left.
pub fn operations_are_accepted()
    ensures operates { (program : Program)
        × (operations_of program.types.items 0 ≡ operation_examples.count_operations)
        × (body_forms program ≡ operation_examples.count_bodies)
        × (declaration_forms program ≡ operation_examples.operating_declarations)
        × (stmt_forms program ≡ operation_examples.operating_stmts)
        × (handler_forms program ≡ operation_examples.operating_handlers)
        × IsChecked program × FinishesAfter operation_examples.operating_events program }
    ensures tidies { (program : Program)
        × (operations_of program.types.items 0 ≡ operation_examples.tidying_operations)
        × (body_forms program ≡ operation_examples.tidying_finalize ∷ [])
        × (declaration_forms program ≡ operation_examples.tidying_declarations)
        × (stmt_forms program ≡ operation_examples.tidying_stmts)
        × IsChecked program × FinishesAfter operation_examples.tidying_events program
        × always.InSomeRun program (λ events last. operation_examples.IsSpokenOfInside program last) }
    ensures overwrites { (program : Program)
        × (operations_of program.types.items 0 ≡ operation_examples.tidying_operations)
        × (body_forms program ≡ operation_examples.overwriting_finalize ∷ [])
        × (declaration_forms program ≡ operation_examples.overwriting_declarations)
        × (stmt_forms program ≡ operation_examples.overwriting_stmts)
        × IsChecked program × FinishesAfter operation_examples.overwriting_events program }
    ensures empties { (program : Program)
        × (operations_of program.types.items 0 ≡ operation_examples.emptying_operations)
        × (body_forms program ≡ operation_examples.emptying_bodies)
        × (declaration_forms program ≡ operation_examples.tidying_declarations)
        × (stmt_forms program ≡ operation_examples.tidying_stmts)
        × IsChecked program × FinishesAfter operation_examples.emptying_events program
        × always.InSomeRun program (λ events last. operation_examples.IsSpokenOfInside program last) }
    ensures boxes { (program : Program)
        × (operations_of program.types.items 0 ≡ operation_examples.tidying_operations)
        × (body_forms program ≡ operation_examples.boxing_finalize ∷ [])
        × (declaration_forms program ≡ operation_examples.boxing_declarations)
        × (stmt_forms program ≡ operation_examples.boxing_stmts)
        × IsChecked program × FinishesAfter operation_examples.boxing_events program }
    ensures releases { (program : Program)
        × (operations_of program.types.items 0 ≡ operation_examples.tidying_operations)
        × (body_forms program ≡ releasing_example.releasing_finalize ∷ [])
        × (declaration_forms program ≡ releasing_example.releasing_declarations)
        × (stmt_forms program ≡ releasing_example.releasing_stmts)
        × IsChecked program × FinishesAfter releasing_example.releasing_events program }
    ensures unshelves { (program : Program)
        × (operations_of program.types.items 0 ≡ operation_examples.tidying_operations)
        × (body_forms program ≡ unshelving_example.unshelving_bodies)
        × (declaration_forms program ≡ unshelving_example.unshelving_declarations)
        × (stmt_forms program ≡ unshelving_example.unshelving_stmts)
        × IsChecked program × FinishesAfter unshelving_example.unshelving_events program }
    ensures leaves { (program : Program)
        × (operations_of program.types.items 0 ≡ operation_examples.tidying_operations)
        × (body_forms program ≡ leaving_example.leaving_finalize ∷ [])
        × (declaration_forms program ≡ leaving_example.leaving_declarations)
        × (stmt_forms program ≡ leaving_example.leaving_stmts)
        × IsChecked program × FinishesAfter leaving_example.leaving_events program }
    ensures names_gone { (program : Program)
        × (operations_of program.types.items 0 ≡ operation_examples.tidying_operations)
        × (body_forms program ≡ leaving_example.leaving_finalize ∷ [])
        × (declaration_forms program ≡ leaving_example.leaving_declarations)
        × (stmt_forms program ≡ leaving_example.three_stmts)
        × IsChecked program
        × always.InSomeRun program (λ events last. leaving_example.IsSpokenOfElsewhere program last) }
    ensures nests { (program : Program)
        × (operations_of program.types.items 0 ≡ operation_examples.tidying_operations)
        × (operations_of program.types.items 1 ≡ nesting_example.keeping_operations)
        × (body_forms program ≡ nesting_example.nesting_bodies)
        × (declaration_forms program ≡ nesting_example.nesting_declarations)
        × (stmt_forms program ≡ nesting_example.nesting_stmts)
        × IsChecked program × FinishesAfter nesting_example.nesting_events program
        × always.InSomeRun program (λ events last. operation_examples.IsSpokenOfInside program last) }
    ensures houses { (program : Program)
        × (operations_of program.types.items 0 ≡ housing_example.housed_operations)
        × (operations_of program.types.items 1 ≡ operation_examples.allocating_operations)
        × (body_forms program ≡ housing_example.housing_bodies)
        × (declaration_forms program ≡ nesting_example.nesting_declarations)
        × (stmt_forms program ≡ housing_example.housing_stmts)
        × IsChecked program × FinishesAfter housing_example.housing_events program
        × always.InSomeRun program (λ events last. operation_examples.IsSpokenOfInside program last) }
    ensures stocks { (program : Program)
        × (operations_of program.types.items 0 ≡ housing_example.housed_operations)
        × (operations_of program.types.items 1 ≡ operation_examples.allocating_operations)
        × (body_forms program ≡ stocking_example.stocking_bodies)
        × (declaration_forms program ≡ nesting_example.nesting_declarations)
        × (stmt_forms program ≡ stocking_example.stocking_stmts)
        × IsChecked program × FinishesAfter stocking_example.stocking_events program
        × FinishesAfter stocking_example.unstocked_events program
        × always.InSomeRun program (λ events last. operation_examples.IsSpokenOfInside program last) }
    ensures allocates { (program : Program)
        × (operations_of program.types.items 0 ≡ operation_examples.allocating_operations)
        × (body_forms program ≡ operation_examples.allocating_bodies)
        × (declaration_forms program ≡ operation_examples.tidying_declarations)
        × (stmt_forms program ≡ operation_examples.allocating_stmts)
        × (handler_forms program ≡ operation_examples.allocating_handlers)
        × IsChecked program × FinishesAfter operation_examples.allocating_events program
        × FinishesAfter operation_examples.refused_events program }
    ensures undoes { (program : Program)
        × (operations_of program.types.items 0 ≡ operation_examples.allocating_operations)
        × (body_forms program ≡ operation_examples.undoing_bodies)
        × (declaration_forms program ≡ operation_examples.undoing_declarations)
        × (stmt_forms program ≡ operation_examples.undoing_stmts)
        × (handler_forms program ≡ operation_examples.undoing_handlers)
        × IsChecked program × FinishesAfter operation_examples.undoing_events program }
    ensures fills { (program : Program)
        × (operations_of program.types.items 0 ≡ operation_examples.allocating_operations)
        × (body_forms program ≡ operation_examples.undoing_bodies)
        × (declaration_forms program ≡ operation_examples.filling_declarations)
        × (stmt_forms program ≡ operation_examples.filling_stmts)
        × (handler_forms program ≡ operation_examples.undoing_handlers)
        × IsChecked program × FinishesAfter operation_examples.filling_events program
        × FinishesAfter operation_examples.unfilled_events program }
    ensures equips { (program : Program)
        × (operations_of program.types.items 0 ≡ operation_examples.tag_operations)
        × (operations_of program.types.items 1 ≡ operation_examples.equipping_operations)
        × (body_forms program ≡ operation_examples.equipping_bodies)
        × (declaration_forms program ≡ operation_examples.equipping_declarations)
        × (stmt_forms program ≡ operation_examples.equipping_stmts)
        × IsChecked program × FinishesAfter operation_examples.equipping_events program
        × always.HaltsAfter operation_examples.unequipped_events (Unhandled StorageError) program }
    ensures tags { (program : Program)
        × (operations_of program.types.items 0 ≡ operation_examples.tag_operations)
        × (operations_of program.types.items 1 ≡ operation_examples.equipping_operations)
        × (body_forms program ≡ tagging_example.tagging_bodies)
        × (declaration_forms program ≡ operation_examples.equipping_declarations)
        × (stmt_forms program ≡ operation_examples.equipping_stmts)
        × IsChecked program × FinishesAfter tagging_example.tagging_events program
        × always.HaltsAfter tagging_example.untagged_events (Unhandled StorageError) program
        × always.InSomeRun program (λ events last. operation_examples.IsSpokenOfInside program last) }
    ensures meters { (program : Program)
        × (operations_of program.types.items 0 ≡ metering_example.metered_operations)
        × (operations_of program.types.items 1 ≡ metering_example.metering_operations)
        × (operations_of program.types.items 2 ≡ metering_example.meter_operations)
        × (body_forms program ≡ metering_example.metering_bodies)
        × (declaration_forms program ≡ operation_examples.equipping_declarations)
        × (stmt_forms program ≡ operation_examples.equipping_stmts)
        × IsChecked program × FinishesAfter metering_example.metering_events program
        × always.InSomeRun program (λ events last. operation_examples.IsSpokenOfInside program last) }
    ensures duplicates { (program : Program)
        × (operations_of program.types.items 0 ≡ operation_examples.duplicating_operations)
        × (body_forms program ≡ operation_examples.duplicating_bodies)
        × (declaration_forms program ≡ operation_examples.overwriting_declarations)
        × (stmt_forms program ≡ operation_examples.duplicating_stmts)
        × IsChecked program × FinishesAfter operation_examples.duplicating_events program
        × FinishesAfter operation_examples.duplicating_refused_events program }
    ensures pairs { (program : Program)
        × (operations_of program.types.items 0 ≡ operation_examples.duplicating_operations)
        × (body_forms program ≡ operation_examples.duplicating_bodies)
        × (declaration_forms program ≡ operation_examples.pairing_declarations)
        × (stmt_forms program ≡ operation_examples.pairing_stmts)
        × IsChecked program × FinishesAfter operation_examples.pairing_events program
        × FinishesAfter operation_examples.pairing_refused_events program }
    ensures copies { (program : Program)
        × (operations_of program.types.items 0 ≡ operation_examples.duplicating_operations)
        × (body_forms program ≡ operation_examples.duplicating_bodies)
        × (declaration_forms program ≡ operation_examples.tidying_declarations)
        × (stmt_forms program ≡ operation_examples.copying_stmts)
        × IsChecked program × FinishesAfter operation_examples.copying_events program
        × FinishesAfter operation_examples.copying_refused_events program }
{}

/// Nor are they where an Initialize raises an exception (7.6.1): a program is accepted that allocates an object with two
/// controlled components, of two types. The first one begins, and holds 1; Initialize of the second one raises
/// `Constraint_Error`. So the first one is finalized, with its 1, and the words of the object go back; a handler of the
/// block around the allocator takes the exception, the variable that was to name the object is null still, and the program
/// finishes.
pub fn failed_initializations_are_accepted()
    ensures undoes { (program : Program)
        × (operations_of program.types.items 0 ≡ operation_examples.first_operations)
        × (operations_of program.types.items 1 ≡ operation_examples.second_operations)
        × (body_forms program ≡ operation_examples.failing_bodies)
        × (stmt_forms program ≡ operation_examples.failing_stmts)
        × IsChecked program × FinishesAfter operation_examples.failing_events program }
{}

/// Flow is not agreed with in the body of an operation that touches Integers and Booleans alone: of a program that is
/// accepted, three nodes go with their collection, whose Finalize does nothing. The last one is gone, which the second one
/// names; where the statement in the first one's Finalize begins, the second one is in its collection still.
pub fn operations_run_apart()
    ensures disagrees { (program : Program)
        × (operations_of program.types.items 0 ≡ operation_examples.node_operations)
        × (body_forms program ≡ operation_examples.silent_finalize ∷ [])
        × (stmt_forms program ≡ operation_examples.three_nodes)
        × IsChecked program × always.InSomeRun program (λ events last. operation_examples.DisagreesInside program last) }
{}

/// What the text of a program has never called may raise: the laws speak of a program in which `Constraint_Error` would come out of
/// the Finalize of a type (7.6.1), but which creates no object with controlled parts; and of one in which it would come out of the
/// Adjust, but which copies no record with some: a record object is initialized and finalized, and its words go back.
pub fn uncalled_operations_may_raise()
    ensures finalizes { (program : Program)
        × (operations_of program.types.items 0 ≡ operation_examples.escaping_operations)
        × (body_forms program ≡ operation_examples.escaping_finalize ∷ [])
        × (declaration_forms program ≡ [])
        × (stmt_forms program ≡ operation_examples.escaping_stmts)
        × operation_examples.WouldRaise Finalize program
        × IsChecked program × FinishesAfter operation_examples.unfinalized_events program }
    ensures adjusts { (program : Program)
        × (operations_of program.types.items 0 ≡ operation_examples.unadjusted_operations)
        × (body_forms program ≡ operation_examples.escaping_adjust ∷ [])
        × (declaration_forms program ≡ operation_examples.escaping_declarations)
        × (stmt_forms program ≡ operation_examples.escaping_stmts)
        × operation_examples.WouldRaise Adjust program
        × IsChecked program × FinishesAfter operation_examples.unadjusted_events program }
{}

/// The premise of `records_are_copied_plain` is needed, that no type which declares components of access types has an Adjust
/// of its own (7.6): of the two programs of `operations_are_accepted` whose Adjust allocates, the rules let through what
/// copies a record with a component of an access type. One assigns it as a whole (5.2), as its only item (4.3.1), and the
/// other one declares a record object by it (3.3.1). So they would an allocator that copies it (4.8), if the first program
/// had a type and a variable for it; but that is not well formed, since the new object would have controlled parts.
pub fn adjusted_records_are_copied()
    ensures assigned { (program : Program)
        × (operations_of program.types.items 0 ≡ operation_examples.duplicating_operations)
        × (stmt_forms program ≡ operation_examples.duplicating_stmts)
        × IsChecked program × operation_examples.AssignsOwner program × operation_examples.AllocatesOwner program }
    ensures declared { (program : Program)
        × (operations_of program.types.items 0 ≡ operation_examples.duplicating_operations)
        × (stmt_forms program ≡ operation_examples.copying_stmts)
        × IsChecked program × operation_examples.DeclaresOwner program }
{}
