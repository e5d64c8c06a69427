//! The laws of resolution. Each is a function that does nothing, and whose contract is the theorem.

ghost use Rattle.ada_tree.specs.Statements.{UnitTree};
ghost use Rattle.ada_program.specs.Freed.{FreesItsOwn};
ghost use Rattle.ada_program.specs.Nested.{CollectionsNest};
ghost use Rattle.ada_program.specs.ProgramForm.{ProgramForm};
ghost use Rattle.ada_program.specs.WellFormed.{IsWellFormed};
ghost use Rattle.ada_resolve.specs.First.{NotesTheFirst};
ghost use Rattle.ada_resolve.specs.Reading.{IsReadAs};
ghost use Rattle.ada_resolve.specs.Resolution.{Resolves};

/// The program that a tree means is well formed.
pub fn programs_are_well_formed()
    ensures { (tree : UnitTree) (program : ProgramForm) →
        Resolves tree program → IsWellFormed program }
{}

/// The program that a tree means frees each object by the instance of `Unchecked_Deallocation` for the very access type
/// of what it frees, so the object's words go back to the pool of that type.
pub fn programs_free_their_own()
    ensures { (tree : UnitTree) (program : ProgramForm) →
        Resolves tree program → FreesItsOwn program }
{}

/// Collections nest in the program that a tree means. No part creates a collection that is open around it. What the
/// components of a collection's objects name lies in collections of the same part or of the parts around it, which last
/// at least as long.
pub fn collections_nest()
    ensures { (tree : UnitTree) (program : ProgramForm) →
        Resolves tree program → CollectionsNest program }
{}

/// The declarations and the statements of the program that a tree means are those of the tree, name by name.
pub fn programs_are_read_as_written()
    ensures { (tree : UnitTree) (program : ProgramForm) →
        Resolves tree program → IsReadAs tree program }
{}

/// What is noted of a declaration or a statement, where nothing was wrong before it, is the first of the faults that are
/// remarked of it: by line, by column, and by the rule's number.
pub fn the_first_fault_is_noted()
    ensures { NotesTheFirst }
{}
