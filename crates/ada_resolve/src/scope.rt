//! What the names of a tree stand for.

ghost use Rattle.std.specs.Prelude.{◌≡◌};
ghost use Rattle.ada_resolve.specs.Library.{predefined, is_taken};

use crate::library::is_library_root;
use ada_program::program::{Exception, ProcedureNo, VariableKind};
use ada_program::{PoolNo, TypeNo, VariableNo};

/// What a name stands for.
#[derive(Clone, Copy)]
pub(crate) enum Entity {
    /// `Integer` (3.5.4)
    Integer,
    /// `Boolean` (3.5.3)
    Boolean,
    /// `True` or `False` (3.5.3)
    Truth(bool),
    /// A named number (3.3.2).
    Number(i32),
    /// An exception (11.1).
    Exception(Exception),
    /// A pool (13.11).
    Pool(PoolNo),
    /// A procedure whose body has not ended: the main procedure, or one around the place.
    Procedure,
    /// A procedure whose body has ended: it may be called (6.4).
    Callable(ProcedureNo),
    /// A library unit that a `with` clause names (10.1.2).
    LibraryUnit,
    /// A record type that is not completed yet (3.10.1).
    Incomplete(TypeNo),
    /// A record type (3.8), and how many components it has at any depth.
    Record {
        number: TypeNo,
        size: usize,
    },
    /// An access type (3.10).
    Access(TypeNo),
    /// An instance of Unchecked_Deallocation for an access type (13.11.2).
    Instance(TypeNo),
    /// A declared object (3.3.1), or a formal parameter of mode `in out` (6.2), and what it holds.
    Variable {
        variable: VariableNo,
        kind: VariableKind,
    },
    /// A loop parameter, or a formal parameter of mode `in`: a constant (5.5, 6.2).
    Parameter {
        variable: VariableNo,
        kind: VariableKind,
    },
    /// An object of a body around, which is not used in an inner one.
    Outer {
        kind: VariableKind,
        role: Role,
    },
}

/// What an object of a body around is.
#[derive(Clone, Copy)]
pub(crate) enum Role {
    /// A variable that is no borrower.
    Variable,
    /// A borrower (3.10).
    Borrower,
    /// A loop parameter, or a formal parameter of mode `in` (5.5, 6.2).
    Constant,
}

/// What a predefined name stands for.
#[tactic(auto, unfolding(crate::specs::Library::predefined))]
pub(crate) fn predefined(text: &str) -> Option<Entity>
    ensures { result ≡ predefined text.now }
{
    match text {
        "INTEGER" => Some(Entity::Integer),
        "BOOLEAN" => Some(Entity::Boolean),
        "TRUE" => Some(Entity::Truth(true)),
        "FALSE" => Some(Entity::Truth(false)),
        "CONSTRAINT_ERROR" => Some(Entity::Exception(Exception::ConstraintError)),
        "PROGRAM_ERROR" => Some(Entity::Exception(Exception::ProgramError)),
        "STORAGE_ERROR" => Some(Entity::Exception(Exception::StorageError)),
        _ => None,
    }
}

/// Whether no declaration may have this name.
pub(crate) fn is_taken(text: &str) -> bool
    ensures { result ≡ is_taken text.now }
{
    predefined(text).is_some() || is_library_root(text)
}
