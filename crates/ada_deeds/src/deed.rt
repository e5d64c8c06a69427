//! What a body may do beside its normal end, and what it may call.

use ada_program::program::Exception;
use ada_program::{ProcedureNo, TypeNo};

/// What a body may do beside its normal end.
#[derive(Clone, Copy, Debug, PartialEq, Eq)]
pub enum Deed {
    /// An exception comes out of it (11.4).
    Raises(Exception),
    /// An object of an access type is freed (13.11.2).
    Frees(TypeNo),
    /// A value of an access type is followed to its object (4.1).
    Follows(TypeNo),
    /// An object is created by an allocator (4.8).
    Allocates,
    /// Something is called that is asked for (6.4, 7.6): what the body does itself does not count.
    Calls,
}

/// An operation of a controlled type (7.6).
#[derive(Clone, Copy, Debug, PartialEq, Eq)]
pub enum Operation {
    Initialize,
    Adjust,
    Finalize,
}

/// What is called.
#[derive(Clone, Copy, Debug, PartialEq, Eq)]
pub enum Callee {
    /// A procedure, by a statement (6.4).
    Procedure(ProcedureNo),
    /// An operation of the controlled parts of an object of a record type, implicitly (7.6).
    Parts(Operation, TypeNo),
}
