//! What operations may do in a program, and where an Initialize, an Adjust and a Finalize are in use (7.6, 7.6.1).

ghost use Rattle.std.specs.Prelude.{◌≡◌, IfOk};
ghost use Rattle.ada_program.specs.ProgramForm.{program_form};
ghost use Rattle.ada_quiet.specs.First as first;
ghost use Rattle.ada_quiet.specs.Frugal.{frugal_operations};
ghost use Rattle.ada_quiet.specs.InUse as rules;

use crate::apart::operations_stand_apart;
use crate::idle::adjusts_nothing;
use crate::mixed::tracks_beside_none;
use crate::operations::{
    is_frugal_operation, is_overridden, is_plain_operation, is_quiet_operation, is_simple_operation,
};
use crate::tracking::may_track;
use ada_program::{ProcedureNo, Program};
use std::alloc::{AllocError, Global};

/// Whether an Initialize and a Finalize may be frugal in a program: operations stand apart. Linear in the types, their components, and all
/// bodies.
///
/// # Errors
/// `AllocError` where memory was refused.
pub(crate) fn may_be_frugal(alloc: Global, program: &Program) -> Result<bool, AllocError>
    ensures { IfOk result (λ answer. answer ≡ rules.may_be_frugal (program_form program.now)) }
{
    operations_stand_apart(alloc, program)
}

/// What operations may do in a program.
#[derive(Clone, Copy)]
pub(crate) struct Allowed {
    /// Whether an Initialize and a Finalize may be frugal.
    pub(crate) frugal: bool,
    /// Whether no Adjust is called, and one may be frugal.
    pub(crate) nothing: bool,
    /// Whether an Adjust that may be called, and does not track, may be frugal.
    pub(crate) freely: bool,
    /// Whether an Adjust may track.
    pub(crate) tracks: bool,
}

/// What operations may do in this one. Linear in the types, their components, and all bodies.
///
/// # Errors
/// `AllocError` where memory was refused.
pub(crate) fn allowed_in(alloc: Global, program: &Program) -> Result<Allowed, AllocError>
    ensures frugal { IfOk result (λ allowed. allowed.frugal ≡ rules.may_be_frugal (program_form program.now)) }
    ensures nothing { IfOk result (λ allowed. allowed.nothing ≡ rules.adjusts_nothing (program_form program.now)) }
    ensures freely { IfOk result (λ allowed. allowed.freely ≡ rules.may_adjust_frugally (program_form program.now)) }
    ensures tracks { IfOk result (λ allowed. allowed.tracks ≡ rules.may_track (program_form program.now)) }
{
    let frugal = may_be_frugal(alloc, program)?;
    let nothing = adjusts_nothing(alloc, program)?;
    let freely = frugal && tracks_beside_none(alloc, program)?;
    let tracks = may_track(program, frugal);
    Ok(Allowed {
        frugal,
        nothing,
        freely,
        tracks,
    })
}

/// Whether what overrides Initialize is plain, or frugal, where it may be.
pub(crate) fn uses_initialize(
    program: &Program,
    procedures: &[bool],
    frugal: bool,
    operation: Option<ProcedureNo>,
) -> bool
    requires { procedures.now ≡ frugal_operations (program_form program.now) }
    ensures { result ≡ first.initializes (program_form program.now) frugal operation }
{
    is_plain_operation(program, operation) || frugal && is_frugal_operation(procedures, operation)
}

/// Whether what overrides Adjust is frugal, where no Adjust is called; else whether it is simple, where it may track, if it is a body, and
/// its type has a component of an access type, declared in it directly; of another type, whether it is quiet, or frugal, where it may be
/// so freely.
///
/// # Errors
/// `AllocError` where memory for the exceptions that it raises was refused.
pub(crate) fn uses_adjust(
    alloc: Global,
    program: &Program,
    procedures: &[bool],
    may: Allowed,
    owns: bool,
    operation: Option<ProcedureNo>,
) -> Result<bool, AllocError>
    requires { procedures.now ≡ frugal_operations (program_form program.now) }
    ensures { IfOk result (λ answer. answer
        ≡ first.adjusts (program_form program.now) may.nothing may.freely may.tracks owns operation) }
{
    if may.nothing && is_frugal_operation(procedures, operation) {
        return Ok(true);
    }
    if !(owns && is_overridden(program, operation)) {
        return is_quiet_or_frugal(alloc, program, procedures, may.freely, operation);
    }
    Ok(may.tracks && is_simple_operation(program, operation))
}

/// Whether what overrides an operation is quiet, or frugal, where it may be.
///
/// # Errors
/// `AllocError` where memory for the exceptions that it raises was refused.
fn is_quiet_or_frugal(
    alloc: Global,
    program: &Program,
    procedures: &[bool],
    frugal: bool,
    operation: Option<ProcedureNo>,
) -> Result<bool, AllocError>
    requires { procedures.now ≡ frugal_operations (program_form program.now) }
    ensures { IfOk result (λ answer. answer ≡ first.finalizes (program_form program.now) frugal operation) }
{
    Ok(
        is_quiet_operation(alloc, program, operation)?
            || frugal && is_frugal_operation(procedures, operation),
    )
}

/// Whether what overrides Finalize is quiet, or frugal, where it may be.
///
/// # Errors
/// `AllocError` where memory for the exceptions that it raises was refused.
pub(crate) fn uses_finalize(
    alloc: Global,
    program: &Program,
    procedures: &[bool],
    frugal: bool,
    operation: Option<ProcedureNo>,
) -> Result<bool, AllocError>
    requires { procedures.now ≡ frugal_operations (program_form program.now) }
    ensures { IfOk result (λ answer. answer ≡ first.finalizes (program_form program.now) frugal operation) }
{
    is_quiet_or_frugal(alloc, program, procedures, frugal, operation)
}
