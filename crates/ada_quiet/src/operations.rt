//! The bodies that override operations of controlled types (7.6), where they are plain, quiet, frugal or simple.

ghost use Rattle.std.specs.Prelude.{◌≡◌, ◌&&◌, Some, is_some, map, not, IfOk};
ghost use Rattle.std.specs.List.{list_any, slice_get};
ghost use Rattle.ada_program.specs.Kept.{types_in};
ghost use Rattle.ada_program.specs.ProgramForm.{ProgramForm, part_form, program_form, type_form};
ghost use Rattle.ada_program.specs.WellFormed as fits;
ghost use Rattle.ada_quiet.specs.Calm as calm;
ghost use Rattle.ada_quiet.specs.Frugal as spent;
ghost use Rattle.ada_quiet.specs.Quiet as rules;
ghost use Rattle.ada_quiet.specs.Simple as simple;

use crate::bodies::{is_plain_body, is_quiet_body};
use crate::marks::has_mark;
use crate::simple::is_simple_body;
use ada_program::program::{ComponentKind, Finalization, Part, PartKind, TypeDefinition};
use ada_program::{ProcedureNo, Program};
use std::alloc::{AllocError, Global};

/// Whether what overrides an operation has a plain body, if one is overridden.
pub(crate) fn is_plain_operation(program: &Program, operation: Option<ProcedureNo>) -> bool
    ensures { result ≡ rules.is_plain_operation (program_form program.now) operation }
{
    let Some(number) = operation else {
        return true;
    };
    let Some(procedure) = program.procedures.get(number.0) else {
        return true;
    };
    is_plain_body(&program.types, procedure)
}

/// Whether it has a quiet one.
///
/// # Errors
/// `AllocError` where memory for the exceptions that it raises was refused.
pub(crate) fn is_quiet_operation(
    alloc: Global,
    program: &Program,
    operation: Option<ProcedureNo>,
) -> Result<bool, AllocError>
    ensures { IfOk result (λ answer. answer ≡ rules.is_quiet_operation (program_form program.now) operation) }
{
    let Some(number) = operation else {
        return Ok(true);
    };
    let Some(procedure) = program.procedures.get(number.0) else {
        return Ok(true);
    };
    is_quiet_body(alloc, &program.types, procedure)
}

/// Whether it has a frugal one, by the procedures whose bodies are so as those of operations.
pub(crate) fn is_frugal_operation(frugal: &[bool], operation: Option<ProcedureNo>) -> bool
    ensures { (p : ProgramForm) → frugal.now ≡ spent.frugal_operations p → result ≡ spent.is_frugal_operation p operation }
{
    match operation {
        None => true,
        Some(procedure) => has_mark(frugal, procedure.0),
    }
}

/// Whether it has a simple one.
pub(crate) fn is_simple_operation(program: &Program, operation: Option<ProcedureNo>) -> bool
    ensures { result ≡ simple.is_simple_operation (program_form program.now) operation }
{
    let Some(number) = operation else {
        return true;
    };
    let Some(procedure) = program.procedures.get(number.0) else {
        return true;
    };
    is_simple_body(&program.types, procedure)
}

/// Whether all those have a quiet one that override the operations of a type.
fn has_quiet_operations(
    alloc: Global,
    program: &Program,
    finalization: Option<Finalization>,
) -> Result<bool, AllocError>
    ensures { IfOk result (λ answer. answer ≡ rules.has_quiet_operations (program_form program.now) finalization) }
{
    let Some(finalization) = finalization else {
        return Ok(true);
    };
    let operations = finalization.operations;
    Ok(
        is_quiet_operation(alloc, program, operations.initialize)?
            && is_quiet_operation(alloc, program, operations.adjust)?
            && is_quiet_operation(alloc, program, operations.finalize)?,
    )
}

/// Whether a declared component is of an access type (3.8, 3.10).
fn is_of_access(kind: PartKind) -> bool
    ensures { result ≡ rules.is_of_access kind }
{
    matches!(kind, PartKind::Elementary(ComponentKind::Access(_)))
}

/// Whether one of these is.
pub(crate) fn have_access(parts: &[Part]) -> bool
    ensures { result ≡ list_any (λ c. rules.is_of_access c.kind) (map part_form parts.now) }
{
    'parts: for part in parts {
        if is_of_access(part.kind) {
            return true;
        }
    }
    false
}

/// Whether a type is a record type with such a component, declared in it directly.
pub(crate) fn has_own_access(definition: &TypeDefinition) -> bool
    ensures { result ≡ rules.has_access (Some (type_form definition.now)) }
{
    match definition {
        TypeDefinition::Record {
            name: _,
            parts,
            components: _,
            finalization: _,
        } => have_access(parts),
        TypeDefinition::Access { .. } | TypeDefinition::Object { .. } => false,
    }
}

/// Whether the type of a number is.
pub(crate) fn has_access(types: &[TypeDefinition], number: usize) -> bool
    ensures { result ≡ rules.has_access (slice_get (types_in types.now) number) }
{
    match types.get(number) {
        Some(definition) => has_own_access(definition),
        None => false,
    }
}

/// Whether a body overrides an operation.
pub(crate) fn is_overridden(program: &Program, operation: Option<ProcedureNo>) -> bool
    ensures { result ≡ is_some (rules.operation_body (program_form program.now) operation) }
{
    match operation {
        None => false,
        Some(number) => program.procedures.get(number.0).is_some(),
    }
}

/// How objects of a type are finalized. None, if it is no record type whose objects have controlled parts.
pub(crate) fn finalization_in(definition: &TypeDefinition) -> Option<Finalization>
    ensures { result ≡ fits.finalization_in (Some (type_form definition.now)) }
{
    match definition {
        TypeDefinition::Record {
            name: _,
            parts: _,
            components: _,
            finalization,
        } => *finalization,
        TypeDefinition::Access { .. } | TypeDefinition::Object { .. } => None,
    }
}

/// Whether a type inherits Finalize, or Adjust, as is asked: no body overrides it (7.6).
pub(crate) fn inherits(finalize: bool, finalization: Option<Finalization>) -> bool
    ensures { result ≡ calm.inherits finalize finalization }
{
    match finalization {
        None => true,
        Some(finalization) => {
            if finalize {
                finalization.operations.finalize.is_none()
            } else {
                finalization.operations.adjust.is_none()
            }
        }
    }
}

/// Whether a body overrides Adjust of a type.
fn is_adjusted(program: &Program, finalization: Option<Finalization>) -> bool
    ensures { result ≡ is_some (rules.adjust_body (program_form program.now) finalization) }
{
    match finalization {
        None => false,
        Some(finalization) => is_overridden(program, finalization.operations.adjust),
    }
}

/// Whether a body overrides Adjust of a type with a component of an access type, declared in it directly (3.10, 7.6). Linear in the
/// components.
fn adjusts_access(program: &Program, definition: &TypeDefinition) -> bool
    ensures { result ≡ rules.adjusts_access (program_form program.now) (type_form definition.now) }
{
    has_own_access(definition) && is_adjusted(program, finalization_in(definition))
}

/// Whether the operations of a type are quiet, and none overrides its Adjust where it has a component of an access type.
///
/// # Errors
/// `AllocError` where memory for the exceptions that a body raises was refused.
fn is_quiet_type(
    alloc: Global,
    program: &Program,
    definition: &TypeDefinition,
) -> Result<bool, AllocError>
    ensures { IfOk result (λ answer. answer ≡
        (rules.has_quiet_operations (program_form program.now) (fits.finalization_in (Some (type_form definition.now)))
        && not (rules.adjusts_access (program_form program.now) (type_form definition.now)))) }
{
    let quiet = has_quiet_operations(alloc, program, finalization_in(definition))?;
    Ok(quiet && !adjusts_access(program, definition))
}

/// Whether whatever overrides an operation of a controlled type (7.6) is quiet, and none overrides Adjust of a type with a component
/// of an access type, declared in it directly, which a quiet one leaves as it is. Linear in the types, their components, and the
/// bodies of their operations.
///
/// # Errors
/// `AllocError` where memory for the exceptions that a body raises was refused.
pub fn operations_are_quiet(alloc: Global, program: &Program) -> Result<bool, AllocError>
    ensures { IfOk result (λ answer. answer ≡ rules.operations_are_quiet (program_form program.now)) }
{
    'types: for definition in &program.types {
        if !is_quiet_type(alloc, program, definition)? {
            return Ok(false);
        }
    }
    Ok(true)
}
