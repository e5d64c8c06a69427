//! What is found in the body of a procedure, and in a type, whose operations the controlled parts of objects have.

ghost use Rattle.std.specs.Prelude.{◌≡◌, Bool, true, false, IfOk, map};
ghost use Rattle.ada_deeds.specs.Does as rules;
ghost use Rattle.ada_deeds.specs.Forms as forms;
ghost use Rattle.ada_deeds.specs.View.{does_found, sought, Calls, Finds};
ghost use Rattle.ada_deeds.specs.declared.deed.Callee.{Callee};
ghost use Rattle.ada_deeds.specs.declared.deed.Deed.{Deed};
ghost use Rattle.ada_program.specs.Kept.{types_in};
ghost use Rattle.ada_program.specs.ProgramForm.{body_form, part_form, program_form, type_form};

use crate::deed::{Callee, Operation};
use crate::found::Found;
use crate::search::Search;
use crate::walk::{find_handled, find_in_declarations, find_in_handlers, find_in_leaving};
use ada_program::program::{
    Finalization, Operations, Part, PartKind, Procedure, TypeDefinition, Variable,
};
use ada_program::{ProcedureNo, Program};
use std::alloc::{AllocError, Global};

/// A body does: its handlers see what its statements do alone.
pub(crate) fn find_in_body(
    types: &[TypeDefinition],
    search: Search,
    procedure: &Procedure,
    found: &mut Found,
) -> Result<(), AllocError>
    ensures { Finds result search found.old found.new
        (λ d known. forms.body_does (types_in types.now) known d (body_form procedure.now)) }
{
    let variables: &[Variable] = &procedure.variables;
    find_in_declarations(types, variables, search, &procedure.declarations, found)?;
    find_handled(
        types,
        variables,
        search,
        &procedure.statements,
        &procedure.handlers,
        found,
    )?;
    find_in_handlers(types, variables, search, &procedure.handlers, found)?;
    find_in_leaving(types, &procedure.declarations, found)
}

/// The procedure that overrides an operation, where one does.
fn overriding(operation: Operation, operations: Operations) -> Option<ProcedureNo>
    ensures { result ≡ forms.overriding operation operations }
{
    match operation {
        Operation::Initialize => operations.initialize,
        Operation::Adjust => operations.adjust,
        Operation::Finalize => operations.finalize,
    }
}

/// The operation of the record itself calls the procedure that overrides it.
fn find_own(
    operation: Operation,
    finalization: Option<Finalization>,
    found: &mut Found,
) -> Result<(), AllocError>
    ensures { Calls result found.old found.new (λ known. forms.own_does known operation finalization) }
{
    match finalization {
        None => Ok(()),
        Some(finalization) => match overriding(operation, finalization.operations) {
            None => Ok(()),
            Some(procedure) => found.call_procedure(procedure),
        },
    }
}

/// That of a component calls the same operation of its type.
fn find_in_part(operation: Operation, kind: PartKind, found: &mut Found) -> Result<(), AllocError>
    ensures { Calls result found.old found.new (λ known. forms.part_does known operation kind) }
{
    match kind {
        PartKind::Elementary(_) | PartKind::Parent => Ok(()),
        PartKind::Record(record) => found.call(Callee::Parts(operation, record)),
    }
}

/// Those of the components do.
fn find_in_components(
    operation: Operation,
    parts: &[Part],
    found: &mut Found,
) -> Result<(), AllocError>
    ensures { Calls result found.old found.new (λ known. forms.components_do known operation (map part_form parts.now)) }
{
    'parts: for part in parts {
        find_in_part(operation, part.kind, found)?;
    }
    Ok(())
}

/// An operation of the controlled parts of an object of a type does.
fn find_in_type(
    operation: Operation,
    definition: &TypeDefinition,
    found: &mut Found,
) -> Result<(), AllocError>
    ensures { Calls result found.old found.new (λ known. forms.type_does known operation (type_form definition.now)) }
{
    match definition {
        TypeDefinition::Record {
            name: _,
            parts,
            components: _,
            finalization,
        } => {
            find_own(operation, *finalization, found)?;
            find_in_components(operation, parts, found)
        }
        TypeDefinition::Access { .. } | TypeDefinition::Object { .. } => Ok(()),
    }
}

/// Whether a callee is an operation of a type that is no record type: such an operation does nothing.
pub(crate) fn is_idle(program: &Program, callee: Callee) -> bool
    ensures { result ≡ true → (d : Deed) (known : Callee → Bool) →
        rules.callee_does (program_form program.now) known d callee ≡ false }
{
    match callee {
        Callee::Procedure(_) => false,
        Callee::Parts(_, number) => match program.types.get(number.0) {
            Some(TypeDefinition::Record { .. }) => false,
            Some(TypeDefinition::Access { .. } | TypeDefinition::Object { .. }) | None => true,
        },
    }
}

/// What a callee does, of the deeds that are sought, and calls.
///
/// # Errors
/// `AllocError` where memory for the list of what it calls was refused.
pub(crate) fn find_in_callee(
    alloc: Global,
    program: &Program,
    search: Search,
    callee: Callee,
) -> Result<Found, AllocError>
    ensures { IfOk result (λ found. (d : Deed) (known : Callee → Bool) →
        does_found found (sought search d) known ≡ rules.callee_does (program_form program.now) known (sought search d) callee) }
{
    let mut found = Found::nothing(alloc);
    match callee {
        Callee::Procedure(procedure) => match program.procedures.get(procedure.0) {
            None => (),
            Some(body) => find_in_body(&program.types, search, body, &mut found)?,
        },
        Callee::Parts(operation, record) => match program.types.get(record.0) {
            None => (),
            Some(definition) => find_in_type(operation, definition, &mut found)?,
        },
    }
    Ok(found)
}
