//! Record types of which a copy has no part whose Adjust tracks beside a part whose Adjust touches storage otherwise (7.6).

ghost use Rattle.std.specs.Prelude.{◌≡◌, Some, IfOk};
ghost use Rattle.std.specs.List.{list_all};
ghost use Rattle.std.specs.Option.{option_copied, option_map};
ghost use Rattle.ada_program.specs.Kept.{types_in};
ghost use Rattle.ada_program.specs.ProgramForm.{program_form, type_form};
ghost use Rattle.ada_program.specs.WellFormed as fits;
ghost use Rattle.ada_quiet.specs.Apart as apart;
ghost use Rattle.ada_quiet.specs.Calm as calm;
ghost use Rattle.ada_quiet.specs.InUse as uses;
ghost use Rattle.ada_quiet.specs.Mixed as rules;

use crate::calm::{is_calm_type, is_known_calm};
use crate::numbered::numbered_types;
use crate::operations::{finalization_in, has_own_access, is_quiet_operation};
use crate::tracking::{leaves_access, tracks_nothing};
use ada_program::Program;
use ada_program::program::{Finalization, TypeDefinition};
use std::alloc::{AllocError, Global};

/// Whether a type that was found is a record type no Adjust of which tracks, and so is each part of it. Linear in its components.
fn is_untracked_found(
    types: &[TypeDefinition],
    untracked: &[bool],
    definition: Option<&TypeDefinition>,
) -> bool
    ensures { result ≡ calm.is_calm_found (λ t. apart.leaves_access t (fits.finalization_in (Some t)))
        (types_in types.now) untracked.now (option_map type_form (option_copied definition.entry)) }
{
    let Some(definition) = definition else {
        return false;
    };
    is_calm_type(leaves_access(definition), types, untracked, definition)
}

/// Of each record type with controlled parts, by its number among these, whether no Adjust tracks, neither of it nor of a part of it. The
/// types of its components have lesser numbers. Linear in the types and their components.
///
/// # Errors
/// `AllocError` where memory was refused.
fn untracked_types(alloc: Global, types: &[TypeDefinition]) -> Result<Vec<bool>, AllocError>
    ensures { IfOk result (λ untracked. untracked.items ≡ rules.untracked_types (types_in types.now)) }
{
    let numbered = numbered_types(alloc, types)?;
    let mut untracked = Vec::new(alloc);
    'numbered: for definition in &numbered {
        let is_untracked = is_untracked_found(types, &untracked, *definition);
        untracked.push(is_untracked)?;
    }
    Ok(untracked)
}

/// Whether what overrides Adjust of a type tracks, as the type declares a component of an access type directly, or is quiet, if one does.
///
/// # Errors
/// `AllocError` where memory for the exceptions that it raises was refused.
fn tracks_or_is_quiet(
    alloc: Global,
    program: &Program,
    definition: &TypeDefinition,
) -> Result<bool, AllocError>
    ensures { IfOk result (λ answer. answer
        ≡ rules.tracks_or_is_quiet (program_form program.now) (type_form definition.now) (fits.finalization_in (Some (type_form definition.now)))) }
{
    let Some(finalization) = finalization_in(definition) else {
        return Ok(true);
    };
    if has_own_access(definition) {
        return Ok(true);
    }
    is_quiet_operation(alloc, program, finalization.operations.adjust)
}

/// Whether a type that was found is a record type each Adjust of which is so, and so is each part of it. Linear in its components and the
/// body.
///
/// # Errors
/// `AllocError` where memory was refused.
fn is_tracked_or_quiet_found(
    alloc: Global,
    program: &Program,
    tracked_or_quiet: &[bool],
    definition: Option<&TypeDefinition>,
) -> Result<bool, AllocError>
    ensures { IfOk result (λ answer. answer
        ≡ calm.is_calm_found (λ t. rules.tracks_or_is_quiet (program_form program.now) t (fits.finalization_in (Some t)))
        (program_form program.now).types tracked_or_quiet.now (option_map type_form (option_copied definition.entry))) }
{
    let Some(definition) = definition else {
        return Ok(false);
    };
    let own = tracks_or_is_quiet(alloc, program, definition)?;
    Ok(is_calm_type(own, &program.types, tracked_or_quiet, definition))
}

/// Of each record type with controlled parts, by its number among these, whether each Adjust tracks or is quiet, of it and of each part of
/// it. The types of its components have lesser numbers. Linear in the types, their components, and all bodies.
///
/// # Errors
/// `AllocError` where memory was refused.
fn tracked_or_quiet_types(alloc: Global, program: &Program) -> Result<Vec<bool>, AllocError>
    ensures { IfOk result (λ tracked_or_quiet. tracked_or_quiet.items ≡ rules.tracked_or_quiet_types (program_form program.now)) }
{
    let numbered = numbered_types(alloc, &program.types)?;
    let mut tracked_or_quiet = Vec::new(alloc);
    'numbered: for definition in &numbered {
        let is_so = is_tracked_or_quiet_found(alloc, program, &tracked_or_quiet, *definition)?;
        tracked_or_quiet.push(is_so)?;
    }
    Ok(tracked_or_quiet)
}

/// Whether a record type is one or the other.
fn is_unmixed(
    untracked: &[bool],
    tracked_or_quiet: &[bool],
    finalization: Option<Finalization>,
) -> bool
    ensures { result ≡ rules.is_unmixed untracked.now tracked_or_quiet.now finalization }
{
    is_known_calm(untracked, finalization) || is_known_calm(tracked_or_quiet, finalization)
}

/// Whether that is so with each of these types. Linear in them.
fn are_unmixed(types: &[TypeDefinition], untracked: &[bool], tracked_or_quiet: &[bool]) -> bool
    ensures { result ≡ list_all (λ t. rules.is_unmixed untracked.now tracked_or_quiet.now (fits.finalization_in (Some t))) (types_in types.now) }
{
    'types: for definition in types {
        if !is_unmixed(untracked, tracked_or_quiet, finalization_in(definition)) {
            return false;
        }
    }
    true
}

/// Whether none tracks in the same copy, where an Adjust touches storage and does not track: none of the program tracks, or no record type
/// has parts of both kinds. Linear in the types, their components, and all bodies.
///
/// # Errors
/// `AllocError` where memory was refused.
pub(crate) fn tracks_beside_none(alloc: Global, program: &Program) -> Result<bool, AllocError>
    ensures { IfOk result (λ answer. answer ≡ uses.tracks_beside_none (program_form program.now)) }
{
    if tracks_nothing(program) {
        return Ok(true);
    }
    let untracked = untracked_types(alloc, &program.types)?;
    let tracked_or_quiet = tracked_or_quiet_types(alloc, program)?;
    Ok(are_unmixed(&program.types, &untracked, &tracked_or_quiet))
}
