//! Record types whose objects are calm: no operation that is asked about is called for them, neither for an object itself nor for a part of
//! it (7.6).

ghost use Rattle.std.specs.Prelude.{◌≡◌, Some, IfOk, map};
ghost use Rattle.std.specs.List.{list_all};
ghost use Rattle.std.specs.Option.{option_copied, option_map};
ghost use Rattle.ada_program.specs.Kept.{types_in};
ghost use Rattle.ada_program.specs.ProgramForm.{part_form, type_form};
ghost use Rattle.ada_program.specs.WellFormed.{finalization_in};
ghost use Rattle.ada_quiet.specs.Calm as rules;

use crate::marks::has_mark;
use crate::numbered::numbered_types;
use crate::operations::{finalization_in, inherits};
use ada_program::parts::finalization_of;
use ada_program::program::{Finalization, Part, PartKind, TypeDefinition};
use std::alloc::{AllocError, Global};

/// Whether it is known that a record type is calm, by how its objects are finalized: one without controlled parts is, and of one with some
/// it is told by its number (7.6).
pub(crate) fn is_known_calm(calm: &[bool], finalization: Option<Finalization>) -> bool
    ensures { result ≡ rules.is_known_calm calm.now finalization }
{
    match finalization {
        None => true,
        Some(finalization) => has_mark(calm, finalization.number.0),
    }
}

/// Whether a declared component is no record, or one of a type of which that is known (3.8).
fn is_calm_part(types: &[TypeDefinition], calm: &[bool], kind: PartKind) -> bool
    ensures { result ≡ rules.is_calm_part (types_in types.now) calm.now kind }
{
    match kind {
        PartKind::Elementary(_) | PartKind::Parent => true,
        PartKind::Record(number) => is_known_calm(calm, finalization_of(types, number.0)),
    }
}

/// Whether each of these is. Linear in them.
fn are_calm_parts(types: &[TypeDefinition], calm: &[bool], parts: &[Part]) -> bool
    ensures { result ≡ list_all (λ c. rules.is_calm_part (types_in types.now) calm.now c.kind) (map part_form parts.now) }
{
    'parts: for part in parts {
        if !is_calm_part(types, calm, part.kind) {
            return false;
        }
    }
    true
}

/// Whether a type is a calm record type, where `own` says whether its own operations are so: they are, and so is each of its declared
/// components. Linear in the components.
pub(crate) fn is_calm_type(
    own: bool,
    types: &[TypeDefinition],
    calm: &[bool],
    definition: &TypeDefinition,
) -> bool
    ensures { result ≡ rules.is_calm_type own (types_in types.now) calm.now (type_form definition.now) }
{
    match definition {
        TypeDefinition::Record {
            name: _,
            parts,
            components: _,
            finalization: _,
        } => own && are_calm_parts(types, calm, parts),
        TypeDefinition::Access { .. } | TypeDefinition::Object { .. } => false,
    }
}

/// Whether a type that was found is a record type that inherits Finalize, or Adjust, as is asked, and so does each part of it. Linear in
/// its components.
fn is_inheriting_found(
    finalize: bool,
    types: &[TypeDefinition],
    inheriting: &[bool],
    definition: Option<&TypeDefinition>,
) -> bool
    ensures { result ≡ rules.is_calm_found (λ t. rules.inherits finalize (finalization_in (Some t)))
        (types_in types.now) inheriting.now (option_map type_form (option_copied definition.entry)) }
{
    let Some(definition) = definition else {
        return false;
    };
    let own = inherits(finalize, finalization_in(definition));
    is_calm_type(own, types, inheriting, definition)
}

/// Of each record type with controlled parts, by its number among these, whether Finalize, or Adjust, as is asked, is overridden neither of
/// it nor of a part of it: then nothing is called where values of it end, or where a copy of one is adjusted (7.6). The types of its
/// components have lesser numbers. Linear in the types and their components.
///
/// # Errors
/// `AllocError` where memory was refused.
pub(crate) fn inheriting_types(
    alloc: Global,
    finalize: bool,
    types: &[TypeDefinition],
) -> Result<Vec<bool>, AllocError>
    ensures { IfOk result (λ inheriting. inheriting.items ≡ rules.inheriting_types finalize (types_in types.now)) }
{
    let numbered = numbered_types(alloc, types)?;
    let mut inheriting = Vec::new(alloc);
    'numbered: for definition in &numbered {
        let is_inheriting = is_inheriting_found(finalize, types, &inheriting, *definition);
        inheriting.push(is_inheriting)?;
    }
    Ok(inheriting)
}
