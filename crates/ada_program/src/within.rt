//! Which records lie in which: the parts of the objects of a record type, at any depth (3.8).

ghost use Rattle.std.specs.Prelude.{◌≡◌, map};
ghost use Rattle.std.specs.List.{list_any, slice_get};
ghost use Rattle.ada_program.specs.Kept.{types_in};
ghost use Rattle.ada_program.specs.Parts as parts;
ghost use Rattle.ada_program.specs.ProgramForm.{part_form};
ghost use Rattle.ada_program.specs.WellFormed as fits;

use crate::program::{Part, PartKind, TypeDefinition, TypeNo};

/// Whether the objects of a type, where there is one, have a part of a record type.
pub(crate) fn is_part_of(
    types: &[TypeDefinition],
    record_type: TypeNo,
    object: Option<usize>,
) -> bool
    ensures { result ≡ fits.is_part_of (types_in types.now) record_type.0 object }
{
    match object {
        None => false,
        Some(whole) => has_part_within(types, types.len(), record_type, whole),
    }
}

/// Whether they have one at most so many components deep.
#[cycle(having_parts)]
fn has_part_within(
    types: &[TypeDefinition],
    depth: usize,
    record_type: TypeNo,
    whole: usize,
) -> bool
    ensures { result ≡ parts.has_part_within (types_in types.now) depth record_type.0 whole }
{
    whole == record_type.0
        || depth > 0 && has_component_with_part(types, depth - 1, record_type, whole)
}

/// Whether a component of a record type has one.
#[cycle(having_parts)]
fn has_component_with_part(
    types: &[TypeDefinition],
    depth: usize,
    record_type: TypeNo,
    whole: usize,
) -> bool
    ensures { let all = types_in types.now in
        result ≡ parts.has_component_among (parts.has_part_within all depth record_type.0) (slice_get all whole) }
{
    match types.get(whole) {
        Some(
            TypeDefinition::Record {
                name: _,
                parts,
                components: _,
                finalization: _,
            },
        ) => have_part(types, depth, record_type, parts),
        Some(TypeDefinition::Access { .. } | TypeDefinition::Object { .. }) | None => false,
    }
}

/// Whether one of these components has one.
#[cycle(having_parts)]
fn have_part(
    types: &[TypeDefinition],
    depth: usize,
    record_type: TypeNo,
    components: &[Part],
) -> bool
    ensures { let all = types_in types.now in
        result ≡ list_any (λ p. parts.is_record_among (parts.has_part_within all depth record_type.0) p.kind) (map part_form components.now) }
{
    'components: for component in components {
        if let PartKind::Record(inner) = component.kind {
            if has_part_within(types, depth, record_type, inner.0) {
                return true;
            }
        }
    }
    false
}
