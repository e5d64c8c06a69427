//! Whether the declared components of record types lie where they say among the elementary components (3.8).

ghost use Rattle.std.specs.Prelude.{◌≡◌, Some, map};
ghost use Rattle.std.specs.List.{list_all};
ghost use Rattle.ada_program.specs.ProgramForm.{part_form, type_form};
ghost use Rattle.ada_program.specs.Kept.{types_in};
ghost use Rattle.ada_program.specs.WellFormed as fits;

use crate::lookup::record_components;
use crate::program::{ComponentKind, Part, PartKind, TypeDefinition};
use crate::records::{begins_with, begins_with_record, behind};

/// Whether the components of each type lie where they say.
pub(crate) fn components_lie(types: &[TypeDefinition]) -> bool
    ensures { result ≡ list_all (λ d. fits.components_lie (types_in types.now) (type_form d)) types.now }
{
    types.iter().all(|definition| lie_in(types, definition))
}

/// Whether the declared components of a type lie where they say.
#[tactic(auto, using(std::proofs::lemmas::Grind::common_steps, crate::proofs::Viewed::views))]
fn lie_in(types: &[TypeDefinition], definition: &TypeDefinition) -> bool
    ensures { result ≡ fits.components_lie (types_in types.now) (type_form definition.now) }
{
    match definition {
        TypeDefinition::Record {
            name: _,
            parts,
            components,
            finalization: _,
        } => lie_among(types, components, parts),
        TypeDefinition::Access { .. } | TypeDefinition::Object { .. } => true,
    }
}

/// Whether each of these declared components lies where it says among the components of its record type.
fn lie_among(types: &[TypeDefinition], components: &[ComponentKind], parts: &[Part]) -> bool
    ensures { result ≡ list_all (λ p. fits.component_lies (types_in types.now) components.now (part_form p)) parts.now }
{
    parts.iter().all(|part| lies(types, components, part))
}

/// Whether the components of a declared component are where it says.
fn lies(types: &[TypeDefinition], components: &[ComponentKind], part: &Part) -> bool
    ensures { result ≡ fits.component_lies (types_in types.now) components.now (part_form part.now) }
{
    let here = behind(components, part.first.0);
    match part.kind {
        PartKind::Elementary(kind) => begins_with(here, &[kind]),
        PartKind::Record(record) => begins_with_record(here, record_components(types, record.0)),
        PartKind::Parent => true,
    }
}
