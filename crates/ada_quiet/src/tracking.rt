//! Where an Adjust may track the components of access types of its formal parameter (7.6): a Finalize may be frugal, the elementary components
//! of each record type stand in the order of its declared components, and a record whose type overrides Adjust is itself adjusted. And
//! where none tracks.

ghost use Rattle.std.specs.Prelude.{◌≡◌, ◌&&◌, ◌||◌, ◌==◌, Some, map};
ghost use Rattle.std.specs.List.{list_all, list_any};
ghost use Rattle.std.specs.Option.{option_copied};
ghost use Rattle.ada_program.specs.Kept.{types_in};
ghost use Rattle.ada_program.specs.ProgramForm.{part_form, program_form, type_form};
ghost use Rattle.ada_program.specs.WellFormed as fits;
ghost use Rattle.ada_quiet.specs.Apart as apart;
ghost use Rattle.ada_quiet.specs.InUse as rules;

use crate::operations::{finalization_in, has_own_access};
use ada_program::Program;
use ada_program::lookup::record_components;
use ada_program::program::{ComponentKind, Finalization, Part, PartKind, TypeDefinition};

/// How many components there are, if they are those of something.
fn count_found(components: Option<&[ComponentKind]>) -> usize
    ensures { result ≡ rules.count_found (option_copied components.entry) }
{
    match components {
        None => 0,
        Some(components) => components.len(),
    }
}

/// How many elementary components a declared component has (3.8): one, or as many as its record type; the parent part has none (7.6).
fn size_of_part(types: &[TypeDefinition], kind: PartKind) -> usize
    ensures { result ≡ rules.size_of_part (types_in types.now) kind }
{
    match kind {
        PartKind::Elementary(_) => 1,
        PartKind::Record(number) => count_found(record_components(types, number.0)),
        PartKind::Parent => 0,
    }
}

/// Whether the elementary components of a declared component begin at a number. The parent part has none, wherever it stands.
fn stands_at(part: &Part, from: usize) -> bool
    ensures { result ≡ (fits.is_parent part.now.kind || (part.now.first.0 == from)) }
{
    matches!(part.kind, PartKind::Parent) || part.first.0 == from
}

/// Whether the elementary components of declared components stand one behind another, up to their count (3.8).
fn stand_in_a_row(types: &[TypeDefinition], parts: &[Part], count: usize) -> bool
    ensures { result ≡ rules.stand_in_a_row (types_in types.now) 0 (map part_form parts.now) count }
{
    let mut from: usize = 0;
    'parts: for part in parts {
        if !stands_at(part, from) {
            return false;
        }
        match from.checked_add(size_of_part(types, part.kind)) {
            Some(next) => from = next,
            None => return false,
        }
    }
    from == count
}

/// Whether one of these is the parent part.
fn have_parent(parts: &[Part]) -> bool
    ensures { result ≡ list_any (λ c. fits.is_parent c.kind) (map part_form parts.now) }
{
    'parts: for part in parts {
        if matches!(part.kind, PartKind::Parent) {
            return true;
        }
    }
    false
}

/// Whether a type overrides no Adjust, or is controlled itself (7.6).
fn adjusts_itself(parts: &[Part], finalization: Option<Finalization>) -> bool
    ensures { result ≡ rules.adjusts_itself (map part_form parts.now) finalization }
{
    match finalization {
        None => true,
        Some(finalization) => finalization.operations.adjust.is_none() || have_parent(parts),
    }
}

/// Whether, where a record of a type is copied, its elementary components are those of its declared components, one behind another, and
/// the record itself is adjusted where its type overrides Adjust (3.8, 7.6).
fn is_copied_in_order(types: &[TypeDefinition], definition: &TypeDefinition) -> bool
    ensures { result ≡ rules.is_copied_in_order (types_in types.now) (type_form definition.now) }
{
    match definition {
        TypeDefinition::Record {
            name: _,
            parts,
            components,
            finalization,
        } => {
            stand_in_a_row(types, parts, components.len()) && adjusts_itself(parts, *finalization)
        }
        TypeDefinition::Access { .. } | TypeDefinition::Object { .. } => true,
    }
}

/// Whether that is so with each of these types.
pub(crate) fn are_copied_in_order(types: &[TypeDefinition]) -> bool
    ensures { result ≡ list_all (rules.is_copied_in_order (types_in types.now)) (types_in types.now) }
{
    'types: for definition in types {
        if !is_copied_in_order(types, definition) {
            return false;
        }
    }
    true
}

/// Whether an Adjust may track its components in a program, where a Finalize may be frugal or not: it may be, and the components of each
/// record stand in order. Linear in the types and their components.
pub(crate) fn may_track(program: &Program, frugal: bool) -> bool
    ensures { let p = program_form program.now in result ≡ (frugal && list_all (rules.is_copied_in_order p.types) p.types) }
{
    frugal && are_copied_in_order(&program.types)
}

/// Whether a type that declares a component of an access type directly overrides no Adjust (3.10, 7.6).
pub(crate) fn leaves_access(definition: &TypeDefinition) -> bool
    ensures { let t = type_form definition.now in result ≡ apart.leaves_access t (fits.finalization_in (Some t)) }
{
    match finalization_in(definition) {
        None => true,
        Some(finalization) => {
            !has_own_access(definition) || finalization.operations.adjust.is_none()
        }
    }
}

/// Whether that is so with each of these types, so that no Adjust tracks. Linear in the types and their components.
pub(crate) fn leave_access(types: &[TypeDefinition]) -> bool
    ensures { result ≡ apart.leave_access (types_in types.now) }
{
    'types: for definition in types {
        if !leaves_access(definition) {
            return false;
        }
    }
    true
}

/// Whether no Adjust of a program tracks. Linear in the types and their components.
pub(crate) fn tracks_nothing(program: &Program) -> bool
    ensures { result ≡ rules.tracks_nothing (program_form program.now) }
{
    leave_access(&program.types)
}
