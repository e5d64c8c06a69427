//! Whether record types say how many controlled parts their objects have, and are numbered behind the types of their components
//! (7.6).

ghost use Rattle.std.specs.Prelude.{◌≡◌, Some, not, map, count_by};
ghost use Rattle.std.specs.List.{list_all};
ghost use Rattle.ada_program.specs.ProgramForm.{part_form, type_form};
ghost use Rattle.ada_program.specs.Kept.{types_in};
ghost use Rattle.ada_program.specs.WellFormed as fits;

use crate::program::{Finalization, Part, PartKind, RecordNo, TypeDefinition};

/// How objects of the record type of a number are finalized. None, where they have no controlled parts.
pub fn finalization_of(types: &[TypeDefinition], number: usize) -> Option<Finalization>
    ensures { result ≡ fits.finalization_of (types_in types.now) number }
{
    finalization_in(types.get(number)?)
}

/// How objects of a type are finalized. None, if it is no record type whose objects have controlled parts.
pub(crate) fn finalization_in(definition: &TypeDefinition) -> Option<Finalization>
    ensures { result ≡ fits.finalization_in (Some (type_form definition.now)) }
{
    match definition {
        TypeDefinition::Record {
            name: _,
            parts: _,
            components: _,
            finalization,
        } => *finalization,
        TypeDefinition::Access { .. } | TypeDefinition::Object { .. } => None,
    }
}

/// How many controlled parts the objects of the record type of a number have.
pub fn part_count(types: &[TypeDefinition], number: usize) -> usize
    ensures { result ≡ fits.part_count (types_in types.now) number }
{
    match finalization_of(types, number) {
        None => 0,
        Some(finalization) => finalization.parts,
    }
}

/// How many controlled parts a declared component has: the parent part is one.
pub(crate) fn parts_within(types: &[TypeDefinition], kind: PartKind) -> usize
    ensures { result ≡ fits.parts_within (types_in types.now) kind }
{
    match kind {
        PartKind::Elementary(_) => 0,
        PartKind::Record(number) => part_count(types, number.0),
        PartKind::Parent => 1,
    }
}

/// Whether only the first component is a parent part.
#[tactic(auto, using(std::proofs::lemmas::Grind::common_steps, crate::proofs::Viewed::views))]
pub(crate) fn parent_first(parts: &[Part]) -> bool
    ensures { result ≡ fits.parent_first (map part_form parts.now) }
{
    match parts.split_first() {
        None => true,
        Some((_, others)) => has_no_parent(others),
    }
}

/// Whether none of these components is a parent part.
fn has_no_parent(parts: &[Part]) -> bool
    ensures { result ≡ list_all (λ p. not (fits.is_parent p.kind)) parts.now }
{
    parts.iter().all(|part| !is_parent(part.kind))
}

/// Whether a declared component is the parent part.
fn is_parent(kind: PartKind) -> bool
    ensures { result ≡ fits.is_parent kind }
{
    match kind {
        PartKind::Parent => true,
        PartKind::Elementary(_) | PartKind::Record(_) => false,
    }
}

/// Whether a record type says how many controlled parts its objects have, and is numbered behind the types of its components.
#[tactic(auto, using(std::proofs::lemmas::Grind::common_steps, crate::proofs::Viewed::views))]
pub(crate) fn says_parts(
    types: &[TypeDefinition],
    finalization: Option<Finalization>,
    parts: &[Part],
) -> bool
    ensures { result ≡ fits.says_parts (types_in types.now) finalization (map part_form parts.now) }
{
    match finalization {
        None => parts_in_order(types, 0, parts),
        Some(finalization) => finalization.parts > 0
            && parts_in_order(types, finalization.parts, parts)
            && are_of_earlier(types, finalization.number, parts),
    }
}

/// Whether the controlled parts of declared components are numbered in order, up to their count.
fn parts_in_order(types: &[TypeDefinition], count: usize, parts: &[Part]) -> bool
    ensures { result ≡ fits.parts_in_order (types_in types.now) count 0 (map part_form parts.now) }
{
    let mut from: usize = 0;
    for part in parts {
        if part.part.0 != from {
            return false;
        }
        match from.checked_add(parts_within(types, part.kind)) {
            Some(next) => from = next,
            None => return false,
        }
    }
    from == count
}

/// Whether the record types of declared components, where they are ones with controlled parts, have less numbers than this.
fn are_of_earlier(types: &[TypeDefinition], number: RecordNo, parts: &[Part]) -> bool
    ensures { result ≡ list_all (λ p. fits.is_of_earlier (types_in types.now) number.0 p.kind) parts.now }
{
    parts
        .iter()
        .all(|part| is_of_earlier(types, number, part.kind))
}

/// Whether the record type of a declared component, if it is one with controlled parts, has a less number than this.
fn is_of_earlier(types: &[TypeDefinition], number: RecordNo, kind: PartKind) -> bool
    ensures { result ≡ fits.is_of_earlier (types_in types.now) number.0 kind }
{
    match kind {
        PartKind::Elementary(_) | PartKind::Parent => true,
        PartKind::Record(record) => match finalization_of(types, record.0) {
            None => true,
            Some(finalization) => finalization.number.0 < number.0,
        },
    }
}

/// Whether a type has a number of its own among those that have controlled parts, below how many there are.
pub(crate) fn is_numbered_alone(
    types: &[TypeDefinition],
    finalization: Option<Finalization>,
) -> bool
    ensures { result ≡ fits.is_numbered_alone (types_in types.now) finalization }
{
    match finalization {
        None => true,
        Some(finalization) => finalization.number.0 < numbered_types(types)
            && types_of_number(types, finalization.number) == 1,
    }
}

/// How many record types have controlled parts.
#[tactic(auto, using(std::proofs::lemmas::Grind::common_steps, crate::proofs::Viewed::views))]
fn numbered_types(types: &[TypeDefinition]) -> usize
    ensures { result ≡ fits.numbered_types (types_in types.now) }
{
    types
        .iter()
        .filter(|definition| finalization_in(definition).is_some())
        .count()
}

/// How many record types have a number among those that have controlled parts.
#[tactic(auto, using(std::proofs::lemmas::Grind::common_steps, crate::proofs::Viewed::views))]
fn types_of_number(types: &[TypeDefinition], number: RecordNo) -> usize
    ensures { result
        ≡ count_by (λ t. fits.has_number number.0 (fits.finalization_in (Some t))) (types_in types.now) }
{
    types
        .iter()
        .filter(|definition| has_number(number, finalization_in(definition)))
        .count()
}

/// Whether this is the number of a record type among those that have controlled parts.
fn has_number(number: RecordNo, finalization: Option<Finalization>) -> bool
    ensures { result ≡ fits.has_number number.0 finalization }
{
    match finalization {
        None => false,
        Some(finalization) => finalization.number.0 == number.0,
    }
}
