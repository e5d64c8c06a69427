//! Records that own what they name: none of them is copied as a whole, unless an Adjust of its own gives the copy what it
//! owns (7.6).

ghost use Rattle.std.specs.Prelude.{◌≡◌, map, option_copied};
ghost use Rattle.std.specs.List.{list_any, slice_get};
ghost use Rattle.ada_flow.specs.Flow as rules;
ghost use Rattle.ada_program.specs.Parts.{has_component_among, is_record_among};
ghost use Rattle.ada_flow.specs.Told.{broken};
ghost use Rattle.ada_program.specs.Form.{item_form};
ghost use Rattle.ada_program.specs.ProgramForm.{part_form, type_form};

use crate::fault::Breach;
use crate::rule::Rule;
use ada_program::lookup::record_components;
use ada_program::program::{ComponentKind, Finalization, Item, Part, PartKind, TypeDefinition};
use ada_program::{Spot, TypeNo};

/// Whether a component is of an access type, and so owns what it names.
fn is_owning(component: ComponentKind) -> bool
    ensures { result ≡ rules.is_owning component }
{
    match component {
        ComponentKind::Integer { initial: _ } | ComponentKind::Boolean { initial: _ } => false,
        ComponentKind::Access(_) => true,
    }
}

/// Whether one of these components owns what it names. Costs their number.
fn have_owning(components: &[ComponentKind]) -> bool
    ensures { result ≡ list_any rules.is_owning components.now }
{
    components.iter().any(|component| is_owning(*component))
}

/// The same of the components of a record type, if there is such a type.
fn owns_among(components: Option<&[ComponentKind]>) -> bool
    ensures { result ≡ rules.owns_among (option_copied components.entry) }
{
    match components {
        None => false,
        Some(components) => have_owning(components),
    }
}

/// Whether a record type has a component that owns what it names, at any depth. Costs the number of its components.
pub(crate) fn is_owning_record(types: &[TypeDefinition], record_type: TypeNo) -> bool
    ensures { result ≡ rules.is_owning_record (map type_form types.now) record_type.0 }
{
    owns_among(record_components(types, record_type.0))
}

/// Whether a declared component is of an access type.
fn is_owning_part(kind: PartKind) -> bool
    ensures { result ≡ rules.is_owning_part kind }
{
    match kind {
        PartKind::Elementary(component) => is_owning(component),
        PartKind::Record(_) | PartKind::Parent => false,
    }
}

/// Whether one of these declared components is of an access type.
fn have_owning_part(parts: &[Part]) -> bool
    ensures { result ≡ list_any (λ p. rules.is_owning_part p.kind) (map part_form parts.now) }
{
    'parts: for part in parts {
        if is_owning_part(part.kind) {
            return true;
        }
    }
    false
}

/// Whether a record type has no Adjust of its own.
fn leaves_copies(finalization: &Option<Finalization>) -> bool
    ensures { result ≡ rules.leaves_copies finalization.now }
{
    match finalization {
        None => true,
        Some(finalization) => finalization.operations.adjust.is_none(),
    }
}

/// Whether a component of an access type is declared in a record type that has no Adjust of its own. Costs the number of its
/// declared components.
fn leaves_own(types: &[TypeDefinition], record_type: TypeNo) -> bool
    ensures { result ≡ rules.leaves_own (slice_get (map type_form types.now) record_type.0) }
{
    match types.get(record_type.0) {
        Some(
            TypeDefinition::Record {
                name: _,
                parts,
                components: _,
                finalization,
            },
        ) => have_owning_part(parts) && leaves_copies(finalization),
        Some(TypeDefinition::Access { .. } | TypeDefinition::Object { .. }) | None => false,
    }
}

/// Whether a declared component is of an access type, or a record that has one. Costs the number of its own components.
fn owns_within(types: &[TypeDefinition], kind: PartKind) -> bool
    ensures { result ≡ rules.owns_within (map type_form types.now) kind }
{
    match kind {
        PartKind::Elementary(kind) => is_owning(kind),
        PartKind::Record(record_type) => is_owning_record(types, record_type),
        PartKind::Parent => false,
    }
}

/// Whether one of these declared components is.
fn have_owner(types: &[TypeDefinition], parts: &[Part]) -> bool
    ensures { result ≡ list_any (λ p. rules.owns_within (map type_form types.now) p.kind) (map part_form parts.now) }
{
    'parts: for part in parts {
        if owns_within(types, part.kind) {
            return true;
        }
    }
    false
}

/// Whether such a component is declared in a record type.
fn declares_owner(types: &[TypeDefinition], record_type: TypeNo) -> bool
    ensures { let all = map type_form types.now in result ≡ rules.declares_owner all (slice_get all record_type.0) }
{
    match types.get(record_type.0) {
        Some(
            TypeDefinition::Record {
                name: _,
                parts,
                components: _,
                finalization: _,
            },
        ) => have_owner(types, parts),
        Some(TypeDefinition::Access { .. } | TypeDefinition::Object { .. }) | None => false,
    }
}

/// Whether a copy of an object of a record type leaves two owners, where owners are looked for at most so many records deep.
#[cycle(leaving_owners)]
fn leaves_within(types: &[TypeDefinition], depth: usize, record_type: TypeNo) -> bool
    ensures { result ≡ rules.leaves_within (map type_form types.now) depth record_type.0 }
{
    if !is_owning_record(types, record_type) {
        return false;
    }
    depth == 0
        || leaves_own(types, record_type)
        || !declares_owner(types, record_type)
        || has_leaving_component(types, depth - 1, record_type)
}

/// Whether a component of a record type would.
#[cycle(leaving_owners)]
fn has_leaving_component(types: &[TypeDefinition], depth: usize, record_type: TypeNo) -> bool
    ensures { let all = map type_form types.now in
        result ≡ has_component_among (rules.leaves_within all depth) (slice_get all record_type.0) }
{
    match types.get(record_type.0) {
        Some(
            TypeDefinition::Record {
                name: _,
                parts,
                components: _,
                finalization: _,
            },
        ) => have_leaving(types, depth, parts),
        Some(TypeDefinition::Access { .. } | TypeDefinition::Object { .. }) | None => false,
    }
}

/// Whether one of these components would.
#[cycle(leaving_owners)]
fn have_leaving(types: &[TypeDefinition], depth: usize, parts: &[Part]) -> bool
    ensures { let all = map type_form types.now in
        result ≡ list_any (λ p. is_record_among (rules.leaves_within all depth) p.kind) (map part_form parts.now) }
{
    'parts: for part in parts {
        if let PartKind::Record(record_type) = part.kind {
            if leaves_within(types, depth, record_type) {
                return true;
            }
        }
    }
    false
}

/// Whether a copy of an object of a record type would leave two owners of what one of its components names. Costs the number of its
/// components and of those that are declared in it, once for each record around them.
pub(crate) fn leaves_owners(types: &[TypeDefinition], record_type: TypeNo) -> bool
    ensures { result ≡ rules.leaves_owners (map type_form types.now) record_type.0 }
{
    leaves_within(types, types.len(), record_type)
}

/// Whether what a record of a type gets is an aggregate that names owners: a record that is copied alone is none.
pub(crate) fn gathers_owners(types: &[TypeDefinition], record_type: TypeNo, items: &[Item]) -> bool
    ensures { result ≡ rules.gathers_owners (map type_form types.now) record_type.0 (map item_form items.now) }
{
    match items {
        [Item::Record(path)] => {
            path.record != record_type && is_owning_record(types, record_type)
        }
        _ => is_owning_record(types, record_type),
    }
}

/// The same of the initial value of an object that is known by a type.
pub(crate) fn gathers_at_first(
    types: &[TypeDefinition],
    object_type: TypeNo,
    items: &[Item],
) -> bool
    ensures { result ≡ rules.gathers_at_first (map type_form types.now) object_type.0 (map item_form items.now) }
{
    match types.get(object_type.0) {
        Some(TypeDefinition::Object { record }) => gathers_owners(types, *record, items),
        Some(
            TypeDefinition::Access {
                name: _,
                designated,
                pool: _,
            },
        ) => gathers_owners(types, *designated, items),
        Some(TypeDefinition::Record { .. }) | None => false,
    }
}

/// A record is copied only if that leaves no two owners of what a component names.
pub(crate) fn copied_to(owning: bool, spot: Spot) -> Option<Breach>
    ensures { broken result ≡ rules.copied_to owning spot }
{
    if owning {
        Some(Breach {
            spot,
            rule: Rule::RecordCopied,
        })
    } else {
        None
    }
}
