//! Records as wholes: where they lie, and the items that give their components values (4.1, 4.3.1).

ghost use Rattle.std.specs.Prelude.{◌≡◌, Some, drop, find, length, map};
ghost use Rattle.std.specs.List.{slice_get};
ghost use Rattle.std.specs.Option.{option_copied};
ghost use Rattle.ada_program.specs.Form.{item_form};
ghost use Rattle.ada_program.specs.ProgramForm.{part_form};
ghost use Rattle.ada_program.specs.Kept as kept;
ghost use Rattle.ada_program.specs.Kept.{types_in};
ghost use Rattle.ada_program.specs.WellFormed as fits;

use crate::borrowers::items_own;
use crate::lookup::{
    access_of, is_this, named_type, path_access, path_kind, reached_components, record_components,
};
use crate::parts::{finalization_of, part_count, parts_within};
use crate::program::{
    ComponentKind, Finalization, Item, Part, PartKind, RecordPath, ScalarType, TypeDefinition,
    Variable,
};
use crate::typing::has_type;
use crate::within::is_part_of;

/// A place in the records of a type, where a record of some type may begin: so many of their elementary components, and so
/// many of their controlled parts, lie before it (4.1, 7.6).
#[derive(Clone, Copy)]
pub(crate) struct RecordPlace {
    pub within: usize,
    pub first: usize,
    pub part: usize,
}

/// Whether a path leads to a record of its type (4.1).
pub(crate) fn is_record_path(
    types: &[TypeDefinition],
    variables: &[Variable],
    path: &RecordPath,
) -> bool
    ensures { result ≡ kept.is_record_path types.now variables.now path.now }
{
    match access_of(path_kind(types, variables, &path.object)) {
        None => false,
        Some(known) => match reached_components(types, known) {
            None => false,
            Some(components) => begins_with_record(
                behind(components, path.first.0),
                record_components(types, path.record.0),
            ) && has_parts_at(types, known, path),
        },
    }
}

/// Whether the parts of a path's record lie in the objects that values of a type name.
fn has_parts_at(types: &[TypeDefinition], access: usize, path: &RecordPath) -> bool
    ensures { let object = fits.object_named (types_in types.now) (Some access) in
        result ≡ fits.has_parts_at (types_in types.now) path.now.record.0 object path.now.first.0 path.now.part.0 }
{
    let count = part_count(types, path.record.0);
    has_parts_from(count, path.part.0, parts_named(types, access))
        && (count == 0 || is_found(types, path.record.0, place_from(types, access, path)))
        && is_part_of(types, path.record, named_type(types, access))
}

/// The place of a path's record in the objects that values of a type name.
fn place_from(types: &[TypeDefinition], access: usize, path: &RecordPath) -> Option<RecordPlace>
    ensures { let object = fits.object_named (types_in types.now) (Some access) in
        result ≡ fits.place_from object path.now.first.0 path.now.part.0 }
{
    let within = named_type(types, access)?;
    let first = path.first.0;
    let part = path.part.0;
    Some(RecordPlace {
        within,
        first,
        part,
    })
}

/// Whether a record of a type begins at a place: the very record that it is a place in, or one inside its components, at any
/// depth.
fn is_found(types: &[TypeDefinition], number: usize, place: Option<RecordPlace>) -> bool
    ensures { result ≡ fits.is_found (types_in types.now) (length (types_in types.now)) number place }
{
    let mut at = place;
    'deeper: for _definition in types {
        if is_whole(number, at) {
            return true;
        }
        at = place_inside(types, at);
    }
    is_whole(number, at)
}

/// Whether the very record begins there that it is a place in, and is of this type.
fn is_whole(number: usize, place: Option<RecordPlace>) -> bool
    ensures { result ≡ fits.is_whole number place }
{
    match place {
        None => false,
        Some(at) => at.within == number && at.first == 0 && at.part == 0,
    }
}

/// A place in a record, as a place in the declared component that has the controlled part behind it.
fn place_inside(types: &[TypeDefinition], place: Option<RecordPlace>) -> Option<RecordPlace>
    ensures { result ≡ fits.place_inside (types_in types.now) place }
{
    let at = place?;
    place_among(types, at, parted_components(types, at.within))
}

/// The declared components of a record type, where its objects have controlled parts.
fn parted_components<'p>(types: &'p [TypeDefinition], number: usize) -> &'p [Part]
    ensures { map part_form result.now ≡ fits.parted_components (slice_get (types_in types.now) number) }
{
    match types.get(number) {
        Some(
            TypeDefinition::Record {
                name: _,
                parts,
                components: _,
                finalization: Some(_),
            },
        ) => parts,
        Some(
            TypeDefinition::Record { .. }
            | TypeDefinition::Access { .. }
            | TypeDefinition::Object { .. },
        )
        | None => &[],
    }
}

/// A place in a record, as a place in that of these components which has the controlled part behind it.
fn place_among(
    types: &[TypeDefinition],
    at: RecordPlace,
    components: &[Part],
) -> Option<RecordPlace>
    ensures { result
        ≡ fits.place_within at (find (fits.has_part (types_in types.now) at.part) (map part_form components.now)) }
{
    for component in components {
        if has_part(types, at.part, component) {
            return place_in(at, component);
        }
    }
    None
}

/// Whether a declared component has the controlled part of a number.
fn has_part(types: &[TypeDefinition], number: usize, component: &Part) -> bool
    ensures { result ≡ fits.has_part (types_in types.now) number (part_form component.now) }
{
    match component
        .part
        .0
        .checked_add(parts_within(types, component.kind))
    {
        None => number >= component.part.0,
        Some(end) => number >= component.part.0 && number < end,
    }
}

/// A place in a record, as a place in one of its declared components. None, if that is no record, or begins behind the place.
fn place_in(at: RecordPlace, component: &Part) -> Option<RecordPlace>
    ensures { result ≡ fits.place_in at (part_form component.now) component.now.kind }
{
    match component.kind {
        PartKind::Record(record) => {
            let first = at.first.checked_sub(component.first.0)?;
            let part = at.part.saturating_sub(component.part.0);
            Some(RecordPlace {
                within: record.0,
                first,
                part,
            })
        }
        PartKind::Elementary(_) | PartKind::Parent => None,
    }
}

/// Whether so many controlled parts of an object lie behind those before one of them, where there are any.
fn has_parts_from(count: usize, part: usize, within: usize) -> bool
    ensures { result ≡ fits.has_parts_from count part within }
{
    match part.checked_add(count) {
        Some(end) => count == 0 || end <= within,
        None => count == 0,
    }
}

/// How many controlled parts the objects have that values of a type name.
pub(crate) fn parts_named(types: &[TypeDefinition], access: usize) -> usize
    ensures { let known = fits.object_named (types_in types.now) (Some access) in
        result ≡ fits.parts_named (types_in types.now) known }
{
    match named_type(types, access) {
        None => 0,
        Some(record) => part_count(types, record),
    }
}

/// The components behind the first ones.
pub(crate) fn behind<'p>(components: &'p [ComponentKind], count: usize) -> &'p [ComponentKind]
    ensures { result.now ≡ drop count components.now }
{
    match components.get(count..) {
        None => &[],
        Some(rest) => rest,
    }
}

/// Whether the first of some components are those of a record type.
pub(crate) fn begins_with_record(
    components: &[ComponentKind],
    wanted: Option<&[ComponentKind]>,
) -> bool
    ensures { result ≡ fits.begins_with_record components.now (option_copied wanted.entry) }
{
    match wanted {
        None => false,
        Some(wanted) => begins_with(components, wanted),
    }
}

/// Whether the first of some components are those of a record, in order.
pub(crate) fn begins_with(components: &[ComponentKind], wanted: &[ComponentKind]) -> bool
    ensures { result ≡ fits.begins_with components.now wanted.now }
{
    for (at, kind) in wanted.iter().enumerate() {
        let alike = match components.get(at) {
            None => false,
            Some(component) => is_alike(*component, *kind),
        };
        if !alike {
            return false;
        }
    }
    true
}

/// Whether two components hold values of one type, whatever they hold at first.
fn is_alike(component: ComponentKind, other: ComponentKind) -> bool
    ensures { result ≡ fits.is_alike component other }
{
    match (component, other) {
        (ComponentKind::Integer { initial: _ }, ComponentKind::Integer { initial: _ }) => true,
        (ComponentKind::Boolean { initial: _ }, ComponentKind::Boolean { initial: _ }) => true,
        (ComponentKind::Access(access), ComponentKind::Access(other)) => access.0 == other.0,
        (
            ComponentKind::Integer { initial: _ },
            ComponentKind::Boolean { initial: _ } | ComponentKind::Access(_),
        ) => false,
        (
            ComponentKind::Boolean { initial: _ },
            ComponentKind::Integer { initial: _ } | ComponentKind::Access(_),
        ) => false,
        (
            ComponentKind::Access(_),
            ComponentKind::Integer { initial: _ } | ComponentKind::Boolean { initial: _ },
        ) => false,
    }
}

/// Whether the items of a record are values of its components, and no borrowers (4.3.1).
#[tactic(auto, using(std::proofs::lemmas::Grind::common_steps, crate::proofs::Viewed::views))]
pub(crate) fn record_fits(
    types: &[TypeDefinition],
    variables: &[Variable],
    number: usize,
    items: &[Item],
) -> bool
    ensures { result ≡ kept.record_fits types.now variables.now number items.now }
{
    match record_components(types, number) {
        None => false,
        Some(components) => items_fit(types, variables, components, items)
            && items_own(variables, items)
            && copies_whole(number, finalization_of(types, number), items),
    }
}

/// Whether a record is copied whole, where it has controlled parts, and is not limited (7.5, 7.6).
fn copies_whole(number: usize, finalization: Option<Finalization>, items: &[Item]) -> bool
    ensures { result ≡ fits.copies_whole number finalization (map item_form items.now) }
{
    match finalization {
        None => true,
        Some(finalization) => !finalization.limited && is_copy(number, items),
    }
}

/// Whether there is one item, a record of a type.
fn is_copy(number: usize, items: &[Item]) -> bool
    ensures { result ≡ fits.is_copy number (map item_form items.now) }
{
    match items {
        [Item::Record(path)] => path.record.0 == number,
        _ => false,
    }
}

/// Whether there are items for these components, in order.
pub(crate) fn items_fit(
    types: &[TypeDefinition],
    variables: &[Variable],
    components: &[ComponentKind],
    items: &[Item],
) -> bool
    ensures { result ≡ kept.items_fit types.now variables.now components.now items.now }
{
    let mut left = components;
    'items: for item in items {
        if !item_fits(types, variables, left, item) {
            return false;
        }
        left = behind(left, item_width(types, item));
    }
    left.is_empty()
}

/// How many components an item fills.
fn item_width(types: &[TypeDefinition], item: &Item) -> usize
    ensures { result ≡ fits.item_width (types_in types.now) (item_form item.now) }
{
    match item {
        Item::Null | Item::Path(_) | Item::Value(_) => 1,
        Item::Record(path) => match record_components(types, path.record.0) {
            None => 0,
            Some(components) => components.len(),
        },
    }
}

/// Whether an item is for the first of these components, a record for as many as it has.
fn item_fits(
    types: &[TypeDefinition],
    variables: &[Variable],
    components: &[ComponentKind],
    item: &Item,
) -> bool
    ensures { result ≡ kept.item_fits types.now variables.now components.now item.now }
{
    match item {
        Item::Record(path) => is_record_path(types, variables, path)
            && begins_with_record(components, record_components(types, path.record.0)),
        Item::Null | Item::Path(_) | Item::Value(_) => match components.first() {
            None => false,
            Some(kind) => component_item_fits(types, variables, *kind, item),
        },
    }
}

/// Whether an item is a value of a component.
fn component_item_fits(
    types: &[TypeDefinition],
    variables: &[Variable],
    kind: ComponentKind,
    item: &Item,
) -> bool
    ensures { result ≡ kept.component_item_fits types.now variables.now kind item.now }
{
    match (kind, item) {
        (ComponentKind::Access(_), Item::Null) => true,
        (ComponentKind::Access(access), Item::Path(path)) => is_this(
            access.0,
            path_access(types, variables, path),
        ),
        (ComponentKind::Integer { initial: _ }, Item::Value(expression)) => has_type(
            types,
            variables,
            ScalarType::Integer,
            expression,
        ),
        (ComponentKind::Boolean { initial: _ }, Item::Value(expression)) => has_type(
            types,
            variables,
            ScalarType::Boolean,
            expression,
        ),
        (ComponentKind::Access(_), Item::Value(_) | Item::Record(_)) => false,
        (
            ComponentKind::Integer { initial: _ } | ComponentKind::Boolean { initial: _ },
            Item::Null | Item::Path(_) | Item::Record(_),
        ) => false,
    }
}
