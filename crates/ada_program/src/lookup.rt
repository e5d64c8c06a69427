//! What the numbers of a program stand for: types, components, variables, and where a path leads.

ghost use Rattle.std.specs.List.{slice_get};
ghost use Rattle.std.specs.Prelude.{◌≡◌, map, option_map, option_copied};
ghost use Rattle.ada_program.specs.Form.{path_form};
ghost use Rattle.ada_program.specs.Kept as kept;
ghost use Rattle.ada_program.specs.Kept.{types_in, variables_in};
ghost use Rattle.ada_program.specs.WellFormed as fits;

use crate::program::{ComponentKind, Path, ScalarType, TypeDefinition, Variable, VariableKind};

/// The type that an access type designates (3.10): none, if it is no access type.
pub(crate) fn designated_type(types: &[TypeDefinition], number: usize) -> Option<usize>
    ensures { result ≡ fits.designated_type (types_in types.now) number }
{
    match types.get(number) {
        Some(
            TypeDefinition::Access {
                name: _,
                designated,
                pool: _,
            },
        ) => Some(designated.0),
        Some(TypeDefinition::Record { .. } | TypeDefinition::Object { .. }) | None => None,
    }
}

/// Whether a record object is known by the type of a number.
pub(crate) fn is_object_type(types: &[TypeDefinition], number: usize) -> bool
    ensures { result ≡ fits.is_object_type (types_in types.now) number }
{
    record_of(types, number).is_some()
}

/// The record type of what an object's type stands for: none, if it is no object's type.
pub(crate) fn record_of(types: &[TypeDefinition], number: usize) -> Option<usize>
    ensures { result ≡ fits.object_in (slice_get (types_in types.now) number) }
{
    match types.get(number) {
        Some(TypeDefinition::Object { record }) => Some(record.0),
        Some(TypeDefinition::Record { .. } | TypeDefinition::Access { .. }) | None => None,
    }
}

/// The record type of the objects that values of a type name: none, if it is a record type.
pub(crate) fn named_type(types: &[TypeDefinition], number: usize) -> Option<usize>
    ensures { result ≡ fits.named_in (slice_get (types_in types.now) number) }
{
    match types.get(number) {
        Some(
            TypeDefinition::Access {
                name: _,
                designated,
                pool: _,
            },
        ) => Some(designated.0),
        Some(TypeDefinition::Object { record }) => Some(record.0),
        Some(TypeDefinition::Record { .. }) | None => None,
    }
}

/// Whether a number is that of an access type.
pub(crate) fn is_access(types: &[TypeDefinition], number: usize) -> bool
    ensures { result ≡ fits.is_access (types_in types.now) number }
{
    designated_type(types, number).is_some()
}

/// Whether a number is that of a record type.
pub(crate) fn is_record(types: &[TypeDefinition], number: usize) -> bool
    ensures { result ≡ fits.is_record (types_in types.now) number }
{
    match types.get(number) {
        Some(TypeDefinition::Record { .. }) => true,
        Some(TypeDefinition::Access { .. } | TypeDefinition::Object { .. }) | None => false,
    }
}

/// The elementary components of a record type: none, if it is no record type.
pub fn record_components<'p>(
    types: &'p [TypeDefinition],
    number: usize,
) -> Option<&'p [ComponentKind]>
    ensures { option_copied result ≡ fits.record_components (types_in types.now) number }
{
    match types.get(number) {
        Some(
            TypeDefinition::Record {
                name: _,
                parts: _,
                components,
                finalization: _,
            },
        ) => Some(components),
        Some(TypeDefinition::Access { .. } | TypeDefinition::Object { .. }) | None => None,
    }
}

/// The components of the objects that values of a type name (3.10).
pub fn reached_components<'p>(
    types: &'p [TypeDefinition],
    access: usize,
) -> Option<&'p [ComponentKind]>
    ensures { option_copied result ≡ fits.reached_components (types_in types.now) access }
{
    record_components(types, named_type(types, access)?)
}

/// What a variable holds.
pub fn variable_kind(variables: &[Variable], number: usize) -> Option<VariableKind>
    ensures { result ≡ fits.variable_kind (variables_in variables.now) number }
{
    match variables.get(number) {
        Some(variable) => Some(variable.kind),
        None => None,
    }
}

/// The type of what names an object: an access value's, or that by which a record object is known. None, if a value is an
/// Integer or a Boolean.
pub fn access_of(kind: Option<VariableKind>) -> Option<usize>
    ensures { result ≡ fits.access_of kind }
{
    match kind? {
        VariableKind::Access(access) => Some(access.0),
        VariableKind::Record(object) => Some(object.0),
        VariableKind::Integer | VariableKind::Boolean => None,
    }
}

/// Integer or Boolean, whichever a value is.
pub(crate) fn scalar_of(kind: Option<VariableKind>) -> Option<ScalarType>
    ensures { result ≡ fits.scalar_of kind }
{
    match kind? {
        VariableKind::Integer => Some(ScalarType::Integer),
        VariableKind::Boolean => Some(ScalarType::Boolean),
        VariableKind::Access(_) | VariableKind::Record(_) => None,
    }
}

/// What a component holds, whatever it holds at first (3.8).
pub(crate) fn held_kind(kind: ComponentKind) -> VariableKind
    ensures { result ≡ fits.held_kind kind }
{
    match kind {
        ComponentKind::Integer { initial: _ } => VariableKind::Integer,
        ComponentKind::Boolean { initial: _ } => VariableKind::Boolean,
        ComponentKind::Access(access) => VariableKind::Access(access),
    }
}

/// What a component holds of the object that a value gives access to (4.1, 4.1.3).
pub fn selected_kind(
    types: &[TypeDefinition],
    kind: Option<VariableKind>,
    component: usize,
) -> Option<VariableKind>
    ensures { result ≡ fits.selected_kind (types_in types.now) kind component }
{
    let components = reached_components(types, access_of(kind)?)?;
    match components.get(component) {
        Some(kind) => Some(held_kind(*kind)),
        None => None,
    }
}

/// What a path begins with: a variable that is a record object, or one that is none, as the path says.
fn root_kind(of_record: bool, kind: Option<VariableKind>) -> Option<VariableKind>
    ensures { result ≡ fits.root_kind of_record kind }
{
    let kind = kind?;
    if of_record == matches!(kind, VariableKind::Record(_)) {
        Some(kind)
    } else {
        None
    }
}

/// What is held where a path leads (4.1): none, if it leads nowhere.
pub(crate) fn path_kind(
    types: &[TypeDefinition],
    variables: &[Variable],
    path: &Path,
) -> Option<VariableKind>
    ensures { result ≡ kept.path_kind types.now variables.now path.now }
{
    let mut kind = root_kind(path.of_record, variable_kind(variables, path.root.0));
    'selectors: for component in &path.selectors {
        kind = selected_kind(types, kind, component.0);
    }
    kind
}

/// The access type of an access value: none, if a value is an Integer or a Boolean, or a record object.
fn value_access(kind: Option<VariableKind>) -> Option<usize>
    ensures { result ≡ fits.value_access kind }
{
    match kind? {
        VariableKind::Access(access) => Some(access.0),
        VariableKind::Integer | VariableKind::Boolean | VariableKind::Record(_) => None,
    }
}

/// The access type of the value where a path leads.
pub fn path_access(types: &[TypeDefinition], variables: &[Variable], path: &Path) -> Option<usize>
    ensures { result ≡ kept.path_access types.now variables.now path.now }
{
    value_access(path_kind(types, variables, path))
}

/// Whether a path is a variable, and no component.
pub(crate) fn names_variable(path: &Path) -> bool
    ensures { result ≡ fits.names_variable (path_form path.now) }
{
    path.selectors.is_empty()
}

/// Whether a type is there, and is this one.
pub fn is_this(wanted: usize, found: Option<usize>) -> bool
    ensures { result ≡ fits.is_this wanted found }
{
    match found {
        None => false,
        Some(found) => found == wanted,
    }
}
