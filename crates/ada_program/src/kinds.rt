//! Whether the types and the variables of a program are of the right kinds.

ghost use Rattle.std.specs.Prelude.{◌≡◌};
ghost use Rattle.std.specs.List.{list_all};
ghost use Rattle.ada_program.specs.ProgramForm.{type_form, variable_form};
ghost use Rattle.ada_program.specs.Kept.{types_in, variables_in};
ghost use Rattle.ada_program.specs.WellFormed as fits;

use crate::lookup::{is_access, is_object_type, is_record};
use crate::parts::{is_numbered_alone, parent_first, says_parts};
use crate::program::{ComponentKind, TypeDefinition, Variable, VariableKind};

/// Whether each component and each designated type is of the right kind (3.8, 3.10).
pub(crate) fn types_fit(types: &[TypeDefinition]) -> bool
    ensures { result ≡ list_all (λ d. fits.type_fits (types_in types.now) (type_form d)) types.now }
{
    types.iter().all(|definition| type_fits(types, definition))
}

/// Whether the declared pool of each access type is one of so many (13.11).
pub(crate) fn have_known_pools(count: usize, types: &[TypeDefinition]) -> bool
    ensures { result ≡ list_all (λ d. fits.has_known_pool count (type_form d)) types.now }
{
    types
        .iter()
        .all(|definition| has_known_pool(count, definition))
}

/// Whether the declared pool of a type, if it is an access type that has one, is one of so many.
fn has_known_pool(count: usize, definition: &TypeDefinition) -> bool
    ensures { result ≡ fits.has_known_pool count (type_form definition.now) }
{
    match definition {
        TypeDefinition::Access {
            name: _,
            designated: _,
            pool: Some(pool),
        } => pool.0 < count,
        TypeDefinition::Record { .. }
        | TypeDefinition::Access { .. }
        | TypeDefinition::Object { .. } => true,
    }
}

/// Whether a type is made of types of the right kind.
#[tactic(auto, using(std::proofs::lemmas::Grind::common_steps, crate::proofs::Viewed::views))]
fn type_fits(types: &[TypeDefinition], definition: &TypeDefinition) -> bool
    ensures { result ≡ fits.type_fits (types_in types.now) (type_form definition.now) }
{
    match definition {
        TypeDefinition::Record {
            name: _,
            parts,
            components,
            finalization,
        } => components_fit(types, components)
            && parent_first(parts)
            && says_parts(types, *finalization, parts)
            && is_numbered_alone(types, *finalization),
        TypeDefinition::Access {
            name: _,
            designated,
            pool: _,
        } => is_record(types, designated.0),
        TypeDefinition::Object { record } => is_record(types, record.0),
    }
}

/// Whether each component fits.
fn components_fit(types: &[TypeDefinition], components: &[ComponentKind]) -> bool
    ensures { result ≡ list_all (fits.kind_fits (types_in types.now)) components.now }
{
    components.iter().all(|kind| kind_fits(types, *kind))
}

/// Whether a component is an Integer or a Boolean, or of an access type (3.8).
fn kind_fits(types: &[TypeDefinition], kind: ComponentKind) -> bool
    ensures { result ≡ fits.kind_fits (types_in types.now) kind }
{
    match kind {
        ComponentKind::Integer { initial: _ } | ComponentKind::Boolean { initial: _ } => true,
        ComponentKind::Access(access) => is_access(types, access.0),
    }
}

/// Whether each variable fits.
pub(crate) fn variables_fit(types: &[TypeDefinition], variables: &[Variable]) -> bool
    ensures { result ≡ list_all (fits.variable_fits (types_in types.now)) (variables_in variables.now) }
{
    'variables: for variable in variables {
        if !variable_fits(types, variable) {
            return false;
        }
    }
    true
}

/// Whether a variable's kind fits, and only what holds access values borrows.
fn variable_fits(types: &[TypeDefinition], variable: &Variable) -> bool
    ensures { result ≡ fits.variable_fits (types_in types.now) (variable_form variable.now) }
{
    variable_kind_fits(types, variable.kind) && (!variable.borrows || is_access_kind(variable.kind))
}

/// Whether a variable holds access values (3.10).
fn is_access_kind(kind: VariableKind) -> bool
    ensures { result ≡ fits.is_access_kind kind }
{
    match kind {
        VariableKind::Integer | VariableKind::Boolean | VariableKind::Record(_) => false,
        VariableKind::Access(_) => true,
    }
}

/// Whether a variable is an Integer or a Boolean, or of an access type, or a record object (3.3.1).
fn variable_kind_fits(types: &[TypeDefinition], kind: VariableKind) -> bool
    ensures { result ≡ fits.variable_kind_fits (types_in types.now) kind }
{
    match kind {
        VariableKind::Integer | VariableKind::Boolean => true,
        VariableKind::Access(access) => is_access(types, access.0),
        VariableKind::Record(object) => is_object_type(types, object.0),
    }
}
