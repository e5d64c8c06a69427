//! Whether the declarations of a part fit (3.11): its collections, and its variables' initial values.

ghost use Rattle.std.specs.Prelude.{◌≡◌, Some, map};
ghost use Rattle.std.specs.List.{list_all};
ghost use Rattle.ada_program.specs.Form.{item_form};
ghost use Rattle.ada_program.specs.Kept as kept;
ghost use Rattle.ada_program.specs.Kept.{types_in, variables_in};
ghost use Rattle.ada_program.specs.WellFormed as fits;

use crate::borrowers::{is_borrower, lends_to};
use crate::lookup::{is_access, named_type, variable_kind};
use crate::program::{Declaration, Item, TypeDefinition, TypeNo, Variable, VariableKind};
use crate::records::record_fits;
use crate::values::{items_before, names_before, right_fits};

/// Whether a part creates its pools and collections first, each of an access type, and its variables with values that fit
/// (3.11).
#[tactic(auto, using(std::proofs::lemmas::Grind::common_steps, crate::proofs::Viewed::views))]
pub(crate) fn declarations_fit(
    types: &[TypeDefinition],
    variables: &[Variable],
    declarations: &[Declaration],
) -> bool
    ensures { result ≡ kept.declarations_fit types.now variables.now declarations.now }
{
    collections_first(declarations)
        && collections_fit(types, declarations)
        && initials_fit(types, variables, declarations)
}

/// Whether pools and collections are created before the first variable (3.11).
fn collections_first(declarations: &[Declaration]) -> bool
    ensures { result ≡ kept.collections_first declarations.now }
{
    let mut in_front = true;
    for declaration in declarations {
        match declaration {
            Declaration::Pool(_) | Declaration::Collection(_) => {
                if !in_front {
                    return false;
                }
            }
            Declaration::Variable { .. } | Declaration::Record { .. } => in_front = false,
        }
    }
    true
}

/// Whether each collection is that of an access type (7.6.1).
fn collections_fit(types: &[TypeDefinition], declarations: &[Declaration]) -> bool
    ensures { result ≡ list_all (kept.collection_fits types.now) declarations.now }
{
    declarations
        .iter()
        .all(|declaration| collection_fits(types, declaration))
}

/// Whether what is created, if it is a collection, is that of an access type.
fn collection_fits(types: &[TypeDefinition], declaration: &Declaration) -> bool
    ensures { result ≡ kept.collection_fits types.now declaration.now }
{
    match declaration {
        Declaration::Collection(access) => is_access(types, access.0),
        Declaration::Pool(_) | Declaration::Variable { .. } | Declaration::Record { .. } => true,
    }
}

/// Whether each initial value names earlier variables, and has the variable's type (3.3.1).
fn initials_fit(
    types: &[TypeDefinition],
    variables: &[Variable],
    declarations: &[Declaration],
) -> bool
    ensures { result ≡ list_all (kept.initial_fits types.now variables.now) declarations.now }
{
    declarations
        .iter()
        .all(|declaration| initial_fits(types, variables, declaration))
}

/// Whether an initial value, where one is written, names earlier variables and has the variable's type.
#[tactic(auto, using(std::proofs::lemmas::Grind::common_steps, crate::proofs::Viewed::views))]
fn initial_fits(types: &[TypeDefinition], variables: &[Variable], declaration: &Declaration) -> bool
    ensures { result ≡ kept.initial_fits types.now variables.now declaration.now }
{
    match declaration {
        Declaration::Pool(_) | Declaration::Collection(_) => true,
        Declaration::Variable {
            variable,
            initial: None,
        } => matches!(
            variable_kind(variables, variable.0),
            Some(VariableKind::Access(_))
        ),
        Declaration::Variable {
            variable,
            initial: Some(value),
        } => names_before(variable.0, value)
            && right_fits(
                types,
                variables,
                variable_kind(variables, variable.0),
                value,
            )
            && lends_to(variables, is_borrower(variables, variable.0), value),
        Declaration::Record {
            variable,
            object,
            initial: None,
        } => is_record_object(*object, variable_kind(variables, variable.0)),
        Declaration::Record {
            variable,
            object,
            initial: Some(items),
        } => is_record_object(*object, variable_kind(variables, variable.0))
            && items_before(variable.0, items)
            && object_fits(types, variables, object.0, items),
    }
}

/// Whether items fit the record type of the object that is known by a type.
fn object_fits(
    types: &[TypeDefinition],
    variables: &[Variable],
    object: usize,
    items: &[Item],
) -> bool
    ensures { let known = fits.object_named (types_in types.now) (Some object) in
        result ≡ fits.object_fits (types_in types.now) (variables_in variables.now) known (map item_form items.now) }
{
    match named_type(types, object) {
        None => false,
        Some(record) => record_fits(types, variables, record, items),
    }
}

/// Whether a variable is the record object that is known by this type.
fn is_record_object(object: TypeNo, kind: Option<VariableKind>) -> bool
    ensures { result ≡ fits.is_record_object object.0 kind }
{
    match kind {
        Some(VariableKind::Record(own)) => own.0 == object.0,
        _ => false,
    }
}
