//! What may be assigned to a variable (4.3.1, 4.8, 5.2).

ghost use Rattle.std.specs.Prelude.{◌≡◌};
ghost use Rattle.std.specs.List.{list_all};
ghost use Rattle.ada_program.specs.Form.{expression_form, item_form, links_form, right_form};
ghost use Rattle.ada_program.specs.Kept as kept;
ghost use Rattle.ada_program.specs.WellFormed as fits;

use crate::lookup::{is_this, path_access, reached_components};
use crate::program::{
    Expression, Item, Link, Right, ScalarType, TypeDefinition, Variable, VariableKind,
};
use crate::records::{items_fit, parts_named};
use crate::typing::has_type;

/// Whether there is something to assign to, and what is assigned fits it (5.2).
pub(crate) fn right_fits(
    types: &[TypeDefinition],
    variables: &[Variable],
    kind: Option<VariableKind>,
    value: &Right,
) -> bool
    ensures { result ≡ kept.right_fits types.now variables.now kind value.now }
{
    match kind {
        None => false,
        Some(VariableKind::Integer) => scalar_fits(types, variables, ScalarType::Integer, value),
        Some(VariableKind::Boolean) => scalar_fits(types, variables, ScalarType::Boolean, value),
        Some(VariableKind::Access(access)) => access_fits(types, variables, access.0, value),
        Some(VariableKind::Record(_)) => false,
    }
}

/// Whether what is assigned where an Integer or a Boolean is held is an expression of its type.
fn scalar_fits(
    types: &[TypeDefinition],
    variables: &[Variable],
    wanted: ScalarType,
    value: &Right,
) -> bool
    ensures { result ≡ kept.scalar_fits types.now variables.now wanted value.now }
{
    match value {
        Right::Value(expression) => has_type(types, variables, wanted, expression),
        Right::Null | Right::Path(_) | Right::Allocator { .. } | Right::Default(_) => false,
    }
}

/// Whether what is assigned where an access value is held is null, or of that very type (4.8).
fn access_fits(
    types: &[TypeDefinition],
    variables: &[Variable],
    access: usize,
    value: &Right,
) -> bool
    ensures { result ≡ kept.access_fits types.now variables.now access value.now }
{
    match value {
        Right::Null => true,
        Right::Path(path) => is_this(access, path_access(types, variables, path)),
        Right::Allocator {
            access: created,
            items,
        } => created.0 == access
            && is_filled(types, variables, access, items)
            && parts_named(types, access) == 0,
        Right::Default(created) => created.0 == access
            && reached_components(types, access).is_some(),
        Right::Value(_) => false,
    }
}

/// Whether the items are one for each component of the record that an access type designates (4.3.1).
fn is_filled(
    types: &[TypeDefinition],
    variables: &[Variable],
    access: usize,
    items: &[Item],
) -> bool
    ensures { result ≡ kept.is_filled types.now variables.now access items.now }
{
    match reached_components(types, access) {
        None => false,
        Some(components) => items_fit(types, variables, components, items),
    }
}

/// Whether an initial value names only variables that are declared before (8.3).
#[tactic(auto, using(std::proofs::lemmas::Grind::common_steps, crate::proofs::Viewed::views))]
pub(crate) fn names_before(number: usize, value: &Right) -> bool
    ensures { result ≡ fits.names_before number (right_form value.now) }
{
    match value {
        Right::Null | Right::Default(_) => true,
        Right::Path(path) => path.root.0 < number,
        Right::Allocator { access: _, items } => items_before(number, items),
        Right::Value(expression) => expression_before(number, expression),
    }
}

/// Whether items name only variables before the one of a number.
pub(crate) fn items_before(number: usize, items: &[Item]) -> bool
    ensures { result ≡ list_all (λ i. fits.item_before number (item_form i)) items.now }
{
    items.iter().all(|item| item_before(number, item))
}

/// Whether an item names only variables before the one of a number.
fn item_before(number: usize, item: &Item) -> bool
    ensures { result ≡ fits.item_before number (item_form item.now) }
{
    match item {
        Item::Null => true,
        Item::Path(path) => path.root.0 < number,
        Item::Value(expression) => expression_before(number, expression),
        Item::Record(path) => path.object.root.0 < number,
    }
}

/// Whether an expression names only variables before the one of a number.
#[cycle(before)]
#[tactic(auto, using(crate::specs::Form::expression_rules))]
fn expression_before(number: usize, expression: &Expression) -> bool
    ensures { result ≡ fits.expression_before number (expression_form expression.now) }
{
    match expression {
        Expression::Integer(_) | Expression::Boolean(_) => true,
        Expression::Path(path) | Expression::NullTest { path, equal: _ } => path.root.0 < number,
        Expression::Unary {
            operator: _,
            operand,
        } => expression_before(number, operand),
        Expression::Chain { first, links } => expression_before(number, first)
            && links_before(number, links),
    }
}

/// Whether the operands behind the first one name only variables before the one of a number.
#[cycle(before)]
fn links_before(number: usize, links: &[Link]) -> bool
    ensures { result ≡ fits.links_before number (links_form links.now) }
{
    'links: for link in links {
        if !expression_before(number, &link.operand) {
            return false;
        }
    }
    true
}
