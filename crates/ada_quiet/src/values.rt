//! Paths, expressions and what is assigned, where they are quiet.

ghost use Rattle.std.specs.Prelude.{◌≡◌, map};
ghost use Rattle.ada_program.specs.Form.{component_number, condition_form, expression_form, links_form, path_form, right_form};
ghost use Rattle.ada_program.specs.Kept.{types_in, variables_in};
ghost use Rattle.ada_program.specs.WellFormed as fits;
ghost use Rattle.ada_quiet.specs.Quiet as rules;

use ada_program::lookup::{selected_kind, variable_kind};
use ada_program::program::{
    ComponentNo, Expression, Link, Right, TypeDefinition, Variable, VariableKind,
};
use ada_program::{Path, VariableNo};

/// Whether a variable holds an Integer or a Boolean (3.5.3, 3.5.4).
pub(crate) fn is_elementary(kind: VariableKind) -> bool
    ensures { result ≡ rules.is_elementary kind }
{
    matches!(kind, VariableKind::Integer | VariableKind::Boolean)
}

/// Whether what is found does, if something is.
pub(crate) fn holds_elementary(kind: Option<VariableKind>) -> bool
    ensures { result ≡ rules.holds_elementary kind }
{
    match kind {
        None => false,
        Some(kind) => is_elementary(kind),
    }
}

/// Whether a path leads to a variable, or to a component of the record for which the formal parameter stands (4.1, 6.2).
fn is_near(root: VariableNo, selectors: &[ComponentNo]) -> bool
    ensures { result ≡ rules.is_near root.0 (map component_number selectors.now) }
{
    match selectors {
        [] => true,
        [_] => root.0 == 0,
        [_, _, ..] => false,
    }
}

/// What is held where these components lead (4.1.3).
fn selectors_kind(
    types: &[TypeDefinition],
    first: Option<VariableKind>,
    selectors: &[ComponentNo],
) -> Option<VariableKind>
    ensures { result ≡ fits.selectors_kind (types_in types.now) first (map component_number selectors.now) }
{
    let mut kind = first;
    'selectors: for component in selectors {
        kind = selected_kind(types, kind, component.0);
    }
    kind
}

/// Whether such a path leads to an Integer or a Boolean.
pub(crate) fn is_quiet_path(types: &[TypeDefinition], variables: &[Variable], path: &Path) -> bool
    ensures { result ≡ rules.is_quiet_path (types_in types.now) (variables_in variables.now) (path_form path.now) }
{
    is_near(path.root, &path.selectors)
        && holds_elementary(selectors_kind(
            types,
            variable_kind(variables, path.root.0),
            &path.selectors,
        ))
}

/// Whether an expression reads Integers and Booleans alone (4.4).
#[cycle(evaluation)]
#[tactic(auto, using(std::proofs::lemmas::Grind::common_steps, ada_program::specs::Form::expression_rules))]
pub(crate) fn is_quiet_expression(
    types: &[TypeDefinition],
    variables: &[Variable],
    expression: &Expression,
) -> bool
    ensures { result ≡ rules.is_quiet_expression
        (types_in types.now) (variables_in variables.now) (expression_form expression.now) }
{
    match expression {
        Expression::Integer(_) | Expression::Boolean(_) => true,
        Expression::Path(path) => is_quiet_path(types, variables, path),
        Expression::NullTest { path: _, equal: _ } => false,
        Expression::Unary {
            operator: _,
            operand,
        } => is_quiet_expression(types, variables, operand),
        Expression::Chain { first, links } => is_quiet_expression(types, variables, first)
            && are_quiet_links(types, variables, links),
    }
}

/// Whether the right operands of operators do.
#[cycle(evaluation)]
fn are_quiet_links(types: &[TypeDefinition], variables: &[Variable], links: &[Link]) -> bool
    ensures { result ≡ rules.are_quiet_links
        (types_in types.now) (variables_in variables.now) (links_form links.now) }
{
    'links: for link in links {
        if !is_quiet_expression(types, variables, &link.operand) {
            return false;
        }
    }
    true
}

/// Whether a condition does, where there is one.
pub(crate) fn is_quiet_condition(
    types: &[TypeDefinition],
    variables: &[Variable],
    condition: &Option<Expression>,
) -> bool
    ensures { result ≡ rules.is_quiet_condition
        (types_in types.now) (variables_in variables.now) (condition_form condition.now) }
{
    match condition {
        None => true,
        Some(expression) => is_quiet_expression(types, variables, expression),
    }
}

/// Whether what is assigned is an Integer or a Boolean (5.2), and quiet.
pub(crate) fn is_quiet_right(
    types: &[TypeDefinition],
    variables: &[Variable],
    right: &Right,
) -> bool
    ensures { result ≡ rules.is_quiet_right
        (types_in types.now) (variables_in variables.now) (right_form right.now) }
{
    match right {
        Right::Null | Right::Path(_) | Right::Allocator { .. } | Right::Default(_) => false,
        Right::Value(expression) => is_quiet_expression(types, variables, expression),
    }
}
