//! Of which access types the evaluation of a form follows values (4.1): they are listed.

ghost use Rattle.std.specs.Prelude.{◌≡◌, ◌||◌, ℕ, OnOk, map};
ghost use Rattle.ada_deeds.specs.Follows as rules;
ghost use Rattle.ada_deeds.specs.View.{Lists};
ghost use Rattle.ada_effects.specs.Found.{has_number};
ghost use Rattle.ada_program.specs.Form.{actual_form, condition_form, expression_form, links_form, path_form, record_path_form};
ghost use Rattle.ada_program.specs.Kept.{types_in, variables_in};
ghost use Rattle.ada_program.specs.WellFormed as fits;

use ada_program::lookup::{path_access, selected_kind, variable_kind};
use ada_program::program::{
    Actual, Expression, Link, RecordPath, TypeDefinition, Variable, VariableKind,
};
use ada_program::{Path, TypeNo};
use std::alloc::AllocError;

/// The access type of an access value: none, if a value is an Integer or a Boolean, or a record object.
fn value_access(kind: Option<VariableKind>) -> Option<usize>
    ensures { result ≡ fits.value_access kind }
{
    match kind {
        Some(VariableKind::Access(access)) => Some(access.0),
        Some(VariableKind::Integer | VariableKind::Boolean | VariableKind::Record(_)) | None => {
            None
        }
    }
}

/// An access type is one more, where there is one.
fn add(access: Option<usize>, followed: &mut Vec<TypeNo>) -> Result<(), AllocError>
    ensures { Lists result followed.old.items followed.new.items (λ t. fits.is_this t access) }
{
    match access {
        None => Ok(()),
        Some(number) => {
            followed.push(TypeNo(number))?;
            Ok(())
        }
    }
}

/// Those of a path: each selector follows the value before it, but the first one behind a record object.
pub(crate) fn follow_path(
    types: &[TypeDefinition],
    variables: &[Variable],
    path: &Path,
    followed: &mut Vec<TypeNo>,
) -> Result<(), AllocError>
    ensures { Lists result followed.old.items followed.new.items
        (λ t. rules.path_follows (types_in types.now) (variables_in variables.now) t (path_form path.now)) }
{
    let mut kind = variable_kind(variables, path.root.0);
    'selectors: for component in &path.selectors {
        add(value_access(kind), followed)?;
        kind = selected_kind(types, kind, component.0);
    }
    Ok(())
}

/// Those of a path to a record, the access value of its object included.
pub(crate) fn follow_record_path(
    types: &[TypeDefinition],
    variables: &[Variable],
    path: &RecordPath,
    followed: &mut Vec<TypeNo>,
) -> Result<(), AllocError>
    ensures { Lists result followed.old.items followed.new.items
        (λ t. rules.record_path_follows (types_in types.now) (variables_in variables.now) t (record_path_form path.now)) }
{
    follow_path(types, variables, &path.object, followed)?;
    add(path_access(types, variables, &path.object), followed)
}

/// Those of an expression.
#[cycle(evaluation)]
#[tactic(auto, using(std::proofs::lemmas::Grind::common_steps, ada_program::specs::Form::expression_rules))]
pub(crate) fn follow_expression(
    types: &[TypeDefinition],
    variables: &[Variable],
    expression: &Expression,
    followed: &mut Vec<TypeNo>,
) -> Result<(), AllocError>
    ensures { Lists result followed.old.items followed.new.items
        (λ t. rules.expression_follows (types_in types.now) (variables_in variables.now) t (expression_form expression.now)) }
{
    match expression {
        Expression::Integer(_) | Expression::Boolean(_) => Ok(()),
        Expression::Path(path) | Expression::NullTest { path, equal: _ } => {
            follow_path(types, variables, path, followed)
        }
        Expression::Unary {
            operator: _,
            operand,
        } => follow_expression(types, variables, operand, followed),
        Expression::Chain { first, links } => {
            follow_expression(types, variables, first, followed)?;
            follow_links(types, variables, links, followed)
        }
    }
}

/// Those of the right operands of operators.
#[cycle(evaluation)]
fn follow_links(
    types: &[TypeDefinition],
    variables: &[Variable],
    links: &[Link],
    followed: &mut Vec<TypeNo>,
) -> Result<(), AllocError>
    ensures { Lists result followed.old.items followed.new.items
        (λ t. rules.links_follow (types_in types.now) (variables_in variables.now) t (links_form links.now)) }
{
    'links: for link in links {
        follow_expression(types, variables, &link.operand, followed)?;
    }
    Ok(())
}

/// Those of a condition, where there is one.
pub(crate) fn follow_condition(
    types: &[TypeDefinition],
    variables: &[Variable],
    condition: &Option<Expression>,
    followed: &mut Vec<TypeNo>,
) -> Result<(), AllocError>
    ensures { Lists result followed.old.items followed.new.items
        (λ t. rules.condition_follows (types_in types.now) (variables_in variables.now) t (condition_form condition.now)) }
{
    match condition {
        None => Ok(()),
        Some(expression) => follow_expression(types, variables, expression, followed),
    }
}

/// Those of an actual parameter (6.4.1).
fn follow_actual(
    types: &[TypeDefinition],
    variables: &[Variable],
    actual: &Actual,
    followed: &mut Vec<TypeNo>,
) -> Result<(), AllocError>
    ensures { Lists result followed.old.items followed.new.items
        (λ t. rules.actual_follows (types_in types.now) (variables_in variables.now) t (actual_form actual.now)) }
{
    match actual {
        Actual::In(value) => follow_expression(types, variables, value, followed),
        Actual::InNull => Ok(()),
        Actual::InAccess(path)
        | Actual::InOut(path)
        | Actual::InOutAccess(path)
        | Actual::InOutComponent(path) => follow_path(types, variables, path, followed),
        Actual::InRecord(path) | Actual::InOutRecord(path) => {
            follow_record_path(types, variables, path, followed)
        }
    }
}

/// Those of actual parameters.
pub(crate) fn follow_actuals(
    types: &[TypeDefinition],
    variables: &[Variable],
    actuals: &[Actual],
    followed: &mut Vec<TypeNo>,
) -> Result<(), AllocError>
    ensures { Lists result followed.old.items followed.new.items
        (λ t. rules.actuals_follow (types_in types.now) (variables_in variables.now) t (map actual_form actuals.now)) }
{
    'actuals: for actual in actuals {
        follow_actual(types, variables, actual, followed)?;
    }
    Ok(())
}
