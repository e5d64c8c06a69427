//! Numbers and comparisons that expressions have at once. Most of what loops compute is such a number, and no value of
//! another type is made for it.

ghost use Rattle.std.specs.Prelude.{◌≡◌, Ok, Some, IfSome};
ghost use Rattle.std.specs.List.{slice_index_or};
ghost use Rattle.ada_values.specs.declared.value.Value.TheVariants as scalar;
ghost use Rattle.ada_values.specs.Operators.{IsComparison};
ghost use Rattle.ada_values.specs.Outcome.{outcome_of};
ghost use Rattle.ada_program.specs.Form.{path_form, expression_form, links_form};
ghost use Rattle.ada_interpreter.specs.AtOnce as rules;

use crate::values::value_at;
use ada_meaning::Value;
use ada_program::Path;
use ada_program::program::{Expression, Link};
use ada_values::Value as Scalar;
use ada_values::operator::BinaryOperator;

/// The number that an expression is (4.4), where variables hold these values: none where one of its operators is not one
/// that gives an Integer of two. Costs as much as the expression is long.
#[cycle(numbers)]
#[tactic(auto, using(std::proofs::lemmas::Grind::common_steps, ada_program::specs::Form::expression_rules))]
pub(crate) fn number_at_once(places: &[Value], expression: &Expression) -> Option<i32>
    ensures { IfSome result
        (λ n. rules.value_at_once places.now (expression_form expression.now) ≡ Some (scalar.Integer n)) }
{
    match expression {
        Expression::Chain { first, links } => {
            let left = match plain_number(places, first) {
                Some(left) => left,
                None => number_at_once(places, first)?,
            };
            result_at_once(places, left, links)
        }
        _ => plain_number(places, expression),
    }
}

/// The number that a chain is, whose left operand is this one (4.5).
#[cycle(numbers)]
#[inline(always)]
fn result_at_once(places: &[Value], left: i32, links: &[Link]) -> Option<i32>
    ensures { IfSome result
        (λ n. rules.links_at_once places.now (Some (scalar.Integer left)) (links_form links.now) ≡ Some (scalar.Integer n)) }
{
    let mut value = left;
    'links: for link in links {
        let right = match plain_number(places, &link.operand) {
            Some(right) => right,
            None => number_at_once(places, &link.operand)?,
        };
        value = result_of(link.operator, value, right)?;
    }
    Some(value)
}

/// The truth of a chain whose last operator compares two numbers (4.5.2).
#[inline(always)]
pub(crate) fn comparison_at_once(
    places: &[Value],
    first: &Expression,
    links: &[Link],
) -> Option<bool>
    ensures { let left = rules.value_at_once places.now (expression_form first.now) in
        IfSome result
        (λ truth. rules.links_at_once places.now left (links_form links.now) ≡ Some (scalar.Boolean truth)) }
{
    let mut left = operand_at_once(places, first)?;
    let mut rest = links;
    'links: while let Some((link, behind)) = rest.split_first() {
        let right = operand_at_once(places, &link.operand)?;
        if behind.is_empty() {
            return comparison_of(link.operator, left, right);
        }
        left = result_of(link.operator, left, right)?;
        rest = behind;
    }
    None
}

/// The number that an operand is. Most operands are written or held, and this calls nothing for them.
#[inline(always)]
fn operand_at_once(places: &[Value], expression: &Expression) -> Option<i32>
    ensures { IfSome result
        (λ n. rules.value_at_once places.now (expression_form expression.now) ≡ Some (scalar.Integer n)) }
{
    match plain_number(places, expression) {
        Some(number) => Some(number),
        None => number_at_once(places, expression),
    }
}

/// The number that an expression is, if it is written there, or a variable holds it (2.4, 4.1).
#[tactic(auto, using(std::proofs::lemmas::Grind::common_steps, ada_program::specs::Form::expression_rules))]
#[inline(always)]
fn plain_number(places: &[Value], expression: &Expression) -> Option<i32>
    ensures { IfSome result
        (λ n. rules.value_at_once places.now (expression_form expression.now) ≡ Some (scalar.Integer n)) }
{
    match expression {
        Expression::Integer(value) => Some(*value),
        Expression::Path(path) => number_held(places, path),
        _ => None,
    }
}

/// The number that a variable holds, where nothing is selected behind it (4.1).
#[inline(always)]
fn number_held(places: &[Value], path: &Path) -> Option<i32>
    ensures { let form = path_form path.now in
        IfSome result
        (λ n. rules.variable_at_once form.selectors (slice_index_or places.now form.root Value.Null) ≡ Some (scalar.Integer n)) }
{
    if !path.selectors.is_empty() {
        return None;
    }
    match value_at(places, path.root.0) {
        Value::Scalar(Scalar::Integer(number)) => Some(number),
        _ => None,
    }
}

/// The number that an operator gives of two numbers, if it gives one (4.5.3, 4.5.5).
#[inline(always)]
fn result_of(operator: BinaryOperator, left: i32, right: i32) -> Option<i32>
    ensures { IfSome result
        (λ n. outcome_of operator (scalar.Integer left) (scalar.Integer right) ≡ Ok (scalar.Integer n)) }
{
    match operator {
        BinaryOperator::Add => left.checked_add(right),
        BinaryOperator::Subtract => left.checked_sub(right),
        BinaryOperator::Multiply => left.checked_mul(right),
        BinaryOperator::Divide | BinaryOperator::Modulo | BinaryOperator::Remainder => {
            quotient_of(operator, left, right)
        }
        _ => None,
    }
}

/// The number that an operator gives of two numbers, if it gives one: those that divide (4.5.5).
fn quotient_of(operator: BinaryOperator, left: i32, right: i32) -> Option<i32>
    ensures { IfSome result
        (λ n. outcome_of operator (scalar.Integer left) (scalar.Integer right) ≡ Ok (scalar.Integer n)) }
{
    match ada_values::binary(operator, Scalar::Integer(left), Scalar::Integer(right)) {
        Ok(Scalar::Integer(number)) => Some(number),
        _ => None,
    }
}

/// What an operator tells of two numbers, if it compares them (4.5.2).
#[inline(always)]
fn comparison_of(operator: BinaryOperator, left: i32, right: i32) -> Option<bool>
    ensures { IfSome result (IsComparison operator left right) }
{
    match operator {
        BinaryOperator::Equal => Some(left == right),
        BinaryOperator::NotEqual => Some(left != right),
        BinaryOperator::Less => Some(left < right),
        BinaryOperator::LessOrEqual => Some(left <= right),
        BinaryOperator::Greater => Some(left > right),
        BinaryOperator::GreaterOrEqual => Some(left >= right),
        _ => None,
    }
}
