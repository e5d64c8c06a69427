//! Expressions that have a value at once: no path in them follows a value, and no operator raises an exception.

ghost use Rattle.std.specs.Prelude.{◌≡◌, ◌≢◌, [], IfSome};
ghost use Rattle.ada_program.specs.Form.{path_form, expression_form, links_form, right_form};
ghost use Rattle.ada_meaning.specs.Step.{places};
ghost use Rattle.std.specs.List.{slice_index_or};
ghost use Rattle.ada_interpreter.specs.AtOnce as rules;
ghost use Rattle.ada_interpreter.specs.Process.{state_of};

use crate::numbers::{comparison_at_once, number_at_once};
use crate::operators::is_decided;
use crate::process::Process;
use crate::values::value_at;
use ada_meaning::Value;
use ada_program::Path;
use ada_program::program::{Expression, Link, Right};
use ada_values::Value as Scalar;
use ada_values::operator::{BinaryOperator, UnaryOperator};

impl<'a> Process<'a> {
    /// The value of what is assigned, if that is an expression that has one at once (5.2).
    #[inline(always)]
    pub(crate) fn right_at_once(&self, right: &Right) -> Option<Scalar>
        ensures { let s = state_of self.now in
            IfSome result
            (λ value. (s.activations ≢ []) × (rules.right_at_once (places s) (right_form right.now) ≡ Some value)) }
    {
        match right {
            Right::Value(expression) => {
                let places = self.activations.running_places()?;
                match number_at_once(places, expression) {
                    Some(number) => Some(Scalar::Integer(number)),
                    None => value_at_once(places, expression),
                }
            }
            _ => None,
        }
    }

    /// The number that an expression is at once (4.4), if all operators in it are between Integers.
    pub(crate) fn number_at_once(&self, expression: &Expression) -> Option<i32>
        ensures { let s = state_of self.now in
            IfSome result
            (λ n. (s.activations ≢ []) × (rules.value_at_once (places s) (expression_form expression.now) ≡ Some (Scalar.Integer n))) }
    {
        number_at_once(self.activations.running_places()?, expression)
    }

    /// The truth that a condition has at once (5.3).
    #[tactic(auto, using(std::proofs::lemmas::Grind::common_steps, ada_program::specs::Form::expression_rules))]
    pub(crate) fn truth_at_once(&self, condition: &Expression) -> Option<bool>
        ensures { let s = state_of self.now in
            IfSome result
            (λ truth. (s.activations ≢ []) × (rules.value_at_once (places s) (expression_form condition.now) ≡ Some (Scalar.Boolean truth))) }
    {
        let places = self.activations.running_places()?;
        if let Expression::Chain { first, links } = condition {
            if let Some(truth) = comparison_at_once(places, first, links) {
                return Some(truth);
            }
        }
        match value_at_once(places, condition)? {
            Scalar::Boolean(truth) => Some(truth),
            Scalar::Integer(_) => None,
        }
    }
}

/// The value of an expression (4.4), where variables hold these values: none where a path follows a value, or an operator
/// raises an exception. Costs as much as the expression is long.
#[cycle(at_once)]
#[tactic(auto, using(std::proofs::lemmas::Grind::common_steps, ada_program::specs::Form::expression_rules))]
pub(crate) fn value_at_once(places: &[Value], expression: &Expression) -> Option<Scalar>
    ensures { result ≡ rules.value_at_once places.now (expression_form expression.now) }
{
    match expression {
        Expression::Integer(value) => Some(Scalar::Integer(*value)),
        Expression::Boolean(value) => Some(Scalar::Boolean(*value)),
        Expression::Path(path) => variable_at_once(places, path),
        Expression::NullTest { path, equal } => test_at_once(places, path, *equal),
        Expression::Unary { operator, operand } => {
            let operand = value_at_once(places, operand)?;
            ada_values::unary(*operator, operand).ok()
        }
        Expression::Chain { first, links } => {
            if let Some(truth) = comparison_at_once(places, first, links) {
                return Some(Scalar::Boolean(truth));
            }
            let first = match leaf_at_once(places, first) {
                Some(first) => first,
                None => value_at_once(places, first)?,
            };
            links_at_once(places, first, links)
        }
    }
}

/// The value of a chain, whose left operand has this one (4.5).
#[cycle(at_once)]
fn links_at_once(places: &[Value], left: Scalar, links: &[Link]) -> Option<Scalar>
    ensures { result ≡ rules.links_at_once places.now (Some left) (links_form links.now) }
{
    let mut value = left;
    'links: for link in links {
        if !is_decided(link.operator, Value::Scalar(value)) {
            let right = match leaf_at_once(places, &link.operand) {
                Some(right) => right,
                None => value_at_once(places, &link.operand)?,
            };
            value = ada_values::binary(link.operator, value, right).ok()?;
        }
    }
    Some(value)
}

/// The value of an expression that is a number or a variable. Most operands are, and this calls nothing for them.
#[tactic(auto, using(std::proofs::lemmas::Grind::common_steps, ada_program::specs::Form::expression_rules))]
fn leaf_at_once(places: &[Value], expression: &Expression) -> Option<Scalar>
    ensures { IfSome result
        (λ value. rules.value_at_once places.now (expression_form expression.now) ≡ Some value) }
{
    match expression {
        Expression::Integer(value) => Some(Scalar::Integer(*value)),
        Expression::Path(path) => variable_at_once(places, path),
        _ => None,
    }
}

/// The value of a variable, where nothing is selected behind it (4.1).
fn variable_at_once(places: &[Value], path: &Path) -> Option<Scalar>
    ensures { let form = path_form path.now in
        result ≡ rules.variable_at_once form.selectors (slice_index_or places.now form.root Value.Null) }
{
    if !path.selectors.is_empty() {
        return None;
    }
    match value_at(places, path.root.0) {
        Value::Scalar(value) => Some(value),
        Value::Null
        | Value::Names(_)
        | Value::Part {
            object: _,
            place: _,
        } => None,
    }
}

/// Whether the access value of a variable is null, or is not, where nothing is selected behind it (4.5.2).
fn test_at_once(places: &[Value], path: &Path, equal: bool) -> Option<Scalar>
    ensures { let form = path_form path.now in
        result ≡ rules.test_at_once form.selectors equal (slice_index_or places.now form.root Value.Null) }
{
    if !path.selectors.is_empty() {
        return None;
    }
    match value_at(places, path.root.0) {
        Value::Null => Some(Scalar::Boolean(equal)),
        Value::Names(_)
        | Value::Part {
            object: _,
            place: _,
        } => Some(Scalar::Boolean(!equal)),
        Value::Scalar(_) => None,
    }
}
