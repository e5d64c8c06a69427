//! Whether expressions may raise an exception: Constraint_Error is the only one that they can (11.5).

ghost use Rattle.std.specs.Prelude.{◌≡◌, map};
ghost use Rattle.ada_effects.specs.Effects as rules;
ghost use Rattle.ada_program.specs.Form.{actual_form, condition_form, expression_form, item_form, links_form, path_form, record_path_form};

use ada_program::Path;
use ada_program::program::{Actual, Expression, Item, Link, RecordPath};
use ada_values::operator::{BinaryOperator, UnaryOperator};

/// Whether an expression may raise an exception.
#[cycle(evaluation)]
#[tactic(auto, using(std::proofs::lemmas::Grind::common_steps, ada_program::specs::Form::expression_rules))]
pub fn expression_raises(expression: &Expression) -> bool
    ensures { result ≡ rules.expression_raises (expression_form expression.now) }
{
    match expression {
        Expression::Integer(_) | Expression::Boolean(_) => false,
        Expression::Path(path) | Expression::NullTest { path, equal: _ } => path_raises(path),
        Expression::Unary { operator, operand } => unary_raises(*operator)
            || expression_raises(operand),
        Expression::Chain { first, links } => expression_raises(first) || links_raise(links),
    }
}

/// Whether the operators behind the first operand may, or their right operands.
#[cycle(evaluation)]
fn links_raise(links: &[Link]) -> bool
    ensures { result ≡ rules.links_raise (links_form links.now) }
{
    'links: for link in links {
        if binary_raises(link.operator) || expression_raises(&link.operand) {
            return true;
        }
    }
    false
}

/// Whether an operator before its operand may: a negation may overflow (4.5.4).
fn unary_raises(operator: UnaryOperator) -> bool
    ensures { result ≡ rules.unary_raises operator }
{
    matches!(operator, UnaryOperator::Minus)
}

/// Whether an operator between two operands may: it may overflow, or divide by zero (4.5).
fn binary_raises(operator: BinaryOperator) -> bool
    ensures { result ≡ rules.binary_raises operator }
{
    matches!(
        operator,
        BinaryOperator::Add
            | BinaryOperator::Subtract
            | BinaryOperator::Multiply
            | BinaryOperator::Divide
            | BinaryOperator::Modulo
            | BinaryOperator::Remainder
    )
}

/// Whether a path may find null where it follows an access value (4.1). To the first component of a record object nothing is
/// followed.
pub fn path_raises(path: &Path) -> bool
    ensures { result ≡ rules.path_raises (path_form path.now) }
{
    let named = path.selectors.len();
    named > 1 || named == 1 && !path.of_record
}

/// Whether a path to a record may find null where it follows an access value to the object in which the record lies (4.1).
pub fn record_path_raises(path: &RecordPath) -> bool
    ensures { result ≡ rules.record_path_raises (record_path_form path.now) }
{
    !path.object.of_record || !path.object.selectors.is_empty()
}

/// Whether an actual parameter may raise an exception, where its value is evaluated (6.4.1).
fn actual_raises(actual: &Actual) -> bool
    ensures { result ≡ rules.actual_raises (actual_form actual.now) }
{
    match actual {
        Actual::In(value) => expression_raises(value),
        Actual::InNull => false,
        Actual::InAccess(path)
        | Actual::InOut(path)
        | Actual::InOutAccess(path)
        | Actual::InOutComponent(path) => path_raises(path),
        Actual::InRecord(path) | Actual::InOutRecord(path) => record_path_raises(path),
    }
}

/// Whether one of these actual parameters may.
pub fn actuals_raise(actuals: &[Actual]) -> bool
    ensures { result ≡ rules.actuals_raise (map actual_form actuals.now) }
{
    'actuals: for actual in actuals {
        if actual_raises(actual) {
            return true;
        }
    }
    false
}

/// Whether an item of an aggregate may raise an exception.
fn item_raises(item: &Item) -> bool
    ensures { result ≡ rules.item_raises (item_form item.now) }
{
    match item {
        Item::Null => false,
        Item::Path(path) => path_raises(path),
        Item::Value(expression) => expression_raises(expression),
        Item::Record(path) => record_path_raises(path),
    }
}

/// Whether the items of an aggregate may raise an exception.
pub fn items_raise(items: &[Item]) -> bool
    ensures { result ≡ rules.items_raise (map item_form items.now) }
{
    'items: for item in items {
        if item_raises(item) {
            return true;
        }
    }
    false
}

/// Whether the condition of a loop or of an exit may raise an exception, where there is one.
pub fn condition_raises(condition: &Option<Expression>) -> bool
    ensures { result ≡ rules.condition_raises (condition_form condition.now) }
{
    match condition {
        None => false,
        Some(expression) => expression_raises(expression),
    }
}
