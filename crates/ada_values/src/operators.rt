//! The predefined operators on values (4.5).

ghost use Rattle.std.specs.Prelude.{◌≡◌, ◌≢◌, ◌↔◌, pos, IsTrue, MatchOption, IsErrOf};
ghost use Rattle.ada_values.specs.Operators.{HaveOppositeSigns, IsModulus, IsComparison, IsCombination, is_relational, is_for_booleans, Gives, Overflows, DividesByZero, IsFor, IsOutcome, UnaryGives, UnaryOverflows, UnaryIsFor};
ghost use Rattle.ada_values.specs.Outcome.{outcome_of, unary_outcome_of};

use crate::fault::OperatorFault;
use crate::operator::{BinaryOperator, UnaryOperator};
use crate::value::Value;

/// What a unary operator gives of its operand (4.5.4, 4.5.6).
///
/// # Errors
/// `Overflow` where the exact result is out of range, which is `-` of the first Integer alone, and `WrongType` where
/// the operator is not for the operand's type.
pub fn unary(operator: UnaryOperator, operand: Value) -> Result<Value, OperatorFault>
    ensures value { (value : Value) → (result ≡ Ok value) ↔ UnaryGives operator operand value }
    ensures overflow { IsErrOf result OperatorFault.Overflow ↔ UnaryOverflows operator operand }
    ensures division { result ≢ Err OperatorFault.DivisionByZero }
    ensures types { IsErrOf result OperatorFault.WrongType ↔ (¬ UnaryIsFor operator operand) }
    ensures outcome { result ≡ unary_outcome_of operator operand }
{
    match (operator, operand) {
        (UnaryOperator::Plus, Value::Integer(_)) => Ok(operand),
        (UnaryOperator::Minus, Value::Integer(number)) => in_range(number.checked_neg()),
        (UnaryOperator::Not, Value::Boolean(truth)) => Ok(Value::Boolean(!truth)),
        _ => Err(OperatorFault::WrongType),
    }
}

/// What a binary operator gives of its operands (4.5.1, 4.5.2, 4.5.3, 4.5.5).
///
/// A short-circuit form gives what its logical operator does: that its right operand may not be evaluated is for the
/// caller to see to.
///
/// # Errors
/// `DivisionByZero` where zero divides, else `Overflow` where the exact result is out of range, and `WrongType` where
/// the operator is not for operands of these types.
pub fn binary(operator: BinaryOperator, left: Value, right: Value) -> Result<Value, OperatorFault>
    ensures value { (value : Value) → (result ≡ Ok value) ↔ Gives operator left right value }
    ensures overflow { IsErrOf result OperatorFault.Overflow ↔ Overflows operator left right }
    ensures division { IsErrOf result OperatorFault.DivisionByZero
        ↔ DividesByZero operator left right }
    ensures types { IsErrOf result OperatorFault.WrongType ↔ (¬ IsFor operator left right) }
    ensures outcome { result ≡ outcome_of operator left right }
{
    match (left, right) {
        (Value::Integer(left), Value::Integer(right)) => of_integers(operator, left, right),
        (Value::Boolean(left), Value::Boolean(right)) => of_booleans(operator, left, right),
        _ => Err(OperatorFault::WrongType),
    }
}

fn of_integers(operator: BinaryOperator, left: i32, right: i32) -> Result<Value, OperatorFault>
    ensures { IsOutcome operator (Value.Integer left) (Value.Integer right) result }
{
    match operator {
        BinaryOperator::Add => in_range(left.checked_add(right)),
        BinaryOperator::Subtract => in_range(left.checked_sub(right)),
        BinaryOperator::Multiply => in_range(left.checked_mul(right)),
        BinaryOperator::Divide => quotient(left, right),
        BinaryOperator::Modulo => modulus(left, right),
        BinaryOperator::Remainder => remainder(left, right),
        _ => told(relational(operator, left, right)),
    }
}

fn of_booleans(operator: BinaryOperator, left: bool, right: bool) -> Result<Value, OperatorFault>
    ensures { IsOutcome operator (Value.Boolean left) (Value.Boolean right) result }
{
    told(logical(operator, left, right))
}

/// An exact result, if it is in Integer's range.
fn in_range(exact: Option<i32>) -> Result<Value, OperatorFault>
    ensures { MatchOption exact (result ≡ Err OperatorFault.Overflow)
        (λ number. result ≡ Ok (Value.Integer number)) }
{
    match exact {
        Some(number) => Ok(Value::Integer(number)),
        None => Err(OperatorFault::Overflow),
    }
}

/// What an operator tells, if it is for such operands.
fn told(truth: Option<bool>) -> Result<Value, OperatorFault>
    ensures { MatchOption truth (result ≡ Err OperatorFault.WrongType)
        (λ t. result ≡ Ok (Value.Boolean t)) }
{
    match truth {
        Some(truth) => Ok(Value::Boolean(truth)),
        None => Err(OperatorFault::WrongType),
    }
}

/// `/` (4.5.5).
fn quotient(left: i32, right: i32) -> Result<Value, OperatorFault>
    ensures { IsOutcome BinaryOperator.Divide (Value.Integer left) (Value.Integer right) result }
{
    if right == 0 {
        Err(OperatorFault::DivisionByZero)
    } else {
        in_range(left.checked_div(right))
    }
}

/// `rem` (4.5.5), which is never out of range: `Integer'First rem -1` is 0.
fn remainder(left: i32, right: i32) -> Result<Value, OperatorFault>
    ensures { IsOutcome BinaryOperator.Remainder (Value.Integer left) (Value.Integer right) result }
{
    if right == 0 {
        Err(OperatorFault::DivisionByZero)
    } else {
        Ok(Value::Integer(left.wrapping_rem(right)))
    }
}

/// `mod` (4.5.5), which is never out of range.
fn modulus(left: i32, right: i32) -> Result<Value, OperatorFault>
    ensures { IsOutcome BinaryOperator.Modulo (Value.Integer left) (Value.Integer right) result }
{
    if right == 0 {
        Err(OperatorFault::DivisionByZero)
    } else {
        Ok(Value::Integer(modulus_by_nonzero(left, right)))
    }
}

/// The modulus: the remainder, or one right operand more where that has the other sign.
fn modulus_by_nonzero(left: i32, right: i32) -> i32
    requires { right ≢ pos 0 }
    ensures { IsModulus left right result }
{
    let remainder = left.wrapping_rem(right);
    if have_opposite_signs(remainder, right) {
        remainder + right
    } else {
        remainder
    }
}

fn have_opposite_signs(a: i32, b: i32) -> bool
    ensures { IsTrue result ↔ HaveOppositeSigns a b }
{
    a < 0 && b > 0 || a > 0 && b < 0
}

/// The relational operators on Integers (4.5.2).
fn relational(operator: BinaryOperator, left: i32, right: i32) -> Option<bool>
    ensures { MatchOption result (¬ IsTrue (is_relational operator))
        (IsComparison operator left right) }
{
    match operator {
        BinaryOperator::Equal => Some(left == right),
        BinaryOperator::NotEqual => Some(left != right),
        BinaryOperator::Less => Some(left < right),
        BinaryOperator::LessOrEqual => Some(left <= right),
        BinaryOperator::Greater => Some(left > right),
        BinaryOperator::GreaterOrEqual => Some(left >= right),
        _ => None,
    }
}

/// The logical operators (4.5.1) and equality (4.5.2) on Booleans.
fn logical(operator: BinaryOperator, left: bool, right: bool) -> Option<bool>
    ensures { MatchOption result (¬ IsTrue (is_for_booleans operator))
        (IsCombination operator left right) }
{
    match operator {
        BinaryOperator::And | BinaryOperator::AndThen => Some(left && right),
        BinaryOperator::Or | BinaryOperator::OrElse => Some(left || right),
        BinaryOperator::Xor | BinaryOperator::NotEqual => Some(left != right),
        BinaryOperator::Equal => Some(left == right),
        _ => None,
    }
}
