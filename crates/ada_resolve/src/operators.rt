//! Operators with their operands: what they mean, and what is wrong with these (4.5).

ghost use Rattle.std.specs.Prelude.{◌≡◌, IfErr};
ghost use Rattle.ada_program.specs.Form.{chained, expression_form};
ghost use Rattle.ada_resolve.specs.Method.{Finds, IsNoted};
ghost use Rattle.ada_resolve.specs.Operators.{binary_meant, equality_meant, equal_wanted, integer_in, joined, operand_remark, operands_remark, unary_meant};
ghost use Rattle.ada_resolve.specs.View.{meant_of, single_link};

use crate::fault::{NameFault, NameRule};
use crate::meant::{Comparable, Meant};
use crate::notes::Notes;
use ada_program::Spot;
use ada_program::program::{Expression, Link};
use ada_values::operator::{BinaryOperator, UnaryOperator};
use std::alloc::Global;

/// What an operator means with its one operand (4.5.4, 4.5.6).
#[tactic(auto, using(std::proofs::lemmas::Grind::common_steps, ada_program::specs::Form::expression_rules))]
pub(crate) fn unary_meant(
    alloc: Global,
    operator: UnaryOperator,
    operand: Meant,
) -> Result<Meant, NameFault>
    ensures found { Finds meant_of result (unary_meant operator (meant_of operand)) }
    ensures memory { IfErr result (λ e. e ≡ NameFault.NoMemory) }
{
    match operator {
        UnaryOperator::Plus | UnaryOperator::Minus => {
            let operand = Box::new(alloc, operand.into_integer())?;
            Ok(Meant::Integer(Expression::Unary { operator, operand }))
        }
        UnaryOperator::Not => {
            let operand = Box::new(alloc, operand.into_boolean())?;
            Ok(Meant::Boolean(Expression::Unary { operator, operand }))
        }
    }
}

/// What an operator means with its two operands (4.5).
pub(crate) fn binary_meant(
    alloc: Global,
    operator: BinaryOperator,
    left: Meant,
    right: Meant,
) -> Result<Meant, NameFault>
    ensures found { Finds meant_of result (binary_meant operator (meant_of left) (meant_of right)) }
    ensures memory { IfErr result (λ e. e ≡ NameFault.NoMemory) }
{
    match operator {
        BinaryOperator::Add
        | BinaryOperator::Subtract
        | BinaryOperator::Multiply
        | BinaryOperator::Divide
        | BinaryOperator::Modulo
        | BinaryOperator::Remainder => {
            Ok(Meant::Integer(of_integers(alloc, left, operator, right)?))
        }
        BinaryOperator::Less
        | BinaryOperator::LessOrEqual
        | BinaryOperator::Greater
        | BinaryOperator::GreaterOrEqual => {
            Ok(Meant::Boolean(of_integers(alloc, left, operator, right)?))
        }
        BinaryOperator::Equal => equality_meant(alloc, BinaryOperator::Equal, left, right),
        BinaryOperator::NotEqual => equality_meant(alloc, BinaryOperator::NotEqual, left, right),
        BinaryOperator::And
        | BinaryOperator::Or
        | BinaryOperator::Xor
        | BinaryOperator::AndThen
        | BinaryOperator::OrElse => {
            let (left, right) = (left.into_boolean(), right.into_boolean());
            Ok(Meant::Boolean(joined(alloc, left, operator, right)?))
        }
    }
}

/// What an equality means: a value of an access type is compared with null alone (4.5.2).
#[tactic(auto, using(std::proofs::lemmas::Grind::common_steps, ada_program::specs::Form::expression_rules))]
fn equality_meant(
    alloc: Global,
    operator: BinaryOperator,
    left: Meant,
    right: Meant,
) -> Result<Meant, NameFault>
    ensures found { Finds meant_of result
        (equality_meant operator (meant_of left) (meant_of right)) }
    ensures memory { IfErr result (λ e. e ≡ NameFault.NoMemory) }
{
    let equal = matches!(operator, BinaryOperator::Equal);
    match (left, right) {
        (Meant::Access(path, _), Meant::Null) | (Meant::Null, Meant::Access(path, _)) => {
            Ok(Meant::Boolean(Expression::NullTest { path, equal }))
        }
        (left, right) => {
            let (left, right) = (left.into_scalar(), right.into_scalar());
            Ok(Meant::Boolean(joined(alloc, left, operator, right)?))
        }
    }
}

/// An operator with two Integers.
fn of_integers(
    alloc: Global,
    left: Meant,
    operator: BinaryOperator,
    right: Meant,
) -> Result<Expression, NameFault>
    ensures found { Finds expression_form result
        (joined (integer_in (meant_of left)) operator (integer_in (meant_of right))) }
    ensures memory { IfErr result (λ e. e ≡ NameFault.NoMemory) }
{
    joined(alloc, left.into_integer(), operator, right.into_integer())
}

/// An operator with its operands: a chain goes on.
#[tactic(auto, using(std::proofs::lemmas::Grind::common_steps, ada_program::specs::Form::expression_rules, crate::proofs::Chains::links_snoc))]
fn joined(
    alloc: Global,
    left: Expression,
    operator: BinaryOperator,
    operand: Expression,
) -> Result<Expression, NameFault>
    ensures found { Finds expression_form result
        (joined (expression_form left) operator (expression_form operand)) }
    ensures memory { IfErr result (λ e. e ≡ NameFault.NoMemory) }
{
    let link = Link { operator, operand };
    match left {
        Expression::Chain { first, mut links } => {
            links.push(link)?;
            Ok(Expression::Chain { first, links })
        }
        Expression::Integer(_)
        | Expression::Boolean(_)
        | Expression::Path(_)
        | Expression::NullTest { .. }
        | Expression::Unary { .. } => chain(alloc, left, link),
    }
}

/// A chain of one operator.
#[tactic(auto, using(std::proofs::lemmas::Grind::common_steps, ada_program::specs::Form::expression_rules))]
fn chain(alloc: Global, first: Expression, link: Link) -> Result<Expression, NameFault>
    ensures found { Finds expression_form result
        (chained (expression_form first) (single_link link)) }
    ensures memory { IfErr result (λ e. e ≡ NameFault.NoMemory) }
{
    let links = vec![in alloc; link]?;
    let first = Box::new(alloc, first)?;
    Ok(Expression::Chain { first, links })
}

/// What is wrong with the one operand of an operator.
pub(crate) fn operand_wanted(
    operator: UnaryOperator,
    operand: &Meant,
    spot: Spot,
    notes: &mut Notes,
)
    ensures { IsNoted notes (operand_remark operator (meant_of operand.now) spot) }
{
    match operator {
        UnaryOperator::Plus | UnaryOperator::Minus => operand.integer_wanted(spot, notes),
        UnaryOperator::Not => operand.boolean_wanted(spot, notes),
    }
}

/// What is wrong with the operands of an operator, which begin here.
pub(crate) fn operands_wanted(
    operator: BinaryOperator,
    left: &Meant,
    left_spot: Spot,
    right: &Meant,
    right_spot: Spot,
    notes: &mut Notes,
)
    ensures { IsNoted notes
        (operands_remark operator (meant_of left.now) left_spot (meant_of right.now) right_spot) }
{
    match operator {
        BinaryOperator::Add
        | BinaryOperator::Subtract
        | BinaryOperator::Multiply
        | BinaryOperator::Divide
        | BinaryOperator::Modulo
        | BinaryOperator::Remainder
        | BinaryOperator::Less
        | BinaryOperator::LessOrEqual
        | BinaryOperator::Greater
        | BinaryOperator::GreaterOrEqual => {
            left.integer_wanted(left_spot, notes);
            right.integer_wanted(right_spot, notes);
        }
        BinaryOperator::Equal | BinaryOperator::NotEqual => equal_wanted(
            left, left_spot, right, right_spot, notes,
        ),
        BinaryOperator::And
        | BinaryOperator::Or
        | BinaryOperator::Xor
        | BinaryOperator::AndThen
        | BinaryOperator::OrElse => {
            left.boolean_wanted(left_spot, notes);
            right.boolean_wanted(right_spot, notes);
        }
    }
}

/// What is wrong with the operands of an equality.
fn equal_wanted(left: &Meant, left_spot: Spot, right: &Meant, right_spot: Spot, notes: &mut Notes)
    ensures { IsNoted notes
        (equal_wanted (meant_of left.now) left_spot (meant_of right.now) right_spot) }
{
    match (left.comparable(), right.comparable()) {
        (Comparable::Record, _) => notes.note(left_spot, NameRule::WrongType),
        (Comparable::AnyValue, _)
        | (_, Comparable::AnyValue)
        | (Comparable::Null, Comparable::Access)
        | (Comparable::Access, Comparable::Null)
        | (Comparable::Integer, Comparable::Integer)
        | (Comparable::Boolean, Comparable::Boolean) => {}
        (Comparable::Null, _) => notes.note(left_spot, NameRule::WrongType),
        _ => notes.note(right_spot, NameRule::WrongType),
    }
}
