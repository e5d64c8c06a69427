//! The types of expressions (4.4, 4.5).

ghost use Rattle.std.specs.Prelude.{◌≡◌};
ghost use Rattle.ada_program.specs.Kept as kept;
ghost use Rattle.ada_program.specs.WellFormed as fits;

use crate::lookup::{path_access, path_kind, scalar_of};
use crate::program::{Expression, Link, Path, ScalarType, TypeDefinition, Variable};
use ada_values::operator::{BinaryOperator, UnaryOperator};

/// Whether an expression has this type.
pub(crate) fn has_type(
    types: &[TypeDefinition],
    variables: &[Variable],
    wanted: ScalarType,
    expression: &Expression,
) -> bool
    ensures { result ≡ kept.has_type types.now variables.now wanted expression.now }
{
    is_type(wanted, type_of(types, variables, expression))
}

/// The type of an expression: none, where an operand has none or a wrong one.
#[cycle(typing)]
#[tactic(auto, using(crate::specs::Form::expression_rules))]
fn type_of(
    types: &[TypeDefinition],
    variables: &[Variable],
    expression: &Expression,
) -> Option<ScalarType>
    ensures { result ≡ kept.type_of types.now variables.now expression.now }
{
    match expression {
        Expression::Integer(_) => Some(ScalarType::Integer),
        Expression::Boolean(_) => Some(ScalarType::Boolean),
        Expression::Path(path) => read_type(types, variables, path),
        Expression::NullTest { path, equal: _ } => null_test_type(types, variables, path),
        Expression::Unary { operator, operand } => unary_type(
            *operator,
            type_of(types, variables, operand),
        ),
        Expression::Chain { first, links } => {
            let left = type_of(types, variables, first);
            chain_type(types, variables, left, links)
        }
    }
}

/// The type of what an expression reads.
pub(crate) fn read_type(
    types: &[TypeDefinition],
    variables: &[Variable],
    path: &Path,
) -> Option<ScalarType>
    ensures { result ≡ kept.read_type types.now variables.now path.now }
{
    scalar_of(path_kind(types, variables, path))
}

/// The type of a comparison with null.
fn null_test_type(
    types: &[TypeDefinition],
    variables: &[Variable],
    path: &Path,
) -> Option<ScalarType>
    ensures { result ≡ kept.null_test_type types.now variables.now path.now }
{
    if path_access(types, variables, path).is_some() {
        Some(ScalarType::Boolean)
    } else {
        None
    }
}

/// The type after operators of one level, applied from left to right to a left operand of a type.
#[cycle(typing)]
fn chain_type(
    types: &[TypeDefinition],
    variables: &[Variable],
    left: Option<ScalarType>,
    links: &[Link],
) -> Option<ScalarType>
    ensures { result ≡ kept.chain_type types.now variables.now left links.now }
{
    let mut so_far = left;
    'links: for link in links {
        let right = type_of(types, variables, &link.operand);
        so_far = binary_type(link.operator, so_far, right);
    }
    so_far
}

/// The type of an operator before its operand (4.5.4, 4.5.6).
fn unary_type(operator: UnaryOperator, operand: Option<ScalarType>) -> Option<ScalarType>
    ensures { result ≡ fits.unary_type operator operand }
{
    let taken = match operator {
        UnaryOperator::Plus | UnaryOperator::Minus => ScalarType::Integer,
        UnaryOperator::Not => ScalarType::Boolean,
    };
    if is_type(taken, operand) {
        Some(taken)
    } else {
        None
    }
}

/// The type of an operator between its operands (4.5).
fn binary_type(
    operator: BinaryOperator,
    left: Option<ScalarType>,
    right: Option<ScalarType>,
) -> Option<ScalarType>
    ensures { result ≡ fits.binary_type operator left right }
{
    match operator {
        BinaryOperator::And
        | BinaryOperator::Or
        | BinaryOperator::Xor
        | BinaryOperator::AndThen
        | BinaryOperator::OrElse => given_two(
            ScalarType::Boolean,
            ScalarType::Boolean,
            left,
            right,
        ),
        BinaryOperator::Equal | BinaryOperator::NotEqual => given_alike(left, right),
        BinaryOperator::Less
        | BinaryOperator::LessOrEqual
        | BinaryOperator::Greater
        | BinaryOperator::GreaterOrEqual => given_two(
            ScalarType::Integer,
            ScalarType::Boolean,
            left,
            right,
        ),
        BinaryOperator::Add
        | BinaryOperator::Subtract
        | BinaryOperator::Multiply
        | BinaryOperator::Divide
        | BinaryOperator::Modulo
        | BinaryOperator::Remainder => given_two(
            ScalarType::Integer,
            ScalarType::Integer,
            left,
            right,
        ),
    }
}

/// What an operator gives that takes two operands of one type.
fn given_two(
    taken: ScalarType,
    given: ScalarType,
    left: Option<ScalarType>,
    right: Option<ScalarType>,
) -> Option<ScalarType>
    ensures { result ≡ fits.given_two taken given left right }
{
    if is_type(taken, left) && is_type(taken, right) {
        Some(given)
    } else {
        None
    }
}

/// What an equality gives (4.5.2).
fn given_alike(left: Option<ScalarType>, right: Option<ScalarType>) -> Option<ScalarType>
    ensures { result ≡ fits.given_alike left right }
{
    if is_type(left?, right) {
        Some(ScalarType::Boolean)
    } else {
        None
    }
}

/// Whether there is a type, and it is this one.
pub(crate) fn is_type(wanted: ScalarType, found: Option<ScalarType>) -> bool
    ensures { result ≡ fits.is_type wanted found }
{
    match (wanted, found) {
        (ScalarType::Integer, Some(ScalarType::Integer)) => true,
        (ScalarType::Boolean, Some(ScalarType::Boolean)) => true,
        (ScalarType::Integer, Some(ScalarType::Boolean) | None) => false,
        (ScalarType::Boolean, Some(ScalarType::Integer) | None) => false,
    }
}
