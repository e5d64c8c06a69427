//! Why an operator gives no value.

use thiserror::Error;

/// Why an operator gives no value.
#[derive(Clone, Copy, Debug, PartialEq, Eq, Error)]
pub enum OperatorFault {
    /// The result is outside the range of Integer; at run time this raises Constraint_Error (4.5).
    #[error("overflow")]
    Overflow,
    /// The right operand of `/`, `rem` or `mod` is zero; at run time this raises Constraint_Error (4.5.5).
    #[error("division by zero")]
    DivisionByZero,
    /// The operator is not for operands of these types, which no legal program asks for.
    #[error("operands of a wrong type")]
    WrongType,
}
