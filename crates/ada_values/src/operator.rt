//! The operators of the language (4.5).

/// An operator with one operand (4.5.4, 4.5.6).
#[derive(Clone, Copy, Debug, PartialEq, Eq)]
pub enum UnaryOperator {
    /// `+`
    Plus,
    /// `-`
    Minus,
    /// `not`
    Not,
}

/// An operator with two operands, or a short-circuit control form (4.5).
#[derive(Clone, Copy, Debug, PartialEq, Eq)]
pub enum BinaryOperator {
    /// `and`
    And,
    /// `or`
    Or,
    /// `xor`
    Xor,
    /// `and then`
    AndThen,
    /// `or else`
    OrElse,
    /// `=`
    Equal,
    /// `/=`
    NotEqual,
    /// `<`
    Less,
    /// `<=`
    LessOrEqual,
    /// `>`
    Greater,
    /// `>=`
    GreaterOrEqual,
    /// `+`
    Add,
    /// `-`
    Subtract,
    /// `*`
    Multiply,
    /// `/`
    Divide,
    /// `mod`
    Modulo,
    /// `rem`
    Remainder,
}
