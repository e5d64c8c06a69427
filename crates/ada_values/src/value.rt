//! The values that an expression of a predefined type has.

/// A value of a predefined type (3.5.3, 3.5.4).
#[derive(Clone, Copy, Debug, PartialEq, Eq)]
pub enum Value {
    /// A value of type Integer, whose range is `-2**31 .. 2**31 - 1`.
    Integer(i32),
    /// A value of type Boolean.
    Boolean(bool),
}
