//! Expressions, what stands on the right of `:=`, and arguments (4.4, 4.8, 6.4).

use crate::names::{Identifier, Path};
use ada_text::Spot;
use ada_values::operator::{BinaryOperator, UnaryOperator};

/// An expression, as it is written (4.4).
#[derive(Drop)]
#[cycle(expression)]
pub enum Expression<'t> {
    /// A number (2.4).
    Number {
        spot: Spot,
        value: u32,
    },
    /// `null`
    Null(Spot),
    /// An object, or whatever else a path may name.
    Path(Path<'t>),
    /// `T'(1, null)` (4.7).
    Aggregate {
        type_name: Identifier<'t>,
        items: Vec<Item<'t>>,
    },
    /// `(X)`; the spot is that of the parenthesis.
    Enclosed {
        spot: Spot,
        inner: Box<Expression<'t>>,
    },
    /// `not X` or `-X`; the spot is that of the operator.
    Unary {
        operator: UnaryOperator,
        spot: Spot,
        operand: Box<Expression<'t>>,
    },
    /// `X * Y + Z`: each operator has for its left operand all that stands before it.
    Chain {
        first: Box<Expression<'t>>,
        links: Vec<Link<'t>>,
    },
}

/// An operator of a chain, and its right operand (4.5).
#[derive(Drop)]
#[cycle(expression)]
pub struct Link<'t> {
    pub operator: BinaryOperator,
    pub operand: Expression<'t>,
}

/// An item of an aggregate, perhaps with the component that it is for (4.3.1).
#[derive(Drop)]
#[cycle(expression)]
pub struct Item<'t> {
    pub label: Option<Identifier<'t>>,
    pub value: Expression<'t>,
}

/// What may stand on the right of `:=`.
#[derive(Drop)]
pub enum Right<'t> {
    /// A value (4.4).
    Expression(Expression<'t>),
    /// `new (P) T'(1, null)`, with or without the parentheses; no items: `new T` (4.8).
    Allocator {
        spot: Spot,
        handle: Option<Identifier<'t>>,
        type_name: Identifier<'t>,
        items: Vec<Item<'t>>,
    },
    /// `P.Create (X)`, where the path is a name.
    Creation {
        function: Path<'t>,
        argument: Identifier<'t>,
    },
}

/// An argument of a call (6.4).
#[derive(Drop)]
pub enum Argument<'t> {
    /// A value (4.4).
    Expression(Expression<'t>),
    /// A string (2.6).
    Text {
        spot: Spot,
        text: &'t str,
    },
    /// `Integer'Image (X)` (4.1.4).
    Attribute {
        prefix: Identifier<'t>,
        attribute: Identifier<'t>,
        value: Expression<'t>,
    },
}
