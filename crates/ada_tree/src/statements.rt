//! Statements and handlers (5.1, 11.2).

use crate::declarations::Declaration;
use crate::expressions::{Argument, Expression, Right};
use crate::names::{Identifier, Name, Path};
use ada_text::Spot;

/// A statement; the spot is that of its first word, where it begins with one.
#[derive(Drop)]
#[cycle(tree)]
pub enum Statement<'t> {
    /// `null;`
    Null(Spot),
    /// `X := ..;` (5.2)
    Assignment {
        target: Path<'t>,
        value: Right<'t>,
    },
    /// `P;` or `P (..);`; no arguments where no parentheses are written (6.4)
    Call {
        procedure: Path<'t>,
        arguments: Vec<Argument<'t>>,
    },
    /// `if .. then .. elsif .. then .. else .. end if;`; nothing under `otherwise` where no `else` is written (5.3)
    If {
        spot: Spot,
        branches: Vec<Branch<'t>>,
        otherwise: Vec<Statement<'t>>,
        /// Where the word `end` stands.
        end: Spot,
    },
    /// `while .. loop .. end loop;` (5.5); the spot is that of the first word, which may be `loop`
    Loop {
        spot: Spot,
        scheme: Scheme<'t>,
        statements: Vec<Statement<'t>>,
        /// Where the word `end` stands.
        end: Spot,
    },
    /// `exit;` or `exit when ..;` (5.7)
    Exit {
        spot: Spot,
        condition: Option<Expression<'t>>,
    },
    /// `return;` (6.5)
    Return(Spot),
    /// `raise E;` (11.3)
    Raise {
        spot: Spot,
        name: Name<'t>,
    },
    /// `begin .. end;` (5.6)
    Block(Sequence<'t>),
    /// `declare .. begin .. end;` (5.6)
    DeclareBlock {
        spot: Spot,
        declarations: Vec<Declaration<'t>>,
        body: Sequence<'t>,
    },
}

/// How often a loop runs (5.5).
#[derive(Drop)]
pub enum Scheme<'t> {
    Endless,
    /// `while ..`
    While(Expression<'t>),
    /// `for I in 1 .. N`
    For {
        name: Identifier<'t>,
        first: Expression<'t>,
        last: Expression<'t>,
    },
}

/// A condition of an `if` and what stands behind its `then` (5.3).
#[derive(Drop)]
#[cycle(tree)]
pub struct Branch<'t> {
    pub condition: Expression<'t>,
    pub statements: Vec<Statement<'t>>,
}

/// `begin .. exception .. end`: statements and their handlers (11.2).
#[derive(Drop)]
#[cycle(tree)]
pub struct Sequence<'t> {
    /// Where the word `begin` stands.
    pub begin: Spot,
    pub statements: Vec<Statement<'t>>,
    /// The handlers: an empty list where no `exception` is written.
    pub handlers: Vec<Handler<'t>>,
    /// Where the word `end` stands.
    pub end: Spot,
}

/// `when E | F => ..` (11.2)
#[derive(Drop)]
#[cycle(tree)]
pub struct Handler<'t> {
    /// Where the word `when` stands.
    pub spot: Spot,
    pub choices: Vec<Choice<'t>>,
    pub statements: Vec<Statement<'t>>,
}

/// An exception that a handler handles, or all that are left (11.2).
#[derive(Drop)]
pub enum Choice<'t> {
    Named(Name<'t>),
    /// `others`
    Others(Spot),
}
